//! Clones of unions.
#![tactic(auto, using(crate::proofs::TreeLaws::clone_steps))]

ghost use Rattle.std.specs.Prelude.{◌≡◌, IfOk, map};
ghost use Rattle.weedle_parts.specs.ValueTrees.{may_be_null_tree};
ghost use Rattle.weedle_types.specs.Trees.{union_member_type_tree, union_type_tree};

use super::types::clone_attributed_non_any_type;
use crate::types::{UnionMemberType, UnionType};
use std::alloc::{AllocError, Global};
use weedle_parts::common::{Parenthesized, Punctuated};
use weedle_parts::types::MayBeNull;

/// Clones a union that may be null.
#[cycle(clones)]
pub(crate) fn clone_nullable_union_type<'a>(
    original: &MayBeNull<UnionType<'a>>,
    alloc: Global,
) -> Result<MayBeNull<UnionType<'a>>, AllocError>
    ensures { IfOk result
        (λ v. may_be_null_tree union_type_tree v ≡ may_be_null_tree union_type_tree original.now) }
{
    Ok(MayBeNull {
        type_: Parenthesized {
            open_paren: original.type_.open_paren,
            body: Punctuated {
                list: clone_union_members(&original.type_.body.list, alloc)?,
                separator: original.type_.body.separator,
            },
            close_paren: original.type_.close_paren,
        },
        q_mark: original.q_mark,
    })
}

/// Clones the members of a union, in their order.
#[cycle(clones)]
#[tactic(auto, using(crate::proofs::TreeLaws::clone_steps, crate::proofs::Smaller::member_smaller))]
pub(crate) fn clone_union_members<'a>(
    original: &Vec<UnionMemberType<'a>>,
    alloc: Global,
) -> Result<Vec<UnionMemberType<'a>>, AllocError>
    ensures { IfOk result
        (λ v. map union_member_type_tree v.items ≡ map union_member_type_tree original.now.items) }
{
    let mut clones = Vec::new(alloc);
    for item in original {
        clones.push(clone_union_member_type(item, alloc)?)?;
    }
    Ok(clones)
}

/// Clones a member of a union, as `[Clamp] octet` or `(long or DOMString)`.
#[cycle(clones)]
pub(crate) fn clone_union_member_type<'a>(
    original: &UnionMemberType<'a>,
    alloc: Global,
) -> Result<UnionMemberType<'a>, AllocError>
    ensures { IfOk result (λ v. union_member_type_tree v ≡ union_member_type_tree original.now) }
{
    match original {
        UnionMemberType::Single(member) => Ok(UnionMemberType::Single(clone_attributed_non_any_type(
            member, alloc,
        )?)),
        UnionMemberType::Union(member) => Ok(UnionMemberType::Union(clone_nullable_union_type(
            member, alloc,
        )?)),
    }
}
