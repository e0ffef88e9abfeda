//! The names in unions.
#![tactic(auto, using(crate::proofs::NameFacts::name_steps, weedle_types::proofs::TreeLaws::clone_steps))]

ghost use Rattle.std.specs.Prelude.{◌≡◌, ◌++◌, OnOk, flat_map};
ghost use Rattle.weedle_view.specs.TypeNames.{names_in_union_member};

use super::attributes::push_attributes;
use super::types::push_non_any_type;
use std::alloc::AllocError;
use weedle_parts::common::Identifier;
use weedle_types::types::UnionMemberType;

/// Adds the names in the members of a union.
#[cycle(names)]
#[tactic(auto, using(crate::proofs::NameFacts::name_steps, weedle_types::proofs::TreeLaws::clone_steps, weedle_types::proofs::Smaller::member_smaller))]
pub(crate) fn push_union_members<'a>(
    members: &Vec<UnionMemberType<'a>>,
    names: &mut Vec<Identifier<'a>>,
) -> Result<(), AllocError>
    ensures { OnOk result
        (names.new.items ≡ names.old.items ++ flat_map names_in_union_member members.now.items) }
{
    for member in members {
        push_union_member(member, names)?;
    }
    Ok(())
}

/// Adds the names in a member of a union.
#[cycle(names)]
pub(crate) fn push_union_member<'a>(
    member: &UnionMemberType<'a>,
    names: &mut Vec<Identifier<'a>>,
) -> Result<(), AllocError>
    ensures { OnOk result (names.new.items ≡ names.old.items ++ names_in_union_member member.now) }
{
    match member {
        UnionMemberType::Single(member) => {
            push_attributes(&member.attributes, names)?;
            push_non_any_type(&member.type_, names)
        }
        UnionMemberType::Union(union) => push_union_members(&union.type_.body.list, names),
    }
}
