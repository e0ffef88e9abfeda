//! Copies of lists that definitions have, each with the tree of its original.

ghost use Rattle.std.specs.Prelude.{IfOk, ◌≡◌};
ghost use Rattle.weedle_mixins.specs.written.Trees.{mixin_member_tree};
ghost use Rattle.weedle_parts.specs.ValueTrees.{braced_tree};
ghost use Rattle.weedle_types.specs.PartTrees.{members_tree};

use crate::mixin::MixinMembers;
use std::alloc::{AllocError, Global};
use weedle_base::TryClone;
use weedle_parts::common::Braced;

/// Copies a mixin's members and their braces.
#[tactic(auto, using(crate::proofs::CopyFacts::mixin_members_alike))]
pub(crate) fn copy_mixin_members<'a>(
    members: &Braced<MixinMembers<'a>>,
    alloc: Global,
) -> Result<Braced<MixinMembers<'a>>, AllocError>
    ensures { IfOk result
        (λ copy. braced_tree (members_tree mixin_member_tree) copy
        ≡ braced_tree (members_tree mixin_member_tree) members.now) }
{
    let copy = members.try_clone(alloc)?;
    Ok(copy)
}
