//! The members of an interface, one after another.

ghost use Rattle.std.specs.Prelude.{IfOk, ◌≡◌};
ghost use Rattle.weedle_interfaces.specs.written.Trees.{interface_member_tree};
ghost use Rattle.weedle_parts.specs.ValueTrees.{braced_tree};
ghost use Rattle.weedle_types.specs.PartTrees.{members_tree};

use crate::InterfaceMember;
use std::alloc::{AllocError, Global};
use weedle_base::TryClone;
use weedle_parts::common::Braced;

/// The members of an interface, one after another, as `long f(); long g();`; none included.
pub type InterfaceMembers<'a> = Vec<InterfaceMember<'a>>;

/// Copies an interface's members and their braces, with the tree of the original.
#[tactic(auto, using(crate::proofs::CopyFacts::interface_members_alike))]
pub(crate) fn copy_interface_members<'a>(
    members: &Braced<InterfaceMembers<'a>>,
    alloc: Global,
) -> Result<Braced<InterfaceMembers<'a>>, AllocError>
    ensures { IfOk result
        (λ copy. braced_tree (members_tree interface_member_tree) copy
        ≡ braced_tree (members_tree interface_member_tree) members.now) }
{
    let copy = members.try_clone(alloc)?;
    Ok(copy)
}
