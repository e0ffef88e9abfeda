//! Copies of lists that definitions have, each with the tree of its original.

ghost use Rattle.std.specs.Prelude.{IfOk, ◌≡◌};
ghost use Rattle.weedle_namespaces.specs.written.Trees.{
  dictionary_member_tree,
  namespace_member_tree,
};
ghost use Rattle.weedle_parts.specs.ValueTrees.{braced_tree};
ghost use Rattle.weedle_types.specs.PartTrees.{members_tree};

use crate::dictionary::DictionaryMembers;
use crate::namespace::NamespaceMembers;
use std::alloc::{AllocError, Global};
use weedle_base::TryClone;
use weedle_parts::common::Braced;

/// Copies a namespace's members and their braces.
#[tactic(auto, using(crate::proofs::CopyFacts::namespace_members_alike))]
pub(crate) fn copy_namespace_members<'a>(
    members: &Braced<NamespaceMembers<'a>>,
    alloc: Global,
) -> Result<Braced<NamespaceMembers<'a>>, AllocError>
    ensures { IfOk result
        (λ copy. braced_tree (members_tree namespace_member_tree) copy
        ≡ braced_tree (members_tree namespace_member_tree) members.now) }
{
    let copy = members.try_clone(alloc)?;
    Ok(copy)
}

/// Copies a dictionary's members and their braces.
#[tactic(auto, using(crate::proofs::CopyFacts::dictionary_members_alike))]
pub(crate) fn copy_dictionary_members<'a>(
    members: &Braced<DictionaryMembers<'a>>,
    alloc: Global,
) -> Result<Braced<DictionaryMembers<'a>>, AllocError>
    ensures { IfOk result
        (λ copy. braced_tree (members_tree dictionary_member_tree) copy
        ≡ braced_tree (members_tree dictionary_member_tree) members.now) }
{
    let copy = members.try_clone(alloc)?;
    Ok(copy)
}
