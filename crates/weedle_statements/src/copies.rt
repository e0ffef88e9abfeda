//! Copies of lists that definitions have, each with the tree of its original.

ghost use Rattle.std.specs.Prelude.{IfOk, ◌≡◌};
ghost use Rattle.weedle_statements.specs.written.Trees.{enum_values_tree};

use crate::EnumValueList;
use std::alloc::{AllocError, Global};
use weedle_base::TryClone;
use weedle_parts::common::Braced;

/// Copies an enum's values.
#[tactic(auto, using(crate::proofs::CopyFacts::enum_values_alike))]
pub(crate) fn copy_enum_values<'a>(
    values: &Braced<EnumValueList<'a>>,
    alloc: Global,
) -> Result<Braced<EnumValueList<'a>>, AllocError>
    ensures { IfOk result (λ copy. enum_values_tree copy ≡ enum_values_tree values.now) }
{
    let copy = values.try_clone(alloc)?;
    Ok(copy)
}
