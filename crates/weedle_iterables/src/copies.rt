//! Copies of a part that both kinds of asynchronous iterations have, with the tree of its original.

ghost use Rattle.std.specs.Prelude.{IfOk, ◌≡◌};
ghost use Rattle.weedle_iterables.specs.written.PartTrees.{optional_arguments_tree};

use std::alloc::{AllocError, Global};
use weedle_base::TryClone;
use weedle_types::argument::ParenthesizedArgumentList;

/// Copies arguments that may be absent.
#[tactic(auto, using(crate::proofs::CopyFacts::optional_arguments_alike))]
pub(crate) fn copy_optional_arguments<'a>(
    arguments: &Option<ParenthesizedArgumentList<'a>>,
    alloc: Global,
) -> Result<Option<ParenthesizedArgumentList<'a>>, AllocError>
    ensures { IfOk result
        (λ copy. optional_arguments_tree copy ≡ optional_arguments_tree arguments.now) }
{
    let copy = arguments.try_clone(alloc)?;
    Ok(copy)
}
