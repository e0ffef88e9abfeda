//! Rules that take nothing, by the byte at their place.

ghost use Rattle.std.specs.Prelude.{◌≡◌, IfOk, OnOk};
ghost use Rattle.weedle_rules.specs.Cells.{HasEnd};
ghost use Rattle.weedle_starts.specs.Ways.{GoesWithout};
ghost use Rattle.weedle_syntax.specs.Laid.{LaysNode};
ghost use Rattle.weedle_syntax.specs.Steps.{Spends, Steps};

use crate::limits::Limits;
use crate::narrow::{Narrow, lay};
use std::alloc::AllocError;
use weedle_grammar::Rule;
use weedle_starts::source::Source;

/// Writes the node of an option, a repetition or a list that takes nothing, since what it may go
/// without can't begin there. It takes one of the steps.
pub(crate) fn lay_empty(
    nodes: &mut Vec<Narrow>,
    text: &Source<'_>,
    rule: Rule,
    place: usize,
    depth: usize,
    limits: &mut Limits,
) -> Result<Option<usize>, AllocError>
    requires without { GoesWithout text.now rule place }
    ensures end { IfOk result (λ o. HasEnd text.now rule place o) }
    ensures lays { IfOk result
        (λ o. LaysNode text.now rule place depth nodes.old.items nodes.new.items o) }
    ensures steps { OnOk result
        (Spends (Steps text.now rule place) limits.old.steps limits.new.steps) }
{
    if limits.steps == 0 || depth > limits.depth {
        limits.depth = 0;
        return Err(AllocError);
    }
    limits.steps -= 1;
    lay(nodes, rule, place, place, depth)?;
    Ok(Some(place))
}
