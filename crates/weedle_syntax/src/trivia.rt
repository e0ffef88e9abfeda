//! Trivia that is whitespace alone, which is written at once.

ghost use Rattle.std.specs.Prelude.{◌≡◌, ◌≤◌, length, IfOk, IfSome, OnOk};
ghost use Rattle.weedle_grammar.specs.written.Table.Trivia.{TRIVIA};
ghost use Rattle.weedle_rules.specs.Cells.{HasEnd};
ghost use Rattle.weedle_syntax.specs.Laid.{AreBlanksAlone, LaysNode};
ghost use Rattle.weedle_syntax.specs.Steps.{Spends, Steps};

use crate::limits::Limits;
use crate::narrow::{Narrow, lay};
use std::alloc::AllocError;
use weedle_grammar::{Class, Rule};
use weedle_starts::source::Source;

/// Where whitespace ends at a place without a comment before or behind it, and where its first byte
/// ends; None of other trivia. Whitespace at the end of a text counts as other trivia.
pub(crate) fn blanks_alone(text: &Source<'_>, place: usize) -> Option<(usize, usize)>
    requires { place ≤ length text.now }
    ensures { IfSome result (λ ends. AreBlanksAlone text.now place ends.0 ends.1) }
{
    let Some(first) = text.end_of_one(Class::Blank, place) else {
        return None;
    };
    let end = text.end_of_run(Class::Blank, first);
    if end == place {
        return None;
    }
    if !text.refuses(Rule::LINE_COMMENT, place) {
        return None;
    }
    if !text.refuses(Rule::PIECE, end) {
        return None;
    }
    Some((first, end))
}

/// Writes trivia that is this whitespace alone: its node and all four below it. It takes five of
/// the steps.
pub(crate) fn lay_blanks(
    nodes: &mut Vec<Narrow>,
    text: &Source<'_>,
    rule: Rule,
    place: usize,
    first: usize,
    end: usize,
    depth: usize,
    limits: &mut Limits,
) -> Result<Option<usize>, AllocError>
    requires within { place ≤ length text.now }
    requires shallow { depth ≤ length nodes.old.items }
    requires is { rule ≡ TRIVIA }
    requires blanks { AreBlanksAlone text.now place first end }
    ensures end { IfOk result (λ o. HasEnd text.now rule place o) }
    ensures lays { IfOk result
        (λ o. LaysNode text.now rule place depth nodes.old.items nodes.new.items o) }
    ensures steps { OnOk result
        (Spends (Steps text.now rule place) limits.old.steps limits.new.steps) }
{
    let (piece, blanks, byte) = (depth + 1, depth + 1 + 1, depth + 1 + 1 + 1);
    if limits.steps < 5 || byte > limits.depth {
        limits.depth = 0;
        return Err(AllocError);
    }
    limits.steps -= 5;
    lay(nodes, rule, place, end, depth)?;
    lay(nodes, Rule::PIECE, place, end, piece)?;
    lay(nodes, Rule::BLANKS, place, end, blanks)?;
    lay(nodes, Rule::ONE_OF_BLANK, place, first, byte)?;
    lay(nodes, Rule::RUN_BLANK, first, end, byte)?;
    Ok(Some(end))
}
