//! Whitespace and names: a byte of a class, and a run of bytes behind it.

ghost use Rattle.std.specs.Prelude.{◌≡◌, ◌≤◌, ◌<◌, [], ◌∷◌, length, IfOk, OnOk, if◌then◌else◌};
ghost use Rattle.weedle_grammar.specs.Rows.{OneOf, Run, Seq};
ghost use Rattle.weedle_grammar.specs.written.Table.{row_of as the_row_of};
ghost use Rattle.weedle_grammar.specs.written.Table.Trivia.{BLANKS};
ghost use Rattle.weedle_grammar.specs.written.Table.Leaves.{IDENTIFIER_TEXT};
ghost use Rattle.weedle_rules.specs.Cells.{HasEnd};
ghost use Rattle.weedle_syntax.specs.Laid.{LaysParts};
ghost use Rattle.weedle_syntax.specs.Steps.{RowSteps, Spends};

use crate::limits::Limits;
use crate::narrow::{Narrow, lay};
use std::alloc::AllocError;
use weedle_grammar::{Class, Rule};
use weedle_starts::source::Source;

/// Writes the two parts of a token, as `read_parts` does, with no call for each: a byte of one
/// class, and a run of another behind it.
#[inline(always)]
pub(crate) fn read_token(
    nodes: &mut Vec<Narrow>,
    text: &Source<'_>,
    rule: Rule,
    place: usize,
    depth: usize,
    first: Rule,
    first_class: Class,
    run: Rule,
    run_class: Class,
    limits: &mut Limits,
) -> Result<Option<usize>, AllocError>
    requires within { place ≤ length text.now }
    requires row { the_row_of rule ≡ Seq (first ∷ run ∷ []) }
    requires one { the_row_of first ≡ OneOf first_class }
    requires others { the_row_of run ≡ Run run_class }
    ensures end { IfOk result (λ o. HasEnd text.now rule place o) }
    ensures lays { IfOk result
        (λ o. LaysParts text.now rule place depth nodes.old.items nodes.new.items o) }
    ensures steps { OnOk result
        (Spends (RowSteps text.now (the_row_of rule) place) limits.old.steps limits.new.steps) }
{
    if limits.steps < 2 || depth > limits.depth {
        limits.depth = 0;
        return Err(AllocError);
    }
    let Some(at) = text.end_of_one(first_class, place) else {
        limits.steps -= 1;
        return Ok(None);
    };
    limits.steps -= 2;
    let end = text.end_of_run(run_class, at);
    lay(nodes, first, place, at, depth)?;
    lay(nodes, run, at, end, depth)?;
    Ok(Some(end))
}

/// Writes the parts of whitespace.
#[inline(always)]
pub(crate) fn read_blanks(
    nodes: &mut Vec<Narrow>,
    text: &Source<'_>,
    rule: Rule,
    place: usize,
    depth: usize,
    limits: &mut Limits,
) -> Result<Option<usize>, AllocError>
    requires within { place ≤ length text.now }
    requires is { rule ≡ BLANKS }
    ensures end { IfOk result (λ o. HasEnd text.now rule place o) }
    ensures lays { IfOk result
        (λ o. LaysParts text.now rule place depth nodes.old.items nodes.new.items o) }
    ensures steps { OnOk result
        (Spends (RowSteps text.now (the_row_of rule) place) limits.old.steps limits.new.steps) }
{
    let (first, run) = (Rule::ONE_OF_BLANK, Rule::RUN_BLANK);
    read_token(
        nodes,
        text,
        rule,
        place,
        depth,
        first,
        Class::Blank,
        run,
        Class::Blank,
        limits,
    )
}

/// Writes the parts of the text of a name.
#[inline(always)]
pub(crate) fn read_name(
    nodes: &mut Vec<Narrow>,
    text: &Source<'_>,
    rule: Rule,
    place: usize,
    depth: usize,
    limits: &mut Limits,
) -> Result<Option<usize>, AllocError>
    requires within { place ≤ length text.now }
    requires is { rule ≡ IDENTIFIER_TEXT }
    ensures end { IfOk result (λ o. HasEnd text.now rule place o) }
    ensures lays { IfOk result
        (λ o. LaysParts text.now rule place depth nodes.old.items nodes.new.items o) }
    ensures steps { OnOk result
        (Spends (RowSteps text.now (the_row_of rule) place) limits.old.steps limits.new.steps) }
{
    let (first, run) = (Rule::ONE_OF_LETTER, Rule::RUN_NAME);
    read_token(
        nodes,
        text,
        rule,
        place,
        depth,
        first,
        Class::Letter,
        run,
        Class::Name,
        limits,
    )
}

/// The first of two booleans where the test holds, else the second.
pub(crate) fn choose(test: bool, first: bool, second: bool) -> bool
    ensures { result ≡ (if test then first else second) }
{
    if test { first } else { second }
}
