//! Rows of items: repetitions and lists.

ghost use Rattle.std.specs.Prelude.{◌≡◌, ◌≤◌, ◌<◌, length, IfOk, OnOk};
ghost use Rattle.weedle_grammar.specs.Rows.{Many, ListOf, List1, Tail};
ghost use Rattle.weedle_grammar.specs.written.Bound.{rule_count};
ghost use Rattle.weedle_grammar.specs.written.Table.{row_of as the_row_of};
ghost use Rattle.weedle_rules.specs.Cells.{HasEnd};
ghost use Rattle.weedle_syntax.specs.Laid.{LaysParts};
ghost use Rattle.weedle_syntax.specs.Steps.{RowSteps, Spends};

use super::read;
use crate::limits::Limits;
use crate::narrow::Narrow;
use std::alloc::AllocError;
use weedle_grammar::Rule;
use weedle_starts::source::Source;

/// Writes the rule of a row `Many`, from end to end.
#[cycle(descent)]
pub(crate) fn read_items(
    nodes: &mut Vec<Narrow>,
    text: &Source<'_>,
    rule: Rule,
    place: usize,
    item: Rule,
    depth: usize,
    limits: &mut Limits,
) -> Result<Option<usize>, AllocError>
    requires within { place ≤ length text.now }
    requires shallow { depth ≤ length nodes.old.items }
    requires low { rule < rule_count }
    requires row { the_row_of rule ≡ Many item }
    ensures end { IfOk result (λ o. HasEnd text.now rule place o) }
    ensures lays { IfOk result
        (λ o. LaysParts text.now rule place depth nodes.old.items nodes.new.items o) }
    ensures steps { OnOk result
        (Spends (RowSteps text.now (the_row_of rule) place) limits.old.steps limits.new.steps) }
{
    let mut at = place;
    loop {
        let found = read(nodes, text, item, at, depth, limits)?;
        let Some(end) = found else {
            return Ok(Some(at));
        };
        if end == at {
            return Ok(None);
        }
        at = end;
    }
}

/// Writes an item of a row `List` and what follows it, or nothing.
#[cycle(descent)]
pub(crate) fn read_list(
    nodes: &mut Vec<Narrow>,
    text: &Source<'_>,
    rule: Rule,
    place: usize,
    item: Rule,
    tail: Rule,
    depth: usize,
    limits: &mut Limits,
) -> Result<Option<usize>, AllocError>
    requires within { place ≤ length text.now }
    requires shallow { depth ≤ length nodes.old.items }
    requires low { rule < rule_count }
    requires row { the_row_of rule ≡ ListOf item tail }
    ensures end { IfOk result (λ o. HasEnd text.now rule place o) }
    ensures lays { IfOk result
        (λ o. LaysParts text.now rule place depth nodes.old.items nodes.new.items o) }
    ensures steps { OnOk result
        (Spends (RowSteps text.now (the_row_of rule) place) limits.old.steps limits.new.steps) }
{
    match read(nodes, text, item, place, depth, limits)? {
        Some(at) => {
            let end = read(nodes, text, tail, at, depth, limits)?;
            Ok(end)
        }
        None => Ok(Some(place)),
    }
}

/// Writes an item of a row `List1` and what follows it.
#[cycle(descent)]
pub(crate) fn read_list1(
    nodes: &mut Vec<Narrow>,
    text: &Source<'_>,
    rule: Rule,
    place: usize,
    item: Rule,
    tail: Rule,
    depth: usize,
    limits: &mut Limits,
) -> Result<Option<usize>, AllocError>
    requires within { place ≤ length text.now }
    requires shallow { depth ≤ length nodes.old.items }
    requires low { rule < rule_count }
    requires row { the_row_of rule ≡ List1 item tail }
    ensures end { IfOk result (λ o. HasEnd text.now rule place o) }
    ensures lays { IfOk result
        (λ o. LaysParts text.now rule place depth nodes.old.items nodes.new.items o) }
    ensures steps { OnOk result
        (Spends (RowSteps text.now (the_row_of rule) place) limits.old.steps limits.new.steps) }
{
    match read(nodes, text, item, place, depth, limits)? {
        Some(at) => {
            let end = read(nodes, text, tail, at, depth, limits)?;
            Ok(end)
        }
        None => Ok(None),
    }
}

/// Writes the items of a row `Tail`, each behind a separator.
#[cycle(descent)]
pub(crate) fn read_tail(
    nodes: &mut Vec<Narrow>,
    text: &Source<'_>,
    rule: Rule,
    place: usize,
    item: Rule,
    separator: Rule,
    depth: usize,
    limits: &mut Limits,
) -> Result<Option<usize>, AllocError>
    requires within { place ≤ length text.now }
    requires shallow { depth ≤ length nodes.old.items }
    requires low { rule < rule_count }
    requires row { the_row_of rule ≡ Tail item separator }
    ensures end { IfOk result (λ o. HasEnd text.now rule place o) }
    ensures lays { IfOk result
        (λ o. LaysParts text.now rule place depth nodes.old.items nodes.new.items o) }
    ensures steps { OnOk result
        (Spends (RowSteps text.now (the_row_of rule) place) limits.old.steps limits.new.steps) }
{
    let mut at = place;
    loop {
        let kept = nodes.len();
        let found = read(nodes, text, separator, at, depth, limits)?;
        let Some(behind) = found else {
            return Ok(Some(at));
        };
        if behind == at {
            return Ok(None);
        }
        let next = read(nodes, text, item, behind, depth, limits)?;
        let Some(end) = next else {
            nodes.truncate(kept);
            return Ok(Some(at));
        };
        at = end;
    }
}
