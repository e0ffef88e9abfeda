//! The nodes of a text by descent, without a table.
//!
//! A node is written before its row is read. Where an attempt fails, what it wrote is taken back.
//! What can't begin with the byte there isn't tried.

ghost use Rattle.std.specs.Prelude.{◌≡◌, ◌≤◌, ◌<◌, ◌+◌, length, IfOk, OnOk};
ghost use Rattle.weedle_grammar.specs.Rows.{Seq, First, Opt, If};
ghost use Rattle.weedle_grammar.specs.written.Bound.{rule_count};
ghost use Rattle.weedle_grammar.specs.written.Table.{row_of as the_row_of};
ghost use Rattle.weedle_grammar.specs.written.Table.Trivia.{TRIVIA};
ghost use Rattle.weedle_rules.specs.Cells.{HasEnd};
ghost use Rattle.weedle_starts.specs.View.{numbers_of};
ghost use Rattle.weedle_syntax.specs.Laid.{LaysNode, LaysParts};
ghost use Rattle.weedle_syntax.specs.Steps.{RowSteps, Spends, Steps};

use crate::empty::lay_empty;
use crate::limits::Limits;
use crate::narrow::{Narrow, lay, packed};
use crate::token::{choose, read_blanks, read_name};
use crate::trivia::{blanks_alone, lay_blanks};
use std::alloc::AllocError;
use weedle_grammar::Rule;
use weedle_starts::ahead::Ahead;
use weedle_starts::row::{Parts, Row};
use weedle_starts::source::Source;

mod items;

/// Writes the rule's node and all below it, and says where it ends; nothing where it fails.
///
/// What can't begin with the byte there is passed over, and what takes nothing for that byte is
/// written at once.
#[cycle(descent)]
#[inline(always)]
pub(crate) fn read(
    nodes: &mut Vec<Narrow>,
    text: &Source<'_>,
    rule: Rule,
    place: usize,
    depth: usize,
    limits: &mut Limits,
) -> Result<Option<usize>, AllocError>
    requires within { place ≤ length text.now }
    requires shallow { depth ≤ length nodes.old.items }
    requires low { rule < rule_count }
    ensures end { IfOk result (λ o. HasEnd text.now rule place o) }
    ensures lays { IfOk result
        (λ o. LaysNode text.now rule place depth nodes.old.items nodes.new.items o) }
    ensures steps { OnOk result
        (Spends (Steps text.now rule place) limits.old.steps limits.new.steps) }
{
    match text.ahead(rule, place) {
        Ahead::Fails => Ok(None),
        Ahead::Empty => lay_empty(nodes, text, rule, place, depth, limits),
        Ahead::Open => {
            if rule == Rule::TRIVIA {
                return read_trivia(nodes, text, rule, place, depth, limits);
            }
            try_rule(nodes, text, rule, place, depth, limits)
        }
    }
}

/// Writes trivia: at once where it is whitespace alone.
#[cycle(descent)]
fn read_trivia(
    nodes: &mut Vec<Narrow>,
    text: &Source<'_>,
    rule: Rule,
    place: usize,
    depth: usize,
    limits: &mut Limits,
) -> Result<Option<usize>, AllocError>
    requires within { place ≤ length text.now }
    requires shallow { depth ≤ length nodes.old.items }
    requires low { rule < rule_count }
    requires is { rule ≡ TRIVIA }
    ensures end { IfOk result (λ o. HasEnd text.now rule place o) }
    ensures lays { IfOk result
        (λ o. LaysNode text.now rule place depth nodes.old.items nodes.new.items o) }
    ensures steps { OnOk result
        (Spends (Steps text.now rule place) limits.old.steps limits.new.steps) }
{
    match blanks_alone(text, place) {
        Some((first, end)) => { lay_blanks(nodes, text, rule, place, first, end, depth, limits) }
        None => try_rule(nodes, text, rule, place, depth, limits),
    }
}

/// Tries a rule: writes its node and all below it, and says where it ends; nothing where it fails.
/// It takes one of the steps.
#[cycle(descent)]
fn try_rule(
    nodes: &mut Vec<Narrow>,
    text: &Source<'_>,
    rule: Rule,
    place: usize,
    depth: usize,
    limits: &mut Limits,
) -> Result<Option<usize>, AllocError>
    requires within { place ≤ length text.now }
    requires shallow { depth ≤ length nodes.old.items }
    requires low { rule < rule_count }
    ensures end { IfOk result (λ o. HasEnd text.now rule place o) }
    ensures lays { IfOk result
        (λ o. LaysNode text.now rule place depth nodes.old.items nodes.new.items o) }
    ensures steps { OnOk result
        (Spends (Steps text.now rule place) limits.old.steps limits.new.steps) }
{
    if limits.steps == 0 || depth > limits.depth {
        limits.depth = 0;
        return Err(AllocError);
    }
    limits.steps -= 1;
    let at = nodes.len();
    lay(nodes, rule, place, place, depth)?;
    match read_row(nodes, text, rule, place, depth + 1, limits)? {
        Some(end) => {
            let node = packed(rule, place, end, depth)?;
            nodes[at] = node;
            Ok(Some(end))
        }
        None => {
            nodes.truncate(at);
            Ok(None)
        }
    }
}

/// Writes what the rule reads directly and all below it, and says where it ends.
#[cycle(descent)]
fn read_row(
    nodes: &mut Vec<Narrow>,
    text: &Source<'_>,
    rule: Rule,
    place: usize,
    depth: usize,
    limits: &mut Limits,
) -> Result<Option<usize>, AllocError>
    requires within { place ≤ length text.now }
    requires shallow { depth ≤ length nodes.old.items }
    requires low { rule < rule_count }
    ensures end { IfOk result (λ o. HasEnd text.now rule place o) }
    ensures lays { IfOk result
        (λ o. LaysParts text.now rule place depth nodes.old.items nodes.new.items o) }
    ensures steps { OnOk result
        (Spends (RowSteps text.now (the_row_of rule) place) limits.old.steps limits.new.steps) }
{
    match text.row(rule) {
        Row::Bytes(bytes) => Ok(text.end_of_bytes(bytes, place)),
        Row::OneOf(class) => Ok(text.end_of_one(class, place)),
        Row::NotNext(class) => Ok(text.end_of_not_next(class, place)),
        Row::Run(class) => Ok(Some(text.end_of_run(class, place))),
        Row::Past(bytes) => Ok(text.end_past(bytes, place)),
        Row::Seq(parts) => {
            if rule == Rule::BLANKS {
                return read_blanks(nodes, text, rule, place, depth, limits);
            }
            if rule == Rule::IDENTIFIER_TEXT {
                return read_name(nodes, text, rule, place, depth, limits);
            }
            read_parts(nodes, text, rule, place, parts, depth, limits)
        }
        Row::First(choices) => read_choice(nodes, text, rule, place, choices, depth, limits),
        Row::Opt(item) => read_optional(nodes, text, rule, place, item, depth, limits),
        Row::Many(item) => items::read_items(nodes, text, rule, place, item, depth, limits),
        Row::List(item, tail) => items::read_list(
            nodes, text, rule, place, item, tail, depth, limits,
        ),
        Row::List1(item, tail) => items::read_list1(
            nodes, text, rule, place, item, tail, depth, limits,
        ),
        Row::Tail(item, separator) => items::read_tail(
            nodes, text, rule, place, item, separator, depth, limits,
        ),
        Row::If(parts, k, y) => read_conditional(
            nodes, text, rule, place, parts, k, y, depth, limits,
        ),
    }
}

/// Writes the parts of a row `Seq`, one behind another.
#[cycle(descent)]
fn read_parts(
    nodes: &mut Vec<Narrow>,
    text: &Source<'_>,
    rule: Rule,
    place: usize,
    parts: Parts,
    depth: usize,
    limits: &mut Limits,
) -> Result<Option<usize>, AllocError>
    requires within { place ≤ length text.now }
    requires shallow { depth ≤ length nodes.old.items }
    requires low { rule < rule_count }
    requires row { the_row_of rule ≡ Seq (numbers_of parts) }
    ensures end { IfOk result (λ o. HasEnd text.now rule place o) }
    ensures lays { IfOk result
        (λ o. LaysParts text.now rule place depth nodes.old.items nodes.new.items o) }
    ensures steps { OnOk result
        (Spends (RowSteps text.now (the_row_of rule) place) limits.old.steps limits.new.steps) }
{
    let mut at = place;
    for i in 0..parts.len() {
        match read(nodes, text, parts.rule(i), at, depth, limits)? {
            Some(end) => at = end,
            None => return Ok(None),
        }
    }
    Ok(Some(at))
}

/// Writes the first part that fits of a row `First`.
#[cycle(descent)]
fn read_choice(
    nodes: &mut Vec<Narrow>,
    text: &Source<'_>,
    rule: Rule,
    place: usize,
    choices: Parts,
    depth: usize,
    limits: &mut Limits,
) -> Result<Option<usize>, AllocError>
    requires within { place ≤ length text.now }
    requires shallow { depth ≤ length nodes.old.items }
    requires low { rule < rule_count }
    requires row { the_row_of rule ≡ First (numbers_of choices) }
    ensures end { IfOk result (λ o. HasEnd text.now rule place o) }
    ensures lays { IfOk result
        (λ o. LaysParts text.now rule place depth nodes.old.items nodes.new.items o) }
    ensures steps { OnOk result
        (Spends (RowSteps text.now (the_row_of rule) place) limits.old.steps limits.new.steps) }
{
    for i in 0..choices.len() {
        match read(nodes, text, choices.rule(i), place, depth, limits)? {
            Some(end) => return Ok(Some(end)),
            None => {}
        }
    }
    Ok(None)
}

/// Writes the rule of a row `Opt`, or nothing.
#[cycle(descent)]
fn read_optional(
    nodes: &mut Vec<Narrow>,
    text: &Source<'_>,
    rule: Rule,
    place: usize,
    item: Rule,
    depth: usize,
    limits: &mut Limits,
) -> Result<Option<usize>, AllocError>
    requires within { place ≤ length text.now }
    requires shallow { depth ≤ length nodes.old.items }
    requires low { rule < rule_count }
    requires row { the_row_of rule ≡ Opt item }
    ensures end { IfOk result (λ o. HasEnd text.now rule place o) }
    ensures lays { IfOk result
        (λ o. LaysParts text.now rule place depth nodes.old.items nodes.new.items o) }
    ensures steps { OnOk result
        (Spends (RowSteps text.now (the_row_of rule) place) limits.old.steps limits.new.steps) }
{
    match read(nodes, text, item, place, depth, limits)? {
        Some(end) => Ok(Some(end)),
        None => Ok(Some(place)),
    }
}

/// Writes the parts of a row `If`, and the last behind them where the part of this number took
/// something.
#[cycle(descent)]
fn read_conditional(
    nodes: &mut Vec<Narrow>,
    text: &Source<'_>,
    rule: Rule,
    place: usize,
    parts: Parts,
    k: usize,
    y: Rule,
    depth: usize,
    limits: &mut Limits,
) -> Result<Option<usize>, AllocError>
    requires within { place ≤ length text.now }
    requires shallow { depth ≤ length nodes.old.items }
    requires low { rule < rule_count }
    requires row { the_row_of rule ≡ If (numbers_of parts) k y }
    ensures end { IfOk result (λ o. HasEnd text.now rule place o) }
    ensures lays { IfOk result
        (λ o. LaysParts text.now rule place depth nodes.old.items nodes.new.items o) }
    ensures steps { OnOk result
        (Spends (RowSteps text.now (the_row_of rule) place) limits.old.steps limits.new.steps) }
{
    let mut at = place;
    let mut present = false;
    for i in 0..parts.len() {
        match read(nodes, text, parts.rule(i), at, depth, limits)? {
            Some(end) => {
                present = choose(i == k, end != at, present);
                at = end;
            }
            None => return Ok(None),
        }
    }
    if present {
        let end = read(nodes, text, y, at, depth, limits)?;
        return Ok(end);
    }
    Ok(Some(at))
}
