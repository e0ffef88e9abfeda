//! What fails furthest on, by descent, without a table.
//!
//! Each rule is read where it is tried, and a rule without parts that fails is noted. What can't
//! begin with the byte there isn't read, since all that it would try fails there: it is noted as a
//! whole.

ghost use Rattle.std.specs.Prelude.{
  ◌≡◌,
  ◌≤◌,
  ◌<◌,
  ◌+◌,
  length,
  false,
  None,
  IfOk,
  IsTrue,
  OnOk,
  if◌then◌else◌,
};
ghost use Rattle.weedle_grammar.specs.Rows.{Seq, First, Opt, Many, ListOf, List1, Tail, If};
ghost use Rattle.weedle_grammar.specs.written.Bound.{rule_count};
ghost use Rattle.weedle_grammar.specs.written.Table.{row_of as the_row_of};
ghost use Rattle.weedle_rules.specs.Cells.{HasEnd};
ghost use Rattle.weedle_starts.specs.Tries.{TriesHere};
ghost use Rattle.weedle_starts.specs.View.{numbers_of};
ghost use Rattle.weedle_syntax.specs.Steps.{RowSteps, Spends, Steps};
ghost use Rattle.weedle_refusal.specs.Diagnosis.{IsUnmetIn};
ghost use Rattle.weedle_refusal.specs.Noted.{Notes};

use crate::diagnose::noted::Furthest;
use weedle_grammar::Rule;
use weedle_starts::row::{Parts, Row};
use weedle_starts::source::Source;

/// The descent gave up: it would have to try more rules than it may, or deeper in one another.
#[derive(Drop)]
pub(crate) struct GaveUp;

/// Notes what fails where the rule is read, and says where it ends; nothing where it fails.
///
/// At most `left` rules are tried, and at most `depth` in one another. What can't begin with the
/// byte there is passed over, and not counted.
#[cycle(descent)]
pub(crate) fn read(
    furthest: &mut Furthest,
    left: &mut usize,
    text: &Source<'_>,
    rule: Rule,
    place: usize,
    depth: usize,
) -> Result<Option<usize>, GaveUp>
    requires within { place ≤ length text.now }
    requires low { rule < rule_count }
    ensures end { IfOk result (λ o. HasEnd text.now rule place o) }
    ensures notes { IfOk result
        (λ o. Notes text.now (IsUnmetIn text.now rule place) furthest.old furthest.new) }
    ensures steps { OnOk result (Spends (Steps text.now rule place) left.old left.new) }
{
    if is_refused(furthest, text, rule, place) {
        furthest.note(rule, place);
        return Ok(None);
    }
    let below = step(left, depth)?;
    match text.row(rule) {
        Row::Bytes(bytes) => Ok(furthest.unless(text.end_of_bytes(bytes, place), rule, place)),
        Row::OneOf(class) => Ok(furthest.unless(text.end_of_one(class, place), rule, place)),
        Row::NotNext(class) => {
            Ok(furthest.unless(text.end_of_not_next(class, place), rule, place))
        }
        Row::Run(class) => Ok(Some(text.end_of_run(class, place))),
        Row::Past(bytes) => Ok(furthest.unless(text.end_past(bytes, place), rule, place)),
        Row::Seq(parts) => read_parts(furthest, left, text, rule, place, parts, below),
        Row::First(choices) => read_choice(furthest, left, text, rule, place, choices, below),
        Row::Opt(item) => read_optional(furthest, left, text, rule, place, item, below),
        Row::Many(item) => read_items(furthest, left, text, rule, place, item, below),
        Row::List(item, tail) => read_list(furthest, left, text, rule, place, item, tail, below),
        Row::List1(item, tail) => read_list1(furthest, left, text, rule, place, item, tail, below),
        Row::Tail(item, separator) => {
            read_tail(furthest, left, text, rule, place, item, separator, below)
        }
        Row::If(parts, k, y) => {
            read_conditional(furthest, left, text, rule, place, parts, k, y, below)
        }
    }
}

/// Whether the rule is noted as a whole, since it can't begin with the byte there.
#[inline(always)]
fn is_refused(furthest: &Furthest, text: &Source<'_>, rule: Rule, place: usize) -> bool
    requires { place ≤ length text.now }
    ensures leaves { IsTrue result → furthest.now.leaves ≡ false }
    ensures end { IsTrue result → HasEnd text.now rule place None }
    ensures here { IsTrue result → TriesHere text.now rule place }
{
    if furthest.leaves {
        return false;
    }
    text.refuses(rule, place)
}

/// Counts a rule that is tried, and says how deep those may nest that it reads.
#[inline(always)]
fn step(left: &mut usize, depth: usize) -> Result<usize, GaveUp>
    ensures { OnOk result (left.old ≡ 1 + left.new) }
{
    if *left == 0 || depth == 0 {
        return Err(GaveUp);
    }
    *left -= 1;
    Ok(depth - 1)
}

/// Parts one behind another.
#[cycle(descent)]
fn read_parts(
    furthest: &mut Furthest,
    left: &mut usize,
    text: &Source<'_>,
    rule: Rule,
    place: usize,
    parts: Parts,
    depth: usize,
) -> Result<Option<usize>, GaveUp>
    requires within { place ≤ length text.now }
    requires low { rule < rule_count }
    requires row { the_row_of rule ≡ Seq (numbers_of parts) }
    ensures end { IfOk result (λ o. HasEnd text.now rule place o) }
    ensures notes { IfOk result
        (λ o. Notes text.now (IsUnmetIn text.now rule place) furthest.old furthest.new) }
    ensures steps { OnOk result
        (Spends (RowSteps text.now (the_row_of rule) place) left.old left.new) }
{
    let mut at = place;
    for i in 0..parts.len() {
        match read(furthest, left, text, parts.rule(i), at, depth)? {
            Some(end) => at = end,
            None => return Ok(None),
        }
    }
    Ok(Some(at))
}

/// The first that fits.
#[cycle(descent)]
fn read_choice(
    furthest: &mut Furthest,
    left: &mut usize,
    text: &Source<'_>,
    rule: Rule,
    place: usize,
    choices: Parts,
    depth: usize,
) -> Result<Option<usize>, GaveUp>
    requires within { place ≤ length text.now }
    requires low { rule < rule_count }
    requires row { the_row_of rule ≡ First (numbers_of choices) }
    ensures end { IfOk result (λ o. HasEnd text.now rule place o) }
    ensures notes { IfOk result
        (λ o. Notes text.now (IsUnmetIn text.now rule place) furthest.old furthest.new) }
    ensures steps { OnOk result
        (Spends (RowSteps text.now (the_row_of rule) place) left.old left.new) }
{
    for i in 0..choices.len() {
        match read(furthest, left, text, choices.rule(i), place, depth)? {
            Some(end) => return Ok(Some(end)),
            None => {}
        }
    }
    Ok(None)
}

/// The rule, or nothing.
#[cycle(descent)]
fn read_optional(
    furthest: &mut Furthest,
    left: &mut usize,
    text: &Source<'_>,
    rule: Rule,
    place: usize,
    item: Rule,
    depth: usize,
) -> Result<Option<usize>, GaveUp>
    requires within { place ≤ length text.now }
    requires low { rule < rule_count }
    requires row { the_row_of rule ≡ Opt item }
    ensures end { IfOk result (λ o. HasEnd text.now rule place o) }
    ensures notes { IfOk result
        (λ o. Notes text.now (IsUnmetIn text.now rule place) furthest.old furthest.new) }
    ensures steps { OnOk result
        (Spends (RowSteps text.now (the_row_of rule) place) left.old left.new) }
{
    match read(furthest, left, text, item, place, depth)? {
        Some(end) => Ok(Some(end)),
        None => Ok(Some(place)),
    }
}

/// The rule from end to end.
#[cycle(descent)]
fn read_items(
    furthest: &mut Furthest,
    left: &mut usize,
    text: &Source<'_>,
    rule: Rule,
    place: usize,
    item: Rule,
    depth: usize,
) -> Result<Option<usize>, GaveUp>
    requires within { place ≤ length text.now }
    requires low { rule < rule_count }
    requires row { the_row_of rule ≡ Many item }
    ensures end { IfOk result (λ o. HasEnd text.now rule place o) }
    ensures notes { IfOk result
        (λ o. Notes text.now (IsUnmetIn text.now rule place) furthest.old furthest.new) }
    ensures steps { OnOk result
        (Spends (RowSteps text.now (the_row_of rule) place) left.old left.new) }
{
    let mut at = place;
    loop {
        let found = read(furthest, left, text, item, at, depth)?;
        let Some(end) = found else {
            return Ok(Some(at));
        };
        if end == at {
            return Ok(None);
        }
        at = end;
    }
}

/// An item and what follows it, or nothing.
#[cycle(descent)]
fn read_list(
    furthest: &mut Furthest,
    left: &mut usize,
    text: &Source<'_>,
    rule: Rule,
    place: usize,
    item: Rule,
    tail: Rule,
    depth: usize,
) -> Result<Option<usize>, GaveUp>
    requires within { place ≤ length text.now }
    requires low { rule < rule_count }
    requires row { the_row_of rule ≡ ListOf item tail }
    ensures end { IfOk result (λ o. HasEnd text.now rule place o) }
    ensures notes { IfOk result
        (λ o. Notes text.now (IsUnmetIn text.now rule place) furthest.old furthest.new) }
    ensures steps { OnOk result
        (Spends (RowSteps text.now (the_row_of rule) place) left.old left.new) }
{
    match read(furthest, left, text, item, place, depth)? {
        Some(at) => {
            let end = read(furthest, left, text, tail, at, depth)?;
            Ok(end)
        }
        None => Ok(Some(place)),
    }
}

/// An item and what follows it.
#[cycle(descent)]
fn read_list1(
    furthest: &mut Furthest,
    left: &mut usize,
    text: &Source<'_>,
    rule: Rule,
    place: usize,
    item: Rule,
    tail: Rule,
    depth: usize,
) -> Result<Option<usize>, GaveUp>
    requires within { place ≤ length text.now }
    requires low { rule < rule_count }
    requires row { the_row_of rule ≡ List1 item tail }
    ensures end { IfOk result (λ o. HasEnd text.now rule place o) }
    ensures notes { IfOk result
        (λ o. Notes text.now (IsUnmetIn text.now rule place) furthest.old furthest.new) }
    ensures steps { OnOk result
        (Spends (RowSteps text.now (the_row_of rule) place) left.old left.new) }
{
    match read(furthest, left, text, item, place, depth)? {
        Some(at) => {
            let end = read(furthest, left, text, tail, at, depth)?;
            Ok(end)
        }
        None => Ok(None),
    }
}

/// Items, each behind a separator.
#[cycle(descent)]
fn read_tail(
    furthest: &mut Furthest,
    left: &mut usize,
    text: &Source<'_>,
    rule: Rule,
    place: usize,
    item: Rule,
    separator: Rule,
    depth: usize,
) -> Result<Option<usize>, GaveUp>
    requires within { place ≤ length text.now }
    requires low { rule < rule_count }
    requires row { the_row_of rule ≡ Tail item separator }
    ensures end { IfOk result (λ o. HasEnd text.now rule place o) }
    ensures notes { IfOk result
        (λ o. Notes text.now (IsUnmetIn text.now rule place) furthest.old furthest.new) }
    ensures steps { OnOk result
        (Spends (RowSteps text.now (the_row_of rule) place) left.old left.new) }
{
    let mut at = place;
    loop {
        let found = read(furthest, left, text, separator, at, depth)?;
        let Some(behind) = found else {
            return Ok(Some(at));
        };
        if behind == at {
            return Ok(None);
        }
        let next = read(furthest, left, text, item, behind, depth)?;
        let Some(end) = next else {
            return Ok(Some(at));
        };
        at = end;
    }
}

/// Parts, and the last behind them where the part of this number took something.
#[cycle(descent)]
fn read_conditional(
    furthest: &mut Furthest,
    left: &mut usize,
    text: &Source<'_>,
    rule: Rule,
    place: usize,
    parts: Parts,
    k: usize,
    y: Rule,
    depth: usize,
) -> Result<Option<usize>, GaveUp>
    requires within { place ≤ length text.now }
    requires low { rule < rule_count }
    requires row { the_row_of rule ≡ If (numbers_of parts) k y }
    ensures end { IfOk result (λ o. HasEnd text.now rule place o) }
    ensures notes { IfOk result
        (λ o. Notes text.now (IsUnmetIn text.now rule place) furthest.old furthest.new) }
    ensures steps { OnOk result
        (Spends (RowSteps text.now (the_row_of rule) place) left.old left.new) }
{
    let mut at = place;
    let mut present = false;
    for i in 0..parts.len() {
        match read(furthest, left, text, parts.rule(i), at, depth)? {
            Some(end) => {
                present = choose(i == k, end != at, present);
                at = end;
            }
            None => return Ok(None),
        }
    }
    if present {
        let end = read(furthest, left, text, y, at, depth)?;
        return Ok(end);
    }
    Ok(Some(at))
}

/// The first where the test holds, else the second.
fn choose(test: bool, first: bool, second: bool) -> bool
    ensures { result ≡ (if test then first else second) }
{
    if test { first } else { second }
}
