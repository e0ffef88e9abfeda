//! Rows of several parts: sequences, choices, and sequences whose last part has a condition.

ghost use Rattle.std.specs.Prelude.{◌^◌, ◌≡◌, ◌≤◌, ◌<◌, ◌*◌, ℕ, length, MatchOption, if◌then◌else◌};
ghost use Rattle.weedle_grammar.specs.written.Bound.{table_count};
ghost use Rattle.weedle_grammar.specs.Rows.{If};
ghost use Rattle.weedle_grammar.specs.written.Table.{row_of};
ghost use Rattle.weedle_grammar.specs.View.{numbers_of};
ghost use Rattle.weedle_starts.specs.Tries.{Tries, TriesInTurn, TriesByChoice, EndsWith};
ghost use Rattle.weedle_refusal.specs.Marks.{HasBit, Adds};

use crate::diagnose::marks::mark;
use weedle_grammar::{Parts, Rule};
use weedle_rules::Ends;

/// Marks the parts, each where the one before it ends, up to the first that fails.
pub(crate) fn in_turn(marks: &mut [u64], ends: &Ends<'_>, last: usize, place: usize, parts: Parts)
    requires last { last ≡ length ends.now.text }
    requires fits { 64 * length marks.old < 2 ^ 64 }
    requires inside { (x q : ℕ) → TriesInTurn ends.now.text (numbers_of parts) place x q
        → HasBit last (length marks.old) x q }
    ensures { Adds last marks.old marks.new (TriesInTurn ends.now.text (numbers_of parts) place) }
{
    let mut end = place;
    for i in 0..parts.len() {
        let part = parts.rule(i);
        mark(marks, last, part, end);
        match ends.cell(part, end) {
            Some(next) => end = next,
            None => return,
        }
    }
}

/// Marks the parts of a choice, up to the first that fits.
pub(crate) fn by_choice(marks: &mut [u64], ends: &Ends<'_>, last: usize, place: usize, parts: Parts)
    requires last { last ≡ length ends.now.text }
    requires fits { 64 * length marks.old < 2 ^ 64 }
    requires inside { (x q : ℕ) → TriesByChoice ends.now.text (numbers_of parts) place x q
        → HasBit last (length marks.old) x q }
    ensures { Adds last marks.old marks.new (TriesByChoice ends.now.text (numbers_of parts) place) }
{
    for i in 0..parts.len() {
        let part = parts.rule(i);
        mark(marks, last, part, place);
        match ends.cell(part, place) {
            Some(_) => return,
            None => {}
        }
    }
}

/// The first where the test holds, else the second.
#[inline(always)]
fn choose(test: bool, first: bool, second: bool) -> bool
    ensures { result ≡ (if test then first else second) }
{
    if test { first } else { second }
}

/// Where the parts end, if none fails and the part of this number gives something.
fn end_with(
    ends: &Ends<'_>,
    rule: Rule,
    place: usize,
    parts: Parts,
    k: usize,
    y: Rule,
) -> Option<usize>
    requires within { place ≤ length ends.now.text }
    requires low { rule < table_count }
    requires row { row_of rule ≡ If (numbers_of parts) k y }
    ensures { MatchOption result ((q : ℕ) → EndsWith ends.now.text (numbers_of parts) k place q → ⊥)
        (λ q. EndsWith ends.now.text (numbers_of parts) k place q) }
{
    let mut end = place;
    let mut present = false;
    for i in 0..parts.len() {
        match ends.cell(parts.rule(i), end) {
            Some(next) => {
                present = choose(i == k, next != end, present);
                end = next;
            }
            None => return None,
        }
    }
    if present { Some(end) } else { None }
}

/// Marks the parts, and behind them the last rule where the part of this number gives something.
pub(crate) fn conditional(
    marks: &mut [u64],
    ends: &Ends<'_>,
    last: usize,
    rule: Rule,
    place: usize,
    parts: Parts,
    k: usize,
    y: Rule,
)
    requires last { last ≡ length ends.now.text }
    requires fits { 64 * length marks.old < 2 ^ 64 }
    requires here { HasBit last (length marks.old) rule place }
    requires row { row_of rule ≡ If (numbers_of parts) k y }
    ensures { Adds last marks.old marks.new (Tries ends.now.text rule place) }
{
    in_turn(marks, ends, last, place, parts);
    match end_with(ends, rule, place, parts, k, y) {
        Some(end) => mark(marks, last, y, end),
        None => {}
    }
}
