//! Rows of several parts: sequences, choices, and sequences whose last part has a condition.

ghost use Rattle.std.specs.Prelude.{◌≡◌, if◌then◌else◌};
ghost use Rattle.weedle_grammar.specs.Rows.{Seq, First, If};
ghost use Rattle.weedle_grammar.specs.written.Table.{row_of};
ghost use Rattle.weedle_grammar.specs.View.{numbers_of};
ghost use Rattle.weedle_rules.specs.Filling.{IsBegun, IsWorked};

use crate::cell::Cell;
use crate::reader::{Reader, Working};
use weedle_grammar::{Parts, Rule};

/// Works out a row `Seq`: the parts, each from the end of the one before.
#[inline(always)]
pub(crate) fn seq<C: Cell>(
    reader: &Reader<'_, C>,
    working: &mut Working,
    rule: Rule,
    place: usize,
    parts: Parts,
) -> Option<usize>
    requires begun { IsBegun reader.now working.old rule place }
    requires row { row_of rule ≡ Seq (numbers_of parts) }
    ensures { IsWorked reader.now working.old working.new result }
{
    let mut end = place;
    for i in 0..parts.len() {
        match reader.cell(working, parts.rule(i), end) {
            Some(next) => end = next,
            None => return None,
        }
    }
    Some(end)
}

/// Works out a row `First`: the first part that fits.
#[inline(always)]
pub(crate) fn first<C: Cell>(
    reader: &Reader<'_, C>,
    working: &mut Working,
    rule: Rule,
    place: usize,
    parts: Parts,
) -> Option<usize>
    requires begun { IsBegun reader.now working.old rule place }
    requires row { row_of rule ≡ First (numbers_of parts) }
    ensures { IsWorked reader.now working.old working.new result }
{
    for i in 0..parts.len() {
        match reader.cell(working, parts.rule(i), place) {
            Some(end) => return Some(end),
            None => {}
        }
    }
    None
}

/// The first of two booleans where the test holds, else the second.
#[inline(always)]
fn choose(test: bool, first: bool, second: bool) -> bool
    ensures { result ≡ (if test then first else second) }
{
    if test { first } else { second }
}

/// Works out a row `If`: the parts, then the rule where the part of this number gave something.
#[inline(always)]
pub(crate) fn conditional<C: Cell>(
    reader: &Reader<'_, C>,
    working: &mut Working,
    rule: Rule,
    place: usize,
    parts: Parts,
    k: usize,
    y: Rule,
) -> Option<usize>
    requires begun { IsBegun reader.now working.old rule place }
    requires row { row_of rule ≡ If (numbers_of parts) k y }
    ensures { IsWorked reader.now working.old working.new result }
{
    let mut end = place;
    let mut present = false;
    for i in 0..parts.len() {
        match reader.cell(working, parts.rule(i), end) {
            Some(next) => {
                present = choose(i == k, next != end, present);
                end = next;
            }
            None => return None,
        }
    }
    if present {
        reader.cell(working, y, end)
    } else {
        Some(end)
    }
}
