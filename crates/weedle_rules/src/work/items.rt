//! Rows of a rule that may be there once or more often: options, repetitions and lists.

ghost use Rattle.std.specs.Prelude.{◌≡◌};
ghost use Rattle.weedle_grammar.specs.Rows.{Opt, Many, ListOf, List1, Tail};
ghost use Rattle.weedle_grammar.specs.written.Table.{row_of};
ghost use Rattle.weedle_rules.specs.Filling.{IsBegun, IsWorked};

use crate::cell::Cell;
use crate::reader::{Reader, Working};
use weedle_grammar::Rule;

/// Works out a row `Opt`: the rule, or nothing where it fails.
#[inline(always)]
pub(crate) fn opt<C: Cell>(
    reader: &Reader<'_, C>,
    working: &mut Working,
    rule: Rule,
    place: usize,
    x: Rule,
) -> Option<usize>
    requires begun { IsBegun reader.now working.old rule place }
    requires row { row_of rule ≡ Opt x }
    ensures { IsWorked reader.now working.old working.new result }
{
    match reader.cell(working, x, place) {
        Some(end) => Some(end),
        None => Some(place),
    }
}

/// Works out a row `Many`: the item from end to end until it fails. It is an item here, and what
/// the rule itself takes behind it.
#[inline(always)]
pub(crate) fn many<C: Cell>(
    reader: &Reader<'_, C>,
    working: &mut Working,
    rule: Rule,
    place: usize,
    item: Rule,
) -> Option<usize>
    requires begun { IsBegun reader.now working.old rule place }
    requires row { row_of rule ≡ Many item }
    ensures { IsWorked reader.now working.old working.new result }
{
    match reader.cell(working, item, place) {
        None => Some(place),
        Some(end) => {
            if end == place {
                None
            } else {
                reader.cell(working, rule, end)
            }
        }
    }
}

/// Works out a row `List`: an item, then the items after it; nothing where there is no item.
#[inline(always)]
pub(crate) fn list<C: Cell>(
    reader: &Reader<'_, C>,
    working: &mut Working,
    rule: Rule,
    place: usize,
    item: Rule,
    tail: Rule,
) -> Option<usize>
    requires begun { IsBegun reader.now working.old rule place }
    requires row { row_of rule ≡ ListOf item tail }
    ensures { IsWorked reader.now working.old working.new result }
{
    match reader.cell(working, item, place) {
        None => Some(place),
        Some(end) => reader.cell(working, tail, end),
    }
}

/// Works out a row `List1`: an item, then the items after it.
#[inline(always)]
pub(crate) fn list1<C: Cell>(
    reader: &Reader<'_, C>,
    working: &mut Working,
    rule: Rule,
    place: usize,
    item: Rule,
    tail: Rule,
) -> Option<usize>
    requires begun { IsBegun reader.now working.old rule place }
    requires row { row_of rule ≡ List1 item tail }
    ensures { IsWorked reader.now working.old working.new result }
{
    match reader.cell(working, item, place) {
        None => None,
        Some(end) => reader.cell(working, tail, end),
    }
}

/// Works out a row `Tail`: items, each behind a separator. They are one here, and what the rule
/// itself takes behind it.
#[inline(always)]
pub(crate) fn tail<C: Cell>(
    reader: &Reader<'_, C>,
    working: &mut Working,
    rule: Rule,
    place: usize,
    item: Rule,
    separator: Rule,
) -> Option<usize>
    requires begun { IsBegun reader.now working.old rule place }
    requires row { row_of rule ≡ Tail item separator }
    ensures { IsWorked reader.now working.old working.new result }
{
    match reader.cell(working, separator, place) {
        None => Some(place),
        Some(behind) => {
            if behind == place {
                None
            } else {
                match reader.cell(working, item, behind) {
                    None => Some(place),
                    Some(end) => reader.cell(working, rule, end),
                }
            }
        }
    }
}
