//! Rows of items: repetitions and lists.

ghost use Rattle.std.specs.Prelude.{◌^◌, ◌≡◌, ◌<◌, ◌*◌, ℕ, length};
ghost use Rattle.weedle_grammar.specs.Rows.{Many, Tail};
ghost use Rattle.weedle_grammar.specs.written.Table.{row_of};
ghost use Rattle.weedle_starts.specs.Tries.{Tries, TriesListed};
ghost use Rattle.weedle_refusal.specs.Marks.{HasBit, Adds};

use crate::diagnose::marks::mark;
use weedle_grammar::Rule;
use weedle_rules::Ends;

/// Marks the item, and the rule itself behind an item that takes something.
pub(crate) fn many(
    marks: &mut [u64],
    ends: &Ends<'_>,
    last: usize,
    rule: Rule,
    place: usize,
    item: Rule,
)
    requires last { last ≡ length ends.now.text }
    requires fits { 64 * length marks.old < 2 ^ 64 }
    requires here { HasBit last (length marks.old) rule place }
    requires row { row_of rule ≡ Many item }
    ensures { Adds last marks.old marks.new (Tries ends.now.text rule place) }
{
    mark(marks, last, item, place);
    match ends.cell(item, place) {
        Some(end) => {
            if end != place {
                mark(marks, last, rule, end);
            }
        }
        None => {}
    }
}

/// Marks the first item of a list, and the rule of what follows it.
pub(crate) fn listed(
    marks: &mut [u64],
    ends: &Ends<'_>,
    last: usize,
    place: usize,
    item: Rule,
    tail: Rule,
)
    requires last { last ≡ length ends.now.text }
    requires fits { 64 * length marks.old < 2 ^ 64 }
    requires inside { (x q : ℕ) → TriesListed ends.now.text item tail place x q
        → HasBit last (length marks.old) x q }
    ensures { Adds last marks.old marks.new (TriesListed ends.now.text item tail place) }
{
    mark(marks, last, item, place);
    match ends.cell(item, place) {
        Some(end) => mark(marks, last, tail, end),
        None => {}
    }
}

/// Marks the separator, the item behind it, and the rule itself behind the item.
pub(crate) fn tail(
    marks: &mut [u64],
    ends: &Ends<'_>,
    last: usize,
    rule: Rule,
    place: usize,
    item: Rule,
    separator: Rule,
)
    requires last { last ≡ length ends.now.text }
    requires fits { 64 * length marks.old < 2 ^ 64 }
    requires here { HasBit last (length marks.old) rule place }
    requires row { row_of rule ≡ Tail item separator }
    ensures { Adds last marks.old marks.new (Tries ends.now.text rule place) }
{
    mark(marks, last, separator, place);
    match ends.cell(separator, place) {
        Some(behind) => {
            if behind != place {
                mark(marks, last, item, behind);
                match ends.cell(item, behind) {
                    Some(end) => mark(marks, last, rule, end),
                    None => {}
                }
            }
        }
        None => {}
    }
}
