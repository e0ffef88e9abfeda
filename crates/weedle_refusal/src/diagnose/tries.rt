//! What a rule tries at a place is marked, by its row: a function for each kind of row.

ghost use Rattle.std.specs.Prelude.{◌^◌, ◌≡◌, ◌<◌, ◌*◌, length};
ghost use Rattle.weedle_grammar.specs.written.Bound.{table_count};
ghost use Rattle.weedle_starts.specs.Tries.{Tries};
ghost use Rattle.weedle_refusal.specs.Marks.{HasBit, Adds};
ghost use Rattle.weedle_refusal.specs.Ways.{AreWays};

use crate::diagnose::marks::mark;
use crate::diagnose::ways::{Way, Ways, way_in};
use weedle_grammar::{Rule, rule_of};
use weedle_rules::Ends;

mod items;
mod parts;

/// Marks what the rule tries at the place.
pub(crate) fn mark_tries(
    marks: &mut [u64],
    ends: &Ends<'_>,
    ways: &Ways,
    last: usize,
    rule: Rule,
    place: usize,
)
    requires last { last ≡ length ends.now.text }
    requires fits { 64 * length marks.old < 2 ^ 64 }
    requires ways { AreWays ways.now table_count }
    requires here { HasBit last (length marks.old) rule place }
    ensures { Adds last marks.old marks.new (Tries ends.now.text rule place) }
{
    match way_in(ways, rule) {
        Way::Plain => {}
        Way::Seq(parts) => parts::in_turn(marks, ends, last, place, parts),
        Way::First(parts) => parts::by_choice(marks, ends, last, place, parts),
        Way::Opt(item) => mark(marks, last, rule_of(item), place),
        Way::Many(item) => items::many(marks, ends, last, rule, place, rule_of(item)),
        Way::List(item, tail) => {
            items::listed(marks, ends, last, place, rule_of(item), rule_of(tail));
        }
        Way::List1(item, tail) => {
            items::listed(marks, ends, last, place, rule_of(item), rule_of(tail));
        }
        Way::Tail(item, separator) => {
            let item = rule_of(item);
            items::tail(marks, ends, last, rule, place, item, rule_of(separator));
        }
        Way::If(parts, k, y) => {
            parts::conditional(marks, ends, last, rule, place, parts, k, rule_of(y));
        }
    }
}
