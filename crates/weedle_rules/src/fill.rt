//! Filling a table: from the last place to the first, at each place in the order of the rules.
//!
//! All of it is inlined into the function that makes the table: so the compiler knows the row of
//! each rule, and keeps the counting view's fields in registers.

ghost use Rattle.std.specs.Prelude.{◌≡◌, ◌<◌, ◌≤◌, ◌+◌, ◌-◌, ◌*◌, length};
ghost use Rattle.weedle_grammar.specs.written.Bound.{table_count};
ghost use Rattle.weedle_rules.specs.Filling.{IsUnfilled, IsFilled, IsFilling};

use crate::cell::Cell;
use crate::reader::Reader;
use crate::work::work_out;
use weedle_grammar::rule_of;

mod written;

use written::place::fill_place;

/// Works out the next cell, of the rule of this number at this place.
#[inline(always)]
fn fill_cell<C: Cell>(reader: &mut Reader<'_, C>, number: u16, place: usize)
    requires low { number < table_count }
    requires within { place ≤ length reader.old.text }
    requires next { IsFilling reader.old reader.old.text place number }
    ensures { IsFilling reader.new reader.old.text place (number + 1) }
{
    let rule = rule_of(number);
    let mut working = reader.begin(rule, place);
    let outcome = work_out(reader, &mut working, rule, place);
    reader.close(working, outcome);
}

/// Works out all cells.
#[inline(always)]
pub(crate) fn fill<C: Cell>(reader: &mut Reader<'_, C>)
    requires { IsUnfilled reader.old reader.old.text }
    ensures { IsFilled reader.new reader.old.text ((length reader.old.text + 1) * table_count) }
{
    let mut place = reader.places();
    while place > 0 {
        place -= 1;
        fill_place(reader, place);
    }
}
