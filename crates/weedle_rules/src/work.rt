//! Working a cell out from its rule's row: a function for each kind of row.
//!
//! These functions have no text: they look at bytes and cells through the counting view.

ghost use Rattle.weedle_rules.specs.Filling.{IsBegun, IsWorked};

use crate::cell::Cell;
use crate::reader::{Reader, Working};
use weedle_grammar::{Row, Rule, row_of};

mod items;
mod parts;
mod plain;

/// Where the rule ends at the place, or None where it fails there, from its row.
#[inline(always)]
pub(crate) fn work_out<C: Cell>(
    reader: &Reader<'_, C>,
    working: &mut Working,
    rule: Rule,
    place: usize,
) -> Option<usize>
    requires { IsBegun reader.now working.old rule place }
    ensures { IsWorked reader.now working.old working.new result }
{
    match row_of(rule) {
        Row::Bytes(bytes) => plain::bytes(reader, working, rule, place, bytes),
        Row::OneOf(class) => plain::one_of(reader, working, rule, place, class),
        Row::NotNext(class) => plain::not_next(reader, working, rule, place, class),
        Row::Run(class) => plain::run(reader, working, rule, place, class),
        Row::Past(bytes) => plain::past(reader, working, rule, place, bytes),
        Row::Seq(parts) => parts::seq(reader, working, rule, place, parts),
        Row::First(parts) => parts::first(reader, working, rule, place, parts),
        Row::Opt(x) => items::opt(reader, working, rule, place, x),
        Row::Many(item) => items::many(reader, working, rule, place, item),
        Row::List(item, tail) => items::list(reader, working, rule, place, item, tail),
        Row::List1(item, tail) => items::list1(reader, working, rule, place, item, tail),
        Row::Tail(item, separator) => items::tail(reader, working, rule, place, item, separator),
        Row::If(parts, k, y) => parts::conditional(reader, working, rule, place, parts, k, y),
    }
}
