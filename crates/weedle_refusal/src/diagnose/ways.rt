//! What the rules try, in the order of their numbers.

ghost use Rattle.std.specs.Prelude.{◌<◌};
ghost use Rattle.weedle_grammar.specs.written.Bound.{table_count};
ghost use Rattle.weedle_grammar.specs.written.Table.{row_of as the_row_of};
ghost use Rattle.weedle_refusal.specs.Ways.{IsWay, AreWays};

use weedle_grammar::{Parts, Row, Rule, TABLE_RULES, row_of, rule_of};

/// What a rule tries: its row, with rules as numbers. A row without parts tries nothing, so all of
/// them are `Plain`.
///
/// The parts are a type argument, as the borrow checker requires it of an enum in an array.
#[derive(Clone, Copy)]
pub(crate) enum Way<P> {
    Plain,
    Seq(P),
    First(P),
    Opt(u16),
    Many(u16),
    List(u16, u16),
    List1(u16, u16),
    Tail(u16, u16),
    If(P, usize, u16),
}

/// The ways of the table's rules, by number.
pub(crate) type Ways = [Way<Parts>; TABLE_RULES];

/// The way of the rule.
fn way_of(rule: Rule) -> Way<Parts>
    ensures { IsWay result (the_row_of rule) }
{
    match row_of(rule) {
        Row::Bytes(_) | Row::OneOf(_) | Row::NotNext(_) | Row::Run(_) | Row::Past(_) => Way::Plain,
        Row::Seq(parts) => Way::Seq(parts),
        Row::First(parts) => Way::First(parts),
        Row::Opt(item) => Way::Opt(item.number()),
        Row::Many(item) => Way::Many(item.number()),
        Row::List(item, tail) => Way::List(item.number(), tail.number()),
        Row::List1(item, tail) => Way::List1(item.number(), tail.number()),
        Row::Tail(item, separator) => Way::Tail(item.number(), separator.number()),
        Row::If(parts, k, y) => Way::If(parts, k, y.number()),
    }
}

/// The ways of the table's rules.
///
/// `row_of` compares numbers until it finds a row, which takes longer than what is done with it. So
/// each rule is asked for once. The array takes some 15 kB of the stack, and no other memory.
pub(crate) fn lay_ways() -> Ways
    ensures { AreWays result table_count }
{
    let mut ways = [Way::Plain; TABLE_RULES];
    for number in 0..TABLE_RULES {
        ways[number] = way_of(rule_of(number as u16));
    }
    ways
}

/// The way of the rule.
#[inline(always)]
pub(crate) fn way_in(ways: &Ways, rule: Rule) -> Way<Parts>
    requires low { rule < table_count }
    requires ways { AreWays ways.now table_count }
    ensures { IsWay result (the_row_of rule) }
{
    ways[rule.number() as usize]
}
