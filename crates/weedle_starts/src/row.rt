//! What a rule reads, by a table of all rows.
//!
//! The `row_of` of `weedle_grammar` is for a rule that the compiler knows: of any other it compares
//! numbers until it finds the row, which takes longer than what is done with it.

ghost use Rattle.std.specs.Prelude.{◌≡◌, IsTrue, slice_range};
ghost use Rattle.weedle_grammar.specs.Entry.{are_rules};
ghost use Rattle.weedle_grammar.specs.written.Table.{row_of as the_row_of};
ghost use Rattle.weedle_starts.specs.View.{numbers_of, row_view};
ghost use Rattle.weedle_starts.specs.Ways.{AreBytes, AreNumbers, IsWay};

pub use crate::parts::Parts;
use crate::parts::parts_of;
use crate::way::{Span, Way, way_of};
use crate::written::bytes::BYTES;
use crate::written::numbers::NUMBERS;
use weedle_grammar::{Class, Rule, rule_of};

/// What a rule reads at a place of a text, as `Row` of `weedle_grammar` says it.
#[derive(Clone, Copy, Debug)]
pub enum Row {
    /// These bytes.
    Bytes(&'static [u8]),
    /// One byte of the class.
    OneOf(Class),
    /// Nothing, where the text ends or its next byte isn't in the class.
    NotNext(Class),
    /// All bytes from here on that are in the class, none included.
    Run(Class),
    /// Everything up to these bytes, and these.
    Past(&'static [u8]),
    /// The parts, each from the end of the one before.
    Seq(Parts),
    /// The first part that fits.
    First(Parts),
    /// The rule, or nothing where it fails.
    Opt(Rule),
    /// The rule from end to end until it fails.
    Many(Rule),
    /// An item, then the items after it; nothing where there is no item.
    List(Rule, Rule),
    /// An item, then the items after it.
    List1(Rule, Rule),
    /// Items, each behind a separator.
    Tail(Rule, Rule),
    /// The parts, then the rule where the part of this number gave something.
    If(Parts, usize, Rule),
}

/// The bytes there.
#[inline(always)]
fn bytes_at(span: Span) -> &'static [u8]
    requires { AreBytes span }
    ensures { result.now ≡ slice_range BYTES span.0 span.1 }
{
    &BYTES[span.0 as usize..span.1 as usize]
}

/// The parts whose numbers are there.
#[inline(always)]
fn parts_at(span: Span) -> Parts
    requires { AreNumbers span }
    ensures { numbers_of result ≡ slice_range NUMBERS span.0 span.1 }
{
    parts_of(&NUMBERS[span.0 as usize..span.1 as usize])
}

/// The row that the table has so.
#[inline(always)]
fn row_by(way: Way, rule: Rule) -> Row
    requires { IsWay way (the_row_of rule) }
    ensures { row_view result ≡ the_row_of rule }
{
    match way {
        Way::Bytes(span) => Row::Bytes(bytes_at(span)),
        Way::OneOf(class) => Row::OneOf(class),
        Way::NotNext(class) => Row::NotNext(class),
        Way::Run(class) => Row::Run(class),
        Way::Past(span) => Row::Past(bytes_at(span)),
        Way::Seq(span) => Row::Seq(parts_at(span)),
        Way::First(span) => Row::First(parts_at(span)),
        Way::Opt(item) => Row::Opt(rule_of(item)),
        Way::Many(item) => Row::Many(rule_of(item)),
        Way::List(item, tail) => Row::List(rule_of(item), rule_of(tail)),
        Way::List1(item, tail) => Row::List1(rule_of(item), rule_of(tail)),
        Way::Tail(item, separator) => Row::Tail(rule_of(item), rule_of(separator)),
        Way::If(span, k, last) => Row::If(parts_at(span), k, rule_of(last)),
    }
}

/// What a rule reads. It takes no memory.
#[inline(always)]
pub fn row_of(rule: Rule) -> Row
    ensures { row_view result ≡ the_row_of rule }
{
    row_by(way_of(rule), rule)
}
