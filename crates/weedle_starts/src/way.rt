//! Rows as the table has them: with rules as numbers.

ghost use Rattle.std.specs.Prelude.{◌≡◌};
ghost use Rattle.weedle_grammar.specs.written.Table.{row_of as the_row_of};
ghost use Rattle.weedle_starts.specs.Ways.{IsWay};

use crate::written::ways::WAYS;
use weedle_grammar::{Class, Rule};

/// Where the bytes or the numbers of a row are among those of all: from one place up to another.
#[derive(Clone, Copy)]
pub(crate) struct Span(pub(crate) u16, pub(crate) u16);

/// A row, with rules as numbers. It holds no reference, as a static requires it.
#[derive(Clone, Copy)]
pub(crate) enum Way {
    Bytes(Span),
    OneOf(Class),
    NotNext(Class),
    Run(Class),
    Past(Span),
    Seq(Span),
    First(Span),
    Opt(u16),
    Many(u16),
    List(u16, u16),
    List1(u16, u16),
    Tail(u16, u16),
    If(Span, usize, u16),
}

/// The row of a rule, as the table has it.
#[inline(always)]
pub(crate) fn way_of(rule: Rule) -> Way
    ensures { IsWay result (the_row_of rule) }
{
    WAYS[rule.number() as usize]
}
