//! How a definition begins by the rules of each dialect.

ghost use Rattle.std.specs.Prelude.{◌≡◌, false, length};
ghost use Rattle.std.specs.List.{slice_get};
ghost use Rattle.weedle_recovery.specs.Dialects.{beginnings_of, in_front, parts_of};
ghost use Rattle.weedle_syntax.specs.Dialects.{definition_of, item_of};

use crate::definitions::{beginning, part_of};
use crate::today::{today_beginning, today_front};
use weedle_grammar::Rule;
use weedle_syntax::Dialect;

/// Whether a whole text has something beside definitions: by today's rules what none follows.
pub(crate) fn has_pieces(dialect: Dialect) -> bool
    ensures { result ≡ false → item_of dialect ≡ definition_of dialect }
{
    match dialect {
        Dialect::Weedle2 => false,
        Dialect::Today => true,
    }
}

/// The rule of the docstrings in front of the `}` of a body, if there may be any.
pub(crate) fn last_docs_of(dialect: Dialect) -> Option<Rule> {
    match dialect {
        Dialect::Weedle2 => None,
        Dialect::Today => Some(Rule::TODAY_DOCS),
    }
}

/// The kind of definition of a number, and how many parts at its front show that it begins.
pub(crate) fn beginning_in(dialect: Dialect, number: usize) -> Option<(Rule, usize)>
    ensures { result ≡ slice_get (beginnings_of dialect) number }
{
    match dialect {
        Dialect::Weedle2 => beginning(number),
        Dialect::Today => today_beginning(number),
    }
}

/// The rule of a number among the parts of a definition of this kind.
pub(crate) fn part_in(dialect: Dialect, definition: Rule, number: usize) -> Option<Rule>
    ensures { result ≡ slice_get (parts_of dialect definition) number }
{
    match front_part(dialect, number) {
        Some(rule) => Some(rule),
        None => part_of(definition, number.saturating_sub(count_in_front(dialect))),
    }
}

/// The rule of a number among the parts that are in front of each kind of definition.
fn front_part(dialect: Dialect, number: usize) -> Option<Rule>
    ensures { result ≡ slice_get (in_front dialect) number }
{
    match dialect {
        Dialect::Weedle2 => None,
        Dialect::Today => today_front(number),
    }
}

/// How many parts are in front of each kind of definition.
pub(crate) fn count_in_front(dialect: Dialect) -> usize
    ensures { result ≡ length (in_front dialect) }
{
    match dialect {
        Dialect::Weedle2 => 0,
        Dialect::Today => 2,
    }
}
