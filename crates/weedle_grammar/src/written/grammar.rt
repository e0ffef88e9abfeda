//! The rules of each section, by name: for the packrat table.
//!
//! A constant is a rule's number. The rows of a section are beside its constants.
//!
//! Written by tools/grammar.py, and not edited by hand.

ghost use Rattle.std.specs.Prelude.{◌≡◌};
ghost use Rattle.weedle_grammar.specs.written.Names.{name_of as the_name_of};
ghost use Rattle.weedle_grammar.specs.written.Table.{row_of as the_row_of};
ghost use Rattle.weedle_grammar.specs.View.{row_view};

use crate::row::Row;
use crate::rule::Rule;

pub mod capitalized_keywords;
pub mod definitions;
pub mod interface_members;
pub mod keywords;
pub mod leaves;
pub mod literals;
pub mod other_members;
pub mod simple_types;
pub mod symbols;
pub mod today_definitions;
pub mod today_members;
pub mod today_types;
pub mod today_words;
pub mod trivia;
pub mod types;

/// What a rule reads. It takes no memory.
#[inline(always)]
pub fn row_of(rule: Rule) -> Row
    ensures { row_view result ≡ the_row_of rule }
{
    let number = rule.number();
    if number < 15 {
        trivia::row(number)
    } else if number < 47 {
        symbols::row(number)
    } else if number < 140 {
        keywords::row(number)
    } else if number < 184 {
        capitalized_keywords::row(number)
    } else if number < 227 {
        leaves::row(number)
    } else if number < 235 {
        literals::row(number)
    } else if number < 256 {
        simple_types::row(number)
    } else if number < 317 {
        types::row(number)
    } else if number < 349 {
        interface_members::row(number)
    } else if number < 370 {
        other_members::row(number)
    } else if number < 386 {
        definitions::row(number)
    } else if number < 420 {
        today_words::row(number)
    } else if number < 463 {
        today_types::row(number)
    } else if number < 502 {
        today_members::row(number)
    } else {
        today_definitions::row(number)
    }
}

/// What a rule is called. It takes no memory.
pub(crate) fn name_of(rule: Rule) -> &'static str
    ensures { result.now ≡ the_name_of rule }
{
    let number = rule.number();
    if number < 15 {
        trivia::name(number)
    } else if number < 47 {
        symbols::name(number)
    } else if number < 140 {
        keywords::name(number)
    } else if number < 184 {
        capitalized_keywords::name(number)
    } else if number < 227 {
        leaves::name(number)
    } else if number < 235 {
        literals::name(number)
    } else if number < 256 {
        simple_types::name(number)
    } else if number < 317 {
        types::name(number)
    } else if number < 349 {
        interface_members::name(number)
    } else if number < 370 {
        other_members::name(number)
    } else if number < 386 {
        definitions::name(number)
    } else if number < 420 {
        today_words::name(number)
    } else if number < 463 {
        today_types::name(number)
    } else if number < 502 {
        today_members::name(number)
    } else {
        today_definitions::name(number)
    }
}
