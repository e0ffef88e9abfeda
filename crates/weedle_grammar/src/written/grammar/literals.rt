//! Literals and default values.
//!
//! Written by tools/grammar.py, and not edited by hand.

ghost use Rattle.std.specs.Prelude.{◌≡◌, ◌<◌, ◌≤◌};
ghost use Rattle.weedle_grammar.specs.written.Names.{name_of};
ghost use Rattle.weedle_grammar.specs.written.Table.{row_of};
ghost use Rattle.weedle_grammar.specs.View.{row_view};

use crate::grammar::capitalized_keywords::{INFINITY, NAN, NEG_INFINITY};
use crate::grammar::keywords::{FALSE, NULL, TRUE};
use crate::grammar::leaves::{DEC_LIT, FLOAT_VALUE_LIT, HEX_LIT, OCT_LIT, STRING_LIT};
use crate::grammar::symbols::{ASSIGN, CLOSE_BRACE, CLOSE_BRACKET, OPEN_BRACE, OPEN_BRACKET};
use crate::row::{Row, parts_of};
use crate::rule::Rule;

pub const BOOLEAN_LIT: u16 = 227;

pub const INTEGER_LIT: u16 = 228;

pub const FLOAT_LIT: u16 = 229;

pub const EMPTY_ARRAY_LIT: u16 = 230;

pub const EMPTY_DICTIONARY_LIT: u16 = 231;

pub const DEFAULT_VALUE: u16 = 232;

pub const CONST_VALUE: u16 = 233;

pub const DEFAULT: u16 = 234;

impl Rule {
    /// `true` or `false`.
    pub const BOOLEAN_LIT: Rule = Rule(BOOLEAN_LIT);
    /// An integer.
    pub const INTEGER_LIT: Rule = Rule(INTEGER_LIT);
    /// A floating point number, as `1.5` or `NaN`.
    pub const FLOAT_LIT: Rule = Rule(FLOAT_LIT);
    /// An empty array, `[]`.
    pub const EMPTY_ARRAY_LIT: Rule = Rule(EMPTY_ARRAY_LIT);
    /// An empty dictionary, `{}`.
    pub const EMPTY_DICTIONARY_LIT: Rule = Rule(EMPTY_DICTIONARY_LIT);
    /// A default value.
    pub const DEFAULT_VALUE: Rule = Rule(DEFAULT_VALUE);
    /// A constant's value.
    pub const CONST_VALUE: Rule = Rule(CONST_VALUE);
    /// A default, as `= 5`.
    pub const DEFAULT: Rule = Rule(DEFAULT);
}

/// The row of a rule from 227 to 234.
#[inline(always)]
pub(super) fn row(number: u16) -> Row
    requires low { 227 ≤ number }
    requires high { number < 235 }
    ensures { row_view result ≡ row_of number }
{
    match number {
        BOOLEAN_LIT => Row::First(parts_of(&[TRUE, FALSE])),
        INTEGER_LIT => Row::First(parts_of(&[DEC_LIT, HEX_LIT, OCT_LIT])),
        FLOAT_LIT => Row::First(parts_of(&[FLOAT_VALUE_LIT, NEG_INFINITY, INFINITY, NAN])),
        EMPTY_ARRAY_LIT => Row::Seq(parts_of(&[OPEN_BRACKET, CLOSE_BRACKET])),
        EMPTY_DICTIONARY_LIT => Row::Seq(parts_of(&[OPEN_BRACE, CLOSE_BRACE])),
        DEFAULT_VALUE => Row::First(parts_of(&[
            BOOLEAN_LIT,
            EMPTY_ARRAY_LIT,
            EMPTY_DICTIONARY_LIT,
            FLOAT_LIT,
            INTEGER_LIT,
            NULL,
            STRING_LIT,
        ])),
        CONST_VALUE => Row::First(parts_of(&[BOOLEAN_LIT, FLOAT_LIT, INTEGER_LIT, NULL])),
        _ => Row::Seq(parts_of(&[ASSIGN, DEFAULT_VALUE])),
    }
}

/// The name of a rule from 227 to 234.
pub(super) fn name(number: u16) -> &'static str
    requires low { 227 ≤ number }
    requires high { number < 235 }
    ensures { result.now ≡ name_of number }
{
    match number {
        BOOLEAN_LIT => "boolean_lit",
        INTEGER_LIT => "integer_lit",
        FLOAT_LIT => "float_lit",
        EMPTY_ARRAY_LIT => "empty_array_lit",
        EMPTY_DICTIONARY_LIT => "empty_dictionary_lit",
        DEFAULT_VALUE => "default_value",
        CONST_VALUE => "const_value",
        _ => "default",
    }
}
