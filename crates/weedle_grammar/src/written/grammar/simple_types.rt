//! Types that hold no other type, and lists of names.
//!
//! Written by tools/grammar.py, and not edited by hand.

ghost use Rattle.std.specs.Prelude.{◌≡◌, ◌<◌, ◌≤◌};
ghost use Rattle.weedle_grammar.specs.written.Names.{name_of};
ghost use Rattle.weedle_grammar.specs.written.Table.{row_of};
ghost use Rattle.weedle_grammar.specs.View.{row_view};

use crate::grammar::keywords::{
    BOOLEAN, BYTE, DOUBLE, FLOAT, LONG, OCTET, SHORT, UNRESTRICTED, UNSIGNED,
};
use crate::grammar::leaves::IDENTIFIER;
use crate::grammar::symbols::{CLOSE_PAREN, COMMA, OPEN_PAREN, Q_MARK};
use crate::row::{Row, parts_of};
use crate::rule::Rule;

pub const OPT_UNSIGNED: u16 = 235;

pub const LONG_LONG: u16 = 236;

pub const LONG_LONG_TYPE: u16 = 237;

pub const LONG_TYPE: u16 = 238;

pub const SHORT_TYPE: u16 = 239;

pub const INTEGER_TYPE: u16 = 240;

pub const OPT_UNRESTRICTED: u16 = 241;

pub const FLOAT_TYPE: u16 = 242;

pub const DOUBLE_TYPE: u16 = 243;

pub const FLOATING_POINT_TYPE: u16 = 244;

pub const OPT_Q_MARK: u16 = 245;

pub const MAY_BE_NULL_INTEGER_TYPE: u16 = 246;

pub const MAY_BE_NULL_FLOATING_POINT_TYPE: u16 = 247;

pub const MAY_BE_NULL_BOOLEAN: u16 = 248;

pub const MAY_BE_NULL_BYTE: u16 = 249;

pub const MAY_BE_NULL_OCTET: u16 = 250;

pub const MAY_BE_NULL_IDENTIFIER: u16 = 251;

pub const CONST_TYPE: u16 = 252;

pub const TAIL_IDENTIFIER_COMMA: u16 = 253;

pub const IDENTIFIER_LIST: u16 = 254;

pub const PARENTHESIZED_IDENTIFIER_LIST: u16 = 255;

impl Rule {
    /// `long long`, or `unsigned long long`.
    pub const LONG_LONG_TYPE: Rule = Rule(LONG_LONG_TYPE);
    /// `long`, or `unsigned long`.
    pub const LONG_TYPE: Rule = Rule(LONG_TYPE);
    /// `short`, or `unsigned short`.
    pub const SHORT_TYPE: Rule = Rule(SHORT_TYPE);
    /// An integer type.
    pub const INTEGER_TYPE: Rule = Rule(INTEGER_TYPE);
    /// `float`, or `unrestricted float`.
    pub const FLOAT_TYPE: Rule = Rule(FLOAT_TYPE);
    /// `double`, or `unrestricted double`.
    pub const DOUBLE_TYPE: Rule = Rule(DOUBLE_TYPE);
    /// A floating point type.
    pub const FLOATING_POINT_TYPE: Rule = Rule(FLOATING_POINT_TYPE);
    /// A constant's type, as `long?`.
    pub const CONST_TYPE: Rule = Rule(CONST_TYPE);
    /// Names, as `Window, Worker`, none included.
    pub const IDENTIFIER_LIST: Rule = Rule(IDENTIFIER_LIST);
}

/// The row of a rule from 235 to 255.
#[inline(always)]
pub(super) fn row(number: u16) -> Row
    requires low { 235 ≤ number }
    requires high { number < 256 }
    ensures { row_view result ≡ row_of number }
{
    match number {
        OPT_UNSIGNED => Row::Opt(Rule(UNSIGNED)),
        LONG_LONG => Row::Seq(parts_of(&[LONG, LONG])),
        LONG_LONG_TYPE => Row::Seq(parts_of(&[OPT_UNSIGNED, LONG_LONG])),
        LONG_TYPE => Row::Seq(parts_of(&[OPT_UNSIGNED, LONG])),
        SHORT_TYPE => Row::Seq(parts_of(&[OPT_UNSIGNED, SHORT])),
        INTEGER_TYPE => Row::First(parts_of(&[LONG_LONG_TYPE, LONG_TYPE, SHORT_TYPE])),
        OPT_UNRESTRICTED => Row::Opt(Rule(UNRESTRICTED)),
        FLOAT_TYPE => Row::Seq(parts_of(&[OPT_UNRESTRICTED, FLOAT])),
        DOUBLE_TYPE => Row::Seq(parts_of(&[OPT_UNRESTRICTED, DOUBLE])),
        FLOATING_POINT_TYPE => Row::First(parts_of(&[FLOAT_TYPE, DOUBLE_TYPE])),
        OPT_Q_MARK => Row::Opt(Rule(Q_MARK)),
        MAY_BE_NULL_INTEGER_TYPE => Row::Seq(parts_of(&[INTEGER_TYPE, OPT_Q_MARK])),
        MAY_BE_NULL_FLOATING_POINT_TYPE => Row::Seq(parts_of(&[FLOATING_POINT_TYPE, OPT_Q_MARK])),
        MAY_BE_NULL_BOOLEAN => Row::Seq(parts_of(&[BOOLEAN, OPT_Q_MARK])),
        MAY_BE_NULL_BYTE => Row::Seq(parts_of(&[BYTE, OPT_Q_MARK])),
        MAY_BE_NULL_OCTET => Row::Seq(parts_of(&[OCTET, OPT_Q_MARK])),
        MAY_BE_NULL_IDENTIFIER => Row::Seq(parts_of(&[IDENTIFIER, OPT_Q_MARK])),
        CONST_TYPE => Row::First(parts_of(&[
            MAY_BE_NULL_INTEGER_TYPE,
            MAY_BE_NULL_FLOATING_POINT_TYPE,
            MAY_BE_NULL_BOOLEAN,
            MAY_BE_NULL_BYTE,
            MAY_BE_NULL_OCTET,
            MAY_BE_NULL_IDENTIFIER,
        ])),
        TAIL_IDENTIFIER_COMMA => Row::Tail(Rule(IDENTIFIER), Rule(COMMA)),
        IDENTIFIER_LIST => Row::List(Rule(IDENTIFIER), Rule(TAIL_IDENTIFIER_COMMA)),
        _ => Row::Seq(parts_of(&[OPEN_PAREN, IDENTIFIER_LIST, CLOSE_PAREN])),
    }
}

/// The name of a rule from 235 to 255.
pub(super) fn name(number: u16) -> &'static str
    requires low { 235 ≤ number }
    requires high { number < 256 }
    ensures { result.now ≡ name_of number }
{
    match number {
        OPT_UNSIGNED => "opt_unsigned",
        LONG_LONG => "long_long",
        LONG_LONG_TYPE => "long_long_type",
        LONG_TYPE => "long_type",
        SHORT_TYPE => "short_type",
        INTEGER_TYPE => "integer_type",
        OPT_UNRESTRICTED => "opt_unrestricted",
        FLOAT_TYPE => "float_type",
        DOUBLE_TYPE => "double_type",
        FLOATING_POINT_TYPE => "floating_point_type",
        OPT_Q_MARK => "opt_q_mark",
        MAY_BE_NULL_INTEGER_TYPE => "may_be_null_integer_type",
        MAY_BE_NULL_FLOATING_POINT_TYPE => "may_be_null_floating_point_type",
        MAY_BE_NULL_BOOLEAN => "may_be_null_boolean",
        MAY_BE_NULL_BYTE => "may_be_null_byte",
        MAY_BE_NULL_OCTET => "may_be_null_octet",
        MAY_BE_NULL_IDENTIFIER => "may_be_null_identifier",
        CONST_TYPE => "const_type",
        TAIL_IDENTIFIER_COMMA => "tail_identifier_comma",
        IDENTIFIER_LIST => "identifier_list",
        _ => "parenthesized_identifier_list",
    }
}
