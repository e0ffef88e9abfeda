//! Leaves: names, numbers, strings and docstrings.
//!
//! Written by tools/grammar.py, and not edited by hand.

ghost use Rattle.std.specs.Prelude.{◌≡◌, ◌<◌, ◌≤◌};
ghost use Rattle.weedle_grammar.specs.written.Names.{name_of};
ghost use Rattle.weedle_grammar.specs.written.Table.{row_of};
ghost use Rattle.weedle_grammar.specs.View.{row_view};

use crate::class::Class;
use crate::grammar::symbols::{BYTES_DOT, BYTES_MINUS};
use crate::grammar::trivia::{RUN_BLANK, TRIVIA};
use crate::row::{Row, parts_of};
use crate::rule::Rule;

pub const BYTES_UNDERSCORE: u16 = 184;

pub const OPT_BYTES_UNDERSCORE: u16 = 185;

pub const ONE_OF_LETTER: u16 = 186;

pub const RUN_NAME: u16 = 187;

pub const IDENTIFIER_TEXT: u16 = 188;

pub const IDENTIFIER: u16 = 189;

pub const OPT_BYTES_MINUS: u16 = 190;

pub const ONE_OF_ONE_TO_NINE: u16 = 191;

pub const RUN_DIGIT: u16 = 192;

pub const DEC_LIT_TEXT: u16 = 193;

pub const DEC_LIT: u16 = 194;

pub const BYTES_ZERO: u16 = 195;

pub const ONE_OF_X_LETTER: u16 = 196;

pub const ONE_OF_HEX: u16 = 197;

pub const RUN_HEX: u16 = 198;

pub const HEX_LIT_TEXT: u16 = 199;

pub const HEX_LIT: u16 = 200;

pub const RUN_OCTAL: u16 = 201;

pub const OCT_LIT_TEXT: u16 = 202;

pub const OCT_LIT: u16 = 203;

pub const ONE_OF_DIGIT: u16 = 204;

pub const DIGITS: u16 = 205;

pub const ONE_OF_E_LETTER: u16 = 206;

pub const ONE_OF_SIGN: u16 = 207;

pub const OPT_ONE_OF_SIGN: u16 = 208;

pub const EXPONENT: u16 = 209;

pub const POINT_AFTER_DIGITS: u16 = 210;

pub const POINT_BEFORE_DIGITS: u16 = 211;

pub const POINT: u16 = 212;

pub const OPT_EXPONENT: u16 = 213;

pub const POINT_FORM: u16 = 214;

pub const EXPONENT_FORM: u16 = 215;

pub const FLOAT_FORM: u16 = 216;

pub const FLOAT_VALUE_LIT_TEXT: u16 = 217;

pub const FLOAT_VALUE_LIT: u16 = 218;

pub const BYTES_QUOTE: u16 = 219;

pub const RUN_NOT_QUOTE: u16 = 220;

pub const STRING_LIT: u16 = 221;

pub const BYTES_THREE_SLASHES: u16 = 222;

pub const PAST_LF: u16 = 223;

pub const DOC_LINE: u16 = 224;

pub const MANY_DOC_LINE: u16 = 225;

pub const DOCSTRING: u16 = 226;

impl Rule {
    /// A part: the bytes `_`.
    pub const BYTES_UNDERSCORE: Rule = Rule(BYTES_UNDERSCORE);
    /// A part: one byte of the class `Letter`.
    pub const ONE_OF_LETTER: Rule = Rule(ONE_OF_LETTER);
    /// A part: all bytes of the class `Name`.
    pub const RUN_NAME: Rule = Rule(RUN_NAME);
    /// A part: `ONE_OF_LETTER`, `RUN_NAME`.
    pub const IDENTIFIER_TEXT: Rule = Rule(IDENTIFIER_TEXT);
    /// A name, as `_interface`, whose underscore is dropped.
    pub const IDENTIFIER: Rule = Rule(IDENTIFIER);
    /// A part: one byte of the class `OneToNine`.
    pub const ONE_OF_ONE_TO_NINE: Rule = Rule(ONE_OF_ONE_TO_NINE);
    /// A part: all bytes of the class `Digit`.
    pub const RUN_DIGIT: Rule = Rule(RUN_DIGIT);
    /// A part: `OPT_BYTES_MINUS`, `ONE_OF_ONE_TO_NINE`, `RUN_DIGIT`.
    pub const DEC_LIT_TEXT: Rule = Rule(DEC_LIT_TEXT);
    /// A decimal integer, as `-12`.
    pub const DEC_LIT: Rule = Rule(DEC_LIT);
    /// A part: the bytes `0`.
    pub const BYTES_ZERO: Rule = Rule(BYTES_ZERO);
    /// A part: one byte of the class `XLetter`.
    pub const ONE_OF_X_LETTER: Rule = Rule(ONE_OF_X_LETTER);
    /// A part: one byte of the class `Hex`.
    pub const ONE_OF_HEX: Rule = Rule(ONE_OF_HEX);
    /// A part: all bytes of the class `Hex`.
    pub const RUN_HEX: Rule = Rule(RUN_HEX);
    /// A part: `OPT_BYTES_MINUS`, `BYTES_ZERO`, `ONE_OF_X_LETTER`, `ONE_OF_HEX`, `RUN_HEX`.
    pub const HEX_LIT_TEXT: Rule = Rule(HEX_LIT_TEXT);
    /// A hexadecimal integer, as `0x1F`.
    pub const HEX_LIT: Rule = Rule(HEX_LIT);
    /// A part: all bytes of the class `Octal`.
    pub const RUN_OCTAL: Rule = Rule(RUN_OCTAL);
    /// A part: `OPT_BYTES_MINUS`, `BYTES_ZERO`, `RUN_OCTAL`.
    pub const OCT_LIT_TEXT: Rule = Rule(OCT_LIT_TEXT);
    /// An octal integer, as `017`.
    pub const OCT_LIT: Rule = Rule(OCT_LIT);
    /// A part: one byte of the class `Digit`.
    pub const ONE_OF_DIGIT: Rule = Rule(ONE_OF_DIGIT);
    /// Digits, one at least.
    pub const DIGITS: Rule = Rule(DIGITS);
    /// A part: one byte of the class `ELetter`.
    pub const ONE_OF_E_LETTER: Rule = Rule(ONE_OF_E_LETTER);
    /// A part: one byte of the class `Sign`.
    pub const ONE_OF_SIGN: Rule = Rule(ONE_OF_SIGN);
    /// An exponent, as `e+3`.
    pub const EXPONENT: Rule = Rule(EXPONENT);
    /// Digits with a point among them, as `1.5` or `.5`.
    pub const POINT: Rule = Rule(POINT);
    /// A part: `OPT_BYTES_MINUS`, `FLOAT_FORM`.
    pub const FLOAT_VALUE_LIT_TEXT: Rule = Rule(FLOAT_VALUE_LIT_TEXT);
    /// A number with a point or an exponent, as `-1.5e3`.
    pub const FLOAT_VALUE_LIT: Rule = Rule(FLOAT_VALUE_LIT);
    /// A part: the bytes `"`.
    pub const BYTES_QUOTE: Rule = Rule(BYTES_QUOTE);
    /// A string, as `"a"`, kept without its quotes.
    pub const STRING_LIT: Rule = Rule(STRING_LIT);
    /// A part: the bytes `///`.
    pub const BYTES_THREE_SLASHES: Rule = Rule(BYTES_THREE_SLASHES);
    /// A docstring's line, as `/// c` with its LF.
    pub const DOC_LINE: Rule = Rule(DOC_LINE);
    /// A docstring: such lines, one at least.
    pub const DOCSTRING: Rule = Rule(DOCSTRING);
}

/// The row of a rule from 184 to 226.
#[inline(always)]
pub(super) fn row(number: u16) -> Row
    requires low { 184 ≤ number }
    requires high { number < 227 }
    ensures { row_view result ≡ row_of number }
{
    match number {
        BYTES_UNDERSCORE => Row::Bytes(b"_"),
        OPT_BYTES_UNDERSCORE => Row::Opt(Rule(BYTES_UNDERSCORE)),
        ONE_OF_LETTER => Row::OneOf(Class::Letter),
        RUN_NAME => Row::Run(Class::Name),
        IDENTIFIER_TEXT => Row::Seq(parts_of(&[ONE_OF_LETTER, RUN_NAME])),
        IDENTIFIER => Row::Seq(parts_of(&[TRIVIA, OPT_BYTES_UNDERSCORE, IDENTIFIER_TEXT, TRIVIA])),
        OPT_BYTES_MINUS => Row::Opt(Rule(BYTES_MINUS)),
        ONE_OF_ONE_TO_NINE => Row::OneOf(Class::OneToNine),
        RUN_DIGIT => Row::Run(Class::Digit),
        DEC_LIT_TEXT => Row::Seq(parts_of(&[OPT_BYTES_MINUS, ONE_OF_ONE_TO_NINE, RUN_DIGIT])),
        DEC_LIT => Row::Seq(parts_of(&[TRIVIA, DEC_LIT_TEXT, TRIVIA])),
        BYTES_ZERO => Row::Bytes(b"0"),
        ONE_OF_X_LETTER => Row::OneOf(Class::XLetter),
        ONE_OF_HEX => Row::OneOf(Class::Hex),
        RUN_HEX => Row::Run(Class::Hex),
        HEX_LIT_TEXT => Row::Seq(parts_of(&[
            OPT_BYTES_MINUS,
            BYTES_ZERO,
            ONE_OF_X_LETTER,
            ONE_OF_HEX,
            RUN_HEX,
        ])),
        HEX_LIT => Row::Seq(parts_of(&[TRIVIA, HEX_LIT_TEXT, TRIVIA])),
        RUN_OCTAL => Row::Run(Class::Octal),
        OCT_LIT_TEXT => Row::Seq(parts_of(&[OPT_BYTES_MINUS, BYTES_ZERO, RUN_OCTAL])),
        OCT_LIT => Row::Seq(parts_of(&[TRIVIA, OCT_LIT_TEXT, TRIVIA])),
        ONE_OF_DIGIT => Row::OneOf(Class::Digit),
        DIGITS => Row::Seq(parts_of(&[ONE_OF_DIGIT, RUN_DIGIT])),
        ONE_OF_E_LETTER => Row::OneOf(Class::ELetter),
        ONE_OF_SIGN => Row::OneOf(Class::Sign),
        OPT_ONE_OF_SIGN => Row::Opt(Rule(ONE_OF_SIGN)),
        EXPONENT => Row::Seq(parts_of(&[ONE_OF_E_LETTER, OPT_ONE_OF_SIGN, DIGITS])),
        POINT_AFTER_DIGITS => Row::Seq(parts_of(&[DIGITS, BYTES_DOT, RUN_DIGIT])),
        POINT_BEFORE_DIGITS => Row::Seq(parts_of(&[RUN_DIGIT, BYTES_DOT, DIGITS])),
        POINT => Row::First(parts_of(&[POINT_AFTER_DIGITS, POINT_BEFORE_DIGITS])),
        OPT_EXPONENT => Row::Opt(Rule(EXPONENT)),
        POINT_FORM => Row::Seq(parts_of(&[POINT, OPT_EXPONENT])),
        EXPONENT_FORM => Row::Seq(parts_of(&[DIGITS, EXPONENT])),
        FLOAT_FORM => Row::First(parts_of(&[POINT_FORM, EXPONENT_FORM])),
        FLOAT_VALUE_LIT_TEXT => Row::Seq(parts_of(&[OPT_BYTES_MINUS, FLOAT_FORM])),
        FLOAT_VALUE_LIT => Row::Seq(parts_of(&[TRIVIA, FLOAT_VALUE_LIT_TEXT, TRIVIA])),
        BYTES_QUOTE => Row::Bytes(b"\""),
        RUN_NOT_QUOTE => Row::Run(Class::NotQuote),
        STRING_LIT => Row::Seq(parts_of(&[
            TRIVIA,
            BYTES_QUOTE,
            RUN_NOT_QUOTE,
            BYTES_QUOTE,
            TRIVIA,
        ])),
        BYTES_THREE_SLASHES => Row::Bytes(b"///"),
        PAST_LF => Row::Past(b"\n"),
        DOC_LINE => Row::Seq(parts_of(&[RUN_BLANK, BYTES_THREE_SLASHES, PAST_LF])),
        MANY_DOC_LINE => Row::Many(Rule(DOC_LINE)),
        _ => Row::Seq(parts_of(&[DOC_LINE, MANY_DOC_LINE])),
    }
}

/// The name of a rule from 184 to 226.
pub(super) fn name(number: u16) -> &'static str
    requires low { 184 ≤ number }
    requires high { number < 227 }
    ensures { result.now ≡ name_of number }
{
    match number {
        BYTES_UNDERSCORE => "bytes_underscore",
        OPT_BYTES_UNDERSCORE => "opt_bytes_underscore",
        ONE_OF_LETTER => "one_of_letter",
        RUN_NAME => "run_name",
        IDENTIFIER_TEXT => "identifier_text",
        IDENTIFIER => "identifier",
        OPT_BYTES_MINUS => "opt_bytes_minus",
        ONE_OF_ONE_TO_NINE => "one_of_one_to_nine",
        RUN_DIGIT => "run_digit",
        DEC_LIT_TEXT => "dec_lit_text",
        DEC_LIT => "dec_lit",
        BYTES_ZERO => "bytes_zero",
        ONE_OF_X_LETTER => "one_of_x_letter",
        ONE_OF_HEX => "one_of_hex",
        RUN_HEX => "run_hex",
        HEX_LIT_TEXT => "hex_lit_text",
        HEX_LIT => "hex_lit",
        RUN_OCTAL => "run_octal",
        OCT_LIT_TEXT => "oct_lit_text",
        OCT_LIT => "oct_lit",
        ONE_OF_DIGIT => "one_of_digit",
        DIGITS => "digits",
        ONE_OF_E_LETTER => "one_of_e_letter",
        ONE_OF_SIGN => "one_of_sign",
        OPT_ONE_OF_SIGN => "opt_one_of_sign",
        EXPONENT => "exponent",
        POINT_AFTER_DIGITS => "point_after_digits",
        POINT_BEFORE_DIGITS => "point_before_digits",
        POINT => "point",
        OPT_EXPONENT => "opt_exponent",
        POINT_FORM => "point_form",
        EXPONENT_FORM => "exponent_form",
        FLOAT_FORM => "float_form",
        FLOAT_VALUE_LIT_TEXT => "float_value_lit_text",
        FLOAT_VALUE_LIT => "float_value_lit",
        BYTES_QUOTE => "bytes_quote",
        RUN_NOT_QUOTE => "run_not_quote",
        STRING_LIT => "string_lit",
        BYTES_THREE_SLASHES => "bytes_three_slashes",
        PAST_LF => "past_lf",
        DOC_LINE => "doc_line",
        MANY_DOC_LINE => "many_doc_line",
        _ => "docstring",
    }
}
