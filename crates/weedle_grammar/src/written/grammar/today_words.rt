//! Words, a symbol, literals and docstrings of today's WebIDL.
//!
//! Written by tools/grammar.py, and not edited by hand.

ghost use Rattle.std.specs.Prelude.{◌≡◌, ◌<◌, ◌≤◌};
ghost use Rattle.weedle_grammar.specs.written.Names.{name_of};
ghost use Rattle.weedle_grammar.specs.written.Table.{row_of};
ghost use Rattle.weedle_grammar.specs.View.{row_view};

use crate::grammar::keywords::{NOT_NEXT_NAME, NULL, UNDEFINED};
use crate::grammar::leaves::{BYTES_THREE_SLASHES, DOCSTRING, STRING_LIT};
use crate::grammar::literals::{
    BOOLEAN_LIT, EMPTY_ARRAY_LIT, EMPTY_DICTIONARY_LIT, FLOAT_LIT, INTEGER_LIT,
};
use crate::grammar::simple_types::{
    MAY_BE_NULL_BOOLEAN, MAY_BE_NULL_BYTE, MAY_BE_NULL_FLOATING_POINT_TYPE, MAY_BE_NULL_IDENTIFIER,
    MAY_BE_NULL_INTEGER_TYPE, MAY_BE_NULL_OCTET, OPT_Q_MARK,
};
use crate::grammar::symbols::{ASSIGN, CLOSE_PAREN, COMMA, OPEN_PAREN};
use crate::grammar::trivia::{PIECE, RUN_NOT_LINE_FEED, TRIVIA};
use crate::row::{Row, parts_of};
use crate::rule::Rule;

pub const BYTES_ASTERISK: u16 = 386;

pub const ASTERISK: u16 = 387;

pub const BYTES_BIG_INT: u16 = 388;

pub const BIG_INT: u16 = 389;

pub const BYTES_ASYNC_ITERABLE_WORD: u16 = 390;

pub const ASYNC_ITERABLE_WORD: u16 = 391;

pub const BYTES_ASYNC_SEQUENCE: u16 = 392;

pub const ASYNC_SEQUENCE: u16 = 393;

pub const BYTES_OBSERVABLE_ARRAY: u16 = 394;

pub const OBSERVABLE_ARRAY: u16 = 395;

pub const BYTES_FLOAT16_ARRAY: u16 = 396;

pub const FLOAT16_ARRAY: u16 = 397;

pub const BYTES_BIG_INT64_ARRAY: u16 = 398;

pub const BIG_INT64_ARRAY: u16 = 399;

pub const BYTES_BIG_UINT64_ARRAY: u16 = 400;

pub const BIG_UINT64_ARRAY: u16 = 401;

pub const BYTES_SHARED_ARRAY_BUFFER: u16 = 402;

pub const SHARED_ARRAY_BUFFER: u16 = 403;

pub const TODAY_DOC: u16 = 404;

pub const TODAY_DOCS: u16 = 405;

pub const TODAY_LAST_DOC: u16 = 406;

pub const TODAY_TRIVIA: u16 = 407;

pub const TODAY_DEFAULT_VALUE: u16 = 408;

pub const TODAY_DEFAULT: u16 = 409;

pub const OPT_TODAY_DEFAULT: u16 = 410;

pub const MAY_BE_NULL_BIG_INT: u16 = 411;

pub const TODAY_CONST_TYPE: u16 = 412;

pub const TAIL_STRING_LIT_COMMA: u16 = 413;

pub const TODAY_STRING_LIST: u16 = 414;

pub const PARENTHESIZED_TODAY_STRINGS: u16 = 415;

pub const TODAY_NUMBER: u16 = 416;

pub const TAIL_TODAY_NUMBER_COMMA: u16 = 417;

pub const TODAY_NUMBER_LIST: u16 = 418;

pub const PARENTHESIZED_TODAY_NUMBERS: u16 = 419;

impl Rule {
    /// The symbol `*`.
    pub const ASTERISK: Rule = Rule(ASTERISK);
    /// The keyword `bigint`.
    pub const BIG_INT: Rule = Rule(BIG_INT);
    /// The keyword `async_iterable`.
    pub const ASYNC_ITERABLE_WORD: Rule = Rule(ASYNC_ITERABLE_WORD);
    /// The keyword `async_sequence`.
    pub const ASYNC_SEQUENCE: Rule = Rule(ASYNC_SEQUENCE);
    /// The keyword `ObservableArray`.
    pub const OBSERVABLE_ARRAY: Rule = Rule(OBSERVABLE_ARRAY);
    /// The keyword `Float16Array`.
    pub const FLOAT16_ARRAY: Rule = Rule(FLOAT16_ARRAY);
    /// The keyword `BigInt64Array`.
    pub const BIG_INT64_ARRAY: Rule = Rule(BIG_INT64_ARRAY);
    /// The keyword `BigUint64Array`.
    pub const BIG_UINT64_ARRAY: Rule = Rule(BIG_UINT64_ARRAY);
    /// The keyword `SharedArrayBuffer`.
    pub const SHARED_ARRAY_BUFFER: Rule = Rule(SHARED_ARRAY_BUFFER);
    /// A docstring, with comments and whitespace in front.
    pub const TODAY_DOC: Rule = Rule(TODAY_DOC);
    /// Docstrings, none included, with comments between them.
    pub const TODAY_DOCS: Rule = Rule(TODAY_DOCS);
    /// A docstring's line that the text ends in.
    pub const TODAY_LAST_DOC: Rule = Rule(TODAY_LAST_DOC);
    /// A comment or whitespace that no definition follows.
    pub const TODAY_TRIVIA: Rule = Rule(TODAY_TRIVIA);
    /// A default value, `undefined` included.
    pub const TODAY_DEFAULT_VALUE: Rule = Rule(TODAY_DEFAULT_VALUE);
    /// A default, as `= 5`.
    pub const TODAY_DEFAULT: Rule = Rule(TODAY_DEFAULT);
    /// A constant's type, as `long`.
    pub const TODAY_CONST_TYPE: Rule = Rule(TODAY_CONST_TYPE);
    /// Strings, as `"a", "b"`, none included.
    pub const TODAY_STRING_LIST: Rule = Rule(TODAY_STRING_LIST);
    /// A number.
    pub const TODAY_NUMBER: Rule = Rule(TODAY_NUMBER);
    /// Numbers, as `2, 8`, none included.
    pub const TODAY_NUMBER_LIST: Rule = Rule(TODAY_NUMBER_LIST);
}

/// The row of a rule from 386 to 419.
#[inline(always)]
pub(super) fn row(number: u16) -> Row
    requires low { 386 ≤ number }
    requires high { number < 420 }
    ensures { row_view result ≡ row_of number }
{
    match number {
        BYTES_ASTERISK => Row::Bytes(b"*"),
        ASTERISK => Row::Seq(parts_of(&[TRIVIA, BYTES_ASTERISK, TRIVIA])),
        BYTES_BIG_INT => Row::Bytes(b"bigint"),
        BIG_INT => Row::Seq(parts_of(&[TRIVIA, BYTES_BIG_INT, NOT_NEXT_NAME, TRIVIA])),
        BYTES_ASYNC_ITERABLE_WORD => Row::Bytes(b"async_iterable"),
        ASYNC_ITERABLE_WORD => Row::Seq(parts_of(&[
            TRIVIA,
            BYTES_ASYNC_ITERABLE_WORD,
            NOT_NEXT_NAME,
            TRIVIA,
        ])),
        BYTES_ASYNC_SEQUENCE => Row::Bytes(b"async_sequence"),
        ASYNC_SEQUENCE => Row::Seq(parts_of(&[
            TRIVIA,
            BYTES_ASYNC_SEQUENCE,
            NOT_NEXT_NAME,
            TRIVIA,
        ])),
        BYTES_OBSERVABLE_ARRAY => Row::Bytes(b"ObservableArray"),
        OBSERVABLE_ARRAY => Row::Seq(parts_of(&[
            TRIVIA,
            BYTES_OBSERVABLE_ARRAY,
            NOT_NEXT_NAME,
            TRIVIA,
        ])),
        BYTES_FLOAT16_ARRAY => Row::Bytes(b"Float16Array"),
        FLOAT16_ARRAY => Row::Seq(parts_of(&[TRIVIA, BYTES_FLOAT16_ARRAY, NOT_NEXT_NAME, TRIVIA])),
        BYTES_BIG_INT64_ARRAY => Row::Bytes(b"BigInt64Array"),
        BIG_INT64_ARRAY => Row::Seq(parts_of(&[
            TRIVIA,
            BYTES_BIG_INT64_ARRAY,
            NOT_NEXT_NAME,
            TRIVIA,
        ])),
        BYTES_BIG_UINT64_ARRAY => Row::Bytes(b"BigUint64Array"),
        BIG_UINT64_ARRAY => Row::Seq(parts_of(&[
            TRIVIA,
            BYTES_BIG_UINT64_ARRAY,
            NOT_NEXT_NAME,
            TRIVIA,
        ])),
        BYTES_SHARED_ARRAY_BUFFER => Row::Bytes(b"SharedArrayBuffer"),
        SHARED_ARRAY_BUFFER => Row::Seq(parts_of(&[
            TRIVIA,
            BYTES_SHARED_ARRAY_BUFFER,
            NOT_NEXT_NAME,
            TRIVIA,
        ])),
        TODAY_DOC => Row::Seq(parts_of(&[TRIVIA, DOCSTRING])),
        TODAY_DOCS => Row::Many(Rule(TODAY_DOC)),
        TODAY_LAST_DOC => Row::Seq(parts_of(&[TRIVIA, BYTES_THREE_SLASHES, RUN_NOT_LINE_FEED])),
        TODAY_TRIVIA => Row::Seq(parts_of(&[PIECE])),
        TODAY_DEFAULT_VALUE => Row::First(parts_of(&[
            BOOLEAN_LIT,
            EMPTY_ARRAY_LIT,
            EMPTY_DICTIONARY_LIT,
            FLOAT_LIT,
            INTEGER_LIT,
            NULL,
            UNDEFINED,
            STRING_LIT,
        ])),
        TODAY_DEFAULT => Row::Seq(parts_of(&[ASSIGN, TODAY_DEFAULT_VALUE])),
        OPT_TODAY_DEFAULT => Row::Opt(Rule(TODAY_DEFAULT)),
        MAY_BE_NULL_BIG_INT => Row::Seq(parts_of(&[BIG_INT, OPT_Q_MARK])),
        TODAY_CONST_TYPE => Row::First(parts_of(&[
            MAY_BE_NULL_INTEGER_TYPE,
            MAY_BE_NULL_FLOATING_POINT_TYPE,
            MAY_BE_NULL_BOOLEAN,
            MAY_BE_NULL_BYTE,
            MAY_BE_NULL_OCTET,
            MAY_BE_NULL_BIG_INT,
            MAY_BE_NULL_IDENTIFIER,
        ])),
        TAIL_STRING_LIT_COMMA => Row::Tail(Rule(STRING_LIT), Rule(COMMA)),
        TODAY_STRING_LIST => Row::List(Rule(STRING_LIT), Rule(TAIL_STRING_LIT_COMMA)),
        PARENTHESIZED_TODAY_STRINGS => Row::Seq(parts_of(&[
            OPEN_PAREN,
            TODAY_STRING_LIST,
            CLOSE_PAREN,
        ])),
        TODAY_NUMBER => Row::First(parts_of(&[FLOAT_LIT, INTEGER_LIT])),
        TAIL_TODAY_NUMBER_COMMA => Row::Tail(Rule(TODAY_NUMBER), Rule(COMMA)),
        TODAY_NUMBER_LIST => Row::List(Rule(TODAY_NUMBER), Rule(TAIL_TODAY_NUMBER_COMMA)),
        _ => Row::Seq(parts_of(&[OPEN_PAREN, TODAY_NUMBER_LIST, CLOSE_PAREN])),
    }
}

/// The name of a rule from 386 to 419.
pub(super) fn name(number: u16) -> &'static str
    requires low { 386 ≤ number }
    requires high { number < 420 }
    ensures { result.now ≡ name_of number }
{
    match number {
        BYTES_ASTERISK => "bytes_asterisk",
        ASTERISK => "asterisk",
        BYTES_BIG_INT => "bytes_big_int",
        BIG_INT => "big_int",
        BYTES_ASYNC_ITERABLE_WORD => "bytes_async_iterable_word",
        ASYNC_ITERABLE_WORD => "async_iterable_word",
        BYTES_ASYNC_SEQUENCE => "bytes_async_sequence",
        ASYNC_SEQUENCE => "async_sequence",
        BYTES_OBSERVABLE_ARRAY => "bytes_observable_array",
        OBSERVABLE_ARRAY => "observable_array",
        BYTES_FLOAT16_ARRAY => "bytes_float16_array",
        FLOAT16_ARRAY => "float16_array",
        BYTES_BIG_INT64_ARRAY => "bytes_big_int64_array",
        BIG_INT64_ARRAY => "big_int64_array",
        BYTES_BIG_UINT64_ARRAY => "bytes_big_uint64_array",
        BIG_UINT64_ARRAY => "big_uint64_array",
        BYTES_SHARED_ARRAY_BUFFER => "bytes_shared_array_buffer",
        SHARED_ARRAY_BUFFER => "shared_array_buffer",
        TODAY_DOC => "today_doc",
        TODAY_DOCS => "today_docs",
        TODAY_LAST_DOC => "today_last_doc",
        TODAY_TRIVIA => "today_trivia",
        TODAY_DEFAULT_VALUE => "today_default_value",
        TODAY_DEFAULT => "today_default",
        OPT_TODAY_DEFAULT => "opt_today_default",
        MAY_BE_NULL_BIG_INT => "may_be_null_big_int",
        TODAY_CONST_TYPE => "today_const_type",
        TAIL_STRING_LIT_COMMA => "tail_string_lit_comma",
        TODAY_STRING_LIST => "today_string_list",
        PARENTHESIZED_TODAY_STRINGS => "parenthesized_today_strings",
        TODAY_NUMBER => "today_number",
        TAIL_TODAY_NUMBER_COMMA => "tail_today_number_comma",
        TODAY_NUMBER_LIST => "today_number_list",
        _ => "parenthesized_today_numbers",
    }
}
