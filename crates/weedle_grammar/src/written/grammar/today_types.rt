//! Today's types, extended attributes and arguments, which read one another.
//!
//! Written by tools/grammar.py, and not edited by hand.

ghost use Rattle.std.specs.Prelude.{◌≡◌, ◌<◌, ◌≤◌};
ghost use Rattle.weedle_grammar.specs.written.Names.{name_of};
ghost use Rattle.weedle_grammar.specs.written.Table.{row_of};
ghost use Rattle.weedle_grammar.specs.View.{row_view};

use crate::grammar::capitalized_keywords::{
    BYTE_STRING, DOM_STRING, FROZEN_ARRAY, PROMISE, USV_STRING,
};
use crate::grammar::keywords::{ANY, OPTIONAL, OR, RECORD, SEQUENCE, UNDEFINED};
use crate::grammar::leaves::IDENTIFIER;
use crate::grammar::simple_types::{
    MAY_BE_NULL_BOOLEAN, MAY_BE_NULL_BYTE, MAY_BE_NULL_FLOATING_POINT_TYPE, MAY_BE_NULL_IDENTIFIER,
    MAY_BE_NULL_INTEGER_TYPE, MAY_BE_NULL_OCTET, OPT_Q_MARK,
};
use crate::grammar::symbols::{
    ASSIGN, CLOSE_BRACKET, CLOSE_PAREN, COMMA, ELLIPSIS, GREATER_THAN, LESS_THAN, OPEN_BRACKET,
    OPEN_PAREN,
};
use crate::grammar::today_words::{
    ASTERISK, ASYNC_SEQUENCE, BIG_INT, BIG_INT64_ARRAY, BIG_UINT64_ARRAY, FLOAT16_ARRAY,
    OBSERVABLE_ARRAY, OPT_TODAY_DEFAULT, PARENTHESIZED_TODAY_NUMBERS, PARENTHESIZED_TODAY_STRINGS,
    SHARED_ARRAY_BUFFER, TODAY_NUMBER,
};
use crate::grammar::types::{
    EXTENDED_ATTRIBUTE_IDENT, EXTENDED_ATTRIBUTE_IDENT_LIST, EXTENDED_ATTRIBUTE_NO_ARGS,
    MAY_BE_NULL_ARRAY_BUFFER, MAY_BE_NULL_ARRAY_BUFFER_VIEW, MAY_BE_NULL_BUFFER_SOURCE,
    MAY_BE_NULL_BYTE_STRING, MAY_BE_NULL_DATA_VIEW, MAY_BE_NULL_DOM_STRING, MAY_BE_NULL_ERROR,
    MAY_BE_NULL_FLOAT32_ARRAY, MAY_BE_NULL_FLOAT64_ARRAY, MAY_BE_NULL_INT8_ARRAY,
    MAY_BE_NULL_INT16_ARRAY, MAY_BE_NULL_INT32_ARRAY, MAY_BE_NULL_OBJECT, MAY_BE_NULL_SYMBOL,
    MAY_BE_NULL_UINT8_ARRAY, MAY_BE_NULL_UINT8_CLAMPED_ARRAY, MAY_BE_NULL_UINT16_ARRAY,
    MAY_BE_NULL_UINT32_ARRAY, MAY_BE_NULL_USV_STRING,
};
use crate::row::{Row, parts_of};
use crate::rule::Rule;

pub const GENERICS_TODAY_ATTRIBUTED_TYPE: u16 = 420;

pub const TODAY_SEQUENCE_TYPE: u16 = 421;

pub const TODAY_ASYNC_SEQUENCE_TYPE: u16 = 422;

pub const TODAY_FROZEN_ARRAY_TYPE: u16 = 423;

pub const TODAY_OBSERVABLE_ARRAY_TYPE: u16 = 424;

pub const GENERICS_TODAY_TYPE: u16 = 425;

pub const TODAY_PROMISE_TYPE: u16 = 426;

pub const GENERICS_TODAY_RECORD_TYPES: u16 = 427;

pub const TODAY_RECORD_TYPE: u16 = 428;

pub const TODAY_UNION_TYPE: u16 = 429;

pub const MAY_BE_NULL_TODAY_UNION_TYPE: u16 = 430;

pub const TODAY_WORD_TYPE: u16 = 431;

pub const TODAY_GENERIC_TYPE: u16 = 432;

pub const MAY_BE_NULL_TODAY_WORD_TYPE: u16 = 433;

pub const MAY_BE_NULL_TODAY_GENERIC_TYPE: u16 = 434;

pub const TODAY_NON_ANY_TYPE: u16 = 435;

pub const TODAY_KEY_TYPE: u16 = 436;

pub const TODAY_RECORD_TYPES: u16 = 437;

pub const TODAY_TYPE: u16 = 438;

pub const TODAY_ATTRIBUTES: u16 = 439;

pub const TODAY_ATTRIBUTE_LISTS: u16 = 440;

pub const TODAY_ATTRIBUTED_TYPE: u16 = 441;

pub const TODAY_ATTRIBUTED_NON_ANY_TYPE: u16 = 442;

pub const TODAY_UNION_MEMBER_TYPE: u16 = 443;

pub const TAIL_TODAY_UNION_MEMBER_TYPE_OR: u16 = 444;

pub const LIST1_TODAY_UNION_MEMBER_TYPE_OR: u16 = 445;

pub const TODAY_OPTIONAL_ARGUMENT: u16 = 446;

pub const OPT_ELLIPSIS: u16 = 447;

pub const TODAY_REQUIRED_ARGUMENT: u16 = 448;

pub const TODAY_ARGUMENT_KIND: u16 = 449;

pub const TODAY_ARGUMENT: u16 = 450;

pub const TAIL_TODAY_ARGUMENT_COMMA: u16 = 451;

pub const TODAY_ARGUMENT_LIST: u16 = 452;

pub const TODAY_ARGUMENTS: u16 = 453;

pub const TODAY_ATTRIBUTE_ARG_LIST: u16 = 454;

pub const TODAY_ATTRIBUTE_NAMED_ARG_LIST: u16 = 455;

pub const TODAY_ATTRIBUTE_WILDCARD: u16 = 456;

pub const TODAY_ATTRIBUTE_NUMBER: u16 = 457;

pub const TODAY_ATTRIBUTE_STRINGS: u16 = 458;

pub const TODAY_ATTRIBUTE_NUMBERS: u16 = 459;

pub const TODAY_ATTRIBUTE: u16 = 460;

pub const TAIL_TODAY_ATTRIBUTE_COMMA: u16 = 461;

pub const LIST_TODAY_ATTRIBUTE_COMMA: u16 = 462;

impl Rule {
    /// A sequence, as `sequence<[Clamp] octet>`.
    pub const TODAY_SEQUENCE_TYPE: Rule = Rule(TODAY_SEQUENCE_TYPE);
    /// An asynchronous sequence, as `async_sequence<long>`.
    pub const TODAY_ASYNC_SEQUENCE_TYPE: Rule = Rule(TODAY_ASYNC_SEQUENCE_TYPE);
    /// A frozen array, as `FrozenArray<long>`.
    pub const TODAY_FROZEN_ARRAY_TYPE: Rule = Rule(TODAY_FROZEN_ARRAY_TYPE);
    /// An observable array, as `ObservableArray<Node>`.
    pub const TODAY_OBSERVABLE_ARRAY_TYPE: Rule = Rule(TODAY_OBSERVABLE_ARRAY_TYPE);
    /// A promise, as `Promise<undefined>`.
    pub const TODAY_PROMISE_TYPE: Rule = Rule(TODAY_PROMISE_TYPE);
    /// A record, as `record<DOMString, [Clamp] octet>`.
    pub const TODAY_RECORD_TYPE: Rule = Rule(TODAY_RECORD_TYPE);
    /// A union, as `(long or DOMString)`.
    pub const TODAY_UNION_TYPE: Rule = Rule(TODAY_UNION_TYPE);
    /// A word that is a type, and is none in weedle2's rules, as `bigint`.
    pub const TODAY_WORD_TYPE: Rule = Rule(TODAY_WORD_TYPE);
    /// A type over others, as `sequence<long>`.
    pub const TODAY_GENERIC_TYPE: Rule = Rule(TODAY_GENERIC_TYPE);
    /// A type that is neither `any` nor a union, as `long?`.
    pub const TODAY_NON_ANY_TYPE: Rule = Rule(TODAY_NON_ANY_TYPE);
    /// The type of a record's keys.
    pub const TODAY_KEY_TYPE: Rule = Rule(TODAY_KEY_TYPE);
    /// A record's two types, as `DOMString, [Clamp] octet`.
    pub const TODAY_RECORD_TYPES: Rule = Rule(TODAY_RECORD_TYPES);
    /// A type.
    pub const TODAY_TYPE: Rule = Rule(TODAY_TYPE);
    /// Extended attributes, as `[Clamp, Exposed=*]`.
    pub const TODAY_ATTRIBUTES: Rule = Rule(TODAY_ATTRIBUTES);
    /// Lists of extended attributes, none included.
    pub const TODAY_ATTRIBUTE_LISTS: Rule = Rule(TODAY_ATTRIBUTE_LISTS);
    /// A type with extended attributes, as `[Clamp] long`.
    pub const TODAY_ATTRIBUTED_TYPE: Rule = Rule(TODAY_ATTRIBUTED_TYPE);
    /// A type that is neither `any` nor a union, with extended attributes.
    pub const TODAY_ATTRIBUTED_NON_ANY_TYPE: Rule = Rule(TODAY_ATTRIBUTED_NON_ANY_TYPE);
    /// A member of a union.
    pub const TODAY_UNION_MEMBER_TYPE: Rule = Rule(TODAY_UNION_MEMBER_TYPE);
    /// An argument that may be left out, as `optional long x = 5`, behind its attributes.
    pub const TODAY_OPTIONAL_ARGUMENT: Rule = Rule(TODAY_OPTIONAL_ARGUMENT);
    /// As `long x`, or `long... x`, behind its attributes.
    pub const TODAY_REQUIRED_ARGUMENT: Rule = Rule(TODAY_REQUIRED_ARGUMENT);
    /// An argument behind its attributes.
    pub const TODAY_ARGUMENT_KIND: Rule = Rule(TODAY_ARGUMENT_KIND);
    /// An argument.
    pub const TODAY_ARGUMENT: Rule = Rule(TODAY_ARGUMENT);
    /// Arguments, none included.
    pub const TODAY_ARGUMENT_LIST: Rule = Rule(TODAY_ARGUMENT_LIST);
    /// An extended attribute with arguments, as `LegacyFactory(long x)`.
    pub const TODAY_ATTRIBUTE_ARG_LIST: Rule = Rule(TODAY_ATTRIBUTE_ARG_LIST);
    /// As `LegacyFactoryFunction=Image(long x)`.
    pub const TODAY_ATTRIBUTE_NAMED_ARG_LIST: Rule = Rule(TODAY_ATTRIBUTE_NAMED_ARG_LIST);
    /// As `Exposed=*`.
    pub const TODAY_ATTRIBUTE_WILDCARD: Rule = Rule(TODAY_ATTRIBUTE_WILDCARD);
    /// As `ReflectDefault=2`.
    pub const TODAY_ATTRIBUTE_NUMBER: Rule = Rule(TODAY_ATTRIBUTE_NUMBER);
    /// As `A=("a", "b")`.
    pub const TODAY_ATTRIBUTE_STRINGS: Rule = Rule(TODAY_ATTRIBUTE_STRINGS);
    /// As `ReflectRange=(2, 8)`.
    pub const TODAY_ATTRIBUTE_NUMBERS: Rule = Rule(TODAY_ATTRIBUTE_NUMBERS);
    /// An extended attribute.
    pub const TODAY_ATTRIBUTE: Rule = Rule(TODAY_ATTRIBUTE);
}

/// The row of a rule from 420 to 462.
#[inline(always)]
pub(super) fn row(number: u16) -> Row
    requires low { 420 ≤ number }
    requires high { number < 463 }
    ensures { row_view result ≡ row_of number }
{
    match number {
        GENERICS_TODAY_ATTRIBUTED_TYPE => Row::Seq(parts_of(&[
            LESS_THAN,
            TODAY_ATTRIBUTED_TYPE,
            GREATER_THAN,
        ])),
        TODAY_SEQUENCE_TYPE => Row::Seq(parts_of(&[SEQUENCE, GENERICS_TODAY_ATTRIBUTED_TYPE])),
        TODAY_ASYNC_SEQUENCE_TYPE => Row::Seq(parts_of(&[
            ASYNC_SEQUENCE,
            GENERICS_TODAY_ATTRIBUTED_TYPE,
        ])),
        TODAY_FROZEN_ARRAY_TYPE => Row::Seq(parts_of(&[
            FROZEN_ARRAY,
            GENERICS_TODAY_ATTRIBUTED_TYPE,
        ])),
        TODAY_OBSERVABLE_ARRAY_TYPE => Row::Seq(parts_of(&[
            OBSERVABLE_ARRAY,
            GENERICS_TODAY_ATTRIBUTED_TYPE,
        ])),
        GENERICS_TODAY_TYPE => Row::Seq(parts_of(&[LESS_THAN, TODAY_TYPE, GREATER_THAN])),
        TODAY_PROMISE_TYPE => Row::Seq(parts_of(&[PROMISE, GENERICS_TODAY_TYPE])),
        GENERICS_TODAY_RECORD_TYPES => Row::Seq(parts_of(&[
            LESS_THAN,
            TODAY_RECORD_TYPES,
            GREATER_THAN,
        ])),
        TODAY_RECORD_TYPE => Row::Seq(parts_of(&[RECORD, GENERICS_TODAY_RECORD_TYPES])),
        TODAY_UNION_TYPE => Row::Seq(parts_of(&[
            OPEN_PAREN,
            LIST1_TODAY_UNION_MEMBER_TYPE_OR,
            CLOSE_PAREN,
        ])),
        MAY_BE_NULL_TODAY_UNION_TYPE => Row::Seq(parts_of(&[TODAY_UNION_TYPE, OPT_Q_MARK])),
        TODAY_WORD_TYPE => Row::First(parts_of(&[
            BIG_INT,
            FLOAT16_ARRAY,
            BIG_INT64_ARRAY,
            BIG_UINT64_ARRAY,
            SHARED_ARRAY_BUFFER,
            UNDEFINED,
        ])),
        TODAY_GENERIC_TYPE => Row::First(parts_of(&[
            TODAY_SEQUENCE_TYPE,
            TODAY_ASYNC_SEQUENCE_TYPE,
            TODAY_FROZEN_ARRAY_TYPE,
            TODAY_OBSERVABLE_ARRAY_TYPE,
            TODAY_RECORD_TYPE,
        ])),
        MAY_BE_NULL_TODAY_WORD_TYPE => Row::Seq(parts_of(&[TODAY_WORD_TYPE, OPT_Q_MARK])),
        MAY_BE_NULL_TODAY_GENERIC_TYPE => Row::Seq(parts_of(&[TODAY_GENERIC_TYPE, OPT_Q_MARK])),
        TODAY_NON_ANY_TYPE => Row::First(parts_of(&[
            TODAY_PROMISE_TYPE,
            MAY_BE_NULL_INTEGER_TYPE,
            MAY_BE_NULL_FLOATING_POINT_TYPE,
            MAY_BE_NULL_BOOLEAN,
            MAY_BE_NULL_BYTE,
            MAY_BE_NULL_OCTET,
            MAY_BE_NULL_BYTE_STRING,
            MAY_BE_NULL_DOM_STRING,
            MAY_BE_NULL_USV_STRING,
            MAY_BE_NULL_OBJECT,
            MAY_BE_NULL_SYMBOL,
            MAY_BE_NULL_ERROR,
            MAY_BE_NULL_ARRAY_BUFFER,
            MAY_BE_NULL_DATA_VIEW,
            MAY_BE_NULL_INT8_ARRAY,
            MAY_BE_NULL_INT16_ARRAY,
            MAY_BE_NULL_INT32_ARRAY,
            MAY_BE_NULL_UINT8_ARRAY,
            MAY_BE_NULL_UINT16_ARRAY,
            MAY_BE_NULL_UINT32_ARRAY,
            MAY_BE_NULL_UINT8_CLAMPED_ARRAY,
            MAY_BE_NULL_FLOAT32_ARRAY,
            MAY_BE_NULL_FLOAT64_ARRAY,
            MAY_BE_NULL_ARRAY_BUFFER_VIEW,
            MAY_BE_NULL_BUFFER_SOURCE,
            MAY_BE_NULL_TODAY_WORD_TYPE,
            MAY_BE_NULL_TODAY_GENERIC_TYPE,
            MAY_BE_NULL_IDENTIFIER,
        ])),
        TODAY_KEY_TYPE => Row::First(parts_of(&[
            BYTE_STRING,
            DOM_STRING,
            USV_STRING,
            TODAY_NON_ANY_TYPE,
        ])),
        TODAY_RECORD_TYPES => Row::Seq(parts_of(&[TODAY_KEY_TYPE, COMMA, TODAY_ATTRIBUTED_TYPE])),
        TODAY_TYPE => Row::First(parts_of(&[
            ANY,
            TODAY_NON_ANY_TYPE,
            MAY_BE_NULL_TODAY_UNION_TYPE,
        ])),
        TODAY_ATTRIBUTES => Row::Seq(parts_of(&[
            OPEN_BRACKET,
            LIST_TODAY_ATTRIBUTE_COMMA,
            CLOSE_BRACKET,
        ])),
        TODAY_ATTRIBUTE_LISTS => Row::Many(Rule(TODAY_ATTRIBUTES)),
        TODAY_ATTRIBUTED_TYPE => Row::Seq(parts_of(&[TODAY_ATTRIBUTE_LISTS, TODAY_TYPE])),
        TODAY_ATTRIBUTED_NON_ANY_TYPE => Row::Seq(parts_of(&[
            TODAY_ATTRIBUTE_LISTS,
            TODAY_NON_ANY_TYPE,
        ])),
        TODAY_UNION_MEMBER_TYPE => Row::First(parts_of(&[
            TODAY_ATTRIBUTED_NON_ANY_TYPE,
            MAY_BE_NULL_TODAY_UNION_TYPE,
        ])),
        TAIL_TODAY_UNION_MEMBER_TYPE_OR => Row::Tail(Rule(TODAY_UNION_MEMBER_TYPE), Rule(OR)),
        LIST1_TODAY_UNION_MEMBER_TYPE_OR => Row::List(
            Rule(TODAY_UNION_MEMBER_TYPE),
            Rule(TAIL_TODAY_UNION_MEMBER_TYPE_OR),
        ),
        TODAY_OPTIONAL_ARGUMENT => Row::Seq(parts_of(&[
            OPTIONAL,
            TODAY_ATTRIBUTED_TYPE,
            IDENTIFIER,
            OPT_TODAY_DEFAULT,
        ])),
        OPT_ELLIPSIS => Row::Opt(Rule(ELLIPSIS)),
        TODAY_REQUIRED_ARGUMENT => Row::Seq(parts_of(&[TODAY_TYPE, OPT_ELLIPSIS, IDENTIFIER])),
        TODAY_ARGUMENT_KIND => Row::First(parts_of(&[
            TODAY_OPTIONAL_ARGUMENT,
            TODAY_REQUIRED_ARGUMENT,
        ])),
        TODAY_ARGUMENT => Row::Seq(parts_of(&[TODAY_ATTRIBUTE_LISTS, TODAY_ARGUMENT_KIND])),
        TAIL_TODAY_ARGUMENT_COMMA => Row::Tail(Rule(TODAY_ARGUMENT), Rule(COMMA)),
        TODAY_ARGUMENT_LIST => Row::List(Rule(TODAY_ARGUMENT), Rule(TAIL_TODAY_ARGUMENT_COMMA)),
        TODAY_ARGUMENTS => Row::Seq(parts_of(&[OPEN_PAREN, TODAY_ARGUMENT_LIST, CLOSE_PAREN])),
        TODAY_ATTRIBUTE_ARG_LIST => Row::Seq(parts_of(&[IDENTIFIER, TODAY_ARGUMENTS])),
        TODAY_ATTRIBUTE_NAMED_ARG_LIST => Row::Seq(parts_of(&[
            IDENTIFIER,
            ASSIGN,
            IDENTIFIER,
            TODAY_ARGUMENTS,
        ])),
        TODAY_ATTRIBUTE_WILDCARD => Row::Seq(parts_of(&[IDENTIFIER, ASSIGN, ASTERISK])),
        TODAY_ATTRIBUTE_NUMBER => Row::Seq(parts_of(&[IDENTIFIER, ASSIGN, TODAY_NUMBER])),
        TODAY_ATTRIBUTE_STRINGS => Row::Seq(parts_of(&[
            IDENTIFIER,
            ASSIGN,
            PARENTHESIZED_TODAY_STRINGS,
        ])),
        TODAY_ATTRIBUTE_NUMBERS => Row::Seq(parts_of(&[
            IDENTIFIER,
            ASSIGN,
            PARENTHESIZED_TODAY_NUMBERS,
        ])),
        TODAY_ATTRIBUTE => Row::First(parts_of(&[
            TODAY_ATTRIBUTE_ARG_LIST,
            TODAY_ATTRIBUTE_NAMED_ARG_LIST,
            EXTENDED_ATTRIBUTE_IDENT_LIST,
            TODAY_ATTRIBUTE_WILDCARD,
            TODAY_ATTRIBUTE_STRINGS,
            TODAY_ATTRIBUTE_NUMBERS,
            TODAY_ATTRIBUTE_NUMBER,
            EXTENDED_ATTRIBUTE_IDENT,
            EXTENDED_ATTRIBUTE_NO_ARGS,
        ])),
        TAIL_TODAY_ATTRIBUTE_COMMA => Row::Tail(Rule(TODAY_ATTRIBUTE), Rule(COMMA)),
        _ => Row::List(Rule(TODAY_ATTRIBUTE), Rule(TAIL_TODAY_ATTRIBUTE_COMMA)),
    }
}

/// The name of a rule from 420 to 462.
pub(super) fn name(number: u16) -> &'static str
    requires low { 420 ≤ number }
    requires high { number < 463 }
    ensures { result.now ≡ name_of number }
{
    match number {
        GENERICS_TODAY_ATTRIBUTED_TYPE => "generics_today_attributed_type",
        TODAY_SEQUENCE_TYPE => "today_sequence_type",
        TODAY_ASYNC_SEQUENCE_TYPE => "today_async_sequence_type",
        TODAY_FROZEN_ARRAY_TYPE => "today_frozen_array_type",
        TODAY_OBSERVABLE_ARRAY_TYPE => "today_observable_array_type",
        GENERICS_TODAY_TYPE => "generics_today_type",
        TODAY_PROMISE_TYPE => "today_promise_type",
        GENERICS_TODAY_RECORD_TYPES => "generics_today_record_types",
        TODAY_RECORD_TYPE => "today_record_type",
        TODAY_UNION_TYPE => "today_union_type",
        MAY_BE_NULL_TODAY_UNION_TYPE => "may_be_null_today_union_type",
        TODAY_WORD_TYPE => "today_word_type",
        TODAY_GENERIC_TYPE => "today_generic_type",
        MAY_BE_NULL_TODAY_WORD_TYPE => "may_be_null_today_word_type",
        MAY_BE_NULL_TODAY_GENERIC_TYPE => "may_be_null_today_generic_type",
        TODAY_NON_ANY_TYPE => "today_non_any_type",
        TODAY_KEY_TYPE => "today_key_type",
        TODAY_RECORD_TYPES => "today_record_types",
        TODAY_TYPE => "today_type",
        TODAY_ATTRIBUTES => "today_attributes",
        TODAY_ATTRIBUTE_LISTS => "today_attribute_lists",
        TODAY_ATTRIBUTED_TYPE => "today_attributed_type",
        TODAY_ATTRIBUTED_NON_ANY_TYPE => "today_attributed_non_any_type",
        TODAY_UNION_MEMBER_TYPE => "today_union_member_type",
        TAIL_TODAY_UNION_MEMBER_TYPE_OR => "tail_today_union_member_type_or",
        LIST1_TODAY_UNION_MEMBER_TYPE_OR => "list1_today_union_member_type_or",
        TODAY_OPTIONAL_ARGUMENT => "today_optional_argument",
        OPT_ELLIPSIS => "opt_ellipsis",
        TODAY_REQUIRED_ARGUMENT => "today_required_argument",
        TODAY_ARGUMENT_KIND => "today_argument_kind",
        TODAY_ARGUMENT => "today_argument",
        TAIL_TODAY_ARGUMENT_COMMA => "tail_today_argument_comma",
        TODAY_ARGUMENT_LIST => "today_argument_list",
        TODAY_ARGUMENTS => "today_arguments",
        TODAY_ATTRIBUTE_ARG_LIST => "today_attribute_arg_list",
        TODAY_ATTRIBUTE_NAMED_ARG_LIST => "today_attribute_named_arg_list",
        TODAY_ATTRIBUTE_WILDCARD => "today_attribute_wildcard",
        TODAY_ATTRIBUTE_NUMBER => "today_attribute_number",
        TODAY_ATTRIBUTE_STRINGS => "today_attribute_strings",
        TODAY_ATTRIBUTE_NUMBERS => "today_attribute_numbers",
        TODAY_ATTRIBUTE => "today_attribute",
        TAIL_TODAY_ATTRIBUTE_COMMA => "tail_today_attribute_comma",
        _ => "list_today_attribute_comma",
    }
}
