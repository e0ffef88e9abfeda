//! Types that hold types, extended attributes and arguments, which read one another.
//!
//! Written by tools/grammar.py, and not edited by hand.

ghost use Rattle.std.specs.Prelude.{◌≡◌, ◌<◌, ◌≤◌};
ghost use Rattle.weedle_grammar.specs.written.Names.{name_of};
ghost use Rattle.weedle_grammar.specs.written.Table.{row_of};
ghost use Rattle.weedle_grammar.specs.View.{row_view};

use crate::grammar::capitalized_keywords::{
    ARRAY_BUFFER, ARRAY_BUFFER_VIEW, BUFFER_SOURCE, BYTE_STRING, DATA_VIEW, DOM_STRING, ERROR,
    FLOAT32_ARRAY, FLOAT64_ARRAY, FROZEN_ARRAY, INT8_ARRAY, INT16_ARRAY, INT32_ARRAY, PROMISE,
    UINT8_ARRAY, UINT8_CLAMPED_ARRAY, UINT16_ARRAY, UINT32_ARRAY, USV_STRING,
};
use crate::grammar::keywords::{ANY, OBJECT, OPTIONAL, OR, RECORD, SEQUENCE, SYMBOL, UNDEFINED};
use crate::grammar::leaves::{IDENTIFIER, STRING_LIT};
use crate::grammar::literals::DEFAULT;
use crate::grammar::simple_types::{
    MAY_BE_NULL_BOOLEAN, MAY_BE_NULL_BYTE, MAY_BE_NULL_FLOATING_POINT_TYPE, MAY_BE_NULL_IDENTIFIER,
    MAY_BE_NULL_INTEGER_TYPE, MAY_BE_NULL_OCTET, OPT_Q_MARK, PARENTHESIZED_IDENTIFIER_LIST,
};
use crate::grammar::symbols::{
    ASSIGN, CLOSE_BRACKET, CLOSE_PAREN, COMMA, ELLIPSIS, GREATER_THAN, LESS_THAN, OPEN_BRACKET,
    OPEN_PAREN,
};
use crate::row::{Row, parts_of};
use crate::rule::Rule;

pub const GENERICS_TYPE: u16 = 256;

pub const SEQUENCE_TYPE: u16 = 257;

pub const FROZEN_ARRAY_TYPE: u16 = 258;

pub const GENERICS_RETURN_TYPE: u16 = 259;

pub const PROMISE_TYPE: u16 = 260;

pub const GENERICS_RECORD_TYPES: u16 = 261;

pub const RECORD_TYPE: u16 = 262;

pub const UNION_TYPE: u16 = 263;

pub const MAY_BE_NULL_UNION_TYPE: u16 = 264;

pub const MAY_BE_NULL_BYTE_STRING: u16 = 265;

pub const MAY_BE_NULL_DOM_STRING: u16 = 266;

pub const MAY_BE_NULL_USV_STRING: u16 = 267;

pub const MAY_BE_NULL_SEQUENCE_TYPE: u16 = 268;

pub const MAY_BE_NULL_OBJECT: u16 = 269;

pub const MAY_BE_NULL_SYMBOL: u16 = 270;

pub const MAY_BE_NULL_ERROR: u16 = 271;

pub const MAY_BE_NULL_ARRAY_BUFFER: u16 = 272;

pub const MAY_BE_NULL_DATA_VIEW: u16 = 273;

pub const MAY_BE_NULL_INT8_ARRAY: u16 = 274;

pub const MAY_BE_NULL_INT16_ARRAY: u16 = 275;

pub const MAY_BE_NULL_INT32_ARRAY: u16 = 276;

pub const MAY_BE_NULL_UINT8_ARRAY: u16 = 277;

pub const MAY_BE_NULL_UINT16_ARRAY: u16 = 278;

pub const MAY_BE_NULL_UINT32_ARRAY: u16 = 279;

pub const MAY_BE_NULL_UINT8_CLAMPED_ARRAY: u16 = 280;

pub const MAY_BE_NULL_FLOAT32_ARRAY: u16 = 281;

pub const MAY_BE_NULL_FLOAT64_ARRAY: u16 = 282;

pub const MAY_BE_NULL_ARRAY_BUFFER_VIEW: u16 = 283;

pub const MAY_BE_NULL_BUFFER_SOURCE: u16 = 284;

pub const MAY_BE_NULL_FROZEN_ARRAY_TYPE: u16 = 285;

pub const MAY_BE_NULL_RECORD_TYPE: u16 = 286;

pub const NON_ANY_TYPE: u16 = 287;

pub const RECORD_KEY_TYPE: u16 = 288;

pub const RECORD_TYPES: u16 = 289;

pub const SINGLE_TYPE: u16 = 290;

pub const TYPE: u16 = 291;

pub const RETURN_TYPE: u16 = 292;

pub const EXTENDED_ATTRIBUTE_LIST: u16 = 293;

pub const OPT_EXTENDED_ATTRIBUTE_LIST: u16 = 294;

pub const ATTRIBUTED_TYPE: u16 = 295;

pub const ATTRIBUTED_NON_ANY_TYPE: u16 = 296;

pub const UNION_MEMBER_TYPE: u16 = 297;

pub const TAIL_UNION_MEMBER_TYPE_OR: u16 = 298;

pub const LIST_UNION_MEMBER_TYPE_OR: u16 = 299;

pub const OPT_OPTIONAL: u16 = 300;

pub const OPT_DEFAULT: u16 = 301;

pub const SINGLE_ARGUMENT: u16 = 302;

pub const VARIADIC_ARGUMENT: u16 = 303;

pub const ARGUMENT: u16 = 304;

pub const TAIL_ARGUMENT_COMMA: u16 = 305;

pub const ARGUMENT_LIST: u16 = 306;

pub const PARENTHESIZED_ARGUMENT_LIST: u16 = 307;

pub const EXTENDED_ATTRIBUTE_ARG_LIST: u16 = 308;

pub const EXTENDED_ATTRIBUTE_NAMED_ARG_LIST: u16 = 309;

pub const EXTENDED_ATTRIBUTE_IDENT_LIST: u16 = 310;

pub const IDENTIFIER_OR_STRING: u16 = 311;

pub const EXTENDED_ATTRIBUTE_IDENT: u16 = 312;

pub const EXTENDED_ATTRIBUTE_NO_ARGS: u16 = 313;

pub const EXTENDED_ATTRIBUTE: u16 = 314;

pub const TAIL_EXTENDED_ATTRIBUTE_COMMA: u16 = 315;

pub const LIST_EXTENDED_ATTRIBUTE_COMMA: u16 = 316;

impl Rule {
    /// A sequence, as `sequence<long>`.
    pub const SEQUENCE_TYPE: Rule = Rule(SEQUENCE_TYPE);
    /// A frozen array, as `FrozenArray<long>`.
    pub const FROZEN_ARRAY_TYPE: Rule = Rule(FROZEN_ARRAY_TYPE);
    /// A promise, as `Promise<long>`.
    pub const PROMISE_TYPE: Rule = Rule(PROMISE_TYPE);
    /// A record, as `record<DOMString, long>`.
    pub const RECORD_TYPE: Rule = Rule(RECORD_TYPE);
    /// A union, as `(long or DOMString)`.
    pub const UNION_TYPE: Rule = Rule(UNION_TYPE);
    /// A type that is neither `any` nor a union, as `long?`.
    pub const NON_ANY_TYPE: Rule = Rule(NON_ANY_TYPE);
    /// The type of a record's keys.
    pub const RECORD_KEY_TYPE: Rule = Rule(RECORD_KEY_TYPE);
    /// A record's two types, as `DOMString, long`.
    pub const RECORD_TYPES: Rule = Rule(RECORD_TYPES);
    /// A type that is no union.
    pub const SINGLE_TYPE: Rule = Rule(SINGLE_TYPE);
    /// A type.
    pub const TYPE: Rule = Rule(TYPE);
    /// What an operation returns: `undefined`, or a type.
    pub const RETURN_TYPE: Rule = Rule(RETURN_TYPE);
    /// Extended attributes, as `[Clamp, Exposed=Window]`.
    pub const EXTENDED_ATTRIBUTE_LIST: Rule = Rule(EXTENDED_ATTRIBUTE_LIST);
    /// A type with extended attributes, as `[Clamp] long`.
    pub const ATTRIBUTED_TYPE: Rule = Rule(ATTRIBUTED_TYPE);
    /// A type that is neither `any` nor a union, with extended attributes, as `[Clamp] long`.
    pub const ATTRIBUTED_NON_ANY_TYPE: Rule = Rule(ATTRIBUTED_NON_ANY_TYPE);
    /// A member of a union.
    pub const UNION_MEMBER_TYPE: Rule = Rule(UNION_MEMBER_TYPE);
    /// An argument, as `optional long x = 5`; a default is read only behind `optional`.
    pub const SINGLE_ARGUMENT: Rule = Rule(SINGLE_ARGUMENT);
    /// Any number of arguments, as `long... x`.
    pub const VARIADIC_ARGUMENT: Rule = Rule(VARIADIC_ARGUMENT);
    /// An argument.
    pub const ARGUMENT: Rule = Rule(ARGUMENT);
    /// Arguments, as `long x, long y`, none included.
    pub const ARGUMENT_LIST: Rule = Rule(ARGUMENT_LIST);
    /// An extended attribute with arguments, as `Constructor(long x)`.
    pub const EXTENDED_ATTRIBUTE_ARG_LIST: Rule = Rule(EXTENDED_ATTRIBUTE_ARG_LIST);
    /// An extended attribute with a name and arguments, as `NamedConstructor=Image(long x)`.
    pub const EXTENDED_ATTRIBUTE_NAMED_ARG_LIST: Rule = Rule(EXTENDED_ATTRIBUTE_NAMED_ARG_LIST);
    /// An extended attribute with names, as `Exposed=(Window, Worker)`.
    pub const EXTENDED_ATTRIBUTE_IDENT_LIST: Rule = Rule(EXTENDED_ATTRIBUTE_IDENT_LIST);
    /// A name or a string.
    pub const IDENTIFIER_OR_STRING: Rule = Rule(IDENTIFIER_OR_STRING);
    /// An extended attribute with a name or a string, as `PutForwards=name`.
    pub const EXTENDED_ATTRIBUTE_IDENT: Rule = Rule(EXTENDED_ATTRIBUTE_IDENT);
    /// An extended attribute alone, as `Replaceable`.
    pub const EXTENDED_ATTRIBUTE_NO_ARGS: Rule = Rule(EXTENDED_ATTRIBUTE_NO_ARGS);
    /// An extended attribute.
    pub const EXTENDED_ATTRIBUTE: Rule = Rule(EXTENDED_ATTRIBUTE);
}

/// The row of a rule from 256 to 316.
#[inline(always)]
pub(super) fn row(number: u16) -> Row
    requires low { 256 ≤ number }
    requires high { number < 317 }
    ensures { row_view result ≡ row_of number }
{
    match number {
        GENERICS_TYPE => Row::Seq(parts_of(&[LESS_THAN, TYPE, GREATER_THAN])),
        SEQUENCE_TYPE => Row::Seq(parts_of(&[SEQUENCE, GENERICS_TYPE])),
        FROZEN_ARRAY_TYPE => Row::Seq(parts_of(&[FROZEN_ARRAY, GENERICS_TYPE])),
        GENERICS_RETURN_TYPE => Row::Seq(parts_of(&[LESS_THAN, RETURN_TYPE, GREATER_THAN])),
        PROMISE_TYPE => Row::Seq(parts_of(&[PROMISE, GENERICS_RETURN_TYPE])),
        GENERICS_RECORD_TYPES => Row::Seq(parts_of(&[LESS_THAN, RECORD_TYPES, GREATER_THAN])),
        RECORD_TYPE => Row::Seq(parts_of(&[RECORD, GENERICS_RECORD_TYPES])),
        UNION_TYPE => Row::Seq(parts_of(&[OPEN_PAREN, LIST_UNION_MEMBER_TYPE_OR, CLOSE_PAREN])),
        MAY_BE_NULL_UNION_TYPE => Row::Seq(parts_of(&[UNION_TYPE, OPT_Q_MARK])),
        MAY_BE_NULL_BYTE_STRING => Row::Seq(parts_of(&[BYTE_STRING, OPT_Q_MARK])),
        MAY_BE_NULL_DOM_STRING => Row::Seq(parts_of(&[DOM_STRING, OPT_Q_MARK])),
        MAY_BE_NULL_USV_STRING => Row::Seq(parts_of(&[USV_STRING, OPT_Q_MARK])),
        MAY_BE_NULL_SEQUENCE_TYPE => Row::Seq(parts_of(&[SEQUENCE_TYPE, OPT_Q_MARK])),
        MAY_BE_NULL_OBJECT => Row::Seq(parts_of(&[OBJECT, OPT_Q_MARK])),
        MAY_BE_NULL_SYMBOL => Row::Seq(parts_of(&[SYMBOL, OPT_Q_MARK])),
        MAY_BE_NULL_ERROR => Row::Seq(parts_of(&[ERROR, OPT_Q_MARK])),
        MAY_BE_NULL_ARRAY_BUFFER => Row::Seq(parts_of(&[ARRAY_BUFFER, OPT_Q_MARK])),
        MAY_BE_NULL_DATA_VIEW => Row::Seq(parts_of(&[DATA_VIEW, OPT_Q_MARK])),
        MAY_BE_NULL_INT8_ARRAY => Row::Seq(parts_of(&[INT8_ARRAY, OPT_Q_MARK])),
        MAY_BE_NULL_INT16_ARRAY => Row::Seq(parts_of(&[INT16_ARRAY, OPT_Q_MARK])),
        MAY_BE_NULL_INT32_ARRAY => Row::Seq(parts_of(&[INT32_ARRAY, OPT_Q_MARK])),
        MAY_BE_NULL_UINT8_ARRAY => Row::Seq(parts_of(&[UINT8_ARRAY, OPT_Q_MARK])),
        MAY_BE_NULL_UINT16_ARRAY => Row::Seq(parts_of(&[UINT16_ARRAY, OPT_Q_MARK])),
        MAY_BE_NULL_UINT32_ARRAY => Row::Seq(parts_of(&[UINT32_ARRAY, OPT_Q_MARK])),
        MAY_BE_NULL_UINT8_CLAMPED_ARRAY => Row::Seq(parts_of(&[UINT8_CLAMPED_ARRAY, OPT_Q_MARK])),
        MAY_BE_NULL_FLOAT32_ARRAY => Row::Seq(parts_of(&[FLOAT32_ARRAY, OPT_Q_MARK])),
        MAY_BE_NULL_FLOAT64_ARRAY => Row::Seq(parts_of(&[FLOAT64_ARRAY, OPT_Q_MARK])),
        MAY_BE_NULL_ARRAY_BUFFER_VIEW => Row::Seq(parts_of(&[ARRAY_BUFFER_VIEW, OPT_Q_MARK])),
        MAY_BE_NULL_BUFFER_SOURCE => Row::Seq(parts_of(&[BUFFER_SOURCE, OPT_Q_MARK])),
        MAY_BE_NULL_FROZEN_ARRAY_TYPE => Row::Seq(parts_of(&[FROZEN_ARRAY_TYPE, OPT_Q_MARK])),
        MAY_BE_NULL_RECORD_TYPE => Row::Seq(parts_of(&[RECORD_TYPE, OPT_Q_MARK])),
        NON_ANY_TYPE => Row::First(parts_of(&[
            PROMISE_TYPE,
            MAY_BE_NULL_INTEGER_TYPE,
            MAY_BE_NULL_FLOATING_POINT_TYPE,
            MAY_BE_NULL_BOOLEAN,
            MAY_BE_NULL_BYTE,
            MAY_BE_NULL_OCTET,
            MAY_BE_NULL_BYTE_STRING,
            MAY_BE_NULL_DOM_STRING,
            MAY_BE_NULL_USV_STRING,
            MAY_BE_NULL_SEQUENCE_TYPE,
            MAY_BE_NULL_OBJECT,
            MAY_BE_NULL_SYMBOL,
            MAY_BE_NULL_ERROR,
            MAY_BE_NULL_ARRAY_BUFFER,
            MAY_BE_NULL_DATA_VIEW,
            MAY_BE_NULL_INT8_ARRAY,
            MAY_BE_NULL_INT16_ARRAY,
            MAY_BE_NULL_INT32_ARRAY,
            MAY_BE_NULL_UINT8_ARRAY,
            MAY_BE_NULL_UINT16_ARRAY,
            MAY_BE_NULL_UINT32_ARRAY,
            MAY_BE_NULL_UINT8_CLAMPED_ARRAY,
            MAY_BE_NULL_FLOAT32_ARRAY,
            MAY_BE_NULL_FLOAT64_ARRAY,
            MAY_BE_NULL_ARRAY_BUFFER_VIEW,
            MAY_BE_NULL_BUFFER_SOURCE,
            MAY_BE_NULL_FROZEN_ARRAY_TYPE,
            MAY_BE_NULL_RECORD_TYPE,
            MAY_BE_NULL_IDENTIFIER,
        ])),
        RECORD_KEY_TYPE => Row::First(parts_of(&[
            BYTE_STRING,
            DOM_STRING,
            USV_STRING,
            NON_ANY_TYPE,
        ])),
        RECORD_TYPES => Row::Seq(parts_of(&[RECORD_KEY_TYPE, COMMA, TYPE])),
        SINGLE_TYPE => Row::First(parts_of(&[ANY, NON_ANY_TYPE])),
        TYPE => Row::First(parts_of(&[SINGLE_TYPE, MAY_BE_NULL_UNION_TYPE])),
        RETURN_TYPE => Row::First(parts_of(&[UNDEFINED, TYPE])),
        EXTENDED_ATTRIBUTE_LIST => Row::Seq(parts_of(&[
            OPEN_BRACKET,
            LIST_EXTENDED_ATTRIBUTE_COMMA,
            CLOSE_BRACKET,
        ])),
        OPT_EXTENDED_ATTRIBUTE_LIST => Row::Opt(Rule(EXTENDED_ATTRIBUTE_LIST)),
        ATTRIBUTED_TYPE => Row::Seq(parts_of(&[OPT_EXTENDED_ATTRIBUTE_LIST, TYPE])),
        ATTRIBUTED_NON_ANY_TYPE => Row::Seq(parts_of(&[OPT_EXTENDED_ATTRIBUTE_LIST, NON_ANY_TYPE])),
        UNION_MEMBER_TYPE => Row::First(parts_of(&[
            ATTRIBUTED_NON_ANY_TYPE,
            MAY_BE_NULL_UNION_TYPE,
        ])),
        TAIL_UNION_MEMBER_TYPE_OR => Row::Tail(Rule(UNION_MEMBER_TYPE), Rule(OR)),
        LIST_UNION_MEMBER_TYPE_OR => Row::List(
            Rule(UNION_MEMBER_TYPE),
            Rule(TAIL_UNION_MEMBER_TYPE_OR),
        ),
        OPT_OPTIONAL => Row::Opt(Rule(OPTIONAL)),
        OPT_DEFAULT => Row::Opt(Rule(DEFAULT)),
        SINGLE_ARGUMENT => Row::If(
            parts_of(&[
                OPT_EXTENDED_ATTRIBUTE_LIST,
                OPT_OPTIONAL,
                ATTRIBUTED_TYPE,
                IDENTIFIER,
            ]),
            1,
            Rule(OPT_DEFAULT),
        ),
        VARIADIC_ARGUMENT => Row::Seq(parts_of(&[
            OPT_EXTENDED_ATTRIBUTE_LIST,
            TYPE,
            ELLIPSIS,
            IDENTIFIER,
        ])),
        ARGUMENT => Row::First(parts_of(&[SINGLE_ARGUMENT, VARIADIC_ARGUMENT])),
        TAIL_ARGUMENT_COMMA => Row::Tail(Rule(ARGUMENT), Rule(COMMA)),
        ARGUMENT_LIST => Row::List(Rule(ARGUMENT), Rule(TAIL_ARGUMENT_COMMA)),
        PARENTHESIZED_ARGUMENT_LIST => Row::Seq(parts_of(&[
            OPEN_PAREN,
            ARGUMENT_LIST,
            CLOSE_PAREN,
        ])),
        EXTENDED_ATTRIBUTE_ARG_LIST => Row::Seq(parts_of(&[
            IDENTIFIER,
            PARENTHESIZED_ARGUMENT_LIST,
        ])),
        EXTENDED_ATTRIBUTE_NAMED_ARG_LIST => Row::Seq(parts_of(&[
            IDENTIFIER,
            ASSIGN,
            IDENTIFIER,
            PARENTHESIZED_ARGUMENT_LIST,
        ])),
        EXTENDED_ATTRIBUTE_IDENT_LIST => Row::Seq(parts_of(&[
            IDENTIFIER,
            ASSIGN,
            PARENTHESIZED_IDENTIFIER_LIST,
        ])),
        IDENTIFIER_OR_STRING => Row::First(parts_of(&[IDENTIFIER, STRING_LIT])),
        EXTENDED_ATTRIBUTE_IDENT => Row::Seq(parts_of(&[IDENTIFIER, ASSIGN, IDENTIFIER_OR_STRING])),
        EXTENDED_ATTRIBUTE_NO_ARGS => Row::Seq(parts_of(&[IDENTIFIER])),
        EXTENDED_ATTRIBUTE => Row::First(parts_of(&[
            EXTENDED_ATTRIBUTE_ARG_LIST,
            EXTENDED_ATTRIBUTE_NAMED_ARG_LIST,
            EXTENDED_ATTRIBUTE_IDENT_LIST,
            EXTENDED_ATTRIBUTE_IDENT,
            EXTENDED_ATTRIBUTE_NO_ARGS,
        ])),
        TAIL_EXTENDED_ATTRIBUTE_COMMA => Row::Tail(Rule(EXTENDED_ATTRIBUTE), Rule(COMMA)),
        _ => Row::List(
            Rule(EXTENDED_ATTRIBUTE),
            Rule(TAIL_EXTENDED_ATTRIBUTE_COMMA),
        ),
    }
}

/// The name of a rule from 256 to 316.
pub(super) fn name(number: u16) -> &'static str
    requires low { 256 ≤ number }
    requires high { number < 317 }
    ensures { result.now ≡ name_of number }
{
    match number {
        GENERICS_TYPE => "generics_type",
        SEQUENCE_TYPE => "sequence_type",
        FROZEN_ARRAY_TYPE => "frozen_array_type",
        GENERICS_RETURN_TYPE => "generics_return_type",
        PROMISE_TYPE => "promise_type",
        GENERICS_RECORD_TYPES => "generics_record_types",
        RECORD_TYPE => "record_type",
        UNION_TYPE => "union_type",
        MAY_BE_NULL_UNION_TYPE => "may_be_null_union_type",
        MAY_BE_NULL_BYTE_STRING => "may_be_null_byte_string",
        MAY_BE_NULL_DOM_STRING => "may_be_null_dom_string",
        MAY_BE_NULL_USV_STRING => "may_be_null_usv_string",
        MAY_BE_NULL_SEQUENCE_TYPE => "may_be_null_sequence_type",
        MAY_BE_NULL_OBJECT => "may_be_null_object",
        MAY_BE_NULL_SYMBOL => "may_be_null_symbol",
        MAY_BE_NULL_ERROR => "may_be_null_error",
        MAY_BE_NULL_ARRAY_BUFFER => "may_be_null_array_buffer",
        MAY_BE_NULL_DATA_VIEW => "may_be_null_data_view",
        MAY_BE_NULL_INT8_ARRAY => "may_be_null_int8_array",
        MAY_BE_NULL_INT16_ARRAY => "may_be_null_int16_array",
        MAY_BE_NULL_INT32_ARRAY => "may_be_null_int32_array",
        MAY_BE_NULL_UINT8_ARRAY => "may_be_null_uint8_array",
        MAY_BE_NULL_UINT16_ARRAY => "may_be_null_uint16_array",
        MAY_BE_NULL_UINT32_ARRAY => "may_be_null_uint32_array",
        MAY_BE_NULL_UINT8_CLAMPED_ARRAY => "may_be_null_uint8_clamped_array",
        MAY_BE_NULL_FLOAT32_ARRAY => "may_be_null_float32_array",
        MAY_BE_NULL_FLOAT64_ARRAY => "may_be_null_float64_array",
        MAY_BE_NULL_ARRAY_BUFFER_VIEW => "may_be_null_array_buffer_view",
        MAY_BE_NULL_BUFFER_SOURCE => "may_be_null_buffer_source",
        MAY_BE_NULL_FROZEN_ARRAY_TYPE => "may_be_null_frozen_array_type",
        MAY_BE_NULL_RECORD_TYPE => "may_be_null_record_type",
        NON_ANY_TYPE => "non_any_type",
        RECORD_KEY_TYPE => "record_key_type",
        RECORD_TYPES => "record_types",
        SINGLE_TYPE => "single_type",
        TYPE => "type",
        RETURN_TYPE => "return_type",
        EXTENDED_ATTRIBUTE_LIST => "extended_attribute_list",
        OPT_EXTENDED_ATTRIBUTE_LIST => "opt_extended_attribute_list",
        ATTRIBUTED_TYPE => "attributed_type",
        ATTRIBUTED_NON_ANY_TYPE => "attributed_non_any_type",
        UNION_MEMBER_TYPE => "union_member_type",
        TAIL_UNION_MEMBER_TYPE_OR => "tail_union_member_type_or",
        LIST_UNION_MEMBER_TYPE_OR => "list_union_member_type_or",
        OPT_OPTIONAL => "opt_optional",
        OPT_DEFAULT => "opt_default",
        SINGLE_ARGUMENT => "single_argument",
        VARIADIC_ARGUMENT => "variadic_argument",
        ARGUMENT => "argument",
        TAIL_ARGUMENT_COMMA => "tail_argument_comma",
        ARGUMENT_LIST => "argument_list",
        PARENTHESIZED_ARGUMENT_LIST => "parenthesized_argument_list",
        EXTENDED_ATTRIBUTE_ARG_LIST => "extended_attribute_arg_list",
        EXTENDED_ATTRIBUTE_NAMED_ARG_LIST => "extended_attribute_named_arg_list",
        EXTENDED_ATTRIBUTE_IDENT_LIST => "extended_attribute_ident_list",
        IDENTIFIER_OR_STRING => "identifier_or_string",
        EXTENDED_ATTRIBUTE_IDENT => "extended_attribute_ident",
        EXTENDED_ATTRIBUTE_NO_ARGS => "extended_attribute_no_args",
        EXTENDED_ATTRIBUTE => "extended_attribute",
        TAIL_EXTENDED_ATTRIBUTE_COMMA => "tail_extended_attribute_comma",
        _ => "list_extended_attribute_comma",
    }
}
