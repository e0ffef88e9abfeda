//! Keywords with capitals: trivia, the keyword's bytes with no name character next, trivia.
//!
//! Written by tools/grammar.py, and not edited by hand.

ghost use Rattle.std.specs.Prelude.{◌≡◌, ◌<◌, ◌≤◌};
ghost use Rattle.weedle_grammar.specs.written.Names.{name_of};
ghost use Rattle.weedle_grammar.specs.written.Table.{row_of};
ghost use Rattle.weedle_grammar.specs.View.{row_view};

use crate::grammar::keywords::NOT_NEXT_NAME;
use crate::grammar::trivia::TRIVIA;
use crate::row::{Row, parts_of};
use crate::rule::Rule;

pub const BYTES_BYTE_STRING: u16 = 140;

pub const BYTE_STRING: u16 = 141;

pub const BYTES_DOM_STRING: u16 = 142;

pub const DOM_STRING: u16 = 143;

pub const BYTES_FROZEN_ARRAY: u16 = 144;

pub const FROZEN_ARRAY: u16 = 145;

pub const BYTES_INFINITY: u16 = 146;

pub const INFINITY: u16 = 147;

pub const BYTES_NAN: u16 = 148;

pub const NAN: u16 = 149;

pub const BYTES_USV_STRING: u16 = 150;

pub const USV_STRING: u16 = 151;

pub const BYTES_ARRAY_BUFFER: u16 = 152;

pub const ARRAY_BUFFER: u16 = 153;

pub const BYTES_DATA_VIEW: u16 = 154;

pub const DATA_VIEW: u16 = 155;

pub const BYTES_INT8_ARRAY: u16 = 156;

pub const INT8_ARRAY: u16 = 157;

pub const BYTES_INT16_ARRAY: u16 = 158;

pub const INT16_ARRAY: u16 = 159;

pub const BYTES_INT32_ARRAY: u16 = 160;

pub const INT32_ARRAY: u16 = 161;

pub const BYTES_UINT8_ARRAY: u16 = 162;

pub const UINT8_ARRAY: u16 = 163;

pub const BYTES_UINT16_ARRAY: u16 = 164;

pub const UINT16_ARRAY: u16 = 165;

pub const BYTES_UINT32_ARRAY: u16 = 166;

pub const UINT32_ARRAY: u16 = 167;

pub const BYTES_UINT8_CLAMPED_ARRAY: u16 = 168;

pub const UINT8_CLAMPED_ARRAY: u16 = 169;

pub const BYTES_FLOAT32_ARRAY: u16 = 170;

pub const FLOAT32_ARRAY: u16 = 171;

pub const BYTES_FLOAT64_ARRAY: u16 = 172;

pub const FLOAT64_ARRAY: u16 = 173;

pub const BYTES_ARRAY_BUFFER_VIEW: u16 = 174;

pub const ARRAY_BUFFER_VIEW: u16 = 175;

pub const BYTES_BUFFER_SOURCE: u16 = 176;

pub const BUFFER_SOURCE: u16 = 177;

pub const BYTES_PROMISE: u16 = 178;

pub const PROMISE: u16 = 179;

pub const BYTES_ERROR: u16 = 180;

pub const ERROR: u16 = 181;

pub const BYTES_NEG_INFINITY: u16 = 182;

pub const NEG_INFINITY: u16 = 183;

impl Rule {
    /// The keyword `ByteString`.
    pub const BYTE_STRING: Rule = Rule(BYTE_STRING);
    /// The keyword `DOMString`.
    pub const DOM_STRING: Rule = Rule(DOM_STRING);
    /// The keyword `FrozenArray`.
    pub const FROZEN_ARRAY: Rule = Rule(FROZEN_ARRAY);
    /// The keyword `Infinity`.
    pub const INFINITY: Rule = Rule(INFINITY);
    /// The keyword `NaN`.
    pub const NAN: Rule = Rule(NAN);
    /// The keyword `USVString`.
    pub const USV_STRING: Rule = Rule(USV_STRING);
    /// The keyword `ArrayBuffer`.
    pub const ARRAY_BUFFER: Rule = Rule(ARRAY_BUFFER);
    /// The keyword `DataView`.
    pub const DATA_VIEW: Rule = Rule(DATA_VIEW);
    /// The keyword `Int8Array`.
    pub const INT8_ARRAY: Rule = Rule(INT8_ARRAY);
    /// The keyword `Int16Array`.
    pub const INT16_ARRAY: Rule = Rule(INT16_ARRAY);
    /// The keyword `Int32Array`.
    pub const INT32_ARRAY: Rule = Rule(INT32_ARRAY);
    /// The keyword `Uint8Array`.
    pub const UINT8_ARRAY: Rule = Rule(UINT8_ARRAY);
    /// The keyword `Uint16Array`.
    pub const UINT16_ARRAY: Rule = Rule(UINT16_ARRAY);
    /// The keyword `Uint32Array`.
    pub const UINT32_ARRAY: Rule = Rule(UINT32_ARRAY);
    /// The keyword `Uint8ClampedArray`.
    pub const UINT8_CLAMPED_ARRAY: Rule = Rule(UINT8_CLAMPED_ARRAY);
    /// The keyword `Float32Array`.
    pub const FLOAT32_ARRAY: Rule = Rule(FLOAT32_ARRAY);
    /// The keyword `Float64Array`.
    pub const FLOAT64_ARRAY: Rule = Rule(FLOAT64_ARRAY);
    /// The keyword `ArrayBufferView`.
    pub const ARRAY_BUFFER_VIEW: Rule = Rule(ARRAY_BUFFER_VIEW);
    /// The keyword `BufferSource`.
    pub const BUFFER_SOURCE: Rule = Rule(BUFFER_SOURCE);
    /// The keyword `Promise`.
    pub const PROMISE: Rule = Rule(PROMISE);
    /// The keyword `Error`.
    pub const ERROR: Rule = Rule(ERROR);
    /// The keyword `-Infinity`.
    pub const NEG_INFINITY: Rule = Rule(NEG_INFINITY);
}

/// The row of a rule from 140 to 183.
#[inline(always)]
pub(super) fn row(number: u16) -> Row
    requires low { 140 ≤ number }
    requires high { number < 184 }
    ensures { row_view result ≡ row_of number }
{
    match number {
        BYTES_BYTE_STRING => Row::Bytes(b"ByteString"),
        BYTE_STRING => Row::Seq(parts_of(&[TRIVIA, BYTES_BYTE_STRING, NOT_NEXT_NAME, TRIVIA])),
        BYTES_DOM_STRING => Row::Bytes(b"DOMString"),
        DOM_STRING => Row::Seq(parts_of(&[TRIVIA, BYTES_DOM_STRING, NOT_NEXT_NAME, TRIVIA])),
        BYTES_FROZEN_ARRAY => Row::Bytes(b"FrozenArray"),
        FROZEN_ARRAY => Row::Seq(parts_of(&[TRIVIA, BYTES_FROZEN_ARRAY, NOT_NEXT_NAME, TRIVIA])),
        BYTES_INFINITY => Row::Bytes(b"Infinity"),
        INFINITY => Row::Seq(parts_of(&[TRIVIA, BYTES_INFINITY, NOT_NEXT_NAME, TRIVIA])),
        BYTES_NAN => Row::Bytes(b"NaN"),
        NAN => Row::Seq(parts_of(&[TRIVIA, BYTES_NAN, NOT_NEXT_NAME, TRIVIA])),
        BYTES_USV_STRING => Row::Bytes(b"USVString"),
        USV_STRING => Row::Seq(parts_of(&[TRIVIA, BYTES_USV_STRING, NOT_NEXT_NAME, TRIVIA])),
        BYTES_ARRAY_BUFFER => Row::Bytes(b"ArrayBuffer"),
        ARRAY_BUFFER => Row::Seq(parts_of(&[TRIVIA, BYTES_ARRAY_BUFFER, NOT_NEXT_NAME, TRIVIA])),
        BYTES_DATA_VIEW => Row::Bytes(b"DataView"),
        DATA_VIEW => Row::Seq(parts_of(&[TRIVIA, BYTES_DATA_VIEW, NOT_NEXT_NAME, TRIVIA])),
        BYTES_INT8_ARRAY => Row::Bytes(b"Int8Array"),
        INT8_ARRAY => Row::Seq(parts_of(&[TRIVIA, BYTES_INT8_ARRAY, NOT_NEXT_NAME, TRIVIA])),
        BYTES_INT16_ARRAY => Row::Bytes(b"Int16Array"),
        INT16_ARRAY => Row::Seq(parts_of(&[TRIVIA, BYTES_INT16_ARRAY, NOT_NEXT_NAME, TRIVIA])),
        BYTES_INT32_ARRAY => Row::Bytes(b"Int32Array"),
        INT32_ARRAY => Row::Seq(parts_of(&[TRIVIA, BYTES_INT32_ARRAY, NOT_NEXT_NAME, TRIVIA])),
        BYTES_UINT8_ARRAY => Row::Bytes(b"Uint8Array"),
        UINT8_ARRAY => Row::Seq(parts_of(&[TRIVIA, BYTES_UINT8_ARRAY, NOT_NEXT_NAME, TRIVIA])),
        BYTES_UINT16_ARRAY => Row::Bytes(b"Uint16Array"),
        UINT16_ARRAY => Row::Seq(parts_of(&[TRIVIA, BYTES_UINT16_ARRAY, NOT_NEXT_NAME, TRIVIA])),
        BYTES_UINT32_ARRAY => Row::Bytes(b"Uint32Array"),
        UINT32_ARRAY => Row::Seq(parts_of(&[TRIVIA, BYTES_UINT32_ARRAY, NOT_NEXT_NAME, TRIVIA])),
        BYTES_UINT8_CLAMPED_ARRAY => Row::Bytes(b"Uint8ClampedArray"),
        UINT8_CLAMPED_ARRAY => Row::Seq(parts_of(&[
            TRIVIA,
            BYTES_UINT8_CLAMPED_ARRAY,
            NOT_NEXT_NAME,
            TRIVIA,
        ])),
        BYTES_FLOAT32_ARRAY => Row::Bytes(b"Float32Array"),
        FLOAT32_ARRAY => Row::Seq(parts_of(&[TRIVIA, BYTES_FLOAT32_ARRAY, NOT_NEXT_NAME, TRIVIA])),
        BYTES_FLOAT64_ARRAY => Row::Bytes(b"Float64Array"),
        FLOAT64_ARRAY => Row::Seq(parts_of(&[TRIVIA, BYTES_FLOAT64_ARRAY, NOT_NEXT_NAME, TRIVIA])),
        BYTES_ARRAY_BUFFER_VIEW => Row::Bytes(b"ArrayBufferView"),
        ARRAY_BUFFER_VIEW => Row::Seq(parts_of(&[
            TRIVIA,
            BYTES_ARRAY_BUFFER_VIEW,
            NOT_NEXT_NAME,
            TRIVIA,
        ])),
        BYTES_BUFFER_SOURCE => Row::Bytes(b"BufferSource"),
        BUFFER_SOURCE => Row::Seq(parts_of(&[TRIVIA, BYTES_BUFFER_SOURCE, NOT_NEXT_NAME, TRIVIA])),
        BYTES_PROMISE => Row::Bytes(b"Promise"),
        PROMISE => Row::Seq(parts_of(&[TRIVIA, BYTES_PROMISE, NOT_NEXT_NAME, TRIVIA])),
        BYTES_ERROR => Row::Bytes(b"Error"),
        ERROR => Row::Seq(parts_of(&[TRIVIA, BYTES_ERROR, NOT_NEXT_NAME, TRIVIA])),
        BYTES_NEG_INFINITY => Row::Bytes(b"-Infinity"),
        _ => Row::Seq(parts_of(&[TRIVIA, BYTES_NEG_INFINITY, NOT_NEXT_NAME, TRIVIA])),
    }
}

/// The name of a rule from 140 to 183.
pub(super) fn name(number: u16) -> &'static str
    requires low { 140 ≤ number }
    requires high { number < 184 }
    ensures { result.now ≡ name_of number }
{
    match number {
        BYTES_BYTE_STRING => "bytes_byte_string",
        BYTE_STRING => "byte_string",
        BYTES_DOM_STRING => "bytes_dom_string",
        DOM_STRING => "dom_string",
        BYTES_FROZEN_ARRAY => "bytes_frozen_array",
        FROZEN_ARRAY => "frozen_array",
        BYTES_INFINITY => "bytes_infinity",
        INFINITY => "infinity",
        BYTES_NAN => "bytes_nan",
        NAN => "nan",
        BYTES_USV_STRING => "bytes_usv_string",
        USV_STRING => "usv_string",
        BYTES_ARRAY_BUFFER => "bytes_array_buffer",
        ARRAY_BUFFER => "array_buffer",
        BYTES_DATA_VIEW => "bytes_data_view",
        DATA_VIEW => "data_view",
        BYTES_INT8_ARRAY => "bytes_int8_array",
        INT8_ARRAY => "int8_array",
        BYTES_INT16_ARRAY => "bytes_int16_array",
        INT16_ARRAY => "int16_array",
        BYTES_INT32_ARRAY => "bytes_int32_array",
        INT32_ARRAY => "int32_array",
        BYTES_UINT8_ARRAY => "bytes_uint8_array",
        UINT8_ARRAY => "uint8_array",
        BYTES_UINT16_ARRAY => "bytes_uint16_array",
        UINT16_ARRAY => "uint16_array",
        BYTES_UINT32_ARRAY => "bytes_uint32_array",
        UINT32_ARRAY => "uint32_array",
        BYTES_UINT8_CLAMPED_ARRAY => "bytes_uint8_clamped_array",
        UINT8_CLAMPED_ARRAY => "uint8_clamped_array",
        BYTES_FLOAT32_ARRAY => "bytes_float32_array",
        FLOAT32_ARRAY => "float32_array",
        BYTES_FLOAT64_ARRAY => "bytes_float64_array",
        FLOAT64_ARRAY => "float64_array",
        BYTES_ARRAY_BUFFER_VIEW => "bytes_array_buffer_view",
        ARRAY_BUFFER_VIEW => "array_buffer_view",
        BYTES_BUFFER_SOURCE => "bytes_buffer_source",
        BUFFER_SOURCE => "buffer_source",
        BYTES_PROMISE => "bytes_promise",
        PROMISE => "promise",
        BYTES_ERROR => "bytes_error",
        ERROR => "error",
        BYTES_NEG_INFINITY => "bytes_neg_infinity",
        _ => "neg_infinity",
    }
}
