//! Keywords with capitals.
//!
//! Written by tools/terminals.py, and not edited by hand.

ghost use Rattle.weedle_grammar.specs.Trees.{Mark};
ghost use Rattle.weedle_grammar.specs.written.Table.CapitalizedKeywords.{
  BYTE_STRING,
  DOM_STRING,
  FROZEN_ARRAY,
  INFINITY,
  NAN,
  USV_STRING,
  ARRAY_BUFFER,
  DATA_VIEW,
  INT8_ARRAY,
  INT16_ARRAY,
  INT32_ARRAY,
  UINT8_ARRAY,
  UINT16_ARRAY,
  UINT32_ARRAY,
  UINT8_CLAMPED_ARRAY,
  FLOAT32_ARRAY,
  FLOAT64_ARRAY,
  ARRAY_BUFFER_VIEW,
  BUFFER_SOURCE,
  PROMISE,
  ERROR,
  NEG_INFINITY,
};
ghost use Rattle.weedle_base.specs.Own.{own};
ghost use Rattle.weedle_base.specs.OwnLaws.{own_lawful};

use crate::{IResult, Parse, keyword};
use std::alloc::Global;
use weedle_grammar::Rule;

/// The keyword `ByteString`, with the trivia around it.
#[derive(Clone, Copy, Debug, Default, PartialEq, Eq, PartialOrd, Ord, Hash)]
pub struct ByteString;

impl<'a> Parse<'a> for ByteString {
    ghost reading = { own BYTE_STRING (λ v. Mark) ⊥ };

    fn parse(_alloc: Global, input: &'a str) -> IResult<&'a str, Self> {
        keyword(Rule::BYTE_STRING, "ByteString", ByteString, input)
    }

    ghost lawful = { own_lawful BYTE_STRING (λ v. Mark) ⊥ };
}

/// The keyword `DOMString`, with the trivia around it.
#[derive(Clone, Copy, Debug, Default, PartialEq, Eq, PartialOrd, Ord, Hash)]
pub struct DOMString;

impl<'a> Parse<'a> for DOMString {
    ghost reading = { own DOM_STRING (λ v. Mark) ⊥ };

    fn parse(_alloc: Global, input: &'a str) -> IResult<&'a str, Self> {
        keyword(Rule::DOM_STRING, "DOMString", DOMString, input)
    }

    ghost lawful = { own_lawful DOM_STRING (λ v. Mark) ⊥ };
}

/// The keyword `FrozenArray`, with the trivia around it.
#[derive(Clone, Copy, Debug, Default, PartialEq, Eq, PartialOrd, Ord, Hash)]
pub struct FrozenArray;

impl<'a> Parse<'a> for FrozenArray {
    ghost reading = { own FROZEN_ARRAY (λ v. Mark) ⊥ };

    fn parse(_alloc: Global, input: &'a str) -> IResult<&'a str, Self> {
        keyword(Rule::FROZEN_ARRAY, "FrozenArray", FrozenArray, input)
    }

    ghost lawful = { own_lawful FROZEN_ARRAY (λ v. Mark) ⊥ };
}

/// The keyword `Infinity`, with the trivia around it.
#[derive(Clone, Copy, Debug, Default, PartialEq, Eq, PartialOrd, Ord, Hash)]
pub struct Infinity;

impl<'a> Parse<'a> for Infinity {
    ghost reading = { own INFINITY (λ v. Mark) ⊥ };

    fn parse(_alloc: Global, input: &'a str) -> IResult<&'a str, Self> {
        keyword(Rule::INFINITY, "Infinity", Infinity, input)
    }

    ghost lawful = { own_lawful INFINITY (λ v. Mark) ⊥ };
}

/// The keyword `NaN`, with the trivia around it.
#[derive(Clone, Copy, Debug, Default, PartialEq, Eq, PartialOrd, Ord, Hash)]
pub struct NaN;

impl<'a> Parse<'a> for NaN {
    ghost reading = { own NAN (λ v. Mark) ⊥ };

    fn parse(_alloc: Global, input: &'a str) -> IResult<&'a str, Self> {
        keyword(Rule::NAN, "NaN", NaN, input)
    }

    ghost lawful = { own_lawful NAN (λ v. Mark) ⊥ };
}

/// The keyword `USVString`, with the trivia around it.
#[derive(Clone, Copy, Debug, Default, PartialEq, Eq, PartialOrd, Ord, Hash)]
pub struct USVString;

impl<'a> Parse<'a> for USVString {
    ghost reading = { own USV_STRING (λ v. Mark) ⊥ };

    fn parse(_alloc: Global, input: &'a str) -> IResult<&'a str, Self> {
        keyword(Rule::USV_STRING, "USVString", USVString, input)
    }

    ghost lawful = { own_lawful USV_STRING (λ v. Mark) ⊥ };
}

/// The keyword `ArrayBuffer`, with the trivia around it.
#[derive(Clone, Copy, Debug, Default, PartialEq, Eq, PartialOrd, Ord, Hash)]
pub struct ArrayBuffer;

impl<'a> Parse<'a> for ArrayBuffer {
    ghost reading = { own ARRAY_BUFFER (λ v. Mark) ⊥ };

    fn parse(_alloc: Global, input: &'a str) -> IResult<&'a str, Self> {
        keyword(Rule::ARRAY_BUFFER, "ArrayBuffer", ArrayBuffer, input)
    }

    ghost lawful = { own_lawful ARRAY_BUFFER (λ v. Mark) ⊥ };
}

/// The keyword `DataView`, with the trivia around it.
#[derive(Clone, Copy, Debug, Default, PartialEq, Eq, PartialOrd, Ord, Hash)]
pub struct DataView;

impl<'a> Parse<'a> for DataView {
    ghost reading = { own DATA_VIEW (λ v. Mark) ⊥ };

    fn parse(_alloc: Global, input: &'a str) -> IResult<&'a str, Self> {
        keyword(Rule::DATA_VIEW, "DataView", DataView, input)
    }

    ghost lawful = { own_lawful DATA_VIEW (λ v. Mark) ⊥ };
}

/// The keyword `Int8Array`, with the trivia around it.
#[derive(Clone, Copy, Debug, Default, PartialEq, Eq, PartialOrd, Ord, Hash)]
pub struct Int8Array;

impl<'a> Parse<'a> for Int8Array {
    ghost reading = { own INT8_ARRAY (λ v. Mark) ⊥ };

    fn parse(_alloc: Global, input: &'a str) -> IResult<&'a str, Self> {
        keyword(Rule::INT8_ARRAY, "Int8Array", Int8Array, input)
    }

    ghost lawful = { own_lawful INT8_ARRAY (λ v. Mark) ⊥ };
}

/// The keyword `Int16Array`, with the trivia around it.
#[derive(Clone, Copy, Debug, Default, PartialEq, Eq, PartialOrd, Ord, Hash)]
pub struct Int16Array;

impl<'a> Parse<'a> for Int16Array {
    ghost reading = { own INT16_ARRAY (λ v. Mark) ⊥ };

    fn parse(_alloc: Global, input: &'a str) -> IResult<&'a str, Self> {
        keyword(Rule::INT16_ARRAY, "Int16Array", Int16Array, input)
    }

    ghost lawful = { own_lawful INT16_ARRAY (λ v. Mark) ⊥ };
}

/// The keyword `Int32Array`, with the trivia around it.
#[derive(Clone, Copy, Debug, Default, PartialEq, Eq, PartialOrd, Ord, Hash)]
pub struct Int32Array;

impl<'a> Parse<'a> for Int32Array {
    ghost reading = { own INT32_ARRAY (λ v. Mark) ⊥ };

    fn parse(_alloc: Global, input: &'a str) -> IResult<&'a str, Self> {
        keyword(Rule::INT32_ARRAY, "Int32Array", Int32Array, input)
    }

    ghost lawful = { own_lawful INT32_ARRAY (λ v. Mark) ⊥ };
}

/// The keyword `Uint8Array`, with the trivia around it.
#[derive(Clone, Copy, Debug, Default, PartialEq, Eq, PartialOrd, Ord, Hash)]
pub struct Uint8Array;

impl<'a> Parse<'a> for Uint8Array {
    ghost reading = { own UINT8_ARRAY (λ v. Mark) ⊥ };

    fn parse(_alloc: Global, input: &'a str) -> IResult<&'a str, Self> {
        keyword(Rule::UINT8_ARRAY, "Uint8Array", Uint8Array, input)
    }

    ghost lawful = { own_lawful UINT8_ARRAY (λ v. Mark) ⊥ };
}

/// The keyword `Uint16Array`, with the trivia around it.
#[derive(Clone, Copy, Debug, Default, PartialEq, Eq, PartialOrd, Ord, Hash)]
pub struct Uint16Array;

impl<'a> Parse<'a> for Uint16Array {
    ghost reading = { own UINT16_ARRAY (λ v. Mark) ⊥ };

    fn parse(_alloc: Global, input: &'a str) -> IResult<&'a str, Self> {
        keyword(Rule::UINT16_ARRAY, "Uint16Array", Uint16Array, input)
    }

    ghost lawful = { own_lawful UINT16_ARRAY (λ v. Mark) ⊥ };
}

/// The keyword `Uint32Array`, with the trivia around it.
#[derive(Clone, Copy, Debug, Default, PartialEq, Eq, PartialOrd, Ord, Hash)]
pub struct Uint32Array;

impl<'a> Parse<'a> for Uint32Array {
    ghost reading = { own UINT32_ARRAY (λ v. Mark) ⊥ };

    fn parse(_alloc: Global, input: &'a str) -> IResult<&'a str, Self> {
        keyword(Rule::UINT32_ARRAY, "Uint32Array", Uint32Array, input)
    }

    ghost lawful = { own_lawful UINT32_ARRAY (λ v. Mark) ⊥ };
}

/// The keyword `Uint8ClampedArray`, with the trivia around it.
#[derive(Clone, Copy, Debug, Default, PartialEq, Eq, PartialOrd, Ord, Hash)]
pub struct Uint8ClampedArray;

impl<'a> Parse<'a> for Uint8ClampedArray {
    ghost reading = { own UINT8_CLAMPED_ARRAY (λ v. Mark) ⊥ };

    fn parse(_alloc: Global, input: &'a str) -> IResult<&'a str, Self> {
        keyword(
            Rule::UINT8_CLAMPED_ARRAY,
            "Uint8ClampedArray",
            Uint8ClampedArray,
            input,
        )
    }

    ghost lawful = { own_lawful UINT8_CLAMPED_ARRAY (λ v. Mark) ⊥ };
}

/// The keyword `Float32Array`, with the trivia around it.
#[derive(Clone, Copy, Debug, Default, PartialEq, Eq, PartialOrd, Ord, Hash)]
pub struct Float32Array;

impl<'a> Parse<'a> for Float32Array {
    ghost reading = { own FLOAT32_ARRAY (λ v. Mark) ⊥ };

    fn parse(_alloc: Global, input: &'a str) -> IResult<&'a str, Self> {
        keyword(Rule::FLOAT32_ARRAY, "Float32Array", Float32Array, input)
    }

    ghost lawful = { own_lawful FLOAT32_ARRAY (λ v. Mark) ⊥ };
}

/// The keyword `Float64Array`, with the trivia around it.
#[derive(Clone, Copy, Debug, Default, PartialEq, Eq, PartialOrd, Ord, Hash)]
pub struct Float64Array;

impl<'a> Parse<'a> for Float64Array {
    ghost reading = { own FLOAT64_ARRAY (λ v. Mark) ⊥ };

    fn parse(_alloc: Global, input: &'a str) -> IResult<&'a str, Self> {
        keyword(Rule::FLOAT64_ARRAY, "Float64Array", Float64Array, input)
    }

    ghost lawful = { own_lawful FLOAT64_ARRAY (λ v. Mark) ⊥ };
}

/// The keyword `ArrayBufferView`, with the trivia around it.
#[derive(Clone, Copy, Debug, Default, PartialEq, Eq, PartialOrd, Ord, Hash)]
pub struct ArrayBufferView;

impl<'a> Parse<'a> for ArrayBufferView {
    ghost reading = { own ARRAY_BUFFER_VIEW (λ v. Mark) ⊥ };

    fn parse(_alloc: Global, input: &'a str) -> IResult<&'a str, Self> {
        keyword(
            Rule::ARRAY_BUFFER_VIEW,
            "ArrayBufferView",
            ArrayBufferView,
            input,
        )
    }

    ghost lawful = { own_lawful ARRAY_BUFFER_VIEW (λ v. Mark) ⊥ };
}

/// The keyword `BufferSource`, with the trivia around it.
#[derive(Clone, Copy, Debug, Default, PartialEq, Eq, PartialOrd, Ord, Hash)]
pub struct BufferSource;

impl<'a> Parse<'a> for BufferSource {
    ghost reading = { own BUFFER_SOURCE (λ v. Mark) ⊥ };

    fn parse(_alloc: Global, input: &'a str) -> IResult<&'a str, Self> {
        keyword(Rule::BUFFER_SOURCE, "BufferSource", BufferSource, input)
    }

    ghost lawful = { own_lawful BUFFER_SOURCE (λ v. Mark) ⊥ };
}

/// The keyword `Promise`, with the trivia around it.
#[derive(Clone, Copy, Debug, Default, PartialEq, Eq, PartialOrd, Ord, Hash)]
pub struct Promise;

impl<'a> Parse<'a> for Promise {
    ghost reading = { own PROMISE (λ v. Mark) ⊥ };

    fn parse(_alloc: Global, input: &'a str) -> IResult<&'a str, Self> {
        keyword(Rule::PROMISE, "Promise", Promise, input)
    }

    ghost lawful = { own_lawful PROMISE (λ v. Mark) ⊥ };
}

/// The keyword `Error`, with the trivia around it.
#[derive(Clone, Copy, Debug, Default, PartialEq, Eq, PartialOrd, Ord, Hash)]
pub struct Error;

impl<'a> Parse<'a> for Error {
    ghost reading = { own ERROR (λ v. Mark) ⊥ };

    fn parse(_alloc: Global, input: &'a str) -> IResult<&'a str, Self> {
        keyword(Rule::ERROR, "Error", Error, input)
    }

    ghost lawful = { own_lawful ERROR (λ v. Mark) ⊥ };
}

/// The keyword `-Infinity`, with the trivia around it.
#[derive(Clone, Copy, Debug, Default, PartialEq, Eq, PartialOrd, Ord, Hash)]
pub struct NegInfinity;

impl<'a> Parse<'a> for NegInfinity {
    ghost reading = { own NEG_INFINITY (λ v. Mark) ⊥ };

    fn parse(_alloc: Global, input: &'a str) -> IResult<&'a str, Self> {
        keyword(Rule::NEG_INFINITY, "-Infinity", NegInfinity, input)
    }

    ghost lawful = { own_lawful NEG_INFINITY (λ v. Mark) ⊥ };
}
