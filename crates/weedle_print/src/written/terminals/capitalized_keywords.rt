//! Keywords with capitals.
//!
//! Written by tools/terminals.py, and not edited by hand.

ghost use Rattle.std.specs.Prelude.{codes};
ghost use Rattle.weedle_spell.specs.Leaves.{terminal};

use crate::error::PrintError;
use crate::layout::Layout;
use crate::print::Print;
use crate::texts::word;
use weedle_base::term::{
    ArrayBuffer, ArrayBufferView, BufferSource, ByteString, DOMString, DataView, Error,
    Float32Array, Float64Array, FrozenArray, Infinity, Int8Array, Int16Array, Int32Array, NaN,
    NegInfinity, Promise, USVString, Uint8Array, Uint8ClampedArray, Uint16Array, Uint32Array,
};

impl Print for ByteString {
    type Value = Self;

    ghost spelling = { λ v. terminal (codes "ByteString") v };

    fn print(_value: &ByteString, out: &mut String, layout: &mut Layout) -> Result<(), PrintError> {
        word(out, layout, "ByteString")
    }
}

impl Print for DOMString {
    type Value = Self;

    ghost spelling = { λ v. terminal (codes "DOMString") v };

    fn print(_value: &DOMString, out: &mut String, layout: &mut Layout) -> Result<(), PrintError> {
        word(out, layout, "DOMString")
    }
}

impl Print for FrozenArray {
    type Value = Self;

    ghost spelling = { λ v. terminal (codes "FrozenArray") v };

    fn print(
        _value: &FrozenArray,
        out: &mut String,
        layout: &mut Layout,
    ) -> Result<(), PrintError> {
        word(out, layout, "FrozenArray")
    }
}

impl Print for Infinity {
    type Value = Self;

    ghost spelling = { λ v. terminal (codes "Infinity") v };

    fn print(_value: &Infinity, out: &mut String, layout: &mut Layout) -> Result<(), PrintError> {
        word(out, layout, "Infinity")
    }
}

impl Print for NaN {
    type Value = Self;

    ghost spelling = { λ v. terminal (codes "NaN") v };

    fn print(_value: &NaN, out: &mut String, layout: &mut Layout) -> Result<(), PrintError> {
        word(out, layout, "NaN")
    }
}

impl Print for USVString {
    type Value = Self;

    ghost spelling = { λ v. terminal (codes "USVString") v };

    fn print(_value: &USVString, out: &mut String, layout: &mut Layout) -> Result<(), PrintError> {
        word(out, layout, "USVString")
    }
}

impl Print for ArrayBuffer {
    type Value = Self;

    ghost spelling = { λ v. terminal (codes "ArrayBuffer") v };

    fn print(
        _value: &ArrayBuffer,
        out: &mut String,
        layout: &mut Layout,
    ) -> Result<(), PrintError> {
        word(out, layout, "ArrayBuffer")
    }
}

impl Print for DataView {
    type Value = Self;

    ghost spelling = { λ v. terminal (codes "DataView") v };

    fn print(_value: &DataView, out: &mut String, layout: &mut Layout) -> Result<(), PrintError> {
        word(out, layout, "DataView")
    }
}

impl Print for Int8Array {
    type Value = Self;

    ghost spelling = { λ v. terminal (codes "Int8Array") v };

    fn print(_value: &Int8Array, out: &mut String, layout: &mut Layout) -> Result<(), PrintError> {
        word(out, layout, "Int8Array")
    }
}

impl Print for Int16Array {
    type Value = Self;

    ghost spelling = { λ v. terminal (codes "Int16Array") v };

    fn print(_value: &Int16Array, out: &mut String, layout: &mut Layout) -> Result<(), PrintError> {
        word(out, layout, "Int16Array")
    }
}

impl Print for Int32Array {
    type Value = Self;

    ghost spelling = { λ v. terminal (codes "Int32Array") v };

    fn print(_value: &Int32Array, out: &mut String, layout: &mut Layout) -> Result<(), PrintError> {
        word(out, layout, "Int32Array")
    }
}

impl Print for Uint8Array {
    type Value = Self;

    ghost spelling = { λ v. terminal (codes "Uint8Array") v };

    fn print(_value: &Uint8Array, out: &mut String, layout: &mut Layout) -> Result<(), PrintError> {
        word(out, layout, "Uint8Array")
    }
}

impl Print for Uint16Array {
    type Value = Self;

    ghost spelling = { λ v. terminal (codes "Uint16Array") v };

    fn print(
        _value: &Uint16Array,
        out: &mut String,
        layout: &mut Layout,
    ) -> Result<(), PrintError> {
        word(out, layout, "Uint16Array")
    }
}

impl Print for Uint32Array {
    type Value = Self;

    ghost spelling = { λ v. terminal (codes "Uint32Array") v };

    fn print(
        _value: &Uint32Array,
        out: &mut String,
        layout: &mut Layout,
    ) -> Result<(), PrintError> {
        word(out, layout, "Uint32Array")
    }
}

impl Print for Uint8ClampedArray {
    type Value = Self;

    ghost spelling = { λ v. terminal (codes "Uint8ClampedArray") v };

    fn print(
        _value: &Uint8ClampedArray,
        out: &mut String,
        layout: &mut Layout,
    ) -> Result<(), PrintError> {
        word(out, layout, "Uint8ClampedArray")
    }
}

impl Print for Float32Array {
    type Value = Self;

    ghost spelling = { λ v. terminal (codes "Float32Array") v };

    fn print(
        _value: &Float32Array,
        out: &mut String,
        layout: &mut Layout,
    ) -> Result<(), PrintError> {
        word(out, layout, "Float32Array")
    }
}

impl Print for Float64Array {
    type Value = Self;

    ghost spelling = { λ v. terminal (codes "Float64Array") v };

    fn print(
        _value: &Float64Array,
        out: &mut String,
        layout: &mut Layout,
    ) -> Result<(), PrintError> {
        word(out, layout, "Float64Array")
    }
}

impl Print for ArrayBufferView {
    type Value = Self;

    ghost spelling = { λ v. terminal (codes "ArrayBufferView") v };

    fn print(
        _value: &ArrayBufferView,
        out: &mut String,
        layout: &mut Layout,
    ) -> Result<(), PrintError> {
        word(out, layout, "ArrayBufferView")
    }
}

impl Print for BufferSource {
    type Value = Self;

    ghost spelling = { λ v. terminal (codes "BufferSource") v };

    fn print(
        _value: &BufferSource,
        out: &mut String,
        layout: &mut Layout,
    ) -> Result<(), PrintError> {
        word(out, layout, "BufferSource")
    }
}

impl Print for Promise {
    type Value = Self;

    ghost spelling = { λ v. terminal (codes "Promise") v };

    fn print(_value: &Promise, out: &mut String, layout: &mut Layout) -> Result<(), PrintError> {
        word(out, layout, "Promise")
    }
}

impl Print for Error {
    type Value = Self;

    ghost spelling = { λ v. terminal (codes "Error") v };

    fn print(_value: &Error, out: &mut String, layout: &mut Layout) -> Result<(), PrintError> {
        word(out, layout, "Error")
    }
}

impl Print for NegInfinity {
    type Value = Self;

    ghost spelling = { λ v. terminal (codes "-Infinity") v };

    fn print(
        _value: &NegInfinity,
        out: &mut String,
        layout: &mut Layout,
    ) -> Result<(), PrintError> {
        word(out, layout, "-Infinity")
    }
}
