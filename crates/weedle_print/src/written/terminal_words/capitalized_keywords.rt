//! Keywords with capitals.
//!
//! Written by tools/terminals.py, and not edited by hand.

ghost use Rattle.std.specs.Prelude.{codes};

use crate::words::Words;
use weedle_base::term::{
    ArrayBuffer, ArrayBufferView, BufferSource, ByteString, DOMString, DataView, Error,
    Float32Array, Float64Array, FrozenArray, Infinity, Int8Array, Int16Array, Int32Array, NaN,
    NegInfinity, Promise, USVString, Uint8Array, Uint8ClampedArray, Uint16Array, Uint32Array,
};

impl Words for ByteString {
    ghost words = { λ v. codes "ByteString" };

    fn as_str(&self) -> &'static str {
        "ByteString"
    }
}

impl Words for DOMString {
    ghost words = { λ v. codes "DOMString" };

    fn as_str(&self) -> &'static str {
        "DOMString"
    }
}

impl Words for FrozenArray {
    ghost words = { λ v. codes "FrozenArray" };

    fn as_str(&self) -> &'static str {
        "FrozenArray"
    }
}

impl Words for Infinity {
    ghost words = { λ v. codes "Infinity" };

    fn as_str(&self) -> &'static str {
        "Infinity"
    }
}

impl Words for NaN {
    ghost words = { λ v. codes "NaN" };

    fn as_str(&self) -> &'static str {
        "NaN"
    }
}

impl Words for USVString {
    ghost words = { λ v. codes "USVString" };

    fn as_str(&self) -> &'static str {
        "USVString"
    }
}

impl Words for ArrayBuffer {
    ghost words = { λ v. codes "ArrayBuffer" };

    fn as_str(&self) -> &'static str {
        "ArrayBuffer"
    }
}

impl Words for DataView {
    ghost words = { λ v. codes "DataView" };

    fn as_str(&self) -> &'static str {
        "DataView"
    }
}

impl Words for Int8Array {
    ghost words = { λ v. codes "Int8Array" };

    fn as_str(&self) -> &'static str {
        "Int8Array"
    }
}

impl Words for Int16Array {
    ghost words = { λ v. codes "Int16Array" };

    fn as_str(&self) -> &'static str {
        "Int16Array"
    }
}

impl Words for Int32Array {
    ghost words = { λ v. codes "Int32Array" };

    fn as_str(&self) -> &'static str {
        "Int32Array"
    }
}

impl Words for Uint8Array {
    ghost words = { λ v. codes "Uint8Array" };

    fn as_str(&self) -> &'static str {
        "Uint8Array"
    }
}

impl Words for Uint16Array {
    ghost words = { λ v. codes "Uint16Array" };

    fn as_str(&self) -> &'static str {
        "Uint16Array"
    }
}

impl Words for Uint32Array {
    ghost words = { λ v. codes "Uint32Array" };

    fn as_str(&self) -> &'static str {
        "Uint32Array"
    }
}

impl Words for Uint8ClampedArray {
    ghost words = { λ v. codes "Uint8ClampedArray" };

    fn as_str(&self) -> &'static str {
        "Uint8ClampedArray"
    }
}

impl Words for Float32Array {
    ghost words = { λ v. codes "Float32Array" };

    fn as_str(&self) -> &'static str {
        "Float32Array"
    }
}

impl Words for Float64Array {
    ghost words = { λ v. codes "Float64Array" };

    fn as_str(&self) -> &'static str {
        "Float64Array"
    }
}

impl Words for ArrayBufferView {
    ghost words = { λ v. codes "ArrayBufferView" };

    fn as_str(&self) -> &'static str {
        "ArrayBufferView"
    }
}

impl Words for BufferSource {
    ghost words = { λ v. codes "BufferSource" };

    fn as_str(&self) -> &'static str {
        "BufferSource"
    }
}

impl Words for Promise {
    ghost words = { λ v. codes "Promise" };

    fn as_str(&self) -> &'static str {
        "Promise"
    }
}

impl Words for Error {
    ghost words = { λ v. codes "Error" };

    fn as_str(&self) -> &'static str {
        "Error"
    }
}

impl Words for NegInfinity {
    ghost words = { λ v. codes "-Infinity" };

    fn as_str(&self) -> &'static str {
        "-Infinity"
    }
}
