//! Keywords with capitals.
//!
//! Written by tools/terminals.py, and not edited by hand.

ghost use Rattle.std.specs.Prelude.{Some, codes};

use crate::term::{
    ArrayBuffer, ArrayBufferView, BufferSource, ByteString, DOMString, DataView, Error,
    Float32Array, Float64Array, FrozenArray, Infinity, Int8Array, Int16Array, Int32Array, NaN,
    NegInfinity, Promise, USVString, Uint8Array, Uint8ClampedArray, Uint16Array, Uint32Array,
};
use std::fmt::{self, Display, Formatter, Write};

impl Display for ByteString {
    ghost output = { λ v. Some (codes "ByteString") };

    fn fmt<W: Write>(&self, f: &mut Formatter<W>) -> fmt::Result {
        f.write_str("ByteString")
    }
}

impl Display for DOMString {
    ghost output = { λ v. Some (codes "DOMString") };

    fn fmt<W: Write>(&self, f: &mut Formatter<W>) -> fmt::Result {
        f.write_str("DOMString")
    }
}

impl Display for FrozenArray {
    ghost output = { λ v. Some (codes "FrozenArray") };

    fn fmt<W: Write>(&self, f: &mut Formatter<W>) -> fmt::Result {
        f.write_str("FrozenArray")
    }
}

impl Display for Infinity {
    ghost output = { λ v. Some (codes "Infinity") };

    fn fmt<W: Write>(&self, f: &mut Formatter<W>) -> fmt::Result {
        f.write_str("Infinity")
    }
}

impl Display for NaN {
    ghost output = { λ v. Some (codes "NaN") };

    fn fmt<W: Write>(&self, f: &mut Formatter<W>) -> fmt::Result {
        f.write_str("NaN")
    }
}

impl Display for USVString {
    ghost output = { λ v. Some (codes "USVString") };

    fn fmt<W: Write>(&self, f: &mut Formatter<W>) -> fmt::Result {
        f.write_str("USVString")
    }
}

impl Display for ArrayBuffer {
    ghost output = { λ v. Some (codes "ArrayBuffer") };

    fn fmt<W: Write>(&self, f: &mut Formatter<W>) -> fmt::Result {
        f.write_str("ArrayBuffer")
    }
}

impl Display for DataView {
    ghost output = { λ v. Some (codes "DataView") };

    fn fmt<W: Write>(&self, f: &mut Formatter<W>) -> fmt::Result {
        f.write_str("DataView")
    }
}

impl Display for Int8Array {
    ghost output = { λ v. Some (codes "Int8Array") };

    fn fmt<W: Write>(&self, f: &mut Formatter<W>) -> fmt::Result {
        f.write_str("Int8Array")
    }
}

impl Display for Int16Array {
    ghost output = { λ v. Some (codes "Int16Array") };

    fn fmt<W: Write>(&self, f: &mut Formatter<W>) -> fmt::Result {
        f.write_str("Int16Array")
    }
}

impl Display for Int32Array {
    ghost output = { λ v. Some (codes "Int32Array") };

    fn fmt<W: Write>(&self, f: &mut Formatter<W>) -> fmt::Result {
        f.write_str("Int32Array")
    }
}

impl Display for Uint8Array {
    ghost output = { λ v. Some (codes "Uint8Array") };

    fn fmt<W: Write>(&self, f: &mut Formatter<W>) -> fmt::Result {
        f.write_str("Uint8Array")
    }
}

impl Display for Uint16Array {
    ghost output = { λ v. Some (codes "Uint16Array") };

    fn fmt<W: Write>(&self, f: &mut Formatter<W>) -> fmt::Result {
        f.write_str("Uint16Array")
    }
}

impl Display for Uint32Array {
    ghost output = { λ v. Some (codes "Uint32Array") };

    fn fmt<W: Write>(&self, f: &mut Formatter<W>) -> fmt::Result {
        f.write_str("Uint32Array")
    }
}

impl Display for Uint8ClampedArray {
    ghost output = { λ v. Some (codes "Uint8ClampedArray") };

    fn fmt<W: Write>(&self, f: &mut Formatter<W>) -> fmt::Result {
        f.write_str("Uint8ClampedArray")
    }
}

impl Display for Float32Array {
    ghost output = { λ v. Some (codes "Float32Array") };

    fn fmt<W: Write>(&self, f: &mut Formatter<W>) -> fmt::Result {
        f.write_str("Float32Array")
    }
}

impl Display for Float64Array {
    ghost output = { λ v. Some (codes "Float64Array") };

    fn fmt<W: Write>(&self, f: &mut Formatter<W>) -> fmt::Result {
        f.write_str("Float64Array")
    }
}

impl Display for ArrayBufferView {
    ghost output = { λ v. Some (codes "ArrayBufferView") };

    fn fmt<W: Write>(&self, f: &mut Formatter<W>) -> fmt::Result {
        f.write_str("ArrayBufferView")
    }
}

impl Display for BufferSource {
    ghost output = { λ v. Some (codes "BufferSource") };

    fn fmt<W: Write>(&self, f: &mut Formatter<W>) -> fmt::Result {
        f.write_str("BufferSource")
    }
}

impl Display for Promise {
    ghost output = { λ v. Some (codes "Promise") };

    fn fmt<W: Write>(&self, f: &mut Formatter<W>) -> fmt::Result {
        f.write_str("Promise")
    }
}

impl Display for Error {
    ghost output = { λ v. Some (codes "Error") };

    fn fmt<W: Write>(&self, f: &mut Formatter<W>) -> fmt::Result {
        f.write_str("Error")
    }
}

impl Display for NegInfinity {
    ghost output = { λ v. Some (codes "-Infinity") };

    fn fmt<W: Write>(&self, f: &mut Formatter<W>) -> fmt::Result {
        f.write_str("-Infinity")
    }
}
