//! What a value of `NonAnyType` is made from.
//!
//! Written by tools/impls.py, and not edited by hand.

ghost use Rattle.std.specs.Prelude.{◌≡◌};

use super::super::{FrozenArrayType, NonAnyType, PromiseType, RecordType, SequenceType};
use weedle_base::term::{
    ArrayBuffer, ArrayBufferView, Boolean, BufferSource, Byte, ByteString, DOMString, DataView,
    Error, Float32Array, Float64Array, Int8Array, Int16Array, Int32Array, Object, Octet, Symbol,
    USVString, Uint8Array, Uint8ClampedArray, Uint16Array, Uint32Array,
};
use weedle_parts::common::Identifier;
use weedle_parts::types::{FloatingPointType, IntegerType, MayBeNull};

impl<'a> From<PromiseType<'a>> for NonAnyType<'a> {
    ghost use Rattle.weedle_types.specs.declared.types.NonAnyType.TheVariants.{Promise};

    ghost from_gives = { λ v e. e ≡ Promise v };

    fn from(value: PromiseType<'a>) -> Self {
        NonAnyType::Promise(value)
    }
}

impl From<MayBeNull<IntegerType>> for NonAnyType<'_> {
    ghost use Rattle.weedle_types.specs.declared.types.NonAnyType.TheVariants.{Integer};

    ghost from_gives = { λ v e. e ≡ Integer v };

    fn from(value: MayBeNull<IntegerType>) -> Self {
        NonAnyType::Integer(value)
    }
}

impl From<MayBeNull<FloatingPointType>> for NonAnyType<'_> {
    ghost use Rattle.weedle_types.specs.declared.types.NonAnyType.TheVariants.{FloatingPoint};

    ghost from_gives = { λ v e. e ≡ FloatingPoint v };

    fn from(value: MayBeNull<FloatingPointType>) -> Self {
        NonAnyType::FloatingPoint(value)
    }
}

impl From<MayBeNull<Boolean>> for NonAnyType<'_> {
    ghost use Rattle.weedle_types.specs.declared.types.NonAnyType.TheVariants.{Boolean};

    ghost from_gives = { λ v e. e ≡ Boolean v };

    fn from(value: MayBeNull<Boolean>) -> Self {
        NonAnyType::Boolean(value)
    }
}

impl From<MayBeNull<Byte>> for NonAnyType<'_> {
    ghost use Rattle.weedle_types.specs.declared.types.NonAnyType.TheVariants.{Byte};

    ghost from_gives = { λ v e. e ≡ Byte v };

    fn from(value: MayBeNull<Byte>) -> Self {
        NonAnyType::Byte(value)
    }
}

impl From<MayBeNull<Octet>> for NonAnyType<'_> {
    ghost use Rattle.weedle_types.specs.declared.types.NonAnyType.TheVariants.{Octet};

    ghost from_gives = { λ v e. e ≡ Octet v };

    fn from(value: MayBeNull<Octet>) -> Self {
        NonAnyType::Octet(value)
    }
}

impl From<MayBeNull<ByteString>> for NonAnyType<'_> {
    ghost use Rattle.weedle_types.specs.declared.types.NonAnyType.TheVariants.{ByteString};

    ghost from_gives = { λ v e. e ≡ ByteString v };

    fn from(value: MayBeNull<ByteString>) -> Self {
        NonAnyType::ByteString(value)
    }
}

impl From<MayBeNull<DOMString>> for NonAnyType<'_> {
    ghost use Rattle.weedle_types.specs.declared.types.NonAnyType.TheVariants.{DOMString};

    ghost from_gives = { λ v e. e ≡ DOMString v };

    fn from(value: MayBeNull<DOMString>) -> Self {
        NonAnyType::DOMString(value)
    }
}

impl From<MayBeNull<USVString>> for NonAnyType<'_> {
    ghost use Rattle.weedle_types.specs.declared.types.NonAnyType.TheVariants.{USVString};

    ghost from_gives = { λ v e. e ≡ USVString v };

    fn from(value: MayBeNull<USVString>) -> Self {
        NonAnyType::USVString(value)
    }
}

impl<'a> From<MayBeNull<SequenceType<'a>>> for NonAnyType<'a> {
    ghost use Rattle.weedle_types.specs.declared.types.NonAnyType.TheVariants.{Sequence};

    ghost from_gives = { λ v e. e ≡ Sequence v };

    fn from(value: MayBeNull<SequenceType<'a>>) -> Self {
        NonAnyType::Sequence(value)
    }
}

impl From<MayBeNull<Object>> for NonAnyType<'_> {
    ghost use Rattle.weedle_types.specs.declared.types.NonAnyType.TheVariants.{Object};

    ghost from_gives = { λ v e. e ≡ Object v };

    fn from(value: MayBeNull<Object>) -> Self {
        NonAnyType::Object(value)
    }
}

impl From<MayBeNull<Symbol>> for NonAnyType<'_> {
    ghost use Rattle.weedle_types.specs.declared.types.NonAnyType.TheVariants.{Symbol};

    ghost from_gives = { λ v e. e ≡ Symbol v };

    fn from(value: MayBeNull<Symbol>) -> Self {
        NonAnyType::Symbol(value)
    }
}

impl From<MayBeNull<Error>> for NonAnyType<'_> {
    ghost use Rattle.weedle_types.specs.declared.types.NonAnyType.TheVariants.{Error};

    ghost from_gives = { λ v e. e ≡ Error v };

    fn from(value: MayBeNull<Error>) -> Self {
        NonAnyType::Error(value)
    }
}

impl From<MayBeNull<ArrayBuffer>> for NonAnyType<'_> {
    ghost use Rattle.weedle_types.specs.declared.types.NonAnyType.TheVariants.{ArrayBuffer};

    ghost from_gives = { λ v e. e ≡ ArrayBuffer v };

    fn from(value: MayBeNull<ArrayBuffer>) -> Self {
        NonAnyType::ArrayBuffer(value)
    }
}

impl From<MayBeNull<DataView>> for NonAnyType<'_> {
    ghost use Rattle.weedle_types.specs.declared.types.NonAnyType.TheVariants.{DataView};

    ghost from_gives = { λ v e. e ≡ DataView v };

    fn from(value: MayBeNull<DataView>) -> Self {
        NonAnyType::DataView(value)
    }
}

impl From<MayBeNull<Int8Array>> for NonAnyType<'_> {
    ghost use Rattle.weedle_types.specs.declared.types.NonAnyType.TheVariants.{Int8Array};

    ghost from_gives = { λ v e. e ≡ Int8Array v };

    fn from(value: MayBeNull<Int8Array>) -> Self {
        NonAnyType::Int8Array(value)
    }
}

impl From<MayBeNull<Int16Array>> for NonAnyType<'_> {
    ghost use Rattle.weedle_types.specs.declared.types.NonAnyType.TheVariants.{Int16Array};

    ghost from_gives = { λ v e. e ≡ Int16Array v };

    fn from(value: MayBeNull<Int16Array>) -> Self {
        NonAnyType::Int16Array(value)
    }
}

impl From<MayBeNull<Int32Array>> for NonAnyType<'_> {
    ghost use Rattle.weedle_types.specs.declared.types.NonAnyType.TheVariants.{Int32Array};

    ghost from_gives = { λ v e. e ≡ Int32Array v };

    fn from(value: MayBeNull<Int32Array>) -> Self {
        NonAnyType::Int32Array(value)
    }
}

impl From<MayBeNull<Uint8Array>> for NonAnyType<'_> {
    ghost use Rattle.weedle_types.specs.declared.types.NonAnyType.TheVariants.{Uint8Array};

    ghost from_gives = { λ v e. e ≡ Uint8Array v };

    fn from(value: MayBeNull<Uint8Array>) -> Self {
        NonAnyType::Uint8Array(value)
    }
}

impl From<MayBeNull<Uint16Array>> for NonAnyType<'_> {
    ghost use Rattle.weedle_types.specs.declared.types.NonAnyType.TheVariants.{Uint16Array};

    ghost from_gives = { λ v e. e ≡ Uint16Array v };

    fn from(value: MayBeNull<Uint16Array>) -> Self {
        NonAnyType::Uint16Array(value)
    }
}

impl From<MayBeNull<Uint32Array>> for NonAnyType<'_> {
    ghost use Rattle.weedle_types.specs.declared.types.NonAnyType.TheVariants.{Uint32Array};

    ghost from_gives = { λ v e. e ≡ Uint32Array v };

    fn from(value: MayBeNull<Uint32Array>) -> Self {
        NonAnyType::Uint32Array(value)
    }
}

impl From<MayBeNull<Uint8ClampedArray>> for NonAnyType<'_> {
    ghost use Rattle.weedle_types.specs.declared.types.NonAnyType.TheVariants.{Uint8ClampedArray};

    ghost from_gives = { λ v e. e ≡ Uint8ClampedArray v };

    fn from(value: MayBeNull<Uint8ClampedArray>) -> Self {
        NonAnyType::Uint8ClampedArray(value)
    }
}

impl From<MayBeNull<Float32Array>> for NonAnyType<'_> {
    ghost use Rattle.weedle_types.specs.declared.types.NonAnyType.TheVariants.{Float32Array};

    ghost from_gives = { λ v e. e ≡ Float32Array v };

    fn from(value: MayBeNull<Float32Array>) -> Self {
        NonAnyType::Float32Array(value)
    }
}

impl From<MayBeNull<Float64Array>> for NonAnyType<'_> {
    ghost use Rattle.weedle_types.specs.declared.types.NonAnyType.TheVariants.{Float64Array};

    ghost from_gives = { λ v e. e ≡ Float64Array v };

    fn from(value: MayBeNull<Float64Array>) -> Self {
        NonAnyType::Float64Array(value)
    }
}

impl From<MayBeNull<ArrayBufferView>> for NonAnyType<'_> {
    ghost use Rattle.weedle_types.specs.declared.types.NonAnyType.TheVariants.{ArrayBufferView};

    ghost from_gives = { λ v e. e ≡ ArrayBufferView v };

    fn from(value: MayBeNull<ArrayBufferView>) -> Self {
        NonAnyType::ArrayBufferView(value)
    }
}

impl From<MayBeNull<BufferSource>> for NonAnyType<'_> {
    ghost use Rattle.weedle_types.specs.declared.types.NonAnyType.TheVariants.{BufferSource};

    ghost from_gives = { λ v e. e ≡ BufferSource v };

    fn from(value: MayBeNull<BufferSource>) -> Self {
        NonAnyType::BufferSource(value)
    }
}

impl<'a> From<MayBeNull<FrozenArrayType<'a>>> for NonAnyType<'a> {
    ghost use Rattle.weedle_types.specs.declared.types.NonAnyType.TheVariants.{FrozenArrayType};

    ghost from_gives = { λ v e. e ≡ FrozenArrayType v };

    fn from(value: MayBeNull<FrozenArrayType<'a>>) -> Self {
        NonAnyType::FrozenArrayType(value)
    }
}

impl<'a> From<MayBeNull<RecordType<'a>>> for NonAnyType<'a> {
    ghost use Rattle.weedle_types.specs.declared.types.NonAnyType.TheVariants.{RecordType};

    ghost from_gives = { λ v e. e ≡ RecordType v };

    fn from(value: MayBeNull<RecordType<'a>>) -> Self {
        NonAnyType::RecordType(value)
    }
}

impl<'a> From<MayBeNull<Identifier<'a>>> for NonAnyType<'a> {
    ghost use Rattle.weedle_types.specs.declared.types.NonAnyType.TheVariants.{Identifier};

    ghost from_gives = { λ v e. e ≡ Identifier v };

    fn from(value: MayBeNull<Identifier<'a>>) -> Self {
        NonAnyType::Identifier(value)
    }
}
