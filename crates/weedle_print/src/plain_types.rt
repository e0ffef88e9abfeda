//! The types that are one word, or words, and names.

ghost use Rattle.std.specs.Prelude.{OnOk, string_bytes};
ghost use Rattle.weedle_print.specs.Adds.{Adds};
ghost use Rattle.weedle_spell.specs.RecursiveTypes.{non_any_type_spelling};

use crate::error::PrintError;
use crate::layout::Layout;
use crate::print::Print;
use weedle_base::term::{
    ArrayBuffer, ArrayBufferView, Boolean, BufferSource, Byte, ByteString, DOMString, DataView,
    Error, Float32Array, Float64Array, Int8Array, Int16Array, Int32Array, Object, Octet, Symbol,
    USVString, Uint8Array, Uint8ClampedArray, Uint16Array, Uint32Array,
};
use weedle_parts::common::Identifier;
use weedle_parts::types::{FloatingPointType, IntegerType, MayBeNull};
use weedle_types::types::NonAnyType;

/// Writes a type that holds no other, as `long?`.
pub(crate) fn print_plain_type(
    type_: &NonAnyType<'_>,
    out: &mut String,
    layout: &mut Layout,
) -> Result<(), PrintError>
    ensures { OnOk result
        (Adds (non_any_type_spelling type_.now) (string_bytes out.old) (string_bytes out.new)) }
{
    match type_ {
        NonAnyType::Integer(type_) => MayBeNull::<IntegerType>::print(type_, out, layout),
        NonAnyType::FloatingPoint(type_) => MayBeNull::<FloatingPointType>::print(
            type_, out, layout,
        ),
        NonAnyType::Boolean(type_) => MayBeNull::<Boolean>::print(type_, out, layout),
        NonAnyType::Byte(type_) => MayBeNull::<Byte>::print(type_, out, layout),
        NonAnyType::Octet(type_) => MayBeNull::<Octet>::print(type_, out, layout),
        NonAnyType::ByteString(type_) => MayBeNull::<ByteString>::print(type_, out, layout),
        NonAnyType::DOMString(type_) => MayBeNull::<DOMString>::print(type_, out, layout),
        NonAnyType::USVString(type_) => MayBeNull::<USVString>::print(type_, out, layout),
        NonAnyType::Object(type_) => MayBeNull::<Object>::print(type_, out, layout),
        NonAnyType::Symbol(type_) => MayBeNull::<Symbol>::print(type_, out, layout),
        NonAnyType::Error(type_) => MayBeNull::<Error>::print(type_, out, layout),
        NonAnyType::Identifier(type_) => MayBeNull::<Identifier>::print(type_, out, layout),
        _ => print_buffer_type(type_, out, layout),
    }
}

/// Writes a type of buffers, as `Uint8Array`. The caller has written the types that hold others.
fn print_buffer_type(
    type_: &NonAnyType<'_>,
    out: &mut String,
    layout: &mut Layout,
) -> Result<(), PrintError>
    ensures { OnOk result
        (Adds (non_any_type_spelling type_.now) (string_bytes out.old) (string_bytes out.new)) }
{
    match type_ {
        NonAnyType::ArrayBuffer(type_) => MayBeNull::<ArrayBuffer>::print(type_, out, layout),
        NonAnyType::DataView(type_) => MayBeNull::<DataView>::print(type_, out, layout),
        NonAnyType::Int8Array(type_) => MayBeNull::<Int8Array>::print(type_, out, layout),
        NonAnyType::Int16Array(type_) => MayBeNull::<Int16Array>::print(type_, out, layout),
        NonAnyType::Int32Array(type_) => MayBeNull::<Int32Array>::print(type_, out, layout),
        NonAnyType::Uint8Array(type_) => MayBeNull::<Uint8Array>::print(type_, out, layout),
        NonAnyType::Uint16Array(type_) => MayBeNull::<Uint16Array>::print(type_, out, layout),
        NonAnyType::Uint32Array(type_) => MayBeNull::<Uint32Array>::print(type_, out, layout),
        NonAnyType::Uint8ClampedArray(type_) => MayBeNull::<Uint8ClampedArray>::print(
            type_, out, layout,
        ),
        NonAnyType::Float32Array(type_) => MayBeNull::<Float32Array>::print(type_, out, layout),
        NonAnyType::Float64Array(type_) => MayBeNull::<Float64Array>::print(type_, out, layout),
        NonAnyType::ArrayBufferView(type_) => MayBeNull::<ArrayBufferView>::print(
            type_, out, layout,
        ),
        NonAnyType::BufferSource(type_) => MayBeNull::<BufferSource>::print(type_, out, layout),
        _ => Err(PrintError::NoText),
    }
}
