//! Types, and what holds one.
#![tactic(auto, using(crate::proofs::AddsFacts::adds_then, crate::proofs::VariantFacts::variant_steps, weedle_types::proofs::TreeLaws::clone_steps))]

ghost use Rattle.std.specs.Prelude.{OnOk, string_bytes};
ghost use Rattle.weedle_print.specs.Adds.{Adds};
ghost use Rattle.weedle_spell.specs.RecursiveTypes.{non_any_type_spelling, type_spelling};
ghost use Rattle.weedle_spell.specs.written.Types.{
  attributed_non_any_type_spelling,
  attributed_type_spelling,
  record_key_type_spelling,
  return_type_spelling,
  single_type_spelling,
};

use super::attributes::print_attributes;
use super::generic_types::{
    print_nullable_frozen_array_type, print_nullable_record_type, print_nullable_sequence_type,
    print_promise_type,
};
use super::unions::print_nullable_union_type;
use crate::error::PrintError;
use crate::layout::Layout;
use crate::plain_types::print_plain_type;
use crate::print::Print;
use weedle_base::term::{Any, ByteString, DOMString, USVString, Undefined};
use weedle_types::types::{
    AttributedNonAnyType, AttributedType, NonAnyType, RecordKeyType, ReturnType, SingleType, Type,
};

/// Writes a type, as `long` or `(long or DOMString)?`.
#[cycle(prints)]
pub(crate) fn print_type(
    type_: &Type<'_>,
    out: &mut String,
    layout: &mut Layout,
) -> Result<(), PrintError>
    ensures { OnOk result
        (Adds (type_spelling type_.now) (string_bytes out.old) (string_bytes out.new)) }
{
    match type_ {
        Type::Single(type_) => print_single_type(type_, out, layout),
        Type::Union(type_) => print_nullable_union_type(type_, out, layout),
    }
}

/// Writes a type that is no union, as `any`.
#[cycle(prints)]
pub(crate) fn print_single_type(
    type_: &SingleType<'_>,
    out: &mut String,
    layout: &mut Layout,
) -> Result<(), PrintError>
    ensures { OnOk result
        (Adds (single_type_spelling type_.now) (string_bytes out.old) (string_bytes out.new)) }
{
    match type_ {
        SingleType::Any(type_) => Any::print(type_, out, layout),
        SingleType::NonAny(type_) => print_non_any_type(type_, out, layout),
    }
}

/// Writes a type that is neither `any` nor a union, as `sequence<long>?`.
#[cycle(prints)]
pub(crate) fn print_non_any_type(
    type_: &NonAnyType<'_>,
    out: &mut String,
    layout: &mut Layout,
) -> Result<(), PrintError>
    ensures { OnOk result
        (Adds (non_any_type_spelling type_.now) (string_bytes out.old) (string_bytes out.new)) }
{
    match type_ {
        NonAnyType::Promise(type_) => print_promise_type(type_, out, layout),
        NonAnyType::Sequence(type_) => print_nullable_sequence_type(type_, out, layout),
        NonAnyType::FrozenArrayType(type_) => print_nullable_frozen_array_type(type_, out, layout),
        NonAnyType::RecordType(type_) => print_nullable_record_type(type_, out, layout),
        _ => print_plain_type(type_, out, layout),
    }
}

/// Writes the type of a record's keys, as `DOMString`.
#[cycle(prints)]
pub(crate) fn print_record_key_type(
    type_: &RecordKeyType<'_>,
    out: &mut String,
    layout: &mut Layout,
) -> Result<(), PrintError>
    ensures { OnOk result
        (Adds (record_key_type_spelling type_.now) (string_bytes out.old) (string_bytes out.new)) }
{
    match type_ {
        RecordKeyType::Byte(type_) => ByteString::print(type_, out, layout),
        RecordKeyType::DOM(type_) => DOMString::print(type_, out, layout),
        RecordKeyType::USV(type_) => USVString::print(type_, out, layout),
        RecordKeyType::NonAny(type_) => print_non_any_type(type_, out, layout),
    }
}

/// Writes the type of a result, as `undefined`.
#[cycle(prints)]
pub(crate) fn print_return_type(
    type_: &ReturnType<'_>,
    out: &mut String,
    layout: &mut Layout,
) -> Result<(), PrintError>
    ensures { OnOk result
        (Adds (return_type_spelling type_.now) (string_bytes out.old) (string_bytes out.new)) }
{
    match type_ {
        ReturnType::Undefined(type_) => Undefined::print(type_, out, layout),
        ReturnType::Type_(type_) => print_type(type_, out, layout),
    }
}

/// Writes a type and the extended attributes in front of it, as `[Clamp] long`.
#[cycle(prints)]
pub(crate) fn print_attributed_type(
    type_: &AttributedType<'_>,
    out: &mut String,
    layout: &mut Layout,
) -> Result<(), PrintError>
    ensures { OnOk result
        (Adds (attributed_type_spelling type_.now) (string_bytes out.old) (string_bytes out.new)) }
{
    print_attributes(&type_.attributes, out, layout)?;
    print_type(&type_.type_, out, layout)
}

/// Writes a type that is neither `any` nor a union, and the extended attributes in front of it, as
/// `[Clamp] octet`.
#[cycle(prints)]
pub(crate) fn print_attributed_non_any_type(
    type_: &AttributedNonAnyType<'_>,
    out: &mut String,
    layout: &mut Layout,
) -> Result<(), PrintError>
    ensures { OnOk result
        (Adds (attributed_non_any_type_spelling type_.now) (string_bytes out.old)
        (string_bytes out.new)) }
{
    print_attributes(&type_.attributes, out, layout)?;
    print_non_any_type(&type_.type_, out, layout)
}
