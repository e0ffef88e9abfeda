//! Clones of types.
#![tactic(auto, using(crate::proofs::TreeLaws::clone_steps))]

ghost use Rattle.std.specs.Prelude.{◌≡◌, IfOk};
ghost use Rattle.weedle_types.specs.Trees.{
  attributed_non_any_type_tree,
  attributed_type_tree,
  non_any_type_tree,
  record_key_type_tree,
  return_type_tree,
  single_type_tree,
  type_tree,
};

use super::attributes::clone_attributes;
use super::generic_types::{
    clone_frozen_array_type, clone_promise_type, clone_record_type, clone_sequence_type,
};
use super::unions::clone_nullable_union_type;
use crate::types::{
    AttributedNonAnyType, AttributedType, NonAnyType, RecordKeyType, ReturnType, SingleType, Type,
};
use std::alloc::{AllocError, Global};
use weedle_parts::types::MayBeNull;

/// Clones a type, as `long`, `any` or `(long or DOMString)?`.
#[cycle(clones)]
pub(crate) fn clone_type<'a>(original: &Type<'a>, alloc: Global) -> Result<Type<'a>, AllocError>
    ensures { IfOk result (λ v. type_tree v ≡ type_tree original.now) }
{
    match original {
        Type::Single(member) => Ok(Type::Single(clone_single_type(member, alloc)?)),
        Type::Union(member) => Ok(Type::Union(clone_nullable_union_type(member, alloc)?)),
    }
}

/// Clones a type that is no union, as `any` or `long?`.
#[cycle(clones)]
pub(crate) fn clone_single_type<'a>(
    original: &SingleType<'a>,
    alloc: Global,
) -> Result<SingleType<'a>, AllocError>
    ensures { IfOk result (λ v. single_type_tree v ≡ single_type_tree original.now) }
{
    match original {
        SingleType::Any(member) => Ok(SingleType::Any(*member)),
        SingleType::NonAny(member) => Ok(SingleType::NonAny(clone_non_any_type(member, alloc)?)),
    }
}

/// Clones a type that is neither `any` nor a union, as `long?`.
#[cycle(clones)]
pub(crate) fn clone_non_any_type<'a>(
    original: &NonAnyType<'a>,
    alloc: Global,
) -> Result<NonAnyType<'a>, AllocError>
    ensures { IfOk result (λ v. non_any_type_tree v ≡ non_any_type_tree original.now) }
{
    match original {
        NonAnyType::Promise(member) => Ok(NonAnyType::Promise(clone_promise_type(member, alloc)?)),
        NonAnyType::Integer(member) => Ok(NonAnyType::Integer(*member)),
        NonAnyType::FloatingPoint(member) => Ok(NonAnyType::FloatingPoint(*member)),
        NonAnyType::Boolean(member) => Ok(NonAnyType::Boolean(*member)),
        NonAnyType::Byte(member) => Ok(NonAnyType::Byte(*member)),
        NonAnyType::Octet(member) => Ok(NonAnyType::Octet(*member)),
        NonAnyType::ByteString(member) => Ok(NonAnyType::ByteString(*member)),
        NonAnyType::DOMString(member) => Ok(NonAnyType::DOMString(*member)),
        NonAnyType::USVString(member) => Ok(NonAnyType::USVString(*member)),
        NonAnyType::Sequence(member) => Ok(NonAnyType::Sequence(MayBeNull {
            type_: clone_sequence_type(&member.type_, alloc)?,
            q_mark: member.q_mark,
        })),
        NonAnyType::Object(member) => Ok(NonAnyType::Object(*member)),
        NonAnyType::Symbol(member) => Ok(NonAnyType::Symbol(*member)),
        NonAnyType::Error(member) => Ok(NonAnyType::Error(*member)),
        NonAnyType::ArrayBuffer(member) => Ok(NonAnyType::ArrayBuffer(*member)),
        NonAnyType::DataView(member) => Ok(NonAnyType::DataView(*member)),
        NonAnyType::Int8Array(member) => Ok(NonAnyType::Int8Array(*member)),
        NonAnyType::Int16Array(member) => Ok(NonAnyType::Int16Array(*member)),
        NonAnyType::Int32Array(member) => Ok(NonAnyType::Int32Array(*member)),
        NonAnyType::Uint8Array(member) => Ok(NonAnyType::Uint8Array(*member)),
        NonAnyType::Uint16Array(member) => Ok(NonAnyType::Uint16Array(*member)),
        NonAnyType::Uint32Array(member) => Ok(NonAnyType::Uint32Array(*member)),
        NonAnyType::Uint8ClampedArray(member) => Ok(NonAnyType::Uint8ClampedArray(*member)),
        NonAnyType::Float32Array(member) => Ok(NonAnyType::Float32Array(*member)),
        NonAnyType::Float64Array(member) => Ok(NonAnyType::Float64Array(*member)),
        NonAnyType::ArrayBufferView(member) => Ok(NonAnyType::ArrayBufferView(*member)),
        NonAnyType::BufferSource(member) => Ok(NonAnyType::BufferSource(*member)),
        NonAnyType::FrozenArrayType(member) => Ok(NonAnyType::FrozenArrayType(MayBeNull {
            type_: clone_frozen_array_type(&member.type_, alloc)?,
            q_mark: member.q_mark,
        })),
        NonAnyType::RecordType(member) => Ok(NonAnyType::RecordType(MayBeNull {
            type_: clone_record_type(&member.type_, alloc)?,
            q_mark: member.q_mark,
        })),
        NonAnyType::Identifier(member) => Ok(NonAnyType::Identifier(*member)),
    }
}

/// Clones the type of a record's keys.
#[cycle(clones)]
pub(crate) fn clone_record_key_type<'a>(
    original: &RecordKeyType<'a>,
    alloc: Global,
) -> Result<RecordKeyType<'a>, AllocError>
    ensures { IfOk result (λ v. record_key_type_tree v ≡ record_key_type_tree original.now) }
{
    match original {
        RecordKeyType::Byte(member) => Ok(RecordKeyType::Byte(*member)),
        RecordKeyType::DOM(member) => Ok(RecordKeyType::DOM(*member)),
        RecordKeyType::USV(member) => Ok(RecordKeyType::USV(*member)),
        RecordKeyType::NonAny(member) => Ok(RecordKeyType::NonAny(clone_non_any_type(
            member, alloc,
        )?)),
    }
}

/// Clones the type of a result.
#[cycle(clones)]
pub(crate) fn clone_return_type<'a>(
    original: &ReturnType<'a>,
    alloc: Global,
) -> Result<ReturnType<'a>, AllocError>
    ensures { IfOk result (λ v. return_type_tree v ≡ return_type_tree original.now) }
{
    match original {
        ReturnType::Undefined(member) => Ok(ReturnType::Undefined(*member)),
        ReturnType::Type_(member) => Ok(ReturnType::Type_(clone_type(member, alloc)?)),
    }
}

/// Clones a type with the extended attributes before it, as `[Clamp] octet`.
#[cycle(clones)]
pub(crate) fn clone_attributed_type<'a>(
    original: &AttributedType<'a>,
    alloc: Global,
) -> Result<AttributedType<'a>, AllocError>
    ensures { IfOk result (λ v. attributed_type_tree v ≡ attributed_type_tree original.now) }
{
    Ok(AttributedType {
        attributes: clone_attributes(&original.attributes, alloc)?,
        type_: clone_type(&original.type_, alloc)?,
    })
}

/// Clones a type that is neither `any` nor a union, with the extended attributes before it, as
/// `[Clamp] octet`.
#[cycle(clones)]
pub(crate) fn clone_attributed_non_any_type<'a>(
    original: &AttributedNonAnyType<'a>,
    alloc: Global,
) -> Result<AttributedNonAnyType<'a>, AllocError>
    ensures { IfOk result
        (λ v. attributed_non_any_type_tree v ≡ attributed_non_any_type_tree original.now) }
{
    Ok(AttributedNonAnyType {
        attributes: clone_attributes(&original.attributes, alloc)?,
        type_: clone_non_any_type(&original.type_, alloc)?,
    })
}
