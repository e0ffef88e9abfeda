//! The names in types.
#![tactic(auto, using(crate::proofs::NameFacts::name_steps, weedle_types::proofs::TreeLaws::clone_steps))]

ghost use Rattle.std.specs.Prelude.{◌≡◌, ◌++◌, OnOk};
ghost use Rattle.weedle_view.specs.TypeNames.{
  names_in_attributed_type,
  names_in_key_type,
  names_in_non_any_type,
  names_in_record_types,
  names_in_return_type,
  names_in_type,
};

use super::attributes::push_attributes;
use super::unions::push_union_members;
use std::alloc::AllocError;
use weedle_parts::common::Identifier;
use weedle_types::types::{
    AttributedType, NonAnyType, RecordKeyType, RecordTypes, ReturnType, SingleType, Type,
};

/// Adds the names in a type.
#[cycle(names)]
pub(crate) fn push_type<'a>(
    type_: &Type<'a>,
    names: &mut Vec<Identifier<'a>>,
) -> Result<(), AllocError>
    ensures { OnOk result (names.new.items ≡ names.old.items ++ names_in_type type_.now) }
{
    match type_ {
        Type::Single(SingleType::Any(_)) => Ok(()),
        Type::Single(SingleType::NonAny(type_)) => push_non_any_type(type_, names),
        Type::Union(union) => push_union_members(&union.type_.body.list, names),
    }
}

/// Adds the names in a type that is neither `any` nor a union.
#[cycle(names)]
pub(crate) fn push_non_any_type<'a>(
    type_: &NonAnyType<'a>,
    names: &mut Vec<Identifier<'a>>,
) -> Result<(), AllocError>
    ensures { OnOk result (names.new.items ≡ names.old.items ++ names_in_non_any_type type_.now) }
{
    match type_ {
        NonAnyType::Promise(promise) => push_return_type(&promise.generics.body, names),
        NonAnyType::Sequence(sequence) => push_type(&sequence.type_.generics.body, names),
        NonAnyType::FrozenArrayType(array) => push_type(&array.type_.generics.body, names),
        NonAnyType::RecordType(record) => push_record_types(&record.type_.generics.body, names),
        NonAnyType::Identifier(identifier) => Ok(names.push(identifier.type_)?),
        _ => Ok(()),
    }
}

/// Adds the names in the types of a record.
#[cycle(names)]
pub(crate) fn push_record_types<'a>(
    types: &RecordTypes<'a>,
    names: &mut Vec<Identifier<'a>>,
) -> Result<(), AllocError>
    ensures { OnOk result (names.new.items ≡ names.old.items ++ names_in_record_types types.now) }
{
    push_key_type(&types.0, names)?;
    push_type(&types.2, names)
}

/// Adds the names in the type of a record's keys.
#[cycle(names)]
pub(crate) fn push_key_type<'a>(
    key: &RecordKeyType<'a>,
    names: &mut Vec<Identifier<'a>>,
) -> Result<(), AllocError>
    ensures { OnOk result (names.new.items ≡ names.old.items ++ names_in_key_type key.now) }
{
    match key {
        RecordKeyType::NonAny(type_) => push_non_any_type(type_, names),
        RecordKeyType::Byte(_) | RecordKeyType::DOM(_) | RecordKeyType::USV(_) => Ok(()),
    }
}

/// Adds the names in the type of a result.
#[cycle(names)]
pub(crate) fn push_return_type<'a>(
    return_type: &ReturnType<'a>,
    names: &mut Vec<Identifier<'a>>,
) -> Result<(), AllocError>
    ensures { OnOk result
        (names.new.items ≡ names.old.items ++ names_in_return_type return_type.now) }
{
    match return_type {
        ReturnType::Undefined(_) => Ok(()),
        ReturnType::Type_(type_) => push_type(type_, names),
    }
}

/// Adds the names in a type with the extended attributes before it.
#[cycle(names)]
pub(crate) fn push_attributed_type<'a>(
    type_: &AttributedType<'a>,
    names: &mut Vec<Identifier<'a>>,
) -> Result<(), AllocError>
    ensures { OnOk result
        (names.new.items ≡ names.old.items ++ names_in_attributed_type type_.now) }
{
    push_attributes(&type_.attributes, names)?;
    push_type(&type_.type_, names)
}
