//! Types.

ghost use Rattle.weedle_grammar.specs.written.Table.Types.{
  ATTRIBUTED_NON_ANY_TYPE,
  ATTRIBUTED_TYPE,
  NON_ANY_TYPE,
  RECORD_KEY_TYPE,
  RETURN_TYPE,
  SINGLE_TYPE,
  TYPE,
};
ghost use Rattle.weedle_types.specs.Trees.{
  attributed_non_any_type_tree,
  attributed_type_tree,
  non_any_type_tree,
  record_key_type_tree,
  return_type_tree,
  single_type_tree,
  type_tree,
};
ghost use Rattle.weedle_build_base.specs.Built.{Answers, Due};

use super::attributes::attributes;
use super::generic_types::{
    nullable_frozen_array_type, nullable_record_type, nullable_sequence_type, promise_type,
};
use super::plain_types::plain_type;
use super::unions::nullable_union_type;
use std::alloc::Global;
use weedle_base::term::{Any, ByteString, DOMString, USVString, Undefined};
use weedle_build_base::{At, BuildResult, Table, alternative, choice, visit};
use weedle_rules::Rule;
use weedle_types::types::{
    AttributedNonAnyType, AttributedType, NonAnyType, RecordKeyType, ReturnType, SingleType, Type,
};

/// Builds a type, as `long` or `(long or DOMString)?`.
#[cycle(group)]
pub(crate) fn type_<'a>(alloc: Global, table: Table<'_, 'a>, at: At) -> BuildResult<Type<'a>>
    requires { Due table.text.now TYPE at.place }
    ensures { Answers table.entry.text.now TYPE type_tree at.place at.visits result }
{
    match choice(table, Rule::TYPE, at.place) {
        0 => {
            let (member, at) = single_type(alloc, table, at)?;
            Ok((Type::Single(member), visit(at)))
        }
        1 => {
            let (member, at) = nullable_union_type(alloc, table, at)?;
            Ok((Type::Union(member), visit(at)))
        }
        _ => unreachable!(),
    }
}

/// Builds a type that is no union, as `any` or `long?`.
#[cycle(group)]
pub(crate) fn single_type<'a>(
    alloc: Global,
    table: Table<'_, 'a>,
    at: At,
) -> BuildResult<SingleType<'a>>
    requires { Due table.text.now SINGLE_TYPE at.place }
    ensures { Answers table.entry.text.now SINGLE_TYPE single_type_tree at.place at.visits result }
{
    match choice(table, Rule::SINGLE_TYPE, at.place) {
        0 => {
            let (member, at) = alternative::<Any>(alloc, table, Rule::SINGLE_TYPE, 0, at)?;
            Ok((SingleType::Any(member), at))
        }
        1 => {
            let (member, at) = non_any_type(alloc, table, at)?;
            Ok((SingleType::NonAny(member), visit(at)))
        }
        _ => unreachable!(),
    }
}

/// Builds a type that is neither `any` nor a union, as `long?`.
#[cycle(group)]
pub(crate) fn non_any_type<'a>(
    alloc: Global,
    table: Table<'_, 'a>,
    at: At,
) -> BuildResult<NonAnyType<'a>>
    requires { Due table.text.now NON_ANY_TYPE at.place }
    ensures { Answers table.entry.text.now NON_ANY_TYPE non_any_type_tree at.place at.visits
        result }
{
    match choice(table, Rule::NON_ANY_TYPE, at.place) {
        0 => {
            let (member, at) = promise_type(alloc, table, at)?;
            Ok((NonAnyType::Promise(member), visit(at)))
        }
        9 => {
            let (member, at) = nullable_sequence_type(alloc, table, at)?;
            Ok((NonAnyType::Sequence(member), visit(at)))
        }
        26 => {
            let (member, at) = nullable_frozen_array_type(alloc, table, at)?;
            Ok((NonAnyType::FrozenArrayType(member), visit(at)))
        }
        27 => {
            let (member, at) = nullable_record_type(alloc, table, at)?;
            Ok((NonAnyType::RecordType(member), visit(at)))
        }
        number => plain_type(alloc, table, number, at),
    }
}

/// Builds the type of a record's keys, as `DOMString`.
#[cycle(group)]
pub(crate) fn record_key_type<'a>(
    alloc: Global,
    table: Table<'_, 'a>,
    at: At,
) -> BuildResult<RecordKeyType<'a>>
    requires { Due table.text.now RECORD_KEY_TYPE at.place }
    ensures { Answers table.entry.text.now RECORD_KEY_TYPE record_key_type_tree at.place at.visits
        result }
{
    match choice(table, Rule::RECORD_KEY_TYPE, at.place) {
        0 => {
            let (member, at) = alternative::<ByteString>(
                alloc,
                table,
                Rule::RECORD_KEY_TYPE,
                0,
                at,
            )?;
            Ok((RecordKeyType::Byte(member), at))
        }
        1 => {
            let (member, at) = alternative::<DOMString>(
                alloc,
                table,
                Rule::RECORD_KEY_TYPE,
                1,
                at,
            )?;
            Ok((RecordKeyType::DOM(member), at))
        }
        2 => {
            let (member, at) = alternative::<USVString>(
                alloc,
                table,
                Rule::RECORD_KEY_TYPE,
                2,
                at,
            )?;
            Ok((RecordKeyType::USV(member), at))
        }
        3 => {
            let (member, at) = non_any_type(alloc, table, at)?;
            Ok((RecordKeyType::NonAny(member), visit(at)))
        }
        _ => unreachable!(),
    }
}

/// Builds the type of a result, as `undefined` or `long`.
#[cycle(group)]
pub(crate) fn return_type<'a>(
    alloc: Global,
    table: Table<'_, 'a>,
    at: At,
) -> BuildResult<ReturnType<'a>>
    requires { Due table.text.now RETURN_TYPE at.place }
    ensures { Answers table.entry.text.now RETURN_TYPE return_type_tree at.place at.visits result }
{
    match choice(table, Rule::RETURN_TYPE, at.place) {
        0 => {
            let (member, at) = alternative::<Undefined>(alloc, table, Rule::RETURN_TYPE, 0, at)?;
            Ok((ReturnType::Undefined(member), at))
        }
        1 => {
            let (member, at) = type_(alloc, table, at)?;
            Ok((ReturnType::Type_(member), visit(at)))
        }
        _ => unreachable!(),
    }
}

/// Builds a type with its extended attributes, as `[Clamp] octet`.
#[cycle(group)]
pub(crate) fn attributed_type<'a>(
    alloc: Global,
    table: Table<'_, 'a>,
    at: At,
) -> BuildResult<AttributedType<'a>>
    requires { Due table.text.now ATTRIBUTED_TYPE at.place }
    ensures { Answers table.entry.text.now ATTRIBUTED_TYPE attributed_type_tree at.place at.visits
        result }
{
    let (attributes, at) = attributes(alloc, table, at)?;
    let (type_, at) = type_(alloc, table, at)?;
    Ok((AttributedType { attributes, type_ }, visit(at)))
}

/// Builds a type with its extended attributes, as `[Clamp] octet`, where the type is neither `any`
/// nor a union.
// It stays a call: within a member of a union its room would be held at each level of nested
// unions.
#[inline(never)]
#[cycle(group)]
pub(crate) fn attributed_non_any_type<'a>(
    alloc: Global,
    table: Table<'_, 'a>,
    at: At,
) -> BuildResult<AttributedNonAnyType<'a>>
    requires { Due table.text.now ATTRIBUTED_NON_ANY_TYPE at.place }
    ensures { Answers table.entry.text.now ATTRIBUTED_NON_ANY_TYPE attributed_non_any_type_tree
        at.place at.visits result }
{
    let (attributes, at) = attributes(alloc, table, at)?;
    let (type_, at) = non_any_type(alloc, table, at)?;
    Ok((AttributedNonAnyType { attributes, type_ }, visit(at)))
}
