//! Types over types in angle brackets.

ghost use Rattle.weedle_parts.specs.ValueTrees.{generics_tree, may_be_null_tree};
ghost use Rattle.weedle_grammar.specs.written.Table.Types.{
  FROZEN_ARRAY_TYPE,
  GENERICS_RECORD_TYPES,
  GENERICS_RETURN_TYPE,
  GENERICS_TYPE,
  MAY_BE_NULL_FROZEN_ARRAY_TYPE,
  MAY_BE_NULL_RECORD_TYPE,
  MAY_BE_NULL_SEQUENCE_TYPE,
  PROMISE_TYPE,
  RECORD_TYPE,
  RECORD_TYPES,
  SEQUENCE_TYPE,
};
ghost use Rattle.weedle_types.specs.Trees.{
  boxed_return_type_tree,
  boxed_type_tree,
  frozen_array_type_tree,
  promise_type_tree,
  record_type_tree,
  record_types_tree,
  sequence_type_tree,
};
ghost use Rattle.weedle_build_base.specs.Built.{Answers, Due};

use super::super::steps::optional;
use super::kinds::{record_key_type, return_type, type_};
use std::alloc::Global;
use weedle_base::term::{
    Comma, FrozenArray, GreaterThan, LessThan, Promise, QMark, Record, Sequence,
};
use weedle_build_base::{At, Build, BuildResult, Table, visit};
use weedle_parts::common::Generics;
use weedle_parts::types::MayBeNull;
use weedle_rules::Rule;
use weedle_types::types::{
    FrozenArrayType, PromiseType, RecordType, RecordTypes, ReturnType, SequenceType, Type,
};

/// Builds a sequence, as `sequence<long>`.
#[cycle(group)]
pub(crate) fn sequence_type<'a>(
    alloc: Global,
    table: Table<'_, 'a>,
    at: At,
) -> BuildResult<SequenceType<'a>>
    requires { Due table.text.now SEQUENCE_TYPE at.place }
    ensures { Answers table.entry.text.now SEQUENCE_TYPE sequence_type_tree at.place at.visits
        result }
{
    let (sequence, at) = Sequence::build(alloc, table, Rule::SEQUENCE, at)?;
    let (generics, at) = generics_type(alloc, table, at)?;
    Ok((SequenceType { sequence, generics }, visit(at)))
}

/// Builds an array that can't change, as `FrozenArray<long>`.
#[cycle(group)]
pub(crate) fn frozen_array_type<'a>(
    alloc: Global,
    table: Table<'_, 'a>,
    at: At,
) -> BuildResult<FrozenArrayType<'a>>
    requires { Due table.text.now FROZEN_ARRAY_TYPE at.place }
    ensures { Answers table.entry.text.now FROZEN_ARRAY_TYPE frozen_array_type_tree at.place
        at.visits result }
{
    let (frozen_array, at) = FrozenArray::build(alloc, table, Rule::FROZEN_ARRAY, at)?;
    let (generics, at) = generics_type(alloc, table, at)?;
    Ok((
        FrozenArrayType {
            frozen_array,
            generics,
        },
        visit(at),
    ))
}

/// Builds a promise, as `Promise<undefined>`.
#[cycle(group)]
pub(crate) fn promise_type<'a>(
    alloc: Global,
    table: Table<'_, 'a>,
    at: At,
) -> BuildResult<PromiseType<'a>>
    requires { Due table.text.now PROMISE_TYPE at.place }
    ensures { Answers table.entry.text.now PROMISE_TYPE promise_type_tree at.place at.visits
        result }
{
    let (promise, at) = Promise::build(alloc, table, Rule::PROMISE, at)?;
    let (generics, at) = generics_return_type(alloc, table, at)?;
    Ok((PromiseType { promise, generics }, visit(at)))
}

/// Builds a record, as `record<DOMString, long>`.
#[cycle(group)]
pub(crate) fn record_type<'a>(
    alloc: Global,
    table: Table<'_, 'a>,
    at: At,
) -> BuildResult<RecordType<'a>>
    requires { Due table.text.now RECORD_TYPE at.place }
    ensures { Answers table.entry.text.now RECORD_TYPE record_type_tree at.place at.visits result }
{
    let (record_, at) = Record::build(alloc, table, Rule::RECORD, at)?;
    let (generics, at) = generics_record_types(alloc, table, at)?;
    Ok((RecordType { record_, generics }, visit(at)))
}

/// Builds a sequence that may be null, as `sequence<long>?`.
#[cycle(group)]
pub(crate) fn nullable_sequence_type<'a>(
    alloc: Global,
    table: Table<'_, 'a>,
    at: At,
) -> BuildResult<MayBeNull<SequenceType<'a>>>
    requires { Due table.text.now MAY_BE_NULL_SEQUENCE_TYPE at.place }
    ensures { Answers table.entry.text.now MAY_BE_NULL_SEQUENCE_TYPE
        (may_be_null_tree sequence_type_tree) at.place at.visits result }
{
    let (type_, at) = sequence_type(alloc, table, at)?;
    let (q_mark, at) = optional::<QMark>(alloc, table, Rule::Q_MARK, at)?;
    Ok((MayBeNull { type_, q_mark }, visit(at)))
}

/// Builds an array that can't change and may be null, as `FrozenArray<long>?`.
#[cycle(group)]
pub(crate) fn nullable_frozen_array_type<'a>(
    alloc: Global,
    table: Table<'_, 'a>,
    at: At,
) -> BuildResult<MayBeNull<FrozenArrayType<'a>>>
    requires { Due table.text.now MAY_BE_NULL_FROZEN_ARRAY_TYPE at.place }
    ensures { Answers table.entry.text.now MAY_BE_NULL_FROZEN_ARRAY_TYPE
        (may_be_null_tree frozen_array_type_tree) at.place at.visits result }
{
    let (type_, at) = frozen_array_type(alloc, table, at)?;
    let (q_mark, at) = optional::<QMark>(alloc, table, Rule::Q_MARK, at)?;
    Ok((MayBeNull { type_, q_mark }, visit(at)))
}

/// Builds a record that may be null, as `record<DOMString, long>?`.
#[cycle(group)]
pub(crate) fn nullable_record_type<'a>(
    alloc: Global,
    table: Table<'_, 'a>,
    at: At,
) -> BuildResult<MayBeNull<RecordType<'a>>>
    requires { Due table.text.now MAY_BE_NULL_RECORD_TYPE at.place }
    ensures { Answers table.entry.text.now MAY_BE_NULL_RECORD_TYPE
        (may_be_null_tree record_type_tree) at.place at.visits result }
{
    let (type_, at) = record_type(alloc, table, at)?;
    let (q_mark, at) = optional::<QMark>(alloc, table, Rule::Q_MARK, at)?;
    Ok((MayBeNull { type_, q_mark }, visit(at)))
}

/// Builds a type in angle brackets, as `<long>`.
#[cycle(group)]
pub(crate) fn generics_type<'a>(
    alloc: Global,
    table: Table<'_, 'a>,
    at: At,
) -> BuildResult<Generics<Box<Type<'a>>>>
    requires { Due table.text.now GENERICS_TYPE at.place }
    ensures { Answers table.entry.text.now GENERICS_TYPE (generics_tree boxed_type_tree) at.place
        at.visits result }
{
    let (open_angle, at) = LessThan::build(alloc, table, Rule::LESS_THAN, at)?;
    let (body, at) = type_(alloc, table, at)?;
    let body = Box::new(alloc, body)?;
    let (close_angle, at) = GreaterThan::build(alloc, table, Rule::GREATER_THAN, at)?;
    Ok((
        Generics {
            open_angle,
            body,
            close_angle,
        },
        visit(at),
    ))
}

/// Builds the type of a result in angle brackets, as `<undefined>`.
#[cycle(group)]
pub(crate) fn generics_return_type<'a>(
    alloc: Global,
    table: Table<'_, 'a>,
    at: At,
) -> BuildResult<Generics<Box<ReturnType<'a>>>>
    requires { Due table.text.now GENERICS_RETURN_TYPE at.place }
    ensures { Answers table.entry.text.now GENERICS_RETURN_TYPE
        (generics_tree boxed_return_type_tree) at.place at.visits result }
{
    let (open_angle, at) = LessThan::build(alloc, table, Rule::LESS_THAN, at)?;
    let (body, at) = return_type(alloc, table, at)?;
    let body = Box::new(alloc, body)?;
    let (close_angle, at) = GreaterThan::build(alloc, table, Rule::GREATER_THAN, at)?;
    Ok((
        Generics {
            open_angle,
            body,
            close_angle,
        },
        visit(at),
    ))
}

/// Builds the types of a record in angle brackets, as `<DOMString, long>`.
#[cycle(group)]
pub(crate) fn generics_record_types<'a>(
    alloc: Global,
    table: Table<'_, 'a>,
    at: At,
) -> BuildResult<Generics<RecordTypes<'a>>>
    requires { Due table.text.now GENERICS_RECORD_TYPES at.place }
    ensures { Answers table.entry.text.now GENERICS_RECORD_TYPES (generics_tree record_types_tree)
        at.place at.visits result }
{
    let (open_angle, at) = LessThan::build(alloc, table, Rule::LESS_THAN, at)?;
    let (body, at) = record_types(alloc, table, at)?;
    let (close_angle, at) = GreaterThan::build(alloc, table, Rule::GREATER_THAN, at)?;
    Ok((
        Generics {
            open_angle,
            body,
            close_angle,
        },
        visit(at),
    ))
}

/// Builds the types of a record, as `DOMString, long`.
#[cycle(group)]
pub(crate) fn record_types<'a>(
    alloc: Global,
    table: Table<'_, 'a>,
    at: At,
) -> BuildResult<RecordTypes<'a>>
    requires { Due table.text.now RECORD_TYPES at.place }
    ensures { Answers table.entry.text.now RECORD_TYPES record_types_tree at.place at.visits
        result }
{
    let (key, at) = record_key_type(alloc, table, at)?;
    let key = Box::new(alloc, key)?;
    let (comma, at) = Comma::build(alloc, table, Rule::COMMA, at)?;
    let (value, at) = type_(alloc, table, at)?;
    let value = Box::new(alloc, value)?;
    Ok((RecordTypes(key, comma, value), visit(at)))
}
