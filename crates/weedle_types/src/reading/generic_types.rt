//! Types over types in angle brackets.

ghost use Rattle.std.specs.Prelude.{◌<◌, length, IfOk};
ghost use Rattle.weedle_base.specs.Own.{own};
ghost use Rattle.weedle_base.specs.Reading.{Answers};
ghost use Rattle.weedle_parts.specs.ValueTrees.{generics_tree, may_be_null_tree};
ghost use Rattle.weedle_grammar.specs.written.Table.Types.{
  FROZEN_ARRAY_TYPE,
  GENERICS_RECORD_TYPES,
  GENERICS_RETURN_TYPE,
  GENERICS_TYPE,
  MAY_BE_NULL_FROZEN_ARRAY_TYPE,
  MAY_BE_NULL_RECORD_TYPE,
  MAY_BE_NULL_SEQUENCE_TYPE,
  PROMISE_TYPE,
  RECORD_TYPE,
  RECORD_TYPES,
  SEQUENCE_TYPE,
};
ghost use Rattle.weedle_types.specs.Trees.{
  boxed_return_type_tree,
  boxed_type_tree,
  frozen_array_type_tree,
  promise_type_tree,
  record_type_tree,
  record_types_tree,
  sequence_type_tree,
};

use super::steps::{boxed, part, word};
use super::types::{record_key_type, return_type, type_};
use crate::types::{
    FrozenArrayType, PromiseType, RecordType, RecordTypes, ReturnType, SequenceType, Type,
};
use std::alloc::Global;
use weedle_base::IResult;
use weedle_parts::common::Generics;
use weedle_parts::types::MayBeNull;

/// Reads a sequence, as `sequence<long>`.
#[cycle(group)]
#[tactic(auto, using(crate::proofs::written::GenericTypeRules::sequence_type_steps))]
pub(crate) fn sequence_type<'a>(alloc: Global, input: &'a str) -> IResult<&'a str, SequenceType<'a>>
    ensures reads { Answers (own SEQUENCE_TYPE sequence_type_tree (Unit {0})) input.now result }
    ensures shorter { IfOk result (λ x. length x.0.now < length input.now) }
{
    let (rest, sequence) = part(alloc, input)?;
    let (rest, generics) = generics_type(alloc, rest)?;
    Ok((rest, SequenceType { sequence, generics }))
}

/// Reads an array that can't change, as `FrozenArray<long>`.
#[cycle(group)]
#[tactic(auto, using(crate::proofs::written::GenericTypeRules::frozen_array_type_steps))]
pub(crate) fn frozen_array_type<'a>(
    alloc: Global,
    input: &'a str,
) -> IResult<&'a str, FrozenArrayType<'a>>
    ensures reads { Answers (own FROZEN_ARRAY_TYPE frozen_array_type_tree (Unit {0})) input.now
        result }
    ensures shorter { IfOk result (λ x. length x.0.now < length input.now) }
{
    let (rest, frozen_array) = part(alloc, input)?;
    let (rest, generics) = generics_type(alloc, rest)?;
    Ok((
        rest,
        FrozenArrayType {
            frozen_array,
            generics,
        },
    ))
}

/// Reads a promise, as `Promise<undefined>`.
#[cycle(group)]
#[tactic(auto, using(crate::proofs::written::GenericTypeRules::promise_type_steps))]
pub(crate) fn promise_type<'a>(alloc: Global, input: &'a str) -> IResult<&'a str, PromiseType<'a>>
    ensures reads { Answers (own PROMISE_TYPE promise_type_tree (Unit {0})) input.now result }
    ensures shorter { IfOk result (λ x. length x.0.now < length input.now) }
{
    let (rest, promise) = part(alloc, input)?;
    let (rest, generics) = generics_return_type(alloc, rest)?;
    Ok((rest, PromiseType { promise, generics }))
}

/// Reads a record, as `record<DOMString, long>`.
#[cycle(group)]
#[tactic(auto, using(crate::proofs::written::GenericTypeRules::record_type_steps))]
pub(crate) fn record_type<'a>(alloc: Global, input: &'a str) -> IResult<&'a str, RecordType<'a>>
    ensures reads { Answers (own RECORD_TYPE record_type_tree (Unit {0})) input.now result }
    ensures shorter { IfOk result (λ x. length x.0.now < length input.now) }
{
    let (rest, record_) = part(alloc, input)?;
    let (rest, generics) = generics_record_types(alloc, rest)?;
    Ok((rest, RecordType { record_, generics }))
}

/// Reads a sequence that may be null, as `sequence<long>?`.
#[cycle(group)]
#[tactic(auto, using(crate::proofs::written::GenericTypeRules::nullable_sequence_type_steps))]
pub(crate) fn nullable_sequence_type<'a>(
    alloc: Global,
    input: &'a str,
) -> IResult<&'a str, MayBeNull<SequenceType<'a>>>
    ensures reads { Answers
        (own MAY_BE_NULL_SEQUENCE_TYPE (may_be_null_tree sequence_type_tree) (Unit {0})) input.now
        result }
    ensures shorter { IfOk result (λ x. length x.0.now < length input.now) }
{
    let (rest, type_) = sequence_type(alloc, input)?;
    let (rest, q_mark) = part(alloc, rest)?;
    Ok((rest, MayBeNull { type_, q_mark }))
}

/// Reads an array that can't change and may be null, as `FrozenArray<long>?`.
#[cycle(group)]
#[tactic(auto, using(crate::proofs::written::GenericTypeRules::nullable_frozen_array_type_steps))]
pub(crate) fn nullable_frozen_array_type<'a>(
    alloc: Global,
    input: &'a str,
) -> IResult<&'a str, MayBeNull<FrozenArrayType<'a>>>
    ensures reads { Answers
        (own MAY_BE_NULL_FROZEN_ARRAY_TYPE (may_be_null_tree frozen_array_type_tree) (Unit {0}))
        input.now result }
    ensures shorter { IfOk result (λ x. length x.0.now < length input.now) }
{
    let (rest, type_) = frozen_array_type(alloc, input)?;
    let (rest, q_mark) = part(alloc, rest)?;
    Ok((rest, MayBeNull { type_, q_mark }))
}

/// Reads a record that may be null, as `record<DOMString, long>?`.
#[cycle(group)]
#[tactic(auto, using(crate::proofs::written::GenericTypeRules::nullable_record_type_steps))]
pub(crate) fn nullable_record_type<'a>(
    alloc: Global,
    input: &'a str,
) -> IResult<&'a str, MayBeNull<RecordType<'a>>>
    ensures reads { Answers
        (own MAY_BE_NULL_RECORD_TYPE (may_be_null_tree record_type_tree) (Unit {0})) input.now
        result }
    ensures shorter { IfOk result (λ x. length x.0.now < length input.now) }
{
    let (rest, type_) = record_type(alloc, input)?;
    let (rest, q_mark) = part(alloc, rest)?;
    Ok((rest, MayBeNull { type_, q_mark }))
}

/// Reads a type in angle brackets, as `<long>`.
#[cycle(group)]
#[tactic(auto, using(crate::proofs::written::GenericTypeRules::generics_type_steps))]
pub(crate) fn generics_type<'a>(
    alloc: Global,
    input: &'a str,
) -> IResult<&'a str, Generics<Box<Type<'a>>>>
    ensures reads { Answers (own GENERICS_TYPE (generics_tree boxed_type_tree) (Unit {0})) input.now
        result }
    ensures shorter { IfOk result (λ x. length x.0.now < length input.now) }
{
    let (rest, open_angle) = word(alloc, input)?;
    let (rest, body) = type_(alloc, rest)?;
    let (rest, close_angle) = part(alloc, rest)?;
    let body = boxed(alloc, input, body)?;
    Ok((
        rest,
        Generics {
            open_angle,
            body,
            close_angle,
        },
    ))
}

/// Reads the type of a result in angle brackets, as `<undefined>`.
#[cycle(group)]
#[tactic(auto, using(crate::proofs::written::GenericTypeRules::generics_return_type_steps))]
pub(crate) fn generics_return_type<'a>(
    alloc: Global,
    input: &'a str,
) -> IResult<&'a str, Generics<Box<ReturnType<'a>>>>
    ensures reads { Answers
        (own GENERICS_RETURN_TYPE (generics_tree boxed_return_type_tree) (Unit {0})) input.now
        result }
    ensures shorter { IfOk result (λ x. length x.0.now < length input.now) }
{
    let (rest, open_angle) = word(alloc, input)?;
    let (rest, body) = return_type(alloc, rest)?;
    let (rest, close_angle) = part(alloc, rest)?;
    let body = boxed(alloc, input, body)?;
    Ok((
        rest,
        Generics {
            open_angle,
            body,
            close_angle,
        },
    ))
}

/// Reads the types of a record in angle brackets, as `<DOMString, long>`.
#[cycle(group)]
#[tactic(auto, using(crate::proofs::written::GenericTypeRules::generics_record_types_steps))]
pub(crate) fn generics_record_types<'a>(
    alloc: Global,
    input: &'a str,
) -> IResult<&'a str, Generics<RecordTypes<'a>>>
    ensures reads { Answers (own GENERICS_RECORD_TYPES (generics_tree record_types_tree) (Unit {0}))
        input.now result }
    ensures shorter { IfOk result (λ x. length x.0.now < length input.now) }
{
    let (rest, open_angle) = word(alloc, input)?;
    let (rest, body) = record_types(alloc, rest)?;
    let (rest, close_angle) = part(alloc, rest)?;
    Ok((
        rest,
        Generics {
            open_angle,
            body,
            close_angle,
        },
    ))
}

/// Reads the types of a record, as `DOMString, long`.
#[cycle(group)]
#[tactic(auto, using(crate::proofs::written::GenericTypeRules::record_types_steps))]
pub(crate) fn record_types<'a>(alloc: Global, input: &'a str) -> IResult<&'a str, RecordTypes<'a>>
    ensures reads { Answers (own RECORD_TYPES record_types_tree (Unit {0})) input.now result }
    ensures shorter { IfOk result (λ x. length x.0.now < length input.now) }
{
    let (rest, key) = record_key_type(alloc, input)?;
    let (rest, comma) = part(alloc, rest)?;
    let (rest, value) = type_(alloc, rest)?;
    let key = boxed(alloc, input, key)?;
    let value = boxed(alloc, input, value)?;
    Ok((rest, RecordTypes(key, comma, value)))
}
