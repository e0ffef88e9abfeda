//! Types.

ghost use Rattle.std.specs.Prelude.{◌<◌, length, IfOk};
ghost use Rattle.weedle_base.specs.Own.{own};
ghost use Rattle.weedle_base.specs.Reading.{Answers};
ghost use Rattle.weedle_grammar.specs.written.Table.Types.{
  ATTRIBUTED_NON_ANY_TYPE,
  ATTRIBUTED_TYPE,
  NON_ANY_TYPE,
  RECORD_KEY_TYPE,
  RETURN_TYPE,
  SINGLE_TYPE,
  TYPE,
};
ghost use Rattle.weedle_types.specs.Trees.{
  attributed_non_any_type_tree,
  attributed_type_tree,
  non_any_type_tree,
  record_key_type_tree,
  return_type_tree,
  single_type_tree,
  type_tree,
};

use super::attributes::attributes;
use super::generic_types::{
    nullable_frozen_array_type, nullable_record_type, nullable_sequence_type, promise_type,
};
use super::plain_types::{after_sequence, before_sequence};
use super::steps::word;
use super::unions::nullable_union_type;
use crate::types::{
    AttributedNonAnyType, AttributedType, FrozenArrayType, NonAnyType, RecordKeyType, RecordType,
    ReturnType, SingleType, Type,
};
use std::alloc::Global;
use weedle_base::{Err, IResult};

/// Reads a type, as `long` or `(long or DOMString)?`.
#[cycle(group)]
#[tactic(auto, using(crate::proofs::written::TypeRules::type__steps))]
pub(crate) fn type_<'a>(alloc: Global, input: &'a str) -> IResult<&'a str, Type<'a>>
    ensures reads { Answers (own TYPE type_tree (Unit {0})) input.now result }
    ensures shorter { IfOk result (λ x. length x.0.now < length input.now) }
{
    read_or_next!(single_type(alloc, input), Type::Single);
    let (rest, member) = nullable_union_type(alloc, input)?;
    Ok((rest, Type::Union(member)))
}

/// Reads a type that is no union, as `any` or `long?`.
#[cycle(group)]
#[tactic(auto, using(crate::proofs::written::TypeRules::single_type_steps))]
pub(crate) fn single_type<'a>(alloc: Global, input: &'a str) -> IResult<&'a str, SingleType<'a>>
    ensures reads { Answers (own SINGLE_TYPE single_type_tree (Unit {0})) input.now result }
    ensures shorter { IfOk result (λ x. length x.0.now < length input.now) }
{
    read_or_next!(word(alloc, input), SingleType::Any);
    let (rest, member) = non_any_type(alloc, input)?;
    Ok((rest, SingleType::NonAny(member)))
}

/// Reads a type that is neither `any` nor a union, as `long?`: its variants in their order.
#[cycle(group)]
#[tactic(auto, using(crate::proofs::written::TypeRules::non_any_type_steps))]
pub(crate) fn non_any_type<'a>(alloc: Global, input: &'a str) -> IResult<&'a str, NonAnyType<'a>>
    ensures reads { Answers (own NON_ANY_TYPE non_any_type_tree (Unit {0})) input.now result }
    ensures shorter { IfOk result (λ x. length x.0.now < length input.now) }
{
    read_or_next!(promise_type(alloc, input), NonAnyType::Promise);
    read_or_next!(before_sequence(alloc, input));
    read_or_next!(nullable_sequence_type(alloc, input), NonAnyType::Sequence);
    read_or_next!(after_sequence(alloc, input));
    read_or_next!(
        nullable_frozen_array_type(alloc, input),
        NonAnyType::FrozenArrayType
    );
    read_or_next!(nullable_record_type(alloc, input), NonAnyType::RecordType);
    let (rest, member) = word(alloc, input)?;
    Ok((rest, NonAnyType::Identifier(member)))
}

/// Reads the type of a record's keys, as `DOMString`.
#[cycle(group)]
#[tactic(auto, using(crate::proofs::written::TypeRules::record_key_type_steps))]
pub(crate) fn record_key_type<'a>(
    alloc: Global,
    input: &'a str,
) -> IResult<&'a str, RecordKeyType<'a>>
    ensures reads { Answers (own RECORD_KEY_TYPE record_key_type_tree (Unit {0})) input.now result }
    ensures shorter { IfOk result (λ x. length x.0.now < length input.now) }
{
    read_or_next!(word(alloc, input), RecordKeyType::Byte);
    read_or_next!(word(alloc, input), RecordKeyType::DOM);
    read_or_next!(word(alloc, input), RecordKeyType::USV);
    let (rest, member) = non_any_type(alloc, input)?;
    Ok((rest, RecordKeyType::NonAny(member)))
}

/// Reads the type of a result, as `undefined` or `long`.
#[cycle(group)]
#[tactic(auto, using(crate::proofs::written::TypeRules::return_type_steps))]
pub(crate) fn return_type<'a>(alloc: Global, input: &'a str) -> IResult<&'a str, ReturnType<'a>>
    ensures reads { Answers (own RETURN_TYPE return_type_tree (Unit {0})) input.now result }
    ensures shorter { IfOk result (λ x. length x.0.now < length input.now) }
{
    read_or_next!(word(alloc, input), ReturnType::Undefined);
    let (rest, member) = type_(alloc, input)?;
    Ok((rest, ReturnType::Type_(member)))
}

/// Reads a type with its extended attributes, as `[Clamp] octet`.
#[cycle(group)]
#[tactic(auto, using(crate::proofs::written::TypeRules::attributed_type_steps))]
pub(crate) fn attributed_type<'a>(
    alloc: Global,
    input: &'a str,
) -> IResult<&'a str, AttributedType<'a>>
    ensures reads { Answers (own ATTRIBUTED_TYPE attributed_type_tree (Unit {0})) input.now result }
    ensures shorter { IfOk result (λ x. length x.0.now < length input.now) }
{
    let (rest, attributes) = attributes(alloc, input)?;
    let (rest, type_) = type_(alloc, rest)?;
    Ok((rest, AttributedType { attributes, type_ }))
}

/// Reads a type with its extended attributes, as `[Clamp] octet`, where the type is neither `any`
/// nor a union.
// It stays a call: within a member of a union its room would be held at each level of nested
// unions.
#[inline(never)]
#[cycle(group)]
#[tactic(auto, using(crate::proofs::written::TypeRules::attributed_non_any_type_steps))]
pub(crate) fn attributed_non_any_type<'a>(
    alloc: Global,
    input: &'a str,
) -> IResult<&'a str, AttributedNonAnyType<'a>>
    ensures reads { Answers (own ATTRIBUTED_NON_ANY_TYPE attributed_non_any_type_tree (Unit {0}))
        input.now result }
    ensures shorter { IfOk result (λ x. length x.0.now < length input.now) }
{
    let (rest, attributes) = attributes(alloc, input)?;
    let (rest, type_) = non_any_type(alloc, rest)?;
    Ok((rest, AttributedNonAnyType { attributes, type_ }))
}
