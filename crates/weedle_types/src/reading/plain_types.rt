//! The types that hold no other types, four at a time, in the order of the variants of
//! [`NonAnyType`]: each with `?` where it may be null. They take no memory.

ghost use Rattle.std.specs.Prelude.{◌<◌, length, IfOk};
ghost use Rattle.weedle_base.specs.Reading.{Answers};
ghost use Rattle.weedle_types.specs.Steps.{members};
ghost use Rattle.weedle_types.specs.Trees.{non_any_type_tree};
ghost use Rattle.weedle_types.specs.Pieces.{
  numbers_rules,
  strings_rules,
  objects_rules,
  signed_arrays_rules,
  unsigned_arrays_rules,
  float_arrays_rules,
  before_sequence_rules,
  after_sequence_rules,
};

use super::steps::word;
use crate::types::NonAnyType;
use std::alloc::Global;
use weedle_base::{Err, IResult};

/// Reads a type of numbers, `boolean` or `byte`, as `unsigned long?`.
#[tactic(auto, using(crate::proofs::written::PlainTypeRules::numbers_steps))]
pub(crate) fn numbers<'a>(alloc: Global, input: &'a str) -> IResult<&'a str, NonAnyType<'a>>
    ensures reads { Answers (members numbers_rules 1 non_any_type_tree ⊥) input.now result }
    ensures shorter { IfOk result (λ x. length x.0.now < length input.now) }
{
    read_or_next!(word(alloc, input), NonAnyType::Integer);
    read_or_next!(word(alloc, input), NonAnyType::FloatingPoint);
    read_or_next!(word(alloc, input), NonAnyType::Boolean);
    let (rest, member) = word(alloc, input)?;
    Ok((rest, NonAnyType::Byte(member)))
}

/// Reads `octet`, `ByteString`, `DOMString` or `USVString`.
#[tactic(auto, using(crate::proofs::written::PlainTypeRules::strings_steps))]
pub(crate) fn strings<'a>(alloc: Global, input: &'a str) -> IResult<&'a str, NonAnyType<'a>>
    ensures reads { Answers (members strings_rules 5 non_any_type_tree ⊥) input.now result }
    ensures shorter { IfOk result (λ x. length x.0.now < length input.now) }
{
    read_or_next!(word(alloc, input), NonAnyType::Octet);
    read_or_next!(word(alloc, input), NonAnyType::ByteString);
    read_or_next!(word(alloc, input), NonAnyType::DOMString);
    let (rest, member) = word(alloc, input)?;
    Ok((rest, NonAnyType::USVString(member)))
}

/// Reads `object`, `symbol`, `Error` or `ArrayBuffer`.
#[tactic(auto, using(crate::proofs::written::PlainTypeRules::objects_steps))]
pub(crate) fn objects<'a>(alloc: Global, input: &'a str) -> IResult<&'a str, NonAnyType<'a>>
    ensures reads { Answers (members objects_rules 10 non_any_type_tree ⊥) input.now result }
    ensures shorter { IfOk result (λ x. length x.0.now < length input.now) }
{
    read_or_next!(word(alloc, input), NonAnyType::Object);
    read_or_next!(word(alloc, input), NonAnyType::Symbol);
    read_or_next!(word(alloc, input), NonAnyType::Error);
    let (rest, member) = word(alloc, input)?;
    Ok((rest, NonAnyType::ArrayBuffer(member)))
}

/// Reads `DataView` or an array of signed numbers, as `Int8Array`.
#[tactic(auto, using(crate::proofs::written::PlainTypeRules::signed_arrays_steps))]
pub(crate) fn signed_arrays<'a>(alloc: Global, input: &'a str) -> IResult<&'a str, NonAnyType<'a>>
    ensures reads { Answers (members signed_arrays_rules 14 non_any_type_tree ⊥) input.now result }
    ensures shorter { IfOk result (λ x. length x.0.now < length input.now) }
{
    read_or_next!(word(alloc, input), NonAnyType::DataView);
    read_or_next!(word(alloc, input), NonAnyType::Int8Array);
    read_or_next!(word(alloc, input), NonAnyType::Int16Array);
    let (rest, member) = word(alloc, input)?;
    Ok((rest, NonAnyType::Int32Array(member)))
}

/// Reads an array of unsigned numbers, as `Uint8Array`.
#[tactic(auto, using(crate::proofs::written::PlainTypeRules::unsigned_arrays_steps))]
pub(crate) fn unsigned_arrays<'a>(alloc: Global, input: &'a str) -> IResult<&'a str, NonAnyType<'a>>
    ensures reads { Answers (members unsigned_arrays_rules 18 non_any_type_tree ⊥) input.now
        result }
    ensures shorter { IfOk result (λ x. length x.0.now < length input.now) }
{
    read_or_next!(word(alloc, input), NonAnyType::Uint8Array);
    read_or_next!(word(alloc, input), NonAnyType::Uint16Array);
    read_or_next!(word(alloc, input), NonAnyType::Uint32Array);
    let (rest, member) = word(alloc, input)?;
    Ok((rest, NonAnyType::Uint8ClampedArray(member)))
}

/// Reads an array of floating point numbers, `ArrayBufferView` or `BufferSource`.
#[tactic(auto, using(crate::proofs::written::PlainTypeRules::float_arrays_steps))]
pub(crate) fn float_arrays<'a>(alloc: Global, input: &'a str) -> IResult<&'a str, NonAnyType<'a>>
    ensures reads { Answers (members float_arrays_rules 22 non_any_type_tree ⊥) input.now result }
    ensures shorter { IfOk result (λ x. length x.0.now < length input.now) }
{
    read_or_next!(word(alloc, input), NonAnyType::Float32Array);
    read_or_next!(word(alloc, input), NonAnyType::Float64Array);
    read_or_next!(word(alloc, input), NonAnyType::ArrayBufferView);
    let (rest, member) = word(alloc, input)?;
    Ok((rest, NonAnyType::BufferSource(member)))
}

/// Reads what is tried between promises and sequences, as `unsigned long?`.
#[tactic(auto, using(crate::proofs::written::PlainTypeRules::before_sequence_steps))]
pub(crate) fn before_sequence<'a>(alloc: Global, input: &'a str) -> IResult<&'a str, NonAnyType<'a>>
    ensures reads { Answers (members before_sequence_rules 1 non_any_type_tree ⊥) input.now result }
    ensures shorter { IfOk result (λ x. length x.0.now < length input.now) }
{
    read_or_next!(numbers(alloc, input));
    strings(alloc, input)
}

/// Reads what is tried between sequences and arrays that can't change, as `Uint8Array?`.
#[tactic(auto, using(crate::proofs::written::PlainTypeRules::after_sequence_steps))]
pub(crate) fn after_sequence<'a>(alloc: Global, input: &'a str) -> IResult<&'a str, NonAnyType<'a>>
    ensures reads { Answers (members after_sequence_rules 10 non_any_type_tree ⊥) input.now result }
    ensures shorter { IfOk result (λ x. length x.0.now < length input.now) }
{
    read_or_next!(objects(alloc, input));
    read_or_next!(signed_arrays(alloc, input));
    read_or_next!(unsigned_arrays(alloc, input));
    float_arrays(alloc, input)
}
