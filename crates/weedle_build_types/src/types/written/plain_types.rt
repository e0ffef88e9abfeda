//! The types that hold no other type, four at a time, in the order of the variants of
//! [`NonAnyType`].

ghost use Rattle.std.specs.Prelude.{◌≢◌, ◌≤◌};
ghost use Rattle.weedle_grammar.specs.written.Table.Types.{NON_ANY_TYPE};
ghost use Rattle.weedle_types.specs.Trees.{non_any_type_tree};
ghost use Rattle.weedle_build_base.specs.Built.{Answers, IsChosen};

use std::alloc::Global;
use weedle_base::term::{
    ArrayBuffer, ArrayBufferView, Boolean, BufferSource, Byte, ByteString, DOMString, DataView,
    Error, Float32Array, Float64Array, Int8Array, Int16Array, Int32Array, Object, Octet, Symbol,
    USVString, Uint8Array, Uint8ClampedArray, Uint16Array, Uint32Array,
};
use weedle_build_base::{At, BuildResult, Table, alternative};
use weedle_parts::common::Identifier;
use weedle_parts::types::{FloatingPointType, IntegerType, MayBeNull};
use weedle_rules::Rule;
use weedle_types::types::NonAnyType;

/// Builds a type that holds no other, as `long?`: the variant of this number, which is the first
/// that fits.
pub(crate) fn plain_type<'a>(
    alloc: Global,
    table: Table<'_, 'a>,
    number: usize,
    at: At,
) -> BuildResult<NonAnyType<'a>>
    requires chosen { IsChosen table.text.now NON_ANY_TYPE at.place number }
    requires plain { (number ≢ 0) × (number ≢ 9) × (number ≢ 26) × (number ≢ 27) }
    ensures { Answers table.entry.text.now NON_ANY_TYPE non_any_type_tree at.place at.visits
        result }
{
    match number {
        1..=4 => numbers(alloc, table, number, at),
        5..=8 => strings(alloc, table, number, at),
        10..=13 => objects(alloc, table, number, at),
        14..=17 => signed_arrays(alloc, table, number, at),
        18..=21 => unsigned_arrays(alloc, table, number, at),
        22..=25 => float_arrays(alloc, table, number, at),
        28 => {
            let (member, at) = alternative::<MayBeNull<Identifier>>(
                alloc,
                table,
                Rule::NON_ANY_TYPE,
                28,
                at,
            )?;
            Ok((NonAnyType::Identifier(member), at))
        }
        _ => unreachable!(),
    }
}

/// Builds a type of numbers, `boolean` or `byte`, as `unsigned long?`.
fn numbers<'a>(
    alloc: Global,
    table: Table<'_, 'a>,
    number: usize,
    at: At,
) -> BuildResult<NonAnyType<'a>>
    requires chosen { IsChosen table.text.now NON_ANY_TYPE at.place number }
    requires range { (1 ≤ number) × (number ≤ 4) }
    ensures { Answers table.entry.text.now NON_ANY_TYPE non_any_type_tree at.place at.visits
        result }
{
    let rule = Rule::NON_ANY_TYPE;
    match number {
        1 => {
            let (member, at) = alternative::<MayBeNull<IntegerType>>(alloc, table, rule, 1, at)?;
            Ok((NonAnyType::Integer(member), at))
        }
        2 => {
            let (member, at) = alternative::<MayBeNull<FloatingPointType>>(
                alloc, table, rule, 2, at,
            )?;
            Ok((NonAnyType::FloatingPoint(member), at))
        }
        3 => {
            let (member, at) = alternative::<MayBeNull<Boolean>>(alloc, table, rule, 3, at)?;
            Ok((NonAnyType::Boolean(member), at))
        }
        4 => {
            let (member, at) = alternative::<MayBeNull<Byte>>(alloc, table, rule, 4, at)?;
            Ok((NonAnyType::Byte(member), at))
        }
        _ => unreachable!(),
    }
}

/// Builds `octet`, `ByteString`, `DOMString` or `USVString`.
fn strings<'a>(
    alloc: Global,
    table: Table<'_, 'a>,
    number: usize,
    at: At,
) -> BuildResult<NonAnyType<'a>>
    requires chosen { IsChosen table.text.now NON_ANY_TYPE at.place number }
    requires range { (5 ≤ number) × (number ≤ 8) }
    ensures { Answers table.entry.text.now NON_ANY_TYPE non_any_type_tree at.place at.visits
        result }
{
    let rule = Rule::NON_ANY_TYPE;
    match number {
        5 => {
            let (member, at) = alternative::<MayBeNull<Octet>>(alloc, table, rule, 5, at)?;
            Ok((NonAnyType::Octet(member), at))
        }
        6 => {
            let (member, at) = alternative::<MayBeNull<ByteString>>(alloc, table, rule, 6, at)?;
            Ok((NonAnyType::ByteString(member), at))
        }
        7 => {
            let (member, at) = alternative::<MayBeNull<DOMString>>(alloc, table, rule, 7, at)?;
            Ok((NonAnyType::DOMString(member), at))
        }
        8 => {
            let (member, at) = alternative::<MayBeNull<USVString>>(alloc, table, rule, 8, at)?;
            Ok((NonAnyType::USVString(member), at))
        }
        _ => unreachable!(),
    }
}

/// Builds `object`, `symbol`, `Error` or `ArrayBuffer`.
fn objects<'a>(
    alloc: Global,
    table: Table<'_, 'a>,
    number: usize,
    at: At,
) -> BuildResult<NonAnyType<'a>>
    requires chosen { IsChosen table.text.now NON_ANY_TYPE at.place number }
    requires range { (10 ≤ number) × (number ≤ 13) }
    ensures { Answers table.entry.text.now NON_ANY_TYPE non_any_type_tree at.place at.visits
        result }
{
    let rule = Rule::NON_ANY_TYPE;
    match number {
        10 => {
            let (member, at) = alternative::<MayBeNull<Object>>(alloc, table, rule, 10, at)?;
            Ok((NonAnyType::Object(member), at))
        }
        11 => {
            let (member, at) = alternative::<MayBeNull<Symbol>>(alloc, table, rule, 11, at)?;
            Ok((NonAnyType::Symbol(member), at))
        }
        12 => {
            let (member, at) = alternative::<MayBeNull<Error>>(alloc, table, rule, 12, at)?;
            Ok((NonAnyType::Error(member), at))
        }
        13 => {
            let (member, at) = alternative::<MayBeNull<ArrayBuffer>>(alloc, table, rule, 13, at)?;
            Ok((NonAnyType::ArrayBuffer(member), at))
        }
        _ => unreachable!(),
    }
}

/// Builds `DataView` or an array of signed numbers, as `Int8Array`.
fn signed_arrays<'a>(
    alloc: Global,
    table: Table<'_, 'a>,
    number: usize,
    at: At,
) -> BuildResult<NonAnyType<'a>>
    requires chosen { IsChosen table.text.now NON_ANY_TYPE at.place number }
    requires range { (14 ≤ number) × (number ≤ 17) }
    ensures { Answers table.entry.text.now NON_ANY_TYPE non_any_type_tree at.place at.visits
        result }
{
    let rule = Rule::NON_ANY_TYPE;
    match number {
        14 => {
            let (member, at) = alternative::<MayBeNull<DataView>>(alloc, table, rule, 14, at)?;
            Ok((NonAnyType::DataView(member), at))
        }
        15 => {
            let (member, at) = alternative::<MayBeNull<Int8Array>>(alloc, table, rule, 15, at)?;
            Ok((NonAnyType::Int8Array(member), at))
        }
        16 => {
            let (member, at) = alternative::<MayBeNull<Int16Array>>(alloc, table, rule, 16, at)?;
            Ok((NonAnyType::Int16Array(member), at))
        }
        17 => {
            let (member, at) = alternative::<MayBeNull<Int32Array>>(alloc, table, rule, 17, at)?;
            Ok((NonAnyType::Int32Array(member), at))
        }
        _ => unreachable!(),
    }
}

/// Builds an array of unsigned numbers, as `Uint8Array`.
fn unsigned_arrays<'a>(
    alloc: Global,
    table: Table<'_, 'a>,
    number: usize,
    at: At,
) -> BuildResult<NonAnyType<'a>>
    requires chosen { IsChosen table.text.now NON_ANY_TYPE at.place number }
    requires range { (18 ≤ number) × (number ≤ 21) }
    ensures { Answers table.entry.text.now NON_ANY_TYPE non_any_type_tree at.place at.visits
        result }
{
    let rule = Rule::NON_ANY_TYPE;
    match number {
        18 => {
            let (member, at) = alternative::<MayBeNull<Uint8Array>>(alloc, table, rule, 18, at)?;
            Ok((NonAnyType::Uint8Array(member), at))
        }
        19 => {
            let (member, at) = alternative::<MayBeNull<Uint16Array>>(alloc, table, rule, 19, at)?;
            Ok((NonAnyType::Uint16Array(member), at))
        }
        20 => {
            let (member, at) = alternative::<MayBeNull<Uint32Array>>(alloc, table, rule, 20, at)?;
            Ok((NonAnyType::Uint32Array(member), at))
        }
        21 => {
            let (member, at) = alternative::<MayBeNull<Uint8ClampedArray>>(
                alloc, table, rule, 21, at,
            )?;
            Ok((NonAnyType::Uint8ClampedArray(member), at))
        }
        _ => unreachable!(),
    }
}

/// Builds an array of floating point numbers, `ArrayBufferView` or `BufferSource`.
fn float_arrays<'a>(
    alloc: Global,
    table: Table<'_, 'a>,
    number: usize,
    at: At,
) -> BuildResult<NonAnyType<'a>>
    requires chosen { IsChosen table.text.now NON_ANY_TYPE at.place number }
    requires range { (22 ≤ number) × (number ≤ 25) }
    ensures { Answers table.entry.text.now NON_ANY_TYPE non_any_type_tree at.place at.visits
        result }
{
    let rule = Rule::NON_ANY_TYPE;
    match number {
        22 => {
            let (member, at) = alternative::<MayBeNull<Float32Array>>(alloc, table, rule, 22, at)?;
            Ok((NonAnyType::Float32Array(member), at))
        }
        23 => {
            let (member, at) = alternative::<MayBeNull<Float64Array>>(alloc, table, rule, 23, at)?;
            Ok((NonAnyType::Float64Array(member), at))
        }
        24 => {
            let (member, at) = alternative::<MayBeNull<ArrayBufferView>>(
                alloc, table, rule, 24, at,
            )?;
            Ok((NonAnyType::ArrayBufferView(member), at))
        }
        25 => {
            let (member, at) = alternative::<MayBeNull<BufferSource>>(alloc, table, rule, 25, at)?;
            Ok((NonAnyType::BufferSource(member), at))
        }
        _ => unreachable!(),
    }
}
