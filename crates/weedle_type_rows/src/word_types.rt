//! Types beside `any`, by their own `parse`: words and what holds others. That each word turns into
//! its variant is proved.
//!
//! The values are those that weedle2 prints, in the port's names.

use std::test::Fail;
use weedle_testing::Wanted;
use weedle_types::types::NonAnyType;

#[test]
fn types_beside_any_are_read_and_copied_or_want_memory(rt: HostRuntime) -> Result<(), Fail> {
    let alloc = rt.alloc();
    let mut wanted = Wanted::new();
    wanted.reads::<NonAnyType<'_>>(
        alloc,
        &[
            // A type that isn't any is the first that fits.
            (
                "Promise<long>",
                "",
                "Promise(PromiseType { promise: Promise, generics: Generics { open_angle: \
                 LessThan, body: Type_(Single(NonAny(Integer(MayBeNull { type_: Long(LongType \
                 { unsigned: None, long: Long }), q_mark: None })))), close_angle: GreaterThan \
                 } })",
            ),
            (
                "long",
                "",
                "Integer(MayBeNull { type_: Long(LongType { unsigned: None, long: Long }), \
                 q_mark: None })",
            ),
            (
                "float",
                "",
                "FloatingPoint(MayBeNull { type_: Float(FloatType { unrestricted: None, float: \
                 Float }), q_mark: None })",
            ),
            (
                "sequence<short>",
                "",
                "Sequence(MayBeNull { type_: SequenceType { sequence: Sequence, generics: \
                 Generics { open_angle: LessThan, body: Single(NonAny(Integer(MayBeNull { \
                 type_: Short(ShortType { unsigned: None, short: Short }), q_mark: None }))), \
                 close_angle: GreaterThan } }, q_mark: None })",
            ),
            (
                "FrozenArray<short>",
                "",
                "FrozenArrayType(MayBeNull { type_: FrozenArrayType { frozen_array: \
                 FrozenArray, generics: Generics { open_angle: LessThan, body: \
                 Single(NonAny(Integer(MayBeNull { type_: Short(ShortType { unsigned: None, \
                 short: Short }), q_mark: None }))), close_angle: GreaterThan } }, q_mark: \
                 None })",
            ),
            (
                "record<DOMString, short>",
                "",
                "RecordType(MayBeNull { type_: RecordType { record_: Record, generics: \
                 Generics { open_angle: LessThan, body: RecordTypes(DOM(DOMString), Comma, \
                 Single(NonAny(Integer(MayBeNull { type_: Short(ShortType { unsigned: None, \
                 short: Short }), q_mark: None })))), close_angle: GreaterThan } }, q_mark: \
                 None })",
            ),
            (
                "mango",
                "",
                r#"Identifier(MayBeNull { type_: Identifier("mango"), q_mark: None })"#,
            ),
            // A word is its type.
            (
                "boolean",
                "",
                "Boolean(MayBeNull { type_: Boolean, q_mark: None })",
            ),
            ("byte", "", "Byte(MayBeNull { type_: Byte, q_mark: None })"),
            (
                "octet",
                "",
                "Octet(MayBeNull { type_: Octet, q_mark: None })",
            ),
            (
                "ByteString",
                "",
                "ByteString(MayBeNull { type_: ByteString, q_mark: None })",
            ),
            (
                "DOMString",
                "",
                "DOMString(MayBeNull { type_: DOMString, q_mark: None })",
            ),
            (
                "USVString",
                "",
                "USVString(MayBeNull { type_: USVString, q_mark: None })",
            ),
            (
                "object",
                "",
                "Object(MayBeNull { type_: Object, q_mark: None })",
            ),
            (
                "symbol",
                "",
                "Symbol(MayBeNull { type_: Symbol, q_mark: None })",
            ),
            (
                "Error",
                "",
                "Error(MayBeNull { type_: Error, q_mark: None })",
            ),
            // A buffer is its type.
            (
                "ArrayBuffer",
                "",
                "ArrayBuffer(MayBeNull { type_: ArrayBuffer, q_mark: None })",
            ),
            (
                "DataView",
                "",
                "DataView(MayBeNull { type_: DataView, q_mark: None })",
            ),
            (
                "Int8Array",
                "",
                "Int8Array(MayBeNull { type_: Int8Array, q_mark: None })",
            ),
            (
                "Int16Array",
                "",
                "Int16Array(MayBeNull { type_: Int16Array, q_mark: None })",
            ),
            (
                "Int32Array",
                "",
                "Int32Array(MayBeNull { type_: Int32Array, q_mark: None })",
            ),
            (
                "Uint8Array",
                "",
                "Uint8Array(MayBeNull { type_: Uint8Array, q_mark: None })",
            ),
            (
                "Uint16Array",
                "",
                "Uint16Array(MayBeNull { type_: Uint16Array, q_mark: None })",
            ),
            (
                "Uint32Array",
                "",
                "Uint32Array(MayBeNull { type_: Uint32Array, q_mark: None })",
            ),
            (
                "Uint8ClampedArray",
                "",
                "Uint8ClampedArray(MayBeNull { type_: Uint8ClampedArray, q_mark: None })",
            ),
            (
                "Float32Array",
                "",
                "Float32Array(MayBeNull { type_: Float32Array, q_mark: None })",
            ),
            (
                "Float64Array",
                "",
                "Float64Array(MayBeNull { type_: Float64Array, q_mark: None })",
            ),
            (
                "ArrayBufferView",
                "",
                "ArrayBufferView(MayBeNull { type_: ArrayBufferView, q_mark: None })",
            ),
            (
                "BufferSource",
                "",
                "BufferSource(MayBeNull { type_: BufferSource, q_mark: None })",
            ),
        ],
        &[],
    )?;
    assert!(rt; wanted.tell(&rt, alloc));
    Ok(())
}
