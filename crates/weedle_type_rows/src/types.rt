//! Types, each by its own `parse`: what is read, what is left, what copies are, and what is
//! answered where memory is refused.
//!
//! The values are those that weedle2 prints, in the port's names.

use std::test::Fail;
use weedle_testing::Wanted;
use weedle_types::types::{
    AttributedType, FrozenArrayType, PromiseType, RecordKeyType, RecordType, ReturnType,
    SequenceType, SingleType, Type, UnionMemberType,
};

#[test]
fn types_are_read_and_copied_or_want_memory(rt: HostRuntime) -> Result<(), Fail> {
    let alloc = rt.alloc();
    let mut wanted = Wanted::new();
    wanted.reads::<Type<'_>>(
        alloc,
        &[
            // A type that doesn't fit is a name.
            (
                "unsigned x",
                "x",
                "Single(NonAny(Identifier(MayBeNull { type_: Identifier(\"unsigned\"), q_mark: \
                 None })))",
            ),
            (
                "sequence<long",
                "<long",
                "Single(NonAny(Identifier(MayBeNull { type_: Identifier(\"sequence\"), q_mark: \
                 None })))",
            ),
            (
                "DOMStringMap",
                "",
                "Single(NonAny(Identifier(MayBeNull { type_: Identifier(\"DOMStringMap\"), \
                 q_mark: None })))",
            ),
            (
                "record<DOMString?, short>",
                "<DOMString?, short>",
                "Single(NonAny(Identifier(MayBeNull { type_: Identifier(\"record\"), q_mark: \
                 None })))",
            ),
            // A type ends where its words end.
            ("any?", "?", "Single(Any(Any))"),
            (
                "longé",
                "é",
                "Single(NonAny(Integer(MayBeNull { type_: Long(LongType { unsigned: None, \
                 long: Long }), q_mark: None })))",
            ),
            (
                "Promise<long>?",
                "?",
                "Single(NonAny(Promise(PromiseType { promise: Promise, generics: Generics { \
                 open_angle: LessThan, body: Type_(Single(NonAny(Integer(MayBeNull { type_: \
                 Long(LongType { unsigned: None, long: Long }), q_mark: None })))), \
                 close_angle: GreaterThan } })))",
            ),
            // A union holds its members.
            (
                "()",
                "",
                "Union(MayBeNull { type_: Parenthesized { open_paren: OpenParen, body: \
                 Punctuated { list: [], separator: Or }, close_paren: CloseParen }, q_mark: \
                 None })",
            ),
            (
                "((a or b)? or c)?",
                "",
                "Union(MayBeNull { type_: Parenthesized { open_paren: OpenParen, body: \
                 Punctuated { list: [Union(MayBeNull { type_: Parenthesized { open_paren: \
                 OpenParen, body: Punctuated { list: [Single(AttributedNonAnyType { \
                 attributes: None, type_: Identifier(MayBeNull { type_: Identifier(\"a\"), \
                 q_mark: None }) }), Single(AttributedNonAnyType { attributes: None, type_: \
                 Identifier(MayBeNull { type_: Identifier(\"b\"), q_mark: None }) })], \
                 separator: Or }, close_paren: CloseParen }, q_mark: Some(QMark) }), \
                 Single(AttributedNonAnyType { attributes: None, type_: Identifier(MayBeNull { \
                 type_: Identifier(\"c\"), q_mark: None }) })], separator: Or }, close_paren: \
                 CloseParen }, q_mark: Some(QMark) })",
            ),
            (
                "(any or b)",
                "",
                "Union(MayBeNull { type_: Parenthesized { open_paren: OpenParen, body: \
                 Punctuated { list: [Single(AttributedNonAnyType { attributes: None, type_: \
                 Identifier(MayBeNull { type_: Identifier(\"any\"), q_mark: None }) }), \
                 Single(AttributedNonAnyType { attributes: None, type_: Identifier(MayBeNull { \
                 type_: Identifier(\"b\"), q_mark: None }) })], separator: Or }, close_paren: \
                 CloseParen }, q_mark: None })",
            ),
            (
                "(long or or)",
                "",
                "Union(MayBeNull { type_: Parenthesized { open_paren: OpenParen, body: \
                 Punctuated { list: [Single(AttributedNonAnyType { attributes: None, type_: \
                 Integer(MayBeNull { type_: Long(LongType { unsigned: None, long: Long }), \
                 q_mark: None }) }), Single(AttributedNonAnyType { attributes: None, type_: \
                 Identifier(MayBeNull { type_: Identifier(\"or\"), q_mark: None }) })], \
                 separator: Or }, close_paren: CloseParen }, q_mark: None })",
            ),
            // A choice of types tells which it is.
            (
                "short",
                "",
                "Single(NonAny(Integer(MayBeNull { type_: Short(ShortType { unsigned: None, \
                 short: Short }), q_mark: None })))",
            ),
            (
                "(short or float)",
                "",
                "Union(MayBeNull { type_: Parenthesized { open_paren: OpenParen, body: \
                 Punctuated { list: [Single(AttributedNonAnyType { attributes: None, type_: \
                 Integer(MayBeNull { type_: Short(ShortType { unsigned: None, short: Short }), \
                 q_mark: None }) }), Single(AttributedNonAnyType { attributes: None, type_: \
                 FloatingPoint(MayBeNull { type_: Float(FloatType { unrestricted: None, float: \
                 Float }), q_mark: None }) })], separator: Or }, close_paren: CloseParen }, \
                 q_mark: None })",
            ),
            (
                "Promise<long>",
                "",
                "Single(NonAny(Promise(PromiseType { promise: Promise, generics: Generics { \
                 open_angle: LessThan, body: Type_(Single(NonAny(Integer(MayBeNull { type_: \
                 Long(LongType { unsigned: None, long: Long }), q_mark: None })))), \
                 close_angle: GreaterThan } })))",
            ),
        ],
        &["(a or)"],
    )?;
    wanted.reads::<ReturnType<'_>>(
        alloc,
        &[
            // A type that is returned tells which it is.
            ("undefined", "", "Undefined(Undefined)"),
            ("any", "", "Type_(Single(Any(Any)))"),
        ],
        &[],
    )?;
    wanted.reads::<SingleType<'_>>(
        alloc,
        &[
            // A single type tells which it is.
            ("any", "", "Any(Any)"),
            (
                "Promise<short>",
                "",
                "NonAny(Promise(PromiseType { promise: Promise, generics: Generics { \
                 open_angle: LessThan, body: Type_(Single(NonAny(Integer(MayBeNull { type_: \
                 Short(ShortType { unsigned: None, short: Short }), q_mark: None })))), \
                 close_angle: GreaterThan } }))",
            ),
        ],
        &[],
    )?;
    assert!(rt; wanted.tell(&rt, alloc));
    Ok(())
}

#[test]
fn types_that_hold_one_are_read_and_copied_or_want_memory(rt: HostRuntime) -> Result<(), Fail> {
    let alloc = rt.alloc();
    let mut wanted = Wanted::new();
    wanted.reads::<SequenceType<'_>>(
        alloc,
        &[
            // A type is printed with its names.
            (
                "sequence<short>",
                "",
                "SequenceType { sequence: Sequence, generics: Generics { open_angle: LessThan, \
                 body: Single(NonAny(Integer(MayBeNull { type_: Short(ShortType { unsigned: \
                 None, short: Short }), q_mark: None }))), close_angle: GreaterThan } }",
            ),
            (
                "sequence<any>",
                "",
                "SequenceType { sequence: Sequence, generics: Generics { open_angle: LessThan, \
                 body: Single(Any(Any)), close_angle: GreaterThan } }",
            ),
        ],
        &[],
    )?;
    wanted.reads::<FrozenArrayType<'_>>(
        alloc,
        &[
            // A frozen array holds a type.
            (
                "FrozenArray<short>",
                "",
                "FrozenArrayType { frozen_array: FrozenArray, generics: Generics { open_angle: \
                 LessThan, body: Single(NonAny(Integer(MayBeNull { type_: Short(ShortType { \
                 unsigned: None, short: Short }), q_mark: None }))), close_angle: GreaterThan \
                 } }",
            ),
        ],
        &[],
    )?;
    wanted.reads::<PromiseType<'_>>(
        alloc,
        &[
            // A promise holds a type.
            (
                "Promise<short>",
                "",
                "PromiseType { promise: Promise, generics: Generics { open_angle: LessThan, \
                 body: Type_(Single(NonAny(Integer(MayBeNull { type_: Short(ShortType { \
                 unsigned: None, short: Short }), q_mark: None })))), close_angle: GreaterThan \
                 } }",
            ),
        ],
        &[],
    )?;
    wanted.reads::<RecordType<'_>>(
        alloc,
        &[
            // A type may hold types.
            (
                "record<DOMString, short>",
                "",
                "RecordType { record_: Record, generics: Generics { open_angle: LessThan, \
                 body: RecordTypes(DOM(DOMString), Comma, Single(NonAny(Integer(MayBeNull { \
                 type_: Short(ShortType { unsigned: None, short: Short }), q_mark: None })))), \
                 close_angle: GreaterThan } }",
            ),
            (
                "record<u64, short>",
                "",
                "RecordType { record_: Record, generics: Generics { open_angle: LessThan, \
                 body: RecordTypes(NonAny(Identifier(MayBeNull { type_: Identifier(\"u64\"), \
                 q_mark: None })), Comma, Single(NonAny(Integer(MayBeNull { type_: \
                 Short(ShortType { unsigned: None, short: Short }), q_mark: None })))), \
                 close_angle: GreaterThan } }",
            ),
            (
                "record<DOMString, a>",
                "",
                "RecordType { record_: Record, generics: Generics { open_angle: LessThan, \
                 body: RecordTypes(DOM(DOMString), Comma, Single(NonAny(Identifier(MayBeNull { \
                 type_: Identifier(\"a\"), q_mark: None })))), close_angle: GreaterThan } }",
            ),
        ],
        &["record<DOMString?, short>"],
    )?;
    assert!(rt; wanted.tell(&rt, alloc));
    Ok(())
}

#[test]
fn parts_of_types_are_read_and_copied_or_want_memory(rt: HostRuntime) -> Result<(), Fail> {
    let alloc = rt.alloc();
    let mut wanted = Wanted::new();
    wanted.reads::<AttributedType<'_>>(
        alloc,
        &[
            // A type keeps its attributes.
            (
                "[Named] short",
                "",
                "AttributedType { attributes: Some(Bracketed { open_bracket: OpenBracket, \
                 body: Punctuated { list: \
                 [NoArgs(ExtendedAttributeNoArgs(Identifier(\"Named\")))], separator: Comma }, \
                 close_bracket: CloseBracket }), type_: Single(NonAny(Integer(MayBeNull { \
                 type_: Short(ShortType { unsigned: None, short: Short }), q_mark: None }))) }",
            ),
            (
                "short",
                "",
                "AttributedType { attributes: None, type_: Single(NonAny(Integer(MayBeNull { \
                 type_: Short(ShortType { unsigned: None, short: Short }), q_mark: None }))) }",
            ),
        ],
        &[],
    )?;
    wanted.reads::<UnionMemberType<'_>>(
        alloc,
        &[
            // A member of a union keeps its attributes.
            (
                "byte",
                "",
                "Single(AttributedNonAnyType { attributes: None, type_: Byte(MayBeNull { \
                 type_: Byte, q_mark: None }) })",
            ),
            (
                "([Clamp] byte or [Named] byte)",
                "",
                "Union(MayBeNull { type_: Parenthesized { open_paren: OpenParen, body: \
                 Punctuated { list: [Single(AttributedNonAnyType { attributes: Some(Bracketed \
                 { open_bracket: OpenBracket, body: Punctuated { list: \
                 [NoArgs(ExtendedAttributeNoArgs(Identifier(\"Clamp\")))], separator: Comma }, \
                 close_bracket: CloseBracket }), type_: Byte(MayBeNull { type_: Byte, q_mark: \
                 None }) }), Single(AttributedNonAnyType { attributes: Some(Bracketed { \
                 open_bracket: OpenBracket, body: Punctuated { list: \
                 [NoArgs(ExtendedAttributeNoArgs(Identifier(\"Named\")))], separator: Comma }, \
                 close_bracket: CloseBracket }), type_: Byte(MayBeNull { type_: Byte, q_mark: \
                 None }) })], separator: Or }, close_paren: CloseParen }, q_mark: None })",
            ),
            (
                "([Clamp] unsigned long or byte)",
                "",
                "Union(MayBeNull { type_: Parenthesized { open_paren: OpenParen, body: \
                 Punctuated { list: [Single(AttributedNonAnyType { attributes: Some(Bracketed \
                 { open_bracket: OpenBracket, body: Punctuated { list: \
                 [NoArgs(ExtendedAttributeNoArgs(Identifier(\"Clamp\")))], separator: Comma }, \
                 close_bracket: CloseBracket }), type_: Integer(MayBeNull { type_: \
                 Long(LongType { unsigned: Some(Unsigned), long: Long }), q_mark: None }) }), \
                 Single(AttributedNonAnyType { attributes: None, type_: Byte(MayBeNull { \
                 type_: Byte, q_mark: None }) })], separator: Or }, close_paren: CloseParen }, \
                 q_mark: None })",
            ),
        ],
        &[],
    )?;
    wanted.reads::<RecordKeyType<'_>>(
        alloc,
        &[
            // A key of a record tells which it is.
            ("ByteString", "", "Byte(ByteString)"),
            ("DOMString", "", "DOM(DOMString)"),
            ("USVString", "", "USV(USVString)"),
        ],
        &[],
    )?;
    assert!(rt; wanted.tell(&rt, alloc));
    Ok(())
}
