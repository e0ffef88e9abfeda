//! Arguments, each by its own `parse`, also where memory is refused. One could be read as no other
//! where its extended attributes were dropped: `[A] long... x`.
//!
//! The values are those that weedle2 prints, in the port's names.

use std::test::Fail;
use weedle_testing::Wanted;
use weedle_types::argument::{Argument, ArgumentList, SingleArgument};

#[test]
fn arguments_are_read_and_copied_or_want_memory(rt: HostRuntime) -> Result<(), Fail> {
    let alloc = rt.alloc();
    let mut wanted = Wanted::new();
    wanted.reads::<Argument<'_>>(
        alloc,
        &[
            // An argument keeps its attributes apart from its types.
            (
                "[A] [B] long x",
                "",
                "Single(SingleArgument { attributes: Some(Bracketed { open_bracket: \
                 OpenBracket, body: Punctuated { list: \
                 [NoArgs(ExtendedAttributeNoArgs(Identifier(\"A\")))], separator: Comma }, \
                 close_bracket: CloseBracket }), optional: None, type_: AttributedType { \
                 attributes: Some(Bracketed { open_bracket: OpenBracket, body: Punctuated { \
                 list: [NoArgs(ExtendedAttributeNoArgs(Identifier(\"B\")))], separator: Comma \
                 }, close_bracket: CloseBracket }), type_: Single(NonAny(Integer(MayBeNull { \
                 type_: Long(LongType { unsigned: None, long: Long }), q_mark: None }))) }, \
                 identifier: Identifier(\"x\"), default: None })",
            ),
            (
                "[A] long x",
                "",
                "Single(SingleArgument { attributes: Some(Bracketed { open_bracket: \
                 OpenBracket, body: Punctuated { list: \
                 [NoArgs(ExtendedAttributeNoArgs(Identifier(\"A\")))], separator: Comma }, \
                 close_bracket: CloseBracket }), optional: None, type_: AttributedType { \
                 attributes: None, type_: Single(NonAny(Integer(MayBeNull { type_: \
                 Long(LongType { unsigned: None, long: Long }), q_mark: None }))) }, \
                 identifier: Identifier(\"x\"), default: None })",
            ),
            // A default follows an optional argument.
            (
                "long x = 5",
                "= 5",
                "Single(SingleArgument { attributes: None, optional: None, type_: \
                 AttributedType { attributes: None, type_: Single(NonAny(Integer(MayBeNull { \
                 type_: Long(LongType { unsigned: None, long: Long }), q_mark: None }))) }, \
                 identifier: Identifier(\"x\"), default: None })",
            ),
            (
                "optional long x = 5",
                "",
                "Single(SingleArgument { attributes: None, optional: Some(Optional), type_: \
                 AttributedType { attributes: None, type_: Single(NonAny(Integer(MayBeNull { \
                 type_: Long(LongType { unsigned: None, long: Long }), q_mark: None }))) }, \
                 identifier: Identifier(\"x\"), default: Some(Default { assign: Assign, value: \
                 Integer(Dec(DecLit(\"5\"))) }) })",
            ),
            // An argument may stand for any number.
            (
                "optional... x",
                "",
                "Variadic(VariadicArgument { attributes: None, type_: \
                 Single(NonAny(Identifier(MayBeNull { type_: Identifier(\"optional\"), q_mark: \
                 None }))), ellipsis: Ellipsis, identifier: Identifier(\"x\") })",
            ),
            (
                "[A] long... x",
                "",
                "Variadic(VariadicArgument { attributes: Some(Bracketed { open_bracket: \
                 OpenBracket, body: Punctuated { list: \
                 [NoArgs(ExtendedAttributeNoArgs(Identifier(\"A\")))], separator: Comma }, \
                 close_bracket: CloseBracket }), type_: Single(NonAny(Integer(MayBeNull { \
                 type_: Long(LongType { unsigned: None, long: Long }), q_mark: None }))), \
                 ellipsis: Ellipsis, identifier: Identifier(\"x\") })",
            ),
        ],
        &["optional x"],
    )?;
    wanted.reads::<SingleArgument<'_>>(
        alloc,
        &[
            // A single argument is read alone.
            (
                "optional long x",
                "",
                "SingleArgument { attributes: None, optional: Some(Optional), type_: \
                 AttributedType { attributes: None, type_: Single(NonAny(Integer(MayBeNull { \
                 type_: Long(LongType { unsigned: None, long: Long }), q_mark: None }))) }, \
                 identifier: Identifier(\"x\"), default: None }",
            ),
        ],
        &[],
    )?;
    wanted.reads::<ArgumentList<'_>>(
        alloc,
        &[
            // A list of arguments doesn't take a separator that no item follows.
            (
                "long x, long",
                ", long",
                "Punctuated { list: [Single(SingleArgument { attributes: None, optional: None, \
                 type_: AttributedType { attributes: None, type_: \
                 Single(NonAny(Integer(MayBeNull { type_: Long(LongType { unsigned: None, \
                 long: Long }), q_mark: None }))) }, identifier: Identifier(\"x\"), default: \
                 None })], separator: Comma }",
            ),
            ("", "", "Punctuated { list: [], separator: Comma }"),
            (
                "long x",
                "",
                "Punctuated { list: [Single(SingleArgument { attributes: None, optional: None, \
                 type_: AttributedType { attributes: None, type_: \
                 Single(NonAny(Integer(MayBeNull { type_: Long(LongType { unsigned: None, \
                 long: Long }), q_mark: None }))) }, identifier: Identifier(\"x\"), default: \
                 None })], separator: Comma }",
            ),
        ],
        &[],
    )?;
    assert!(rt; wanted.tell(&rt, alloc));
    Ok(())
}
