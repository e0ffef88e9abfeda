//! Members of interfaces, mixins, namespaces and dictionaries, each by its own `parse`, also where
//! memory is refused.
//!
//! Those of an interface are read as lists, since the same over a member itself meets the prover's
//! limit of steps, where two types are compared. The values are those that weedle2 prints, in the
//! port's names. A constant of `0x`, which it reads, is refused here, by hand from the grammar.

use std::test::Fail;
use weedle_interfaces::InterfaceMember;
use weedle_mixins::mixin::MixinMember;
use weedle_namespaces::dictionary::DictionaryMember;
use weedle_namespaces::namespace::NamespaceMember;
use weedle_parts::inheritance::Inheritance;
use weedle_parts::modifier::{Special, StringifierOrInheritOrStatic, StringifierOrStatic};
use weedle_testing::{Wanted, reads_with_no_memory};

#[test]
fn members_of_interfaces_are_read_and_copied_or_want_memory(rt: HostRuntime) -> Result<(), Fail> {
    let alloc = rt.alloc();
    let mut wanted = Wanted::new();
    wanted.reads::<Vec<InterfaceMember<'_>>>(
        alloc,
        &[
            // An iterable member has one type or two.
            (
                "[A] iterable<long, long>;",
                "",
                "[Iterable(Double(DoubleTypedIterable { attributes: Some(Bracketed { \
                 open_bracket: OpenBracket, body: Punctuated { list: \
                 [NoArgs(ExtendedAttributeNoArgs(Identifier(\"A\")))], separator: Comma }, \
                 close_bracket: CloseBracket }), iterable: Iterable, generics: Generics { \
                 open_angle: LessThan, body: (AttributedType { attributes: None, type_: \
                 Single(NonAny(Integer(MayBeNull { type_: Long(LongType { unsigned: None, \
                 long: Long }), q_mark: None }))) }, Comma, AttributedType { attributes: None, \
                 type_: Single(NonAny(Integer(MayBeNull { type_: Long(LongType { unsigned: \
                 None, long: Long }), q_mark: None }))) }), close_angle: GreaterThan }, \
                 semi_colon: SemiColon }))]",
            ),
            (
                "async iterable<long>(long x);",
                "",
                "[AsyncIterable(Single(SingleTypedAsyncIterable { attributes: None, \
                 async_iterable: (Async, Iterable), generics: Generics { open_angle: LessThan, \
                 body: AttributedType { attributes: None, type_: \
                 Single(NonAny(Integer(MayBeNull { type_: Long(LongType { unsigned: None, \
                 long: Long }), q_mark: None }))) }, close_angle: GreaterThan }, args: \
                 Some(ParenthesizedArgumentList { open_paren: OpenParen, body: Punctuated { \
                 list: [Single(SingleArgument { attributes: None, optional: None, type_: \
                 AttributedType { attributes: None, type_: Single(NonAny(Integer(MayBeNull { \
                 type_: Long(LongType { unsigned: None, long: Long }), q_mark: None }))) }, \
                 identifier: Identifier(\"x\"), default: None })], separator: Comma }, \
                 close_paren: CloseParen }), semi_colon: SemiColon }))]",
            ),
            (
                "async iterable<long, K>;",
                "",
                "[AsyncIterable(Double(DoubleTypedAsyncIterable { attributes: None, \
                 async_iterable: (Async, Iterable), generics: Generics { open_angle: LessThan, \
                 body: (AttributedType { attributes: None, type_: \
                 Single(NonAny(Integer(MayBeNull { type_: Long(LongType { unsigned: None, \
                 long: Long }), q_mark: None }))) }, Comma, AttributedType { attributes: None, \
                 type_: Single(NonAny(Identifier(MayBeNull { type_: Identifier(\"K\"), q_mark: \
                 None }))) }), close_angle: GreaterThan }, args: None, semi_colon: SemiColon \
                 }))]",
            ),
            // A member may be like a map or a set.
            (
                "readonly maplike<K, V>;",
                "",
                "[Maplike(MaplikeInterfaceMember { attributes: None, readonly: Some(ReadOnly), \
                 maplike: Maplike, generics: Generics { open_angle: LessThan, body: \
                 (AttributedType { attributes: None, type_: Single(NonAny(Identifier(MayBeNull \
                 { type_: Identifier(\"K\"), q_mark: None }))) }, Comma, AttributedType { \
                 attributes: None, type_: Single(NonAny(Identifier(MayBeNull { type_: \
                 Identifier(\"V\"), q_mark: None }))) }), close_angle: GreaterThan }, \
                 semi_colon: SemiColon })]",
            ),
            (
                "setlike<K>;",
                "",
                "[Setlike(SetlikeInterfaceMember { attributes: None, readonly: None, setlike: \
                 Setlike, generics: Generics { open_angle: LessThan, body: AttributedType { \
                 attributes: None, type_: Single(NonAny(Identifier(MayBeNull { type_: \
                 Identifier(\"K\"), q_mark: None }))) }, close_angle: GreaterThan }, \
                 semi_colon: SemiColon })]",
            ),
            // An operation may have no name.
            (
                "constructor();",
                "",
                "[Constructor(ConstructorInterfaceMember { docstring: None, attributes: None, \
                 constructor: Constructor, args: ParenthesizedArgumentList { open_paren: \
                 OpenParen, body: Punctuated { list: [], separator: Comma }, close_paren: \
                 CloseParen }, semi_colon: SemiColon })]",
            ),
            (
                "getter any (long i);",
                "",
                "[Operation(OperationInterfaceMember { docstring: None, attributes: None, \
                 modifier: None, special: Some(Getter(Getter)), return_type: \
                 Type_(Single(Any(Any))), identifier: None, args: ParenthesizedArgumentList { \
                 open_paren: OpenParen, body: Punctuated { list: [Single(SingleArgument { \
                 attributes: None, optional: None, type_: AttributedType { attributes: None, \
                 type_: Single(NonAny(Integer(MayBeNull { type_: Long(LongType { unsigned: \
                 None, long: Long }), q_mark: None }))) }, identifier: Identifier(\"i\"), \
                 default: None })], separator: Comma }, close_paren: CloseParen }, semi_colon: \
                 SemiColon })]",
            ),
            (
                "stringifier;",
                "",
                "[Stringifier(StringifierMember { attributes: None, stringifier: Stringifier, \
                 semi_colon: SemiColon })]",
            ),
            // A constant has no docstring.
            (
                "const long X = 0;",
                "",
                "[Const(ConstMember { attributes: None, const_: Const, const_type: \
                 Integer(MayBeNull { type_: Long(LongType { unsigned: None, long: Long }), \
                 q_mark: None }), identifier: Identifier(\"X\"), assign: Assign, const_value: \
                 Integer(Oct(OctLit(\"0\"))), semi_colon: SemiColon })]",
            ),
            // An attribute may be modified.
            (
                "inherit attribute long x;",
                "",
                "[Attribute(AttributeInterfaceMember { attributes: None, modifier: \
                 Some(Inherit(Inherit)), readonly: None, attribute: Attribute, type_: \
                 AttributedType { attributes: None, type_: Single(NonAny(Integer(MayBeNull { \
                 type_: Long(LongType { unsigned: None, long: Long }), q_mark: None }))) }, \
                 identifier: Identifier(\"x\"), semi_colon: SemiColon })]",
            ),
            (
                "[A] setlike<K>;",
                "",
                "[Setlike(SetlikeInterfaceMember { attributes: Some(Bracketed { open_bracket: \
                 OpenBracket, body: Punctuated { list: \
                 [NoArgs(ExtendedAttributeNoArgs(Identifier(\"A\")))], separator: Comma }, \
                 close_bracket: CloseBracket }), readonly: None, setlike: Setlike, generics: \
                 Generics { open_angle: LessThan, body: AttributedType { attributes: None, \
                 type_: Single(NonAny(Identifier(MayBeNull { type_: Identifier(\"K\"), q_mark: \
                 None }))) }, close_angle: GreaterThan }, semi_colon: SemiColon })]",
            ),
            // What no member is stays behind a list.
            ("stringifier();", "stringifier();", "[]"),
            ("///d\nconst long X = 0;", "///d\nconst long X = 0;", "[]"),
            ("const long X = 0x;", "const long X = 0x;", "[]"),
        ],
        &[],
    )?;
    assert!(rt; wanted.tell(&rt, alloc));
    Ok(())
}

#[test]
fn other_members_are_read_and_copied_or_want_memory(rt: HostRuntime) -> Result<(), Fail> {
    let alloc = rt.alloc();
    let mut wanted = Wanted::new();
    wanted.reads::<MixinMember<'_>>(
        alloc,
        &[
            // An attribute of a mixin may be modified.
            (
                "stringifier readonly attribute long x;",
                "",
                "Attribute(AttributeMixinMember { attributes: None, stringifier: \
                 Some(Stringifier), readonly: Some(ReadOnly), attribute: Attribute, type_: \
                 AttributedType { attributes: None, type_: Single(NonAny(Integer(MayBeNull { \
                 type_: Long(LongType { unsigned: None, long: Long }), q_mark: None }))) }, \
                 identifier: Identifier(\"x\"), semi_colon: SemiColon })",
            ),
            (
                "readonly attribute long x;",
                "",
                "Attribute(AttributeMixinMember { attributes: None, stringifier: None, \
                 readonly: Some(ReadOnly), attribute: Attribute, type_: AttributedType { \
                 attributes: None, type_: Single(NonAny(Integer(MayBeNull { type_: \
                 Long(LongType { unsigned: None, long: Long }), q_mark: None }))) }, \
                 identifier: Identifier(\"x\"), semi_colon: SemiColon })",
            ),
            (
                "[A] stringifier;",
                "",
                "Stringifier(StringifierMember { attributes: Some(Bracketed { open_bracket: \
                 OpenBracket, body: Punctuated { list: \
                 [NoArgs(ExtendedAttributeNoArgs(Identifier(\"A\")))], separator: Comma }, \
                 close_bracket: CloseBracket }), stringifier: Stringifier, semi_colon: \
                 SemiColon })",
            ),
        ],
        &[],
    )?;
    wanted.reads::<NamespaceMember<'_>>(
        alloc,
        &[
            // A namespace has attributes and operations.
            (
                "readonly attribute long x;",
                "",
                "Attribute(AttributeNamespaceMember { docstring: None, attributes: None, \
                 readonly: ReadOnly, attribute: Attribute, type_: AttributedType { attributes: \
                 None, type_: Single(NonAny(Integer(MayBeNull { type_: Long(LongType { \
                 unsigned: None, long: Long }), q_mark: None }))) }, identifier: \
                 Identifier(\"x\"), semi_colon: SemiColon })",
            ),
            (
                "undefined f();",
                "",
                "Operation(OperationNamespaceMember { docstring: None, attributes: None, \
                 return_type: Undefined(Undefined), identifier: Some(Identifier(\"f\")), args: \
                 ParenthesizedArgumentList { open_paren: OpenParen, body: Punctuated { list: \
                 [], separator: Comma }, close_paren: CloseParen }, semi_colon: SemiColon })",
            ),
            (
                "///d\nundefined f();",
                "",
                "Operation(OperationNamespaceMember { docstring: Some(Docstring(\"d\")), \
                 attributes: None, return_type: Undefined(Undefined), identifier: \
                 Some(Identifier(\"f\")), args: ParenthesizedArgumentList { open_paren: \
                 OpenParen, body: Punctuated { list: [], separator: Comma }, close_paren: \
                 CloseParen }, semi_colon: SemiColon })",
            ),
        ],
        &["attribute long x;"],
    )?;
    wanted.reads::<DictionaryMember<'_>>(
        alloc,
        &[
            // A member of a dictionary may have a default.
            (
                "long x = 5;",
                "",
                "DictionaryMember { docstring: None, attributes: None, required: None, type_: \
                 Single(NonAny(Integer(MayBeNull { type_: Long(LongType { unsigned: None, \
                 long: Long }), q_mark: None }))), identifier: Identifier(\"x\"), default: \
                 Some(Default { assign: Assign, value: Integer(Dec(DecLit(\"5\"))) }), \
                 semi_colon: SemiColon }",
            ),
            (
                "///d\nlong x = 5;",
                "",
                "DictionaryMember { docstring: Some(Docstring(\"d\")), attributes: None, \
                 required: None, type_: Single(NonAny(Integer(MayBeNull { type_: Long(LongType \
                 { unsigned: None, long: Long }), q_mark: None }))), identifier: \
                 Identifier(\"x\"), default: Some(Default { assign: Assign, value: \
                 Integer(Dec(DecLit(\"5\"))) }), semi_colon: SemiColon }",
            ),
        ],
        &["required x;"],
    )?;
    assert!(rt; wanted.tell(&rt, alloc));
    Ok(())
}

#[test]
fn no_word_before_a_member_takes_memory(rt: HostRuntime) -> Result<(), Fail> {
    let alloc = rt.alloc();
    reads_with_no_memory::<Inheritance<'_>>(
        alloc,
        &[(
            ": B",
            "",
            r#"Inheritance { colon: Colon, identifier: Identifier("B") }"#,
        )],
        &[],
    )?;
    reads_with_no_memory::<Special>(
        alloc,
        &[
            ("getter", "", "Getter(Getter)"),
            ("deleter", "", "Deleter(Deleter)"),
        ],
        &[],
    )?;
    reads_with_no_memory::<StringifierOrInheritOrStatic>(
        alloc,
        &[
            ("inherit", "", "Inherit(Inherit)"),
            ("static", "", "Static(Static)"),
        ],
        &[],
    )?;
    reads_with_no_memory::<StringifierOrStatic>(
        alloc,
        &[
            ("stringifier", "", "Stringifier(Stringifier)"),
            ("static", "", "Static(Static)"),
        ],
        &[],
    )?;
    assert!(rt; Wanted::new().tell(&rt, alloc));
    Ok(())
}
