//! Extended attributes, each by its own `parse`, also where memory is refused.
//!
//! The values are those that weedle2 prints, in the port's names.

use std::test::Fail;
use weedle_testing::{Wanted, reads_with_no_memory};
use weedle_types::attribute::{
    ExtendedAttribute, ExtendedAttributeIdent, ExtendedAttributeList, ExtendedAttributeNoArgs,
    IdentifierOrString,
};

#[test]
fn attributes_are_read_and_copied_or_want_memory(rt: HostRuntime) -> Result<(), Fail> {
    let alloc = rt.alloc();
    let mut wanted = Wanted::new();
    wanted.reads::<ExtendedAttribute<'_>>(
        alloc,
        &[
            // An attribute may have arguments.
            (
                "NamedConstructor=Image(DOMString src)",
                "",
                "NamedArgList(ExtendedAttributeNamedArgList { lhs_identifier: \
                 Identifier(\"NamedConstructor\"), assign: Assign, rhs_identifier: \
                 Identifier(\"Image\"), args: ParenthesizedArgumentList { open_paren: \
                 OpenParen, body: Punctuated { list: [Single(SingleArgument { attributes: \
                 None, optional: None, type_: AttributedType { attributes: None, type_: \
                 Single(NonAny(DOMString(MayBeNull { type_: DOMString, q_mark: None }))) }, \
                 identifier: Identifier(\"src\"), default: None })], separator: Comma }, \
                 close_paren: CloseParen } })",
            ),
            (
                "Constructor()",
                "",
                "ArgList(ExtendedAttributeArgList { identifier: Identifier(\"Constructor\"), \
                 args: ParenthesizedArgumentList { open_paren: OpenParen, body: Punctuated { \
                 list: [], separator: Comma }, close_paren: CloseParen } })",
            ),
            // An attribute may have names.
            (
                "Exposed=(Window,Worker)",
                "",
                "IdentList(ExtendedAttributeIdentList { identifier: Identifier(\"Exposed\"), \
                 assign: Assign, list: Parenthesized { open_paren: OpenParen, body: Punctuated \
                 { list: [Identifier(\"Window\"), Identifier(\"Worker\")], separator: Comma }, \
                 close_paren: CloseParen } })",
            ),
            (
                "PutForwards=name",
                "",
                "Ident(ExtendedAttributeIdent { lhs_identifier: Identifier(\"PutForwards\"), \
                 assign: Assign, rhs: Identifier(Identifier(\"name\")) })",
            ),
            (
                r#"Reflect="x""#,
                "",
                "Ident(ExtendedAttributeIdent { lhs_identifier: Identifier(\"Reflect\"), \
                 assign: Assign, rhs: String(StringLit(\"x\")) })",
            ),
            (
                "Replaceable",
                "",
                r#"NoArgs(ExtendedAttributeNoArgs(Identifier("Replaceable")))"#,
            ),
        ],
        &[],
    )?;
    wanted.reads::<ExtendedAttributeList<'_>>(
        alloc,
        &[
            // Brackets may be empty.
            (
                "[]",
                "",
                "Bracketed { open_bracket: OpenBracket, body: Punctuated { list: [], \
                 separator: Comma }, close_bracket: CloseBracket }",
            ),
        ],
        &["[A,]"],
    )?;
    assert!(rt; wanted.tell(&rt, alloc));
    Ok(())
}

#[test]
fn no_attribute_without_arguments_takes_memory(rt: HostRuntime) -> Result<(), Fail> {
    let alloc = rt.alloc();
    reads_with_no_memory::<IdentifierOrString<'_>>(
        alloc,
        &[
            ("a", "", r#"Identifier(Identifier("a"))"#),
            (r#""a""#, "", r#"String(StringLit("a"))"#),
        ],
        &[],
    )?;
    reads_with_no_memory::<ExtendedAttributeIdent<'_>>(
        alloc,
        &[(
            "PutForwards=name",
            "",
            "ExtendedAttributeIdent { lhs_identifier: Identifier(\"PutForwards\"), assign: \
                 Assign, rhs: Identifier(Identifier(\"name\")) }",
        )],
        &[],
    )?;
    reads_with_no_memory::<ExtendedAttributeNoArgs<'_>>(
        alloc,
        &[(
            "Replaceable",
            "",
            r#"ExtendedAttributeNoArgs(Identifier("Replaceable"))"#,
        )],
        &[],
    )?;
    assert!(rt; Wanted::new().tell(&rt, alloc));
    Ok(())
}
