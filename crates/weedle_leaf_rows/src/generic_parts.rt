//! Brackets, lists with separators and what may be null, also where memory is refused.
//!
//! The values are those that weedle2 prints, in the port's names.

use crate::users::Fuse;
use std::alloc::Global;
use std::test::Fail;
use weedle_base::term::{Comma, Dot, Or, SemiColon};
use weedle_base::{IResult, Parse};
use weedle_parts::common::{
    Braced, Bracketed, Generics, Identifier, Parenthesized, Punctuated, PunctuatedNonEmpty,
};
use weedle_parts::types::MayBeNull;
use weedle_testing::{Wanted, fails_at, reads_with_no_memory, refuses};

#[test]
fn no_brackets_take_memory(rt: HostRuntime) -> Result<(), Fail> {
    let alloc = rt.alloc();
    reads_with_no_memory::<Parenthesized<Comma>>(
        alloc,
        &[
            // Brackets are around a value.
            (
                " ( , ) x",
                "x",
                "Parenthesized { open_paren: OpenParen, body: Comma, close_paren: CloseParen }",
            ),
        ],
        &["(,"],
    )?;
    reads_with_no_memory::<Parenthesized<Or>>(
        alloc,
        &[(
            "(or)",
            "",
            "Parenthesized { open_paren: OpenParen, body: Or, close_paren: CloseParen }",
        )],
        &[],
    )?;
    reads_with_no_memory::<Bracketed<Comma>>(
        alloc,
        &[
            // Brackets are around a value.
            (
                "[,]x",
                "x",
                "Bracketed { open_bracket: OpenBracket, body: Comma, close_bracket: \
                 CloseBracket }",
            ),
        ],
        &["(,)"],
    )?;
    reads_with_no_memory::<Bracketed<Or>>(
        alloc,
        &[(
            "[or]",
            "",
            "Bracketed { open_bracket: OpenBracket, body: Or, close_bracket: CloseBracket }",
        )],
        &[],
    )?;
    reads_with_no_memory::<Braced<Comma>>(
        alloc,
        &[
            // Brackets are around a value.
            (
                "{,}x",
                "x",
                "Braced { open_brace: OpenBrace, body: Comma, close_brace: CloseBrace }",
            ),
        ],
        &[],
    )?;
    reads_with_no_memory::<Braced<Or>>(
        alloc,
        &[(
            "{or}",
            "",
            "Braced { open_brace: OpenBrace, body: Or, close_brace: CloseBrace }",
        )],
        &[],
    )?;
    reads_with_no_memory::<Generics<Comma>>(
        alloc,
        &[
            // Brackets are around a value.
            (
                "<,>x",
                "x",
                "Generics { open_angle: LessThan, body: Comma, close_angle: GreaterThan }",
            ),
        ],
        &[],
    )?;
    reads_with_no_memory::<Generics<Or>>(
        alloc,
        &[(
            "<or>",
            "",
            "Generics { open_angle: LessThan, body: Or, close_angle: GreaterThan }",
        )],
        &[],
    )?;
    reads_with_no_memory::<MayBeNull<Dot>>(
        alloc,
        &[
            // A mark may follow.
            (".?x", "x", "MayBeNull { type_: Dot, q_mark: Some(QMark) }"),
            (".x", "x", "MayBeNull { type_: Dot, q_mark: None }"),
        ],
        &[],
    )?;
    assert!(rt; Wanted::new().tell(&rt, alloc));
    Ok(())
}

#[test]
fn lists_are_read_and_copied_or_want_memory(rt: HostRuntime) -> Result<(), Fail> {
    let alloc = rt.alloc();
    let mut wanted = Wanted::new();
    wanted.reads::<Punctuated<Identifier<'_>, Comma>>(
        alloc,
        &[
            // A separator that no item follows isn't taken.
            (
                "a, b ,",
                ",",
                r#"Punctuated { list: [Identifier("a"), Identifier("b")], separator: Comma }"#,
            ),
            (",", ",", "Punctuated { list: [], separator: Comma }"),
            (
                "a, b",
                "",
                r#"Punctuated { list: [Identifier("a"), Identifier("b")], separator: Comma }"#,
            ),
            ("", "", "Punctuated { list: [], separator: Comma }"),
        ],
        &[],
    )?;
    wanted.reads::<PunctuatedNonEmpty<Identifier<'_>, Comma>>(
        alloc,
        &[
            // A list that isn't empty takes one further separator.
            (
                "a, b ,",
                "",
                "PunctuatedNonEmpty { list: [Identifier(\"a\"), Identifier(\"b\")], separator: \
                 Comma }",
            ),
            (
                "a, b,",
                "",
                "PunctuatedNonEmpty { list: [Identifier(\"a\"), Identifier(\"b\")], separator: \
                 Comma }",
            ),
        ],
        &[","],
    )?;
    wanted.reads::<Braced<Punctuated<Comma, Comma>>>(
        alloc,
        &[
            // A copy of a part equals it.
            (
                "{,,,}",
                "",
                "Braced { open_brace: OpenBrace, body: Punctuated { list: [Comma, Comma], \
                 separator: Comma }, close_brace: CloseBrace }",
            ),
        ],
        &[],
    )?;
    assert!(rt; wanted.tell(&rt, alloc));
    Ok(())
}

#[test]
fn brackets_are_read_and_copied_or_want_memory(rt: HostRuntime) -> Result<(), Fail> {
    let alloc = rt.alloc();
    let mut wanted = Wanted::new();
    wanted.reads::<Parenthesized<Vec<Or>>>(
        alloc,
        &[(
            "(or)",
            "",
            "Parenthesized { open_paren: OpenParen, body: [Or], close_paren: CloseParen }",
        )],
        &[],
    )?;
    wanted.reads::<Bracketed<Box<Or>>>(
        alloc,
        &[(
            "[or]",
            "",
            "Bracketed { open_bracket: OpenBracket, body: Or, close_bracket: CloseBracket }",
        )],
        &[],
    )?;
    wanted.reads::<Braced<Vec<Or>>>(
        alloc,
        &[(
            "{or}",
            "",
            "Braced { open_brace: OpenBrace, body: [Or], close_brace: CloseBrace }",
        )],
        &[],
    )?;
    wanted.reads::<Generics<Box<Or>>>(
        alloc,
        &[(
            "<or>",
            "",
            "Generics { open_angle: LessThan, body: Or, close_angle: GreaterThan }",
        )],
        &[],
    )?;
    wanted.reads::<MayBeNull<Box<Or>>>(
        alloc,
        &[("or?", "", "MayBeNull { type_: Or, q_mark: Some(QMark) }")],
        &[],
    )?;
    assert!(rt; wanted.tell(&rt, alloc));
    Ok(())
}

#[test]
fn an_item_that_takes_nothing_is_kept(rt: HostRuntime) {
    match Punctuated::<Option<Comma>, SemiColon>::parse(rt.alloc(), ";;") {
        Ok((rest, read)) => {
            assert!(rt; rest.is_empty() && read.separator == SemiColon);
            assert!(rt; read.list.as_slice() == [None, None, None].as_slice());
        }
        Err(_) => assert!(rt; false),
    }
}

#[test]
fn a_separator_that_takes_nothing_refuses_the_list(rt: HostRuntime) -> Result<(), Fail> {
    refuses::<Punctuated<Comma, Option<SemiColon>>>(rt.alloc(), &[","])?;
    Ok(())
}

#[test]
fn a_failure_of_a_part_ends_the_call(rt: HostRuntime) -> Result<(), Fail> {
    let alloc = rt.alloc();
    fails_at::<MayBeNull<Fuse>>(alloc, "!", "!")?;
    fails_at::<Parenthesized<Fuse>>(alloc, "(!)", "!)")?;
    fails_at::<Punctuated<Comma, Fuse>>(alloc, ",!", "!")?;
    fails_at::<PunctuatedNonEmpty<Comma, Fuse>>(alloc, ",!", "!")?;
    fails_at::<Punctuated<Fuse, Comma>>(alloc, "!x", "!x")?;
    Ok(())
}

/// What follows the names, and how many they are.
fn count(alloc: Global, text: &str) -> IResult<&str, usize> {
    let (rest, names) = Punctuated::<Identifier<'_>, Comma>::parse(alloc, text)?;
    Ok((rest, names.list.len()))
}

#[test]
fn a_separator_that_no_item_follows_is_given_back(rt: HostRuntime) {
    assert!(rt; count(rt.alloc(), "a, b ,") == Ok((",", 2)));
}
