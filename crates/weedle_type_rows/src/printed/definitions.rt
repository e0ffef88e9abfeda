//! Definitions, by hand from the grammar, also where memory is refused.

use super::answers::{assert_no_text, assert_written};
use std::alloc::{AllocError, Global};
use std::test::Fail;
use weedle_base::term::{CloseBrace, Comma, Enum, OpenBrace, SemiColon};
use weedle_parts::common::{Braced, Docstring, Identifier, PunctuatedNonEmpty};
use weedle_parts::literal::StringLit;
use weedle_print_idl::WriteIdl;
use weedle_statements::{EnumDefinition, EnumVariant};
use weedle_testing::Wanted;

/// An enum of this name with these values.
fn enum_of<'a>(
    alloc: Global,
    name: &'a str,
    docstring: Option<Docstring>,
    values: &[&'a str],
) -> Result<EnumDefinition<'a>, AllocError> {
    let mut list = Vec::new(alloc);
    for value in values {
        list.push(EnumVariant {
            docstring: None,
            value: StringLit(*value),
        })?;
    }
    Ok(EnumDefinition {
        docstring,
        attributes: None,
        enum_: Enum,
        identifier: Identifier(name),
        values: Braced {
            open_brace: OpenBrace,
            body: PunctuatedNonEmpty {
                list,
                separator: Comma,
            },
            close_brace: CloseBrace,
        },
        semi_colon: SemiColon,
    })
}

/// Values that don't fit on a line.
const LONG: [&str; 3] = [
    "aaaaaaaaaaaaaaaaaaaaaaaaaaaa",
    "bbbbbbbbbbbbbbbbbbbbbbbbbbbb",
    "cccccccccccccccccccccccccccc",
];

/// What is written of an enum `E` of these, with the docstring ` d`.
const LONG_TEXT: &str = "/// d\nenum E {\n  \"aaaaaaaaaaaaaaaaaaaaaaaaaaaa\",\n  \
                         \"bbbbbbbbbbbbbbbbbbbbbbbbbbbb\",\n  \
                         \"cccccccccccccccccccccccccccc\"\n};\n";

#[test]
fn an_enum_is_written_or_want_memory(rt: HostRuntime) -> Result<(), Fail> {
    let alloc = rt.alloc();
    let mut wanted = Wanted::new();
    if let Some(text) = wanted.given(String::from_str(alloc, " d")) {
        if let Some(it) = wanted.given(enum_of(alloc, "E", Some(Docstring(text)), &LONG)) {
            for _ in 0..2 {
                assert_written(&rt, alloc, &mut wanted, &it, LONG_TEXT);
            }
        }
    }
    if let Some(it) = wanted.given(enum_of(alloc, "enum", None, &["", "a b"])) {
        assert_written(
            &rt,
            alloc,
            &mut wanted,
            &it,
            "enum enum { \"\", \"a b\" };\n",
        );
    }
    assert!(rt; wanted.tell(&rt, alloc));
    Ok(())
}

#[test]
fn what_has_a_part_without_text_has_none(rt: HostRuntime) -> Result<(), Fail> {
    let alloc = rt.alloc();
    assert_no_text(&rt, alloc, &enum_of(alloc, "E", None, &[])?)?;
    assert_no_text(&rt, alloc, &enum_of(alloc, "E", None, &["a", "b\"", "c"])?)?;
    assert_no_text(&rt, alloc, &enum_of(alloc, "E F", None, &["a"])?)?;
    assert_no_text(&rt, alloc, &enum_of(alloc, "", None, &["a"])?)?;
    Ok(())
}

#[test]
fn values_are_written_behind_one_another(rt: HostRuntime) -> Result<(), Fail> {
    let alloc = rt.alloc();
    let mut out = String::new(alloc);
    for name in ["E", "F"] {
        let it = enum_of(alloc, name, None, &["a"])?;
        assert!(rt; it.write_idl(&mut out).is_ok());
    }
    assert_eq!(rt; out.as_str(), "enum E { \"a\" };\nenum F { \"a\" };\n");
    Ok(())
}
