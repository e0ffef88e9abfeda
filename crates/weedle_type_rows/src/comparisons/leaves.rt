//! Terminals, faults and parts.

use super::{EQUAL, GREATER, LESS, LONG, UNSIGNED_LONG, UNSIGNED_SHORT, docstring, name_list};
use std::test::Fail;
use weedle_base::term::{Comma, Long, QMark, Unsigned};
use weedle_comparisons::leaves::*;
use weedle_parts::common::Identifier;
use weedle_parts::types::{IntegerType, LongLongType, MayBeNull};

#[test]
fn names_go_by_their_texts(rt: HostRuntime) -> Result<(), Fail> {
    for (a, b, answer) in [
        ("Node", "Window", LESS),
        ("Node", "Node", EQUAL),
        ("Nodes", "Node", GREATER),
        ("a", "Window", GREATER),
    ] {
        let (a, b) = (Identifier(a), Identifier(b));
        assert_eq!(rt; compare_identifiers(a, b), answer);
        assert_eq!(rt; identifiers_hash_alike(a, b), answer.0);
        assert_eq!(rt; clone_identifier(&a)?, (a, true));
    }
    Ok(())
}

#[test]
fn a_mark_decides_after_the_name(rt: HostRuntime) -> Result<(), Fail> {
    let nullable = |text, q_mark| MayBeNull {
        type_: Identifier(text),
        q_mark,
    };
    let marked = nullable("a", Some(QMark));
    for (a, answer) in [
        (nullable("a", None), LESS),
        (marked, EQUAL),
        (nullable("b", None), GREATER),
    ] {
        assert_eq!(rt; compare_nullable_names(a, marked), answer);
        assert_eq!(rt; nullable_names_hash_alike(a, marked), answer.0);
        assert_eq!(rt; clone_nullable_name(&a)?, (a, true));
    }
    Ok(())
}

#[test]
fn integer_types_go_by_their_variants(rt: HostRuntime) -> Result<(), Fail> {
    let long_long = LongLongType {
        unsigned: Some(Unsigned),
        long_long: (Long, Long),
    };
    for (a, answer) in [
        (IntegerType::LongLong(long_long), LESS),
        (LONG, EQUAL),
        (UNSIGNED_LONG, GREATER),
        (UNSIGNED_SHORT, GREATER),
    ] {
        assert_eq!(rt; compare_integer_types(a, LONG), answer);
        assert_eq!(rt; integer_types_hash_alike(a, LONG), answer.0);
        assert_eq!(rt; clone_integer_type(&a)?, (a, true));
    }
    Ok(())
}

#[test]
fn docstrings_go_by_their_texts(rt: HostRuntime) -> Result<(), Fail> {
    let alloc = rt.alloc();
    for (a, b, answer) in [
        (" a", " b", LESS),
        (" a", " a", EQUAL),
        (" b", " a\n", GREATER),
    ] {
        let (a, b) = (docstring(alloc, a)?, docstring(alloc, b)?);
        assert_eq!(rt; compare_docstrings(&a, &b), answer);
        assert_eq!(rt; docstrings_hash_alike(&a, &b), answer.0);
        assert_eq!(rt; copy_docstring(&a, alloc)?, (a, true));
    }
    Ok(())
}

#[test]
fn lists_go_name_by_name(rt: HostRuntime) -> Result<(), Fail> {
    let alloc = rt.alloc();
    let list = name_list(alloc, &["a", "b"])?;
    for (names, answer) in [
        (["a"].as_slice(), LESS),
        (["a", "b"].as_slice(), EQUAL),
        (["a", "b", ""].as_slice(), GREATER),
        (["b"].as_slice(), GREATER),
    ] {
        let a = name_list(alloc, names)?;
        assert_eq!(rt; compare_name_lists(&a, &list), answer);
        assert_eq!(rt; name_lists_hash_alike(&a, &list), answer.0);
        assert_eq!(rt; copy_name_list(&a, alloc)?, (a, true));
    }
    Ok(())
}

#[test]
fn brackets_have_the_default_of_their_body(rt: HostRuntime) {
    assert_eq!(rt; default_parenthesized::<Comma>().body, Comma);
    assert_eq!(rt; default_bracketed::<Option<Comma>>().body, None);
    assert_eq!(rt; default_braced::<Comma>().body, Comma);
    assert_eq!(rt; default_generics::<bool>().body, false);
    assert_eq!(rt; default_of_absent_name().body, None);
}
