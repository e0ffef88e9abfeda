//! The scanners, and terminals that are beside others.
//!
//! The values of terminals are those that weedle2 prints; of the scanners they are by hand, from
//! the grammar.

use std::alloc::Global;
use std::test::Fail;
use weedle_base::term::{Dot, Ellipsis, Long, NegInfinity, OpenParen};
use weedle_base::{Parse, docstring, ident_tag, is_alphanum_underscore_dash, sp};
use weedle_testing::{Unlike, Wanted, is_mismatch, other_value, reads_with_no_memory};

#[test]
fn no_scanner_takes_memory(rt: HostRuntime) {
    // Trivia is comments and whitespace.
    for (text, rest, trivia) in [
        ("// a\n/* b */ c", "c", "// a\n/* b */ "),
        ("// a", "", "// a"),
        ("//", "", "//"),
        (" //x", "", " //x"),
        ("///", "///", ""),
        ("///a\n", "///a\n", ""),
        ("/* a", "/* a", ""),
        ("\t\r\n é", "é", "\t\r\n "),
        ("/*/*/x", "x", "/*/*/"),
    ] {
        assert!(rt; sp(text) == (rest, trivia), "in {text}");
    }
    // A tag ends where a name ends.
    assert!(rt; ident_tag("long", "long") == Some(("", "long")));
    assert!(rt; ident_tag("long", "long-").is_none());
    assert!(rt; ident_tag("or", "oré") == Some(("é", "or")));
    // Names have ASCII letters, digits, underscores and dashes.
    for (token, is_one) in [
        ('a', true),
        ('Z', true),
        ('0', true),
        ('_', true),
        ('-', true),
        (' ', false),
        ('.', false),
        ('é', false),
        ('\u{1F600}', false),
    ] {
        assert_eq!(rt; is_alphanum_underscore_dash(token), is_one);
    }
    assert!(rt; Wanted::new().tell(&rt, rt.alloc()));
}

/// Joins the lines of the text, which are to be this docstring before this rest, or to run out of
/// memory.
fn joins<'a>(
    wanted: &mut Wanted,
    alloc: Global,
    text: &'a str,
    (rest, lines): (&'a str, &'a str),
) -> Result<(), Unlike<'a>> {
    match docstring(alloc, text) {
        Ok((left, read)) => {
            if left != rest {
                let wanted = rest;
                Err(Unlike::Rest { text, wanted, left })
            } else if read.as_str() != lines {
                Err(other_value(alloc, text, lines, &read))
            } else {
                Ok(())
            }
        }
        Err(fault) => wanted.fault(text, fault),
    }
}

#[test]
fn docstrings_are_joined_or_want_memory(rt: HostRuntime) -> Result<(), Fail> {
    let alloc = rt.alloc();
    let mut wanted = Wanted::new();
    for _ in 0..2 {
        for (text, rest, lines) in [
            ("  ///\n///b\n", "", "\nb"),
            ("////x\n", "", "/x"),
            ("///a\n ///b\nx", "x", "a\nb"),
            ("///a\r\nx", "x", "a\r"),
            ("///a\n y", " y", "a"),
            ("///\n", "", ""),
        ] {
            joins(&mut wanted, alloc, text, (rest, lines))?;
        }
    }
    assert!(rt; wanted.tell(&rt, alloc));
    Ok(())
}

#[test]
fn a_docstring_stands_at_the_front_and_ends_its_line(rt: HostRuntime) {
    assert!(rt; is_mismatch(&docstring(rt.alloc(), "// c\n///a\n")));
    assert!(rt; is_mismatch(&docstring(rt.alloc(), "///a")));
}

#[test]
fn no_terminal_takes_more_than_its_bytes(rt: HostRuntime) -> Result<(), Fail> {
    let alloc = rt.alloc();
    reads_with_no_memory::<OpenParen>(alloc, &[("(  anything", "anything", "OpenParen")], &[])?;
    reads_with_no_memory::<NegInfinity>(
        alloc,
        &[("  -Infinity  ", "", "NegInfinity")],
        &["- Infinity"],
    )?;
    reads_with_no_memory::<Dot>(alloc, &[("...", "..", "Dot")], &[])?;
    reads_with_no_memory::<Ellipsis>(alloc, &[], &[".."])?;
    reads_with_no_memory::<Long>(alloc, &[], &["long-x"])?;
    assert!(rt; Wanted::new().tell(&rt, alloc));
    Ok(())
}

/// Reads the text in every way, and says whether what is left and what is taken are the text.
fn splits(alloc: Global, text: &str) -> bool {
    let (rest, trivia) = sp(text);
    let tagged = ident_tag("long", text);
    let _symbol = Dot::parse(alloc, text);
    let _keyword = Long::parse(alloc, text);
    let _lines = docstring(alloc, text);
    trivia.len() + rest.len() == text.len()
        && tagged.is_none_or(|(rest, _)| rest.len() < text.len())
}

#[test]
fn every_prefix_is_read_in_every_way(rt: HostRuntime) {
    let text = "// é\n/* 日本 */ \t///d\r\n///\u{1F600}\nlong... // 終";
    for (place, _) in text.char_indices() {
        match text.get(..place) {
            Some(prefix) => assert!(rt; splits(rt.alloc(), prefix), "up to {place}"),
            None => assert!(rt; false, "{place} is no boundary"),
        }
    }
    assert!(rt; splits(rt.alloc(), text));
}
