//! Nodes, places, names, lines and layouts, with memory that is refused: each call answers as with
//! ample memory, or that it wants some.

use std::alloc::Global;
use std::process::Abort;
use std::test::Fail;
use weedle_formatter::format;
use weedle_places::{names, names_of, places, places_of};
use weedle_refusal::{Lines, Position};
use weedle_rules::Ends;
use weedle_syntax::{
    Syntax, front_of, syntax, syntax_by_descent, syntax_of, syntax_of_front, syntax_quick,
};
use weedle_testing::Wanted;

/// How many nodes `A includes B;` has, by hand.
const MANY: usize = 35;

/// Asserts how many nodes each reader writes of a text: none of the whole of it where `whole` is
/// none, and `MANY` of its front.
fn assert_nodes(
    rt: &impl Abort,
    alloc: Global,
    wanted: &mut Wanted,
    text: &str,
    whole: Option<usize>,
) {
    if let Some(found) = wanted.given(syntax(alloc, text)) {
        assert!(rt; found.map(|nodes| nodes.len()) == whole);
    }
    if let Some(found) = wanted.given(syntax_by_descent(alloc, text)) {
        assert!(rt; found.map(|nodes| nodes.len()) == whole);
    }
    if let Some(found) = wanted.given(syntax_quick(alloc, text)) {
        assert!(rt; found.map(|nodes| nodes.len()) == whole);
    }
    if let Some(found) = wanted.given(Syntax::new(alloc, text)) {
        assert!(rt; found.map(|syntax| syntax.nodes().len()) == whole);
    }
    if let Some(nodes) = wanted.given(syntax_of_front(alloc, text)) {
        assert_eq!(rt; nodes.len(), MANY);
    }
    if let Some(front) = wanted.given(Syntax::of_front(alloc, text)) {
        assert_eq!(rt; (front.nodes().len(), front.rest()), (MANY, 13));
    }
}

/// Asserts the same of the readers over a table.
fn assert_nodes_of_table(
    rt: &impl Abort,
    alloc: Global,
    wanted: &mut Wanted,
    text: &str,
    whole: Option<usize>,
) {
    if let Some(ends) = wanted.given(Ends::new(alloc, text)) {
        if let Some(found) = wanted.given(syntax_of(alloc, &ends)) {
            assert!(rt; found.map(|nodes| nodes.len()) == whole);
        }
        if let Some(found) = wanted.given(Syntax::of_table(alloc, &ends)) {
            assert!(rt; found.map(|syntax| syntax.nodes().len()) == whole);
        }
        if let Some(nodes) = wanted.given(front_of(alloc, &ends)) {
            assert_eq!(rt; nodes.len(), MANY);
        }
    }
}

#[test]
fn nodes_are_laid_down_or_want_memory(rt: HostRuntime) -> Result<(), Fail> {
    let alloc = rt.alloc();
    let mut wanted = Wanted::new();
    for _ in 0..2 {
        for (text, whole) in [("A includes B;", Some(MANY)), ("A includes B;(", None)] {
            assert_nodes(&rt, alloc, &mut wanted, text, whole);
            assert_nodes_of_table(&rt, alloc, &mut wanted, text, whole);
        }
    }
    assert!(rt; wanted.tell(&rt, alloc));
    Ok(())
}

/// Places ask for nodes, by descent or over a packrat table, for each list of members and of
/// values, and for the list of definitions.
#[test]
fn places_are_found_or_want_memory(rt: HostRuntime) -> Result<(), Fail> {
    let alloc = rt.alloc();
    let text = "dictionary D {long x;long y;};";
    let mut wanted = Wanted::new();
    if let Some(Some(found)) = wanted.given(places(alloc, text)) {
        assert_eq!(rt; found.len(), 1);
    }
    if let Some(ends) = wanted.given(Ends::new(alloc, text)) {
        if let Some(Some(found)) = wanted.given(places_of(alloc, &ends)) {
            assert_eq!(rt; found.len(), 1);
        }
    }
    assert!(rt; wanted.tell(&rt, alloc));
    Ok(())
}

#[test]
fn names_are_found_or_want_memory(rt: HostRuntime) -> Result<(), Fail> {
    let alloc = rt.alloc();
    let mut wanted = Wanted::new();
    if let Some(Some(found)) = wanted.given(names(alloc, "[X=(Y,Z)] A includes B;")) {
        assert_eq!(rt; found.len(), 5);
    }
    if let Some(front) = wanted.given(Syntax::of_front(alloc, "A includes B; interface C {")) {
        if let Some(found) = wanted.given(names_of(alloc, &front)) {
            assert_eq!(rt; found.len(), 2);
        }
    }
    assert!(rt; wanted.tell(&rt, alloc));
    Ok(())
}

/// The lines and the columns are by hand.
#[test]
fn lines_are_found_or_want_memory(rt: HostRuntime) -> Result<(), Fail> {
    let alloc = rt.alloc();
    let mut wanted = Wanted::new();
    if let Some(lines) = wanted.given(Lines::new(alloc, "interface A {\n  é ?\r\n\n}")) {
        for (place, line, column) in [
            (0, 1, 1),
            (13, 1, 14),
            (14, 2, 1),
            (19, 2, 5),
            (20, 2, 6),
            (21, 2, 7),
            (22, 3, 1),
            (23, 4, 1),
            (24, 4, 2),
            (25, 4, 2),
            (1_000, 4, 2),
        ] {
            assert_eq!(rt; lines.position(place), Position { line, column });
        }
    }
    assert!(rt; wanted.tell(&rt, alloc));
    Ok(())
}

/// Texts, and how they are formatted.
const LAYOUTS: [(&str, Option<&str>); 3] = [
    (
        "interface A{undefined f(/* c */long x);}; // d",
        Some("interface A {\n  undefined f(/* c */ long x);\n}; // d\n"),
    ),
    ("", Some("")),
    ("interface A {", None),
];

#[test]
fn texts_are_laid_out_or_want_memory(rt: HostRuntime) -> Result<(), Fail> {
    let alloc = rt.alloc();
    let mut wanted = Wanted::new();
    for (text, layout) in LAYOUTS {
        for _ in 0..2 {
            if let Some(answer) = wanted.given(format(alloc, text)) {
                match (answer, layout) {
                    (Some(answer), Some(layout)) => { assert_eq!(rt; answer.text.as_str(), layout) }
                    (None, None) => {}
                    _ => assert!(rt; false),
                }
            }
        }
    }
    assert!(rt; wanted.tell(&rt, alloc));
    Ok(())
}
