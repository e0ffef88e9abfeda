//! Comments: those within a span, by hand from the texts.

use std::alloc::{AllocError, Global};
use std::process::Abort;
use std::test::Fail;
use weedle_places::{MemberPlace, Place, Span, comments_in, places_in};
use weedle_syntax::Syntax;
use weedle_testing::Wanted;

/// Definitions with comments in front of them, of their members and of their values.
const COMMENTED: &str = "/* a */ // b\ninterface A { /* c */ // d\n attribute long x; // e\n\
                         /* f */ [X /* g */] attribute long y; };\n// h\n/// D\n\
                         enum E { /* i */ \"a\", // j\n\"b\" };\nA includes B; // k";

/// The comments within a span, one after another, with a bar behind each.
fn listed(alloc: Global, syntax: &Syntax<'_>, span: Span) -> Result<String, AllocError> {
    let mut listing = String::new(alloc);
    for comment in comments_in(alloc, syntax, span)? {
        if let Some(text) = syntax.text().get(comment.start..comment.end) {
            write!(listing, "{text}|")?;
        }
    }
    Ok(listing)
}

/// Asserts which comments are in front of each member or value.
fn assert_in_front(
    rt: &impl Abort,
    alloc: Global,
    syntax: &Syntax<'_>,
    members: &[MemberPlace],
    wanted: [&str; 2],
) -> Result<(), AllocError> {
    assert_eq!(rt; members.len(), 2);
    for (member, wanted) in members.iter().zip(wanted) {
        let listing = listed(alloc, syntax, member.front)?;
        assert_eq!(rt; listing.as_str(), wanted);
    }
    Ok(())
}

/// The places of the text above, with its tree.
fn assert_commented(
    rt: &impl Abort,
    alloc: Global,
    syntax: &Syntax<'_>,
    found: &[Place],
) -> Result<(), AllocError> {
    assert_eq!(rt; found.len(), 3);
    for (place, wanted) in found.iter().zip(["/* a */|// b\n|", "// h\n|", ""]) {
        let listing = listed(alloc, syntax, place.front)?;
        assert_eq!(rt; listing.as_str(), wanted);
    }
    let of_members = ["/* c */|// d\n|", "// e\n|/* f */|"];
    assert_in_front(rt, alloc, syntax, &found[0].members, of_members)?;
    assert_in_front(rt, alloc, syntax, &found[1].values, ["/* i */|", "// j\n|"])?;
    let within = listed(alloc, syntax, found[0].core)?;
    assert_eq!(rt; within.as_str(), "/* c */|// d\n|// e\n|/* f */|/* g */|");
    Ok(())
}

#[test]
fn in_front_of_definitions_members_and_values(rt: HostRuntime) -> Result<(), Fail> {
    let alloc = rt.alloc();
    let Some(syntax) = Syntax::new(alloc, COMMENTED)? else {
        assert!(rt; false, "it is read whole");
        return Ok(());
    };
    let found = places_in(alloc, &syntax)?;
    assert_commented(&rt, alloc, &syntax, &found)?;
    Ok(())
}

/// A line for each comment in front of a definition.
fn comments_of(alloc: Global, text: &str) -> Result<String, AllocError> {
    let mut listing = String::new(alloc);
    if let Some(syntax) = Syntax::new(alloc, text)? {
        let found = places_in(alloc, &syntax)?;
        for place in &found {
            add_comments(&mut listing, alloc, &syntax, place.front)?;
        }
    }
    Ok(listing)
}

/// Adds a line for each comment within a span.
fn add_comments(
    listing: &mut String,
    alloc: Global,
    syntax: &Syntax<'_>,
    span: Span,
) -> Result<(), AllocError> {
    let found = comments_in(alloc, syntax, span)?;
    for comment in &found {
        if let Some(text) = syntax.text().get(comment.start..comment.end) {
            writeln!(listing, "{}", text.trim_end())?;
        }
    }
    Ok(())
}

#[test]
fn listed_as_using_does(rt: HostRuntime) -> Result<(), Fail> {
    let listing = comments_of(rt.alloc(), COMMENTED)?;
    assert_eq!(rt; listing.as_str(), "/* a */\n// b\n// h\n");
    Ok(())
}

/// In `interface/*a*/A{};//b` the first comment is from 9 to 14, and the second from 18 on.
#[test]
fn within_spans_of_any_kind(rt: HostRuntime) -> Result<(), Fail> {
    let alloc = rt.alloc();
    let syntax = Syntax::of_front(alloc, "interface/*a*/A{};//b")?;
    for (start, end, wanted) in [
        (0, 21, "/*a*/|//b|"),
        (9, 14, "/*a*/|"),
        (9, 13, ""),
        (10, 21, "//b|"),
        (14, 18, ""),
        (18, 1_000, "//b|"),
        (18, 18, ""),
        (21, 0, ""),
        (500, 1_000, ""),
    ] {
        let listing = listed(alloc, &syntax, Span { start, end })?;
        assert_eq!(rt; listing.as_str(), wanted);
    }
    Ok(())
}

#[test]
fn they_are_found_or_want_memory(rt: HostRuntime) -> Result<(), Fail> {
    let alloc = rt.alloc();
    let mut wanted = Wanted::new();
    if let Some(syntax) = wanted.given(Syntax::of_front(alloc, "A includes /**/ B;//")) {
        let span = Span { start: 0, end: 20 };
        if let Some(found) = wanted.given(comments_in(alloc, &syntax, span)) {
            assert_eq!(rt; found.len(), 2);
        }
    }
    assert!(rt; wanted.tell(&rt, alloc));
    Ok(())
}
