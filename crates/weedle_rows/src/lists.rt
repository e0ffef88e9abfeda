//! Lists of definitions as values, outlined and copied, with each request for memory refused in
//! turn. That a copy has the tree of its original is proved.

use super::outcomes::length;
use std::alloc::{AllocError, Global};
use std::process::Abort;
use std::test::Fail;
use weedle::{Definitions, Entry, Err, Parse, TryClone, lend, outline};
use weedle_testing::Wanted;
use weedle_testing::examples::KINDS;

/// What an outline says of a definition: its kind, its name and its docstring.
type Said = (&'static str, &'static str, Option<&'static str>);

/// What is said of the definitions of each kind.
const SAID: [Said; 14] = [
    ("callback", "C", None),
    ("callback interface", "D", None),
    ("interface", "E", None),
    ("interface mixin", "F", None),
    ("namespace", "G", None),
    ("dictionary", "H", None),
    ("partial interface", "I", None),
    ("partial interface mixin", "J", None),
    ("partial dictionary", "K", None),
    ("partial namespace", "L", None),
    ("enum", "M", None),
    ("typedef", "N", None),
    ("includes", "O", None),
    ("implements", "Q", None),
];

/// Texts, of which it is known what an outline says.
#[derive(Clone, Copy, Debug)]
enum Example {
    /// An interface with a docstring, and a statement.
    TwoDefinitions,
    /// A docstring with nothing in it.
    EmptyDocstring,
    /// A definition of each kind.
    Kinds,
    /// The same statement nine times.
    NineStatements,
}

impl Example {
    fn text(self) -> &'static str {
        match self {
            Example::TwoDefinitions => "///a\n/// b\ninterface A {};\nB includes C;",
            Example::EmptyDocstring => "///\nenum E {\"x\"};",
            Example::Kinds => KINDS,
            Example::NineStatements => {
                "A includes B;A includes B;A includes B;A includes B;A includes B;A includes B;\
                 A includes B;A includes B;A includes B;"
            }
        }
    }

    /// How many definitions there are.
    fn count(self) -> usize {
        match self {
            Example::TwoDefinitions => 2,
            Example::EmptyDocstring => 1,
            Example::Kinds => 14,
            Example::NineStatements => 9,
        }
    }

    /// Whether these are the entries of its outline.
    fn has_outline(self, entries: &[Entry<'_, '_>]) -> bool {
        match self {
            Example::TwoDefinitions => are_said(
                entries,
                &[("interface", "A", Some("a\n b")), ("includes", "B", None)],
            ),
            Example::EmptyDocstring => are_said(entries, &[("enum", "E", Some(""))]),
            Example::Kinds => are_said(entries, &SAID),
            Example::NineStatements => are_said(entries, &[("includes", "A", None); 9]),
        }
    }
}

/// Whether the entries say this, in this order.
fn are_said(entries: &[Entry<'_, '_>], said: &[Said]) -> bool {
    entries.len() == said.len()
        && entries.iter().zip(said).all(|(entry, said)| (entry.kind, entry.name, entry.docstring)
            == *said)
}

/// Whether the list has the outline of the example, and a copy is as long.
fn is_said(alloc: Global, list: &Definitions<'_>, of: Example) -> Result<bool, AllocError> {
    let is_said = of.has_outline(&outline(alloc, list)?);
    let copied = length(list.try_clone(alloc)?);
    Ok(is_said && copied == of.count())
}

/// Whether the example is read as a list that has its outline.
fn is_outlined(alloc: Global, of: Example) -> Result<bool, AllocError> {
    match Definitions::parse(alloc, of.text()) {
        Ok((_, list)) => lend(list, move |list: &Definitions<'_>| is_said(alloc, list, of)),
        Err(Err::Failure(_)) => Err(AllocError),
        Err(Err::Error(_)) => Ok(false),
    }
}

/// Asserts that the example has its outline, or that memory runs out.
fn assert_outlined(rt: &impl Abort, alloc: Global, wanted: &mut Wanted, of: Example) {
    if let Some(is_said) = wanted.given(is_outlined(alloc, of)) {
        assert!(rt; is_said, "of {:?}", of.text());
    }
}

#[test]
fn outlines_and_copies_are_made_or_want_memory(rt: HostRuntime) -> Result<(), Fail> {
    let alloc = rt.alloc();
    let mut wanted = Wanted::new();
    for _ in 0..2 {
        assert_outlined(&rt, alloc, &mut wanted, Example::TwoDefinitions);
        assert_outlined(&rt, alloc, &mut wanted, Example::EmptyDocstring);
        assert_outlined(&rt, alloc, &mut wanted, Example::Kinds);
    }
    assert!(rt; wanted.tell(&rt, alloc));
    Ok(())
}

/// The list of nine definitions grows twice, so it takes three requests, and its copy does too. An
/// outline of it takes one. Each is made once.
#[test]
fn nine_definitions_are_copied_and_outlined_by_7_requests(rt: HostRuntime) -> Result<(), Fail> {
    let alloc = rt.alloc();
    let mut wanted = Wanted::new();
    assert_outlined(&rt, alloc, &mut wanted, Example::NineStatements);
    assert!(rt; wanted.tell(&rt, alloc));
    Ok(())
}
