//! Each request for memory refused in turn: whole texts, over a table or a memo and the pass along
//! it.

use super::outcomes::{Counts, Outcome, assert_bounds, assert_within, bounded, counted};
use std::alloc::Global;
use std::process::Abort;
use std::test::Fail;
use weedle_testing::examples::{KINDS, WINDOW};
use weedle_testing::{Wanted, nested_text};

/// Texts, and what is read of each with ample memory.
const TEXTS: [(&str, Outcome<'static>); 6] = [
    (WINDOW, Outcome::Read(1)),
    (
        "interface A { ///d\n attribute long x; };",
        Outcome::Left("interface A { ///d\n attribute long x; };"),
    ),
    ("interface A { ///d\n void f(); };", Outcome::Read(1)),
    ("enum E {\"a\",\"b\",};", Outcome::Read(1)),
    ("enum E {};", Outcome::Left("enum E {};")),
    (KINDS, Outcome::Read(14)),
];

/// The outcome of the nested extended attributes.
const NESTED: Outcome<'static> = Outcome::Read(1);

/// Asserts that an answer is so or runs out of memory, which is told with the text itself; and says
/// whether it does.
fn is_wanted(
    rt: &impl Abort,
    wanted: &mut Wanted,
    text: &str,
    answer: Outcome<'_>,
    expected: Outcome<'_>,
) -> bool {
    if let Outcome::Memory(input) = answer {
        assert_eq!(rt; input, text);
        wanted.count();
        return true;
    }
    assert_eq!(rt; answer, expected, "of {text:?}");
    false
}

/// Asserts the counts of an answer: of one that runs out of memory none where the table was
/// refused, else those of the table.
fn assert_counts(rt: &impl Abort, text: &str, counts: Counts, has_none: bool) {
    if has_none {
        assert_eq!(rt; counts.visits, 0, "of {text:?}");
    }
    if has_none && counts.workings == 0 {
        assert_eq!(rt; counts.reads, 0, "of {text:?}");
    } else {
        assert_bounds(rt, text, counts);
    }
}

/// Asserts that a text is read so over a table, twice, and over a memo, or that memory runs out.
fn assert_read(
    rt: &impl Abort,
    alloc: Global,
    wanted: &mut Wanted,
    text: &str,
    expected: Outcome<'_>,
) {
    for _ in 0..2 {
        let (answer, counts) = counted(alloc, text);
        let has_none = is_wanted(rt, wanted, text, answer, expected);
        assert_counts(rt, text, counts, has_none);
    }
    let (answer, counts) = bounded(alloc, text);
    let has_none = is_wanted(rt, wanted, text, answer, expected);
    assert_within(rt, text, counts);
    assert!(rt; !has_none || counts.visits == 0, "of {text:?}");
}

#[test]
fn texts_are_read_or_want_memory(rt: HostRuntime) -> Result<(), Fail> {
    let alloc = rt.alloc();
    let mut wanted = Wanted::new();
    for (text, expected) in TEXTS {
        assert_read(&rt, alloc, &mut wanted, text, expected);
    }
    let text = nested_text(alloc, &mut wanted)?;
    assert_read(&rt, alloc, &mut wanted, &text, NESTED);
    assert!(rt; wanted.tell(&rt, alloc));
    Ok(())
}
