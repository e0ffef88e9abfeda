//! Whole texts over narrow and over wide tables, and over a memo: each is read or left within the
//! bounds of table, memo and tree. That the readers' lists are equal is proved; what is in them is
//! tested over the programs, which descend where that suits a text.

use super::outcomes::{
    Outcome, assert_bounds, assert_within, bounded, built, built_by_memo, counted,
};
use std::alloc::{AllocError, Global};
use std::process::Abort;
use std::test::Fail;
use weedle_memo::{Memo, Tables};
use weedle_rules::{Ends, TABLE_RULES};
use weedle_testing::examples::{TEXTS, WINDOW};
use weedle_testing::{nested_attributes, repeated};

/// Asserts that the passes over both tables and the memo give this, with so many visits.
fn assert_built(
    rt: &impl Abort,
    alloc: Global,
    text: &str,
    expected: Outcome<'_>,
    visits: u128,
) -> Result<(), AllocError> {
    let narrow = Ends::new(alloc, text)?;
    let wide = Ends::new_wide(alloc, text)?;
    assert!(rt; narrow.is_narrow() && !wide.is_narrow(), "of {text:?}");
    assert_eq!(rt;
        (narrow.workings(), narrow.reads()),
        (wide.workings(), wide.reads()),
        "of {text:?}"
    );
    let (first, second) = (built(alloc, &narrow, text)?, built(alloc, &wide, text)?);
    let tables = Tables::new();
    let memo = Memo::new(alloc, text, &tables)?;
    let third = built_by_memo(alloc, &memo, text)?;
    assert!(rt;
        first == second && first == third && first.2 == visits,
        "of {text:?}"
    );
    match expected {
        Outcome::Left(left) => assert_eq!(rt; first.1, left, "of {text:?}"),
        _ => assert_eq!(rt;
            (Outcome::Read(first.0), first.1),
            (expected, ""),
            "of {text:?}"
        ),
    }
    Ok(())
}

/// Asserts that `parse_bounded` gives this within its bounds, with so many visits, and has the
/// other counts from the memo of the text.
fn assert_bounded(
    rt: &impl Abort,
    alloc: Global,
    text: &str,
    expected: Outcome<'_>,
    visits: u128,
) -> Result<(), AllocError> {
    let (answer, counts) = bounded(alloc, text);
    assert_within(rt, text, counts);
    assert!(rt;
        answer == expected && counts.visits == visits,
        "of {text:?}"
    );
    let tables = Tables::new();
    let memo = Memo::new(alloc, text, &tables)?;
    assert_eq!(rt;
        (counts.workings, counts.reads),
        (memo.workings() as u128, memo.reads()),
        "of {text:?}"
    );
    Ok(())
}

/// Asserts that a text gives this within the bounds; how many nodes are visited.
fn assert_read(
    rt: &impl Abort,
    alloc: Global,
    text: &str,
    expected: Outcome<'_>,
) -> Result<u128, AllocError> {
    let (answer, counts) = counted(alloc, text);
    assert_bounds(rt, text, counts);
    assert_eq!(rt; answer, expected, "of {text:?}");
    assert_bounded(rt, alloc, text, expected, counts.visits)?;
    assert_built(rt, alloc, text, expected, counts.visits)?;
    Ok(counts.visits)
}

/// What is read of them is told by the built programs: here it is the same in each way.
#[test]
fn every_text_is_read_alike_in_bounded_steps(rt: HostRuntime) -> Result<(), Fail> {
    let alloc = rt.alloc();
    for text in TEXTS {
        assert_read(&rt, alloc, text, counted(alloc, text).0)?;
    }
    Ok(())
}

/// How many nodes the tree has is by hand.
#[test]
fn each_node_of_the_tree_is_visited_once(rt: HostRuntime) -> Result<(), Fail> {
    for (text, outcome, visits) in [
        ("", Outcome::Read(0), 1),
        ("  ", Outcome::Left("  "), 1),
        ("enum E {\"a\"};", Outcome::Read(1), 15),
        (WINDOW, Outcome::Read(1), 30),
    ] {
        let many = assert_read(&rt, rt.alloc(), text, outcome)?;
        assert_eq!(rt; many, visits, "of {text:?}");
    }
    Ok(())
}

/// By hand from the rows: no definition begins with `)`, so the rule of definitions alone is worked
/// out, by one look, at what it repeats. Its tree is the empty list.
#[test]
fn a_memo_counts_what_the_reading_tries(rt: HostRuntime) {
    let (answer, counts) = bounded(rt.alloc(), ")");
    assert_eq!(rt; answer, Outcome::Left(")"));
    assert_eq!(rt; (counts.workings, counts.reads), (1, 1));
    assert_eq!(rt; counts.visits, 1);
    let (answer, counts) = bounded(rt.alloc(), "enum E {\"a\"};");
    assert_eq!(rt; answer, Outcome::Read(1));
    assert!(rt; counts.workings > 1 && counts.workings < 100);
}

/// The counts are by hand: how many rules there are at each place. A place takes milliseconds where
/// accesses are checked, so texts of 300 kB of these kinds are for the built programs:
/// `tests/memory.toml` has them.
#[test]
fn long_texts_are_read_in_bounded_steps(rt: HostRuntime) -> Result<(), Fail> {
    let alloc = rt.alloc();
    let read = Outcome::Read(1);
    let text = nested_attributes(alloc, 39)?;
    assert_eq!(rt; text.len(), 495);
    assert_read(&rt, alloc, &text, read)?;
    let (_, counts) = counted(alloc, &text);
    assert_eq!(rt; counts.workings, TABLE_RULES as u128 * 496);
    assert!(rt; counts.workings <= 198_400 && counts.visits <= 4_960_000);
    let text = nested_attributes(alloc, 199)?;
    assert_eq!(rt; text.len(), 2_415);
    assert_read(&rt, alloc, &text, read)?;
    let text = repeated(alloc, "typedef ", "(", 1_000, "")?;
    assert_read(&rt, alloc, &text, Outcome::Left(&text))?;
    let text = repeated(alloc, "", "/* ", 100, "")?;
    assert_read(&rt, alloc, &text, Outcome::Left(&text))?;
    let (_, counts) = counted(alloc, &text);
    assert_eq!(rt; counts.workings, TABLE_RULES as u128 * 301);
    assert!(rt; counts.workings <= 120_400);
    let text = repeated(alloc, "enum E {", "\"a\",", 300, "};")?;
    assert_eq!(rt; text.len(), 1_210);
    assert_read(&rt, alloc, &text, Outcome::Read(1))?;
    Ok(())
}
