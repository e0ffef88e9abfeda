//! `Parse` and `TryClone` for the standard library's types, also where memory is refused.
//!
//! The values of weedle2's types are those that it prints; of the others they are by hand, from the
//! contracts.

use crate::users::{Fuse, Nothing};
use std::alloc::AllocError;
use std::test::Fail;
use weedle_base::term::{Comma, Dot, Or};
use weedle_base::{Choice, Parse, TryClone};
use weedle_parts::common::Identifier;
use weedle_testing::{Wanted, fails_at, reads_with_no_memory, refuses};

#[test]
fn no_tuple_takes_memory(rt: HostRuntime) -> Result<(), Fail> {
    let alloc = rt.alloc();
    reads_with_no_memory::<(Comma, Dot)>(
        alloc,
        &[
            // A tuple reads its parts in order.
            (", .x", "x", "(Comma, Dot)"),
        ],
        &[",,"],
    )?;
    reads_with_no_memory::<(Comma, Option<Dot>)>(
        alloc,
        &[(",", "", "(Comma, None)"), (",.", "", "(Comma, Some(Dot))")],
        &[],
    )?;
    reads_with_no_memory::<(Comma, Dot, Or)>(
        alloc,
        &[
            // A tuple reads its parts in order.
            (",.or", "", "(Comma, Dot, Or)"),
        ],
        &[],
    )?;
    assert!(rt; Wanted::new().tell(&rt, alloc));
    Ok(())
}

#[test]
fn standard_types_are_read_and_copied_or_want_memory(rt: HostRuntime) -> Result<(), Fail> {
    let alloc = rt.alloc();
    let mut wanted = Wanted::new();
    wanted.reads::<Option<Comma>>(
        alloc,
        &[
            // An option takes nothing where its value is refused.
            (",x", "x", "Some(Comma)"),
            (" x", " x", "None"),
        ],
        &[],
    )?;
    wanted.reads::<Box<Comma>>(
        alloc,
        &[
            // A box holds what is read.
            (", x", "x", "Comma"),
            (",", "", "Comma"),
        ],
        &[],
    )?;
    wanted.reads::<Option<Box<Comma>>>(alloc, &[(",", "", "Some(Comma)"), ("", "", "None")], &[])?;
    wanted.reads::<(Comma, Box<Or>)>(alloc, &[(",or", "", "(Comma, Or)")], &[])?;
    wanted.reads::<(Comma, Or, Box<Comma>)>(alloc, &[(",or,", "", "(Comma, Or, Comma)")], &[])?;
    wanted.reads::<Vec<Comma>>(
        alloc,
        &[
            ("", "", "[]"),
            (",,,,,", "", "[Comma, Comma, Comma, Comma, Comma]"),
        ],
        &[],
    )?;
    assert!(rt; wanted.tell(&rt, alloc));
    Ok(())
}

#[test]
fn a_list_reads_items_until_one_is_refused(rt: HostRuntime) {
    match Vec::<(Comma, Option<Dot>)>::parse(rt.alloc(), ",,.x") {
        Ok((rest, list)) => {
            assert!(rt; rest == "x");
            assert!(rt; list.as_slice() == [(Comma, None), (Comma, Some(Dot))].as_slice());
        }
        Err(_) => assert!(rt; false),
    }
}

#[test]
fn an_item_that_takes_nothing_refuses_the_list(rt: HostRuntime) -> Result<(), Fail> {
    let alloc = rt.alloc();
    refuses::<Vec<Option<Comma>>>(alloc, &["x", ",x", ""])?;
    refuses::<Vec<Nothing>>(alloc, &["x", ",x", ""])?;
    Ok(())
}

#[test]
fn a_failure_ends_the_call(rt: HostRuntime) -> Result<(), Fail> {
    let alloc = rt.alloc();
    fails_at::<Option<Fuse>>(alloc, "!", "!")?;
    fails_at::<Box<Fuse>>(alloc, "!", "!")?;
    fails_at::<(Comma, Fuse)>(alloc, ",!", "!")?;
    refuses::<(Dot, Fuse)>(alloc, &[",!"])?;
    fails_at::<Vec<Fuse>>(alloc, "!", "!")?;
    fails_at::<Vec<(Comma, Fuse)>>(alloc, ",!", "!")?;
    Ok(())
}

#[test]
fn copies_equal_their_originals_or_want_memory(rt: HostRuntime) -> Result<(), Fail> {
    let alloc = rt.alloc();
    let mut wanted = Wanted::new();
    for _ in 0..2 {
        if let Some(text) = wanted.given(String::from_str(alloc, "é")) {
            assert!(rt; wanted.copies(alloc, &text, "\"é\""));
        }
        if let Some(boxed) = wanted.given(Box::new(alloc, Or).map_err(AllocError::from)) {
            assert!(rt; wanted.copies(alloc, &Some(boxed), "Some(Or)"));
        }
        if let Some(list) = wanted.given([Comma, Comma].to_vec(alloc)) {
            assert!(rt; wanted.copies(alloc, &(Or, list), "(Or, [Comma, Comma])"));
        }
    }
    assert!(rt; wanted.copies(alloc, &(Comma, Or, Comma), "(Comma, Or, Comma)"));
    assert!(rt; wanted.tell(&rt, alloc));
    Ok(())
}

/// A second alternative that is read would ask for memory, also where its value is let go of.
#[test]
fn no_choice_reads_on_where_the_first_fits(rt: HostRuntime) -> Result<(), Fail> {
    let alloc = rt.alloc();
    match Choice::<Identifier<'_>, Box<Identifier<'_>>>::parse(alloc, "a") {
        Ok((rest, Choice::First(name))) => {
            assert_eq!(rt; rest, "");
            assert_eq!(rt; name, Identifier("a"));
        }
        _ => assert!(rt; false),
    }
    assert!(rt; Wanted::new().tell(&rt, alloc));
    Ok(())
}
