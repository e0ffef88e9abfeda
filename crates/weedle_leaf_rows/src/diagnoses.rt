//! Diagnoses, by the table and by descent, also where memory is refused: each call comes to the
//! place to which the reading of a text comes. What is expected there is tested over the built
//! programs.
//!
//! The places come from outside: from an independent program over the grammar's rows that notes its
//! failing leaves.

ghost use Rattle.std.specs.Prelude.{◌≤◌, length};

use std::alloc::Global;
use std::process::Abort;
use std::test::Fail;
use weedle_refusal::diagnose::{diagnose_by_descent, diagnose_from, diagnose_quick};
use weedle_rules::Ends;
use weedle_testing::{Wanted, repeated};

/// Asserts that each way says of a text whose definitions are read from a place on, which is at
/// most its length, that the reading comes to this place; where there is none it comes to the end,
/// and descent gives up.
fn assert_furthest(
    rt: &impl Abort,
    alloc: Global,
    wanted: &mut Wanted,
    text: &str,
    start: usize,
    furthest: Option<usize>,
)
    requires { start ≤ length text.now }
{
    let place = furthest.unwrap_or(text.len());
    match Ends::new(alloc, text) {
        Ok(ends) => {
            if let Some(diagnosis) = wanted.given(diagnose_from(alloc, &ends, start)) {
                assert_eq!(rt; diagnosis.place, place, "{text}");
                assert!(rt; !diagnosis.expected.is_empty(), "{text}");
            }
        }
        Err(_) => wanted.count(),
    }
    if let Some(diagnosis) = wanted.given(diagnose_quick(alloc, text, start)) {
        assert_eq!(rt; diagnosis.place, place, "{text}");
    }
    if let Some(found) = wanted.given(diagnose_by_descent(alloc, text, start)) {
        assert!(rt;
            found.map(|diagnosis| diagnosis.place) == furthest,
            "{text}"
        );
    }
}

#[test]
fn diagnoses_are_made_or_want_memory(rt: HostRuntime) -> Result<(), Fail> {
    let alloc = rt.alloc();
    let mut wanted = Wanted::new();
    for (text, furthest) in [
        ("", 0),
        ("interface A { readonly attribute x; };", 34),
        ("interface A { readonly attribute long x };", 40),
        ("enum E { \"a\", \"b\" \"c\" };", 18),
        ("interface A { const long x = 0x; };", 31),
        ("interface A {}; /* open", 18),
        ("foo", 3),
        ("[A] ///d\ninterface B {};", 6),
    ] {
        assert_furthest(&rt, alloc, &mut wanted, text, 0, Some(furthest));
    }
    let open = "interface A {}; /* open";
    assert_furthest(&rt, alloc, &mut wanted, open, 16, Some(18));
    assert!(rt; wanted.tell(&rt, alloc));
    Ok(())
}

/// What nests too deep for descent, the table says.
#[test]
fn descent_gives_up_where_a_text_nests_deep(rt: HostRuntime) -> Result<(), Fail> {
    let alloc = rt.alloc();
    let text = repeated(alloc, "typedef ", "(", 200, "")?;
    assert_furthest(&rt, alloc, &mut Wanted::new(), &text, 0, None);
    Ok(())
}
