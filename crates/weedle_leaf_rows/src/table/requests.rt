//! The one request of a table refused, and calls that make none.

use std::alloc::Global;
use std::process::Abort;
use std::test::Fail;
use weedle_grammar::{Class, Row, holds, row_of};
use weedle_rules::{Cell, Ends, Narrow, Rule, TABLE_RULES, Wide};
use weedle_testing::Wanted;

/// Asserts what a table says of a text that is read up to its end.
fn assert_looks(rt: &impl Abort, ends: &Ends<'_>, text: &str, is_narrow: bool) {
    assert_eq!(rt; ends.text(), text);
    assert_eq!(rt; ends.end(Rule::DEFINITIONS, 0), Some(text.len()));
    assert_eq!(rt;
        ends.workings(),
        (TABLE_RULES as u128).saturating_mul(text.len() as u128 + 1)
    );
    assert!(rt; ends.reads() >= ends.workings());
    assert_eq!(rt; ends.is_narrow(), is_narrow);
}

/// Makes the tables of a text, or counts that memory runs out.
fn make(rt: &impl Abort, alloc: Global, wanted: &mut Wanted, text: &str) {
    if let Some(ends) = wanted.given(Ends::new(alloc, text)) {
        assert_looks(rt, &ends, text, true);
    }
    if let Some(ends) = wanted.given(Ends::new_wide(alloc, text)) {
        assert_looks(rt, &ends, text, false);
    }
}

/// Each table makes one request, and what it is asked makes none.
#[test]
fn eight_tables_are_made_by_8_requests(rt: HostRuntime) -> Result<(), Fail> {
    let alloc = rt.alloc();
    let mut wanted = Wanted::new();
    for text in ["", "interface A {}; // end"] {
        make(&rt, alloc, &mut wanted, text);
        make(&rt, alloc, &mut wanted, text);
    }
    assert!(rt; wanted.tell(&rt, alloc));
    Ok(())
}

#[test]
fn no_row_and_no_cell_takes_memory(rt: HostRuntime) -> Result<(), Fail> {
    match row_of(Rule::LONG_TYPE) {
        Row::Seq(parts) => {
            assert_eq!(rt; parts.len(), 2);
            assert!(rt; parts.at(1) == Some(Rule::LONG));
        }
        _ => assert!(rt; false),
    }
    assert!(rt; Rule::new(0).is_some_and(|rule| rule.number() == 0));
    assert!(rt; holds(Class::Name, b'-'));
    assert!(rt; Narrow::fits(7) && Narrow::pack(Some(7)).unpack() == Some(7));
    assert!(rt; Wide::fits(7) && Wide::pack(None).unpack().is_none());
    assert!(rt; Wanted::new().tell(&rt, rt.alloc()));
    Ok(())
}
