//! The memo of texts, beside the packrat table.

use std::alloc::{AllocError, Global};
use std::process::Abort;
use std::test::Fail;
use weedle_memo::{Memo, READS, Tables};
use weedle_rules::{Ends, Rule};

/// Texts that are read whole, in part, or not at all: each kind of row is in one of them.
const TEXTS: &[&str] = &[
    "",
    " ",
    "interface A {}; // end",
    "/* one */ enum E { \"a\", \"b\", }; /* not closed",
    "[A, B=c, C(long d, optional e f = 1)] interface mixin G : H { [I] readonly attribute J? k; };",
    "typedef (long or sequence<DOMString?>) A;\ndictionary B { required long c; d e = -0x1F; };",
    "interface A { const float b = -1.5e3; iterable<c, d>; maplike<e, f>; };\n\t A includes B;",
    "namespace A { undefined b(any... c); }; callback D = Promise<undefined> (record<DOMString, e> f);",
    "partial interface A { stringifier; getter b (unsigned long long c); }; x",
    "typedef ((((((((((a or b) or c) or d) or e) or f) or g) or h) or i) or j) or k) l;",
    "typedef sequence<sequence<sequence<sequence<sequence<long>>>>> a",
    "[A([A([A([A([A([A([A(",
    "interface \u{e9} {};",
];

/// Asserts that the memo of a text says what its packrat table says, in fewer workings-out.
fn assert_alike(
    rt: &impl Abort,
    alloc: Global,
    tables: &Tables,
    text: &str,
) -> Result<(), AllocError> {
    let ends = Ends::new(alloc, text)?;
    let memo = Memo::new(alloc, text, tables)?;
    assert_eq!(rt; memo.definitions_end(), ends.end(Rule::DEFINITIONS, 0));
    assert!(rt; memo.workings() > 0);
    assert!(rt; (memo.workings() as u128) < ends.workings());
    assert!(rt; memo.reads() >= memo.workings() as u128);
    assert!(rt; memo.reads() < ends.reads());
    assert!(rt; memo.most() <= READS);
    Ok(())
}

#[test]
fn the_memo_ends_where_the_table_does(rt: HostRuntime) -> Result<(), Fail> {
    let tables = Tables::new();
    for text in TEXTS {
        assert_alike(&rt, rt.alloc(), &tables, text)?;
    }
    Ok(())
}

/// By hand from the rows: no definition begins with `)`, so the rule of definitions alone is worked
/// out, by one look, at what it repeats.
#[test]
fn what_no_rule_begins_with_is_passed_over(rt: HostRuntime) -> Result<(), Fail> {
    let tables = Tables::new();
    for text in [")", ");;", "}interface A {};"] {
        let memo = Memo::new(rt.alloc(), text, &tables)?;
        assert_eq!(rt; memo.definitions_end(), Some(0));
        assert_eq!(rt; memo.workings(), 1);
        assert_eq!(rt; memo.reads(), 1);
        assert_eq!(rt; memo.most(), 1);
    }
    Ok(())
}

#[test]
fn every_text_has_a_memo_where_memory_is_ample(rt: HostRuntime) {
    let tables = Tables::new();
    for text in TEXTS {
        if let Ok(memo) = Memo::new(rt.alloc(), text, &tables) {
            assert!(rt; memo.definitions_end().is_some());
        }
    }
}
