//! The packrat table.

use std::alloc::{AllocError, Global};
use std::process::Abort;
use std::test::Fail;
use weedle_rules::{Cell, Ends, Narrow, READS, Rule, TABLE_RULES, Wide};
use weedle_testing::examples::TEXTS;
use weedle_testing::{nested_attributes, repeated};

#[test]
fn definitions_end_where_the_grammar_says(rt: HostRuntime) -> Result<(), Fail> {
    let alloc = rt.alloc();
    let ends = Ends::new(alloc, "")?;
    assert_eq!(rt; ends.end(Rule::DEFINITIONS, 0), Some(0));
    assert_eq!(rt; ends.workings(), TABLE_RULES as u128);
    assert_eq!(rt; Ends::new(alloc, "  ")?.end(Rule::DEFINITIONS, 0), Some(0));
    let text = "interface A {}; // end";
    let ends = Ends::new(alloc, text)?;
    assert_eq!(rt; ends.end(Rule::DEFINITIONS, 0), Some(22));
    assert_eq!(rt; ends.end(Rule::DEFINITION, 1), None);
    assert_eq!(rt; ends.text(), text);
    assert!(rt; ends.is_narrow());
    Ok(())
}

#[test]
fn what_is_asked_changes_nothing(rt: HostRuntime) -> Result<(), Fail> {
    let text = nested_attributes(rt.alloc(), 39)?;
    assert_eq!(rt; text.len(), 495);
    let ends = Ends::new(rt.alloc(), &text)?;
    let workings = ends.workings();
    let reads = ends.reads();
    assert_eq!(rt; workings, TABLE_RULES as u128 * 496);
    assert_eq!(rt; ends.end(Rule::DEFINITIONS, 0), Some(495));
    assert_eq!(rt; ends.end(Rule::DEFINITIONS, 0), Some(495));
    assert_eq!(rt; ends.workings(), workings);
    assert_eq!(rt; ends.reads(), reads);
    Ok(())
}

#[test]
fn unclosed_comments_are_read_in_bounded_steps(rt: HostRuntime) -> Result<(), Fail> {
    let text = repeated(rt.alloc(), "", "/* ", 1_000, "")?;
    let ends = Ends::new(rt.alloc(), &text)?;
    assert_eq!(rt; ends.end(Rule::DEFINITIONS, 0), Some(0));
    let workings = TABLE_RULES as u128 * 3_001;
    assert_eq!(rt; ends.workings(), workings);
    assert!(rt; ends.reads() >= workings);
    assert!(rt; ends.reads() <= READS as u128 * workings);
    Ok(())
}

#[test]
fn cells_give_back_what_they_hold(rt: HostRuntime) {
    assert!(rt; Narrow::fits(4_294_967_294));
    assert!(rt; !Narrow::fits(4_294_967_295));
    assert_eq!(rt; Narrow::pack(None).unpack(), None);
    assert_eq!(rt; Narrow::pack(Some(0)).unpack(), Some(0));
    assert_eq!(rt;
        Narrow::pack(Some(4_294_967_294)).unpack(),
        Some(4_294_967_294)
    );
    assert!(rt; Wide::fits(usize::MAX));
    assert_eq!(rt; Wide::pack(None).unpack(), None);
    assert_eq!(rt; Wide::pack(Some(usize::MAX)).unpack(), Some(usize::MAX));
}

/// Texts of the worked examples that single types are given.
const PARTS: [&str; 66] = [
    "DOMStringMap",
    "longé",
    "record<DOMString?, short>",
    "record<u64, short>",
    "()",
    "(a or)",
    "Promise<long>?",
    "optional... x",
    "long x = 5",
    "optional long x = 5",
    "_9a-b c",
    "__x",
    "_interface",
    "0x;",
    "-0x",
    "08",
    "-0",
    ",x",
    ";;",
    "///a\n ///b\nx",
    "///a\r\nx",
    "///a",
    "stringifier;",
    "stringifier();",
    "1.5e",
    "-.5E+3x",
    "1e3",
    "5.",
    "+Infinity",
    "(  anything",
    "  -Infinity  ",
    "long-x",
    "([Clamp] byte or [Named] byte)",
    "Exposed=(Window,Worker)",
    "NamedConstructor=Image(DOMString src)",
    "PutForwards=name",
    "Reflect=\"x\"",
    "\"a\nb\" c",
    "\"a",
    "const long X = 0;",
    "const long X = 0x;",
    "readonly attribute long x;",
    "required x;",
    "// a\n/* b */ c",
    " //x",
    "- Infinity",
    "  ///\n///b\n",
    "a, b ,",
    ",,.x",
    "unsigned long long ?x",
    "-0x1F",
    "[ ]",
    "any?",
    "sequence<long",
    "((a or b)? or c)?",
    "(long or or)",
    "[A] [B] long x",
    "[A,]",
    "FrozenArray<short>",
    "[A] iterable<long, long>;",
    "async iterable<long>(long x);",
    "constructor();",
    "getter any (long i);",
    "///d\nconst long X = 0;",
    "stringifier readonly attribute long x;",
    "dictionary D { ///d\n long x = 5; };",
];

/// Asserts that a table of narrow cells and one of wide cells say the same of the text.
fn assert_tables_agree(rt: &impl Abort, alloc: Global, text: &str) -> Result<(), AllocError> {
    let narrow = Ends::new(alloc, text)?;
    let wide = Ends::new_wide(alloc, text)?;
    assert!(rt; narrow.is_narrow() && !wide.is_narrow());
    assert_eq!(rt; narrow.workings(), wide.workings());
    assert_eq!(rt; narrow.reads(), wide.reads());
    for place in 0..text.len() + 1 {
        for number in 0..TABLE_RULES as u16 {
            if let Some(rule) = Rule::new(number) {
                assert_eq!(rt;
                    narrow.end(rule, place),
                    wide.end(rule, place),
                    "rule {number} at {place} of {text:?}"
                );
            }
        }
    }
    Ok(())
}

#[test]
fn narrow_and_wide_cells_say_the_same(rt: HostRuntime) -> Result<(), Fail> {
    let alloc = rt.alloc();
    for text in TEXTS.iter().chain(&PARTS) {
        assert_tables_agree(&rt, alloc, text)?;
    }
    assert_tables_agree(&rt, alloc, &nested_attributes(alloc, 39)?)?;
    assert_tables_agree(&rt, alloc, &repeated(alloc, "", "/* ", 100, "")?)?;
    Ok(())
}
