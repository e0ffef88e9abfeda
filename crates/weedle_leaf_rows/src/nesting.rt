//! How deep texts nest or seem to, and for which of them descent isn't. A run that took descent for
//! one that it isn't for would not end: `weedle_list` is run over such texts too, as
//! tests/runs.toml has them, and tests/families.txt has longer ones for the library.

use std::process::Abort;
use std::test::Fail;
use weedle_nesting::{Depths, nesting, suits_descent};
use weedle_testing::{nested_attributes, repeated};

/// Asserts how deep a text nests, and whether descent is for it.
fn assert_nesting(rt: &impl Abort, text: &str, attributes: usize, brackets: usize, suits: bool) {
    let depths = Depths {
        attributes,
        brackets,
    };
    assert_eq!(rt;
        (nesting(text), suits_descent(text)),
        (depths, suits),
        "of {text:?}"
    );
}

#[test]
fn texts_that_nest_deep_are_not_for_descent(rt: HostRuntime) -> Result<(), Fail> {
    let alloc = rt.alloc();
    assert_nesting(&rt, &nested_attributes(alloc, 199)?, 200, 200, false);
    for part in [
        "[A(",
        "[A(optional long a = \"]\", ",
        "[A(/*]*/",
        "[A(//]\n",
        "[A(/*\"*/optional long a = \"/*]//\", /*//\"]*/",
        "[A(//\"/*]\n",
    ] {
        assert_nesting(&rt, &repeated(alloc, "", part, 30, "")?, 30, 30, false);
    }
    for (part, times, suits) in [
        ("(", 1_000, true),
        ("(", 1_001, false),
        ("sequence<", 1_001, false),
    ] {
        let text = repeated(alloc, "typedef ", part, times, "")?;
        assert_nesting(&rt, &text, 0, times, suits);
    }
    let text = repeated(alloc, "[A([A([A(", "(a or b)... c, ", 500, "")?;
    assert_nesting(&rt, &text, 3, 4, false);
    // Behind a `;` no bracket is open that descent could read again.
    let text = repeated(alloc, "[A(", "interface A { [A(long a) };", 30, "")?;
    assert_nesting(&rt, &text, 31, 2, true);
    let text = repeated(
        alloc,
        "[A([A([A([A(",
        "interface A { attribute long x; };\n",
        300,
        "",
    )?;
    assert_nesting(&rt, &text, 4, 4, true);
    let text = repeated(
        alloc,
        "[A([A([A([A(",
        "interface A { \";\" /* ; */ }\n",
        300,
        "",
    )?;
    assert_nesting(&rt, &text, 4, 4, false);
    let nested = nested_attributes(alloc, 4)?;
    let text = repeated(alloc, &nested, "interface A {};\n", 6_250, "")?;
    assert_nesting(&rt, &text, 5, 5, true);
    Ok(())
}

#[test]
fn strings_and_comments_hide_brackets(rt: HostRuntime) {
    for (text, attributes, brackets) in [
        ("", 0, 0),
        ("[", 1, 0),
        ("][", 1, 0),
        ("[]][[", 2, 0),
        ("\"[\"[", 1, 0),
        ("\"[[", 0, 0),
        ("// [\n[", 1, 0),
        ("/// [\n[", 1, 0),
        ("// [[", 0, 0),
        ("/* [ */[", 1, 0),
        ("/*/ [ */[", 1, 0),
        ("/**/[[", 2, 0),
        ("/***/[", 1, 0),
        ("/* [ * / */[", 1, 0),
        ("/* [", 0, 0),
        ("/[", 1, 0),
        ("/ /[", 1, 0),
        ("\"//\"[", 1, 0),
        ("/*\"*/[", 1, 0),
        ("//\"\n[", 1, 0),
        ("(<>)<(", 0, 2),
        (">)(", 0, 1),
        ("[(])", 1, 1),
    ] {
        assert_eq!(rt;
            nesting(text),
            Depths {
                attributes,
                brackets
            },
            "of {text:?}"
        );
    }
}
