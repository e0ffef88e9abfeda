//! Whole texts written anew. What is wanted is by hand, from `docs/LAYOUT.md`; a name has its
//! underscore where it would be read as a keyword, as `docs/USING.md` says.

use std::alloc::{AllocError, Global};
use std::process::Abort;
use std::test::Fail;
use weedle::{WholeError, write_whole};
use weedle_testing::Wanted;

/// Texts, and what each is written as; None where it isn't read whole.
const TEXTS: [(&str, Option<&str>); 9] = [
    (
        "interface A{attribute long x;}; // of A",
        Some("interface A {\n  attribute long x;\n};\n"),
    ),
    ("A  includes\nB;", Some("A includes B;\n")),
    ("typedef long\tlong b ;", Some("typedef long long b;\n")),
    (
        "typedef sequence<_long>b;",
        Some("typedef sequence<_long> b;\n"),
    ),
    (
        "interface A{};/* between */interface B{};",
        Some("interface A {};\n\ninterface B {};\n"),
    ),
    ("", Some("")),
    (" ", None),
    ("interface A {", None),
    ("interface A {}; interface B {}", None),
];

/// What a text is written as, None where memory is wanted.
fn written(rt: &impl Abort, alloc: Global, text: &str) -> Result<Option<String>, AllocError> {
    match write_whole(alloc, text) {
        Ok(written) => Ok(written),
        Err(WholeError::Memory) => Err(AllocError),
        Err(WholeError::Differs) => panic!(rt; "{text:?} is read again as something else"),
    }
}

#[test]
fn texts_are_written_anew_or_want_memory(rt: HostRuntime) -> Result<(), Fail> {
    let alloc = rt.alloc();
    let mut wanted = Wanted::new();
    for (text, expected) in TEXTS {
        if let Some(anew) = wanted.given(written(&rt, alloc, text)) {
            assert_eq!(rt; anew.as_deref(), expected, "of {text:?}");
        }
    }
    assert!(rt; wanted.tell(&rt, alloc));
    Ok(())
}

#[test]
fn errors_say_what_is_wrong(rt: HostRuntime) -> Result<(), Fail> {
    let alloc = rt.alloc();
    for (error, expected) in [
        (WholeError::Memory, "out of memory"),
        (
            WholeError::Differs,
            "what is written isn't read as equal definitions",
        ),
    ] {
        let mut said = String::new(alloc);
        write!(said, "{error}")?;
        assert_eq!(rt; said.as_str(), expected);
    }
    Ok(())
}
