//! What errors say, and that `?` takes them along.
//!
//! The texts are those that the docs of the errors promise, written by hand.

ghost use Rattle.std.specs.Prelude.{◌≤◌, length};

use std::alloc::{AllocError, Global};
use std::fmt::Display;
use std::test::Fail;
use weedle_base::{Err, Error, ErrorKind, at_byte};

/// Fails as a call that leaves this of the text. The error owns nothing of it, and says the byte.
fn say_byte(text: &str, input: &str) -> anyhow::Result<()>
    requires { length input.now ≤ length text.now }
{
    let code = ErrorKind::Unread;
    let fault = at_byte(text, Err::Error(Error { input, code }));
    let answer: Result<(), Err<Error<usize>>> = Err(fault);
    Ok(answer?)
}

/// Fails as a call that leaves this of a text which lives as long as the program. The error shows
/// it.
fn show_rest(input: &'static str) -> anyhow::Result<()> {
    let code = ErrorKind::Unread;
    let answer: Result<(), Err<Error<&'static str>>> = Err(Err::Error(Error { input, code }));
    Ok(answer?)
}

/// Whether it is printed so.
fn says<T: Display + Drop>(alloc: Global, it: T, wanted: &str) -> Result<bool, AllocError> {
    Ok(format!(in alloc; "{it}")?.as_str() == wanted)
}

#[test]
fn errors_are_taken_along(rt: HostRuntime) -> Result<(), Fail> {
    let alloc = rt.alloc();
    let (text, rest) = ("interface A {}; interface B", "interface B");
    if rest.len() <= text.len() {
        match say_byte(text, rest) {
            Ok(_) => return Err(Fail::new(text)),
            Err(error) => assert!(rt; says(alloc, error, "unread from byte 16 on")?),
        }
    }
    match show_rest(rest) {
        Ok(_) => return Err(Fail::new(rest)),
        Err(error) => assert!(rt; says(alloc, error, "unread from `interface B` on")?),
    }
    Ok(())
}

#[test]
fn an_error_of_a_rest_shows_its_first_line(rt: HostRuntime) -> Result<(), Fail> {
    for (input, code, wanted) in [
        ("{}", ErrorKind::Mismatch, "`{}` isn't what was looked for"),
        ("{}", ErrorKind::Unread, "unread from `{}` on"),
        ("{}", ErrorKind::Memory, "out of memory"),
        (
            "",
            ErrorKind::Mismatch,
            "the text ends where more was looked for",
        ),
        ("", ErrorKind::Unread, "unread from the end of the text on"),
        (
            "interface B\n{",
            ErrorKind::Unread,
            "unread from `interface B` on",
        ),
        (
            "\ninterface A",
            ErrorKind::Unread,
            "unread from a blank line on",
        ),
        // A line is cut at sixty characters.
        (
            "typedef aaaaaaaaaaaaaaaaaaaaaaaaaaaaaaaaaaaaaaaaaaaaaaaaaaaaaaaaaaaaaaaaaaaaaaaa",
            ErrorKind::Unread,
            "unread from `typedef aaaaaaaaaaaaaaaaaaaaaaaaaaaaaaaaaaaaaaaaaaaaaaaaaaaa..` on",
        ),
        (
            "ééééééééééééééééééééééééééééééééééééééééééééééééééééééééééééé",
            ErrorKind::Unread,
            "unread from `éééééééééééééééééééééééééééééééééééééééééééééééééééééééééééé..` on",
        ),
    ] {
        assert!(rt;
            says(rt.alloc(), Err::Error(Error { input, code }), wanted)?,
            "of {input:?}"
        );
    }
    Ok(())
}

#[test]
fn an_error_of_a_place_says_the_byte(rt: HostRuntime) -> Result<(), Fail> {
    let input = 3usize;
    for (code, of_place, of_kind) in [
        (ErrorKind::Mismatch, "mismatch at byte 3", "mismatch"),
        (ErrorKind::Unread, "unread from byte 3 on", "unread"),
        (ErrorKind::Memory, "out of memory", "out of memory"),
    ] {
        assert!(rt; says(rt.alloc(), Err::Failure(Error { input, code }), of_place)?);
        assert!(rt; says(rt.alloc(), code, of_kind)?);
    }
    Ok(())
}
