//! The messages of faults.

ghost use Rattle.std.specs.Prelude.{Some};
ghost use Rattle.weedle_base.specs.FaultTexts.{kind_text, text_at_byte, end_text};

use crate::fault::{Err, Error, ErrorKind};
use std::error;
use std::fmt::{self, Display, Formatter, Write};

/// How many characters of a line are shown at most.
const SHOWN: usize = 60;

/// Says what the fault is, as `unread`.
impl Display for ErrorKind {
    ghost output = { λ kind. Some (kind_text kind) };

    fn fmt<W: Write>(&self, f: &mut Formatter<W>) -> fmt::Result {
        f.write_str(match self {
            ErrorKind::Mismatch => "mismatch",
            ErrorKind::Unread => "unread",
            ErrorKind::Memory => "out of memory",
        })
    }
}

impl error::Error for ErrorKind {}

/// Says what happened and at which byte, as `unread from byte 16 on`. Where memory was refused it
/// says no place.
impl Display for Error<usize> {
    ghost output = { λ error. Some (text_at_byte error.code error.input) };

    fn fmt<W: Write>(&self, f: &mut Formatter<W>) -> fmt::Result {
        let place = self.input;
        match self.code {
            ErrorKind::Mismatch => write!(f, "mismatch at byte {place}"),
            ErrorKind::Unread => write!(f, "unread from byte {place} on"),
            ErrorKind::Memory => ErrorKind::Memory.fmt(f),
        }
    }
}

impl error::Error for Error<usize> {}

/// Says what happened and what is there, as ``unread from `interface A
/// {` on``. It shows the first line, and of a long one sixty characters and `..`; where nothing is
/// there it says that the text ends. Where memory was refused it says no place.
impl Display for Error<&str> {
    fn fmt<W: Write>(&self, f: &mut Formatter<W>) -> fmt::Result {
        let (line, dots) = cut(first_line(self.input));
        match self.code {
            ErrorKind::Memory => ErrorKind::Memory.fmt(f),
            ErrorKind::Mismatch if self.input.is_empty() => {
                f.write_str("the text ends where more was looked for")
            }
            ErrorKind::Mismatch if line.is_empty() => {
                f.write_str("a blank line isn't what was looked for")
            }
            ErrorKind::Mismatch => write!(f, "`{line}{dots}` isn't what was looked for"),
            ErrorKind::Unread if self.input.is_empty() => {
                f.write_str("unread from the end of the text on")
            }
            ErrorKind::Unread if line.is_empty() => f.write_str("unread from a blank line on"),
            ErrorKind::Unread => write!(f, "unread from `{line}{dots}` on"),
        }
    }
}

impl error::Error for Error<&str> {}

/// Says what its fault says, and no more: `unread from byte 16 on`.
impl<E: Display> Display for Err<E> {
    ghost output = { end_text E.output };

    fn fmt<W: Write>(&self, f: &mut Formatter<W>) -> fmt::Result {
        match self {
            Err::Error(fault) | Err::Failure(fault) => fault.fmt(f),
        }
    }
}

impl<E: error::Error + Copy> error::Error for Err<E> {}

/// The first line, without the whitespace around it.
fn first_line(text: &str) -> &str {
    text.lines().next().unwrap_or("").trim()
}

/// What is shown of a line, and the dots that stand for the rest of it.
fn cut(line: &str) -> (&str, &'static str) {
    match line.char_indices().nth(SHOWN) {
        Some((end, _)) => (&line[..end], ".."),
        None => (line, ""),
    }
}
