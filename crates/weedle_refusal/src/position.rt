//! Lines and columns.

ghost use Rattle.std.specs.Prelude.{◌≡◌, ◌==◌, ◌≤◌, Some, length, count_by};
ghost use Rattle.weedle_refusal.specs.Position.{IsPositionOf, begins_character, last_line};
ghost use Rattle.weedle_refusal.specs.Texts.{position_text};

use std::fmt::{self, Display, Formatter, Write};

/// A place of a text, as people count it. Both numbers begin at 1.
#[derive(Clone, Copy, Debug, PartialEq, Eq)]
pub struct Position {
    /// The line.
    pub line: usize,
    /// The column, in characters from the front of the line.
    pub column: usize,
}

/// Says the line and the column, as `3:14`.
impl Display for Position {
    ghost output = { λ position. Some (position_text position) };

    fn fmt<W: Write>(&self, f: &mut Formatter<W>) -> fmt::Result {
        let Position { line, column } = *self;
        write!(f, "{line}:{column}")
    }
}

/// The line and the column of a place, which is given in bytes from the front of the text.
///
/// In `interface A {\n  é ?` the `?` has the place 19; it is in line 2, at column 5. A line ends
/// with its LF. A tab counts as one character, and so does the CR of a CRLF. The place behind the
/// last byte of a text has a position too.
///
/// It looks twice at most at each byte before the place, and takes no memory.
pub fn position_of(text: &str, place: usize) -> Position
    requires { place ≤ length text.now }
    ensures { IsPositionOf text.now place result }
{
    let before = &text.as_bytes()[..place];
    Position {
        line: 1 + line_feeds(before),
        column: 1 + characters_of_last_line(before),
    }
}

/// How many bytes are LFs.
fn line_feeds(bytes: &[u8]) -> usize
    ensures value { result ≡ count_by (λ byte. byte == 10) bytes.now }
    ensures few { result ≤ length bytes.now }
{
    bytes.iter().filter(|byte| **byte == b'\n').count()
}

/// How many characters begin behind the last LF.
pub(crate) fn characters_of_last_line(bytes: &[u8]) -> usize
    ensures value { result ≡ count_by begins_character (last_line bytes.now) }
    ensures few { result ≤ length bytes.now }
{
    bytes
        .iter()
        .rev()
        .take_while(|byte| **byte != b'\n')
        .filter(|byte| **byte < 128 || **byte >= 192)
        .count()
}
