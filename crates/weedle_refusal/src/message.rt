//! What is printed of a text that is refused.

ghost use Rattle.std.specs.Prelude.{◌≡◌, ◌==◌, ◌≤◌, OnOk, length, not, take_while};
ghost use Rattle.std.specs.Io.KnownBytes.{Appends};
ghost use Rattle.weedle_refusal.specs.Excerpt.{
  before_return as the_before_return,
  line_at as the_line_at,
  line_end as the_line_end,
  line_start as the_line_start,
  message_text,
};
ghost use Rattle.weedle_refusal.specs.Position.{last_line};
ghost use Rattle.weedle_refusal.specs.Said.{place_text};

use crate::excerpt::write_excerpt;
use crate::position::{characters_of_last_line, position_of};
use std::io::{self, Write};

/// Writes the line and the column of a place of a text, what is said of it, and below that the line
/// with a mark:
///
/// ```text
/// 3:1: expected `;`
/// };
/// ^
/// ```
///
/// The place is given in bytes from the front of the text. One behind the end of the text is taken
/// as that end. Its errors are those of writing.
pub fn write_message<W: Write>(text: &str, place: usize, said: &str, out: &mut W) -> io::Result<()>
    ensures { OnOk result (Appends (W.contents out.old) (W.contents out.new)
        (message_text text.now place said.now)) }
{
    let place = place.min(text.len());
    write_place(text, place, out)?;
    out.write_all(b": ")?;
    out.write_all(said.as_bytes())?;
    out.write_all(b"\n")?;
    let column = characters_of_last_line(&text.as_bytes()[..place]);
    write_excerpt(line_at(text, place), column, out)
}

/// Writes the line and the column of a place, as `3:14`.
pub(crate) fn write_place<W: Write>(text: &str, place: usize, out: &mut W) -> io::Result<()>
    ensures { OnOk result
        (Appends (W.contents out.old) (W.contents out.new) (place_text text.now place)) }
{
    let position = position_of(text, place.min(text.len()));
    write!(out, "{position}")
}

/// The line of a text in which a place is, without what ends it.
fn line_at(text: &str, place: usize) -> &str
    requires { place ≤ length text.now }
    ensures { result.now ≡ the_line_at text.now place }
{
    let bytes = text.as_bytes();
    let start = line_start(bytes, place);
    let end = before_return(bytes, start, line_end(bytes, place));
    &text[start..end]
}

/// Where the line of a place begins: behind the last LF before it.
fn line_start(bytes: &[u8], place: usize) -> usize
    requires { place ≤ length bytes.now }
    ensures value { result ≡ the_line_start bytes.now place }
    ensures before { result ≤ place }
{
    place - length_of_last_line(&bytes[..place])
}

/// Where the line of a place ends: at the first LF from the place on, or with the text.
fn line_end(bytes: &[u8], place: usize) -> usize
    requires { place ≤ length bytes.now }
    ensures value { result ≡ the_line_end bytes.now place }
    ensures after { place ≤ result }
    ensures within { result ≤ length bytes.now }
{
    place + length_of_first_line(&bytes[place..])
}

/// How many bytes follow the last LF.
fn length_of_last_line(bytes: &[u8]) -> usize
    ensures value { result ≡ length (last_line bytes.now) }
    ensures few { result ≤ length bytes.now }
{
    bytes
        .iter()
        .rev()
        .take_while(|byte| **byte != b'\n')
        .count()
}

/// How many bytes come before the first LF.
fn length_of_first_line(bytes: &[u8]) -> usize
    ensures value { result ≡ length (take_while (λ byte. not (byte == 10)) bytes.now) }
    ensures few { result ≤ length bytes.now }
{
    bytes.iter().take_while(|byte| **byte != b'\n').count()
}

/// The end, or in front of a CR that an LF ends there.
fn before_return(bytes: &[u8], start: usize, end: usize) -> usize
    requires { end ≤ length bytes.now }
    ensures { result ≡ the_before_return bytes.now start end }
{
    if end < bytes.len() && start < end && bytes[end - 1] == b'\r' {
        end - 1
    } else {
        end
    }
}
