//! What is printed of a hint.

ghost use Rattle.std.specs.Prelude.{◌≡◌, OnOk, codes};
ghost use Rattle.std.specs.Io.KnownBytes.{Appends};
ghost use Rattle.weedle_refusal.specs.Said.{
  asked,
  bytes_at as the_bytes_at,
  hint_line,
  hint_text,
};

use crate::hint::Hint;
use crate::message::write_place;
use std::io::{self, Write};

/// What is between what is meant and what is there.
const IN_PLACE: &[u8] = b"` in place of `";

/// Writes the line and the column of a hint and what it says, as one line:
///
/// ```text
/// 1:15: `attribute` in place of `atribute`?
/// ```
///
/// The text is that of the hint. It takes no memory.
pub fn write_hint<W: Write>(text: &str, hint: &Hint, out: &mut W) -> io::Result<()>
    ensures { OnOk result
        (Appends (W.contents out.old) (W.contents out.new) (hint_line text.now hint.now)) }
{
    write_place(text, hint.place(), out)?;
    out.write_all(b": ")?;
    write_words(text, *hint, out)?;
    out.write_all(b"\n")
}

/// Writes what a hint says.
fn write_words<W: Write>(text: &str, hint: Hint, out: &mut W) -> io::Result<()>
    ensures { OnOk result
        (Appends (W.contents out.old) (W.contents out.new) (hint_text text.now hint)) }
{
    match hint {
        Hint::Keyword {
            place,
            taken,
            keyword,
        } => write_asked(
            keyword.as_bytes(),
            IN_PLACE,
            bytes_at(text, place, taken),
            out,
        ),
        Hint::Missing { sign, .. } => write!(out, "`{sign}` missing here?"),
        Hint::Extra { sign, .. } => write!(out, "no `{sign}` here"),
        Hint::WrongSign { found, sign, .. } => {
            write_asked(sign.as_bytes(), IN_PLACE, found.as_bytes(), out)
        }
        Hint::WordOrder {
            place,
            taken,
            next,
            next_taken,
        } => write_asked(
            bytes_at(text, next, next_taken),
            b"` in front of `",
            bytes_at(text, place, taken),
            out,
        ),
        Hint::Docstring { .. } => out.write_all(b"no docstring here"),
        Hint::OpenString { .. } => out.write_all(b"the string opens here"),
        Hint::SplitString { .. } => out.write_all(b"the string that opens here spans lines"),
        Hint::ByteOrderMark { .. } => out.write_all(b"a byte order mark"),
        Hint::NoDefinitions => out.write_all(b"no definitions"),
    }
}

/// Writes two texts in backticks, with this between them, and a question mark.
fn write_asked<W: Write>(one: &[u8], between: &[u8], other: &[u8], out: &mut W) -> io::Result<()>
    ensures { OnOk result (Appends (W.contents out.old) (W.contents out.new)
        (asked one.now between.now other.now)) }
{
    out.write_all(b"`")?;
    out.write_all(one)?;
    out.write_all(between)?;
    out.write_all(other)?;
    out.write_all(b"`?")
}

/// So many bytes of a text from a place on, or as many as there are.
fn bytes_at(text: &str, place: usize, taken: usize) -> &[u8]
    ensures { result.now ≡ the_bytes_at text.now place taken }
{
    let from = place.min(text.len());
    let behind = &text.as_bytes()[from..];
    &behind[..taken.min(behind.len())]
}
