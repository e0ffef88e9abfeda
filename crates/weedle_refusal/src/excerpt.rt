//! A line of a text with a mark below a place of it.

ghost use Rattle.std.specs.Prelude.{
  ◌≡◌,
  ◌≤◌,
  ◌+◌,
  ◌*◌,
  [],
  ◌∷◌,
  OnOk,
  length,
  take,
  if◌then◌else◌,
};
ghost use Rattle.std.specs.Io.KnownBytes.{Appends};
ghost use Rattle.std.specs.Str.{chars};
ghost use Rattle.weedle_refusal.specs.Excerpt.{
  along,
  behind as the_behind,
  below,
  blank,
  character_text,
  excerpt_text,
  first_shown as the_first_shown,
  hex_digit as the_hex_digit,
  is_hidden as the_is_hidden,
  next as the_next,
  number_text,
  shown,
  width as the_width,
};

use std::io::{self, Write};

/// How wide what is shown of a line is at most, in characters.
const WIDTH: usize = 100;

/// What is in the line of the mark below a character that is shown by its number, as `U+00A0`.
const BELOW_NUMBER: &str = "      ";

/// Writes a line, and below it a `^` behind what is as wide.
///
/// In a longer line it shows 100 characters around the place. A tab in front of the mark is written
/// as a tab, so that the mark is below its place whatever a tab's width is. What can't be seen is
/// shown by its number, as `U+00A0`: other control characters, a no-break space, what has no width,
/// and what turns the direction of a line. Its errors are those of writing.
pub fn write_excerpt<W: Write>(line: &str, column: usize, out: &mut W) -> io::Result<()>
    ensures { OnOk result
        (Appends (W.contents out.old) (W.contents out.new) (excerpt_text line.now column)) }
{
    let first = first_shown(width_of(line), width_before(line, column));
    write_shown(line, first, out)?;
    out.write_all(b"\n")?;
    write_blanks(line, first, column, out)?;
    out.write_all(b"^\n")
}

/// Writes what is shown of a line, from so many characters on.
fn write_shown<W: Write>(line: &str, first: usize, out: &mut W) -> io::Result<()>
    ensures { OnOk result
        (Appends (W.contents out.old) (W.contents out.new) (along (shown first) 0 (chars line.now))) }
{
    let mut at = 0;
    for character in line.chars() {
        write_where_shown(character, first, at, out)?;
        at = step(at, character);
    }
    Ok(())
}

/// Writes a character where it is among those that are shown.
fn write_where_shown<W: Write>(
    character: char,
    first: usize,
    at: usize,
    out: &mut W,
) -> io::Result<()>
    ensures { OnOk result
        (Appends (W.contents out.old) (W.contents out.new) (shown first at character)) }
{
    if at >= first && step(at, character) - first <= WIDTH {
        write_character(character, out)
    } else {
        out.write_all(b"")
    }
}

/// Writes a character as it is shown.
fn write_character<W: Write>(character: char, out: &mut W) -> io::Result<()>
    ensures { OnOk result
        (Appends (W.contents out.old) (W.contents out.new) (character_text character)) }
{
    if is_hidden(character) {
        write_number(character, out)
    } else {
        write!(out, "{character}")
    }
}

/// Writes the number of a character, as `U+00A0`.
fn write_number<W: Write>(character: char, out: &mut W) -> io::Result<()>
    ensures { OnOk result
        (Appends (W.contents out.old) (W.contents out.new) (number_text character)) }
{
    let number = character as u32;
    out.write_all(b"U+")?;
    out.write_all(&[
        hex_digit(number / 4_096 % 16),
        hex_digit(number / 256 % 16),
        hex_digit(number / 16 % 16),
        hex_digit(number % 16),
    ])
}

/// One digit of base 16.
fn hex_digit(digit: u32) -> u8
    requires { digit ≤ 15 }
    ensures { result ≡ the_hex_digit digit }
{
    if digit < 10 {
        b'0' + digit as u8
    } else {
        b'A' - 10 + digit as u8
    }
}

/// Writes what brings the mark below its place.
fn write_blanks<W: Write>(line: &str, first: usize, column: usize, out: &mut W) -> io::Result<()>
    ensures { OnOk result (Appends (W.contents out.old) (W.contents out.new)
        (along (blank first) 0 (take column (chars line.now)))) }
{
    let mut at = 0;
    for character in line.chars().take(column) {
        write_below(character, first, at, out)?;
        at = step(at, character);
    }
    Ok(())
}

/// Writes what is below a character, where it is among those that are shown.
fn write_below<W: Write>(character: char, first: usize, at: usize, out: &mut W) -> io::Result<()>
    ensures { OnOk result
        (Appends (W.contents out.old) (W.contents out.new) (blank first at character)) }
{
    if at >= first {
        out.write_all(blank_below(character).as_bytes())
    } else {
        out.write_all(b"")
    }
}

/// What is in the line of the mark below a character.
fn blank_below(character: char) -> &'static str
    ensures { result.now ≡ below character }
{
    if is_hidden(character) {
        BELOW_NUMBER
    } else if character == '\t' {
        "\t"
    } else {
        " "
    }
}

/// Where what is shown begins of a line of this width, where the mark follows so much of it.
fn first_shown(width: usize, before: usize) -> usize
    ensures { result ≡ the_first_shown width before }
{
    before
        .saturating_sub(WIDTH / 2)
        .min(width.saturating_sub(WIDTH))
}

/// How wide a line is.
fn width_of(line: &str) -> usize
    ensures { result ≡ the_behind 0 (chars line.now) }
{
    let mut at = 0;
    for character in line.chars() {
        at = step(at, character);
    }
    at
}

/// How wide so many characters at the front of a line are, or all where there are fewer.
fn width_before(line: &str, column: usize) -> usize
    ensures { result ≡ the_behind 0 (take column (chars line.now)) }
{
    let mut at = 0;
    for character in line.chars().take(column) {
        at = step(at, character);
    }
    at
}

/// Where the character behind one is.
fn step(at: usize, character: char) -> usize
    ensures value { result ≡ the_next at character }
    ensures after { at ≤ result }
{
    at.saturating_add(width(character))
}

/// How many characters are shown of one.
fn width(character: char) -> usize
    ensures { result ≡ the_width character }
{
    if is_hidden(character) { 6 } else { 1 }
}

/// Whether a character can't be seen, or not for what it is. A tab can be.
fn is_hidden(character: char) -> bool
    ensures { result ≡ the_is_hidden character }
{
    if character.is_control() {
        return character != '\t';
    }
    matches!(
        character,
        '\u{a0}' | '\u{200b}'..='\u{200f}' | '\u{2028}'..='\u{202e}' | '\u{2066}'..='\u{2069}' | '\u{feff}'
    )
}
