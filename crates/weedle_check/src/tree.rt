//! The definitions of a text, as they are printed by `Debug`.

ghost use Rattle.std.specs.Prelude.{◌≡◌};

use std::alloc::Global;
use std::fmt::Debug;
use std::io::{self, ErrorKind, Write};
use weedle_base::{Parse, sp};
use weedle_build::{Built, build_definitions};
use weedle_idl::Definition;
use weedle_places::{Place, places_of};
use weedle_program::Fault;
use weedle_refusal::{Position, position_of};
use weedle_rules::Ends;

/// Writes each definition of a text on a line, behind the line and the column at which it begins:
/// `3:1 Interface(InterfaceDefinition { .. })`. The text is read whole, and suits descent.
///
/// Each definition is read, written and dropped by itself, and no memory is taken except for what
/// it holds. It fails where memory is refused, and where the output can't be written.
pub fn write_tree<W: Write>(alloc: Global, text: &str, out: &mut W) -> Result<(), Fault> {
    Ok(write_by_descent::<Definition<'_>, W>(alloc, text, out)?)
}

/// Writes each definition of any text as [`write_tree`] does, where the text is read whole: says
/// whether it is.
///
/// It fills one packrat table, 1,544 bytes for each byte of the text. It fails where memory is
/// refused, and where the output can't be written.
pub fn write_tree_over_table<W: Write>(
    alloc: Global,
    text: &str,
    out: &mut W,
) -> Result<bool, Fault> {
    let ends = Ends::new(alloc, text)?;
    let Some(places) = places_of(alloc, &ends)? else {
        return Ok(false);
    };
    write_built(alloc, &ends, &places, text, out)?;
    Ok(true)
}

/// Builds the definitions along the table, and writes them.
fn write_built<'a, W: Write>(
    alloc: Global,
    ends: &Ends<'a>,
    places: &[Place],
    text: &'a str,
    out: &mut W,
) -> Result<(), Fault>
    requires table { ends.now.text ≡ text.now }
{
    let Built { list, .. } = build_definitions(alloc, ends, text)?;
    Ok(write_each(list, places, text, out)?)
}

/// Writes each item of a text that has nothing else, as it is read.
fn write_by_descent<'a, T: Parse<'a> + Debug, W: Write>(
    alloc: Global,
    text: &'a str,
    out: &mut W,
) -> io::Result<()> {
    let mut cursor = Cursor::new(text);
    for _ in 0..text.len() {
        if cursor.rest.is_empty() {
            break;
        }
        let start = cursor.rest;
        let Ok((rest, item)) = T::parse(alloc, start) else {
            return Err(io::Error::from(ErrorKind::OutOfMemory));
        };
        let position = cursor.go_to(sp(start).0);
        writeln!(out, "{position} {item:?}")?;
        cursor.go_to(rest);
    }
    Ok(())
}

/// Writes each item, behind where it is in the text.
fn write_each<T: Debug + Drop, W: Write>(
    items: Vec<T>,
    places: &[Place],
    text: &str,
    out: &mut W,
) -> io::Result<()> {
    let mut cursor = Cursor::new(text);
    for (item, place) in items.into_iter().zip(places) {
        let rest = text.get(place.span.start..).unwrap_or("");
        let position = cursor.go_to(sp(rest).0);
        writeln!(out, "{position} {item:?}")?;
    }
    Ok(())
}

/// How far a text is read.
#[derive(Clone, Copy)]
struct Cursor<'a> {
    rest: &'a str,
    /// Where the remaining input begins.
    position: Position,
}

impl<'a> Cursor<'a> {
    /// The cursor at the front of a text.
    fn new(text: &'a str) -> Cursor<'a> {
        Cursor {
            rest: text,
            position: Position { line: 1, column: 1 },
        }
    }

    /// Goes on to where this remaining text begins, and says where that is. It looks twice at most
    /// at each byte in between.
    fn go_to(&mut self, rest: &'a str) -> Position {
        let passed = self.rest.len().saturating_sub(rest.len());
        let moved = position_of(self.rest, passed);
        let Position { line, column } = self.position;
        let position = Position {
            line: line.saturating_add(moved.line.saturating_sub(1)),
            column: if moved.line == 1 {
                column.saturating_add(moved.column.saturating_sub(1))
            } else {
                moved.column
            },
        };
        *self = Cursor { rest, position };
        position
    }
}
