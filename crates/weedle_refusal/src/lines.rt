//! The positions of many places of a text.

ghost use Rattle.std.specs.Prelude.{◌≡◌, ◌≤◌, length, IfOk};
ghost use Rattle.weedle_refusal.specs.Lines.{feeds_before as the_feeds_before};
ghost use Rattle.weedle_refusal.specs.Position.{IsPositionOf};

use crate::position::{Position, characters_of_last_line};
use std::alloc::{AllocError, Global};
use std::marker::Model;

/// A text with the places at which its lines begin, to say the positions of many places.
///
/// [`position_of`](crate::position_of) answers the same, and goes through the text up to the place
/// each time.
#[derive(Drop)]
pub struct Lines<'a> {
    text: &'a str,
    // where each line begins except for the first: the places behind the LFs
    starts: Vec<usize>,
}

impl<'a> Model for Lines<'a> {
    ghost use Rattle.std.specs.Prelude.{ℕ, List};
    ghost use Rattle.weedle_refusal.specs.Lines.{AreLineStarts};

    // The bytes of the text.
    ghost Value = { List ℕ };

    ghost view = { λ lines. lines.text.now };

    ghost invariant = { λ lines. AreLineStarts lines.text.now lines.starts.items };
}

impl<'a> Lines<'a> {
    /// Goes through the text once, and asks for memory for the answer: 8 bytes for each line, and
    /// no more than twice as much.
    pub fn new(alloc: Global, text: &'a str) -> Result<Lines<'a>, AllocError>
        ensures { IfOk result (λ lines. lines ≡ text.entry.now) }
    {
        let bytes = text.as_bytes();
        let mut starts = Vec::new(alloc);
        for i in 0..bytes.len() {
            if bytes[i] == b'\n' {
                starts.push(i + 1)?;
            }
        }
        Ok(Lines { text, starts })
    }

    /// The line and the column of a place, which is given in bytes from the front of the text, as
    /// [`position_of`](crate::position_of) counts them. One behind the end of the text is taken as
    /// that end.
    ///
    /// In `interface A {\n  é ?` the `?` has the place 19; it is in line 2, at column 5.
    ///
    /// It halves the lines: of a million it looks at 20. Then it looks at the bytes of the place's
    /// own line before it. It takes no memory.
    pub fn position(&self, place: usize) -> Position
        ensures position { place ≤ length self.now → IsPositionOf self.now place result }
        ensures behind { length self.now ≤ place → IsPositionOf self.now (length self.now) result }
    {
        let place = place.min(self.text.len());
        let before = &self.text.as_bytes()[..place];
        Position {
            line: 1 + self.feeds_before(place),
            column: 1 + characters_of_last_line(before),
        }
    }

    /// How many LFs come before a place.
    fn feeds_before(&self, place: usize) -> usize
        requires { place ≤ length self.now }
        ensures value { result ≡ the_feeds_before self.now place }
        ensures few { result ≤ place }
    {
        let mut low = 0;
        let mut high = self.starts.len();
        while low < high {
            let middle = low + (high - low) / 2;
            if self.starts[middle] <= place {
                low = middle + 1;
            } else {
                high = middle;
            }
        }
        low
    }
}
