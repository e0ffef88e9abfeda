//! The answer and the message of what is refused.

ghost use Rattle.std.specs.Prelude.{◌≡◌, ◌≢◌, ◌==◌, ◌≤◌, ◌<◌, ◌⊎◌, IfOk, length, not};
ghost use Rattle.weedle_c.specs.Explained.{IsCut, IsSilent, IsTold, message_front, message_said};
ghost use Rattle.weedle_refusal.specs.Position.{begins_character};

use crate::hint::{hint_of, length_of, place_of};
use crate::status::{NO_MEMORY, REFUSED};
use std::alloc::Global;
use std::io;
use weedle_refusal::{Refusal, position_of, write_hint, write_message};

/// Where a text is refused.
#[repr(C)]
#[derive(Clone, Copy)]
pub struct WeedleRefusal {
    /// Where the remaining input begins, in bytes from the front of the text.
    pub start: usize,
    /// The furthest place to which the reading of the remaining input comes. For bytes that aren't
    /// UTF-8 it is the first one that isn't part of a character.
    pub place: usize,
    /// The line of that place, from 1 on.
    pub line: usize,
    /// Its column, in characters from the front of the line, from 1 on.
    pub column: usize,
    /// How many bytes the whole message has.
    pub length: usize,
    /// Which kind of hint there is, and 0 where there is none.
    pub hint: usize,
    /// Where the hint is, in bytes from the front of the text.
    pub hint_place: usize,
    /// How many bytes the hint would take out or speaks of.
    pub hint_length: usize,
    /// Where the line of the hint begins in the message.
    pub hint_offset: usize,
}

/// What is said where nothing is known.
pub(crate) const NOTHING: WeedleRefusal = WeedleRefusal {
    start: 0,
    place: 0,
    line: 0,
    column: 0,
    length: 0,
    hint: 0,
    hint_place: 0,
    hint_length: 0,
    hint_offset: 0,
};

/// Writes what is said of a refusal.
pub(crate) fn tell(
    alloc: Global,
    raw: &str,
    refusal: &Refusal,
    message: &mut [u8],
    answer: &mut WeedleRefusal,
) -> u32
    requires nothing { answer.old ≡ NOTHING }
    requires within { refusal.now.place ≤ length raw.now }
    ensures known { (result ≡ REFUSED) ⊎ (result ≡ NO_MEMORY) }
    ensures refused { result ≡ REFUSED → IsTold raw.now refusal.now message.old message.new answer.new }
    ensures silent { result ≢ REFUSED → IsSilent answer.new }
    ensures placed { result ≢ REFUSED → answer.new.place ≡ 0 }
    ensures unwritten { result ≢ REFUSED → message.new ≡ message.old }
{
    let Ok((said, behind)) = message_of(alloc, raw, refusal) else {
        return NO_MEMORY;
    };
    let position = position_of(raw, refusal.place);
    *answer = WeedleRefusal {
        start: refusal.start,
        place: refusal.place,
        line: position.line,
        column: position.column,
        length: said.len(),
        hint: hint_of(&refusal.hint),
        hint_place: place_of(&refusal.hint),
        hint_length: length_of(&refusal.hint),
        hint_offset: behind,
    };
    write_cut(&said, message);
    REFUSED
}

/// The message, as `weedle_check` prints it behind the name of a file, the hint below it; and where
/// the hint begins in it.
fn message_of(alloc: Global, raw: &str, refusal: &Refusal) -> io::Result<(Vec<u8>, usize)>
    ensures said { IfOk result (λ r. r.0.items ≡ message_said raw.now refusal.now) }
    ensures behind { IfOk result (λ r. r.1 ≡ length (message_front raw.now refusal.now)) }
{
    let words = format!(in alloc; "{refusal}")?;
    let mut message = Vec::new(alloc);
    write_message(raw, refusal.place, &words, &mut message)?;
    let behind = message.len();
    if let Some(hint) = &refusal.hint {
        write_hint(raw, hint, &mut message)?;
    }
    Ok((message, behind))
}

/// Writes as many whole characters as there is room for, and a zero behind them. With no room it
/// writes nothing.
fn write_cut(said: &[u8], room: &mut [u8])
    ensures { IsCut said.now room.old room.new }
{
    if room.is_empty() {
        return;
    }
    let mut end = said.len().min(room.len() - 1);
    while end > 0 && end < said.len() && is_inner(said[end]) {
        end -= 1;
    }
    room[..end].copy_from_slice(&said[..end]);
    room[end] = 0;
}

/// Whether the byte continues a character.
fn is_inner(byte: u8) -> bool
    ensures { result ≡ not (begins_character byte) }
{
    (128..192).contains(&byte)
}
