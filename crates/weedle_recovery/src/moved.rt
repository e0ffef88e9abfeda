//! What is said of a stretch that was read behind another text, at its places in the whole text.

ghost use Rattle.std.specs.Prelude.{◌≡◌, ◌≤◌, ◌<◌, ◌+◌, ◌^◌, IfSome};
ghost use Rattle.weedle_recovery.specs.Refusals.{IsMoved, IsMovedHint};

use weedle_refusal::{Hint, Refusal};

/// Where a stretch was that was read, and where it is in the whole text.
#[derive(Clone, Copy)]
pub(crate) struct Shift {
    /// How many bytes were before it.
    pub(crate) front: usize,
    /// Where it begins in the whole text.
    pub(crate) start: usize,
    /// How many bytes it has.
    pub(crate) count: usize,
}

/// What is said of a stretch. A place behind its end is that end; a hint outside of it is left out.
pub(crate) fn moved(said: Refusal, shift: &Shift) -> Refusal
    requires small { shift.now.start + shift.now.count < 2 ^ 64 }
    ensures is { IsMoved shift.now said result }
    ensures within { result.place ≤ shift.now.start + shift.now.count }
{
    let Refusal {
        place,
        expected,
        hint,
        ..
    } = said;
    Refusal {
        start: shift.start,
        place: shift.start + place.saturating_sub(shift.front).min(shift.count),
        expected,
        hint: match hint {
            Some(hint) => moved_hint(hint, shift),
            None => None,
        },
    }
}

/// A hint at its place in the whole text; None where it isn't in the stretch.
fn moved_hint(hint: Hint, shift: &Shift) -> Option<Hint>
    requires { shift.now.start + shift.now.count < 2 ^ 64 }
    ensures { IfSome result (IsMovedHint shift.now hint) }
{
    match hint {
        Hint::Keyword {
            place,
            taken,
            keyword,
        } => Some(Hint::Keyword {
            place: moved_place(place, shift)?,
            taken,
            keyword,
        }),
        Hint::Missing { place, sign } => Some(Hint::Missing {
            place: moved_place(place, shift)?,
            sign,
        }),
        Hint::Extra { place, sign } => Some(Hint::Extra {
            place: moved_place(place, shift)?,
            sign,
        }),
        Hint::WrongSign { place, found, sign } => Some(Hint::WrongSign {
            place: moved_place(place, shift)?,
            found,
            sign,
        }),
        Hint::WordOrder {
            place,
            taken,
            next,
            next_taken,
        } => Some(Hint::WordOrder {
            place: moved_place(place, shift)?,
            taken,
            next: moved_place(next, shift)?,
            next_taken,
        }),
        Hint::Docstring { place, taken } => Some(Hint::Docstring {
            place: moved_place(place, shift)?,
            taken,
        }),
        Hint::OpenString { place } => Some(Hint::OpenString {
            place: moved_place(place, shift)?,
        }),
        Hint::SplitString { place } => Some(Hint::SplitString {
            place: moved_place(place, shift)?,
        }),
        Hint::ByteOrderMark { place } => Some(Hint::ByteOrderMark {
            place: moved_place(place, shift)?,
        }),
        Hint::NoDefinitions => None,
    }
}

/// A place of the stretch in the whole text; None where it lies in front of it, or behind.
fn moved_place(place: usize, shift: &Shift) -> Option<usize>
    requires { shift.now.start + shift.now.count < 2 ^ 64 }
    ensures { IfSome result (λ moved. moved + shift.now.front ≡ shift.now.start + place) }
{
    if place < shift.front || place - shift.front > shift.count {
        return None;
    }
    Some(shift.start + (place - shift.front))
}
