//! Whether a definition is read further with a change by more than the member that is changed.

ghost use Rattle.std.specs.Prelude.{◌≤◌, IfOk, IsTrue, length};
ghost use Rattle.weedle_refusal.specs.Hint.{ComesBeyond};

use crate::hint::again::Trials;
use crate::hint::change::{Change, changed};
use crate::hint::tokens::past_semicolon;
use crate::hint::unread::Unread;
use std::alloc::AllocError;

/// Whether the definition is read with a change beyond the second `;` behind what is changed and
/// behind a place, which is the furthest one or follows it. It is read up to the third `;` alone.
pub(crate) fn comes_beyond(
    trials: &mut Trials,
    unread: &Unread<'_>,
    from: usize,
    change: Change<'_>,
) -> Result<bool, AllocError>
    requires order { unread.now.place ≤ from }
    requires within { from ≤ length unread.now.raw.now }
    ensures { IfOk result (λ beyond. IsTrue beyond
        → ComesBeyond unread.now.dialect unread.now.raw.now unread.now.start unread.now.place
        change.entry.at change.entry.taken change.entry.bytes.now) }
{
    let Change { at, taken, .. } = change;
    let raw = unread.raw;
    if at > raw.len() || taken > raw.len() - at {
        return Ok(false);
    }
    let member = past_semicolon(raw, from.max(at + taken));
    let next = past_semicolon(raw, member);
    let end = past_semicolon(raw, next);
    if end == next {
        return Ok(false);
    }
    let Some(text) = changed(trials.alloc, raw, unread.start, end, change)? else {
        return Ok(false);
    };
    let less = trials.leaves_less(text.as_str(), end - next, unread.dialect)?;
    Ok(less)
}
