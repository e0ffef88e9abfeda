//! A text with a change.

ghost use Rattle.std.specs.Prelude.{◌≤◌, ◌+◌, IfOk, IfSome, length};
ghost use Rattle.std.specs.String.{string_bytes};
ghost use Rattle.weedle_refusal.specs.Hint.{IsChanged};

use std::alloc::{AllocError, Global};

/// Some bytes in place of others.
#[derive(Clone, Copy)]
pub(crate) struct Change<'a> {
    /// Where those begin that are taken out.
    pub(crate) at: usize,
    /// How many are taken out.
    pub(crate) taken: usize,
    /// What is put there.
    pub(crate) bytes: &'a str,
}

/// The text from `start` up to `end` with a change, or None where one of them is within a
/// character, or the change in front of the start.
pub(crate) fn changed(
    alloc: Global,
    raw: &str,
    start: usize,
    end: usize,
    change: Change<'_>,
) -> Result<Option<String>, AllocError>
    requires before { change.at + change.taken ≤ end }
    requires within { end ≤ length raw.now }
    ensures { IfOk result
        (λ text. IfSome text
        (λ text. IsChanged raw.now start end
        change.entry.at change.entry.taken change.entry.bytes.now (string_bytes text))) }
{
    let Change { at, taken, bytes } = change;
    let Some(before) = raw.get(start..at) else {
        return Ok(None);
    };
    let Some(behind) = raw.get(at + taken..end) else {
        return Ok(None);
    };
    let mut text = String::new(alloc);
    text.push_str(before)?;
    text.push_str(bytes)?;
    text.push_str(behind)?;
    Ok(Some(text))
}
