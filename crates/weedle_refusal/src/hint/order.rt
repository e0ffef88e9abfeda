//! Two words in the other order.

ghost use Rattle.std.specs.Prelude.{◌≡◌, ◌≤◌, ◌+◌, IfOk, IfSome, length};
ghost use Rattle.std.specs.String.{string_bytes};
ghost use Rattle.weedle_refusal.specs.Hint.{AreExchanged};

use crate::hint::stands::{is_trivia, is_word};
use std::alloc::{AllocError, Global};

/// Two words and what is between them, the second in front; or None where no two words are there
/// with whitespace and comments alone between them.
pub(crate) fn exchanged(
    alloc: Global,
    raw: &str,
    at: usize,
    taken: usize,
    next: usize,
    next_taken: usize,
) -> Result<Option<String>, AllocError>
    ensures words { IfOk result (λ words. IfSome words
        (λ words. AreExchanged raw.now at taken next next_taken (string_bytes words))) }
    ensures order { IfOk result (λ words. IfSome words (λ words. at ≤ next)) }
    ensures within { IfOk result
        (λ words. IfSome words (λ words. next + next_taken ≤ length raw.now)) }
{
    let bytes = raw.as_bytes();
    if !is_word(bytes, at, taken) || !is_word(bytes, next, next_taken) {
        return Ok(None);
    }
    if at >= next || next >= raw.len() || taken > next - at || next_taken > raw.len() - next {
        return Ok(None);
    }
    let (Some(first), Some(between), Some(second)) = (
        raw.get(at..at + taken),
        raw.get(at + taken..next),
        raw.get(next..next + next_taken),
    ) else {
        return Ok(None);
    };
    if !is_trivia(between) {
        return Ok(None);
    }
    let mut words = String::new(alloc);
    words.push_str(second)?;
    words.push_str(between)?;
    words.push_str(first)?;
    Ok(Some(words))
}
