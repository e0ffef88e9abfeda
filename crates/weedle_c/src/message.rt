//! Why a text is refused.

ghost use Rattle.std.specs.Prelude.{◌≡◌, ◌≢◌, ◌≤◌, ◌↔◌, IsUtf8};
ghost use Rattle.std.specs.Str.{IsValidUpTo};
ghost use Rattle.weedle_c.specs.Explained.{IsExplained, IsSilent};
ghost use Rattle.weedle_syntax.specs.Syntax.{IsWhole};

use crate::status::{NO_MEMORY, NOT_UTF8, READ, REFUSED};
use crate::told::{NOTHING, WeedleRefusal, tell};
use std::alloc::Global;
use weedle_refusal::refusal_of;

/// Says where and why a text is refused, and writes as much of the message as there is room for.
/// The answer is the status.
pub(crate) fn explain(
    alloc: Global,
    text: &[u8],
    message: &mut [u8],
    answer: &mut WeedleRefusal,
) -> u32
    ensures known { result ≤ NO_MEMORY }
    ensures read { result ≡ READ → IsWhole text.now }
    ensures refused { result ≡ REFUSED → IsExplained text.now message.old message.new answer.new }
    ensures not_utf8 { (result ≡ NOT_UTF8) ↔ ¬ IsUtf8 text.now }
    ensures byte { result ≡ NOT_UTF8 → IsValidUpTo text.now answer.new.place }
    ensures silent { result ≢ REFUSED → IsSilent answer.new }
    ensures placed { result ≢ REFUSED → result ≢ NOT_UTF8 → answer.new.place ≡ 0 }
    ensures unwritten { result ≢ REFUSED → message.new ≡ message.old }
{
    *answer = NOTHING;
    match str::from_utf8(text) {
        Ok(raw) => explain_text(alloc, raw, message, answer),
        Err(error) => {
            answer.place = error.valid_up_to();
            NOT_UTF8
        }
    }
}

/// Says where and why a text that is UTF-8 is refused.
fn explain_text(alloc: Global, raw: &str, message: &mut [u8], answer: &mut WeedleRefusal) -> u32
    requires { answer.old ≡ NOTHING }
    ensures known { (result ≤ NO_MEMORY) × (result ≢ NOT_UTF8) }
    ensures read { result ≡ READ → IsWhole raw.now }
    ensures refused { result ≡ REFUSED → IsExplained raw.now message.old message.new answer.new }
    ensures silent { result ≢ REFUSED → IsSilent answer.new }
    ensures placed { result ≢ REFUSED → answer.new.place ≡ 0 }
    ensures unwritten { result ≢ REFUSED → message.new ≡ message.old }
{
    match refusal_of(alloc, raw) {
        Ok(Some(refusal)) => tell(alloc, raw, &refusal, message, answer),
        Ok(None) => READ,
        Err(_) => NO_MEMORY,
    }
}
