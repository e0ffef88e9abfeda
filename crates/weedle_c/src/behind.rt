//! Why the text from a place of a text on is refused.

ghost use Rattle.std.specs.Prelude.{◌≡◌, ◌≢◌, ◌≤◌, ◌<◌, ◌↔◌, IsCharBoundary, IsUtf8, drop};
ghost use Rattle.std.specs.Str.{IsValidUpTo};
ghost use Rattle.weedle_c.specs.Dialects.{dialect_of as the_dialect_of};
ghost use Rattle.weedle_c.specs.Explained.{IsExplainedBehind, IsExplainedBehindIn, IsSilent};
ghost use Rattle.weedle_syntax.specs.declared.dialect.Dialect.TheVariants.{Weedle2};
ghost use Rattle.weedle_syntax.specs.Dialects.{IsWholeIn};
ghost use Rattle.weedle_syntax.specs.Syntax.{IsWhole};

use crate::dialect::{TODAY, WEEDLE2, dialect_of};
use crate::status::{NO_DIALECT, NO_MEMORY, NO_PLACE, NOT_UTF8, READ, REFUSED, TOO_DEEP};
use crate::told::{NOTHING, WeedleRefusal, tell};
use std::alloc::Global;
use weedle_refusal::{DialectError, refusal_behind, refusal_behind_in};
use weedle_syntax::Dialect;

/// Says where and why the text from a place on is refused, and writes as much of the message as
/// there is room for. The answer is the status.
pub(crate) fn explain_from(
    alloc: Global,
    text: &[u8],
    start: usize,
    message: &mut [u8],
    answer: &mut WeedleRefusal,
) -> u32
    ensures known { result ≤ NO_PLACE }
    ensures read { result ≡ READ → IsWhole (drop start text.now) }
    ensures refused { result ≡ REFUSED → IsExplainedBehind text.now start
        message.old message.new answer.new }
    ensures not_utf8 { (result ≡ NOT_UTF8) ↔ ¬ IsUtf8 text.now }
    ensures byte { result ≡ NOT_UTF8 → IsValidUpTo text.now answer.new.place }
    ensures no_place { IsUtf8 text.now
        → ((result ≡ NO_PLACE) ↔ ¬ IsCharBoundary text.now start) }
    ensures silent { result ≢ REFUSED → IsSilent answer.new }
    ensures placed { result ≢ REFUSED → result ≢ NOT_UTF8 → answer.new.place ≡ 0 }
    ensures unwritten { result ≢ REFUSED → message.new ≡ message.old }
{
    *answer = NOTHING;
    match str::from_utf8(text) {
        Ok(raw) => explain_text_from(alloc, raw, start, message, answer),
        Err(error) => {
            answer.place = error.valid_up_to();
            NOT_UTF8
        }
    }
}

/// Says where and why the text from a place of a text that is UTF-8 on is refused.
fn explain_text_from(
    alloc: Global,
    raw: &str,
    start: usize,
    message: &mut [u8],
    answer: &mut WeedleRefusal,
) -> u32
    requires { answer.old ≡ NOTHING }
    ensures known { (result ≤ NO_PLACE) × (result ≢ NOT_UTF8) }
    ensures read { result ≡ READ → IsWhole (drop start raw.now) }
    ensures refused { result ≡ REFUSED → IsExplainedBehind raw.now start
        message.old message.new answer.new }
    ensures no_place { (result ≡ NO_PLACE) ↔ ¬ IsCharBoundary raw.now start }
    ensures silent { result ≢ REFUSED → IsSilent answer.new }
    ensures placed { result ≢ REFUSED → answer.new.place ≡ 0 }
    ensures unwritten { result ≢ REFUSED → message.new ≡ message.old }
{
    if !raw.is_char_boundary(start) {
        return NO_PLACE;
    }
    match refusal_behind(alloc, raw, start) {
        Ok(Some(refusal)) => tell(alloc, raw, &refusal, message, answer),
        Ok(None) => READ,
        Err(_) => NO_MEMORY,
    }
}

/// The same as [`explain_from`], by the rules of the dialect of this number.
pub(crate) fn explain_by(
    alloc: Global,
    dialect: u32,
    text: &[u8],
    start: usize,
    message: &mut [u8],
    answer: &mut WeedleRefusal,
) -> u32
    ensures known { result ≤ TOO_DEEP }
    ensures no_dialect { (result ≡ NO_DIALECT) ↔ (TODAY < dialect) }
    ensures read { result ≡ READ → IsWholeIn (the_dialect_of dialect) (drop start text.now) }
    ensures refused { result ≡ REFUSED
        → IsExplainedBehindIn (the_dialect_of dialect) text.now start
        message.old message.new answer.new }
    ensures not_utf8 { dialect ≤ TODAY → ((result ≡ NOT_UTF8) ↔ ¬ IsUtf8 text.now) }
    ensures byte { result ≡ NOT_UTF8 → IsValidUpTo text.now answer.new.place }
    ensures no_place { dialect ≤ TODAY → IsUtf8 text.now
        → ((result ≡ NO_PLACE) ↔ ¬ IsCharBoundary text.now start) }
    ensures too_deep { result ≡ TOO_DEEP → dialect ≢ WEEDLE2 }
    ensures silent { result ≢ REFUSED → IsSilent answer.new }
    ensures placed { result ≢ REFUSED → result ≢ NOT_UTF8 → answer.new.place ≡ 0 }
    ensures unwritten { result ≢ REFUSED → message.new ≡ message.old }
{
    *answer = NOTHING;
    if dialect > TODAY {
        return NO_DIALECT;
    }
    match str::from_utf8(text) {
        Ok(raw) => explain_text_by(alloc, dialect_of(dialect), raw, start, message, answer),
        Err(error) => {
            answer.place = error.valid_up_to();
            NOT_UTF8
        }
    }
}

/// The same of a text that is UTF-8.
fn explain_text_by(
    alloc: Global,
    dialect: Dialect,
    raw: &str,
    from: usize,
    message: &mut [u8],
    answer: &mut WeedleRefusal,
) -> u32
    requires { answer.old ≡ NOTHING }
    ensures known { (result ≤ TOO_DEEP) × (result ≢ NOT_UTF8) × (result ≢ NO_DIALECT) }
    ensures read { result ≡ READ → IsWholeIn dialect (drop from raw.now) }
    ensures refused { result ≡ REFUSED
        → IsExplainedBehindIn dialect raw.now from message.old message.new answer.new }
    ensures no_place { (result ≡ NO_PLACE) ↔ ¬ IsCharBoundary raw.now from }
    ensures too_deep { result ≡ TOO_DEEP → dialect ≢ Weedle2 }
    ensures silent { result ≢ REFUSED → IsSilent answer.new }
    ensures placed { result ≢ REFUSED → answer.new.place ≡ 0 }
    ensures unwritten { result ≢ REFUSED → message.new ≡ message.old }
{
    if !raw.is_char_boundary(from) {
        return NO_PLACE;
    }
    match refusal_behind_in(alloc, raw, from, dialect) {
        Ok(Some(refusal)) => tell(alloc, raw, &refusal, message, answer),
        Ok(None) => READ,
        Err(DialectError::Memory) => NO_MEMORY,
        Err(DialectError::TooDeep) => TOO_DEEP,
    }
}
