//! Why a part of a text is unread, and what would go on there.

ghost use Rattle.std.specs.Prelude.{◌≡◌, ◌≢◌, ◌≤◌, ◌<◌, ◌↔◌, IsUtf8, length};
ghost use Rattle.std.specs.Str.{IsValidUpTo};
ghost use Rattle.weedle_c.specs.Dialects.{dialect_of as the_dialect_of};
ghost use Rattle.weedle_c.specs.Expectations.{
  AreLonger,
  AreWritten,
  IsExpectedOfPart,
  IsExpectedOfPartIn,
  IsNone,
};
ghost use Rattle.weedle_c.specs.Explained.{IsPartExplained, IsPartExplainedIn, IsSilent};
ghost use Rattle.weedle_c.specs.Parts.{IsPart};
ghost use Rattle.weedle_syntax.specs.declared.dialect.Dialect.TheVariants.{Weedle2};

use crate::dialect::{TODAY, WEEDLE2, dialect_of};
use crate::part::{WeedlePart, part_of};
use crate::status::{NO_DIALECT, NO_MEMORY, NO_PLACE, NO_ROOM, NOT_UTF8, READ, REFUSED, TOO_DEEP};
use crate::told::{NOTHING, WeedleRefusal, tell};
use crate::words::{NO_WORDS, WeedleExpected, put};
use std::alloc::Global;
use weedle_recovery::{refusal_of_part, refusal_of_part_in};
use weedle_refusal::DialectError;
use weedle_syntax::Dialect;

/// Says why a part of a text is unread, and writes as much of the message as there is room for. The
/// answer is the status.
pub(crate) fn explain_part(
    alloc: Global,
    text: &[u8],
    part: &WeedlePart,
    message: &mut [u8],
    answer: &mut WeedleRefusal,
) -> u32
    ensures known { (result ≤ NO_PLACE) × (result ≢ READ) }
    ensures refused { result ≡ REFUSED → IsPartExplained text.now part.now
        message.old message.new answer.new }
    ensures not_utf8 { (result ≡ NOT_UTF8) ↔ ¬ IsUtf8 text.now }
    ensures byte { result ≡ NOT_UTF8 → IsValidUpTo text.now answer.new.place }
    ensures no_place { result ≡ NO_PLACE → ¬ IsPart text.now part.now }
    ensures silent { result ≢ REFUSED → IsSilent answer.new }
    ensures placed { result ≢ REFUSED → result ≢ NOT_UTF8 → answer.new.place ≡ 0 }
    ensures unwritten { result ≢ REFUSED → message.new ≡ message.old }
{
    *answer = NOTHING;
    match str::from_utf8(text) {
        Ok(raw) => explain_part_of(alloc, raw, part, message, answer),
        Err(error) => {
            answer.place = error.valid_up_to();
            NOT_UTF8
        }
    }
}

/// Says why a part of a text that is UTF-8 is unread.
fn explain_part_of(
    alloc: Global,
    raw: &str,
    part: &WeedlePart,
    message: &mut [u8],
    answer: &mut WeedleRefusal,
) -> u32
    requires { answer.old ≡ NOTHING }
    ensures known { (result ≤ NO_PLACE) × (result ≢ NOT_UTF8) × (result ≢ READ) }
    ensures refused { result ≡ REFUSED → IsPartExplained raw.now part.now
        message.old message.new answer.new }
    ensures no_place { result ≡ NO_PLACE → ¬ IsPart raw.now part.now }
    ensures silent { result ≢ REFUSED → IsSilent answer.new }
    ensures placed { result ≢ REFUSED → answer.new.place ≡ 0 }
    ensures unwritten { result ≢ REFUSED → message.new ≡ message.old }
{
    match refusal_of_part(alloc, raw, &part_of(part)) {
        Ok(Some(refusal)) => tell(alloc, raw, &refusal, message, answer),
        Ok(None) => NO_PLACE,
        Err(_) => NO_MEMORY,
    }
}

/// Writes the words for what would go on where the reading of an unread part comes furthest, where
/// there is room for all. The answer is the status.
pub(crate) fn expect_in_part(
    alloc: Global,
    text: &[u8],
    part: &WeedlePart,
    words: &mut [u8],
    answer: &mut WeedleExpected,
) -> u32
    ensures known { (result ≤ NO_PLACE) × (result ≢ REFUSED) }
    ensures read { result ≡ READ
        → AreWritten (IsExpectedOfPart text.now part.now) words.old words.new answer.new }
    ensures not_utf8 { (result ≡ NOT_UTF8) ↔ ¬ IsUtf8 text.now }
    ensures byte { result ≡ NOT_UTF8 → IsValidUpTo text.now answer.new.place }
    ensures no_room { result ≡ NO_ROOM
        → AreLonger (IsExpectedOfPart text.now part.now) (length words.old) answer.new }
    ensures no_place { result ≡ NO_PLACE → ¬ IsPart text.now part.now }
    ensures none { result ≢ READ → result ≢ NO_ROOM → IsNone answer.new }
    ensures placed { result ≢ READ → result ≢ NO_ROOM → result ≢ NOT_UTF8
        → answer.new.place ≡ 0 }
    ensures unwritten { result ≢ READ → words.new ≡ words.old }
{
    *answer = NO_WORDS;
    match str::from_utf8(text) {
        Ok(raw) => expect_in_part_of(alloc, raw, part, words, answer),
        Err(error) => {
            answer.place = error.valid_up_to();
            NOT_UTF8
        }
    }
}

/// The same of a text that is UTF-8.
fn expect_in_part_of(
    alloc: Global,
    raw: &str,
    part: &WeedlePart,
    words: &mut [u8],
    answer: &mut WeedleExpected,
) -> u32
    requires { answer.old ≡ NO_WORDS }
    ensures known { (result ≤ NO_PLACE) × (result ≢ NOT_UTF8) × (result ≢ REFUSED) }
    ensures read { result ≡ READ
        → AreWritten (IsExpectedOfPart raw.now part.now) words.old words.new answer.new }
    ensures no_room { result ≡ NO_ROOM
        → AreLonger (IsExpectedOfPart raw.now part.now) (length words.old) answer.new }
    ensures no_place { result ≡ NO_PLACE → ¬ IsPart raw.now part.now }
    ensures none { result ≢ READ → result ≢ NO_ROOM → IsNone answer.new }
    ensures placed { result ≢ READ → result ≢ NO_ROOM → answer.new.place ≡ 0 }
    ensures unwritten { result ≢ READ → words.new ≡ words.old }
{
    match refusal_of_part(alloc, raw, &part_of(part)) {
        Ok(Some(refusal)) => put(alloc, &refusal.expected, refusal.place, words, answer),
        Ok(None) => NO_PLACE,
        Err(_) => NO_MEMORY,
    }
}

/// The same as [`explain_part`], by the rules of the dialect of this number.
pub(crate) fn explain_part_by(
    alloc: Global,
    dialect: u32,
    text: &[u8],
    part: &WeedlePart,
    message: &mut [u8],
    answer: &mut WeedleRefusal,
) -> u32
    ensures known { (result ≤ TOO_DEEP) × (result ≢ READ) }
    ensures no_dialect { (result ≡ NO_DIALECT) ↔ (TODAY < dialect) }
    ensures refused { result ≡ REFUSED
        → IsPartExplainedIn (the_dialect_of dialect) text.now part.now
        message.old message.new answer.new }
    ensures not_utf8 { dialect ≤ TODAY → ((result ≡ NOT_UTF8) ↔ ¬ IsUtf8 text.now) }
    ensures byte { result ≡ NOT_UTF8 → IsValidUpTo text.now answer.new.place }
    ensures no_place { result ≡ NO_PLACE → ¬ IsPart text.now part.now }
    ensures too_deep { result ≡ TOO_DEEP → dialect ≢ WEEDLE2 }
    ensures silent { result ≢ REFUSED → IsSilent answer.new }
    ensures placed { result ≢ REFUSED → result ≢ NOT_UTF8 → answer.new.place ≡ 0 }
    ensures unwritten { result ≢ REFUSED → message.new ≡ message.old }
{
    *answer = NOTHING;
    if dialect > TODAY {
        return NO_DIALECT;
    }
    match str::from_utf8(text) {
        Ok(raw) => explain_part_text_by(alloc, dialect_of(dialect), raw, part, message, answer),
        Err(error) => {
            answer.place = error.valid_up_to();
            NOT_UTF8
        }
    }
}

/// The same of a text that is UTF-8.
fn explain_part_text_by(
    alloc: Global,
    dialect: Dialect,
    raw: &str,
    part: &WeedlePart,
    message: &mut [u8],
    answer: &mut WeedleRefusal,
) -> u32
    requires { answer.old ≡ NOTHING }
    ensures known { (result ≤ TOO_DEEP) × (result ≢ NOT_UTF8)
        × (result ≢ READ) × (result ≢ NO_DIALECT) }
    ensures refused { result ≡ REFUSED
        → IsPartExplainedIn dialect raw.now part.now message.old message.new answer.new }
    ensures no_place { result ≡ NO_PLACE → ¬ IsPart raw.now part.now }
    ensures too_deep { result ≡ TOO_DEEP → dialect ≢ Weedle2 }
    ensures silent { result ≢ REFUSED → IsSilent answer.new }
    ensures placed { result ≢ REFUSED → answer.new.place ≡ 0 }
    ensures unwritten { result ≢ REFUSED → message.new ≡ message.old }
{
    match refusal_of_part_in(alloc, raw, &part_of(part), dialect) {
        Ok(Some(found)) => tell(alloc, raw, &found, message, answer),
        Ok(None) => NO_PLACE,
        Err(DialectError::Memory) => NO_MEMORY,
        Err(DialectError::TooDeep) => TOO_DEEP,
    }
}

/// The same as [`expect_in_part`], by the rules of the dialect of this number.
pub(crate) fn expect_part_by(
    alloc: Global,
    dialect: u32,
    text: &[u8],
    part: &WeedlePart,
    words: &mut [u8],
    answer: &mut WeedleExpected,
) -> u32
    ensures known { (result ≤ TOO_DEEP) × (result ≢ REFUSED) }
    ensures no_dialect { (result ≡ NO_DIALECT) ↔ (TODAY < dialect) }
    ensures read { result ≡ READ
        → AreWritten (IsExpectedOfPartIn (the_dialect_of dialect) text.now part.now)
        words.old words.new answer.new }
    ensures not_utf8 { dialect ≤ TODAY → ((result ≡ NOT_UTF8) ↔ ¬ IsUtf8 text.now) }
    ensures byte { result ≡ NOT_UTF8 → IsValidUpTo text.now answer.new.place }
    ensures no_room { result ≡ NO_ROOM
        → AreLonger (IsExpectedOfPartIn (the_dialect_of dialect) text.now part.now)
        (length words.old) answer.new }
    ensures no_place { result ≡ NO_PLACE → ¬ IsPart text.now part.now }
    ensures too_deep { result ≡ TOO_DEEP → dialect ≢ WEEDLE2 }
    ensures none { result ≢ READ → result ≢ NO_ROOM → IsNone answer.new }
    ensures placed { result ≢ READ → result ≢ NO_ROOM → result ≢ NOT_UTF8
        → answer.new.place ≡ 0 }
    ensures unwritten { result ≢ READ → words.new ≡ words.old }
{
    *answer = NO_WORDS;
    if dialect > TODAY {
        return NO_DIALECT;
    }
    match str::from_utf8(text) {
        Ok(raw) => expect_part_text_by(alloc, dialect_of(dialect), raw, part, words, answer),
        Err(error) => {
            answer.place = error.valid_up_to();
            NOT_UTF8
        }
    }
}

/// The same of a text that is UTF-8.
fn expect_part_text_by(
    alloc: Global,
    dialect: Dialect,
    raw: &str,
    part: &WeedlePart,
    words: &mut [u8],
    answer: &mut WeedleExpected,
) -> u32
    requires { answer.old ≡ NO_WORDS }
    ensures known { (result ≤ TOO_DEEP) × (result ≢ NOT_UTF8)
        × (result ≢ REFUSED) × (result ≢ NO_DIALECT) }
    ensures read { result ≡ READ
        → AreWritten (IsExpectedOfPartIn dialect raw.now part.now) words.old words.new answer.new }
    ensures no_room { result ≡ NO_ROOM
        → AreLonger (IsExpectedOfPartIn dialect raw.now part.now) (length words.old) answer.new }
    ensures no_place { result ≡ NO_PLACE → ¬ IsPart raw.now part.now }
    ensures too_deep { result ≡ TOO_DEEP → dialect ≢ Weedle2 }
    ensures none { result ≢ READ → result ≢ NO_ROOM → IsNone answer.new }
    ensures placed { result ≢ READ → result ≢ NO_ROOM → answer.new.place ≡ 0 }
    ensures unwritten { result ≢ READ → words.new ≡ words.old }
{
    match refusal_of_part_in(alloc, raw, &part_of(part), dialect) {
        Ok(Some(found)) => put(alloc, &found.expected, found.place, words, answer),
        Ok(None) => NO_PLACE,
        Err(DialectError::Memory) => NO_MEMORY,
        Err(DialectError::TooDeep) => TOO_DEEP,
    }
}
