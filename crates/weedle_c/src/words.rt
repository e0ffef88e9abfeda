//! The words for what would have been read.

ghost use Rattle.std.specs.Prelude.{
  ◌≡◌,
  ◌≢◌,
  ◌≤◌,
  ◌<◌,
  ◌⊎◌,
  ◌↔◌,
  ◌++◌,
  ◌∷◌,
  [],
  IfOk,
  IsCharBoundary,
  IsUtf8,
  OnOk,
  length,
  string_bytes,
};
ghost use Rattle.std.specs.Str.{IsValidUpTo};
ghost use Rattle.weedle_refusal.specs.Texts.{word_text};
ghost use Rattle.weedle_c.specs.Dialects.{dialect_of as the_dialect_of};
ghost use Rattle.weedle_c.specs.Expectations.{
  AreLonger,
  ArePut,
  AreWritten,
  IsExpectedFrom,
  IsExpectedFromIn,
  IsNone,
  words_bytes,
};
ghost use Rattle.weedle_syntax.specs.declared.dialect.Dialect.TheVariants.{Weedle2};

use crate::dialect::{TODAY, WEEDLE2, dialect_of};
use crate::status::{NO_DIALECT, NO_MEMORY, NO_PLACE, NO_ROOM, NOT_UTF8, READ, REFUSED, TOO_DEEP};
use std::alloc::{AllocError, Global};
use std::fmt::Write;
use weedle_refusal::{DialectError, Expected, furthest_by, furthest_in};
use weedle_syntax::Dialect;

/// What is said of the words beside the status.
#[repr(C)]
#[derive(Clone, Copy)]
pub struct WeedleExpected {
    /// How many words there are.
    pub count: usize,
    /// How many bytes they have, with a zero behind each.
    pub length: usize,
    /// The furthest place to which the reading comes, where they would have been read. For bytes
    /// that aren't UTF-8 it is the first one that isn't part of a character.
    pub place: usize,
}

/// What is said where nothing is known.
pub(crate) const NO_WORDS: WeedleExpected = WeedleExpected {
    count: 0,
    length: 0,
    place: 0,
};

/// Writes the words for what would go on where the reading of definitions comes furthest, from a
/// place on, where there is room for all. The answer is the status.
pub(crate) fn expect(
    alloc: Global,
    text: &[u8],
    start: usize,
    words: &mut [u8],
    answer: &mut WeedleExpected,
) -> u32
    ensures known { (result ≤ NO_PLACE) × (result ≢ REFUSED) }
    ensures read { result ≡ READ
        → AreWritten (IsExpectedFrom text.now start) words.old words.new answer.new }
    ensures not_utf8 { (result ≡ NOT_UTF8) ↔ ¬ IsUtf8 text.now }
    ensures byte { result ≡ NOT_UTF8 → IsValidUpTo text.now answer.new.place }
    ensures no_room { result ≡ NO_ROOM
        → AreLonger (IsExpectedFrom text.now start) (length words.old) answer.new }
    ensures no_place { IsUtf8 text.now
        → ((result ≡ NO_PLACE) ↔ ¬ IsCharBoundary text.now start) }
    ensures none { result ≢ READ → result ≢ NO_ROOM → IsNone answer.new }
    ensures placed { result ≢ READ → result ≢ NO_ROOM → result ≢ NOT_UTF8
        → answer.new.place ≡ 0 }
    ensures unwritten { result ≢ READ → words.new ≡ words.old }
{
    *answer = NO_WORDS;
    match str::from_utf8(text) {
        Ok(raw) => expect_in(alloc, raw, start, words, answer),
        Err(error) => {
            answer.place = error.valid_up_to();
            NOT_UTF8
        }
    }
}

/// The same of a text that is UTF-8.
fn expect_in(
    alloc: Global,
    raw: &str,
    start: usize,
    words: &mut [u8],
    answer: &mut WeedleExpected,
) -> u32
    requires { answer.old ≡ NO_WORDS }
    ensures known { (result ≤ NO_PLACE) × (result ≢ NOT_UTF8) × (result ≢ REFUSED) }
    ensures read { result ≡ READ
        → AreWritten (IsExpectedFrom raw.now start) words.old words.new answer.new }
    ensures no_room { result ≡ NO_ROOM
        → AreLonger (IsExpectedFrom raw.now start) (length words.old) answer.new }
    ensures no_place { (result ≡ NO_PLACE) ↔ ¬ IsCharBoundary raw.now start }
    ensures none { result ≢ READ → result ≢ NO_ROOM → IsNone answer.new }
    ensures placed { result ≢ READ → result ≢ NO_ROOM → answer.new.place ≡ 0 }
    ensures unwritten { result ≢ READ → words.new ≡ words.old }
{
    if !raw.is_char_boundary(start) {
        return NO_PLACE;
    }
    match furthest_in(alloc, &raw[start..]) {
        Ok((furthest, expected)) => put(alloc, &expected, start + furthest, words, answer),
        Err(_) => NO_MEMORY,
    }
}

/// The same as [`expect`], by the rules of the dialect of this number.
pub(crate) fn expect_by(
    alloc: Global,
    dialect: u32,
    text: &[u8],
    start: usize,
    words: &mut [u8],
    answer: &mut WeedleExpected,
) -> u32
    ensures known { (result ≤ TOO_DEEP) × (result ≢ REFUSED) }
    ensures no_dialect { (result ≡ NO_DIALECT) ↔ (TODAY < dialect) }
    ensures read { result ≡ READ
        → AreWritten (IsExpectedFromIn (the_dialect_of dialect) text.now start)
        words.old words.new answer.new }
    ensures not_utf8 { dialect ≤ TODAY → ((result ≡ NOT_UTF8) ↔ ¬ IsUtf8 text.now) }
    ensures byte { result ≡ NOT_UTF8 → IsValidUpTo text.now answer.new.place }
    ensures no_room { result ≡ NO_ROOM
        → AreLonger (IsExpectedFromIn (the_dialect_of dialect) text.now start)
        (length words.old) answer.new }
    ensures no_place { dialect ≤ TODAY → IsUtf8 text.now
        → ((result ≡ NO_PLACE) ↔ ¬ IsCharBoundary text.now start) }
    ensures too_deep { result ≡ TOO_DEEP → dialect ≢ WEEDLE2 }
    ensures none { result ≢ READ → result ≢ NO_ROOM → IsNone answer.new }
    ensures placed { result ≢ READ → result ≢ NO_ROOM → result ≢ NOT_UTF8
        → answer.new.place ≡ 0 }
    ensures unwritten { result ≢ READ → words.new ≡ words.old }
{
    *answer = NO_WORDS;
    if dialect > TODAY {
        return NO_DIALECT;
    }
    match str::from_utf8(text) {
        Ok(raw) => expect_text_by(alloc, dialect_of(dialect), raw, start, words, answer),
        Err(error) => {
            answer.place = error.valid_up_to();
            NOT_UTF8
        }
    }
}

/// The same of a text that is UTF-8.
fn expect_text_by(
    alloc: Global,
    dialect: Dialect,
    raw: &str,
    start: usize,
    words: &mut [u8],
    answer: &mut WeedleExpected,
) -> u32
    requires { answer.old ≡ NO_WORDS }
    ensures known { (result ≤ TOO_DEEP) × (result ≢ NOT_UTF8)
        × (result ≢ REFUSED) × (result ≢ NO_DIALECT) }
    ensures read { result ≡ READ
        → AreWritten (IsExpectedFromIn dialect raw.now start) words.old words.new answer.new }
    ensures no_room { result ≡ NO_ROOM
        → AreLonger (IsExpectedFromIn dialect raw.now start) (length words.old) answer.new }
    ensures no_place { (result ≡ NO_PLACE) ↔ ¬ IsCharBoundary raw.now start }
    ensures too_deep { result ≡ TOO_DEEP → dialect ≢ Weedle2 }
    ensures none { result ≢ READ → result ≢ NO_ROOM → IsNone answer.new }
    ensures placed { result ≢ READ → result ≢ NO_ROOM → answer.new.place ≡ 0 }
    ensures unwritten { result ≢ READ → words.new ≡ words.old }
{
    if !raw.is_char_boundary(start) {
        return NO_PLACE;
    }
    match furthest_by(alloc, &raw[start..], dialect) {
        Ok((passed, expected)) => put(alloc, &expected, start + passed, words, answer),
        Err(DialectError::Memory) => NO_MEMORY,
        Err(DialectError::TooDeep) => TOO_DEEP,
    }
}

/// Writes words that are expected at a place, where there is room for all.
pub(crate) fn put(
    alloc: Global,
    expected: &[Expected],
    place: usize,
    words: &mut [u8],
    answer: &mut WeedleExpected,
) -> u32
    requires { answer.old ≡ NO_WORDS }
    ensures known { (result ≡ READ) ⊎ (result ≡ NO_ROOM) ⊎ (result ≡ NO_MEMORY) }
    ensures read { result ≡ READ
        → AreWritten (ArePut expected.now place) words.old words.new answer.new }
    ensures no_room { result ≡ NO_ROOM
        → AreLonger (ArePut expected.now place) (length words.old) answer.new }
    ensures none { result ≡ NO_MEMORY → IsNone answer.new }
    ensures placed { result ≡ NO_MEMORY → answer.new.place ≡ 0 }
    ensures unwritten { result ≢ READ → words.new ≡ words.old }
{
    let Ok(text) = joined(alloc, expected) else {
        return NO_MEMORY;
    };
    *answer = WeedleExpected {
        count: expected.len(),
        length: text.len(),
        place,
    };
    if text.len() > words.len() {
        return NO_ROOM;
    }
    words[..text.len()].copy_from_slice(text.as_bytes());
    READ
}

/// The words, with a zero behind each.
fn joined(alloc: Global, expected: &[Expected]) -> Result<String, AllocError>
    ensures { IfOk result (λ text. string_bytes text ≡ words_bytes expected.now) }
{
    let mut text = String::new(alloc);
    for word in expected {
        add_word(&mut text, word)?;
    }
    Ok(text)
}

/// Adds a word with a zero behind it.
fn add_word(text: &mut String, word: &Expected) -> Result<(), AllocError>
    ensures { OnOk result
        (string_bytes text.new ≡ string_bytes text.old ++ (word_text word.now ++ (0 ∷ []))) }
{
    write!(text, "{word}\0")
}
