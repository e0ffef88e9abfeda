//! A formatted text.

ghost use Rattle.std.specs.Prelude.{
  ◌≡◌,
  ◌≢◌,
  ◌≤◌,
  ◌<◌,
  ◌⊎◌,
  ◌↔◌,
  IfOk,
  IfSome,
  IsUtf8,
  length,
  string_bytes,
};
ghost use Rattle.std.specs.Str.{IsValidUpTo};
ghost use Rattle.weedle_c.specs.Dialects.{dialect_of as the_dialect_of};
ghost use Rattle.weedle_c.specs.Formatted.{IsFormattedIn, IsLongerIn, IsUnformattedIn};
ghost use Rattle.weedle_formatter.specs.Words.{SaysTheSameIn};
ghost use Rattle.weedle_grammar.specs.written.Table.TodayDefinitions.{TODAY_DEFINITIONS};
ghost use Rattle.weedle_syntax.specs.Dialects.{start_of};
ghost use Rattle.weedle_syntax.specs.Syntax.{IsRuleFront, rest_of as the_rest_of};

use crate::dialect::{TODAY, dialect_of};
use crate::status::{NO_DIALECT, NO_MEMORY, NO_ROOM, NOT_UTF8, READ, REFUSED};
use std::alloc::{AllocError, Global};
use weedle_formatter::{lay_out, same_words};
use weedle_grammar::Rule;
use weedle_refusal::rest_of;
use weedle_syntax::{Dialect, Node, syntax_of_front, syntax_of_rule};

/// What is said of a text that is formatted beside the status.
#[repr(C)]
#[derive(Clone, Copy)]
pub struct WeedleFormatted {
    /// How many bytes the text has once it is formatted, of one that is read whole.
    pub length: usize,
    /// Where the remaining input begins, in bytes from the front of the text: at its end where it
    /// is read whole. For bytes that aren't UTF-8 it is the first one that isn't part of a
    /// character.
    pub rest: usize,
    /// 1 where the text was formatted, and 0 where it is as it was.
    pub is_laid_out: usize,
}

/// What is said where nothing is known.
const NOTHING: WeedleFormatted = WeedleFormatted {
    length: 0,
    rest: 0,
    is_laid_out: 0,
};

/// Formats a text by the rules of the dialect of this number, and writes it where there is room for
/// all. The answer is the status.
pub(crate) fn format_by(
    alloc: Global,
    dialect: u32,
    text: &[u8],
    out: &mut [u8],
    answer: &mut WeedleFormatted,
) -> u32
    ensures known { result ≤ NO_DIALECT }
    ensures no_dialect { (result ≡ NO_DIALECT) ↔ (TODAY < dialect) }
    ensures read { result ≡ READ
        → IsFormattedIn (the_dialect_of dialect) text.now out.old out.new answer.new }
    ensures refused { result ≡ REFUSED
        → IsUnformattedIn (the_dialect_of dialect) text.now answer.new }
    ensures not_utf8 { dialect ≤ TODAY → ((result ≡ NOT_UTF8) ↔ ¬ IsUtf8 text.now) }
    ensures byte { result ≡ NOT_UTF8 → IsValidUpTo text.now answer.new.rest }
    ensures no_room { result ≡ NO_ROOM
        → IsLongerIn (the_dialect_of dialect) text.now (length out.old) answer.new }
    ensures measured { result ≢ READ → result ≢ NO_ROOM
        → (answer.new.length ≡ 0) × (answer.new.is_laid_out ≡ 0) }
    ensures laid_out { answer.new.is_laid_out ≤ 1 }
    ensures placed { (result ≡ NO_MEMORY) ⊎ (result ≡ NO_DIALECT) → answer.new.rest ≡ 0 }
    ensures unwritten { result ≢ READ → out.new ≡ out.old }
{
    if dialect > TODAY {
        *answer = NOTHING;
        return NO_DIALECT;
    }
    format_in(alloc, dialect_of(dialect), text, out, answer)
}

/// Formats a text by the rules of a dialect, and writes it where there is room for all. The answer
/// is the status.
pub(crate) fn format_in(
    alloc: Global,
    dialect: Dialect,
    text: &[u8],
    out: &mut [u8],
    answer: &mut WeedleFormatted,
) -> u32
    ensures known { result ≤ NO_ROOM }
    ensures read { result ≡ READ → IsFormattedIn dialect text.now out.old out.new answer.new }
    ensures refused { result ≡ REFUSED → IsUnformattedIn dialect text.now answer.new }
    ensures not_utf8 { (result ≡ NOT_UTF8) ↔ ¬ IsUtf8 text.now }
    ensures byte { result ≡ NOT_UTF8 → IsValidUpTo text.now answer.new.rest }
    ensures no_room { result ≡ NO_ROOM → IsLongerIn dialect text.now (length out.old) answer.new }
    ensures measured { result ≢ READ → result ≢ NO_ROOM
        → (answer.new.length ≡ 0) × (answer.new.is_laid_out ≡ 0) }
    ensures laid_out { answer.new.is_laid_out ≤ 1 }
    ensures placed { result ≡ NO_MEMORY → answer.new.rest ≡ 0 }
    ensures unwritten { result ≢ READ → out.new ≡ out.old }
{
    *answer = NOTHING;
    match str::from_utf8(text) {
        Ok(raw) => format_text(alloc, dialect, raw, out, answer),
        Err(error) => {
            answer.rest = error.valid_up_to();
            NOT_UTF8
        }
    }
}

/// Formats what is UTF-8.
fn format_text(
    alloc: Global,
    dialect: Dialect,
    raw: &str,
    out: &mut [u8],
    answer: &mut WeedleFormatted,
) -> u32
    requires { answer.old ≡ NOTHING }
    ensures known { (result ≤ NO_ROOM) × (result ≢ NOT_UTF8) }
    ensures read { result ≡ READ → IsFormattedIn dialect raw.now out.old out.new answer.new }
    ensures refused { result ≡ REFUSED → IsUnformattedIn dialect raw.now answer.new }
    ensures no_room { result ≡ NO_ROOM → IsLongerIn dialect raw.now (length out.old) answer.new }
    ensures measured { result ≢ READ → result ≢ NO_ROOM
        → (answer.new.length ≡ 0) × (answer.new.is_laid_out ≡ 0) }
    ensures laid_out { answer.new.is_laid_out ≤ 1 }
    ensures placed { result ≡ NO_MEMORY → answer.new.rest ≡ 0 }
    ensures unwritten { result ≢ READ → out.new ≡ out.old }
{
    let Ok(nodes) = front_in(alloc, raw, dialect) else {
        return NO_MEMORY;
    };
    let rest = rest_of(&nodes);
    if rest < raw.len() {
        answer.rest = rest;
        return REFUSED;
    }
    match laid_out(alloc, dialect, raw, &nodes) {
        Ok(Some(text)) => put(dialect, raw, text.as_str(), 1, out, answer),
        Ok(None) => put(dialect, raw, raw, 0, out, answer),
        Err(_) => NO_MEMORY,
    }
}

/// The nodes of what the dialect's rules read at the front of a text.
fn front_in(alloc: Global, raw: &str, dialect: Dialect) -> Result<Vec<Node>, AllocError>
    ensures { IfOk result (λ nodes. IsRuleFront raw.now (start_of dialect) nodes.items) }
{
    match dialect {
        Dialect::Weedle2 => syntax_of_front(alloc, raw),
        Dialect::Today => todays_front(alloc, raw),
    }
}

/// The nodes of what today's rules read at the front of a text.
fn todays_front(alloc: Global, raw: &str) -> Result<Vec<Node>, AllocError>
    ensures { IfOk result (λ nodes. IsRuleFront raw.now TODAY_DEFINITIONS nodes.items) }
{
    match syntax_of_rule(alloc, raw, Rule::TODAY_DEFINITIONS)? {
        Some(nodes) => Ok(nodes),
        None => unreachable!(),
    }
}

/// The text of these nodes formatted, or None where that would say something else. What is
/// formatted already isn't read again.
fn laid_out(
    alloc: Global,
    dialect: Dialect,
    raw: &str,
    nodes: &[Node],
) -> Result<Option<String>, AllocError>
    requires are { IsRuleFront raw.now (start_of dialect) nodes.now }
    requires whole { length raw.now ≤ the_rest_of nodes.now }
    ensures { IfOk result
        (λ found. IfSome found (λ text. SaysTheSameIn dialect raw.now (string_bytes text))) }
{
    let text = lay_out(alloc, raw, nodes)?;
    if text.as_str() == raw {
        return Ok(Some(text));
    }
    let others = front_in(alloc, text.as_str(), dialect)?;
    if rest_of(&others) < text.len() {
        return Ok(None);
    }
    if !same_words(raw.as_bytes(), nodes, text.as_bytes(), &others) {
        return Ok(None);
    }
    Ok(Some(text))
}

/// Writes a text that says the same as another, where there is room for it.
fn put(
    dialect: Dialect,
    raw: &str,
    text: &str,
    is_laid_out: usize,
    out: &mut [u8],
    answer: &mut WeedleFormatted,
) -> u32
    requires same { SaysTheSameIn dialect raw.now text.now }
    requires stood { is_laid_out ≡ 0 → text.now ≡ raw.now }
    requires flag { is_laid_out ≤ 1 }
    ensures known { (result ≡ READ) ⊎ (result ≡ NO_ROOM) }
    ensures read { result ≡ READ → IsFormattedIn dialect raw.now out.old out.new answer.new }
    ensures no_room { result ≡ NO_ROOM → IsLongerIn dialect raw.now (length out.old) answer.new }
    ensures laid_out { answer.new.is_laid_out ≤ 1 }
    ensures unwritten { result ≢ READ → out.new ≡ out.old }
{
    *answer = WeedleFormatted {
        length: text.len(),
        rest: raw.len(),
        is_laid_out,
    };
    if text.len() > out.len() {
        return NO_ROOM;
    }
    out[..text.len()].copy_from_slice(text.as_bytes());
    READ
}
