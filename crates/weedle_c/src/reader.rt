//! The reading of a text, for its nodes.

ghost use Rattle.std.specs.Prelude.{◌≡◌, ◌≢◌, ◌⊎◌, ◌≤◌, ◌<◌, ◌↔◌, IfOk, IsUtf8, length};
ghost use Rattle.std.specs.Str.{IsValidUpTo};
ghost use Rattle.weedle_c.specs.Answers.{IsCountedIn, IsTooLong, IsTreeIn, IsUnreadIn};
ghost use Rattle.weedle_c.specs.Dialects.{dialect_of as the_dialect_of};
ghost use Rattle.weedle_grammar.specs.written.Table.TodayDefinitions.{TODAY_DEFINITIONS};
ghost use Rattle.weedle_syntax.specs.Dialects.{IsSyntaxIn, start_of};
ghost use Rattle.weedle_syntax.specs.Syntax.{IsRuleFront};

use crate::dialect::{TODAY, dialect_of};
use crate::node::{MOST, WeedleNode};
use crate::status::{NO_DIALECT, NO_MEMORY, NO_ROOM, NOT_UTF8, READ, REFUSED, TOO_LONG};
use std::alloc::{AllocError, Global};
use weedle_grammar::Rule;
use weedle_syntax::{Compact, Dialect, compact_of_front, compact_of_rule};

/// What is said of a reading beside its status.
#[repr(C)]
#[derive(Clone, Copy)]
pub struct WeedleAnswer {
    /// How many nodes the tree has, of a text that is read whole.
    pub count: usize,
    /// Where the remaining input begins, in bytes from the front of the text: at its end where it
    /// is read whole. For bytes that aren't UTF-8 it is the first one that isn't part of a
    /// character.
    pub rest: usize,
}

/// What is said where nothing is known.
pub(crate) const NOTHING: WeedleAnswer = WeedleAnswer { count: 0, rest: 0 };

/// Reads a text by the rules of the dialect of this number, and writes its nodes where there is
/// room for all. The answer is the status.
pub(crate) fn read_by(
    alloc: Global,
    dialect: u32,
    text: &[u8],
    nodes: &mut [WeedleNode],
    answer: &mut WeedleAnswer,
) -> u32
    ensures known { result ≤ NO_DIALECT }
    ensures no_dialect { (result ≡ NO_DIALECT) ↔ (TODAY < dialect) }
    ensures read { result ≡ READ
        → IsTreeIn (the_dialect_of dialect) text.now nodes.old nodes.new answer.new }
    ensures refused { result ≡ REFUSED
        → IsUnreadIn (the_dialect_of dialect) text.now answer.new }
    ensures not_utf8 { dialect ≤ TODAY → ((result ≡ NOT_UTF8) ↔ ¬ IsUtf8 text.now) }
    ensures byte { result ≡ NOT_UTF8 → IsValidUpTo text.now answer.new.rest }
    ensures no_room { result ≡ NO_ROOM
        → IsCountedIn (the_dialect_of dialect) text.now (length nodes.old) answer.new }
    ensures too_long { result ≡ TOO_LONG
        → IsTooLong (IsSyntaxIn (the_dialect_of dialect) text.now) text.now }
    ensures counted { result ≢ READ → result ≢ NO_ROOM → answer.new.count ≡ 0 }
    ensures placed { (result ≡ NO_MEMORY) ⊎ (result ≡ TOO_LONG) ⊎ (result ≡ NO_DIALECT)
        → answer.new.rest ≡ 0 }
    ensures unwritten { result ≢ READ → nodes.new ≡ nodes.old }
{
    if dialect > TODAY {
        *answer = NOTHING;
        return NO_DIALECT;
    }
    read_in(alloc, dialect_of(dialect), text, nodes, answer)
}

/// Reads a text by the rules of a dialect, and writes its nodes where there is room for all. The
/// answer is the status.
pub(crate) fn read_in(
    alloc: Global,
    dialect: Dialect,
    text: &[u8],
    nodes: &mut [WeedleNode],
    answer: &mut WeedleAnswer,
) -> u32
    ensures known { result ≤ TOO_LONG }
    ensures read { result ≡ READ → IsTreeIn dialect text.now nodes.old nodes.new answer.new }
    ensures refused { result ≡ REFUSED → IsUnreadIn dialect text.now answer.new }
    ensures not_utf8 { (result ≡ NOT_UTF8) ↔ ¬ IsUtf8 text.now }
    ensures byte { result ≡ NOT_UTF8 → IsValidUpTo text.now answer.new.rest }
    ensures no_room { result ≡ NO_ROOM
        → IsCountedIn dialect text.now (length nodes.old) answer.new }
    ensures too_long { result ≡ TOO_LONG → IsTooLong (IsSyntaxIn dialect text.now) text.now }
    ensures counted { result ≢ READ → result ≢ NO_ROOM → answer.new.count ≡ 0 }
    ensures placed { (result ≡ NO_MEMORY) ⊎ (result ≡ TOO_LONG) → answer.new.rest ≡ 0 }
    ensures unwritten { result ≢ READ → nodes.new ≡ nodes.old }
{
    *answer = NOTHING;
    match str::from_utf8(text) {
        Ok(raw) => read_text(alloc, dialect, raw, nodes, answer),
        Err(error) => {
            answer.rest = error.valid_up_to();
            NOT_UTF8
        }
    }
}

/// Reads a text that is UTF-8, and writes its nodes where there is room for all.
fn read_text(
    alloc: Global,
    dialect: Dialect,
    raw: &str,
    nodes: &mut [WeedleNode],
    answer: &mut WeedleAnswer,
) -> u32
    requires { answer.old ≡ NOTHING }
    ensures known { (result ≤ TOO_LONG) × (result ≢ NOT_UTF8) }
    ensures read { result ≡ READ → IsTreeIn dialect raw.now nodes.old nodes.new answer.new }
    ensures refused { result ≡ REFUSED → IsUnreadIn dialect raw.now answer.new }
    ensures no_room { result ≡ NO_ROOM
        → IsCountedIn dialect raw.now (length nodes.old) answer.new }
    ensures too_long { result ≡ TOO_LONG → IsTooLong (IsSyntaxIn dialect raw.now) raw.now }
    ensures counted { result ≢ READ → result ≢ NO_ROOM → answer.new.count ≡ 0 }
    ensures placed { (result ≡ NO_MEMORY) ⊎ (result ≡ TOO_LONG) → answer.new.rest ≡ 0 }
    ensures unwritten { result ≢ READ → nodes.new ≡ nodes.old }
{
    if raw.len() > MOST {
        return TOO_LONG;
    }
    match front_in(alloc, raw, dialect) {
        Ok(found) => answer_of(dialect, raw, &found, nodes, answer),
        Err(_) => NO_MEMORY,
    }
}

/// The nodes of what the dialect's rules read at the front of a text. weedle2's are packed while
/// they are read.
fn front_in(alloc: Global, raw: &str, dialect: Dialect) -> Result<Compact, AllocError>
    ensures { IfOk result (λ nodes. IsRuleFront raw.now (start_of dialect) nodes) }
{
    match dialect {
        Dialect::Weedle2 => compact_of_front(alloc, raw),
        Dialect::Today => todays_front(alloc, raw),
    }
}

/// The nodes of what today's rules read at the front of a text.
fn todays_front(alloc: Global, raw: &str) -> Result<Compact, AllocError>
    ensures { IfOk result (λ nodes. IsRuleFront raw.now TODAY_DEFINITIONS nodes) }
{
    match compact_of_rule(alloc, raw, Rule::TODAY_DEFINITIONS)? {
        Some(nodes) => Ok(nodes),
        None => unreachable!(),
    }
}

/// What is answered where these nodes were read.
fn answer_of(
    dialect: Dialect,
    raw: &str,
    found: &Compact,
    nodes: &mut [WeedleNode],
    answer: &mut WeedleAnswer,
) -> u32
    requires front { IsRuleFront raw.now (start_of dialect) found.now }
    requires nothing { answer.old ≡ NOTHING }
    ensures known { (result ≤ TOO_LONG) × (result ≢ NOT_UTF8) }
    ensures read { result ≡ READ → IsTreeIn dialect raw.now nodes.old nodes.new answer.new }
    ensures refused { result ≡ REFUSED → IsUnreadIn dialect raw.now answer.new }
    ensures no_room { result ≡ NO_ROOM
        → IsCountedIn dialect raw.now (length nodes.old) answer.new }
    ensures too_long { result ≡ TOO_LONG → IsTooLong (IsSyntaxIn dialect raw.now) raw.now }
    ensures counted { result ≢ READ → result ≢ NO_ROOM → answer.new.count ≡ 0 }
    ensures placed { (result ≡ NO_MEMORY) ⊎ (result ≡ TOO_LONG) → answer.new.rest ≡ 0 }
    ensures unwritten { result ≢ READ → nodes.new ≡ nodes.old }
{
    let count = found.len();
    let rest = found.end();
    if rest < raw.len() {
        *answer = WeedleAnswer { count: 0, rest };
        return REFUSED;
    }
    *answer = WeedleAnswer { count, rest };
    if count > nodes.len() {
        return NO_ROOM;
    }
    found.write_to(nodes);
    READ
}
