//! The parts of a text, read or unread.

ghost use Rattle.std.specs.Prelude.{◌≡◌, ◌≢◌, ◌⊎◌, ◌≤◌, ◌<◌, ◌↔◌, IsUtf8, length};
ghost use Rattle.std.specs.Str.{IsValidUpTo};
ghost use Rattle.weedle_c.specs.Dialects.{dialect_of as the_dialect_of};
ghost use Rattle.weedle_c.specs.Parts.{
  AreParted,
  ArePartedIn,
  AreTooLong,
  AreTooLongIn,
  AreUncounted,
  AreUncountedIn,
  IsRecoveryIn,
};
ghost use Rattle.weedle_syntax.specs.declared.dialect.Dialect.TheVariants.{Weedle2};

use crate::dialect::{TODAY, WEEDLE2, dialect_of};
use crate::node::{MOST, WeedleNode, all_fit, fill};
use crate::part::{WeedlePart, all_parts_fit, fill_parts, unread_in};
use crate::status::{NO_DIALECT, NO_MEMORY, NO_ROOM, NOT_UTF8, READ, REFUSED, TOO_DEEP, TOO_LONG};
use std::alloc::Global;
use weedle_recovery::{Part, recover, recover_in};
use weedle_refusal::DialectError;
use weedle_syntax::{Dialect, Node};

/// What is said of the parts of a text beside the status.
#[repr(C)]
#[derive(Clone, Copy)]
pub struct WeedleRecovered {
    /// How many parts there are.
    pub parts: usize,
    /// How many nodes those have that are read.
    pub nodes: usize,
    /// How many parts are unread.
    pub unread: usize,
    /// For bytes that aren't UTF-8 the first one that isn't part of a character.
    pub rest: usize,
}

/// What is said where nothing is known.
const NOTHING: WeedleRecovered = WeedleRecovered {
    parts: 0,
    nodes: 0,
    unread: 0,
    rest: 0,
};

/// Divides a text into parts, and writes them and the nodes of those that are read where there is
/// room for all. The answer is the status.
pub(crate) fn divide(
    alloc: Global,
    text: &[u8],
    parts: &mut [WeedlePart],
    nodes: &mut [WeedleNode],
    answer: &mut WeedleRecovered,
) -> u32
    ensures known { (result ≤ TOO_LONG) × (result ≢ REFUSED) }
    ensures read { result ≡ READ
        → AreParted text.now parts.old parts.new nodes.old nodes.new answer.new }
    ensures not_utf8 { (result ≡ NOT_UTF8) ↔ ¬ IsUtf8 text.now }
    ensures byte { result ≡ NOT_UTF8 → IsValidUpTo text.now answer.new.rest }
    ensures no_room { result ≡ NO_ROOM
        → AreUncounted text.now (length parts.old) (length nodes.old) answer.new }
    ensures too_long { result ≡ TOO_LONG → AreTooLong text.now }
    ensures counted { result ≢ READ → result ≢ NO_ROOM
        → (answer.new.parts ≡ 0) × (answer.new.nodes ≡ 0) × (answer.new.unread ≡ 0) }
    ensures placed { result ≢ NOT_UTF8 → answer.new.rest ≡ 0 }
    ensures parts_unwritten { result ≢ READ → parts.new ≡ parts.old }
    ensures nodes_unwritten { result ≢ READ → nodes.new ≡ nodes.old }
{
    *answer = NOTHING;
    match str::from_utf8(text) {
        Ok(raw) => divide_text(alloc, raw, parts, nodes, answer),
        Err(error) => {
            answer.rest = error.valid_up_to();
            NOT_UTF8
        }
    }
}

/// Divides a text that is UTF-8.
fn divide_text(
    alloc: Global,
    raw: &str,
    parts: &mut [WeedlePart],
    nodes: &mut [WeedleNode],
    answer: &mut WeedleRecovered,
) -> u32
    requires { answer.old ≡ NOTHING }
    ensures known { (result ≤ TOO_LONG) × (result ≢ NOT_UTF8) × (result ≢ REFUSED) }
    ensures read { result ≡ READ
        → AreParted raw.now parts.old parts.new nodes.old nodes.new answer.new }
    ensures no_room { result ≡ NO_ROOM
        → AreUncounted raw.now (length parts.old) (length nodes.old) answer.new }
    ensures too_long { result ≡ TOO_LONG → AreTooLong raw.now }
    ensures counted { result ≢ READ → result ≢ NO_ROOM
        → (answer.new.parts ≡ 0) × (answer.new.nodes ≡ 0) × (answer.new.unread ≡ 0) }
    ensures placed { answer.new.rest ≡ 0 }
    ensures parts_unwritten { result ≢ READ → parts.new ≡ parts.old }
    ensures nodes_unwritten { result ≢ READ → nodes.new ≡ nodes.old }
{
    if raw.len() > MOST {
        return TOO_LONG;
    }
    match recover(alloc, raw) {
        Ok(found) => put(
            Dialect::Weedle2,
            raw,
            &found.parts,
            &found.nodes,
            parts,
            nodes,
            answer,
        ),
        Err(_) => NO_MEMORY,
    }
}

/// Divides a text into parts by the rules of the dialect of this number, and writes them and the
/// nodes of those that are read where there is room for all. The answer is the status.
pub(crate) fn divide_by(
    alloc: Global,
    dialect: u32,
    text: &[u8],
    parts: &mut [WeedlePart],
    nodes: &mut [WeedleNode],
    answer: &mut WeedleRecovered,
) -> u32
    ensures known { (result ≤ TOO_DEEP) × (result ≢ REFUSED) }
    ensures no_dialect { (result ≡ NO_DIALECT) ↔ (TODAY < dialect) }
    ensures read { result ≡ READ
        → ArePartedIn (the_dialect_of dialect) text.now
        parts.old parts.new nodes.old nodes.new answer.new }
    ensures not_utf8 { dialect ≤ TODAY → ((result ≡ NOT_UTF8) ↔ ¬ IsUtf8 text.now) }
    ensures byte { result ≡ NOT_UTF8 → IsValidUpTo text.now answer.new.rest }
    ensures no_room { result ≡ NO_ROOM
        → AreUncountedIn (the_dialect_of dialect) text.now
        (length parts.old) (length nodes.old) answer.new }
    ensures too_long { result ≡ TOO_LONG → AreTooLongIn (the_dialect_of dialect) text.now }
    ensures too_deep { result ≡ TOO_DEEP → dialect ≢ WEEDLE2 }
    ensures counted { result ≢ READ → result ≢ NO_ROOM
        → (answer.new.parts ≡ 0) × (answer.new.nodes ≡ 0) × (answer.new.unread ≡ 0) }
    ensures placed { result ≢ NOT_UTF8 → answer.new.rest ≡ 0 }
    ensures parts_unwritten { result ≢ READ → parts.new ≡ parts.old }
    ensures nodes_unwritten { result ≢ READ → nodes.new ≡ nodes.old }
{
    *answer = NOTHING;
    if dialect > TODAY {
        return NO_DIALECT;
    }
    match str::from_utf8(text) {
        Ok(raw) => divide_text_by(alloc, dialect_of(dialect), raw, parts, nodes, answer),
        Err(error) => {
            answer.rest = error.valid_up_to();
            NOT_UTF8
        }
    }
}

/// The same of a text that is UTF-8.
fn divide_text_by(
    alloc: Global,
    dialect: Dialect,
    raw: &str,
    parts: &mut [WeedlePart],
    nodes: &mut [WeedleNode],
    answer: &mut WeedleRecovered,
) -> u32
    requires { answer.old ≡ NOTHING }
    ensures known { (result ≤ TOO_DEEP) × (result ≢ NOT_UTF8)
        × (result ≢ REFUSED) × (result ≢ NO_DIALECT) }
    ensures read { result ≡ READ
        → ArePartedIn dialect raw.now parts.old parts.new nodes.old nodes.new answer.new }
    ensures no_room { result ≡ NO_ROOM
        → AreUncountedIn dialect raw.now (length parts.old) (length nodes.old) answer.new }
    ensures too_long { result ≡ TOO_LONG → AreTooLongIn dialect raw.now }
    ensures too_deep { result ≡ TOO_DEEP → dialect ≢ Weedle2 }
    ensures counted { result ≢ READ → result ≢ NO_ROOM
        → (answer.new.parts ≡ 0) × (answer.new.nodes ≡ 0) × (answer.new.unread ≡ 0) }
    ensures placed { answer.new.rest ≡ 0 }
    ensures parts_unwritten { result ≢ READ → parts.new ≡ parts.old }
    ensures nodes_unwritten { result ≢ READ → nodes.new ≡ nodes.old }
{
    if raw.len() > MOST {
        return TOO_LONG;
    }
    match recover_in(alloc, raw, dialect) {
        Ok(found) => put(
            dialect,
            raw,
            &found.parts,
            &found.nodes,
            parts,
            nodes,
            answer,
        ),
        Err(DialectError::Memory) => NO_MEMORY,
        Err(DialectError::TooDeep) => TOO_DEEP,
    }
}

/// Writes the parts that a text was divided into, and their nodes.
fn put(
    dialect: Dialect,
    raw: &str,
    found: &[Part],
    tree: &[Node],
    parts: &mut [WeedlePart],
    nodes: &mut [WeedleNode],
    answer: &mut WeedleRecovered,
) -> u32
    requires is { IsRecoveryIn dialect raw.now found.now tree.now }
    requires nothing { answer.old ≡ NOTHING }
    ensures known { (result ≡ READ) ⊎ (result ≡ NO_ROOM) ⊎ (result ≡ TOO_LONG) }
    ensures read { result ≡ READ
        → ArePartedIn dialect raw.now parts.old parts.new nodes.old nodes.new answer.new }
    ensures no_room { result ≡ NO_ROOM
        → AreUncountedIn dialect raw.now (length parts.old) (length nodes.old) answer.new }
    ensures too_long { result ≡ TOO_LONG → AreTooLongIn dialect raw.now }
    ensures counted { result ≡ TOO_LONG
        → (answer.new.parts ≡ 0) × (answer.new.nodes ≡ 0) × (answer.new.unread ≡ 0) }
    ensures placed { answer.new.rest ≡ 0 }
    ensures parts_unwritten { result ≢ READ → parts.new ≡ parts.old }
    ensures nodes_unwritten { result ≢ READ → nodes.new ≡ nodes.old }
{
    if !all_parts_fit(found) {
        return TOO_LONG;
    }
    if !all_fit(tree) {
        return TOO_LONG;
    }
    *answer = WeedleRecovered {
        parts: found.len(),
        nodes: tree.len(),
        unread: unread_in(found),
        rest: 0,
    };
    if found.len() > parts.len() {
        return NO_ROOM;
    }
    if tree.len() > nodes.len() {
        return NO_ROOM;
    }
    fill_parts(found, parts);
    fill(tree, nodes);
    READ
}
