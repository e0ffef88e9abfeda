//! The proved parser as a C library. `include/weedle.h` declares what it exports, and says what a
//! caller has to keep.
//!
//! ```c
//! struct weedle_answer answer;
//! unsigned status = weedle_syntax(text, length, nodes, room, &answer);
//! ```
//!
//! Each function calls one that does what it says, and states its clauses again. A C compiler sees
//! a slice as a pointer and a length, and no `alloc`. Those here read by weedle2's rules, and those
//! of [`by_dialect`] by the rules of a dialect.
#![tactic(auto)]

mod behind;
pub mod by_dialect;
mod dialect;
mod format;
mod hint;
mod message;
mod node;
mod part;
mod reader;
mod recovered;
mod rule;
mod status;
mod told;
mod unread;
mod words;

ghost use Rattle.std.specs.Prelude.{
  ◌≡◌,
  ◌≢◌,
  ◌⊎◌,
  ◌≤◌,
  ◌<◌,
  ◌↔◌,
  IsCharBoundary,
  IsUtf8,
  drop,
  length,
};
ghost use Rattle.std.specs.Str.{IsValidUpTo};
ghost use Rattle.weedle_c.specs.Answers.{
  IsCounted,
  IsRuleCounted,
  IsRuleTree,
  IsTooLong,
  IsTree,
  IsUnread,
};
ghost use Rattle.weedle_c.specs.Expectations.{
  AreLonger,
  AreWritten,
  IsExpectedFrom,
  IsExpectedOfPart,
  IsNone,
};
ghost use Rattle.weedle_c.specs.Explained.{
  IsExplained,
  IsExplainedBehind,
  IsPartExplained,
  IsSilent,
};
ghost use Rattle.weedle_c.specs.Formatted.{IsFormatted, IsLonger, IsUnformatted};
ghost use Rattle.weedle_c.specs.Parts.{AreParted, AreTooLong, AreUncounted, IsPart};
ghost use Rattle.weedle_rules.specs.Outcomes.{FailsAt};
ghost use Rattle.weedle_syntax.specs.Syntax.{IsRuleFront, IsSyntax, IsWhole};

use crate::behind::explain_from;
use crate::format::{WeedleFormatted, format_in};
use crate::message::explain;
use crate::node::WeedleNode;
use crate::part::WeedlePart;
use crate::reader::{WeedleAnswer, read_in};
use crate::recovered::{WeedleRecovered, divide};
use crate::rule::read_rule;
use crate::status::{NO_MEMORY, NO_PLACE, NO_ROOM, NO_RULE, NOT_UTF8, READ, REFUSED, TOO_LONG};
use crate::told::WeedleRefusal;
use crate::unread::{expect_in_part, explain_part};
use crate::words::{WeedleExpected, expect};
use std::alloc::Global;
use weedle_grammar::RULES;
use weedle_syntax::Dialect;

/// The version: a byte each for the three numbers of 0.11.0.
const VERSION: u32 = 0x000b00;

/// Reads a text, and writes the nodes of its syntax tree where there is room for all. The answer is
/// the status.
#[unsafe(no_mangle)]
pub extern "C" fn weedle_syntax(
    alloc: Global,
    text: &[u8],
    nodes: &mut [WeedleNode],
    answer: &mut WeedleAnswer,
) -> u32
    ensures known { result ≤ TOO_LONG }
    ensures read { result ≡ READ → IsTree text.now nodes.old nodes.new answer.new }
    ensures refused { result ≡ REFUSED → IsUnread text.now answer.new }
    ensures not_utf8 { (result ≡ NOT_UTF8) ↔ ¬ IsUtf8 text.now }
    ensures byte { result ≡ NOT_UTF8 → IsValidUpTo text.now answer.new.rest }
    ensures no_room { result ≡ NO_ROOM → IsCounted text.now (length nodes.old) answer.new }
    ensures too_long { result ≡ TOO_LONG → IsTooLong (IsSyntax text.now) text.now }
    ensures counted { result ≢ READ → result ≢ NO_ROOM → answer.new.count ≡ 0 }
    ensures placed { (result ≡ NO_MEMORY) ⊎ (result ≡ TOO_LONG) → answer.new.rest ≡ 0 }
    ensures unwritten { result ≢ READ → nodes.new ≡ nodes.old }
{
    read_in(alloc, Dialect::Weedle2, text, nodes, answer)
}

/// Reads a rule at the front of a text, whatever follows it, and writes the nodes of its syntax
/// tree where there is room for all. The answer is the status.
#[unsafe(no_mangle)]
pub extern "C" fn weedle_syntax_of(
    alloc: Global,
    rule: u32,
    text: &[u8],
    nodes: &mut [WeedleNode],
    answer: &mut WeedleAnswer,
) -> u32
    ensures known { result ≤ NO_RULE }
    ensures no_rule { (result ≡ NO_RULE) ↔ (RULES ≤ rule) }
    ensures read { result ≡ READ → IsRuleTree text.now rule nodes.old nodes.new answer.new }
    ensures refused { result ≡ REFUSED → FailsAt text.now rule 0 }
    ensures not_utf8 { rule < RULES → ((result ≡ NOT_UTF8) ↔ ¬ IsUtf8 text.now) }
    ensures byte { result ≡ NOT_UTF8 → IsValidUpTo text.now answer.new.rest }
    ensures no_room { result ≡ NO_ROOM
        → IsRuleCounted text.now rule (length nodes.old) answer.new }
    ensures too_long { result ≡ TOO_LONG → IsTooLong (IsRuleFront text.now rule) text.now }
    ensures counted { result ≢ READ → result ≢ NO_ROOM → answer.new.count ≡ 0 }
    ensures placed { result ≢ READ → result ≢ NO_ROOM → result ≢ NOT_UTF8
        → answer.new.rest ≡ 0 }
    ensures unwritten { result ≢ READ → nodes.new ≡ nodes.old }
{
    read_rule(alloc, rule, text, nodes, answer)
}

/// Says where and why a text is refused, and writes as much of the message as there is room for.
/// The answer is the status.
#[unsafe(no_mangle)]
pub extern "C" fn weedle_explain(
    alloc: Global,
    text: &[u8],
    message: &mut [u8],
    answer: &mut WeedleRefusal,
) -> u32
    ensures known { result ≤ NO_MEMORY }
    ensures read { result ≡ READ → IsWhole text.now }
    ensures refused { result ≡ REFUSED → IsExplained text.now message.old message.new answer.new }
    ensures not_utf8 { (result ≡ NOT_UTF8) ↔ ¬ IsUtf8 text.now }
    ensures byte { result ≡ NOT_UTF8 → IsValidUpTo text.now answer.new.place }
    ensures silent { result ≢ REFUSED → IsSilent answer.new }
    ensures placed { result ≢ REFUSED → result ≢ NOT_UTF8 → answer.new.place ≡ 0 }
    ensures unwritten { result ≢ REFUSED → message.new ≡ message.old }
{
    explain(alloc, text, message, answer)
}

/// Says where and why the text from a place of a text on is refused, and writes as much of the
/// message as there is room for. The answer is the status.
#[unsafe(no_mangle)]
pub extern "C" fn weedle_explain_from(
    alloc: Global,
    text: &[u8],
    start: usize,
    message: &mut [u8],
    answer: &mut WeedleRefusal,
) -> u32
    ensures known { result ≤ NO_PLACE }
    ensures read { result ≡ READ → IsWhole (drop start text.now) }
    ensures refused { result ≡ REFUSED → IsExplainedBehind text.now start message.old message.new answer.new }
    ensures not_utf8 { (result ≡ NOT_UTF8) ↔ ¬ IsUtf8 text.now }
    ensures byte { result ≡ NOT_UTF8 → IsValidUpTo text.now answer.new.place }
    ensures no_place { IsUtf8 text.now
        → ((result ≡ NO_PLACE) ↔ ¬ IsCharBoundary text.now start) }
    ensures silent { result ≢ REFUSED → IsSilent answer.new }
    ensures placed { result ≢ REFUSED → result ≢ NOT_UTF8 → answer.new.place ≡ 0 }
    ensures unwritten { result ≢ REFUSED → message.new ≡ message.old }
{
    explain_from(alloc, text, start, message, answer)
}

/// Writes the words for what would go on where the reading of definitions comes furthest, from a
/// place of a text on, where there is room for all. The answer is the status.
#[unsafe(no_mangle)]
pub extern "C" fn weedle_expected(
    alloc: Global,
    text: &[u8],
    start: usize,
    words: &mut [u8],
    answer: &mut WeedleExpected,
) -> u32
    ensures known { (result ≤ NO_PLACE) × (result ≢ REFUSED) }
    ensures read { result ≡ READ
        → AreWritten (IsExpectedFrom text.now start) words.old words.new answer.new }
    ensures not_utf8 { (result ≡ NOT_UTF8) ↔ ¬ IsUtf8 text.now }
    ensures byte { result ≡ NOT_UTF8 → IsValidUpTo text.now answer.new.place }
    ensures no_room { result ≡ NO_ROOM
        → AreLonger (IsExpectedFrom text.now start) (length words.old) answer.new }
    ensures no_place { IsUtf8 text.now
        → ((result ≡ NO_PLACE) ↔ ¬ IsCharBoundary text.now start) }
    ensures none { result ≢ READ → result ≢ NO_ROOM → IsNone answer.new }
    ensures placed { result ≢ READ → result ≢ NO_ROOM → result ≢ NOT_UTF8
        → answer.new.place ≡ 0 }
    ensures unwritten { result ≢ READ → words.new ≡ words.old }
{
    expect(alloc, text, start, words, answer)
}

/// Divides a text into parts, read or unread, and writes them and the nodes of those that are read
/// where there is room for all. The answer is the status.
#[unsafe(no_mangle)]
pub extern "C" fn weedle_recover(
    alloc: Global,
    text: &[u8],
    parts: &mut [WeedlePart],
    nodes: &mut [WeedleNode],
    answer: &mut WeedleRecovered,
) -> u32
    ensures known { (result ≤ TOO_LONG) × (result ≢ REFUSED) }
    ensures read { result ≡ READ
        → AreParted text.now parts.old parts.new nodes.old nodes.new answer.new }
    ensures not_utf8 { (result ≡ NOT_UTF8) ↔ ¬ IsUtf8 text.now }
    ensures byte { result ≡ NOT_UTF8 → IsValidUpTo text.now answer.new.rest }
    ensures no_room { result ≡ NO_ROOM
        → AreUncounted text.now (length parts.old) (length nodes.old) answer.new }
    ensures too_long { result ≡ TOO_LONG → AreTooLong text.now }
    ensures counted { result ≢ READ → result ≢ NO_ROOM
        → (answer.new.parts ≡ 0) × (answer.new.nodes ≡ 0) × (answer.new.unread ≡ 0) }
    ensures placed { result ≢ NOT_UTF8 → answer.new.rest ≡ 0 }
    ensures parts_unwritten { result ≢ READ → parts.new ≡ parts.old }
    ensures nodes_unwritten { result ≢ READ → nodes.new ≡ nodes.old }
{
    divide(alloc, text, parts, nodes, answer)
}

/// Says why a part of a text is unread, and writes as much of the message as there is room for. The
/// answer is the status.
#[unsafe(no_mangle)]
pub extern "C" fn weedle_explain_part(
    alloc: Global,
    text: &[u8],
    part: &WeedlePart,
    message: &mut [u8],
    answer: &mut WeedleRefusal,
) -> u32
    ensures known { (result ≤ NO_PLACE) × (result ≢ READ) }
    ensures refused { result ≡ REFUSED → IsPartExplained text.now part.now message.old message.new answer.new }
    ensures not_utf8 { (result ≡ NOT_UTF8) ↔ ¬ IsUtf8 text.now }
    ensures byte { result ≡ NOT_UTF8 → IsValidUpTo text.now answer.new.place }
    ensures no_place { result ≡ NO_PLACE → ¬ IsPart text.now part.now }
    ensures silent { result ≢ REFUSED → IsSilent answer.new }
    ensures placed { result ≢ REFUSED → result ≢ NOT_UTF8 → answer.new.place ≡ 0 }
    ensures unwritten { result ≢ REFUSED → message.new ≡ message.old }
{
    explain_part(alloc, text, part, message, answer)
}

/// Writes the words for what would go on where the reading of an unread part comes furthest, where
/// there is room for all. The answer is the status.
#[unsafe(no_mangle)]
pub extern "C" fn weedle_expected_part(
    alloc: Global,
    text: &[u8],
    part: &WeedlePart,
    words: &mut [u8],
    answer: &mut WeedleExpected,
) -> u32
    ensures known { (result ≤ NO_PLACE) × (result ≢ REFUSED) }
    ensures read { result ≡ READ
        → AreWritten (IsExpectedOfPart text.now part.now) words.old words.new answer.new }
    ensures not_utf8 { (result ≡ NOT_UTF8) ↔ ¬ IsUtf8 text.now }
    ensures byte { result ≡ NOT_UTF8 → IsValidUpTo text.now answer.new.place }
    ensures no_room { result ≡ NO_ROOM
        → AreLonger (IsExpectedOfPart text.now part.now) (length words.old) answer.new }
    ensures no_place { result ≡ NO_PLACE → ¬ IsPart text.now part.now }
    ensures none { result ≢ READ → result ≢ NO_ROOM → IsNone answer.new }
    ensures placed { result ≢ READ → result ≢ NO_ROOM → result ≢ NOT_UTF8
        → answer.new.place ≡ 0 }
    ensures unwritten { result ≢ READ → words.new ≡ words.old }
{
    expect_in_part(alloc, text, part, words, answer)
}

/// Formats a text, and writes it where there is room for all. The answer is the status.
#[unsafe(no_mangle)]
pub extern "C" fn weedle_format(
    alloc: Global,
    text: &[u8],
    out: &mut [u8],
    answer: &mut WeedleFormatted,
) -> u32
    ensures known { result ≤ NO_ROOM }
    ensures read { result ≡ READ → IsFormatted text.now out.old out.new answer.new }
    ensures refused { result ≡ REFUSED → IsUnformatted text.now answer.new }
    ensures not_utf8 { (result ≡ NOT_UTF8) ↔ ¬ IsUtf8 text.now }
    ensures byte { result ≡ NOT_UTF8 → IsValidUpTo text.now answer.new.rest }
    ensures no_room { result ≡ NO_ROOM → IsLonger text.now (length out.old) answer.new }
    ensures measured { result ≢ READ → result ≢ NO_ROOM
        → (answer.new.length ≡ 0) × (answer.new.is_laid_out ≡ 0) }
    ensures laid_out { answer.new.is_laid_out ≤ 1 }
    ensures placed { result ≡ NO_MEMORY → answer.new.rest ≡ 0 }
    ensures unwritten { result ≢ READ → out.new ≡ out.old }
{
    format_in(alloc, Dialect::Weedle2, text, out, answer)
}

/// The version of the library.
#[unsafe(no_mangle)]
pub extern "C" fn weedle_version() -> u32
    ensures { result ≡ VERSION }
{
    VERSION
}

/// How many rules the grammar has.
#[unsafe(no_mangle)]
pub extern "C" fn weedle_rules() -> u32
    ensures { result ≡ RULES }
{
    RULES as u32
}
