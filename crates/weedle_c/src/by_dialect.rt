//! The calls that take a dialect by its number: 0 for weedle2's rules, 1 for today's. By weedle2's
//! rules each answers what the call of the crate answers whose name has no `_in`.

ghost use Rattle.std.specs.Prelude.{
  ◌≡◌,
  ◌≢◌,
  ◌⊎◌,
  ◌≤◌,
  ◌<◌,
  ◌↔◌,
  IsCharBoundary,
  IsUtf8,
  drop,
  length,
};
ghost use Rattle.std.specs.Str.{IsValidUpTo};
ghost use Rattle.weedle_c.specs.Answers.{IsCountedIn, IsTooLong, IsTreeIn, IsUnreadIn};
ghost use Rattle.weedle_c.specs.Dialects.{dialect_of};
ghost use Rattle.weedle_c.specs.Expectations.{
  AreLonger,
  AreWritten,
  IsExpectedFromIn,
  IsExpectedOfPartIn,
  IsNone,
};
ghost use Rattle.weedle_c.specs.Explained.{IsExplainedBehindIn, IsPartExplainedIn, IsSilent};
ghost use Rattle.weedle_c.specs.Formatted.{IsFormattedIn, IsLongerIn, IsUnformattedIn};
ghost use Rattle.weedle_c.specs.Parts.{ArePartedIn, AreTooLongIn, AreUncountedIn, IsPart};
ghost use Rattle.weedle_syntax.specs.Dialects.{IsSyntaxIn, IsWholeIn};

use crate::behind::explain_by;
use crate::dialect::{TODAY, WEEDLE2};
use crate::format::{WeedleFormatted, format_by};
use crate::node::WeedleNode;
use crate::part::WeedlePart;
use crate::reader::{WeedleAnswer, read_by};
use crate::recovered::{WeedleRecovered, divide_by};
use crate::status::{
    NO_DIALECT, NO_MEMORY, NO_PLACE, NO_ROOM, NOT_UTF8, READ, REFUSED, TOO_DEEP, TOO_LONG,
};
use crate::told::WeedleRefusal;
use crate::unread::{expect_part_by, explain_part_by};
use crate::words::{WeedleExpected, expect_by};
use std::alloc::Global;

/// Reads a text by the rules of a dialect, and writes the nodes of its syntax tree where there is
/// room for all. The answer is the status.
#[unsafe(no_mangle)]
pub extern "C" fn weedle_syntax_in(
    alloc: Global,
    dialect: u32,
    text: &[u8],
    nodes: &mut [WeedleNode],
    answer: &mut WeedleAnswer,
) -> u32
    ensures known { result ≤ NO_DIALECT }
    ensures no_dialect { (result ≡ NO_DIALECT) ↔ (TODAY < dialect) }
    ensures read { result ≡ READ
        → IsTreeIn (dialect_of dialect) text.now nodes.old nodes.new answer.new }
    ensures refused { result ≡ REFUSED → IsUnreadIn (dialect_of dialect) text.now answer.new }
    ensures not_utf8 { dialect ≤ TODAY → ((result ≡ NOT_UTF8) ↔ ¬ IsUtf8 text.now) }
    ensures byte { result ≡ NOT_UTF8 → IsValidUpTo text.now answer.new.rest }
    ensures no_room { result ≡ NO_ROOM
        → IsCountedIn (dialect_of dialect) text.now (length nodes.old) answer.new }
    ensures too_long { result ≡ TOO_LONG
        → IsTooLong (IsSyntaxIn (dialect_of dialect) text.now) text.now }
    ensures counted { result ≢ READ → result ≢ NO_ROOM → answer.new.count ≡ 0 }
    ensures placed { (result ≡ NO_MEMORY) ⊎ (result ≡ TOO_LONG) ⊎ (result ≡ NO_DIALECT)
        → answer.new.rest ≡ 0 }
    ensures unwritten { result ≢ READ → nodes.new ≡ nodes.old }
{
    read_by(alloc, dialect, text, nodes, answer)
}

/// Says where and why the text from a place of a text on is refused by the rules of a dialect, and
/// writes as much of the message as there is room for. The answer is the status.
#[unsafe(no_mangle)]
pub extern "C" fn weedle_explain_in(
    alloc: Global,
    dialect: u32,
    text: &[u8],
    start: usize,
    message: &mut [u8],
    answer: &mut WeedleRefusal,
) -> u32
    ensures known { result ≤ TOO_DEEP }
    ensures no_dialect { (result ≡ NO_DIALECT) ↔ (TODAY < dialect) }
    ensures read { result ≡ READ → IsWholeIn (dialect_of dialect) (drop start text.now) }
    ensures refused { result ≡ REFUSED
        → IsExplainedBehindIn (dialect_of dialect) text.now start
        message.old message.new answer.new }
    ensures not_utf8 { dialect ≤ TODAY → ((result ≡ NOT_UTF8) ↔ ¬ IsUtf8 text.now) }
    ensures byte { result ≡ NOT_UTF8 → IsValidUpTo text.now answer.new.place }
    ensures no_place { dialect ≤ TODAY → IsUtf8 text.now
        → ((result ≡ NO_PLACE) ↔ ¬ IsCharBoundary text.now start) }
    ensures too_deep { result ≡ TOO_DEEP → dialect ≢ WEEDLE2 }
    ensures silent { result ≢ REFUSED → IsSilent answer.new }
    ensures placed { result ≢ REFUSED → result ≢ NOT_UTF8 → answer.new.place ≡ 0 }
    ensures unwritten { result ≢ REFUSED → message.new ≡ message.old }
{
    explain_by(alloc, dialect, text, start, message, answer)
}

/// Writes the words for what would go on where the reading of definitions by the rules of a dialect
/// comes furthest, from a place of a text on, where there is room for all. The answer is the
/// status.
#[unsafe(no_mangle)]
pub extern "C" fn weedle_expected_in(
    alloc: Global,
    dialect: u32,
    text: &[u8],
    start: usize,
    words: &mut [u8],
    answer: &mut WeedleExpected,
) -> u32
    ensures known { (result ≤ TOO_DEEP) × (result ≢ REFUSED) }
    ensures no_dialect { (result ≡ NO_DIALECT) ↔ (TODAY < dialect) }
    ensures read { result ≡ READ
        → AreWritten (IsExpectedFromIn (dialect_of dialect) text.now start)
        words.old words.new answer.new }
    ensures not_utf8 { dialect ≤ TODAY → ((result ≡ NOT_UTF8) ↔ ¬ IsUtf8 text.now) }
    ensures byte { result ≡ NOT_UTF8 → IsValidUpTo text.now answer.new.place }
    ensures no_room { result ≡ NO_ROOM
        → AreLonger (IsExpectedFromIn (dialect_of dialect) text.now start)
        (length words.old) answer.new }
    ensures no_place { dialect ≤ TODAY → IsUtf8 text.now
        → ((result ≡ NO_PLACE) ↔ ¬ IsCharBoundary text.now start) }
    ensures too_deep { result ≡ TOO_DEEP → dialect ≢ WEEDLE2 }
    ensures none { result ≢ READ → result ≢ NO_ROOM → IsNone answer.new }
    ensures placed { result ≢ READ → result ≢ NO_ROOM → result ≢ NOT_UTF8
        → answer.new.place ≡ 0 }
    ensures unwritten { result ≢ READ → words.new ≡ words.old }
{
    expect_by(alloc, dialect, text, start, words, answer)
}

/// Divides a text into parts by the rules of a dialect, read or unread, and writes them and the
/// nodes of those that are read where there is room for all. The answer is the status.
#[unsafe(no_mangle)]
pub extern "C" fn weedle_recover_in(
    alloc: Global,
    dialect: u32,
    text: &[u8],
    parts: &mut [WeedlePart],
    nodes: &mut [WeedleNode],
    answer: &mut WeedleRecovered,
) -> u32
    ensures known { (result ≤ TOO_DEEP) × (result ≢ REFUSED) }
    ensures no_dialect { (result ≡ NO_DIALECT) ↔ (TODAY < dialect) }
    ensures read { result ≡ READ
        → ArePartedIn (dialect_of dialect) text.now
        parts.old parts.new nodes.old nodes.new answer.new }
    ensures not_utf8 { dialect ≤ TODAY → ((result ≡ NOT_UTF8) ↔ ¬ IsUtf8 text.now) }
    ensures byte { result ≡ NOT_UTF8 → IsValidUpTo text.now answer.new.rest }
    ensures no_room { result ≡ NO_ROOM
        → AreUncountedIn (dialect_of dialect) text.now
        (length parts.old) (length nodes.old) answer.new }
    ensures too_long { result ≡ TOO_LONG → AreTooLongIn (dialect_of dialect) text.now }
    ensures too_deep { result ≡ TOO_DEEP → dialect ≢ WEEDLE2 }
    ensures counted { result ≢ READ → result ≢ NO_ROOM
        → (answer.new.parts ≡ 0) × (answer.new.nodes ≡ 0) × (answer.new.unread ≡ 0) }
    ensures placed { result ≢ NOT_UTF8 → answer.new.rest ≡ 0 }
    ensures parts_unwritten { result ≢ READ → parts.new ≡ parts.old }
    ensures nodes_unwritten { result ≢ READ → nodes.new ≡ nodes.old }
{
    divide_by(alloc, dialect, text, parts, nodes, answer)
}

/// Says why a part of a text is unread by the rules of a dialect, and writes as much of the message
/// as there is room for. The answer is the status.
#[unsafe(no_mangle)]
pub extern "C" fn weedle_explain_part_in(
    alloc: Global,
    dialect: u32,
    text: &[u8],
    part: &WeedlePart,
    message: &mut [u8],
    answer: &mut WeedleRefusal,
) -> u32
    ensures known { (result ≤ TOO_DEEP) × (result ≢ READ) }
    ensures no_dialect { (result ≡ NO_DIALECT) ↔ (TODAY < dialect) }
    ensures refused { result ≡ REFUSED
        → IsPartExplainedIn (dialect_of dialect) text.now part.now
        message.old message.new answer.new }
    ensures not_utf8 { dialect ≤ TODAY → ((result ≡ NOT_UTF8) ↔ ¬ IsUtf8 text.now) }
    ensures byte { result ≡ NOT_UTF8 → IsValidUpTo text.now answer.new.place }
    ensures no_place { result ≡ NO_PLACE → ¬ IsPart text.now part.now }
    ensures too_deep { result ≡ TOO_DEEP → dialect ≢ WEEDLE2 }
    ensures silent { result ≢ REFUSED → IsSilent answer.new }
    ensures placed { result ≢ REFUSED → result ≢ NOT_UTF8 → answer.new.place ≡ 0 }
    ensures unwritten { result ≢ REFUSED → message.new ≡ message.old }
{
    explain_part_by(alloc, dialect, text, part, message, answer)
}

/// Writes the words for what would go on where the reading of an unread part by the rules of a
/// dialect comes furthest, where there is room for all. The answer is the status.
#[unsafe(no_mangle)]
pub extern "C" fn weedle_expected_part_in(
    alloc: Global,
    dialect: u32,
    text: &[u8],
    part: &WeedlePart,
    words: &mut [u8],
    answer: &mut WeedleExpected,
) -> u32
    ensures known { (result ≤ TOO_DEEP) × (result ≢ REFUSED) }
    ensures no_dialect { (result ≡ NO_DIALECT) ↔ (TODAY < dialect) }
    ensures read { result ≡ READ
        → AreWritten (IsExpectedOfPartIn (dialect_of dialect) text.now part.now)
        words.old words.new answer.new }
    ensures not_utf8 { dialect ≤ TODAY → ((result ≡ NOT_UTF8) ↔ ¬ IsUtf8 text.now) }
    ensures byte { result ≡ NOT_UTF8 → IsValidUpTo text.now answer.new.place }
    ensures no_room { result ≡ NO_ROOM
        → AreLonger (IsExpectedOfPartIn (dialect_of dialect) text.now part.now)
        (length words.old) answer.new }
    ensures no_place { result ≡ NO_PLACE → ¬ IsPart text.now part.now }
    ensures too_deep { result ≡ TOO_DEEP → dialect ≢ WEEDLE2 }
    ensures none { result ≢ READ → result ≢ NO_ROOM → IsNone answer.new }
    ensures placed { result ≢ READ → result ≢ NO_ROOM → result ≢ NOT_UTF8
        → answer.new.place ≡ 0 }
    ensures unwritten { result ≢ READ → words.new ≡ words.old }
{
    expect_part_by(alloc, dialect, text, part, words, answer)
}

/// Formats a text by the rules of a dialect, and writes it where there is room for all. The answer
/// is the status.
#[unsafe(no_mangle)]
pub extern "C" fn weedle_format_in(
    alloc: Global,
    dialect: u32,
    text: &[u8],
    out: &mut [u8],
    answer: &mut WeedleFormatted,
) -> u32
    ensures known { result ≤ NO_DIALECT }
    ensures no_dialect { (result ≡ NO_DIALECT) ↔ (TODAY < dialect) }
    ensures read { result ≡ READ
        → IsFormattedIn (dialect_of dialect) text.now out.old out.new answer.new }
    ensures refused { result ≡ REFUSED
        → IsUnformattedIn (dialect_of dialect) text.now answer.new }
    ensures not_utf8 { dialect ≤ TODAY → ((result ≡ NOT_UTF8) ↔ ¬ IsUtf8 text.now) }
    ensures byte { result ≡ NOT_UTF8 → IsValidUpTo text.now answer.new.rest }
    ensures no_room { result ≡ NO_ROOM
        → IsLongerIn (dialect_of dialect) text.now (length out.old) answer.new }
    ensures measured { result ≢ READ → result ≢ NO_ROOM
        → (answer.new.length ≡ 0) × (answer.new.is_laid_out ≡ 0) }
    ensures laid_out { answer.new.is_laid_out ≤ 1 }
    ensures placed { (result ≡ NO_MEMORY) ⊎ (result ≡ NO_DIALECT) → answer.new.rest ≡ 0 }
    ensures unwritten { result ≢ READ → out.new ≡ out.old }
{
    format_by(alloc, dialect, text, out, answer)
}
