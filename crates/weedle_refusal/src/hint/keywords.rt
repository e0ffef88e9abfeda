//! The keywords of weedle2's grammar, by its rows.

ghost use Rattle.std.specs.Prelude.{◌≡◌, IsTrue};
ghost use Rattle.weedle_refusal.specs.Hint.{IsKeyword};
ghost use Rattle.weedle_syntax.specs.Kinds.{has_letter as the_has_letter};

use std::alloc::{AllocError, Global};
use std::str;
use weedle_grammar::{Class, Row, TABLE_RULES, holds, row_of, rule_of};

/// The keywords, in the order of their rules.
pub(crate) fn keywords(alloc: Global) -> Result<Vec<&'static str>, AllocError> {
    let mut keywords = Vec::new(alloc);
    for number in 0..TABLE_RULES as u16 {
        if let Row::Bytes(bytes) = row_of(rule_of(number)) {
            if has_letter(bytes) {
                if let Ok(keyword) = str::from_utf8(bytes) {
                    keywords.push(keyword)?;
                }
            }
        }
    }
    Ok(keywords)
}

/// Whether the word is a keyword.
pub(crate) fn is_keyword(word: &str) -> bool
    ensures { IsTrue result → IsKeyword word.now }
{
    for number in 0..TABLE_RULES as u16 {
        if let Row::Bytes(bytes) = row_of(rule_of(number)) {
            if has_letter(bytes) && word.as_bytes() == bytes {
                return true;
            }
        }
    }
    false
}

/// Whether one of the bytes is an ASCII letter.
fn has_letter(bytes: &[u8]) -> bool
    ensures { result ≡ the_has_letter bytes.now }
{
    bytes.iter().any(|&byte| holds(Class::Letter, byte))
}
