//! Changes of words.

use crate::hint::Hint;
use crate::hint::keywords::{is_keyword, keywords};
use crate::hint::near::differ_by_one;
use crate::hint::tokens::{Kind, Token};
use std::alloc::{AllocError, Global};
use std::str;

/// How many keywords are tried at most.
const MOST_KEYWORDS: usize = 3;

/// How many times two words are tried in the other order, at most.
const MOST_ORDERS: usize = 4;

/// How many bytes a word has at most that is tried in another order, so that what is said stays
/// short.
const MOST_BYTES: usize = 40;

/// Adds the keywords that words may be meant for, those of the last word first.
pub(crate) fn add_keywords(
    alloc: Global,
    hints: &mut Vec<Hint>,
    raw: &str,
    tokens: &[Token],
) -> Result<(), AllocError> {
    let keywords = keywords(alloc)?;
    for token in tokens.iter().rev() {
        if hints.len() >= MOST_KEYWORDS {
            break;
        }
        if token.kind == Kind::Word {
            add_keywords_near(hints, &keywords, raw, token)?;
        }
    }
    hints.truncate(MOST_KEYWORDS);
    Ok(())
}

/// Adds the keywords that a word may be meant for, which is none itself.
fn add_keywords_near(
    hints: &mut Vec<Hint>,
    keywords: &[&'static str],
    raw: &str,
    token: &Token,
) -> Result<(), AllocError> {
    let word = token.of(raw);
    if keywords.iter().any(|keyword| keyword.as_bytes() == word) {
        return Ok(());
    }
    for keyword in keywords {
        if differ_by_one(word, keyword.as_bytes()) {
            hints.push(Hint::Keyword {
                place: token.start,
                taken: word.len(),
                keyword: *keyword,
            })?;
        }
    }
    Ok(())
}

/// Adds pairs of words that may be in the wrong order, the last ones first.
pub(crate) fn add_orders(
    hints: &mut Vec<Hint>,
    raw: &str,
    tokens: &[Token],
) -> Result<(), AllocError> {
    let mut left = MOST_ORDERS;
    for pair in tokens.windows(2).rev() {
        if left == 0 {
            break;
        }
        if let Some(hint) = order(raw, pair) {
            hints.push(hint)?;
            left -= 1;
        }
    }
    Ok(())
}

/// Two words of which one is a keyword at least, in the other order.
fn order(raw: &str, pair: &[Token]) -> Option<Hint> {
    let (first, second) = (pair.first()?, pair.get(1)?);
    if first.kind != Kind::Word || second.kind != Kind::Word {
        return None;
    }
    let (one, two) = (first.of(raw), second.of(raw));
    if one == two || one.len().max(two.len()) > MOST_BYTES {
        return None;
    }
    if !is_keyword_of(one) && !is_keyword_of(two) {
        return None;
    }
    Some(Hint::WordOrder {
        place: first.start,
        taken: one.len(),
        next: second.start,
        next_taken: two.len(),
    })
}

/// Whether the bytes are a keyword.
fn is_keyword_of(word: &[u8]) -> bool {
    match str::from_utf8(word) {
        Ok(word) => is_keyword(word),
        Err(_) => false,
    }
}
