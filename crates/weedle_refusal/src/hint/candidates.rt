//! Changes that might fix a refused definition. Nothing is promised of them: what becomes a hint
//! was checked.

use crate::hint::Hint;
use crate::hint::signs::{add_missing, add_other_signs};
use crate::hint::tokens::{Kind, Token};
use crate::hint::unread::Unread;
use crate::hint::words::{add_keywords, add_orders};
use std::alloc::{AllocError, Global};

/// Among how many tokens before the place words are looked for.
const NEAR: usize = 32;

/// The changes that are worth a try, the likeliest first: a keyword in place of a word, a sign that
/// is left out or in place of another, two words in the other order, no docstring, a further sign.
pub(crate) fn candidates(alloc: Global, unread: &Unread<'_>) -> Result<Vec<Hint>, AllocError> {
    let mut hints = Vec::new(alloc);
    let near = last_of(unread.tokens, NEAR);
    add_keywords(alloc, &mut hints, unread.raw, near)?;
    add_other_signs(&mut hints, unread)?;
    add_orders(&mut hints, unread.raw, near)?;
    add_docstring(&mut hints, unread.tokens)?;
    add_missing(&mut hints, unread)?;
    Ok(hints)
}

/// So many tokens at the end, or all where there are fewer.
fn last_of(tokens: &[Token], count: usize) -> &[Token] {
    tokens
        .get(tokens.len().saturating_sub(count)..)
        .unwrap_or(tokens)
}

/// Adds the last docstring.
fn add_docstring(hints: &mut Vec<Hint>, tokens: &[Token]) -> Result<(), AllocError> {
    let is_docstring = |token: &&Token| token.kind == Kind::Docstring;
    if let Some(token) = tokens.iter().rev().find(is_docstring) {
        hints.push(Hint::Docstring {
            place: token.start,
            taken: token.end.saturating_sub(token.start),
        })?;
    }
    Ok(())
}
