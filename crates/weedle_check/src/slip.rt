//! Where a text is refused, and what is said of it.

use std::alloc::{AllocError, Global};
use std::io::{self, Write};
use weedle_base::Err;
use weedle_front::{explain, parse_quick};
use weedle_refusal::{DialectError, Hint, Refusal, refusal_in, write_hint, write_message};
use weedle_syntax::{Dialect, syntax_of_rule};

/// Where a text is refused.
#[derive(Debug, Drop)]
pub struct Slip {
    /// The byte of the text at which it is.
    pub place: usize,
    /// What would have been read there, or None where there is no memory for more than the place,
    /// or the text nests too deep: then it is where the remaining input begins.
    pub words: Option<String>,
    /// The text nests too deep for today's rules to say more.
    pub is_deep: bool,
    /// What would fix it, or what it lacks, where that is known.
    pub hint: Option<Hint>,
}

impl Slip {
    /// A slip of which no more is known than where it is, since the text nests too deep, or memory
    /// ran out.
    pub fn at(place: usize, is_deep: bool) -> Slip {
        Slip {
            place,
            words: None,
            is_deep,
            hint: None,
        }
    }
}

/// Where a text is refused by the rules of a dialect, or None where they read it whole. It fails
/// where there is no memory even to find that place.
pub fn slip_in(alloc: Global, text: &str, dialect: Dialect) -> Result<Option<Slip>, AllocError> {
    match dialect {
        Dialect::Weedle2 => slip_by_types(alloc, text),
        Dialect::Today => todays_slip(alloc, text),
    }
}

/// Where a text is refused by the types of weedle2, or None where they read it whole.
fn slip_by_types(alloc: Global, text: &str) -> Result<Option<Slip>, AllocError> {
    match explain(alloc, text) {
        Ok(None) => Ok(None),
        Ok(Some(refusal)) => Ok(Some(explained(alloc, refusal))),
        Err(_) => unexplained(alloc, text),
    }
}

/// Where a text is refused by today's rules, or None where they read it whole.
fn todays_slip(alloc: Global, text: &str) -> Result<Option<Slip>, AllocError> {
    match refusal_in(alloc, text, Dialect::Today) {
        Ok(None) => Ok(None),
        Ok(Some(refusal)) => Ok(Some(explained(alloc, refusal))),
        Err(error) => todays_place(alloc, text, error == DialectError::TooDeep),
    }
}

/// Where today's rules leave a text, with no more said of that, or None where they read it whole.
fn todays_place(alloc: Global, text: &str, is_deep: bool) -> Result<Option<Slip>, AllocError> {
    let mut place = 0;
    if let Some(nodes) = syntax_of_rule(alloc, text, Dialect::Today.start())? {
        if let Some(node) = nodes.first() {
            place = node.end;
        }
    }
    if place == text.len() {
        return Ok(None);
    }
    Ok(Some(Slip::at(place, is_deep)))
}

/// What is said of a refusal.
pub fn explained(alloc: Global, refusal: Refusal) -> Slip {
    match format!(in alloc; "{refusal}") {
        Ok(words) => Slip {
            place: refusal.place,
            words: Some(words),
            is_deep: false,
            hint: refusal.hint,
        },
        Err(_) => Slip::at(refusal.start, false),
    }
}

/// What can be said of a text with no memory for a table of its remaining input.
fn unexplained(alloc: Global, text: &str) -> Result<Option<Slip>, AllocError> {
    match parse_quick(alloc, text) {
        Ok(_) => Ok(None),
        Err(Err::Error(left)) => {
            let place = text.len().saturating_sub(left.input.len());
            Ok(Some(Slip::at(place, false)))
        }
        Err(Err::Failure(_)) => Err(AllocError),
    }
}

/// Writes where the text of this name is refused and why, below it the line of the text with a
/// mark, and below that the hint. It fails where a write does.
pub fn write_slip<W: Write>(name: &str, text: &str, slip: &Slip, out: &mut W) -> io::Result<()> {
    let said = match &slip.words {
        Some(words) => words.as_str(),
        None if slip.is_deep => "unread from here on; it nests too deep for more",
        None => "unread from here on; memory ran out for more",
    };
    write!(out, "{name}:")?;
    write_message(text, slip.place, said, out)?;
    if let Some(hint) = &slip.hint {
        write_hint(text, hint, out)?;
    }
    Ok(())
}
