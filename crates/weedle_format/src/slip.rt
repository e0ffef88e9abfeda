//! What is said of a text that isn't read whole.

use std::alloc::{AllocError, Global};
use std::io::{self, Write};
use weedle_refusal::{
    DialectError, Hint, Refusal, refusal_in, refusal_of, rest_of, write_hint, write_message,
};
use weedle_syntax::{Dialect, Node, syntax_of_front, syntax_of_rule};

/// Where a text is refused.
#[derive(Debug, Drop)]
pub struct Slip {
    /// The byte of the text at which it is.
    pub place: usize,
    /// What would have been read there, or None where there is no memory for more than the place,
    /// or the text nests too deep: then it is where the remaining input begins.
    pub words: Option<String>,
    /// The text nests too deep for today's rules to say more.
    pub is_deep: bool,
    /// What would fix it, or what it lacks, where that is known.
    pub hint: Option<Hint>,
}

/// Where a text is refused that isn't read whole by the rules of a dialect. It fails where there is
/// no memory even to find that place.
pub fn slip_in(alloc: Global, text: &str, dialect: Dialect) -> Result<Slip, AllocError> {
    let mut is_deep = false;
    match explained(alloc, text, dialect) {
        Ok(Some(refusal)) => {
            if let Ok(words) = format!(in alloc; "{refusal}") {
                return Ok(Slip {
                    place: refusal.place,
                    words: Some(words),
                    is_deep,
                    hint: refusal.hint,
                });
            }
        }
        Err(DialectError::TooDeep) => is_deep = true,
        _ => {}
    }
    Ok(Slip {
        place: left_in(alloc, text, dialect)?,
        words: None,
        is_deep,
        hint: None,
    })
}

/// Why a text is refused by the rules of a dialect.
fn explained(alloc: Global, text: &str, dialect: Dialect) -> Result<Option<Refusal>, DialectError> {
    match dialect {
        Dialect::Weedle2 => Ok(refusal_of(alloc, text)?),
        Dialect::Today => refusal_in(alloc, text, dialect),
    }
}

/// Where the remaining input begins by the rules of a dialect.
fn left_in(alloc: Global, text: &str, dialect: Dialect) -> Result<usize, AllocError> {
    match dialect {
        Dialect::Weedle2 => {
            let nodes = syntax_of_front(alloc, text)?;
            Ok(rest_of(&nodes))
        }
        Dialect::Today => match syntax_of_rule(alloc, text, dialect.start())? {
            Some(nodes) => Ok(end_of(&nodes)),
            None => Ok(0),
        },
    }
}

/// Where the first of these nodes ends.
fn end_of(nodes: &[Node]) -> usize {
    match nodes.first() {
        Some(node) => node.end,
        None => 0,
    }
}

/// Writes where the text of this name is refused and why, below it the line of the text with a
/// mark, and below that the hint. It fails where a write does.
pub fn write_slip<W: Write>(name: &str, text: &str, slip: &Slip, out: &mut W) -> io::Result<()> {
    let said = match &slip.words {
        Some(words) => words.as_str(),
        None if slip.is_deep => "unread from here on; it nests too deep for more",
        None => "unread from here on; memory ran out for more",
    };
    write!(out, "{name}:")?;
    write_message(text, slip.place, said, out)?;
    if let Some(hint) = &slip.hint {
        write_hint(text, hint, out)?;
    }
    Ok(())
}
