//! The layout of a text that isn't read whole.

use crate::work::formatted;
use std::alloc::{AllocError, Global};
use weedle_grammar::Rule;
use weedle_program::Fault;
use weedle_recovery::{Part, Recovered, recover, recover_in};
use weedle_refusal::DialectError;
use weedle_syntax::Dialect;

/// A text in which the definitions that are read are formatted, those one behind another together.
///
/// All else stays byte for byte, and so does the whitespace between that and a definition: from
/// `A   includes B ;  typedef ;` it makes `A includes B;  typedef ;`. It takes the memory of
/// [`recover`] and of [`formatted`]. It fails where memory is refused, and by today's rules where
/// the text nests too deep.
pub fn lay_out_partly(alloc: Global, text: &str, dialect: Dialect) -> Result<Vec<u8>, Fault> {
    let found = divided(alloc, text, dialect)?;
    let mut laid_out = Vec::new(alloc);
    let mut at = 0;
    for part in &found.parts {
        if !is_definition(part) {
            push_run(alloc, text, dialect, at, part.start, &mut laid_out)?;
            push_bytes(text, part.start, part.end, &mut laid_out)?;
            at = part.end;
        }
    }
    push_run(alloc, text, dialect, at, text.len(), &mut laid_out)?;
    Ok(laid_out)
}

/// The parts of a text by the rules of a dialect.
fn divided(alloc: Global, text: &str, dialect: Dialect) -> Result<Recovered, Fault> {
    match dialect {
        Dialect::Weedle2 => Ok(recover(alloc, text)?),
        Dialect::Today => match recover_in(alloc, text, dialect) {
            Ok(found) => Ok(found),
            Err(DialectError::Memory) => Err(Fault::Memory),
            Err(DialectError::TooDeep) => Err(Fault::TooDeep),
        },
    }
}

/// Whether a part is a whole definition that is read; by today's rules also what follows the last
/// one.
fn is_definition(part: &Part) -> bool {
    let is_todays = part.rule == Rule::TODAY_DEFINITION || part.rule == Rule::TODAY_PIECE;
    part.is_read && (part.rule == Rule::DEFINITION || is_todays)
}

/// Adds the bytes of a text between two places as they are.
fn push_bytes(text: &str, start: usize, end: usize, out: &mut Vec<u8>) -> Result<(), AllocError> {
    let bytes = text.as_bytes().get(start..end).unwrap_or(&[]);
    out.extend_from_slice(bytes)?;
    Ok(())
}

/// Adds the definitions between two places of a text, formatted.
fn push_run(
    alloc: Global,
    text: &str,
    dialect: Dialect,
    start: usize,
    end: usize,
    out: &mut Vec<u8>,
) -> Result<(), AllocError> {
    if start >= end {
        return Ok(());
    }
    match text.get(start..end) {
        Some(run) => {
            let front = if start == 0 { "" } else { blanks_before(run) };
            out.extend_from_slice(front.as_bytes())?;
            push_layout(alloc, run.trim_start(), dialect, end == text.len(), out)
        }
        None => push_bytes(text, start, end, out),
    }
}

/// Adds formatted definitions that begin with no whitespace. Where the text goes on behind them,
/// the whitespace there stays.
fn push_layout(
    alloc: Global,
    run: &str,
    dialect: Dialect,
    is_last: bool,
    out: &mut Vec<u8>,
) -> Result<(), AllocError> {
    let body = if is_last { run } else { run.trim_end() };
    let Some(answer) = formatted(alloc, body, dialect)? else {
        out.extend_from_slice(run.as_bytes())?;
        return Ok(());
    };
    let layout = answer.text.as_str();
    let layout = if is_last { layout } else { layout.trim_end() };
    out.extend_from_slice(layout.as_bytes())?;
    push_bytes(run, body.len(), run.len(), out)
}

/// The whitespace at the front of a text.
fn blanks_before(text: &str) -> &str {
    let count = text.len().saturating_sub(text.trim_start().len());
    text.get(..count).unwrap_or("")
}
