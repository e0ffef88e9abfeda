//! The errors of a text behind its first.

use crate::check::Wish;
use crate::slip::{Slip, explained, write_slip};
use std::alloc::Global;
use std::io::{self, Write};
use weedle_recovery::{Part, Recovered, recover, recover_in, refusal_of_part, refusal_of_part_in};
use weedle_refusal::{DialectError, Refusal};
use weedle_syntax::Dialect;

/// Writes why each unread part of a text is so except for the first, of which that is said, and how
/// many more there are than are wished. It says how many errors there are with the first.
///
/// With 1 it looks for no others, and where memory runs out for them, or today's rules find that
/// the text nests too deep, it finds none. It fails where a write does.
pub fn write_others<W: Write>(
    alloc: Global,
    wish: Wish,
    name: &str,
    text: &str,
    out: &mut W,
) -> io::Result<usize> {
    let most = wish.most_errors;
    if most <= 1 {
        return Ok(1);
    }
    let Ok(found) = divided(alloc, wish.dialect, text) else {
        return Ok(1);
    };
    let mut count: usize = 0;
    for part in &found.parts {
        if !part.is_read {
            if count > 0 && count < most {
                write_slip(name, text, &slip_at(alloc, wish.dialect, text, part), out)?;
            }
            count = count.saturating_add(1);
        }
    }
    write_left(name, count.saturating_sub(most), out)?;
    Ok(count.max(1))
}

/// The parts of a text by the rules of a dialect.
fn divided(alloc: Global, dialect: Dialect, text: &str) -> Result<Recovered, DialectError> {
    match dialect {
        Dialect::Weedle2 => Ok(recover(alloc, text)?),
        Dialect::Today => recover_in(alloc, text, dialect),
    }
}

/// Why a part is unread; where memory runs out for that, or the part nests too deep for today's
/// rules, no more than where it begins.
fn slip_at(alloc: Global, dialect: Dialect, text: &str, part: &Part) -> Slip {
    match refusal_at(alloc, dialect, text, part) {
        Ok(Some(refusal)) => explained(alloc, refusal),
        Err(DialectError::TooDeep) => Slip::at(part.start, true),
        _ => Slip::at(part.start, false),
    }
}

/// Why a part is unread by the rules of a dialect.
fn refusal_at(
    alloc: Global,
    dialect: Dialect,
    text: &str,
    part: &Part,
) -> Result<Option<Refusal>, DialectError> {
    match dialect {
        Dialect::Weedle2 => Ok(refusal_of_part(alloc, text, part)?),
        Dialect::Today => refusal_of_part_in(alloc, text, part, dialect),
    }
}

/// Writes how many more errors there are, if any.
fn write_left<W: Write>(name: &str, left: usize, out: &mut W) -> io::Result<()> {
    match left {
        0 => Ok(()),
        1 => writeln!(out, "{name}: 1 more error"),
        _ => writeln!(out, "{name}: {left} more errors"),
    }
}
