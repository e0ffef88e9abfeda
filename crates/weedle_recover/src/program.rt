//! A run of the program.

use std::alloc::Global;
use std::io::{self, BufWriter, Write};
use std::rt::Runtime;
use weedle_program::{Fault, Outcome, Request, ended, text_of, write_todays};
use weedle_recovery::{Part, Recovered, recover, recover_in};
use weedle_refusal::DialectError;
use weedle_syntax::Dialect;

/// What is said on standard error where the arguments ask for nothing that the program does.
const USAGE: &str = "usage: weedle_recover [--today]";

/// Does what the arguments ask for, and says what it came to. What went wrong it says in a line on
/// standard error.
pub fn run<R: Runtime + AllocGlobal>(rt: &R) -> Outcome {
    ended(rt, answer(rt))
}

/// Reads the text, and writes its parts.
fn answer<R: Runtime + AllocGlobal>(rt: &R) -> Result<Outcome, Fault> {
    let request = Request::new(rt, USAGE)?;
    if request.is_help || request.option.is_some() || !request.files.is_empty() {
        return Err(Fault::Usage(USAGE));
    }
    let text = text_of(rt.alloc(), Ok(rt.reader()))?;
    let mut out = BufWriter::new(rt.alloc(), io::writer(rt))?;
    write_parts(rt.alloc(), request.dialect(), text.as_str(), &mut out)?;
    out.flush()?;
    Ok(Outcome::Success)
}

/// Writes the parts of a text, how many nodes they have, and whether today's rules read what
/// weedle2's don't.
fn write_parts<W: Write>(
    alloc: Global,
    dialect: Dialect,
    text: &str,
    out: &mut W,
) -> Result<(), Fault> {
    let found = divided(alloc, dialect, text)?;
    let mut is_whole = true;
    for part in &found.parts {
        write_part(part, out)?;
        is_whole = is_whole && part.is_read;
    }
    writeln!(out, "{} nodes", found.nodes.len())?;
    if !is_whole {
        write_todays(alloc, dialect, text, out)?;
    }
    Ok(())
}

/// The parts of a text by the rules of a dialect.
fn divided(alloc: Global, dialect: Dialect, text: &str) -> Result<Recovered, Fault> {
    match dialect {
        Dialect::Weedle2 => Ok(recover(alloc, text)?),
        Dialect::Today => match recover_in(alloc, text, dialect) {
            Ok(found) => Ok(found),
            Err(DialectError::Memory) => Err(Fault::Memory),
            Err(DialectError::TooDeep) => Err(Fault::TooDeep),
        },
    }
}

/// Writes the line of a part.
fn write_part<W: Write>(part: &Part, out: &mut W) -> io::Result<()> {
    let word = if part.is_read { "read" } else { "unread" };
    let name = part.rule.name();
    writeln!(
        out,
        "{word} {name} {} {} {}",
        part.start, part.end, part.definition
    )
}
