//! The work on a text.

use crate::arguments::Task;
use crate::partly::lay_out_partly;
use crate::replace::replace;
use crate::slip::{slip_in, write_slip};
use crate::trivia::is_trivia;
use std::alloc::{AllocError, Global};
use std::io::Write;
use std::rt::Runtime;
use weedle_formatter::{Formatted, format, format_in};
use weedle_program::{Fault, Outcome, write_todays};
use weedle_syntax::Dialect;

/// What the work on a text came to.
#[derive(Clone, Copy)]
pub struct Done {
    /// How it ended.
    pub outcome: Outcome,
    /// The file changed, or would.
    pub changes: bool,
}

/// What is to be done with each text.
#[derive(Clone, Copy)]
pub struct Wish {
    /// What is done with what was formatted.
    pub task: Task,
    /// What is read of a text that is refused is formatted, too.
    pub is_partial: bool,
    /// Whose rules it is read by.
    pub dialect: Dialect,
}

/// Formats a text, and does with it what is asked for. A text of whitespace and comments alone is
/// formatted as it is. What is said of a text that isn't read whole is written to `said`, all else
/// to `out`. It fails where memory is refused, and where the file can't be replaced or an output
/// can't be written.
pub fn work_on<R: Runtime + AllocGlobal, W: Write, S: Write>(
    rt: &R,
    wish: Wish,
    name: &str,
    text: &str,
    out: &mut W,
    said: &mut S,
) -> Result<Done, Fault> {
    let task = wish.task;
    if is_trivia(text) {
        let outcome = hand_out(rt, task, name, text.as_bytes(), false, out)?;
        return Ok(Done {
            outcome,
            changes: false,
        });
    }
    let Some(answer) = formatted(rt.alloc(), text, wish.dialect)? else {
        return refuse(rt, wish, name, text, out, said);
    };
    let changes = answer.text.as_str() != text;
    let outcome = hand_out(rt, task, name, answer.text.as_bytes(), changes, out)?;
    if answer.is_laid_out {
        return Ok(Done { outcome, changes });
    }
    writeln!(
        said,
        "{name}: left as it is, since its layout would say something else or be too long"
    )?;
    Ok(Done {
        outcome: Outcome::Different,
        changes,
    })
}

/// The text formatted by the rules of a dialect, where they read it whole.
pub fn formatted(
    alloc: Global,
    text: &str,
    dialect: Dialect,
) -> Result<Option<Formatted>, AllocError> {
    match dialect {
        Dialect::Weedle2 => format(alloc, text),
        Dialect::Today => format_in(alloc, text, dialect),
    }
}

/// Says why a text is refused. What is read of it is formatted before, where that is asked for.
fn refuse<R: Runtime + AllocGlobal, W: Write, S: Write>(
    rt: &R,
    wish: Wish,
    name: &str,
    text: &str,
    out: &mut W,
    said: &mut S,
) -> Result<Done, Fault> {
    let mut changes = false;
    if wish.is_partial {
        let laid_out = lay_out_partly(rt.alloc(), text, wish.dialect)?;
        changes = laid_out.as_slice() != text.as_bytes();
        hand_out(rt, wish.task, name, &laid_out, changes, out)?;
    }
    write_refusal(rt.alloc(), wish.dialect, name, text, said)?;
    Ok(Done {
        outcome: Outcome::Refused,
        changes,
    })
}

/// Does with what was formatted what is asked for.
fn hand_out<R: Runtime + AllocGlobal, W: Write>(
    rt: &R,
    task: Task,
    name: &str,
    text: &[u8],
    changes: bool,
    out: &mut W,
) -> Result<Outcome, Fault> {
    match task {
        Task::Print => out.write_all(text)?,
        Task::Check if changes => {
            writeln!(out, "{name}")?;
            return Ok(Outcome::Different);
        }
        Task::Write if changes => {
            replace(rt, name, text)?;
            writeln!(out, "{name}")?;
        }
        Task::Check | Task::Write => {}
    }
    Ok(Outcome::Success)
}

/// Writes where a text is refused and why, and whether today's rules read what weedle2's refuse.
fn write_refusal<W: Write>(
    alloc: Global,
    dialect: Dialect,
    name: &str,
    text: &str,
    out: &mut W,
) -> Result<(), Fault> {
    let slip = slip_in(alloc, text, dialect)?;
    write_slip(name, text, &slip, out)?;
    Ok(write_todays(alloc, dialect, text, out)?)
}
