//! The check of a text, and what is printed of it.

use crate::arguments::Task;
use crate::depth::too_many_levels;
use crate::errors::write_others;
use crate::print::write_idl;
use crate::slip::{slip_in, write_slip};
use crate::syntax::write_syntax;
use crate::timing::write_times;
use crate::tree::{write_tree, write_tree_over_table};
use std::alloc::Global;
use std::io::Write;
use std::rt::Clock;
use weedle_nesting::suits_descent;
use weedle_program::{Fault, Outcome, write_todays};
use weedle_syntax::Dialect;

/// What the check of a text came to.
#[derive(Clone, Copy)]
pub struct Checked {
    /// How it ended.
    pub outcome: Outcome,
    /// How many syntax errors the text has.
    pub errors: usize,
}

/// What is to be done with each text.
#[derive(Clone, Copy)]
pub struct Wish {
    /// What is printed of it.
    pub task: Task,
    /// How many of its errors are reported.
    pub most_errors: usize,
    /// Whose rules it is read by.
    pub dialect: Dialect,
}

/// Checks a text, and prints what is asked for. For a text that isn't read whole it writes each
/// error, where and why: that is an answer. It fails where memory is refused, and where the output
/// can't be written.
pub fn check_text<C: Clock + AllocGlobal, W: Write>(
    rt: &C,
    wish: Wish,
    name: &str,
    text: &str,
    out: &mut W,
) -> Result<Checked, Fault> {
    let task = wish.task;
    if let Some(levels) = too_many_levels(wish, text) {
        writeln!(
            out,
            "{name}: nests {levels} levels deep, more than the stack holds"
        )?;
        return Ok(refused(1));
    }
    if is_written_at_once(rt.alloc(), wish, text, out)? {
        return Ok(READ);
    }
    let checked = judge(rt.alloc(), wish, name, text, out)?;
    if checked.outcome == Outcome::Success {
        match task {
            Task::Tree => write_tree(rt.alloc(), text, out)?,
            Task::Print => write_idl(rt.alloc(), text, out)?,
            Task::Time => write_times(rt, name, text, out)?,
            Task::Check | Task::Syntax => {}
        }
    }
    Ok(checked)
}

/// What the check of a text came to that is read whole.
const READ: Checked = Checked {
    outcome: Outcome::Success,
    errors: 0,
};

/// What the check of a text came to that has so many errors.
fn refused(errors: usize) -> Checked {
    Checked {
        outcome: Outcome::Refused,
        errors,
    }
}

/// Writes what is asked for of a text that is read whole, where it takes no check before, and says
/// whether it did.
fn is_written_at_once<W: Write>(
    alloc: Global,
    wish: Wish,
    text: &str,
    out: &mut W,
) -> Result<bool, Fault> {
    match wish.task {
        Task::Syntax => write_syntax(alloc, wish.dialect, text, out),
        Task::Tree if !suits_descent(text) => write_tree_over_table(alloc, text, out),
        _ => Ok(false),
    }
}

/// Whether a text is read whole. Where it isn't, it writes as many of its errors as are wished,
/// where and why, and whether today's rules read what weedle2's refuse.
fn judge<W: Write>(
    alloc: Global,
    wish: Wish,
    name: &str,
    text: &str,
    out: &mut W,
) -> Result<Checked, Fault> {
    match slip_in(alloc, text, wish.dialect)? {
        None => Ok(READ),
        Some(slip) => {
            write_slip(name, text, &slip, out)?;
            let errors = write_others(alloc, wish, name, text, out)?;
            write_todays(alloc, wish.dialect, text, out)?;
            Ok(refused(errors))
        }
    }
}
