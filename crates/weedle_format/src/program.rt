//! A run of the program.

use crate::arguments::{HELP, PARTIAL, Task, USAGE, task_of};
use crate::changes::Changes;
use crate::work::{Done, Wish, work_on};
use std::io::{self, BufWriter, Write};
use std::rt::Runtime;
use weedle_program::{Beside, Fault, Outcome, Request, ended, failed, name_of, text_in};

/// Does what the arguments ask for, and says what it came to.
///
/// A file that can't be formatted gets a line on standard error, and the others are done all the
/// same. Only where the output can't be written the run ends at once.
pub fn run<R: Runtime + AllocGlobal>(rt: &R) -> Outcome {
    ended(rt, carry_out(rt))
}

/// Does what the arguments ask for, and says what it came to.
fn carry_out<R: Runtime + AllocGlobal>(rt: &R) -> Result<Outcome, Fault> {
    let request = Request::with(rt, USAGE, Beside::Flag(PARTIAL))?;
    let Some(task) = task_of(&request) else {
        return Err(Fault::Usage(USAGE));
    };
    let wish = Wish {
        task,
        is_partial: request.has_flag,
        dialect: request.dialect(),
    };
    let mut out = BufWriter::new(rt.alloc(), io::writer(rt))?;
    let mut changes = Changes::new();
    if request.is_help {
        writeln!(out, "{HELP}")?;
    } else {
        lay_out_all(rt, wish, &request.files, &mut changes, &mut out)?;
        changes.write(task, &mut out)?;
    }
    out.flush()?;
    Ok(changes.tally.outcome)
}

/// Formats these files, or the standard input where there are none.
fn lay_out_all<R: Runtime + AllocGlobal, W: Write>(
    rt: &R,
    wish: Wish,
    files: &[String],
    changes: &mut Changes,
    out: &mut W,
) -> Result<(), Fault> {
    if files.is_empty() {
        changes.count(lay_out(rt, wish, "-", out)?);
    }
    for file in files {
        changes.count(lay_out(rt, wish, file.as_str(), out)?);
    }
    Ok(())
}

/// Formats a file, and says on standard error why it isn't. It fails where the output can't be
/// written.
fn lay_out<R: Runtime + AllocGlobal, W: Write>(
    rt: &R,
    wish: Wish,
    file: &str,
    out: &mut W,
) -> Result<Done, Fault> {
    match do_task(rt, wish, file, out) {
        Ok(done) => Ok(done),
        Err(fault) => Ok(Done {
            outcome: failed(rt, name_of(file), fault)?,
            changes: false,
        }),
    }
}

/// Reads a file to its end, formats it and does what is asked for.
fn do_task<R: Runtime + AllocGlobal, W: Write>(
    rt: &R,
    wish: Wish,
    file: &str,
    out: &mut W,
) -> Result<Done, Fault> {
    let text = text_in(rt, file)?;
    let mut said = Vec::new(rt.alloc());
    let done = work_on(rt, wish, name_of(file), text.as_str(), out, &mut said)?;
    say(rt, wish.task, &said, out)?;
    Ok(done)
}

/// Says of a text that isn't read whole what there is to say: beside what was formatted, where that
/// is printed.
fn say<W: Write>(rt: &impl Eprint, task: Task, said: &[u8], out: &mut W) -> io::Result<()> {
    if task != Task::Print {
        return out.write_all(said);
    }
    if let Ok(lines) = str::from_utf8(said) {
        let _ = eprint!(rt; "{lines}");
    }
    Ok(())
}
