//! A run of the program.

use crate::arguments::{ERRORS, HELP, Task, USAGE, most_errors, task_of};
use crate::check::{Checked, Wish, check_text};
use crate::counts::Counts;
use std::io::{self, BufWriter, Write};
use std::rt::Runtime;
use weedle_program::{Beside, Fault, Outcome, Request, ended, failed, name_of, text_in};

/// Does what the arguments ask for, and says what it came to.
///
/// A file that can't be checked gets a line on standard error, and the others are checked all the
/// same. Only where the output can't be written the run ends at once.
pub fn run<R: Runtime + AllocGlobal>(rt: &R) -> Outcome {
    ended(rt, carry_out(rt))
}

/// Does what the arguments ask for, and says what it came to.
fn carry_out<R: Runtime + AllocGlobal>(rt: &R) -> Result<Outcome, Fault> {
    let request = Request::with(rt, USAGE, Beside::Number(ERRORS))?;
    let Some(task) = task_of(&request) else {
        return Err(Fault::Usage(USAGE));
    };
    let wish = Wish {
        task,
        most_errors: most_errors(&request),
        dialect: request.dialect(),
    };
    let mut out = BufWriter::new(rt.alloc(), io::writer(rt))?;
    let mut counts = Counts::new();
    if request.is_help {
        writeln!(out, "{HELP}")?;
    } else {
        check_all(rt, wish, &request.files, &mut counts, &mut out)?;
        if task != Task::Print {
            counts.write(&mut out)?;
        }
    }
    out.flush()?;
    Ok(counts.tally.outcome)
}

/// Checks these files, or the standard input where there are none.
fn check_all<R: Runtime + AllocGlobal, W: Write>(
    rt: &R,
    wish: Wish,
    files: &[String],
    counts: &mut Counts,
    out: &mut W,
) -> Result<(), Fault> {
    if files.is_empty() {
        check_file(rt, wish, "-", counts, out)?;
    }
    for file in files {
        check_file(rt, wish, file.as_str(), counts, out)?;
    }
    Ok(())
}

/// Checks a file, counts it, and says on standard error why there is no answer. It fails where the
/// output can't be written.
fn check_file<R: Runtime + AllocGlobal, W: Write>(
    rt: &R,
    wish: Wish,
    file: &str,
    counts: &mut Counts,
    out: &mut W,
) -> Result<(), Fault> {
    match read_and_check(rt, wish, file, out) {
        Ok(checked) => counts.count(checked),
        Err(fault) => counts.count_fault(failed(rt, name_of(file), fault)?),
    }
    Ok(())
}

/// Reads a file to its end, checks its text and prints what is asked for.
fn read_and_check<R: Runtime + AllocGlobal, W: Write>(
    rt: &R,
    wish: Wish,
    file: &str,
    out: &mut W,
) -> Result<Checked, Fault> {
    let text = text_in(rt, file)?;
    check_text(rt, wish, name_of(file), text.as_str(), out)
}
