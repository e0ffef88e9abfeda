//! A run of the program.

use crate::arguments::{Task, USAGE, task_of};
use std::fmt::Display;
use std::rt::Runtime;
use std::{env, io};
use weedle_front::{RunFault, Status, run, run_outline};

/// The status where the arguments ask for neither list.
pub const USAGE_STATUS: u8 = 5;

/// Lists what is on standard input, as the arguments ask, and gives the exit status. What went
/// wrong it says in a line on standard error.
pub fn list<R: Runtime + AllocGlobal>(rt: &R) -> u8 {
    let Ok(words) = env::args(rt) else {
        return end(rt, &Err(RunFault::Memory));
    };
    let Some(task) = task_of(words) else {
        complain(rt, USAGE);
        return USAGE_STATUS;
    };
    let (mut reader, mut writer) = (rt.reader(), io::writer(rt));
    let outcome = match task {
        Task::List => run(rt.alloc(), &mut reader, &mut writer),
        Task::Outline => run_outline(rt.alloc(), &mut reader, &mut writer),
    };
    end(rt, &outcome)
}

/// Says on standard error what the fault was, if there was one, and gives the status.
fn end(rt: &impl Eprint, outcome: &Result<Status, RunFault>) -> u8 {
    if let Err(fault) = outcome {
        complain(rt, *fault);
    }
    status_of(outcome)
}

/// Prints a line on standard error. A fault there changes nothing.
fn complain<D: Display + Drop>(rt: &impl Eprint, line: D) {
    let _ = rt.eprintln(line);
}

/// The exit status of a run: 0 where the whole text is read, 1 where a part of it is left, and 2 to
/// 4 where it ended in a fault.
pub fn status_of(outcome: &Result<Status, RunFault>) -> u8 {
    match outcome {
        Ok(Status::Read) => 0,
        Ok(Status::Unread) => 1,
        Err(RunFault::NotUtf8) => 2,
        Err(RunFault::Memory) => 3,
        Err(RunFault::Input | RunFault::Output) => 4,
    }
}
