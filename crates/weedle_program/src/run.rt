//! The end of a run, and what is said on standard error.

use crate::fault::Fault;
use crate::outcome::Outcome;
use std::fmt::Display;

/// What a run comes to. Where it ends in a fault, a line on standard error says why.
pub fn ended(rt: &impl Eprint, run: Result<Outcome, Fault>) -> Outcome {
    match run {
        Ok(outcome) => outcome,
        Err(fault) => {
            let outcome = fault.outcome();
            complain(rt, fault);
            outcome
        }
    }
}

/// What the work on the file of this name comes to that ended in a fault. A line on standard error
/// says why, and the other files are worked on all the same: only where the output can't be written
/// the fault is returned, and the run ends with it.
pub fn failed(rt: &impl Eprint, name: &str, fault: Fault) -> Result<Outcome, Fault> {
    let outcome = fault.outcome();
    if let Fault::Output = fault {
        return Err(fault);
    }
    let _ = eprintln!(rt; "{name}: {fault}");
    Ok(outcome)
}

/// Prints a line on standard error. A fault there changes nothing.
fn complain<D: Display + Drop>(rt: &impl Eprint, line: D) {
    let _ = rt.eprintln(line);
}
