//! How many files there were, and how many errors.

use crate::check::Checked;
use std::io::{self, Write};
use weedle_program::{Outcome, Tally};

/// How many files there were, and how many errors they have.
#[derive(Clone, Copy)]
pub struct Counts {
    /// How many files there were of each kind, and what all comes to.
    pub tally: Tally,
    /// How many errors those have that were read.
    errors: usize,
}

impl Counts {
    /// The counts of no file.
    pub fn new() -> Counts {
        Counts {
            tally: Tally::new(),
            errors: 0,
        }
    }

    /// Counts one more file that was read.
    pub fn count(&mut self, checked: Checked) {
        self.errors = self.errors.saturating_add(checked.errors);
        self.tally.count(checked.outcome);
    }

    /// Counts one more file on which there was a fault.
    pub fn count_fault(&mut self, outcome: Outcome) {
        self.tally.count(outcome);
    }

    /// Writes how many files there were, as `3 files, 1 refused`; where those have more errors than
    /// one each, `3 files, 1 refused, 4 errors`; and where some couldn't be read, `1 file, 0
    /// refused, 2 not read`.
    pub fn write<W: Write>(&self, out: &mut W) -> io::Result<()> {
        let tally = self.tally;
        write!(
            out,
            "{} {}, {} refused",
            tally.read,
            tally.noun(),
            tally.refused
        )?;
        if self.errors > tally.refused {
            write!(out, ", {} errors", self.errors)?;
        }
        if tally.failed > 0 {
            write!(out, ", {} not read", tally.failed)?;
        }
        writeln!(out)
    }
}
