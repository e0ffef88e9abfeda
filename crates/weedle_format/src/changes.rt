//! How many files there were, and how many of them changed.

use crate::arguments::Task;
use crate::work::Done;
use std::io::{self, Write};
use weedle_program::Tally;

/// How many files there were, and how many of them changed, or would.
#[derive(Clone, Copy)]
pub struct Changes {
    /// How many files there were of each kind, and what all comes to.
    pub tally: Tally,
    /// How many of those that were read changed, or would.
    changed: usize,
}

impl Changes {
    /// The changes of no file.
    pub fn new() -> Changes {
        Changes {
            tally: Tally::new(),
            changed: 0,
        }
    }

    /// Counts one more file.
    pub fn count(&mut self, done: Done) {
        if done.changes {
            self.changed = self.changed.saturating_add(1);
        }
        self.tally.count(done.outcome);
    }

    /// Writes how many files there were, where that was asked for: with `--check` as
    /// `3 files, 1 to be laid out, 0 refused`.
    pub fn write<W: Write>(&self, task: Task, out: &mut W) -> io::Result<()> {
        let did = match task {
            Task::Print => return Ok(()),
            Task::Check => "to be laid out",
            Task::Write => "laid out",
        };
        let (tally, noun) = (self.tally, self.tally.noun());
        let changed = self.changed;
        write!(
            out,
            "{} {noun}, {changed} {did}, {} refused",
            tally.read, tally.refused
        )?;
        if tally.failed > 0 {
            write!(out, ", {} failed", tally.failed)?;
        }
        writeln!(out)
    }
}
