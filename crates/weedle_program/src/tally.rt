//! How many files there were.

use crate::outcome::Outcome;

/// How many files there were of each kind, and what all comes to.
#[derive(Clone, Copy, Debug, PartialEq, Eq)]
pub struct Tally {
    /// How many files were read.
    pub read: usize,
    /// How many of these the grammar doesn't read whole.
    pub refused: usize,
    /// How many others there were, on which there was a fault.
    pub failed: usize,
    /// What the worst of all files came to.
    pub outcome: Outcome,
}

impl Tally {
    /// The tally of no file.
    pub fn new() -> Tally {
        Tally {
            read: 0,
            refused: 0,
            failed: 0,
            outcome: Outcome::Success,
        }
    }

    /// Counts one more file. One on which there was a fault counts by itself.
    pub fn count(&mut self, outcome: Outcome) {
        let one_more = match outcome {
            Outcome::Success | Outcome::Different | Outcome::Refused => &mut self.read,
            _ => &mut self.failed,
        };
        *one_more = one_more.saturating_add(1);
        if outcome == Outcome::Refused {
            self.refused = self.refused.saturating_add(1);
        }
        self.outcome = self.outcome.or_worse(outcome);
    }

    /// The word for the files that were read: `file` where it was one, else `files`.
    pub fn noun(&self) -> &'static str {
        if self.read == 1 { "file" } else { "files" }
    }
}
