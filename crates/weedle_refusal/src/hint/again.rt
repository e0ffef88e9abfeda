//! A definition that is read again with a change.

ghost use Rattle.std.specs.Prelude.{IfOk, IsTrue, length};
ghost use Rattle.weedle_refusal.specs.Hint.{LeavesLess};
ghost use Rattle.weedle_rules.specs.Outcomes.{EndsAt};
ghost use Rattle.weedle_syntax.specs.Dialects.{IsWholeIn};

use crate::diagnose::diagnose_within_in;
use crate::hint::unread::Unread;
use std::alloc::{AllocError, Global};
use weedle_grammar::Rule;
use weedle_starts::source::Source;
use weedle_syntax::{Dialect, Limits, lay_by_descent};

/// How many rules are tried for each byte of a definition, with all its changes together. For what
/// people write a reading takes two a byte, and with most changes it stops near the syntax error.
const STEPS_A_BYTE: usize = 16;

/// How many more are tried, so that a short definition may have long extended attributes.
const MORE_STEPS: usize = 100_000;

/// How many nodes deep a definition is read again, for which 150 kB of stack are enough.
const DEPTH: usize = 320;

/// How many rules are tried in one another where it is looked for the furthest place, for which 150
/// kB are enough.
const DEPTH_OF_PLACE: usize = 360;

/// What the changes of a definition are tried with.
#[derive(Drop)]
pub(crate) struct Trials {
    /// Where memory is asked for.
    pub(crate) alloc: Global,
    /// How many rules may still be tried, with all changes together.
    left: usize,
}

impl Trials {
    /// The trials of a definition.
    pub(crate) fn of(alloc: Global, unread: &Unread<'_>) -> Trials {
        let left = unread
            .longest()
            .saturating_mul(STEPS_A_BYTE)
            .saturating_add(MORE_STEPS);
        Trials { alloc, left }
    }

    /// Whether a text is read whole by the rules of a dialect. No where descent gives up.
    pub(crate) fn is_whole(&mut self, text: &str, dialect: Dialect) -> Result<bool, AllocError>
        ensures { IfOk result (λ whole. IsTrue whole → IsWholeIn dialect text.now) }
    {
        let whole = self.reads_all(text, dialect.start())?;
        Ok(whole)
    }

    /// Whether a rule reads all of a text. No where descent gives up.
    fn reads_all(&mut self, text: &str, rule: Rule) -> Result<bool, AllocError>
        ensures { IfOk result (λ all. IsTrue all → EndsAt text.now rule 0 (length text.now)) }
    {
        let source = Source::new(text.as_bytes());
        let mut limits = Limits {
            steps: self.left,
            depth: DEPTH,
        };
        let mut nodes = Vec::new(self.alloc);
        let found = lay_by_descent(&mut nodes, &source, rule, 0, &mut limits);
        self.left = limits.steps;
        match found {
            Ok(end) => Ok(end == Some(text.len())),
            Err(error) => {
                if limits.are_spent() {
                    return Ok(false);
                }
                Err(error)
            }
        }
    }

    /// Whether the furthest place of a text leaves fewer bytes behind it than so many, by the rules
    /// of a dialect. No where descent gives up.
    pub(crate) fn leaves_less(
        &mut self,
        text: &str,
        left: usize,
        dialect: Dialect,
    ) -> Result<bool, AllocError>
        ensures { IfOk result (λ less. IsTrue less → LeavesLess dialect text.now left) }
    {
        let mut limits = Limits {
            steps: self.left,
            depth: DEPTH_OF_PLACE,
        };
        let found = diagnose_within_in(self.alloc, text, 0, &mut limits, dialect)?;
        self.left = limits.steps;
        match found {
            Some(diagnosis) => Ok(text.len().saturating_sub(diagnosis.place) < left),
            None => Ok(false),
        }
    }
}
