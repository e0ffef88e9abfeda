//! What fails furthest on, while a text is read by descent.
//!
//! A rule that can't begin with the byte there is marked as a whole, in place of what it tries:
//! which rules without parts fail in it is looked for at the end, at one place alone.

ghost use Rattle.std.specs.Prelude.{◌≡◌, ◌<◌, ◌↔◌, ℕ, IsTrue, IfOk, MatchOption};
ghost use Rattle.std.specs.List.{Contains};
ghost use Rattle.weedle_grammar.specs.written.Bound.{rule_count};
ghost use Rattle.weedle_refusal.specs.Diagnosis.{IsRising};
ghost use Rattle.weedle_refusal.specs.Marks.{IsSet};
ghost use Rattle.weedle_refusal.specs.Noted.{IsNoted};

use crate::diagnose::marks::{is_set, set};
use std::alloc::{AllocError, Global};
use weedle_grammar::{RULES, Rule, rule_of};

/// How many words have a bit for each rule.
const WORDS: usize = 9;

/// The furthest place where something failed so far, and rules that failed there, a bit for each,
/// in which all is that failed there.
#[derive(Drop)]
pub(crate) struct Furthest {
    pub(crate) place: usize,
    marks: [u64; WORDS],
    /// Whether rules without parts alone are to be marked.
    pub(crate) leaves: bool,
}

impl Furthest {
    /// Nothing failed yet.
    pub(crate) fn new(start: usize, leaves: bool) -> Furthest
        ensures place { result.place ≡ start }
        ensures leaves { result.leaves ≡ leaves }
        ensures none { (x : ℕ) → IsSet result.marks x → ⊥ }
    {
        Furthest {
            place: start,
            marks: [0; WORDS],
            leaves,
        }
    }

    /// Notes that the rule fails at the place, and forgets what failed before it.
    pub(crate) fn note(&mut self, rule: Rule, place: usize)
        ensures { IsNoted rule place self.old self.new }
    {
        if place < self.place {
            return;
        }
        if place > self.place {
            self.place = place;
            self.marks = [0; WORDS];
        }
        set(&mut self.marks, rule.number() as usize);
    }

    /// Notes the rule at the place unless it ends somewhere, which is handed on.
    #[inline(always)]
    pub(crate) fn unless(&mut self, end: Option<usize>, rule: Rule, place: usize) -> Option<usize>
        ensures same { result ≡ end }
        ensures notes { MatchOption end (IsNoted rule place self.old self.new)
            (λ e. self.new ≡ self.old) }
    {
        match end {
            Some(_) => {}
            None => self.note(rule, place),
        }
        end
    }

    /// Whether the rule is marked.
    pub(crate) fn has(&self, rule: Rule) -> bool
        ensures { IsTrue result ↔ IsSet self.now.marks rule }
    {
        is_set(&self.marks, rule.number() as usize)
    }

    /// The rules that are marked at the furthest place.
    pub(crate) fn rules(&self, alloc: Global) -> Result<Vec<Rule>, AllocError>
        ensures exact { IfOk result
            (λ found. (r : ℕ) → Contains found.items r
            ↔ ((r < rule_count) × IsSet self.now.marks r)) }
        ensures rising { IfOk result (λ found. IsRising found.items) }
    {
        let mut found = Vec::new(alloc);
        for number in 0..RULES {
            if is_set(&self.marks, number) {
                found.push(rule_of(number as u16))?;
            }
        }
        Ok(found)
    }
}
