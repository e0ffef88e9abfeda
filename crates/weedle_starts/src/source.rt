//! A text that is read by descent.

ghost use Rattle.std.specs.Prelude.{◌≡◌, ◌≤◌, ◌<◌, ◌+◌, None, length, drop, option_map};
ghost use Rattle.std.specs.Bool.{OnTrue};
ghost use Rattle.weedle_grammar.specs.Rows.{
  take_bytes as the_take_bytes,
  take_one as the_take_one,
  take_not_next as the_take_not_next,
  run_length as the_run_length,
  take_past as the_take_past,
};
ghost use Rattle.weedle_grammar.specs.written.Bound.{rule_count};
ghost use Rattle.weedle_grammar.specs.written.Table.{row_of as the_row_of};
ghost use Rattle.weedle_rules.specs.Cells.{HasEnd};
ghost use Rattle.weedle_starts.specs.Tries.{TriesHere};
ghost use Rattle.weedle_starts.specs.View.{row_view};
ghost use Rattle.weedle_starts.specs.Ways.{IsAhead};

use crate::ahead::Ahead;
use crate::row::{Row, row_of};
use crate::starts::{first_set, gate};
use std::marker::Model;
use weedle_grammar::{Class, Rule, holds, leaf_ends};

/// A text that is read by descent.
#[derive(Drop)]
pub struct Source<'t> {
    text: &'t [u8],
}

impl<'t> Model for Source<'t> {
    ghost use Rattle.std.specs.Prelude.{ℕ, List};

    ghost Value = { List ℕ };

    ghost view = { λ s. s.text.now };
}

impl<'t> Source<'t> {
    /// A text. Nothing is worked out, and no memory is taken.
    pub fn new(text: &'t [u8]) -> Source<'t>
        ensures { result ≡ text.now }
    {
        Source { text }
    }

    /// How many bytes the text has.
    pub fn len(&self) -> usize
        ensures { result ≡ length self.now }
    {
        self.text.len()
    }

    /// Whether a rule can't be read at a place, by the byte there. It may fail where this says no.
    #[inline(always)]
    pub fn refuses(&self, rule: Rule, place: usize) -> bool
        requires within { place ≤ length self.now }
        ensures end { OnTrue result (HasEnd self.now rule place None) }
        ensures here { OnTrue result (TriesHere self.now rule place) }
    {
        if place >= self.text.len() {
            return false;
        }
        let byte = self.text[place];
        if byte >= 128 {
            return false;
        }
        if (first_set(rule) >> byte) & 1 == 0 {
            return true;
        }
        false
    }

    /// What the byte at a place says of a rule.
    #[inline(always)]
    pub fn ahead(&self, rule: Rule, place: usize) -> Ahead
        requires { place ≤ length self.now }
        ensures { IsAhead self.now rule place result }
    {
        if place >= self.text.len() {
            return Ahead::Open;
        }
        let byte = self.text[place];
        if byte >= 128 {
            return Ahead::Open;
        }
        if (gate(rule) >> byte) & 1 == 1 {
            return Ahead::Open;
        }
        match row_of(rule) {
            Row::Opt(_) => Ahead::Empty,
            Row::Many(_) => Ahead::Empty,
            Row::List(_, _) => Ahead::Empty,
            Row::Tail(_, _) => Ahead::Empty,
            _ => Ahead::Fails,
        }
    }

    /// What the rule reads.
    #[inline(always)]
    pub fn row(&self, rule: Rule) -> Row
        ensures { row_view result ≡ the_row_of rule }
    {
        row_of(rule)
    }

    /// Where these bytes end, which are at a place.
    #[inline(always)]
    pub fn end_of_bytes(&self, bytes: &[u8], place: usize) -> Option<usize>
        requires { place ≤ length self.now }
        ensures { result
            ≡ option_map (λ k. place + k) (the_take_bytes bytes.now (drop place self.now)) }
    {
        leaf_ends::end_of_bytes(bytes, self.text, place)
    }

    /// Where one byte of the class ends, which is at a place.
    #[inline(always)]
    pub fn end_of_one(&self, class: Class, place: usize) -> Option<usize>
        requires { place ≤ length self.now }
        ensures { result
            ≡ option_map (λ k. place + k) (the_take_one class (drop place self.now)) }
    {
        leaf_ends::end_of_one(class, self.text, place)
    }

    /// The place itself, where no byte of the class is there.
    #[inline(always)]
    pub fn end_of_not_next(&self, class: Class, place: usize) -> Option<usize>
        requires { place ≤ length self.now }
        ensures { result
            ≡ option_map (λ k. place + k) (the_take_not_next class (drop place self.now)) }
    {
        leaf_ends::end_of_not_next(class, self.text, place)
    }

    /// Where the bytes of the class end at a place.
    #[inline(always)]
    pub fn end_of_run(&self, class: Class, place: usize) -> usize
        requires { place ≤ length self.now }
        ensures { result ≡ place + the_run_length class (drop place self.now) }
    {
        place + run_length(class, &self.text[place..])
    }

    /// Where the first of these bytes behind a place end.
    #[inline(always)]
    pub fn end_past(&self, bytes: &[u8], place: usize) -> Option<usize>
        requires { place ≤ length self.now }
        ensures { result
            ≡ option_map (λ k. place + k) (the_take_past bytes.now (drop place self.now)) }
    {
        leaf_ends::end_past(bytes, self.text, place)
    }
}

/// How many bytes at the front are in the class.
///
/// It is `leaf_ends::run_length` as it is there, but inlined: where the class is known, a byte
/// takes a few instructions, and no choice among classes.
#[inline(always)]
fn run_length(class: Class, left: &[u8]) -> usize
    ensures value { result ≡ the_run_length class left.now }
    ensures within { result ≤ length left.now }
{
    let mut taken = 0;
    while taken < left.len() {
        if !holds(class, left[taken]) {
            return taken;
        }
        taken += 1;
    }
    taken
}
