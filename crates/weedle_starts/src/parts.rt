//! The rules that a row names.

ghost use Rattle.std.specs.Prelude.{◌≡◌, IsTrue};
ghost use Rattle.weedle_grammar.specs.Entry.{are_rules};

use weedle_grammar::{Rule, rule_of};

/// The rules that a row reads one after another, or of which it takes the first that fits.
#[derive(Clone, Copy, Debug)]
pub struct Parts {
    numbers: &'static [u16],
    ghost in_range: { IsTrue (are_rules numbers.now) },
}

/// The parts of these numbers.
#[inline(always)]
pub(crate) fn parts_of(numbers: &'static [u16]) -> Parts
    requires { IsTrue (are_rules numbers.now) }
    ensures { result.numbers.now ≡ numbers.now }
{
    Parts { numbers }
}

impl Parts {
    ghost use Rattle.std.specs.Prelude.{◌≡◌, ◌<◌, ◌↔◌, IsTrue, length, slice_index};
    ghost use Rattle.weedle_grammar.specs.written.Bound.{rule_count};
    ghost use Rattle.weedle_starts.specs.View.{numbers_of};

    /// How many there are. It takes no memory.
    #[inline(always)]
    pub fn len(&self) -> usize
        ensures { result ≡ length (numbers_of self.now) }
    {
        self.numbers.len()
    }

    /// Whether there is none. It takes no memory.
    pub fn is_empty(&self) -> bool
        ensures { IsTrue result ↔ (length (numbers_of self.now) ≡ 0) }
    {
        self.numbers.is_empty()
    }

    /// The rule at a place before the end, counted from 0. It takes no memory.
    #[inline(always)]
    pub fn rule(&self, i: usize) -> Rule
        requires { i < length (numbers_of self.now) }
        ensures value { result ≡ slice_index (numbers_of self.now) i }
        ensures low { result < rule_count }
    {
        rule_of(self.numbers[i])
    }
}
