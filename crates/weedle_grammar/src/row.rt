//! What a rule reads.

ghost use Rattle.std.specs.Prelude.{◌≡◌, IsTrue};
ghost use Rattle.weedle_grammar.specs.Entry.{are_rules};

use crate::class::Class;
use crate::rule::Rule;

/// The rules that a row reads one after another, or of which it takes the first that fits.
#[derive(Clone, Copy, Debug)]
pub struct Parts {
    numbers: &'static [u16],
    ghost in_range: { IsTrue (are_rules numbers.now) },
}

/// The parts of these numbers.
pub(crate) fn parts_of(numbers: &'static [u16]) -> Parts
    requires { IsTrue (are_rules numbers.now) }
    ensures { result.numbers.now ≡ numbers.now }
{
    Parts { numbers }
}

impl Parts {
    ghost use Rattle.std.specs.Prelude.{◌≡◌, ◌<◌, ◌↔◌, IsTrue, length, slice_get, slice_index};
    ghost use Rattle.weedle_grammar.specs.written.Bound.{rule_count};
    ghost use Rattle.weedle_grammar.specs.View.{numbers_of};

    /// How many there are. It takes no memory.
    #[inline(always)]
    pub fn len(&self) -> usize
        ensures { result ≡ length (numbers_of self.now) }
    {
        self.numbers.len()
    }

    /// Whether there is none. It takes no memory.
    pub fn is_empty(&self) -> bool
        ensures { IsTrue result ↔ (length (numbers_of self.now) ≡ 0) }
    {
        self.numbers.is_empty()
    }

    /// The rule at a place, counted from 0, or None from the end on. It takes no memory.
    pub fn at(&self, i: usize) -> Option<Rule>
        ensures { result ≡ slice_get (numbers_of self.now) i }
    {
        match self.numbers.get(i) {
            Some(number) => Some(Rule(*number)),
            None => None,
        }
    }

    /// The rule at a place before the end, counted from 0. It takes no memory.
    #[inline(always)]
    pub fn rule(&self, i: usize) -> Rule
        requires { i < length (numbers_of self.now) }
        ensures value { result ≡ slice_index (numbers_of self.now) i }
        ensures low { result < rule_count }
    {
        Rule(self.numbers[i])
    }
}

/// What a rule reads at a place of a text. Each of these ends at a place, or fails.
#[derive(Clone, Copy, Debug)]
pub enum Row {
    /// These bytes.
    Bytes(&'static [u8]),
    /// One byte of the class.
    OneOf(Class),
    /// Nothing, where the text ends or its next byte isn't in the class.
    NotNext(Class),
    /// All bytes from here on that are in the class, none included.
    Run(Class),
    /// Everything up to these bytes, and these.
    Past(&'static [u8]),
    /// The parts, each from the end of the one before.
    Seq(Parts),
    /// The first part that fits.
    First(Parts),
    /// The rule, or nothing where it fails.
    Opt(Rule),
    /// The rule from end to end until it fails. It fails where the rule takes nothing.
    Many(Rule),
    /// An item, then the items after it; nothing where there is no item.
    List(Rule, Rule),
    /// An item, then the items after it.
    List1(Rule, Rule),
    /// Items, each behind a separator. A separator that no item follows isn't taken. It fails
    /// where a separator takes nothing.
    Tail(Rule, Rule),
    /// The parts, then the rule where the part of this number gave something.
    If(Parts, usize, Rule),
}
