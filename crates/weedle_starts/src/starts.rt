//! The bytes that a rule can begin with, by a table of all rules.

ghost use Rattle.weedle_starts.specs.Starts.{CoversStarts};
ghost use Rattle.weedle_starts.specs.Ways.{IsGate};

use crate::written::first_sets::FIRST_SETS;
use crate::written::gates::GATES;
use weedle_grammar::Rule;

/// The ASCII bytes that a rule can begin with, as the bits of a word: all of them, where the rule
/// may take nothing.
///
/// For `Rule::ENUM` it has the bits of `e`, of whitespace and of `/`. It takes no memory.
#[inline(always)]
pub fn first_set(rule: Rule) -> u128
    ensures { CoversStarts result rule }
{
    FIRST_SETS[rule.number() as usize]
}

/// The ASCII bytes at which a rule isn't passed over: those that it can begin with; of an option, a
/// repetition or a list those that what it may go without can begin with.
#[inline(always)]
pub(crate) fn gate(rule: Rule) -> u128
    ensures { IsGate result rule }
{
    GATES[rule.number() as usize]
}
