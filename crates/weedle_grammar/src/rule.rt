//! The rules of the grammar, by number.

ghost use Rattle.std.specs.Prelude.{◌≡◌, ℕ, ◌<◌, ◌↔◌, IfSome, IsSome, IsTrue};
ghost use Rattle.weedle_grammar.specs.written.Bound.{rule_count, table_count};
ghost use Rattle.weedle_grammar.specs.written.Names.{name_of};

use crate::{RULES, TABLE_RULES, grammar};
use std::marker::Model;

/// A rule of the grammar.
///
/// What a rule reads before a byte is taken has a smaller number.
#[derive(Clone, Copy, Debug, PartialEq, Eq)]
pub struct Rule(pub(crate) u16);

impl Model for Rule {
    ghost Value = { ℕ };

    ghost view = { λ rule. rule.0 };

    ghost inverse = { λ number. record { 0 = number } };

    ghost invariant = { λ rule. rule.0 < rule_count };
}

/// The rule of a number below `RULES`. It takes no memory.
#[inline(always)]
pub fn rule_of(number: u16) -> Rule
    requires { number < RULES }
    ensures { result ≡ number }
{
    Rule(number)
}

impl Rule {
    /// The rule of a number, or None where there is none. It takes no memory.
    pub fn new(number: u16) -> Option<Rule>
        ensures some { IfSome result (λ rule. rule ≡ number) }
        ensures exact { IsSome result ↔ (number < RULES) }
    {
        if (number as usize) < RULES {
            Some(rule_of(number))
        } else {
            None
        }
    }

    /// The rule's number, below `RULES`. It takes no memory.
    pub fn number(self) -> u16
        ensures { (result ≡ self) × (result < RULES) }
    {
        self.0
    }

    /// Whether a packrat table has the rule, as it has each of weedle2's: false of one of today's. It
    /// takes no memory.
    #[inline(always)]
    pub fn is_of_table(self) -> bool
        ensures { IsTrue result ↔ (self < table_count) }
    {
        (self.number() as usize) < TABLE_RULES
    }

    /// The rule's name, that of its constant in small letters: `interface_definition` of
    /// `Rule::INTERFACE_DEFINITION`. A rule without a constant has a name too. It takes no memory.
    pub fn name(self) -> &'static str
        ensures { result.now ≡ name_of self }
    {
        grammar::name_of(self)
    }
}
