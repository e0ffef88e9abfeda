//! What generic readings have to do with the grammar's rules. Each of these functions does nothing
//! when it runs: its contract is the law.
//!
//! A type that reads what a rule reads is put into an option, a box, a list or a tuple: then what
//! that reads is what any rule reads whose row is made so of the rules of the parts.

ghost use Rattle.weedle_base.specs.RuleLaws.{OptionLaw, BoxLaw, VecLaw, PairLaw, TripleLaw};

use crate::parse::Parse;

/// A law, which does nothing: `Option<T>` reads what a rule reads that may be absent.
#[tactic(auto, using(crate::proofs::RuleLawFacts::option_law))]
pub fn option<'a, T: Parse<'a>>()
    ensures { OptionLaw T.reading ⟦<Option<T> as Parse<'a>>⟧.reading }
{}

/// A law, which does nothing: `Box<T>` reads what T's rule reads.
#[tactic(auto, using(crate::proofs::RuleLawFacts::box_law))]
pub fn boxed<'a, T: Parse<'a>>()
    ensures { BoxLaw T.reading ⟦<Box<T> as Parse<'a>>⟧.reading }
{}

/// A law, which does nothing: `Vec<T>` reads what a rule reads that repeats T's.
#[tactic(auto, using(crate::proofs::RuleLawFacts::vec_law))]
pub fn vec<'a, T: Parse<'a>>()
    ensures { VecLaw T.reading ⟦<Vec<T> as Parse<'a>>⟧.reading }
{}

/// A law, which does nothing: `(T, U)` reads what a rule reads that is T's and U's, one after the
/// other.
#[tactic(auto, using(crate::proofs::RuleLawFacts::pair_law))]
pub fn pair<'a, T: Parse<'a>, U: Parse<'a>>()
    ensures { PairLaw T.reading U.reading ⟦<(T, U) as Parse<'a>>⟧.reading }
{}

/// A law, which does nothing: `(T, U, V)` reads what a rule reads that is T's, U's and V's, one
/// after the other.
#[tactic(auto, using(crate::proofs::RuleLawFacts::triple_law))]
pub fn triple<'a, T: Parse<'a>, U: Parse<'a>, V: Parse<'a>>()
    ensures { TripleLaw T.reading U.reading V.reading ⟦<(T, U, V) as Parse<'a>>⟧.reading }
{}
