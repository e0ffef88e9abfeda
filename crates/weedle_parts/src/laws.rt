//! What the generic parts have to do with the grammar's rules. Each of these functions does nothing
//! when it runs: its contract is the law.
//!
//! A type that reads what a rule reads is put into a part: then what the part reads is what any
//! rule reads whose row is made so of the rules of the parameters.

ghost use Rattle.weedle_grammar.specs.written.Table.Symbols.{
  OPEN_PAREN,
  CLOSE_PAREN,
  OPEN_BRACKET,
  CLOSE_BRACKET,
  OPEN_BRACE,
  CLOSE_BRACE,
  LESS_THAN,
  GREATER_THAN,
};
ghost use Rattle.weedle_parts.specs.RuleLaws.{
  BracketLaw,
  MayBeNullLaw,
  PunctuatedLaw,
  PunctuatedNonEmptyLaw,
};
ghost use Rattle.weedle_parts.specs.ValueTrees.{
  parenthesized_tree,
  bracketed_tree,
  braced_tree,
  generics_tree,
  may_be_null_tree,
  punctuated_tree,
  punctuated_non_empty_tree,
};

use crate::common::{Braced, Bracketed, Generics, Parenthesized, Punctuated, PunctuatedNonEmpty};
use crate::types::MayBeNull;
use weedle_base::Parse;

/// A law, which does nothing: `Parenthesized<T>` reads what a rule reads that is T's between
/// parentheses.
#[tactic(auto, using(crate::proofs::RuleLawFacts::parenthesized_law))]
pub fn parenthesized<'a, T: Parse<'a>>()
    ensures { BracketLaw T.reading ⟦<Parenthesized<T> as Parse<'a>>⟧.reading parenthesized_tree
        OPEN_PAREN CLOSE_PAREN }
{}

/// A law, which does nothing: `Bracketed<T>` reads what a rule reads that is T's between square
/// brackets.
#[tactic(auto, using(crate::proofs::RuleLawFacts::bracketed_law))]
pub fn bracketed<'a, T: Parse<'a>>()
    ensures { BracketLaw T.reading ⟦<Bracketed<T> as Parse<'a>>⟧.reading bracketed_tree OPEN_BRACKET
        CLOSE_BRACKET }
{}

/// A law, which does nothing: `Braced<T>` reads what a rule reads that is T's between braces.
#[tactic(auto, using(crate::proofs::RuleLawFacts::braced_law))]
pub fn braced<'a, T: Parse<'a>>()
    ensures { BracketLaw T.reading ⟦<Braced<T> as Parse<'a>>⟧.reading braced_tree OPEN_BRACE
        CLOSE_BRACE }
{}

/// A law, which does nothing: `Generics<T>` reads what a rule reads that is T's between angle
/// brackets.
#[tactic(auto, using(crate::proofs::RuleLawFacts::generics_law))]
pub fn generics<'a, T: Parse<'a>>()
    ensures { BracketLaw T.reading ⟦<Generics<T> as Parse<'a>>⟧.reading generics_tree LESS_THAN
        GREATER_THAN }
{}

/// A law, which does nothing: `MayBeNull<T>` reads what a rule reads that is T's and a mark that
/// may be absent.
#[tactic(auto, using(crate::proofs::RuleLawFacts::may_be_null_law))]
pub fn may_be_null<'a, T: Parse<'a>>()
    ensures { MayBeNullLaw T.reading ⟦<MayBeNull<T> as Parse<'a>>⟧.reading may_be_null_tree }
{}

/// A law, which does nothing: `Punctuated<T, S>` reads what a rule reads that lists T's, separated
/// by S's.
#[tactic(auto, using(crate::proofs::RuleLawFacts::punctuated_law))]
pub fn punctuated<'a, T: Parse<'a>, S: Parse<'a> + Default>()
    ensures { PunctuatedLaw T.reading ⟦<Punctuated<T, S> as Parse<'a>>⟧.reading punctuated_tree
        S.reading }
{}

/// A law, which does nothing: `PunctuatedNonEmpty<T, S>` reads what a rule reads that lists T's,
/// one at least, separated by S's, and then S's where present.
#[tactic(auto, using(crate::proofs::RuleLawFacts::punctuated_non_empty_law))]
pub fn punctuated_non_empty<'a, T: Parse<'a>, S: Parse<'a> + Default>()
    ensures { PunctuatedNonEmptyLaw T.reading ⟦<PunctuatedNonEmpty<T, S> as Parse<'a>>⟧.reading
        punctuated_non_empty_tree S.reading }
{}
