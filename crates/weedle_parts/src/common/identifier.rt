//! Identifiers.

ghost use Rattle.std.specs.Prelude.{◌≡◌};
ghost use Rattle.weedle_grammar.specs.written.Table.Leaves.{IDENTIFIER};
ghost use Rattle.weedle_parts.specs.ValueTrees.{identifier_tree};
ghost use Rattle.weedle_base.specs.AlikeLaws.{equal_equivalence, seen_equivalence};
ghost use Rattle.weedle_base.specs.Own.{own};
ghost use Rattle.weedle_base.specs.OwnLaws.{own_lawful};

use std::alloc::{AllocError, Global};
use weedle_base::{IResult, Parse, TryClone, identifier, mismatch};

/// A name, as `Window`, kept without the underscore that may be before it, as in `_interface`. Any
/// other text, as `__x` or `9a`, is a mismatch. It takes no memory and never gives a failure.
#[derive(Clone, Copy, Debug, PartialEq, Eq, PartialOrd, Ord, Hash)]
pub struct Identifier<'a>(pub &'a str);

#[tactic(auto, using(weedle_base::proofs::TokenFacts::got_own))]
impl<'a> Parse<'a> for Identifier<'a> {
    ghost reading = { own IDENTIFIER identifier_tree ⊥ };

    fn parse(_alloc: Global, input: &'a str) -> IResult<&'a str, Self> {
        match identifier(input) {
            Some((rest, name)) => Ok((rest, Identifier(name))),
            None => Err(mismatch(input)),
        }
    }

    ghost lawful = { own_lawful IDENTIFIER identifier_tree ⊥ };
}

impl<'a> TryClone for Identifier<'a> {
    ghost alike = { λ a b. a.0.now ≡ b.0.now };

    fn try_clone(&self, _alloc: Global) -> Result<Self, AllocError> {
        Ok(*self)
    }

    ghost equivalence = { seen_equivalence (λ v. v.0.now) equal_equivalence };
}
