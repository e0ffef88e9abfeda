//! Booleans.

ghost use Rattle.weedle_grammar.specs.written.Table.Literals.{BOOLEAN_LIT};
ghost use Rattle.weedle_base.specs.Own.{own};
ghost use Rattle.weedle_base.specs.OwnLaws.{own_lawful};
ghost use Rattle.weedle_parts.specs.LiteralTrees.{boolean_tree};

use std::alloc::Global;
use weedle_base::term::{False, True};
use weedle_base::{IResult, Parse};

/// The word `true` or `false`. Any other word is a mismatch, as `truest` is.
#[derive(Clone, Copy, Debug, PartialEq, Eq, PartialOrd, Ord, Hash)]
pub struct BooleanLit(pub bool);

#[tactic(auto, using(crate::proofs::BooleanRules::boolean_steps))]
impl<'a> Parse<'a> for BooleanLit {
    ghost reading = { own BOOLEAN_LIT boolean_tree ⊥ };

    fn parse(alloc: Global, input: &'a str) -> IResult<&'a str, Self> {
        if let (rest, Some(_)) = Option::<True>::parse(alloc, input)? {
            return Ok((rest, BooleanLit(true)));
        }
        let (rest, _) = False::parse(alloc, input)?;
        Ok((rest, BooleanLit(false)))
    }

    ghost lawful = { own_lawful BOOLEAN_LIT boolean_tree ⊥ };
}
