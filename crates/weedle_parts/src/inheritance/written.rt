//! What follows from the declarations of the module above.
//!
//! Written by tools/impls.py, and not edited by hand.

ghost use Rattle.weedle_base.specs.Own.{own};
ghost use Rattle.weedle_base.specs.OwnLaws.{own_lawful};
ghost use Rattle.weedle_grammar.specs.written.Table.InterfaceMembers.{INHERITANCE};
ghost use Rattle.weedle_parts.specs.ModifierTrees.{inheritance_tree};

use super::Inheritance;
use std::alloc::Global;
use weedle_base::{IResult, Parse};

#[tactic(auto, using(crate::proofs::written::InheritanceRules::inheritance_steps))]
impl<'a> Parse<'a> for Inheritance<'a> {
    ghost reading = { own INHERITANCE inheritance_tree ⊥ };

    fn parse(alloc: Global, input: &'a str) -> IResult<&'a str, Self> {
        let (rest, (colon, identifier)) = Parse::parse(alloc, input)?;
        Ok((rest, Inheritance { colon, identifier }))
    }

    ghost lawful = { own_lawful INHERITANCE inheritance_tree ⊥ };
}
