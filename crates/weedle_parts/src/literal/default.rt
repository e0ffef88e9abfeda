//! Defaults.

ghost use Rattle.weedle_grammar.specs.written.Table.Literals.{DEFAULT};
ghost use Rattle.weedle_base.specs.Own.{own};
ghost use Rattle.weedle_base.specs.OwnLaws.{own_lawful};
ghost use Rattle.weedle_parts.specs.LiteralTrees.{default_tree};

use crate::literal::value::DefaultValue;
use std::alloc::Global;
use weedle_base::term::Assign;
use weedle_base::{IResult, Parse};

/// A default, as `= 5` behind an argument's name. Without the `=`, or where no value follows it, it
/// is a mismatch. It takes no memory and never gives a failure.
#[derive(Clone, Copy, Debug, PartialEq, Eq, PartialOrd, Ord, Hash)]
pub struct Default<'a> {
    /// The `=`.
    pub assign: Assign,
    /// The value, as `5`.
    pub value: DefaultValue<'a>,
}

#[tactic(auto, using(crate::proofs::DefaultRules::default_steps))]
impl<'a> Parse<'a> for Default<'a> {
    ghost reading = { own DEFAULT default_tree ⊥ };

    fn parse(alloc: Global, input: &'a str) -> IResult<&'a str, Self> {
        let (rest, assign) = Assign::parse(alloc, input)?;
        let (rest, value) = DefaultValue::parse(alloc, rest)?;
        Ok((rest, Default { assign, value }))
    }

    ghost lawful = { own_lawful DEFAULT default_tree ⊥ };
}
