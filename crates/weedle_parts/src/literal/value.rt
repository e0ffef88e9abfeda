//! Values of defaults and of constants.

ghost use Rattle.weedle_grammar.specs.written.Table.Literals.{DEFAULT_VALUE, CONST_VALUE};
ghost use Rattle.weedle_base.specs.Own.{own};
ghost use Rattle.weedle_base.specs.OwnLaws.{own_lawful};
ghost use Rattle.weedle_parts.specs.LiteralTrees.{default_value_tree, const_value_tree};

mod written;

use crate::literal::boolean::BooleanLit;
use crate::literal::empty::{EmptyArrayLit, EmptyDictionaryLit};
use crate::literal::float::FloatLit;
use crate::literal::integer::IntegerLit;
use crate::literal::string::StringLit;
use std::alloc::Global;
use weedle_base::term::Null;
use weedle_base::{IResult, Parse};

/// The value of a default, as `"blob"` or `[]`: the first of the seven forms that fits. Anything
/// else is a mismatch, as `undefined` is. Up to thirteen literals and words are tried.
#[derive(Clone, Copy, Debug, PartialEq, Eq, PartialOrd, Ord, Hash)]
pub enum DefaultValue<'a> {
    /// A boolean, as `true`.
    Boolean(BooleanLit),
    /// An empty list, as `[]`.
    EmptyArray(EmptyArrayLit),
    /// An empty dictionary, as `{}`.
    EmptyDictionary(EmptyDictionaryLit),
    /// A float, as `1.5` or `NaN`.
    Float(FloatLit<'a>),
    /// A whole number, as `-12`.
    Integer(IntegerLit<'a>),
    /// The word `null`.
    Null(Null),
    /// A text in quotes, as `"blob"`.
    String(StringLit<'a>),
}

#[tactic(auto, using(crate::proofs::ValueRules::default_value_steps))]
impl<'a> Parse<'a> for DefaultValue<'a> {
    ghost reading = { own DEFAULT_VALUE default_value_tree ⊥ };

    fn parse(alloc: Global, input: &'a str) -> IResult<&'a str, Self> {
        if let (rest, Some(member)) = Option::parse(alloc, input)? {
            return Ok((rest, DefaultValue::Boolean(member)));
        }
        if let (rest, Some(member)) = Option::parse(alloc, input)? {
            return Ok((rest, DefaultValue::EmptyArray(member)));
        }
        if let (rest, Some(member)) = Option::parse(alloc, input)? {
            return Ok((rest, DefaultValue::EmptyDictionary(member)));
        }
        if let (rest, Some(member)) = Option::parse(alloc, input)? {
            return Ok((rest, DefaultValue::Float(member)));
        }
        if let (rest, Some(member)) = Option::parse(alloc, input)? {
            return Ok((rest, DefaultValue::Integer(member)));
        }
        if let (rest, Some(member)) = Option::parse(alloc, input)? {
            return Ok((rest, DefaultValue::Null(member)));
        }
        let (rest, member) = Parse::parse(alloc, input)?;
        Ok((rest, DefaultValue::String(member)))
    }

    ghost lawful = { own_lawful DEFAULT_VALUE default_value_tree ⊥ };
}

/// The value of a constant, as `1.5` or `null`: the first of the four forms that fits. Anything
/// else is a mismatch, as a text in quotes is. Up to ten literals and words are tried.
#[derive(Clone, Copy, Debug, PartialEq, Eq, PartialOrd, Ord, Hash)]
pub enum ConstValue<'a> {
    /// A boolean, as `true`.
    Boolean(BooleanLit),
    /// A float, as `1.5` or `NaN`.
    Float(FloatLit<'a>),
    /// A whole number, as `-12`.
    Integer(IntegerLit<'a>),
    /// The word `null`.
    Null(Null),
}

#[tactic(auto, using(crate::proofs::ValueRules::const_value_steps))]
impl<'a> Parse<'a> for ConstValue<'a> {
    ghost reading = { own CONST_VALUE const_value_tree ⊥ };

    fn parse(alloc: Global, input: &'a str) -> IResult<&'a str, Self> {
        if let (rest, Some(member)) = Option::parse(alloc, input)? {
            return Ok((rest, ConstValue::Boolean(member)));
        }
        if let (rest, Some(member)) = Option::parse(alloc, input)? {
            return Ok((rest, ConstValue::Float(member)));
        }
        if let (rest, Some(member)) = Option::parse(alloc, input)? {
            return Ok((rest, ConstValue::Integer(member)));
        }
        let (rest, member) = Parse::parse(alloc, input)?;
        Ok((rest, ConstValue::Null(member)))
    }

    ghost lawful = { own_lawful CONST_VALUE const_value_tree ⊥ };
}
