//! The types of floating-point numbers.

ghost use Rattle.weedle_grammar.specs.written.Table.SimpleTypes.{
  FLOAT_TYPE,
  DOUBLE_TYPE,
  FLOATING_POINT_TYPE,
};
ghost use Rattle.weedle_base.specs.Own.{own};
ghost use Rattle.weedle_base.specs.OwnLaws.{own_lawful};
ghost use Rattle.weedle_parts.specs.ValueTrees.{
  float_type_tree,
  double_type_tree,
  floating_point_type_tree,
};

mod written;

use std::alloc::Global;
use weedle_base::term::{Double, Float, Unrestricted};
use weedle_base::{IResult, Parse};

/// `float` or `unrestricted float`.
#[derive(Clone, Copy, Debug, PartialEq, Eq, PartialOrd, Ord, Hash)]
pub struct FloatType {
    /// The word `unrestricted`, where present.
    pub unrestricted: Option<Unrestricted>,
    /// The word `float`.
    pub float: Float,
}

#[tactic(auto, using(crate::proofs::FloatingPointTypeRules::float_type_steps))]
impl<'a> Parse<'a> for FloatType {
    ghost reading = { own FLOAT_TYPE float_type_tree ⊥ };

    fn parse(alloc: Global, input: &'a str) -> IResult<&'a str, Self> {
        let (rest, unrestricted) = Option::parse(alloc, input)?;
        let (rest, float) = Parse::parse(alloc, rest)?;
        Ok((
            rest,
            FloatType {
                unrestricted,
                float,
            },
        ))
    }

    ghost lawful = { own_lawful FLOAT_TYPE float_type_tree ⊥ };
}

/// `double` or `unrestricted double`.
#[derive(Clone, Copy, Debug, PartialEq, Eq, PartialOrd, Ord, Hash)]
pub struct DoubleType {
    /// The word `unrestricted`, where present.
    pub unrestricted: Option<Unrestricted>,
    /// The word `double`.
    pub double: Double,
}

#[tactic(auto, using(crate::proofs::FloatingPointTypeRules::double_type_steps))]
impl<'a> Parse<'a> for DoubleType {
    ghost reading = { own DOUBLE_TYPE double_type_tree ⊥ };

    fn parse(alloc: Global, input: &'a str) -> IResult<&'a str, Self> {
        let (rest, unrestricted) = Option::parse(alloc, input)?;
        let (rest, double) = Parse::parse(alloc, rest)?;
        Ok((
            rest,
            DoubleType {
                unrestricted,
                double,
            },
        ))
    }

    ghost lawful = { own_lawful DOUBLE_TYPE double_type_tree ⊥ };
}

/// A type of floating point numbers, as `unrestricted double`. It takes no memory.
#[derive(Clone, Copy, Debug, PartialEq, Eq, PartialOrd, Ord, Hash)]
pub enum FloatingPointType {
    /// `unrestricted float`, also without `unrestricted`.
    Float(FloatType),
    /// `unrestricted double`, also without `unrestricted`.
    Double(DoubleType),
}

#[tactic(auto, using(crate::proofs::FloatingPointTypeRules::floating_point_type_steps))]
impl<'a> Parse<'a> for FloatingPointType {
    ghost reading = { own FLOATING_POINT_TYPE floating_point_type_tree ⊥ };

    fn parse(alloc: Global, input: &'a str) -> IResult<&'a str, Self> {
        if let (rest, Some(member)) = Option::parse(alloc, input)? {
            return Ok((rest, FloatingPointType::Float(member)));
        }
        let (rest, member) = Parse::parse(alloc, input)?;
        Ok((rest, FloatingPointType::Double(member)))
    }

    ghost lawful = { own_lawful FLOATING_POINT_TYPE floating_point_type_tree ⊥ };
}
