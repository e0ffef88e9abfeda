//! The types of integers.

ghost use Rattle.weedle_grammar.specs.written.Table.SimpleTypes.{
  LONG_LONG_TYPE,
  LONG_TYPE,
  SHORT_TYPE,
  INTEGER_TYPE,
};
ghost use Rattle.weedle_base.specs.Own.{own};
ghost use Rattle.weedle_base.specs.OwnLaws.{own_lawful};
ghost use Rattle.weedle_parts.specs.ValueTrees.{
  long_long_type_tree,
  long_type_tree,
  short_type_tree,
  integer_type_tree,
};

mod written;

use std::alloc::Global;
use weedle_base::term::{Long, Short, Unsigned};
use weedle_base::{IResult, Parse};

/// `long long` or `unsigned long long`.
#[derive(Clone, Copy, Debug, PartialEq, Eq, PartialOrd, Ord, Hash)]
pub struct LongLongType {
    /// The word `unsigned`, where present.
    pub unsigned: Option<Unsigned>,
    /// The words `long long`.
    pub long_long: (Long, Long),
}

#[tactic(auto, using(crate::proofs::IntegerTypeRules::long_long_type_steps))]
impl<'a> Parse<'a> for LongLongType {
    ghost reading = { own LONG_LONG_TYPE long_long_type_tree ⊥ };

    fn parse(alloc: Global, input: &'a str) -> IResult<&'a str, Self> {
        let (rest, unsigned) = Option::parse(alloc, input)?;
        let (rest, long_long) = Parse::parse(alloc, rest)?;
        Ok((
            rest,
            LongLongType {
                unsigned,
                long_long,
            },
        ))
    }

    ghost lawful = { own_lawful LONG_LONG_TYPE long_long_type_tree ⊥ };
}

/// `long` or `unsigned long`.
#[derive(Clone, Copy, Debug, PartialEq, Eq, PartialOrd, Ord, Hash)]
pub struct LongType {
    /// The word `unsigned`, where present.
    pub unsigned: Option<Unsigned>,
    /// The word `long`.
    pub long: Long,
}

#[tactic(auto, using(crate::proofs::IntegerTypeRules::long_type_steps))]
impl<'a> Parse<'a> for LongType {
    ghost reading = { own LONG_TYPE long_type_tree ⊥ };

    fn parse(alloc: Global, input: &'a str) -> IResult<&'a str, Self> {
        let (rest, unsigned) = Option::parse(alloc, input)?;
        let (rest, long) = Parse::parse(alloc, rest)?;
        Ok((rest, LongType { unsigned, long }))
    }

    ghost lawful = { own_lawful LONG_TYPE long_type_tree ⊥ };
}

/// `short` or `unsigned short`.
#[derive(Clone, Copy, Debug, PartialEq, Eq, PartialOrd, Ord, Hash)]
pub struct ShortType {
    /// The word `unsigned`, where present.
    pub unsigned: Option<Unsigned>,
    /// The word `short`.
    pub short: Short,
}

#[tactic(auto, using(crate::proofs::IntegerTypeRules::short_type_steps))]
impl<'a> Parse<'a> for ShortType {
    ghost reading = { own SHORT_TYPE short_type_tree ⊥ };

    fn parse(alloc: Global, input: &'a str) -> IResult<&'a str, Self> {
        let (rest, unsigned) = Option::parse(alloc, input)?;
        let (rest, short) = Parse::parse(alloc, rest)?;
        Ok((rest, ShortType { unsigned, short }))
    }

    ghost lawful = { own_lawful SHORT_TYPE short_type_tree ⊥ };
}

/// A type of integers, as `unsigned long`: the first of its variants that fits, so `long longx` is
/// `long` and leaves `longx`. Anything else, as `unsigned x`, is a mismatch. It takes no memory.
#[derive(Clone, Copy, Debug, PartialEq, Eq, PartialOrd, Ord, Hash)]
pub enum IntegerType {
    /// `unsigned long long`, also without `unsigned`.
    LongLong(LongLongType),
    /// `unsigned long`, also without `unsigned`.
    Long(LongType),
    /// `unsigned short`, also without `unsigned`.
    Short(ShortType),
}

#[tactic(auto, using(crate::proofs::IntegerTypeRules::integer_type_steps))]
impl<'a> Parse<'a> for IntegerType {
    ghost reading = { own INTEGER_TYPE integer_type_tree ⊥ };

    fn parse(alloc: Global, input: &'a str) -> IResult<&'a str, Self> {
        if let (rest, Some(member)) = Option::parse(alloc, input)? {
            return Ok((rest, IntegerType::LongLong(member)));
        }
        if let (rest, Some(member)) = Option::parse(alloc, input)? {
            return Ok((rest, IntegerType::Long(member)));
        }
        let (rest, member) = Parse::parse(alloc, input)?;
        Ok((rest, IntegerType::Short(member)))
    }

    ghost lawful = { own_lawful INTEGER_TYPE integer_type_tree ⊥ };
}
