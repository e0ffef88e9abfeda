//! The types that a constant may have.

ghost use Rattle.weedle_grammar.specs.written.Table.SimpleTypes.{CONST_TYPE};
ghost use Rattle.weedle_base.specs.Own.{own};
ghost use Rattle.weedle_base.specs.OwnLaws.{own_lawful};
ghost use Rattle.weedle_parts.specs.ValueTrees.{const_type_tree};

mod written;

use crate::common::Identifier;
use crate::types::floating_point::FloatingPointType;
use crate::types::integer::IntegerType;
use crate::types::may_be_null::MayBeNull;
use std::alloc::Global;
use weedle_base::term::{Boolean, Byte, Octet};
use weedle_base::{IResult, Parse};

/// The type of a constant, as `long?`: a type of numbers, `boolean`, `byte`, `octet` or a name, and
/// `?` where it may be null. It takes no memory. Of what its variants read, `?` may be absent.
#[derive(Clone, Copy, Debug, PartialEq, Eq, PartialOrd, Ord, Hash)]
pub enum ConstType<'a> {
    /// `short?`, `long?` or `long long?`, each also with `unsigned` in front.
    Integer(MayBeNull<IntegerType>),
    /// `float?` or `double?`, each also with `unrestricted` in front.
    FloatingPoint(MayBeNull<FloatingPointType>),
    /// `boolean?`.
    Boolean(MayBeNull<Boolean>),
    /// `byte?`.
    Byte(MayBeNull<Byte>),
    /// `octet?`.
    Octet(MayBeNull<Octet>),
    /// `name?`.
    Identifier(MayBeNull<Identifier<'a>>),
}

#[tactic(auto, using(crate::proofs::ConstTypeRules::const_type_steps))]
impl<'a> Parse<'a> for ConstType<'a> {
    ghost reading = { own CONST_TYPE const_type_tree ⊥ };

    fn parse(alloc: Global, input: &'a str) -> IResult<&'a str, Self> {
        if let (rest, Some(member)) = Option::parse(alloc, input)? {
            return Ok((rest, ConstType::Integer(member)));
        }
        if let (rest, Some(member)) = Option::parse(alloc, input)? {
            return Ok((rest, ConstType::FloatingPoint(member)));
        }
        if let (rest, Some(member)) = Option::parse(alloc, input)? {
            return Ok((rest, ConstType::Boolean(member)));
        }
        if let (rest, Some(member)) = Option::parse(alloc, input)? {
            return Ok((rest, ConstType::Byte(member)));
        }
        if let (rest, Some(member)) = Option::parse(alloc, input)? {
            return Ok((rest, ConstType::Octet(member)));
        }
        let (rest, member) = Parse::parse(alloc, input)?;
        Ok((rest, ConstType::Identifier(member)))
    }

    ghost lawful = { own_lawful CONST_TYPE const_type_tree ⊥ };
}
