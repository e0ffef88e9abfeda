//! What follows from the declarations of the module above.
//!
//! Written by tools/impls.py, and not edited by hand.

ghost use Rattle.std.specs.Prelude.{◌≡◌};

use super::ConstType;
use crate::common::Identifier;
use crate::types::floating_point::FloatingPointType;
use crate::types::integer::IntegerType;
use crate::types::may_be_null::MayBeNull;
use weedle_base::term::{Boolean, Byte, Octet};

impl From<MayBeNull<IntegerType>> for ConstType<'_> {
    ghost use Rattle.weedle_parts.specs.declared.types.const_type.ConstType.TheVariants.{Integer};

    ghost from_gives = { λ value made. made ≡ Integer value };

    fn from(value: MayBeNull<IntegerType>) -> Self {
        ConstType::Integer(value)
    }
}

impl From<MayBeNull<FloatingPointType>> for ConstType<'_> {
    ghost use Rattle.weedle_parts.specs.declared.types.const_type.ConstType.TheVariants.{
      FloatingPoint,
    };

    ghost from_gives = { λ value made. made ≡ FloatingPoint value };

    fn from(value: MayBeNull<FloatingPointType>) -> Self {
        ConstType::FloatingPoint(value)
    }
}

impl From<MayBeNull<Boolean>> for ConstType<'_> {
    ghost use Rattle.weedle_parts.specs.declared.types.const_type.ConstType.TheVariants.{Boolean};

    ghost from_gives = { λ value made. made ≡ Boolean value };

    fn from(value: MayBeNull<Boolean>) -> Self {
        ConstType::Boolean(value)
    }
}

impl From<MayBeNull<Byte>> for ConstType<'_> {
    ghost use Rattle.weedle_parts.specs.declared.types.const_type.ConstType.TheVariants.{Byte};

    ghost from_gives = { λ value made. made ≡ Byte value };

    fn from(value: MayBeNull<Byte>) -> Self {
        ConstType::Byte(value)
    }
}

impl From<MayBeNull<Octet>> for ConstType<'_> {
    ghost use Rattle.weedle_parts.specs.declared.types.const_type.ConstType.TheVariants.{Octet};

    ghost from_gives = { λ value made. made ≡ Octet value };

    fn from(value: MayBeNull<Octet>) -> Self {
        ConstType::Octet(value)
    }
}

impl<'a> From<MayBeNull<Identifier<'a>>> for ConstType<'a> {
    ghost use Rattle.weedle_parts.specs.declared.types.const_type.ConstType.TheVariants.{
      Identifier,
    };

    ghost from_gives = { λ value made. made ≡ Identifier value };

    fn from(value: MayBeNull<Identifier<'a>>) -> Self {
        ConstType::Identifier(value)
    }
}
