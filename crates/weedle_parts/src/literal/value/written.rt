//! What follows from the declarations of the module above.
//!
//! Written by tools/impls.py, and not edited by hand.

ghost use Rattle.std.specs.Prelude.{◌≡◌};

use super::{ConstValue, DefaultValue};
use crate::literal::boolean::BooleanLit;
use crate::literal::empty::{EmptyArrayLit, EmptyDictionaryLit};
use crate::literal::float::FloatLit;
use crate::literal::integer::IntegerLit;
use crate::literal::string::StringLit;
use weedle_base::term::Null;

impl From<BooleanLit> for DefaultValue<'_> {
    ghost use Rattle.weedle_parts.specs.declared.literal.value.DefaultValue.TheVariants.{Boolean};

    ghost from_gives = { λ value made. made ≡ Boolean value };

    fn from(value: BooleanLit) -> Self {
        DefaultValue::Boolean(value)
    }
}

impl From<EmptyArrayLit> for DefaultValue<'_> {
    ghost use Rattle.weedle_parts.specs.declared.literal.value.DefaultValue.TheVariants.{
      EmptyArray,
    };

    ghost from_gives = { λ value made. made ≡ EmptyArray value };

    fn from(value: EmptyArrayLit) -> Self {
        DefaultValue::EmptyArray(value)
    }
}

impl From<EmptyDictionaryLit> for DefaultValue<'_> {
    ghost use Rattle.weedle_parts.specs.declared.literal.value.DefaultValue.TheVariants.{
      EmptyDictionary,
    };

    ghost from_gives = { λ value made. made ≡ EmptyDictionary value };

    fn from(value: EmptyDictionaryLit) -> Self {
        DefaultValue::EmptyDictionary(value)
    }
}

impl<'a> From<FloatLit<'a>> for DefaultValue<'a> {
    ghost use Rattle.weedle_parts.specs.declared.literal.value.DefaultValue.TheVariants.{Float};

    ghost from_gives = { λ value made. made ≡ Float value };

    fn from(value: FloatLit<'a>) -> Self {
        DefaultValue::Float(value)
    }
}

impl<'a> From<IntegerLit<'a>> for DefaultValue<'a> {
    ghost use Rattle.weedle_parts.specs.declared.literal.value.DefaultValue.TheVariants.{Integer};

    ghost from_gives = { λ value made. made ≡ Integer value };

    fn from(value: IntegerLit<'a>) -> Self {
        DefaultValue::Integer(value)
    }
}

impl From<Null> for DefaultValue<'_> {
    ghost use Rattle.weedle_parts.specs.declared.literal.value.DefaultValue.TheVariants.{Null};

    ghost from_gives = { λ value made. made ≡ Null value };

    fn from(value: Null) -> Self {
        DefaultValue::Null(value)
    }
}

impl<'a> From<StringLit<'a>> for DefaultValue<'a> {
    ghost use Rattle.weedle_parts.specs.declared.literal.value.DefaultValue.TheVariants.{String};

    ghost from_gives = { λ value made. made ≡ String value };

    fn from(value: StringLit<'a>) -> Self {
        DefaultValue::String(value)
    }
}

impl From<BooleanLit> for ConstValue<'_> {
    ghost use Rattle.weedle_parts.specs.declared.literal.value.ConstValue.TheVariants.{Boolean};

    ghost from_gives = { λ value made. made ≡ Boolean value };

    fn from(value: BooleanLit) -> Self {
        ConstValue::Boolean(value)
    }
}

impl<'a> From<FloatLit<'a>> for ConstValue<'a> {
    ghost use Rattle.weedle_parts.specs.declared.literal.value.ConstValue.TheVariants.{Float};

    ghost from_gives = { λ value made. made ≡ Float value };

    fn from(value: FloatLit<'a>) -> Self {
        ConstValue::Float(value)
    }
}

impl<'a> From<IntegerLit<'a>> for ConstValue<'a> {
    ghost use Rattle.weedle_parts.specs.declared.literal.value.ConstValue.TheVariants.{Integer};

    ghost from_gives = { λ value made. made ≡ Integer value };

    fn from(value: IntegerLit<'a>) -> Self {
        ConstValue::Integer(value)
    }
}

impl From<Null> for ConstValue<'_> {
    ghost use Rattle.weedle_parts.specs.declared.literal.value.ConstValue.TheVariants.{Null};

    ghost from_gives = { λ value made. made ≡ Null value };

    fn from(value: Null) -> Self {
        ConstValue::Null(value)
    }
}
