//! The types that hold no other type.
#![tactic(auto)]

ghost use Rattle.weedle_spell.specs.SimpleTypes.{
  long_long_type_spelling,
  long_type_spelling,
  short_type_spelling,
  integer_type_spelling,
  float_type_spelling,
  double_type_spelling,
  floating_point_type_spelling,
  const_type_spelling,
};

use crate::error::PrintError;
use crate::fields::two;
use crate::layout::Layout;
use crate::print::Print;
use weedle_base::term::{Boolean, Byte, Double, Float, Long, Octet, Short, Unrestricted, Unsigned};
use weedle_parts::common::Identifier;
use weedle_parts::types::{
    ConstType, DoubleType, FloatType, FloatingPointType, IntegerType, LongLongType, LongType,
    MayBeNull, ShortType,
};

impl Print for LongLongType {
    type Value = Self;

    ghost spelling = { long_long_type_spelling };

    fn print(
        value: &LongLongType,
        out: &mut String,
        layout: &mut Layout,
    ) -> Result<(), PrintError> {
        two::<Option<Unsigned>, (Long, Long)>(out, layout, &value.unsigned, &value.long_long)
    }
}

impl Print for LongType {
    type Value = Self;

    ghost spelling = { long_type_spelling };

    fn print(value: &LongType, out: &mut String, layout: &mut Layout) -> Result<(), PrintError> {
        two::<Option<Unsigned>, Long>(out, layout, &value.unsigned, &value.long)
    }
}

impl Print for ShortType {
    type Value = Self;

    ghost spelling = { short_type_spelling };

    fn print(value: &ShortType, out: &mut String, layout: &mut Layout) -> Result<(), PrintError> {
        two::<Option<Unsigned>, Short>(out, layout, &value.unsigned, &value.short)
    }
}

impl Print for IntegerType {
    type Value = Self;

    ghost spelling = { integer_type_spelling };

    fn print(value: &IntegerType, out: &mut String, layout: &mut Layout) -> Result<(), PrintError> {
        match value {
            IntegerType::LongLong(type_) => LongLongType::print(type_, out, layout),
            IntegerType::Long(type_) => LongType::print(type_, out, layout),
            IntegerType::Short(type_) => ShortType::print(type_, out, layout),
        }
    }
}

impl Print for FloatType {
    type Value = Self;

    ghost spelling = { float_type_spelling };

    fn print(value: &FloatType, out: &mut String, layout: &mut Layout) -> Result<(), PrintError> {
        two::<Option<Unrestricted>, Float>(out, layout, &value.unrestricted, &value.float)
    }
}

impl Print for DoubleType {
    type Value = Self;

    ghost spelling = { double_type_spelling };

    fn print(value: &DoubleType, out: &mut String, layout: &mut Layout) -> Result<(), PrintError> {
        two::<Option<Unrestricted>, Double>(out, layout, &value.unrestricted, &value.double)
    }
}

impl Print for FloatingPointType {
    type Value = Self;

    ghost spelling = { floating_point_type_spelling };

    fn print(
        value: &FloatingPointType,
        out: &mut String,
        layout: &mut Layout,
    ) -> Result<(), PrintError> {
        match value {
            FloatingPointType::Float(type_) => FloatType::print(type_, out, layout),
            FloatingPointType::Double(type_) => DoubleType::print(type_, out, layout),
        }
    }
}

impl<'a> Print for ConstType<'a> {
    type Value = Self;

    ghost spelling = { const_type_spelling };

    fn print(
        value: &ConstType<'a>,
        out: &mut String,
        layout: &mut Layout,
    ) -> Result<(), PrintError> {
        match value {
            ConstType::Integer(type_) => MayBeNull::<IntegerType>::print(type_, out, layout),
            ConstType::FloatingPoint(type_) => MayBeNull::<FloatingPointType>::print(
                type_, out, layout,
            ),
            ConstType::Boolean(type_) => MayBeNull::<Boolean>::print(type_, out, layout),
            ConstType::Byte(type_) => MayBeNull::<Byte>::print(type_, out, layout),
            ConstType::Octet(type_) => MayBeNull::<Octet>::print(type_, out, layout),
            ConstType::Identifier(type_) => MayBeNull::<Identifier>::print(type_, out, layout),
        }
    }
}
