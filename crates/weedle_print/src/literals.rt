//! Literals and defaults.

ghost use Rattle.weedle_spell.specs.Literals.{
  integer_spelling,
  float_spelling,
  boolean_spelling,
  empty_array_spelling,
  empty_dictionary_spelling,
  default_value_spelling,
  const_value_spelling,
  default_spelling,
};

use crate::error::PrintError;
use crate::fields::two;
use crate::layout::Layout;
use crate::print::Print;
use crate::texts::word;
use weedle_base::term::{
    Assign, CloseBrace, CloseBracket, Infinity, NaN, NegInfinity, Null, OpenBrace, OpenBracket,
};
use weedle_parts::literal::{
    BooleanLit, ConstValue, DecLit, Default, DefaultValue, EmptyArrayLit, EmptyDictionaryLit,
    FloatLit, FloatValueLit, HexLit, IntegerLit, OctLit, StringLit,
};

impl<'a> Print for IntegerLit<'a> {
    type Value = Self;

    ghost spelling = { integer_spelling };

    fn print(
        value: &IntegerLit<'a>,
        out: &mut String,
        layout: &mut Layout,
    ) -> Result<(), PrintError> {
        match value {
            IntegerLit::Dec(number) => DecLit::print(number, out, layout),
            IntegerLit::Hex(number) => HexLit::print(number, out, layout),
            IntegerLit::Oct(number) => OctLit::print(number, out, layout),
        }
    }
}

impl<'a> Print for FloatLit<'a> {
    type Value = Self;

    ghost spelling = { float_spelling };

    fn print(
        value: &FloatLit<'a>,
        out: &mut String,
        layout: &mut Layout,
    ) -> Result<(), PrintError> {
        match value {
            FloatLit::Value(number) => FloatValueLit::print(number, out, layout),
            FloatLit::NegInfinity(number) => NegInfinity::print(number, out, layout),
            FloatLit::Infinity(number) => Infinity::print(number, out, layout),
            FloatLit::NaN(number) => NaN::print(number, out, layout),
        }
    }
}

impl Print for BooleanLit {
    type Value = Self;

    ghost spelling = { boolean_spelling };

    fn print(value: &BooleanLit, out: &mut String, layout: &mut Layout) -> Result<(), PrintError> {
        if value.0 {
            word(out, layout, "true")
        } else {
            word(out, layout, "false")
        }
    }
}

impl Print for EmptyArrayLit {
    type Value = Self;

    ghost spelling = { empty_array_spelling };

    fn print(
        value: &EmptyArrayLit,
        out: &mut String,
        layout: &mut Layout,
    ) -> Result<(), PrintError> {
        two::<OpenBracket, CloseBracket>(out, layout, &value.open_bracket, &value.close_bracket)
    }
}

#[tactic(auto, using(crate::proofs::AddsFacts::adds_then))]
impl Print for EmptyDictionaryLit {
    type Value = Self;

    ghost spelling = { empty_dictionary_spelling };

    fn print(
        value: &EmptyDictionaryLit,
        out: &mut String,
        layout: &mut Layout,
    ) -> Result<(), PrintError> {
        OpenBrace::print(&value.open_brace, out, layout)?;
        layout.join();
        CloseBrace::print(&value.close_brace, out, layout)
    }
}

impl<'a> Print for DefaultValue<'a> {
    type Value = Self;

    ghost spelling = { default_value_spelling };

    fn print(
        value: &DefaultValue<'a>,
        out: &mut String,
        layout: &mut Layout,
    ) -> Result<(), PrintError> {
        match value {
            DefaultValue::Boolean(value) => BooleanLit::print(value, out, layout),
            DefaultValue::EmptyArray(value) => EmptyArrayLit::print(value, out, layout),
            DefaultValue::EmptyDictionary(value) => EmptyDictionaryLit::print(value, out, layout),
            DefaultValue::Float(value) => FloatLit::print(value, out, layout),
            DefaultValue::Integer(value) => IntegerLit::print(value, out, layout),
            DefaultValue::Null(value) => Null::print(value, out, layout),
            DefaultValue::String(value) => StringLit::print(value, out, layout),
        }
    }
}

impl<'a> Print for ConstValue<'a> {
    type Value = Self;

    ghost spelling = { const_value_spelling };

    fn print(
        value: &ConstValue<'a>,
        out: &mut String,
        layout: &mut Layout,
    ) -> Result<(), PrintError> {
        match value {
            ConstValue::Boolean(value) => BooleanLit::print(value, out, layout),
            ConstValue::Float(value) => FloatLit::print(value, out, layout),
            ConstValue::Integer(value) => IntegerLit::print(value, out, layout),
            ConstValue::Null(value) => Null::print(value, out, layout),
        }
    }
}

impl<'a> Print for Default<'a> {
    type Value = Self;

    ghost spelling = { default_spelling };

    fn print(value: &Default<'a>, out: &mut String, layout: &mut Layout) -> Result<(), PrintError> {
        two::<Assign, DefaultValue>(out, layout, &value.assign, &value.value)
    }
}
