//! Names, docstrings, literals and types that hold no other.
//!
//! Written by tools/prints.py, and not edited by hand.

ghost use Rattle.weedle_spell.specs.Leaves.{
  dec_spelling,
  docstring_spelling,
  float_value_spelling,
  hex_spelling,
  identifier_spelling,
  oct_spelling,
  string_spelling,
};
ghost use Rattle.weedle_spell.specs.Literals.{
  boolean_spelling,
  const_value_spelling,
  default_spelling,
  default_value_spelling,
  empty_array_spelling,
  empty_dictionary_spelling,
  float_spelling,
  integer_spelling,
};
ghost use Rattle.weedle_spell.specs.SimpleTypes.{
  const_type_spelling,
  double_type_spelling,
  float_type_spelling,
  floating_point_type_spelling,
  integer_type_spelling,
  long_long_type_spelling,
  long_type_spelling,
  short_type_spelling,
};

use crate::write::WriteIdl;
use weedle_parts::common::{Docstring, Identifier};
use weedle_parts::literal::{
    BooleanLit, ConstValue, DecLit, Default, DefaultValue, EmptyArrayLit, EmptyDictionaryLit,
    FloatLit, FloatValueLit, HexLit, IntegerLit, OctLit, StringLit,
};
use weedle_parts::types::{
    ConstType, DoubleType, FloatType, FloatingPointType, IntegerType, LongLongType, LongType,
    ShortType,
};
use weedle_print::{Layout, Print, PrintError};

impl WriteIdl for Docstring {
    ghost spelling = { docstring_spelling };

    fn write_part(&self, out: &mut String, layout: &mut Layout) -> Result<(), PrintError> {
        Docstring::print(self, out, layout)
    }
}

impl<'a> WriteIdl for Identifier<'a> {
    ghost spelling = { identifier_spelling };

    fn write_part(&self, out: &mut String, layout: &mut Layout) -> Result<(), PrintError> {
        Identifier::<'a>::print(self, out, layout)
    }
}

impl WriteIdl for BooleanLit {
    ghost spelling = { boolean_spelling };

    fn write_part(&self, out: &mut String, layout: &mut Layout) -> Result<(), PrintError> {
        BooleanLit::print(self, out, layout)
    }
}

impl<'a> WriteIdl for Default<'a> {
    ghost spelling = { default_spelling };

    fn write_part(&self, out: &mut String, layout: &mut Layout) -> Result<(), PrintError> {
        Default::<'a>::print(self, out, layout)
    }
}

impl WriteIdl for EmptyArrayLit {
    ghost spelling = { empty_array_spelling };

    fn write_part(&self, out: &mut String, layout: &mut Layout) -> Result<(), PrintError> {
        EmptyArrayLit::print(self, out, layout)
    }
}

impl WriteIdl for EmptyDictionaryLit {
    ghost spelling = { empty_dictionary_spelling };

    fn write_part(&self, out: &mut String, layout: &mut Layout) -> Result<(), PrintError> {
        EmptyDictionaryLit::print(self, out, layout)
    }
}

impl<'a> WriteIdl for FloatValueLit<'a> {
    ghost spelling = { float_value_spelling };

    fn write_part(&self, out: &mut String, layout: &mut Layout) -> Result<(), PrintError> {
        FloatValueLit::<'a>::print(self, out, layout)
    }
}

impl<'a> WriteIdl for FloatLit<'a> {
    ghost spelling = { float_spelling };

    fn write_part(&self, out: &mut String, layout: &mut Layout) -> Result<(), PrintError> {
        FloatLit::<'a>::print(self, out, layout)
    }
}

impl<'a> WriteIdl for DecLit<'a> {
    ghost spelling = { dec_spelling };

    fn write_part(&self, out: &mut String, layout: &mut Layout) -> Result<(), PrintError> {
        DecLit::<'a>::print(self, out, layout)
    }
}

impl<'a> WriteIdl for HexLit<'a> {
    ghost spelling = { hex_spelling };

    fn write_part(&self, out: &mut String, layout: &mut Layout) -> Result<(), PrintError> {
        HexLit::<'a>::print(self, out, layout)
    }
}

impl<'a> WriteIdl for OctLit<'a> {
    ghost spelling = { oct_spelling };

    fn write_part(&self, out: &mut String, layout: &mut Layout) -> Result<(), PrintError> {
        OctLit::<'a>::print(self, out, layout)
    }
}

impl<'a> WriteIdl for IntegerLit<'a> {
    ghost spelling = { integer_spelling };

    fn write_part(&self, out: &mut String, layout: &mut Layout) -> Result<(), PrintError> {
        IntegerLit::<'a>::print(self, out, layout)
    }
}

impl<'a> WriteIdl for StringLit<'a> {
    ghost spelling = { string_spelling };

    fn write_part(&self, out: &mut String, layout: &mut Layout) -> Result<(), PrintError> {
        StringLit::<'a>::print(self, out, layout)
    }
}

impl<'a> WriteIdl for DefaultValue<'a> {
    ghost spelling = { default_value_spelling };

    fn write_part(&self, out: &mut String, layout: &mut Layout) -> Result<(), PrintError> {
        DefaultValue::<'a>::print(self, out, layout)
    }
}

impl<'a> WriteIdl for ConstValue<'a> {
    ghost spelling = { const_value_spelling };

    fn write_part(&self, out: &mut String, layout: &mut Layout) -> Result<(), PrintError> {
        ConstValue::<'a>::print(self, out, layout)
    }
}

impl<'a> WriteIdl for ConstType<'a> {
    ghost spelling = { const_type_spelling };

    fn write_part(&self, out: &mut String, layout: &mut Layout) -> Result<(), PrintError> {
        ConstType::<'a>::print(self, out, layout)
    }
}

impl WriteIdl for FloatType {
    ghost spelling = { float_type_spelling };

    fn write_part(&self, out: &mut String, layout: &mut Layout) -> Result<(), PrintError> {
        FloatType::print(self, out, layout)
    }
}

impl WriteIdl for DoubleType {
    ghost spelling = { double_type_spelling };

    fn write_part(&self, out: &mut String, layout: &mut Layout) -> Result<(), PrintError> {
        DoubleType::print(self, out, layout)
    }
}

impl WriteIdl for FloatingPointType {
    ghost spelling = { floating_point_type_spelling };

    fn write_part(&self, out: &mut String, layout: &mut Layout) -> Result<(), PrintError> {
        FloatingPointType::print(self, out, layout)
    }
}

impl WriteIdl for LongLongType {
    ghost spelling = { long_long_type_spelling };

    fn write_part(&self, out: &mut String, layout: &mut Layout) -> Result<(), PrintError> {
        LongLongType::print(self, out, layout)
    }
}

impl WriteIdl for LongType {
    ghost spelling = { long_type_spelling };

    fn write_part(&self, out: &mut String, layout: &mut Layout) -> Result<(), PrintError> {
        LongType::print(self, out, layout)
    }
}

impl WriteIdl for ShortType {
    ghost spelling = { short_type_spelling };

    fn write_part(&self, out: &mut String, layout: &mut Layout) -> Result<(), PrintError> {
        ShortType::print(self, out, layout)
    }
}

impl WriteIdl for IntegerType {
    ghost spelling = { integer_type_spelling };

    fn write_part(&self, out: &mut String, layout: &mut Layout) -> Result<(), PrintError> {
        IntegerType::print(self, out, layout)
    }
}
