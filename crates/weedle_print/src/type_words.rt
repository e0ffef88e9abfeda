//! The words of types that are words.

ghost use Rattle.weedle_print.specs.Words.{
  long_long_words,
  long_words,
  short_words,
  integer_words,
  float_words,
  double_words,
  floating_point_words,
};

use crate::words::Words;
use weedle_parts::types::{
    DoubleType, FloatType, FloatingPointType, IntegerType, LongLongType, LongType, ShortType,
};

impl Words for LongLongType {
    ghost words = { long_long_words };

    fn as_str(&self) -> &'static str {
        match self.unsigned {
            Some(_) => "unsigned long long",
            None => "long long",
        }
    }
}

impl Words for LongType {
    ghost words = { long_words };

    fn as_str(&self) -> &'static str {
        match self.unsigned {
            Some(_) => "unsigned long",
            None => "long",
        }
    }
}

impl Words for ShortType {
    ghost words = { short_words };

    fn as_str(&self) -> &'static str {
        match self.unsigned {
            Some(_) => "unsigned short",
            None => "short",
        }
    }
}

impl Words for IntegerType {
    ghost words = { integer_words };

    fn as_str(&self) -> &'static str {
        match self {
            IntegerType::LongLong(type_) => type_.as_str(),
            IntegerType::Long(type_) => type_.as_str(),
            IntegerType::Short(type_) => type_.as_str(),
        }
    }
}

impl Words for FloatType {
    ghost words = { float_words };

    fn as_str(&self) -> &'static str {
        match self.unrestricted {
            Some(_) => "unrestricted float",
            None => "float",
        }
    }
}

impl Words for DoubleType {
    ghost words = { double_words };

    fn as_str(&self) -> &'static str {
        match self.unrestricted {
            Some(_) => "unrestricted double",
            None => "double",
        }
    }
}

impl Words for FloatingPointType {
    ghost words = { floating_point_words };

    fn as_str(&self) -> &'static str {
        match self {
            FloatingPointType::Float(type_) => type_.as_str(),
            FloatingPointType::Double(type_) => type_.as_str(),
        }
    }
}
