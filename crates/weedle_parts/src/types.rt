//! The types that hold no other types. What each type reads is in words in docs/GRAMMAR.md.

mod const_type;
mod floating_point;
mod integer;
mod may_be_null;

pub use const_type::ConstType;
pub use floating_point::{DoubleType, FloatType, FloatingPointType};
pub use integer::{IntegerType, LongLongType, LongType, ShortType};
pub use may_be_null::MayBeNull;
