//! Literals.

pub use weedle_parts::literal::{
    BooleanLit, ConstValue, DecLit, DefaultValue, EmptyArrayLit, EmptyDictionaryLit, FloatLit,
    FloatValueLit, HexLit, IntegerLit, OctLit, StringLit,
};
