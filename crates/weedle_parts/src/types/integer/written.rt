//! What follows from the declarations of the module above.
//!
//! Written by tools/impls.py, and not edited by hand.

ghost use Rattle.std.specs.Prelude.{◌≡◌};

use super::{IntegerType, LongLongType, LongType, ShortType};

impl From<LongLongType> for IntegerType {
    ghost use Rattle.weedle_parts.specs.declared.types.integer.IntegerType.TheVariants.{LongLong};

    ghost from_gives = { λ value made. made ≡ LongLong value };

    fn from(value: LongLongType) -> Self {
        IntegerType::LongLong(value)
    }
}

impl From<LongType> for IntegerType {
    ghost use Rattle.weedle_parts.specs.declared.types.integer.IntegerType.TheVariants.{Long};

    ghost from_gives = { λ value made. made ≡ Long value };

    fn from(value: LongType) -> Self {
        IntegerType::Long(value)
    }
}

impl From<ShortType> for IntegerType {
    ghost use Rattle.weedle_parts.specs.declared.types.integer.IntegerType.TheVariants.{Short};

    ghost from_gives = { λ value made. made ≡ Short value };

    fn from(value: ShortType) -> Self {
        IntegerType::Short(value)
    }
}
