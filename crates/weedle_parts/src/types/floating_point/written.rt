//! What follows from the declarations of the module above.
//!
//! Written by tools/impls.py, and not edited by hand.

ghost use Rattle.std.specs.Prelude.{◌≡◌};

use super::{DoubleType, FloatType, FloatingPointType};

impl From<FloatType> for FloatingPointType {
    ghost use Rattle.weedle_parts.specs.declared.types.floating_point.FloatingPointType.TheVariants.{
      Float,
    };

    ghost from_gives = { λ value made. made ≡ Float value };

    fn from(value: FloatType) -> Self {
        FloatingPointType::Float(value)
    }
}

impl From<DoubleType> for FloatingPointType {
    ghost use Rattle.weedle_parts.specs.declared.types.floating_point.FloatingPointType.TheVariants.{
      Double,
    };

    ghost from_gives = { λ value made. made ≡ Double value };

    fn from(value: DoubleType) -> Self {
        FloatingPointType::Double(value)
    }
}
