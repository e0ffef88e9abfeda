//! What follows from the declarations of the module above.
//!
//! Written by tools/impls.py, and not edited by hand.

ghost use Rattle.std.specs.Prelude.{◌≡◌};

use super::{FloatLit, FloatValueLit};
use weedle_base::term::{Infinity, NaN, NegInfinity};

impl<'a> From<FloatValueLit<'a>> for FloatLit<'a> {
    ghost use Rattle.weedle_parts.specs.declared.literal.float.FloatLit.TheVariants.{Value};

    ghost from_gives = { λ value made. made ≡ Value value };

    fn from(value: FloatValueLit<'a>) -> Self {
        FloatLit::Value(value)
    }
}

impl From<NegInfinity> for FloatLit<'_> {
    ghost use Rattle.weedle_parts.specs.declared.literal.float.FloatLit.TheVariants.{NegInfinity};

    ghost from_gives = { λ value made. made ≡ NegInfinity value };

    fn from(value: NegInfinity) -> Self {
        FloatLit::NegInfinity(value)
    }
}

impl From<Infinity> for FloatLit<'_> {
    ghost use Rattle.weedle_parts.specs.declared.literal.float.FloatLit.TheVariants.{Infinity};

    ghost from_gives = { λ value made. made ≡ Infinity value };

    fn from(value: Infinity) -> Self {
        FloatLit::Infinity(value)
    }
}

impl From<NaN> for FloatLit<'_> {
    ghost use Rattle.weedle_parts.specs.declared.literal.float.FloatLit.TheVariants.{NaN};

    ghost from_gives = { λ value made. made ≡ NaN value };

    fn from(value: NaN) -> Self {
        FloatLit::NaN(value)
    }
}
