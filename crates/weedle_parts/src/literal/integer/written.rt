//! What follows from the declarations of the module above.
//!
//! Written by tools/impls.py, and not edited by hand.

ghost use Rattle.std.specs.Prelude.{◌≡◌};

use super::{DecLit, HexLit, IntegerLit, OctLit};

impl<'a> From<DecLit<'a>> for IntegerLit<'a> {
    ghost use Rattle.weedle_parts.specs.declared.literal.integer.IntegerLit.TheVariants.{Dec};

    ghost from_gives = { λ value made. made ≡ Dec value };

    fn from(value: DecLit<'a>) -> Self {
        IntegerLit::Dec(value)
    }
}

impl<'a> From<HexLit<'a>> for IntegerLit<'a> {
    ghost use Rattle.weedle_parts.specs.declared.literal.integer.IntegerLit.TheVariants.{Hex};

    ghost from_gives = { λ value made. made ≡ Hex value };

    fn from(value: HexLit<'a>) -> Self {
        IntegerLit::Hex(value)
    }
}

impl<'a> From<OctLit<'a>> for IntegerLit<'a> {
    ghost use Rattle.weedle_parts.specs.declared.literal.integer.IntegerLit.TheVariants.{Oct};

    ghost from_gives = { λ value made. made ≡ Oct value };

    fn from(value: OctLit<'a>) -> Self {
        IntegerLit::Oct(value)
    }
}
