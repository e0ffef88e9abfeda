//! What follows from the declarations of the module above.
//!
//! Written by tools/impls.py, and not edited by hand.

ghost use Rattle.std.specs.Prelude.{◌≡◌};

use super::{Argument, SingleArgument, VariadicArgument};

impl<'a> From<SingleArgument<'a>> for Argument<'a> {
    ghost use Rattle.weedle_types.specs.declared.argument.Argument.TheVariants.{Single};

    ghost from_gives = { λ v e. e ≡ Single v };

    fn from(value: SingleArgument<'a>) -> Self {
        Argument::Single(value)
    }
}

impl<'a> From<VariadicArgument<'a>> for Argument<'a> {
    ghost use Rattle.weedle_types.specs.declared.argument.Argument.TheVariants.{Variadic};

    ghost from_gives = { λ v e. e ≡ Variadic v };

    fn from(value: VariadicArgument<'a>) -> Self {
        Argument::Variadic(value)
    }
}
