//! Dialects as numbers. `include/weedle.h` has a name for each.

ghost use Rattle.std.specs.Prelude.{◌≡◌};
ghost use Rattle.weedle_c.specs.Dialects.{dialect_of as the_dialect_of};
ghost use Rattle.weedle_syntax.specs.declared.dialect.Dialect.TheVariants.{Weedle2};

use weedle_syntax::Dialect;

/// weedle2's rules.
pub const WEEDLE2: u32 = 0;

/// Today's, which read what weedle2's read, and more.
pub const TODAY: u32 = 1;

/// The dialect of a number, which is no greater than [`TODAY`].
pub(crate) fn dialect_of(number: u32) -> Dialect
    ensures is { result ≡ the_dialect_of number }
    ensures weedle2 { number ≡ WEEDLE2 → result ≡ Weedle2 }
{
    if number == WEEDLE2 {
        Dialect::Weedle2
    } else {
        Dialect::Today
    }
}
