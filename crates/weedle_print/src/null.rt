//! Types that may be null.

ghost use Rattle.std.specs.Prelude.{◌↔◌, IsSome, IsTrue};

use weedle_parts::types::MayBeNull;

/// What may be null.
pub trait Nullable {
    ghost may_be_null: { Self → Type 0 };

    /// Whether `?` follows the type, as in `long?`. It takes no memory.
    fn is_nullable(&self) -> bool
        ensures { IsTrue result ↔ may_be_null self.now };
}

impl<T> Nullable for MayBeNull<T> {
    ghost may_be_null = { λ v. IsSome v.q_mark };

    fn is_nullable(&self) -> bool {
        self.q_mark.is_some()
    }
}
