//! The words that may be before a member of an interface.
//!
//! None of them takes memory, so none ever gives a failure.
//!
//! ```rust
//! use weedle_base::Parse;
//! use weedle_base::term::Getter;
//! use weedle_parts::modifier::Special;
//!
//! let (rest, special) = Special::parse(rt.alloc(), "getter any (long i);").expect(rt, "special");
//! assert!(rt; rest == "any (long i);" && special == Special::Getter(Getter));
//! ```

mod written;

use weedle_base::term::{Deleter, Getter, Inherit, LegacyCaller, Setter, Static, Stringifier};

/// The word of a special operation, as `getter`: one of four. It takes no memory and never gives a
/// failure.
#[derive(Clone, Copy, Debug, PartialEq, Eq, PartialOrd, Ord, Hash)]
pub enum Special {
    /// The word `getter`.
    Getter(Getter),
    /// The word `setter`.
    Setter(Setter),
    /// The word `deleter`.
    Deleter(Deleter),
    /// The word `legacycaller`.
    LegacyCaller(LegacyCaller),
}

/// The word before an attribute, as `static`: one of three. It takes no memory and never gives a
/// failure.
#[derive(Clone, Copy, Debug, PartialEq, Eq, PartialOrd, Ord, Hash)]
pub enum StringifierOrInheritOrStatic {
    /// The word `stringifier`.
    Stringifier(Stringifier),
    /// The word `inherit`.
    Inherit(Inherit),
    /// The word `static`.
    Static(Static),
}

/// The word before an operation, as `stringifier` or `static`. It takes no memory and never gives a
/// failure.
#[derive(Clone, Copy, Debug, PartialEq, Eq, PartialOrd, Ord, Hash)]
pub enum StringifierOrStatic {
    /// The word `stringifier`.
    Stringifier(Stringifier),
    /// The word `static`.
    Static(Static),
}
