//! Why a call that takes a dialect has no answer.

ghost use Rattle.std.specs.Prelude.{◌≡◌};
ghost use Rattle.weedle_refusal.specs.declared.error.DialectError.TheVariants.{Memory};

use std::alloc::AllocError;
use std::error::Error;
use std::fmt;

/// Why a text isn't explained, or isn't divided into parts, by the rules of a dialect.
#[derive(Clone, Copy, Debug, PartialEq, Eq)]
pub enum DialectError {
    /// Memory was refused.
    Memory,
    /// Descent would try too many rules, or too many in one another, as of some 50 `sequence<` that
    /// are open. By weedle2's rules such a text is read over a packrat table, which today's rules
    /// don't have.
    TooDeep,
}

impl fmt::Display for DialectError {
    fn fmt<W: fmt::Write>(&self, f: &mut fmt::Formatter<W>) -> fmt::Result {
        match self {
            DialectError::Memory => write!(f, "out of memory"),
            DialectError::TooDeep => write!(f, "the text nests too deep"),
        }
    }
}

impl Error for DialectError {}

impl From<AllocError> for DialectError {
    ghost from_gives = { λ _ e. e ≡ Memory };

    fn from(_refused: AllocError) -> DialectError {
        DialectError::Memory
    }
}
