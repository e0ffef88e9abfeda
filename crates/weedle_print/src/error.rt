//! Why a value wasn't written.

ghost use Rattle.std.specs.Prelude.{◌≡◌};
ghost use Rattle.weedle_print.specs.declared.error.PrintError.TheVariants.{Memory};

use std::alloc::AllocError;
use std::error::Error;
use std::fmt;

/// Why a value wasn't written.
#[derive(Clone, Copy, Debug, PartialEq, Eq)]
pub enum PrintError {
    /// Memory was refused.
    Memory,
    /// No text is a rendering of the value: a name isn't one, as `a b`, a string has a quote in it,
    /// a number is none, an enum has no values, or an argument has a default and isn't optional. A
    /// value that was read has a text.
    NoText,
}

impl fmt::Display for PrintError {
    fn fmt<W: fmt::Write>(&self, f: &mut fmt::Formatter<W>) -> fmt::Result {
        match self {
            PrintError::Memory => write!(f, "out of memory"),
            PrintError::NoText => write!(f, "no text spells the value"),
        }
    }
}

impl Error for PrintError {}

impl From<AllocError> for PrintError {
    ghost from_gives = { λ _ e. e ≡ Memory };

    fn from(_refused: AllocError) -> PrintError {
        PrintError::Memory
    }
}
