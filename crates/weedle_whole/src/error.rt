//! Why a text is not written anew.

ghost use Rattle.std.specs.Prelude.{◌≡◌};
ghost use Rattle.weedle_whole.specs.declared.error.WholeError.TheVariants.{Memory};

use std::alloc::AllocError;
use std::error::Error;
use std::fmt;
use weedle_print_idl::PrintError;

/// Why [`write_whole`](crate::write_whole) has no answer.
#[derive(Clone, Copy, Debug, PartialEq, Eq)]
pub enum WholeError {
    /// Memory was refused.
    Memory,
    /// What was written isn't read as equal definitions, so it isn't given.
    Differs,
}

impl fmt::Display for WholeError {
    fn fmt<W: fmt::Write>(&self, f: &mut fmt::Formatter<W>) -> fmt::Result {
        match self {
            WholeError::Memory => write!(f, "out of memory"),
            WholeError::Differs => write!(f, "what is written isn't read as equal definitions"),
        }
    }
}

impl Error for WholeError {}

impl From<AllocError> for WholeError {
    ghost from_gives = { λ _ e. e ≡ Memory };

    fn from(_refused: AllocError) -> WholeError {
        WholeError::Memory
    }
}

impl From<PrintError> for WholeError {
    fn from(error: PrintError) -> WholeError {
        match error {
            PrintError::Memory => WholeError::Memory,
            PrintError::NoText => WholeError::Differs,
        }
    }
}
