//! Why a run ends, or the work on a file, with no answer.

ghost use Rattle.std.specs.Prelude.{◌≡◌};
ghost use Rattle.weedle_program.specs.Statuses.{outcome_of};

use crate::outcome::Outcome;
use std::alloc::AllocError;
use std::fmt::{self, Display, Formatter, Write};
use std::io::{self, ErrorKind};

/// Why a run ends, or the work on a file, with no answer.
#[derive(Debug, Drop)]
pub enum Fault {
    /// The file can't be opened or read, or the clock can't.
    Input(io::Error),
    /// What was read is no text.
    NotUtf8,
    /// Memory was refused.
    Memory,
    /// The file can't be replaced.
    Replace(io::Error),
    /// The output can't be written.
    Output,
    /// What was read has no text. No text is known of which that is so.
    NoText,
    /// What is asked for is read by descent alone, and the text nests too deep for that.
    TooDeep,
    /// The arguments ask for nothing that the program does: this is its usage.
    Usage(&'static str),
}

impl Fault {
    /// What is wrong with an input that gives this error. Where the error is that memory is
    /// refused, it is no fault of the input.
    pub fn of_input(error: io::Error) -> Fault {
        if error.kind() == ErrorKind::OutOfMemory {
            Fault::Memory
        } else {
            Fault::Input(error)
        }
    }

    /// What is wrong with a file that can't be replaced for this error. Where the error is that
    /// memory is refused, it is no fault of the file.
    pub fn of_file(error: io::Error) -> Fault {
        if error.kind() == ErrorKind::OutOfMemory {
            Fault::Memory
        } else {
            Fault::Replace(error)
        }
    }

    /// What a run with this fault comes to.
    pub fn outcome(&self) -> Outcome
        ensures { result ≡ outcome_of self.now }
    {
        match self {
            Fault::Input(_) | Fault::NotUtf8 => Outcome::Unreadable,
            Fault::Memory => Outcome::NoMemory,
            Fault::TooDeep => Outcome::Refused,
            Fault::Replace(_) | Fault::Output | Fault::NoText => Outcome::Unwritten,
            Fault::Usage(_) => Outcome::Misused,
        }
    }
}

impl From<AllocError> for Fault {
    fn from(_error: AllocError) -> Fault {
        Fault::Memory
    }
}

/// What fails with it is a write to the output, or the making of the room for one: all other calls
/// say by themselves what their errors are.
impl From<io::Error> for Fault {
    fn from(error: io::Error) -> Fault {
        if error.kind() == ErrorKind::OutOfMemory {
            Fault::Memory
        } else {
            Fault::Output
        }
    }
}

/// Says it, as `input is not UTF-8`.
impl Display for Fault {
    fn fmt<W: Write>(&self, f: &mut Formatter<W>) -> fmt::Result {
        match self {
            Fault::Input(error) => write!(f, "cannot read input: {error}"),
            Fault::NotUtf8 => f.write_str("input is not UTF-8"),
            Fault::Memory => f.write_str("out of memory"),
            Fault::Replace(error) => write!(f, "cannot replace the file: {error}"),
            Fault::Output => f.write_str("cannot write output"),
            Fault::NoText => f.write_str("cannot write a value: no text says it"),
            Fault::TooDeep => f.write_str("nests too deep for today's rules"),
            Fault::Usage(usage) => f.write_str(usage),
        }
    }
}
