//! The messages of the faults of a run.

ghost use Rattle.std.specs.Prelude.{Some};
ghost use Rattle.weedle_front.specs.FaultTexts.{fault_text};

use crate::program::RunFault;
use std::error;
use std::fmt::{self, Display, Formatter, Write};

/// Says why a run ended, as `input is not UTF-8`: what the program writes on standard error.
impl Display for RunFault {
    ghost output = { λ fault. Some (fault_text fault) };

    fn fmt<W: Write>(&self, f: &mut Formatter<W>) -> fmt::Result {
        f.write_str(match self {
            RunFault::NotUtf8 => "input is not UTF-8",
            RunFault::Memory => "out of memory",
            RunFault::Input => "cannot read input",
            RunFault::Output => "cannot write output",
        })
    }
}

impl error::Error for RunFault {}
