//! The byte at which a fault is.

ghost use Rattle.std.specs.Prelude.{◌≡◌, ◌-◌, ◌≤◌, length};
ghost use Rattle.weedle_base.specs.Faults.{IsWithin, IsAtByte};

use crate::fault::{Err, Error};

/// The fault, with the byte of the text at which it is in place of what is there: of the text
/// `interface A {}; ?` and a fault whose input is `?` one whose input is 16. It owns nothing of the
/// text, and takes no memory.
///
/// The text is the one whose reading ended with the fault.
pub fn at_byte(text: &str, fault: Err<Error<&str>>) -> Err<Error<usize>>
    requires { IsWithin text.now fault }
    ensures { IsAtByte text.now fault.entry result }
{
    match fault {
        Err::Error(error) => Err::Error(error_at_byte(text, error)),
        Err::Failure(error) => Err::Failure(error_at_byte(text, error)),
    }
}

fn error_at_byte(text: &str, error: Error<&str>) -> Error<usize>
    requires { length error.input.now ≤ length text.now }
    ensures input { result.input ≡ length text.now - length error.entry.input.now }
    ensures code { result.code ≡ error.entry.code }
{
    Error {
        input: text.len() - error.input.len(),
        code: error.code,
    }
}
