//! The reading of a type from a text.

ghost use Rattle.weedle_base.specs.Reading.{Reading, Answers, IsLawful};

use crate::fault::IResult;
use std::alloc::Global;

/// A type that is read from the front of a text.
///
/// `reading` says what a type reads: which value from which text and how many bytes of it, where it
/// refuses, and where a call may end with a failure. `lawful` is the proof that a text has at most
/// one value and remaining input, that nothing is both given and refused, and that a text is only
/// cut where a character begins.
pub trait Parse<'a>: Sized + Drop {
    ghost reading: { Reading Self };

    /// Reads a value from the front of `input`, and answers what follows it, then the value.
    ///
    /// `Err::Error` says that the text doesn't fit, `Err::Failure` that the call had to end, as
    /// where memory runs out. The input is as it was after either.
    fn parse(alloc: Global, input: &'a str) -> IResult<&'a str, Self>
        ensures { Answers reading input.now result };

    ghost lawful: { IsLawful reading };
}
