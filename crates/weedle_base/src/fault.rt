//! Why a text was not read.

ghost use Rattle.weedle_base.specs.Faults.{IsMismatch, IsOutOfMemory};

/// What a fault is.
#[derive(Clone, Copy, Debug, PartialEq, Eq)]
pub enum ErrorKind {
    /// The text isn't what was looked for.
    Mismatch,
    /// Text was left over.
    Unread,
    /// Memory was refused.
    Memory,
}

/// A place of the input, by the text from there on, and what happened.
#[derive(Clone, Copy, Debug, PartialEq, Eq)]
pub struct Error<I> {
    /// The text from that place on.
    pub input: I,
    /// What happened.
    pub code: ErrorKind,
}

/// What ends a call that reads.
#[derive(Clone, Copy, Debug, PartialEq, Eq)]
pub enum Err<E> {
    /// The text doesn't fit: another alternative may be tried.
    Error(E),
    /// The call is to end at once: nothing else is tried.
    Failure(E),
}

/// What follows the text that was read, and the value that was read from it.
pub type IResult<I, O> = Result<(I, O), Err<Error<I>>>;

/// The fault of a text that doesn't fit, which names this place. It takes no memory.
pub fn mismatch(input: &str) -> Err<Error<&str>>
    ensures { IsMismatch input.now result }
{
    Err::Error(Error {
        input,
        code: ErrorKind::Mismatch,
    })
}

/// The failure of a call to which memory was refused, which names this place. It takes no memory.
pub fn out_of_memory(input: &str) -> Err<Error<&str>>
    ensures { IsOutOfMemory input.now result }
{
    Err::Failure(Error {
        input,
        code: ErrorKind::Memory,
    })
}
