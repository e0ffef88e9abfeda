//! What is refused of a text, and where a call is ended.

use crate::rows::Unlike;
use std::alloc::Global;
use weedle_base::{Err, Error, ErrorKind, IResult, Parse};

/// Whether the answer is a mismatch.
pub fn is_mismatch<'a, T>(answer: &IResult<&'a str, T>) -> bool {
    matches!(
        answer,
        Err(Err::Error(Error {
            code: ErrorKind::Mismatch,
            ..
        }))
    )
}

/// Whether the answer is a failure with code `Unread` at this input, as a user's type gives one.
pub fn is_failure<'a, T>(answer: &IResult<&'a str, T>, input: &str) -> bool {
    match answer {
        Err(Err::Failure(error)) => error.input == input && error.code == ErrorKind::Unread,
        _ => false,
    }
}

/// Whether each text is a mismatch. An error says of which it isn't so.
pub fn refuses<'a, T: Parse<'a>>(alloc: Global, texts: &[&'a str]) -> Result<(), Unlike<'a>> {
    for text in texts {
        if !is_mismatch(&T::parse(alloc, text)) {
            return Err(Unlike::NoMismatch(text));
        }
    }
    Ok(())
}

/// Whether the call with the text is ended by a failure with code `Unread` at this input. An error
/// names the text where it isn't.
pub fn fails_at<'a, T: Parse<'a>>(
    alloc: Global,
    text: &'a str,
    input: &str,
) -> Result<(), Unlike<'a>> {
    if is_failure(&T::parse(alloc, text), input) {
        Ok(())
    } else {
        Err(Unlike::NoFailure(text))
    }
}
