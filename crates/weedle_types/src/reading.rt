//! How the types that lead back to themselves are read: one function for each rule of the grammar,
//! and one for the items of a list after the first. They call one another, with no limit on how
//! deep.
//!
//! Each call reads either a shorter text, or the same text by a rule of a smaller number, so every
//! call ends.

/// Tries what reads an alternative. Where that fits, the function that calls this returns what was
/// read, as the variant that is named behind it, and where it is a failure, the failure. Behind a
/// mismatch it goes on with what follows.
macro_rules! read_or_next {
    ($read:expr) => {
        match $read {
            Ok((rest, member)) => return Ok((rest, member)),
            Err(Err::Error(_)) => {}
            Err(Err::Failure(e)) => return Err(Err::Failure(e)),
        }
    };
    ($read:expr, $kind:ident :: $variant:ident) => {
        match $read {
            Ok((rest, member)) => return Ok((rest, $kind::$variant(member))),
            Err(Err::Error(_)) => {}
            Err(Err::Failure(e)) => return Err(Err::Failure(e)),
        }
    };
}

pub(crate) mod arguments;
pub(crate) mod attributes;
pub(crate) mod generic_types;
mod plain_types;
mod steps;
pub(crate) mod types;
pub(crate) mod unions;
