//! Two types of a user of the crates, at which the generic parts are tested.

ghost use Rattle.weedle_leaf_rows.specs.Users.{nothing_reading, fuse_reading};
ghost use Rattle.weedle_leaf_rows.specs.UserLaws.{nothing_lawful, fuse_lawful};

use std::alloc::Global;
use weedle_base::{Err, Error, ErrorKind, IResult, Parse, mismatch};

/// A type that is read from every text, and takes nothing.
#[derive(Clone, Copy, Debug, Default, PartialEq, Eq)]
pub struct Nothing;

impl<'a> Parse<'a> for Nothing {
    ghost reading = { nothing_reading };

    fn parse(_alloc: Global, input: &'a str) -> IResult<&'a str, Self> {
        Ok((input, Nothing))
    }

    ghost lawful = { nothing_lawful };
}

/// A type that ends the call where a `!` is, and is a mismatch on every other text.
#[derive(Clone, Copy, Debug, Default, PartialEq, Eq)]
pub struct Fuse;

#[tactic(auto, using(weedle_base::proofs::FaultFacts::fault_mismatch, weedle_base::proofs::PlaceFacts::suffix_self))]
impl<'a> Parse<'a> for Fuse {
    ghost reading = { fuse_reading };

    fn parse(_alloc: Global, input: &'a str) -> IResult<&'a str, Self> {
        if input.as_bytes().first().is_some_and(|byte| *byte == b'!') {
            return Err(Err::Failure(Error {
                input,
                code: ErrorKind::Unread,
            }));
        }
        Err(mismatch(input))
    }

    ghost lawful = { fuse_lawful };
}
