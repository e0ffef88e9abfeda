//! What every reading of a part is made of.

ghost use Rattle.std.specs.Prelude.{◌<◌, ◌≤◌, length, IfOk};
ghost use Rattle.weedle_base.specs.Reading.{Answers, TakesSome};
ghost use Rattle.weedle_types.specs.Steps.{IsBoxed};

use std::alloc::Global;
use weedle_base::{Err, Error, IResult, Parse, out_of_memory};

/// Reads a part; what follows it is no longer than the text.
pub(crate) fn part<'a, T: Parse<'a>>(alloc: Global, input: &'a str) -> IResult<&'a str, T>
    ensures reads { Answers T.reading input.now result }
    ensures no_longer { IfOk result (λ x. length x.0.now ≤ length input.now) }
{
    T::parse(alloc, input)
}

/// Reads a part that takes a byte.
pub(crate) fn word<'a, T: Parse<'a>>(alloc: Global, input: &'a str) -> IResult<&'a str, T>
    requires { TakesSome T.reading }
    ensures reads { Answers T.reading input.now result }
    ensures shorter { IfOk result (λ x. length x.0.now < length input.now) }
{
    T::parse(alloc, input)
}

/// Puts a value that was read from `input` into a box.
#[tactic(auto, using(crate::proofs::Direct::out_here))]
pub(crate) fn boxed<'a, T: Drop>(
    alloc: Global,
    input: &'a str,
    value: T,
) -> Result<Box<T>, Err<Error<&'a str>>>
    ensures { IsBoxed input.now value result }
{
    match Box::new(alloc, value) {
        Ok(held) => Ok(held),
        Err(_) => Err(out_of_memory(input)),
    }
}
