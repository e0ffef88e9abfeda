//! `Parse` for the standard library's types.

ghost use Rattle.weedle_base.specs.Generic.{
  option_reading,
  pair_reading,
  boxed_reading,
  seen_reading,
};
ghost use Rattle.weedle_base.specs.GenericLaws.{
  option_lawful,
  pair_lawful,
  boxed_lawful,
  seen_lawful,
};
ghost use Rattle.weedle_base.specs.Runs.{run_reading, vec_step};
ghost use Rattle.weedle_base.specs.RunLaws.{run_lawful, vec_step_lawful};

use crate::fault::{Err, IResult, mismatch, out_of_memory};
use crate::parse::Parse;
use std::alloc::Global;

#[tactic(auto, using(crate::proofs::Steps::took_nothing), unfolding(crate::specs::Generic::option_reading))]
impl<'a, T: Parse<'a>> Parse<'a> for Option<T> {
    ghost reading = { option_reading T.reading };

    fn parse(alloc: Global, input: &'a str) -> IResult<&'a str, Self> {
        match T::parse(alloc, input) {
            Ok((rest, value)) => Ok((rest, Some(value))),
            Err(Err::Error(_)) => Ok((input, None)),
            Err(fault) => Err(fault),
        }
    }

    ghost lawful = { option_lawful T.reading T.lawful };
}

#[tactic(auto, using(crate::proofs::Steps::part_steps))]
impl<'a, T: Parse<'a>, U: Parse<'a>> Parse<'a> for (T, U) {
    ghost reading = { pair_reading T.reading U.reading };

    fn parse(alloc: Global, input: &'a str) -> IResult<&'a str, Self> {
        let (rest, first) = T::parse(alloc, input)?;
        let (rest, second) = U::parse(alloc, rest)?;
        Ok((rest, (first, second)))
    }

    ghost lawful = { pair_lawful T.reading U.reading T.lawful U.lawful };
}

#[tactic(auto, using(crate::proofs::PlaceFacts::suffix_self, crate::proofs::FaultFacts::fault_memory), unfolding(crate::specs::Generic::boxed_reading))]
impl<'a, T: Parse<'a>> Parse<'a> for Box<T> {
    ghost reading = { boxed_reading (λ b. b.value) T.reading };

    fn parse(alloc: Global, input: &'a str) -> IResult<&'a str, Self> {
        let (rest, value) = T::parse(alloc, input)?;
        match Box::new(alloc, value) {
            Ok(held) => Ok((rest, held)),
            Err(_) => Err(out_of_memory(input)),
        }
    }

    ghost lawful = { boxed_lawful (λ b. b.value) T.reading T.lawful };
}

impl<'a, T: Parse<'a>> Parse<'a> for Vec<T> {
    ghost reading = { run_reading (λ v. v.items) (vec_step T.reading) };

    fn parse(alloc: Global, input: &'a str) -> IResult<&'a str, Self> {
        let mut list = Vec::new(alloc);
        let mut rest = input;
        loop {
            let (after, read) = Option::<T>::parse(alloc, rest)?;
            let Some(item) = read else {
                list.shrink_to_fit();
                return Ok((rest, list));
            };
            if after.len() == rest.len() {
                return Err(mismatch(rest));
            }
            if list.push(item).is_err() {
                return Err(out_of_memory(rest));
            }
            rest = after;
        }
    }

    ghost lawful = { run_lawful (λ v. v.items) (vec_step T.reading)
        (vec_step_lawful T.reading T.lawful) };
}

#[tactic(auto, using(crate::proofs::Steps::seen_steps))]
impl<'a, T: Parse<'a>, U: Parse<'a>, V: Parse<'a>> Parse<'a> for (T, U, V) {
    ghost reading = { seen_reading (λ x. (x.0, (x.1, x.2)))
        (pair_reading T.reading (pair_reading U.reading V.reading)) };

    fn parse(alloc: Global, input: &'a str) -> IResult<&'a str, Self> {
        let (rest, first) = T::parse(alloc, input)?;
        let (rest, second) = U::parse(alloc, rest)?;
        let (rest, third) = V::parse(alloc, rest)?;
        Ok((rest, (first, second, third)))
    }

    ghost lawful = { seen_lawful (λ x. (x.0, (x.1, x.2))) (pair_reading T.reading
        (pair_reading U.reading V.reading)) (pair_lawful T.reading
        (pair_reading U.reading V.reading) T.lawful
        (pair_lawful U.reading V.reading U.lawful V.lawful)) };
}
