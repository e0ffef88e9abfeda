//! A value of one of two types.

ghost use Rattle.weedle_base.specs.Generic.{choice_reading, seen_reading};
ghost use Rattle.weedle_base.specs.GenericLaws.{seen_lawful};
ghost use Rattle.weedle_base.specs.Choices.{choice_view};
ghost use Rattle.weedle_base.specs.ChoiceLaws.{choice_lawful};

use crate::fault::IResult;
use crate::parse::Parse;
use std::alloc::Global;

/// A value of the first of two types that fits a text: of the first, or of the second where the
/// first refuses the text. `Choice<T, Choice<U, V>>` is one of three.
#[derive(Drop)]
pub enum Choice<T, U> {
    /// A value of the first type.
    First(T),
    /// A value of the second type, where the first refuses the text.
    Second(U),
}

#[tactic(auto, using(crate::proofs::ChoiceSteps::choice_seen_steps))]
impl<'a, T: Parse<'a>, U: Parse<'a>> Parse<'a> for Choice<T, U> {
    ghost reading = { seen_reading choice_view (choice_reading T.reading U.reading) };

    fn parse(alloc: Global, input: &'a str) -> IResult<&'a str, Self> {
        if let (rest, Some(value)) = Option::parse(alloc, input)? {
            return Ok((rest, Choice::First(value)));
        }
        let (rest, value) = Parse::parse(alloc, input)?;
        Ok((rest, Choice::Second(value)))
    }

    ghost lawful = { seen_lawful choice_view (choice_reading T.reading U.reading)
        (choice_lawful T.reading U.reading T.lawful U.lawful) };
}
