//! Numbers with a point or an exponent, and the words among floats.

ghost use Rattle.std.specs.Prelude.{[]};
ghost use Rattle.weedle_grammar.specs.written.Table.Leaves.{
  DIGITS,
  OPT_ONE_OF_SIGN,
  EXPONENT,
  OPT_EXPONENT,
  POINT_AFTER_DIGITS,
  POINT_BEFORE_DIGITS,
  POINT,
  POINT_FORM,
  EXPONENT_FORM,
  FLOAT_FORM,
  FLOAT_VALUE_LIT,
  FLOAT_VALUE_LIT_TEXT,
};
ghost use Rattle.weedle_grammar.specs.written.Table.Literals.{FLOAT_LIT};
ghost use Rattle.weedle_base.specs.Own.{own};
ghost use Rattle.weedle_base.specs.OwnLaws.{own_lawful};
ghost use Rattle.weedle_grammar.specs.Trivia.{Took, Trial};
ghost use Rattle.weedle_parts.specs.LiteralTrees.{float_value_tree, float_tree};

mod written;

use crate::literal::integer::skip_minus;
use std::alloc::Global;
use weedle_base::term::{Infinity, NaN, NegInfinity};
use weedle_base::{IResult, Parse, mismatch};
use weedle_grammar::scan::{after_one, after_run, after_word, taken};
use weedle_grammar::trivia::skip_trivia;
use weedle_grammar::{Class, Rule};

/// A number with a point or an exponent, as `-.5E+3`, `5.` or `1e3`. An exponent without digits is
/// left, so `1.5e` is `1.5` and an `e` that stays unread. Without a point and an exponent it is a
/// mismatch, as `5` is.
#[derive(Clone, Copy, Debug, PartialEq, Eq, PartialOrd, Ord, Hash)]
pub struct FloatValueLit<'a>(pub &'a str);

impl<'a> Parse<'a> for FloatValueLit<'a> {
    ghost reading = { own FLOAT_VALUE_LIT float_value_tree ⊥ };

    fn parse(_alloc: Global, input: &'a str) -> IResult<&'a str, Self> {
        let start = skip_trivia(input);
        match after_float(start) {
            Some(rest) => Ok((
                skip_trivia(rest),
                FloatValueLit(taken(Rule::FLOAT_VALUE_LIT_TEXT, start, rest)),
            )),
            None => Err(mismatch(input)),
        }
    }

    ghost lawful = { own_lawful FLOAT_VALUE_LIT float_value_tree ⊥ };
}

/// A float, as `-.5E+3` or `-Infinity`: a number with a point or an exponent, or one of the three
/// words. Anything else is a mismatch, as `5` or `Infinityx` is.
#[derive(Clone, Copy, Debug, PartialEq, Eq, PartialOrd, Ord, Hash)]
pub enum FloatLit<'a> {
    /// A number with a point or an exponent, as `1.5`.
    Value(FloatValueLit<'a>),
    /// The word `-Infinity`.
    NegInfinity(NegInfinity),
    /// The word `Infinity`.
    Infinity(Infinity),
    /// The word `NaN`.
    NaN(NaN),
}

#[tactic(auto, using(crate::proofs::FloatLitRules::float_steps))]
impl<'a> Parse<'a> for FloatLit<'a> {
    ghost reading = { own FLOAT_LIT float_tree ⊥ };

    fn parse(alloc: Global, input: &'a str) -> IResult<&'a str, Self> {
        if let (rest, Some(member)) = Option::parse(alloc, input)? {
            return Ok((rest, FloatLit::Value(member)));
        }
        if let (rest, Some(member)) = Option::parse(alloc, input)? {
            return Ok((rest, FloatLit::NegInfinity(member)));
        }
        if let (rest, Some(member)) = Option::parse(alloc, input)? {
            return Ok((rest, FloatLit::Infinity(member)));
        }
        let (rest, member) = Parse::parse(alloc, input)?;
        Ok((rest, FloatLit::NaN(member)))
    }

    ghost lawful = { own_lawful FLOAT_LIT float_tree ⊥ };
}

/// What follows one digit or more.
fn after_digits(input: &str) -> Option<&str>
    ensures { Trial DIGITS input.now result }
{
    let first = after_one(Rule::ONE_OF_DIGIT, Class::Digit, input)?;
    Some(after_run(Rule::RUN_DIGIT, Class::Digit, first))
}

/// What follows a `+` or a `-`, or the input where there is none.
fn skip_sign(input: &str) -> &str
    ensures { Took OPT_ONE_OF_SIGN input.now [] result.now }
{
    after_one(Rule::ONE_OF_SIGN, Class::Sign, input).unwrap_or(input)
}

/// What follows an exponent, as `e+3`.
fn after_exponent(input: &str) -> Option<&str>
    ensures { Trial EXPONENT input.now result }
{
    let letter = after_one(Rule::ONE_OF_E_LETTER, Class::ELetter, input)?;
    let unsigned = skip_sign(letter);
    after_digits(unsigned)
}

/// What follows an exponent, or the input where there is none.
fn skip_exponent(input: &str) -> &str
    ensures { Took OPT_EXPONENT input.now [] result.now }
{
    after_exponent(input).unwrap_or(input)
}

/// What follows a number with digits before its point.
fn after_digits_point(input: &str) -> Option<&str>
    ensures { Trial POINT_AFTER_DIGITS input.now result }
{
    let whole = after_digits(input)?;
    let point = after_word(Rule::BYTES_DOT, ".", whole)?;
    Some(after_run(Rule::RUN_DIGIT, Class::Digit, point))
}

/// What follows a number with digits behind its point.
fn after_point_digits(input: &str) -> Option<&str>
    ensures { Trial POINT_BEFORE_DIGITS input.now result }
{
    let whole = after_run(Rule::RUN_DIGIT, Class::Digit, input);
    let point = after_word(Rule::BYTES_DOT, ".", whole)?;
    after_digits(point)
}

/// What follows a number with a point.
fn after_point(input: &str) -> Option<&str>
    ensures { Trial POINT input.now result }
{
    if let Some(rest) = after_digits_point(input) {
        return Some(rest);
    }
    after_point_digits(input)
}

/// What follows a number with a point, and an exponent that may be absent.
fn after_float_point(input: &str) -> Option<&str>
    ensures { Trial POINT_FORM input.now result }
{
    let number = after_point(input)?;
    Some(skip_exponent(number))
}

/// What follows digits and an exponent.
fn after_float_whole(input: &str) -> Option<&str>
    ensures { Trial EXPONENT_FORM input.now result }
{
    let whole = after_digits(input)?;
    after_exponent(whole)
}

/// What follows the first of the two forms that fits.
fn after_float_form(input: &str) -> Option<&str>
    ensures { Trial FLOAT_FORM input.now result }
{
    if let Some(rest) = after_float_point(input) {
        return Some(rest);
    }
    after_float_whole(input)
}

/// What follows a number with a point or an exponent.
fn after_float(input: &str) -> Option<&str>
    ensures { Trial FLOAT_VALUE_LIT_TEXT input.now result }
{
    let unsigned = skip_minus(input);
    after_float_form(unsigned)
}
