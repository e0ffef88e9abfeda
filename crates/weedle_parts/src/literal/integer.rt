//! Whole numbers.

ghost use Rattle.std.specs.Prelude.{[]};
ghost use Rattle.weedle_grammar.specs.written.Table.Leaves.{
  DEC_LIT,
  DEC_LIT_TEXT,
  HEX_LIT,
  HEX_LIT_TEXT,
  OCT_LIT,
  OCT_LIT_TEXT,
  OPT_BYTES_MINUS,
};
ghost use Rattle.weedle_grammar.specs.written.Table.Literals.{INTEGER_LIT};
ghost use Rattle.weedle_base.specs.Own.{own};
ghost use Rattle.weedle_base.specs.OwnLaws.{own_lawful};
ghost use Rattle.weedle_grammar.specs.Trivia.{Took, Trial};
ghost use Rattle.weedle_parts.specs.LiteralTrees.{dec_tree, hex_tree, oct_tree, integer_tree};

mod written;

use std::alloc::Global;
use weedle_base::{IResult, Parse, mismatch};
use weedle_grammar::scan::{after_one, after_run, after_word, taken};
use weedle_grammar::trivia::skip_trivia;
use weedle_grammar::{Class, Rule};

/// A decimal number, as `-12`: a digit other than `0` and any digits, perhaps behind a `-`.
/// Anything else is a mismatch, as `012` is.
#[derive(Clone, Copy, Debug, PartialEq, Eq, PartialOrd, Ord, Hash)]
pub struct DecLit<'a>(pub &'a str);

impl<'a> Parse<'a> for DecLit<'a> {
    ghost reading = { own DEC_LIT dec_tree ⊥ };

    fn parse(_alloc: Global, input: &'a str) -> IResult<&'a str, Self> {
        let start = skip_trivia(input);
        match after_dec(start) {
            Some(rest) => Ok((
                skip_trivia(rest),
                DecLit(taken(Rule::DEC_LIT_TEXT, start, rest)),
            )),
            None => Err(mismatch(input)),
        }
    }

    ghost lawful = { own_lawful DEC_LIT dec_tree ⊥ };
}

/// A hexadecimal number, as `-0x1F`. Without the `0x`, or a digit behind it, it is a
/// mismatch.
#[derive(Clone, Copy, Debug, PartialEq, Eq, PartialOrd, Ord, Hash)]
pub struct HexLit<'a>(pub &'a str);

impl<'a> Parse<'a> for HexLit<'a> {
    ghost reading = { own HEX_LIT hex_tree ⊥ };

    fn parse(_alloc: Global, input: &'a str) -> IResult<&'a str, Self> {
        let start = skip_trivia(input);
        match after_hex(start) {
            Some(rest) => Ok((
                skip_trivia(rest),
                HexLit(taken(Rule::HEX_LIT_TEXT, start, rest)),
            )),
            None => Err(mismatch(input)),
        }
    }

    ghost lawful = { own_lawful HEX_LIT hex_tree ⊥ };
}

/// An octal number, as `-017` or `0`. It ends before the first byte that is no octal digit, so `08`
/// is `0` and an `8` that stays unread. Without a leading `0` it is a mismatch.
#[derive(Clone, Copy, Debug, PartialEq, Eq, PartialOrd, Ord, Hash)]
pub struct OctLit<'a>(pub &'a str);

impl<'a> Parse<'a> for OctLit<'a> {
    ghost reading = { own OCT_LIT oct_tree ⊥ };

    fn parse(_alloc: Global, input: &'a str) -> IResult<&'a str, Self> {
        let start = skip_trivia(input);
        match after_oct(start) {
            Some(rest) => Ok((
                skip_trivia(rest),
                OctLit(taken(Rule::OCT_LIT_TEXT, start, rest)),
            )),
            None => Err(mismatch(input)),
        }
    }

    ghost lawful = { own_lawful OCT_LIT oct_tree ⊥ };
}

/// A whole number, as `-12`, `0x1F` or `017`: the first of the three forms that fits. Anything else
/// is a mismatch.
#[derive(Clone, Copy, Debug, PartialEq, Eq, PartialOrd, Ord, Hash)]
pub enum IntegerLit<'a> {
    /// A decimal number, as `-12`.
    Dec(DecLit<'a>),
    /// A hexadecimal number, as `0x1F`.
    Hex(HexLit<'a>),
    /// An octal number, as `017`.
    Oct(OctLit<'a>),
}

#[tactic(auto, using(crate::proofs::IntegerLitRules::integer_steps))]
impl<'a> Parse<'a> for IntegerLit<'a> {
    ghost reading = { own INTEGER_LIT integer_tree ⊥ };

    fn parse(alloc: Global, input: &'a str) -> IResult<&'a str, Self> {
        if let (rest, Some(member)) = Option::parse(alloc, input)? {
            return Ok((rest, IntegerLit::Dec(member)));
        }
        if let (rest, Some(member)) = Option::parse(alloc, input)? {
            return Ok((rest, IntegerLit::Hex(member)));
        }
        let (rest, member) = Parse::parse(alloc, input)?;
        Ok((rest, IntegerLit::Oct(member)))
    }

    ghost lawful = { own_lawful INTEGER_LIT integer_tree ⊥ };
}

/// What follows a minus sign at the front of the text, or the text itself.
pub(crate) fn skip_minus(input: &str) -> &str
    ensures { Took OPT_BYTES_MINUS input.now [] result.now }
{
    after_word(Rule::BYTES_MINUS, "-", input).unwrap_or(input)
}

/// What follows a decimal number.
fn after_dec(input: &str) -> Option<&str>
    ensures { Trial DEC_LIT_TEXT input.now result }
{
    let unsigned = skip_minus(input);
    let first = after_one(Rule::ONE_OF_ONE_TO_NINE, Class::OneToNine, unsigned)?;
    Some(after_run(Rule::RUN_DIGIT, Class::Digit, first))
}

/// What follows a hexadecimal number. It has a digit at least behind its `x`.
fn after_hex(input: &str) -> Option<&str>
    ensures { Trial HEX_LIT_TEXT input.now result }
{
    let unsigned = skip_minus(input);
    let zero = after_word(Rule::BYTES_ZERO, "0", unsigned)?;
    let letter = after_one(Rule::ONE_OF_X_LETTER, Class::XLetter, zero)?;
    let first = after_one(Rule::ONE_OF_HEX, Class::Hex, letter)?;
    Some(after_run(Rule::RUN_HEX, Class::Hex, first))
}

/// What follows an octal number.
fn after_oct(input: &str) -> Option<&str>
    ensures { Trial OCT_LIT_TEXT input.now result }
{
    let unsigned = skip_minus(input);
    let zero = after_word(Rule::BYTES_ZERO, "0", unsigned)?;
    Some(after_run(Rule::RUN_OCTAL, Class::Octal, zero))
}
