//! Arguments.

ghost use Rattle.std.specs.Prelude.{◌<◌, ◌≤◌, length, IfOk};
ghost use Rattle.weedle_base.specs.Own.{own};
ghost use Rattle.weedle_base.specs.Reading.{Answers};
ghost use Rattle.weedle_parts.specs.Lists.{after_first};
ghost use Rattle.weedle_grammar.specs.written.Table.Types.{
  ARGUMENT,
  ARGUMENT_LIST,
  PARENTHESIZED_ARGUMENT_LIST,
  SINGLE_ARGUMENT,
  VARIADIC_ARGUMENT,
};
ghost use Rattle.weedle_types.specs.Separators.{comma_reading};
ghost use Rattle.weedle_types.specs.Trees.{
  argument_list_tree,
  argument_tree,
  arguments_tree,
  single_argument_tree,
  variadic_argument_tree,
};

use super::attributes::attributes;
use super::steps::{part, word};
use super::types::{attributed_type, type_};
use crate::argument::{
    Argument, ArgumentList, ParenthesizedArgumentList, SingleArgument, VariadicArgument,
};
use std::alloc::Global;
use weedle_base::term::Comma;
use weedle_base::{Err, IResult, out_of_memory};
use weedle_parts::common::Punctuated;

/// Reads an argument, as `long x` or `long... xs`.
#[cycle(group)]
#[tactic(auto, using(crate::proofs::written::ArgumentRules::argument_steps))]
pub(crate) fn argument<'a>(alloc: Global, input: &'a str) -> IResult<&'a str, Argument<'a>>
    ensures reads { Answers (own ARGUMENT argument_tree (Unit {0})) input.now result }
    ensures shorter { IfOk result (λ x. length x.0.now < length input.now) }
{
    read_or_next!(single_argument(alloc, input), Argument::Single);
    let (rest, member) = variadic_argument(alloc, input)?;
    Ok((rest, Argument::Variadic(member)))
}

/// Reads an argument, as `optional long x = 5`; its default only behind `optional`.
#[cycle(group)]
#[tactic(auto, using(crate::proofs::written::ArgumentRules::single_argument_steps))]
pub(crate) fn single_argument<'a>(
    alloc: Global,
    input: &'a str,
) -> IResult<&'a str, SingleArgument<'a>>
    ensures reads { Answers (own SINGLE_ARGUMENT single_argument_tree (Unit {0})) input.now result }
    ensures shorter { IfOk result (λ x. length x.0.now < length input.now) }
{
    let (rest, attributes) = attributes(alloc, input)?;
    let (rest, optional) = part(alloc, rest)?;
    let (rest, type_) = attributed_type(alloc, rest)?;
    let (rest, identifier) = part(alloc, rest)?;
    match optional {
        Some(word) => {
            let (rest, default) = part(alloc, rest)?;
            Ok((
                rest,
                SingleArgument {
                    attributes,
                    optional: Some(word),
                    type_,
                    identifier,
                    default,
                },
            ))
        }
        None => Ok((
            rest,
            SingleArgument {
                attributes,
                optional: None,
                type_,
                identifier,
                default: None,
            },
        )),
    }
}

/// Reads any number of arguments, as `long... xs`.
#[cycle(group)]
#[tactic(auto, using(crate::proofs::written::ArgumentRules::variadic_argument_steps))]
pub(crate) fn variadic_argument<'a>(
    alloc: Global,
    input: &'a str,
) -> IResult<&'a str, VariadicArgument<'a>>
    ensures reads { Answers (own VARIADIC_ARGUMENT variadic_argument_tree (Unit {0})) input.now
        result }
    ensures shorter { IfOk result (λ x. length x.0.now < length input.now) }
{
    let (rest, attributes) = attributes(alloc, input)?;
    let (rest, type_) = type_(alloc, rest)?;
    let (rest, ellipsis) = part(alloc, rest)?;
    let (rest, identifier) = part(alloc, rest)?;
    Ok((
        rest,
        VariadicArgument {
            attributes,
            type_,
            ellipsis,
            identifier,
        },
    ))
}

/// Reads arguments in parentheses, as `(long x, long y)`.
#[cycle(group)]
#[tactic(auto, using(crate::proofs::written::ArgumentRules::arguments_steps))]
pub(crate) fn arguments<'a>(
    alloc: Global,
    input: &'a str,
) -> IResult<&'a str, ParenthesizedArgumentList<'a>>
    ensures reads { Answers (own PARENTHESIZED_ARGUMENT_LIST arguments_tree (Unit {0})) input.now
        result }
    ensures shorter { IfOk result (λ x. length x.0.now < length input.now) }
{
    let (rest, open_paren) = word(alloc, input)?;
    let (rest, body) = argument_list(alloc, rest)?;
    let (rest, close_paren) = part(alloc, rest)?;
    Ok((
        rest,
        ParenthesizedArgumentList {
            open_paren,
            body,
            close_paren,
        },
    ))
}

/// Reads arguments, as `long x, long y`, none included.
#[cycle(group)]
#[tactic(auto, using(crate::proofs::written::ArgumentRules::argument_list_steps))]
pub(crate) fn argument_list<'a>(alloc: Global, input: &'a str) -> IResult<&'a str, ArgumentList<'a>>
    ensures reads { Answers (own ARGUMENT_LIST argument_list_tree (Unit {0})) input.now result }
    ensures no_longer { IfOk result (λ x. length x.0.now ≤ length input.now) }
{
    match argument(alloc, input) {
        Ok((rest, first)) => {
            let (rest, mut list) = more_arguments(alloc, first, rest)?;
            list.shrink_to_fit();
            Ok((
                rest,
                Punctuated {
                    list,
                    separator: Comma,
                },
            ))
        }
        Err(Err::Error(_)) => {
            let list = Vec::new(alloc);
            Ok((
                input,
                Punctuated {
                    list,
                    separator: Comma,
                },
            ))
        }
        Err(Err::Failure(e)) => Err(Err::Failure(e)),
    }
}

/// Reads the arguments after the first, each behind a comma.
#[cycle(group)]
#[tactic(auto, using(weedle_base::proofs::TakesFacts::own_takes))]
pub(crate) fn more_arguments<'a>(
    alloc: Global,
    first: Argument<'a>,
    input: &'a str,
) -> IResult<&'a str, Vec<Argument<'a>>>
    ensures reads { Answers
        (after_first (own ARGUMENT argument_tree (Unit {0})) comma_reading (λ l. l.items)
        first.entry) input.now result }
    ensures no_longer { IfOk result (λ x. length x.0.now ≤ length input.now) }
{
    let mut list = Vec::new(alloc);
    if list.push(first).is_err() {
        return Err(out_of_memory(input));
    }
    let mut rest = input;
    'items: loop {
        let after = match word::<Comma>(alloc, rest) {
            Ok((after, _)) => after,
            Err(Err::Error(_)) => return Ok((rest, list)),
            Err(Err::Failure(e)) => return Err(Err::Failure(e)),
        };
        match argument(alloc, after) {
            Ok((next, item)) => {
                if list.push(item).is_err() {
                    return Err(out_of_memory(rest));
                }
                rest = next;
            }
            Err(Err::Error(_)) => return Ok((rest, list)),
            Err(Err::Failure(e)) => return Err(Err::Failure(e)),
        }
    }
}
