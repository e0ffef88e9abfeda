//! Arguments.

ghost use Rattle.weedle_grammar.specs.written.Table.Types.{
  ARGUMENT,
  ARGUMENT_LIST,
  PARENTHESIZED_ARGUMENT_LIST,
  SINGLE_ARGUMENT,
  VARIADIC_ARGUMENT,
};
ghost use Rattle.weedle_types.specs.Trees.{
  argument_list_tree,
  argument_tree,
  arguments_tree,
  single_argument_tree,
  variadic_argument_tree,
};
ghost use Rattle.weedle_build_base.specs.Built.{Answers, Due};

use super::super::steps::{keep, optional};
use super::attributes::attributes;
use super::kinds::{attributed_type, type_};
use std::alloc::Global;
use weedle_base::term::{CloseParen, Comma, Ellipsis, OpenParen, Optional};
use weedle_build_base::{At, Build, BuildResult, Table, choice, visit};
use weedle_parts::common::{Identifier, Punctuated};
use weedle_parts::literal::Default;
use weedle_rules::Rule;
use weedle_types::argument::{
    Argument, ArgumentList, ParenthesizedArgumentList, SingleArgument, VariadicArgument,
};

/// Builds an argument, as `long x` or `long... xs`.
#[cycle(group)]
pub(crate) fn argument<'a>(alloc: Global, table: Table<'_, 'a>, at: At) -> BuildResult<Argument<'a>>
    requires { Due table.text.now ARGUMENT at.place }
    ensures { Answers table.entry.text.now ARGUMENT argument_tree at.place at.visits result }
{
    match choice(table, Rule::ARGUMENT, at.place) {
        0 => {
            let (member, at) = single_argument(alloc, table, at)?;
            Ok((Argument::Single(member), visit(at)))
        }
        1 => {
            let (member, at) = variadic_argument(alloc, table, at)?;
            Ok((Argument::Variadic(member), visit(at)))
        }
        _ => unreachable!(),
    }
}

/// Builds an argument, as `optional long x = 5`; its default only behind `optional`.
#[cycle(group)]
pub(crate) fn single_argument<'a>(
    alloc: Global,
    table: Table<'_, 'a>,
    at: At,
) -> BuildResult<SingleArgument<'a>>
    requires { Due table.text.now SINGLE_ARGUMENT at.place }
    ensures { Answers table.entry.text.now SINGLE_ARGUMENT single_argument_tree at.place at.visits
        result }
{
    let (attributes, at) = attributes(alloc, table, at)?;
    let (modifier, at) = optional::<Optional>(alloc, table, Rule::OPTIONAL, at)?;
    let (type_, at) = attributed_type(alloc, table, at)?;
    let (identifier, at) = Identifier::build(alloc, table, Rule::IDENTIFIER, at)?;
    match modifier {
        Some(word) => {
            let (default, at) = optional::<Default>(alloc, table, Rule::DEFAULT, at)?;
            let argument = SingleArgument {
                attributes,
                optional: Some(word),
                type_,
                identifier,
                default,
            };
            Ok((argument, visit(at)))
        }
        None => {
            let argument = SingleArgument {
                attributes,
                optional: None,
                type_,
                identifier,
                default: None,
            };
            Ok((argument, visit(visit(at))))
        }
    }
}

/// Builds any number of arguments, as `long... xs`.
#[cycle(group)]
pub(crate) fn variadic_argument<'a>(
    alloc: Global,
    table: Table<'_, 'a>,
    at: At,
) -> BuildResult<VariadicArgument<'a>>
    requires { Due table.text.now VARIADIC_ARGUMENT at.place }
    ensures { Answers table.entry.text.now VARIADIC_ARGUMENT variadic_argument_tree at.place
        at.visits result }
{
    let (attributes, at) = attributes(alloc, table, at)?;
    let (type_, at) = type_(alloc, table, at)?;
    let (ellipsis, at) = Ellipsis::build(alloc, table, Rule::ELLIPSIS, at)?;
    let (identifier, at) = Identifier::build(alloc, table, Rule::IDENTIFIER, at)?;
    Ok((
        VariadicArgument {
            attributes,
            type_,
            ellipsis,
            identifier,
        },
        visit(at),
    ))
}

/// Builds arguments in parentheses, as `(long x, long y)`.
#[cycle(group)]
pub(crate) fn arguments<'a>(
    alloc: Global,
    table: Table<'_, 'a>,
    at: At,
) -> BuildResult<ParenthesizedArgumentList<'a>>
    requires { Due table.text.now PARENTHESIZED_ARGUMENT_LIST at.place }
    ensures { Answers table.entry.text.now PARENTHESIZED_ARGUMENT_LIST arguments_tree at.place
        at.visits result }
{
    let (open_paren, at) = OpenParen::build(alloc, table, Rule::OPEN_PAREN, at)?;
    let (body, at) = argument_list(alloc, table, at)?;
    let (close_paren, at) = CloseParen::build(alloc, table, Rule::CLOSE_PAREN, at)?;
    Ok((
        ParenthesizedArgumentList {
            open_paren,
            body,
            close_paren,
        },
        visit(at),
    ))
}

/// Builds arguments, as `long x, long y`, none included.
#[cycle(group)]
pub(crate) fn argument_list<'a>(
    alloc: Global,
    table: Table<'_, 'a>,
    at: At,
) -> BuildResult<ArgumentList<'a>>
    requires { Due table.text.now ARGUMENT_LIST at.place }
    ensures { Answers table.entry.text.now ARGUMENT_LIST argument_list_tree at.place at.visits
        result }
{
    let mut list = Vec::new(alloc);
    let separator = Comma;
    let Some(_) = table.end(Rule::ARGUMENT, at.place) else {
        return Ok((Punctuated { list, separator }, visit(at)));
    };
    let mut here = keep(&mut list, argument(alloc, table, at))?;
    while let Some(behind) = table.end(Rule::COMMA, here.place) {
        let Some(_) = table.end(Rule::ARGUMENT, behind) else {
            return Ok((Punctuated { list, separator }, visit(here)));
        };
        let start = At {
            place: behind,
            visits: here.visits,
        };
        here = keep(&mut list, argument(alloc, table, start))?;
    }
    Ok((Punctuated { list, separator }, visit(here)))
}
