//! Parts that both kinds of asynchronous iterations have.

ghost use Rattle.weedle_base.specs.Own.{own};
ghost use Rattle.weedle_base.specs.Reading.{Answers};
ghost use Rattle.weedle_iterables.specs.written.PartTrees.{
  async_iterable_tree,
  optional_arguments_tree,
};
ghost use Rattle.weedle_grammar.specs.written.Table.InterfaceMembers.{
  ASYNC_ITERABLE,
  OPT_PARENTHESIZED_ARGUMENT_LIST,
};

use std::alloc::Global;
use weedle_base::term::{Async, Iterable};
use weedle_base::{IResult, Parse};
use weedle_types::argument::ParenthesizedArgumentList;

/// Reads arguments where present.
pub(crate) fn optional_arguments<'a>(
    alloc: Global,
    input: &'a str,
) -> IResult<&'a str, Option<ParenthesizedArgumentList<'a>>>
    ensures { Answers (own OPT_PARENTHESIZED_ARGUMENT_LIST optional_arguments_tree (Unit {0}))
        input.now result }
{
    Option::parse(alloc, input)
}

/// Reads the words `async iterable`. It takes no memory.
pub(crate) fn async_iterable<'a>(
    alloc: Global,
    input: &'a str,
) -> IResult<&'a str, (Async, Iterable)>
    ensures { Answers (own ASYNC_ITERABLE async_iterable_tree ⊥) input.now result }
{
    Parse::parse(alloc, input)
}
