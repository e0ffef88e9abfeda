//! The names in the types of arguments.
#![tactic(auto, using(crate::proofs::NameFacts::name_steps, weedle_types::proofs::TreeLaws::clone_steps))]

ghost use Rattle.std.specs.Prelude.{◌≡◌, ◌++◌, OnOk, flat_map};
ghost use Rattle.weedle_view.specs.TypeNames.{names_in_argument, names_in_arguments};

use super::attributes::push_attributes;
use super::types::{push_attributed_type, push_type};
use std::alloc::AllocError;
use weedle_parts::common::Identifier;
use weedle_types::argument::{Argument, ParenthesizedArgumentList};

/// Adds the names in arguments in parentheses.
#[cycle(names)]
pub(crate) fn push_arguments<'a>(
    arguments: &ParenthesizedArgumentList<'a>,
    names: &mut Vec<Identifier<'a>>,
) -> Result<(), AllocError>
    ensures { OnOk result (names.new.items ≡ names.old.items ++ names_in_arguments arguments.now) }
{
    push_argument_items(&arguments.body.list, names)
}

/// Adds the names in arguments one after another.
#[cycle(names)]
#[tactic(auto, using(crate::proofs::NameFacts::name_steps, weedle_types::proofs::TreeLaws::clone_steps, weedle_types::proofs::Smaller::argument_smaller))]
pub(crate) fn push_argument_items<'a>(
    arguments: &Vec<Argument<'a>>,
    names: &mut Vec<Identifier<'a>>,
) -> Result<(), AllocError>
    ensures { OnOk result
        (names.new.items ≡ names.old.items ++ flat_map names_in_argument arguments.now.items) }
{
    for argument in arguments {
        push_argument(argument, names)?;
    }
    Ok(())
}

/// Adds the names in an argument.
#[cycle(names)]
pub(crate) fn push_argument<'a>(
    argument: &Argument<'a>,
    names: &mut Vec<Identifier<'a>>,
) -> Result<(), AllocError>
    ensures { OnOk result (names.new.items ≡ names.old.items ++ names_in_argument argument.now) }
{
    match argument {
        Argument::Single(argument) => {
            push_attributes(&argument.attributes, names)?;
            push_attributed_type(&argument.type_, names)
        }
        Argument::Variadic(argument) => {
            push_attributes(&argument.attributes, names)?;
            push_type(&argument.type_, names)
        }
    }
}
