//! Clones of arguments.
#![tactic(auto, using(crate::proofs::TreeLaws::clone_steps))]

ghost use Rattle.std.specs.Prelude.{◌≡◌, IfOk, map};
ghost use Rattle.weedle_types.specs.Trees.{
  argument_tree,
  arguments_tree,
  single_argument_tree,
  variadic_argument_tree,
};

use super::attributes::clone_attributes;
use super::types::{clone_attributed_type, clone_type};
use crate::argument::{Argument, ParenthesizedArgumentList, SingleArgument, VariadicArgument};
use std::alloc::{AllocError, Global};
use weedle_parts::common::Punctuated;

/// Clones an argument, as `long x`, or `long... xs` for any number of them.
#[cycle(clones)]
pub(crate) fn clone_argument<'a>(
    original: &Argument<'a>,
    alloc: Global,
) -> Result<Argument<'a>, AllocError>
    ensures { IfOk result (λ v. argument_tree v ≡ argument_tree original.now) }
{
    match original {
        Argument::Single(member) => Ok(Argument::Single(clone_single_argument(member, alloc)?)),
        Argument::Variadic(member) => Ok(Argument::Variadic(clone_variadic_argument(
            member, alloc,
        )?)),
    }
}

/// Clones an argument, as `optional long x = 5`.
#[cycle(clones)]
pub(crate) fn clone_single_argument<'a>(
    original: &SingleArgument<'a>,
    alloc: Global,
) -> Result<SingleArgument<'a>, AllocError>
    ensures { IfOk result (λ v. single_argument_tree v ≡ single_argument_tree original.now) }
{
    Ok(SingleArgument {
        attributes: clone_attributes(&original.attributes, alloc)?,
        optional: original.optional,
        type_: clone_attributed_type(&original.type_, alloc)?,
        identifier: original.identifier,
        default: original.default,
    })
}

/// Clones any number of arguments, as `long... xs`.
#[cycle(clones)]
pub(crate) fn clone_variadic_argument<'a>(
    original: &VariadicArgument<'a>,
    alloc: Global,
) -> Result<VariadicArgument<'a>, AllocError>
    ensures { IfOk result (λ v. variadic_argument_tree v ≡ variadic_argument_tree original.now) }
{
    Ok(VariadicArgument {
        attributes: clone_attributes(&original.attributes, alloc)?,
        type_: clone_type(&original.type_, alloc)?,
        ellipsis: original.ellipsis,
        identifier: original.identifier,
    })
}

/// Clones arguments in parentheses, as `(long x, long y)`.
#[cycle(clones)]
pub(crate) fn clone_arguments<'a>(
    original: &ParenthesizedArgumentList<'a>,
    alloc: Global,
) -> Result<ParenthesizedArgumentList<'a>, AllocError>
    ensures { IfOk result (λ v. arguments_tree v ≡ arguments_tree original.now) }
{
    Ok(ParenthesizedArgumentList {
        open_paren: original.open_paren,
        body: Punctuated {
            list: clone_argument_items(&original.body.list, alloc)?,
            separator: original.body.separator,
        },
        close_paren: original.close_paren,
    })
}

/// Clones arguments, in their order.
#[cycle(clones)]
#[tactic(auto, using(crate::proofs::TreeLaws::clone_steps, crate::proofs::Smaller::argument_smaller))]
pub(crate) fn clone_argument_items<'a>(
    original: &Vec<Argument<'a>>,
    alloc: Global,
) -> Result<Vec<Argument<'a>>, AllocError>
    ensures { IfOk result (λ v. map argument_tree v.items ≡ map argument_tree original.now.items) }
{
    let mut clones = Vec::new(alloc);
    for item in original {
        clones.push(clone_argument(item, alloc)?)?;
    }
    Ok(clones)
}
