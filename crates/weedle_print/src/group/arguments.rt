//! Arguments.
#![tactic(auto, using(crate::proofs::AddsFacts::adds_then, crate::proofs::VariantFacts::variant_steps, weedle_types::proofs::TreeLaws::clone_steps))]

ghost use Rattle.std.specs.Prelude.{codes, OnOk, string_bytes};
ghost use Rattle.weedle_print.specs.Adds.{Adds};
ghost use Rattle.weedle_spell.specs.Forms.{◌then◌, separated_by};
ghost use Rattle.weedle_spell.specs.Tokens.{word as the_word};
ghost use Rattle.weedle_spell.specs.RecursiveTypes.{argument_spelling};
ghost use Rattle.weedle_spell.specs.written.Arguments.{
  arguments_spelling,
  single_argument_spelling,
  variadic_argument_spelling,
};

use super::attributes::print_attributes;
use super::types::{print_attributed_type, print_type};
use crate::defaults::print_default;
use crate::error::PrintError;
use crate::layout::Layout;
use crate::list::{close_list, separate};
use crate::print::Print;
use crate::texts::{push, word};
use weedle_base::term::{Ellipsis, Optional};
use weedle_parts::common::Identifier;
use weedle_types::argument::{
    Argument, ParenthesizedArgumentList, SingleArgument, VariadicArgument,
};

/// Writes arguments in parentheses, as `(long x, long y)`: on the line where they fit, else each on
/// a line.
#[cycle(prints)]
#[tactic(auto, using(crate::proofs::AddsFacts::adds_then, crate::proofs::AddsFacts::adds_copied, weedle_types::proofs::TreeLaws::clone_steps))]
pub(crate) fn print_arguments(
    arguments: &ParenthesizedArgumentList<'_>,
    out: &mut String,
    layout: &mut Layout,
) -> Result<(), PrintError>
    ensures { OnOk result
        (Adds (arguments_spelling arguments.now) (string_bytes out.old) (string_bytes out.new)) }
{
    layout.join_arguments();
    word(out, layout, "(")?;
    let start = *layout;
    layout.try_flat();
    if start.is_flat() || arguments.body.list.is_empty() {
        push_arguments(&arguments.body.list, out, layout)?;
        layout.end_try(&start);
        return Ok(());
    }
    let mut text = String::new(*out.allocator());
    push_arguments(&arguments.body.list, &mut text, layout)?;
    layout.end_try(&start);
    if layout.fits(&start, 1) {
        return push(out, text.as_str());
    }
    let width = layout.break_list(&start);
    push_arguments(&arguments.body.list, out, layout)?;
    layout.end_list(&start, width);
    Ok(())
}

/// Writes arguments with commas between them, and the parenthesis behind them. Where each has a
/// line, it is first written on a line alone.
#[cycle(prints)]
#[tactic(auto, using(crate::proofs::AddsFacts::adds_then, crate::proofs::SeparatedFacts::separated_steps, weedle_types::proofs::TreeLaws::clone_steps, weedle_types::proofs::Smaller::argument_smaller))]
pub(crate) fn push_arguments(
    arguments: &Vec<Argument<'_>>,
    out: &mut String,
    layout: &mut Layout,
) -> Result<(), PrintError>
    ensures { OnOk result
        (Adds (separated_by argument_spelling (the_word (codes ",")) arguments.now.items then
        the_word (codes ")"))
        (string_bytes out.old) (string_bytes out.new)) }
{
    let mut is_first = true;
    let mut left = arguments.len();
    for argument in arguments {
        separate(is_first, out, layout, ",")?;
        layout.begin_item();
        left = left.saturating_sub(1);
        let start = *layout;
        if !layout.is_flat() {
            let mut text = String::new(*out.allocator());
            layout.try_line();
            print_argument(argument, &mut text, layout)?;
            layout.end_line_try(&start, if left > 0 { 1 } else { 0 });
        }
        print_argument(argument, out, layout)?;
        layout.end_item(&start);
        is_first = false;
    }
    close_list(out, layout, ")")
}

/// Writes an argument, as `optional long x = 5` or `long... x`.
#[cycle(prints)]
pub(crate) fn print_argument(
    argument: &Argument<'_>,
    out: &mut String,
    layout: &mut Layout,
) -> Result<(), PrintError>
    ensures { OnOk result
        (Adds (argument_spelling argument.now) (string_bytes out.old) (string_bytes out.new)) }
{
    match argument {
        Argument::Single(argument) => print_single_argument(argument, out, layout),
        Argument::Variadic(argument) => print_variadic_argument(argument, out, layout),
    }
}

/// Writes an argument that stands for one value, as `optional long x = 5`.
#[cycle(prints)]
pub(crate) fn print_single_argument(
    argument: &SingleArgument<'_>,
    out: &mut String,
    layout: &mut Layout,
) -> Result<(), PrintError>
    ensures { OnOk result
        (Adds (single_argument_spelling argument.now) (string_bytes out.old)
        (string_bytes out.new)) }
{
    print_attributes(&argument.attributes, out, layout)?;
    Option::<Optional>::print(&argument.optional, out, layout)?;
    print_attributed_type(&argument.type_, out, layout)?;
    Identifier::print(&argument.identifier, out, layout)?;
    print_default(&argument.optional, &argument.default, out, layout)?;
    Ok(())
}

/// Writes an argument that stands for any number of values, as `long... x`.
#[cycle(prints)]
pub(crate) fn print_variadic_argument(
    argument: &VariadicArgument<'_>,
    out: &mut String,
    layout: &mut Layout,
) -> Result<(), PrintError>
    ensures { OnOk result
        (Adds (variadic_argument_spelling argument.now) (string_bytes out.old)
        (string_bytes out.new)) }
{
    print_attributes(&argument.attributes, out, layout)?;
    print_type(&argument.type_, out, layout)?;
    Ellipsis::print(&argument.ellipsis, out, layout)?;
    Identifier::print(&argument.identifier, out, layout)
}
