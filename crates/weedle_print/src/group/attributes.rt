//! Extended attributes.
#![tactic(auto, using(crate::proofs::AddsFacts::adds_then, crate::proofs::VariantFacts::variant_steps, weedle_types::proofs::TreeLaws::clone_steps))]

ghost use Rattle.std.specs.Prelude.{codes, OnOk, string_bytes};
ghost use Rattle.weedle_print.specs.Adds.{Adds};
ghost use Rattle.weedle_spell.specs.Forms.{◌then◌, separated_by};
ghost use Rattle.weedle_spell.specs.Tokens.{word as the_word};
ghost use Rattle.weedle_spell.specs.RecursiveTypes.{extended_attribute_spelling};
ghost use Rattle.weedle_spell.specs.written.Arguments.{
  attributes_spelling,
  extended_attribute_arg_list_spelling,
  extended_attribute_list_spelling,
  extended_attribute_named_arg_list_spelling,
};

use super::arguments::print_arguments;
use crate::error::PrintError;
use crate::layout::Layout;
use crate::list::{close_list, separate};
use crate::plain_attributes::{print_assign, print_ident, print_ident_list};
use crate::print::Print;
use crate::texts::{push, word};
use weedle_parts::common::Identifier;
use weedle_types::attribute::{
    ExtendedAttribute, ExtendedAttributeArgList, ExtendedAttributeList,
    ExtendedAttributeNamedArgList,
};

/// Writes extended attributes, where there are some.
#[cycle(prints)]
#[tactic(auto, using(crate::proofs::AddsFacts::adds_none, weedle_types::proofs::TreeLaws::clone_steps))]
pub(crate) fn print_attributes(
    attributes: &Option<ExtendedAttributeList<'_>>,
    out: &mut String,
    layout: &mut Layout,
) -> Result<(), PrintError>
    ensures { OnOk result
        (Adds (attributes_spelling attributes.now) (string_bytes out.old) (string_bytes out.new)) }
{
    match attributes {
        Some(attributes) => print_attribute_list(attributes, out, layout),
        None => Ok(()),
    }
}

/// Writes extended attributes in brackets, as `[Clamp, Exposed=Window]`: on the line where they
/// fit, else each on a line.
#[cycle(prints)]
#[tactic(auto, using(crate::proofs::AddsFacts::adds_then, crate::proofs::AddsFacts::adds_copied, weedle_types::proofs::TreeLaws::clone_steps))]
pub(crate) fn print_attribute_list(
    attributes: &ExtendedAttributeList<'_>,
    out: &mut String,
    layout: &mut Layout,
) -> Result<(), PrintError>
    ensures { OnOk result
        (Adds (extended_attribute_list_spelling attributes.now) (string_bytes out.old)
        (string_bytes out.new)) }
{
    word(out, layout, "[")?;
    let start = *layout;
    layout.try_flat();
    if start.is_flat() || attributes.body.list.is_empty() {
        push_attributes(&attributes.body.list, out, layout)?;
        layout.end_try(&start);
        return Ok(());
    }
    let mut text = String::new(*out.allocator());
    push_attributes(&attributes.body.list, &mut text, layout)?;
    layout.end_try(&start);
    if layout.fits(&start, 0) {
        return push(out, text.as_str());
    }
    let width = layout.break_list(&start);
    push_attributes(&attributes.body.list, out, layout)?;
    layout.end_list(&start, width);
    Ok(())
}

/// Writes extended attributes with commas between them, and the bracket behind them.
#[cycle(prints)]
#[tactic(auto, using(crate::proofs::AddsFacts::adds_then, crate::proofs::SeparatedFacts::separated_steps, weedle_types::proofs::TreeLaws::clone_steps, weedle_types::proofs::Smaller::attribute_smaller))]
pub(crate) fn push_attributes(
    attributes: &Vec<ExtendedAttribute<'_>>,
    out: &mut String,
    layout: &mut Layout,
) -> Result<(), PrintError>
    ensures { OnOk result
        (Adds (separated_by extended_attribute_spelling (the_word (codes ","))
        attributes.now.items then the_word (codes "]"))
        (string_bytes out.old) (string_bytes out.new)) }
{
    let mut is_first = true;
    for attribute in attributes {
        separate(is_first, out, layout, ",")?;
        layout.begin_item();
        print_extended_attribute(attribute, out, layout)?;
        is_first = false;
    }
    close_list(out, layout, "]")
}

/// Writes an extended attribute, as `Exposed=Window`.
#[cycle(prints)]
pub(crate) fn print_extended_attribute(
    attribute: &ExtendedAttribute<'_>,
    out: &mut String,
    layout: &mut Layout,
) -> Result<(), PrintError>
    ensures { OnOk result
        (Adds (extended_attribute_spelling attribute.now) (string_bytes out.old)
        (string_bytes out.new)) }
{
    match attribute {
        ExtendedAttribute::ArgList(attribute) => print_arg_list(attribute, out, layout),
        ExtendedAttribute::NamedArgList(attribute) => print_named_arg_list(attribute, out, layout),
        ExtendedAttribute::IdentList(attribute) => print_ident_list(attribute, out, layout),
        ExtendedAttribute::Ident(attribute) => print_ident(attribute, out, layout),
        ExtendedAttribute::NoArgs(attribute) => Identifier::print(&attribute.0, out, layout),
    }
}

/// Writes an extended attribute with arguments, as `Constructor(long x)`.
#[cycle(prints)]
pub(crate) fn print_arg_list(
    attribute: &ExtendedAttributeArgList<'_>,
    out: &mut String,
    layout: &mut Layout,
) -> Result<(), PrintError>
    ensures { OnOk result
        (Adds (extended_attribute_arg_list_spelling attribute.now) (string_bytes out.old)
        (string_bytes out.new)) }
{
    Identifier::print(&attribute.identifier, out, layout)?;
    print_arguments(&attribute.args, out, layout)
}

/// Writes an extended attribute with a name and arguments, as `NamedConstructor=Image(long x)`.
#[cycle(prints)]
pub(crate) fn print_named_arg_list(
    attribute: &ExtendedAttributeNamedArgList<'_>,
    out: &mut String,
    layout: &mut Layout,
) -> Result<(), PrintError>
    ensures { OnOk result
        (Adds (extended_attribute_named_arg_list_spelling attribute.now) (string_bytes out.old)
        (string_bytes out.new)) }
{
    Identifier::print(&attribute.lhs_identifier, out, layout)?;
    print_assign(&attribute.assign, out, layout)?;
    Identifier::print(&attribute.rhs_identifier, out, layout)?;
    print_arguments(&attribute.args, out, layout)
}
