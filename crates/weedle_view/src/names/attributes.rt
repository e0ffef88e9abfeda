//! The names in the arguments of extended attributes.
#![tactic(auto, using(crate::proofs::NameFacts::name_steps, weedle_types::proofs::TreeLaws::clone_steps))]

ghost use Rattle.std.specs.Prelude.{◌≡◌, ◌++◌, OnOk, flat_map};
ghost use Rattle.weedle_view.specs.TypeNames.{names_in_attribute, names_in_attributes};

use super::arguments::push_arguments;
use std::alloc::AllocError;
use weedle_parts::common::Identifier;
use weedle_types::attribute::{ExtendedAttribute, ExtendedAttributeList};

/// Adds the names in extended attributes, where present.
#[cycle(names)]
pub(crate) fn push_attributes<'a>(
    attributes: &Option<ExtendedAttributeList<'a>>,
    names: &mut Vec<Identifier<'a>>,
) -> Result<(), AllocError>
    ensures { OnOk result
        (names.new.items ≡ names.old.items ++ names_in_attributes attributes.now) }
{
    match attributes {
        Some(attributes) => push_attribute_items(&attributes.body.list, names),
        None => Ok(()),
    }
}

/// Adds the names in extended attributes one after another.
#[cycle(names)]
#[tactic(auto, using(crate::proofs::NameFacts::name_steps, weedle_types::proofs::TreeLaws::clone_steps, weedle_types::proofs::Smaller::attribute_smaller))]
pub(crate) fn push_attribute_items<'a>(
    attributes: &Vec<ExtendedAttribute<'a>>,
    names: &mut Vec<Identifier<'a>>,
) -> Result<(), AllocError>
    ensures { OnOk result
        (names.new.items ≡ names.old.items ++ flat_map names_in_attribute attributes.now.items) }
{
    for attribute in attributes {
        push_attribute(attribute, names)?;
    }
    Ok(())
}

/// Adds the names in an extended attribute.
#[cycle(names)]
pub(crate) fn push_attribute<'a>(
    attribute: &ExtendedAttribute<'a>,
    names: &mut Vec<Identifier<'a>>,
) -> Result<(), AllocError>
    ensures { OnOk result (names.new.items ≡ names.old.items ++ names_in_attribute attribute.now) }
{
    match attribute {
        ExtendedAttribute::ArgList(attribute) => push_arguments(&attribute.args, names),
        ExtendedAttribute::NamedArgList(attribute) => push_arguments(&attribute.args, names),
        ExtendedAttribute::IdentList(_)
        | ExtendedAttribute::Ident(_)
        | ExtendedAttribute::NoArgs(_) => Ok(()),
    }
}
