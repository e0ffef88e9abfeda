//! Clones of extended attributes.
#![tactic(auto, using(crate::proofs::TreeLaws::clone_steps))]

ghost use Rattle.std.specs.Prelude.{◌≡◌, IfOk, map};
ghost use Rattle.weedle_parts.specs.ValueTrees.{identifier_tree};
ghost use Rattle.weedle_types.specs.Trees.{
  attributes_tree,
  extended_attribute_arg_list_tree,
  extended_attribute_ident_list_tree,
  extended_attribute_named_arg_list_tree,
  extended_attribute_tree,
};

use super::arguments::clone_arguments;
use crate::attribute::{
    ExtendedAttribute, ExtendedAttributeArgList, ExtendedAttributeIdentList, ExtendedAttributeList,
    ExtendedAttributeNamedArgList,
};
use std::alloc::{AllocError, Global};
use weedle_parts::common::{Bracketed, Identifier, Parenthesized, Punctuated};

/// Clones extended attributes in brackets, where present.
#[cycle(clones)]
pub(crate) fn clone_attributes<'a>(
    original: &Option<ExtendedAttributeList<'a>>,
    alloc: Global,
) -> Result<Option<ExtendedAttributeList<'a>>, AllocError>
    ensures { IfOk result (λ v. attributes_tree v ≡ attributes_tree original.now) }
{
    match original {
        None => Ok(None),
        Some(list) => Ok(Some(Bracketed {
            open_bracket: list.open_bracket,
            body: Punctuated {
                list: clone_extended_attributes(&list.body.list, alloc)?,
                separator: list.body.separator,
            },
            close_bracket: list.close_bracket,
        })),
    }
}

/// Clones extended attributes, in their order.
#[cycle(clones)]
#[tactic(auto, using(crate::proofs::TreeLaws::clone_steps, crate::proofs::Smaller::attribute_smaller))]
pub(crate) fn clone_extended_attributes<'a>(
    original: &Vec<ExtendedAttribute<'a>>,
    alloc: Global,
) -> Result<Vec<ExtendedAttribute<'a>>, AllocError>
    ensures { IfOk result
        (λ v. map extended_attribute_tree v.items
        ≡ map extended_attribute_tree original.now.items) }
{
    let mut clones = Vec::new(alloc);
    for item in original {
        clones.push(clone_extended_attribute(item, alloc)?)?;
    }
    Ok(clones)
}

/// Clones an extended attribute, as `Exposed=Window` or `Constructor(long x)`.
#[cycle(clones)]
pub(crate) fn clone_extended_attribute<'a>(
    original: &ExtendedAttribute<'a>,
    alloc: Global,
) -> Result<ExtendedAttribute<'a>, AllocError>
    ensures { IfOk result (λ v. extended_attribute_tree v ≡ extended_attribute_tree original.now) }
{
    match original {
        ExtendedAttribute::ArgList(member) => Ok(ExtendedAttribute::ArgList(
            clone_extended_attribute_arg_list(member, alloc)?,
        )),
        ExtendedAttribute::NamedArgList(member) => Ok(ExtendedAttribute::NamedArgList(
            clone_extended_attribute_named_arg_list(member, alloc)?,
        )),
        ExtendedAttribute::IdentList(member) => Ok(ExtendedAttribute::IdentList(
            clone_extended_attribute_ident_list(member, alloc)?,
        )),
        ExtendedAttribute::Ident(member) => Ok(ExtendedAttribute::Ident(*member)),
        ExtendedAttribute::NoArgs(member) => Ok(ExtendedAttribute::NoArgs(*member)),
    }
}

/// Clones an extended attribute with arguments, as `Constructor(long x)`.
#[cycle(clones)]
pub(crate) fn clone_extended_attribute_arg_list<'a>(
    original: &ExtendedAttributeArgList<'a>,
    alloc: Global,
) -> Result<ExtendedAttributeArgList<'a>, AllocError>
    ensures { IfOk result
        (λ v. extended_attribute_arg_list_tree v ≡ extended_attribute_arg_list_tree original.now) }
{
    Ok(ExtendedAttributeArgList {
        identifier: original.identifier,
        args: clone_arguments(&original.args, alloc)?,
    })
}

/// Clones an extended attribute with a name and arguments, as `NamedConstructor=Image(long x)`.
#[cycle(clones)]
pub(crate) fn clone_extended_attribute_named_arg_list<'a>(
    original: &ExtendedAttributeNamedArgList<'a>,
    alloc: Global,
) -> Result<ExtendedAttributeNamedArgList<'a>, AllocError>
    ensures { IfOk result
        (λ v. extended_attribute_named_arg_list_tree v
        ≡ extended_attribute_named_arg_list_tree original.now) }
{
    Ok(ExtendedAttributeNamedArgList {
        lhs_identifier: original.lhs_identifier,
        assign: original.assign,
        rhs_identifier: original.rhs_identifier,
        args: clone_arguments(&original.args, alloc)?,
    })
}

/// Clones an extended attribute with names, as `Exposed=(Window, Worker)`.
pub(crate) fn clone_extended_attribute_ident_list<'a>(
    original: &ExtendedAttributeIdentList<'a>,
    alloc: Global,
) -> Result<ExtendedAttributeIdentList<'a>, AllocError>
    ensures { IfOk result
        (λ v. extended_attribute_ident_list_tree v
        ≡ extended_attribute_ident_list_tree original.now) }
{
    Ok(ExtendedAttributeIdentList {
        identifier: original.identifier,
        assign: original.assign,
        list: Parenthesized {
            open_paren: original.list.open_paren,
            body: Punctuated {
                list: clone_identifiers(&original.list.body.list, alloc)?,
                separator: original.list.body.separator,
            },
            close_paren: original.list.close_paren,
        },
    })
}

/// Clones names, in their order.
pub(crate) fn clone_identifiers<'a>(
    original: &Vec<Identifier<'a>>,
    alloc: Global,
) -> Result<Vec<Identifier<'a>>, AllocError>
    ensures { IfOk result
        (λ v. map identifier_tree v.items ≡ map identifier_tree original.now.items) }
{
    let mut clones = Vec::new(alloc);
    for item in original {
        clones.push(*item)?;
    }
    Ok(clones)
}
