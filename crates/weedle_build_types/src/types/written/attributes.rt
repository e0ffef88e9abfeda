//! Extended attributes.

ghost use Rattle.weedle_grammar.specs.written.Table.Types.{
  EXTENDED_ATTRIBUTE,
  EXTENDED_ATTRIBUTE_ARG_LIST,
  EXTENDED_ATTRIBUTE_LIST,
  EXTENDED_ATTRIBUTE_NAMED_ARG_LIST,
  LIST_EXTENDED_ATTRIBUTE_COMMA,
  OPT_EXTENDED_ATTRIBUTE_LIST,
};
ghost use Rattle.weedle_types.specs.Trees.{
  attributes_tree,
  extended_attribute_arg_list_tree,
  extended_attribute_list_tree,
  extended_attribute_named_arg_list_tree,
  extended_attribute_tree,
  extended_attributes_tree,
};
ghost use Rattle.weedle_build_base.specs.Built.{Answers, Due};

use super::super::steps::keep;
use super::arguments::arguments;
use crate::held::Held;
use std::alloc::Global;
use weedle_base::term::{Assign, CloseBracket, Comma, OpenBracket};
use weedle_build_base::{At, Build, BuildResult, Table, alternative, choice, visit};
use weedle_parts::common::{Bracketed, Identifier, Punctuated};
use weedle_rules::Rule;
use weedle_types::attribute::{
    ExtendedAttribute, ExtendedAttributeArgList, ExtendedAttributeIdent,
    ExtendedAttributeIdentList, ExtendedAttributeList, ExtendedAttributeNamedArgList,
    ExtendedAttributeNoArgs,
};

/// Builds extended attributes in brackets, where present.
#[cycle(group)]
pub(crate) fn attributes<'a>(
    alloc: Global,
    table: Table<'_, 'a>,
    at: At,
) -> BuildResult<Option<ExtendedAttributeList<'a>>>
    requires { Due table.text.now OPT_EXTENDED_ATTRIBUTE_LIST at.place }
    ensures { Answers table.entry.text.now OPT_EXTENDED_ATTRIBUTE_LIST attributes_tree at.place
        at.visits result }
{
    match table.end(Rule::EXTENDED_ATTRIBUTE_LIST, at.place) {
        Some(_) => {
            let (list, at) = extended_attribute_list(alloc, table, at)?;
            Ok((Some(list), visit(at)))
        }
        None => Ok((None, visit(at))),
    }
}

/// Builds extended attributes in brackets, as `[Exposed=Window, SecureContext]`.
#[cycle(group)]
pub(crate) fn extended_attribute_list<'a>(
    alloc: Global,
    table: Table<'_, 'a>,
    at: At,
) -> BuildResult<ExtendedAttributeList<'a>>
    requires { Due table.text.now EXTENDED_ATTRIBUTE_LIST at.place }
    ensures { Answers table.entry.text.now EXTENDED_ATTRIBUTE_LIST extended_attribute_list_tree
        at.place at.visits result }
{
    let (open_bracket, at) = OpenBracket::build(alloc, table, Rule::OPEN_BRACKET, at)?;
    let (body, at) = extended_attributes(alloc, table, at)?;
    let (close_bracket, at) = CloseBracket::build(alloc, table, Rule::CLOSE_BRACKET, at)?;
    Ok((
        Bracketed {
            open_bracket,
            body,
            close_bracket,
        },
        visit(at),
    ))
}

/// Builds an extended attribute, as `Exposed=Window`.
#[cycle(group)]
pub(crate) fn extended_attribute<'a>(
    alloc: Global,
    table: Table<'_, 'a>,
    at: At,
) -> BuildResult<ExtendedAttribute<'a>>
    requires { Due table.text.now EXTENDED_ATTRIBUTE at.place }
    ensures { Answers table.entry.text.now EXTENDED_ATTRIBUTE extended_attribute_tree at.place
        at.visits result }
{
    match choice(table, Rule::EXTENDED_ATTRIBUTE, at.place) {
        0 => {
            let (member, at) = extended_attribute_arg_list(alloc, table, at)?;
            Ok((ExtendedAttribute::ArgList(member), visit(at)))
        }
        1 => {
            let (member, at) = extended_attribute_named_arg_list(alloc, table, at)?;
            Ok((ExtendedAttribute::NamedArgList(member), visit(at)))
        }
        2 => {
            let (member, at) = alternative::<Held<ExtendedAttributeIdentList>>(
                alloc,
                table,
                Rule::EXTENDED_ATTRIBUTE,
                2,
                at,
            )?;
            Ok((ExtendedAttribute::IdentList(member), at))
        }
        3 => {
            let (member, at) = alternative::<Held<ExtendedAttributeIdent>>(
                alloc,
                table,
                Rule::EXTENDED_ATTRIBUTE,
                3,
                at,
            )?;
            Ok((ExtendedAttribute::Ident(member), at))
        }
        4 => {
            let (member, at) = alternative::<Held<ExtendedAttributeNoArgs>>(
                alloc,
                table,
                Rule::EXTENDED_ATTRIBUTE,
                4,
                at,
            )?;
            Ok((ExtendedAttribute::NoArgs(member), at))
        }
        _ => unreachable!(),
    }
}

/// Builds an extended attribute with arguments, as `Constructor(long x)`.
#[cycle(group)]
pub(crate) fn extended_attribute_arg_list<'a>(
    alloc: Global,
    table: Table<'_, 'a>,
    at: At,
) -> BuildResult<ExtendedAttributeArgList<'a>>
    requires { Due table.text.now EXTENDED_ATTRIBUTE_ARG_LIST at.place }
    ensures { Answers table.entry.text.now EXTENDED_ATTRIBUTE_ARG_LIST
        extended_attribute_arg_list_tree at.place at.visits result }
{
    let (identifier, at) = Identifier::build(alloc, table, Rule::IDENTIFIER, at)?;
    let (args, at) = arguments(alloc, table, at)?;
    Ok((ExtendedAttributeArgList { identifier, args }, visit(at)))
}

/// Builds an extended attribute with a name and arguments, as `NamedConstructor=Image(long x)`.
#[cycle(group)]
pub(crate) fn extended_attribute_named_arg_list<'a>(
    alloc: Global,
    table: Table<'_, 'a>,
    at: At,
) -> BuildResult<ExtendedAttributeNamedArgList<'a>>
    requires { Due table.text.now EXTENDED_ATTRIBUTE_NAMED_ARG_LIST at.place }
    ensures { Answers table.entry.text.now EXTENDED_ATTRIBUTE_NAMED_ARG_LIST
        extended_attribute_named_arg_list_tree at.place at.visits result }
{
    let (lhs_identifier, at) = Identifier::build(alloc, table, Rule::IDENTIFIER, at)?;
    let (assign, at) = Assign::build(alloc, table, Rule::ASSIGN, at)?;
    let (rhs_identifier, at) = Identifier::build(alloc, table, Rule::IDENTIFIER, at)?;
    let (args, at) = arguments(alloc, table, at)?;
    Ok((
        ExtendedAttributeNamedArgList {
            lhs_identifier,
            assign,
            rhs_identifier,
            args,
        },
        visit(at),
    ))
}

/// Builds extended attributes, as `Exposed=Window, SecureContext`, none included.
#[cycle(group)]
pub(crate) fn extended_attributes<'a>(
    alloc: Global,
    table: Table<'_, 'a>,
    at: At,
) -> BuildResult<Punctuated<ExtendedAttribute<'a>, Comma>>
    requires { Due table.text.now LIST_EXTENDED_ATTRIBUTE_COMMA at.place }
    ensures { Answers table.entry.text.now LIST_EXTENDED_ATTRIBUTE_COMMA extended_attributes_tree
        at.place at.visits result }
{
    let mut list = Vec::new(alloc);
    let separator = Comma;
    let Some(_) = table.end(Rule::EXTENDED_ATTRIBUTE, at.place) else {
        return Ok((Punctuated { list, separator }, visit(at)));
    };
    let mut here = keep(&mut list, extended_attribute(alloc, table, at))?;
    while let Some(behind) = table.end(Rule::COMMA, here.place) {
        let Some(_) = table.end(Rule::EXTENDED_ATTRIBUTE, behind) else {
            return Ok((Punctuated { list, separator }, visit(here)));
        };
        let start = At {
            place: behind,
            visits: here.visits,
        };
        here = keep(&mut list, extended_attribute(alloc, table, start))?;
    }
    Ok((Punctuated { list, separator }, visit(here)))
}
