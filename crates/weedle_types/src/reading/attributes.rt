//! Extended attributes.

ghost use Rattle.std.specs.Prelude.{◌<◌, ◌≤◌, length, IfOk};
ghost use Rattle.weedle_base.specs.Own.{own};
ghost use Rattle.weedle_base.specs.Reading.{Answers};
ghost use Rattle.weedle_base.specs.Rules.{option_tree};
ghost use Rattle.weedle_parts.specs.Lists.{after_first};
ghost use Rattle.weedle_grammar.specs.written.Table.Types.{
  EXTENDED_ATTRIBUTE,
  EXTENDED_ATTRIBUTE_ARG_LIST,
  EXTENDED_ATTRIBUTE_LIST,
  EXTENDED_ATTRIBUTE_NAMED_ARG_LIST,
  LIST_EXTENDED_ATTRIBUTE_COMMA,
  OPT_EXTENDED_ATTRIBUTE_LIST,
};
ghost use Rattle.weedle_types.specs.Separators.{comma_reading};
ghost use Rattle.weedle_types.specs.Trees.{
  extended_attribute_arg_list_tree,
  extended_attribute_list_tree,
  extended_attribute_named_arg_list_tree,
  extended_attribute_tree,
  extended_attributes_tree,
};

use super::arguments::arguments;
use super::steps::{part, word};
use crate::attribute::{
    ExtendedAttribute, ExtendedAttributeArgList, ExtendedAttributeList,
    ExtendedAttributeNamedArgList,
};
use std::alloc::Global;
use weedle_base::term::Comma;
use weedle_base::{Err, IResult, out_of_memory};
use weedle_parts::common::{Bracketed, Punctuated};

/// Reads extended attributes in brackets, where present.
#[cycle(group)]
#[tactic(auto, using(crate::proofs::written::AttributeRules::attributes_steps))]
pub(crate) fn attributes<'a>(
    alloc: Global,
    input: &'a str,
) -> IResult<&'a str, Option<ExtendedAttributeList<'a>>>
    ensures reads { Answers
        (own OPT_EXTENDED_ATTRIBUTE_LIST (option_tree extended_attribute_list_tree) (Unit {0}))
        input.now result }
    ensures no_longer { IfOk result (λ x. length x.0.now ≤ length input.now) }
{
    match extended_attribute_list(alloc, input) {
        Ok((rest, list)) => Ok((rest, Some(list))),
        Err(Err::Error(_)) => Ok((input, None)),
        Err(Err::Failure(e)) => Err(Err::Failure(e)),
    }
}

/// Reads extended attributes in brackets, as `[Exposed=Window, SecureContext]`.
#[cycle(group)]
#[tactic(auto, using(crate::proofs::written::AttributeRules::extended_attribute_list_steps))]
pub(crate) fn extended_attribute_list<'a>(
    alloc: Global,
    input: &'a str,
) -> IResult<&'a str, ExtendedAttributeList<'a>>
    ensures reads { Answers (own EXTENDED_ATTRIBUTE_LIST extended_attribute_list_tree (Unit {0}))
        input.now result }
    ensures shorter { IfOk result (λ x. length x.0.now < length input.now) }
{
    let (rest, open_bracket) = word(alloc, input)?;
    let (rest, body) = extended_attributes(alloc, rest)?;
    let (rest, close_bracket) = part(alloc, rest)?;
    Ok((
        rest,
        Bracketed {
            open_bracket,
            body,
            close_bracket,
        },
    ))
}

/// Reads an extended attribute, as `Exposed=Window`.
#[cycle(group)]
#[tactic(auto, using(crate::proofs::written::AttributeRules::extended_attribute_steps))]
pub(crate) fn extended_attribute<'a>(
    alloc: Global,
    input: &'a str,
) -> IResult<&'a str, ExtendedAttribute<'a>>
    ensures reads { Answers (own EXTENDED_ATTRIBUTE extended_attribute_tree (Unit {0})) input.now
        result }
    ensures shorter { IfOk result (λ x. length x.0.now < length input.now) }
{
    read_or_next!(
        extended_attribute_arg_list(alloc, input),
        ExtendedAttribute::ArgList
    );
    read_or_next!(
        extended_attribute_named_arg_list(alloc, input),
        ExtendedAttribute::NamedArgList
    );
    read_or_next!(word(alloc, input), ExtendedAttribute::IdentList);
    read_or_next!(word(alloc, input), ExtendedAttribute::Ident);
    let (rest, member) = word(alloc, input)?;
    Ok((rest, ExtendedAttribute::NoArgs(member)))
}

/// Reads an extended attribute with arguments, as `Constructor(long x)`.
#[cycle(group)]
#[tactic(auto, using(crate::proofs::written::AttributeRules::extended_attribute_arg_list_steps))]
pub(crate) fn extended_attribute_arg_list<'a>(
    alloc: Global,
    input: &'a str,
) -> IResult<&'a str, ExtendedAttributeArgList<'a>>
    ensures reads { Answers
        (own EXTENDED_ATTRIBUTE_ARG_LIST extended_attribute_arg_list_tree (Unit {0})) input.now
        result }
    ensures shorter { IfOk result (λ x. length x.0.now < length input.now) }
{
    let (rest, identifier) = part(alloc, input)?;
    let (rest, args) = arguments(alloc, rest)?;
    Ok((rest, ExtendedAttributeArgList { identifier, args }))
}

/// Reads an extended attribute with a name and arguments, as `NamedConstructor=Image(long x)`.
#[cycle(group)]
#[tactic(auto, using(crate::proofs::written::AttributeRules::extended_attribute_named_arg_list_steps))]
pub(crate) fn extended_attribute_named_arg_list<'a>(
    alloc: Global,
    input: &'a str,
) -> IResult<&'a str, ExtendedAttributeNamedArgList<'a>>
    ensures reads { Answers
        (own EXTENDED_ATTRIBUTE_NAMED_ARG_LIST extended_attribute_named_arg_list_tree (Unit {0}))
        input.now result }
    ensures shorter { IfOk result (λ x. length x.0.now < length input.now) }
{
    let (rest, lhs_identifier) = part(alloc, input)?;
    let (rest, assign) = part(alloc, rest)?;
    let (rest, rhs_identifier) = part(alloc, rest)?;
    let (rest, args) = arguments(alloc, rest)?;
    Ok((
        rest,
        ExtendedAttributeNamedArgList {
            lhs_identifier,
            assign,
            rhs_identifier,
            args,
        },
    ))
}

/// Reads extended attributes, as `Exposed=Window, SecureContext`, none included.
#[cycle(group)]
#[tactic(auto, using(crate::proofs::written::AttributeRules::extended_attributes_steps))]
pub(crate) fn extended_attributes<'a>(
    alloc: Global,
    input: &'a str,
) -> IResult<&'a str, Punctuated<ExtendedAttribute<'a>, Comma>>
    ensures reads { Answers (own LIST_EXTENDED_ATTRIBUTE_COMMA extended_attributes_tree (Unit {0}))
        input.now result }
    ensures no_longer { IfOk result (λ x. length x.0.now ≤ length input.now) }
{
    match extended_attribute(alloc, input) {
        Ok((rest, first)) => {
            let (rest, mut list) = more_extended_attributes(alloc, first, rest)?;
            list.shrink_to_fit();
            Ok((
                rest,
                Punctuated {
                    list,
                    separator: Comma,
                },
            ))
        }
        Err(Err::Error(_)) => {
            let list = Vec::new(alloc);
            Ok((
                input,
                Punctuated {
                    list,
                    separator: Comma,
                },
            ))
        }
        Err(Err::Failure(e)) => Err(Err::Failure(e)),
    }
}

/// Reads the extended attributes after the first, each behind a comma.
#[cycle(group)]
#[tactic(auto, using(weedle_base::proofs::TakesFacts::own_takes))]
pub(crate) fn more_extended_attributes<'a>(
    alloc: Global,
    first: ExtendedAttribute<'a>,
    input: &'a str,
) -> IResult<&'a str, Vec<ExtendedAttribute<'a>>>
    ensures reads { Answers
        (after_first (own EXTENDED_ATTRIBUTE extended_attribute_tree (Unit {0})) comma_reading
        (λ l. l.items) first.entry) input.now result }
    ensures no_longer { IfOk result (λ x. length x.0.now ≤ length input.now) }
{
    let mut list = Vec::new(alloc);
    if list.push(first).is_err() {
        return Err(out_of_memory(input));
    }
    let mut rest = input;
    'items: loop {
        let after = match word::<Comma>(alloc, rest) {
            Ok((after, _)) => after,
            Err(Err::Error(_)) => return Ok((rest, list)),
            Err(Err::Failure(e)) => return Err(Err::Failure(e)),
        };
        match extended_attribute(alloc, after) {
            Ok((next, item)) => {
                if list.push(item).is_err() {
                    return Err(out_of_memory(rest));
                }
                rest = next;
            }
            Err(Err::Error(_)) => return Ok((rest, list)),
            Err(Err::Failure(e)) => return Err(Err::Failure(e)),
        }
    }
}
