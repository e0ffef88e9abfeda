//! Extended attributes that hold no arguments.
#![tactic(auto, using(weedle_build_base::proofs::Finding::own_steps))]

ghost use Rattle.std.specs.Prelude.{◌≡◌};
ghost use Rattle.weedle_grammar.specs.written.Table.Types.{
  EXTENDED_ATTRIBUTE_IDENT,
  EXTENDED_ATTRIBUTE_IDENT_LIST,
  EXTENDED_ATTRIBUTE_NO_ARGS,
  IDENTIFIER_OR_STRING,
};
ghost use Rattle.weedle_types.specs.Trees.{
  extended_attribute_ident_list_tree,
  extended_attribute_ident_tree,
  extended_attribute_no_args_tree,
  identifier_or_string_tree,
};

use crate::held::Held;
use std::alloc::Global;
use weedle_base::term::{Assign, Comma};
use weedle_build_base::{
    At, Build, BuildResult, Last, Table, alternative, choice, sequence, three_fields,
};
use weedle_parts::common::{Identifier, Parenthesized, Punctuated};
use weedle_parts::literal::StringLit;
use weedle_rules::Rule;
use weedle_types::attribute::{
    ExtendedAttributeIdent, ExtendedAttributeIdentList, ExtendedAttributeNoArgs, IdentifierOrString,
};

impl<'a> Build<'a> for Held<ExtendedAttributeIdentList<'a>> {
    type Value = ExtendedAttributeIdentList<'a>;

    ghost fits = { λ r. r ≡ EXTENDED_ATTRIBUTE_IDENT_LIST };

    ghost tree = { extended_attribute_ident_list_tree };

    fn build(
        alloc: Global,
        table: Table<'_, 'a>,
        _rule: Rule,
        at: At,
    ) -> BuildResult<ExtendedAttributeIdentList<'a>> {
        let ((identifier, assign, list), at) = three_fields::<
            Identifier,
            Assign,
            Parenthesized<Punctuated<Identifier, Comma>>,
        >(alloc, table, Rule::EXTENDED_ATTRIBUTE_IDENT_LIST, at)?;
        Ok((
            ExtendedAttributeIdentList {
                identifier,
                assign,
                list,
            },
            at,
        ))
    }
}

impl<'a> Build<'a> for Held<ExtendedAttributeIdent<'a>> {
    type Value = ExtendedAttributeIdent<'a>;

    ghost fits = { λ r. r ≡ EXTENDED_ATTRIBUTE_IDENT };

    ghost tree = { extended_attribute_ident_tree };

    fn build(
        alloc: Global,
        table: Table<'_, 'a>,
        _rule: Rule,
        at: At,
    ) -> BuildResult<ExtendedAttributeIdent<'a>> {
        let ((lhs_identifier, assign, rhs), at) = three_fields::<
            Identifier,
            Assign,
            Held<IdentifierOrString>,
        >(alloc, table, Rule::EXTENDED_ATTRIBUTE_IDENT, at)?;
        Ok((
            ExtendedAttributeIdent {
                lhs_identifier,
                assign,
                rhs,
            },
            at,
        ))
    }
}

impl<'a> Build<'a> for Held<ExtendedAttributeNoArgs<'a>> {
    type Value = ExtendedAttributeNoArgs<'a>;

    ghost fits = { λ r. r ≡ EXTENDED_ATTRIBUTE_NO_ARGS };

    ghost tree = { extended_attribute_no_args_tree };

    fn build(
        alloc: Global,
        table: Table<'_, 'a>,
        _rule: Rule,
        at: At,
    ) -> BuildResult<ExtendedAttributeNoArgs<'a>> {
        let (Last(identifier), at) = sequence::<Last<Identifier>>(
            alloc,
            table,
            Rule::EXTENDED_ATTRIBUTE_NO_ARGS,
            at,
        )?;
        Ok((ExtendedAttributeNoArgs(identifier), at))
    }
}

impl<'a> Build<'a> for Held<IdentifierOrString<'a>> {
    type Value = IdentifierOrString<'a>;

    ghost fits = { λ r. r ≡ IDENTIFIER_OR_STRING };

    ghost tree = { identifier_or_string_tree };

    fn build(
        alloc: Global,
        table: Table<'_, 'a>,
        _rule: Rule,
        at: At,
    ) -> BuildResult<IdentifierOrString<'a>> {
        let rule = Rule::IDENTIFIER_OR_STRING;
        match choice(table, rule, at.place) {
            0 => {
                let (member, at) = alternative::<Identifier>(alloc, table, rule, 0, at)?;
                Ok((IdentifierOrString::Identifier(member), at))
            }
            1 => {
                let (member, at) = alternative::<StringLit>(alloc, table, rule, 1, at)?;
                Ok((IdentifierOrString::String(member), at))
            }
            _ => unreachable!(),
        }
    }
}
