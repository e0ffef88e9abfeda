//! Dictionaries and their members.
//!
//! Written by tools/builds.py, and not edited by hand.
#![tactic(auto, using(weedle_build_base::proofs::Finding::own_steps))]

ghost use Rattle.std.specs.Prelude.{◌≡◌};
ghost use Rattle.weedle_grammar.specs.written.Table.Definitions.{
  DICTIONARY_DEFINITION,
  PARTIAL_DICTIONARY_DEFINITION,
};
ghost use Rattle.weedle_grammar.specs.written.Table.OtherMembers.{DICTIONARY_MEMBER};
ghost use Rattle.weedle_namespaces.specs.written.Trees.{
  dictionary_definition_tree,
  dictionary_member_tree,
  partial_dictionary_definition_tree,
};

use crate::part::IdlPart;
use std::alloc::Global;
use weedle_base::term::{Dictionary, Partial, Required, SemiColon};
use weedle_build_base::{At, Build, BuildResult, Table, seven_fields, six_fields};
use weedle_build_types::{Attributes, Held};
use weedle_namespaces::dictionary::DictionaryMember;
use weedle_namespaces::{DictionaryDefinition, PartialDictionaryDefinition};
use weedle_parts::common::{Braced, Docstring, Identifier};
use weedle_parts::inheritance::Inheritance;
use weedle_parts::literal::Default;
use weedle_rules::Rule;
use weedle_types::types::Type;

impl<'a> Build<'a> for IdlPart<DictionaryMember<'a>> {
    type Value = DictionaryMember<'a>;

    ghost fits = { λ r. r ≡ DICTIONARY_MEMBER };

    ghost tree = { dictionary_member_tree };

    fn build(
        alloc: Global,
        table: Table<'_, 'a>,
        _rule: Rule,
        at: At,
    ) -> BuildResult<DictionaryMember<'a>> {
        match seven_fields::<
            Option<Docstring>,
            Attributes<'a>,
            Option<Required>,
            Held<Type<'a>>,
            Identifier<'a>,
            Option<Default<'a>>,
            SemiColon,
        >(alloc, table, Rule::DICTIONARY_MEMBER, at)
        {
            Ok(((docstring, attributes, required, type_, identifier, default, semi_colon), at)) =>
                Ok((
                    DictionaryMember {
                        docstring,
                        attributes,
                        required,
                        type_,
                        identifier,
                        default,
                        semi_colon,
                    },
                    at,
                )),
            Err(error) => Err(error),
        }
    }
}

impl<'a> Build<'a> for IdlPart<DictionaryDefinition<'a>> {
    type Value = DictionaryDefinition<'a>;

    ghost fits = { λ r. r ≡ DICTIONARY_DEFINITION };

    ghost tree = { dictionary_definition_tree };

    fn build(
        alloc: Global,
        table: Table<'_, 'a>,
        _rule: Rule,
        at: At,
    ) -> BuildResult<DictionaryDefinition<'a>> {
        match seven_fields::<
            Option<Docstring>,
            Attributes<'a>,
            Dictionary,
            Identifier<'a>,
            Option<Inheritance<'a>>,
            Braced<Vec<IdlPart<DictionaryMember<'a>>>>,
            SemiColon,
        >(alloc, table, Rule::DICTIONARY_DEFINITION, at)
        {
            Ok(
                (
                    (
                        docstring,
                        attributes,
                        dictionary,
                        identifier,
                        inheritance,
                        members,
                        semi_colon,
                    ),
                    at,
                ),
            ) => Ok((
                DictionaryDefinition {
                    docstring,
                    attributes,
                    dictionary,
                    identifier,
                    inheritance,
                    members,
                    semi_colon,
                },
                at,
            )),
            Err(error) => Err(error),
        }
    }
}

impl<'a> Build<'a> for IdlPart<PartialDictionaryDefinition<'a>> {
    type Value = PartialDictionaryDefinition<'a>;

    ghost fits = { λ r. r ≡ PARTIAL_DICTIONARY_DEFINITION };

    ghost tree = { partial_dictionary_definition_tree };

    fn build(
        alloc: Global,
        table: Table<'_, 'a>,
        _rule: Rule,
        at: At,
    ) -> BuildResult<PartialDictionaryDefinition<'a>> {
        match six_fields::<
            Attributes<'a>,
            Partial,
            Dictionary,
            Identifier<'a>,
            Braced<Vec<IdlPart<DictionaryMember<'a>>>>,
            SemiColon,
        >(alloc, table, Rule::PARTIAL_DICTIONARY_DEFINITION, at)
        {
            Ok(((attributes, partial, dictionary, identifier, members, semi_colon), at)) => Ok((
                PartialDictionaryDefinition {
                    attributes,
                    partial,
                    dictionary,
                    identifier,
                    members,
                    semi_colon,
                },
                at,
            )),
            Err(error) => Err(error),
        }
    }
}
