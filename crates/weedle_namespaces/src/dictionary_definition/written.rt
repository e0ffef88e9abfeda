//! What follows from the declarations of the module above.
//!
//! Written by tools/impls.py, and not edited by hand.

ghost use Rattle.std.specs.Prelude.{◌≡◌};
ghost use Rattle.weedle_base.specs.AlikeLaws.{equal_equivalence, seen_equivalence};
ghost use Rattle.weedle_base.specs.Own.{own};
ghost use Rattle.weedle_base.specs.OwnLaws.{own_lawful};
ghost use Rattle.weedle_grammar.specs.written.Table.Definitions.{
  DICTIONARY_DEFINITION,
  PARTIAL_DICTIONARY_DEFINITION,
};
ghost use Rattle.weedle_namespaces.specs.written.Trees.{
  dictionary_definition_tree,
  partial_dictionary_definition_tree,
};

use super::{DictionaryDefinition, PartialDictionaryDefinition};
use crate::copies::copy_dictionary_members;
use crate::dictionary::DictionaryMembers;
use std::alloc::{AllocError, Global};
use weedle_base::term::{Dictionary, Partial, SemiColon};
use weedle_base::{IResult, Parse, TryClone};
use weedle_parts::common::{Braced, Docstring, Identifier};
use weedle_parts::inheritance::Inheritance;
use weedle_types::attribute::ExtendedAttributeList;
use weedle_types::copies::{copy_attributes, copy_docstring};
use weedle_types::fields::{attributes_and_five, docstring_attributes_and_five};

#[tactic(auto, using(crate::proofs::written::DictionaryDefinitionRules::dictionary_definition_steps))]
impl<'a> Parse<'a> for DictionaryDefinition<'a> {
    ghost reading = { own DICTIONARY_DEFINITION dictionary_definition_tree (Unit {0}) };

    fn parse(alloc: Global, input: &'a str) -> IResult<&'a str, Self> {
        match docstring_attributes_and_five(alloc, input) {
            Ok(
                (
                    rest,
                    (
                        docstring,
                        attributes,
                        dictionary,
                        identifier,
                        inheritance,
                        members,
                        semi_colon,
                    ),
                ),
            ) => Ok((
                rest,
                DictionaryDefinition {
                    docstring,
                    attributes,
                    dictionary,
                    identifier,
                    inheritance,
                    members,
                    semi_colon,
                },
            )),
            Err(error) => Err(error),
        }
    }

    ghost lawful = { own_lawful DICTIONARY_DEFINITION dictionary_definition_tree (Unit {0}) };
}

impl TryClone for DictionaryDefinition<'_> {
    ghost alike = { λ a b. dictionary_definition_tree a ≡ dictionary_definition_tree b };

    fn try_clone(&self, alloc: Global) -> Result<Self, AllocError> {
        Ok(DictionaryDefinition {
            docstring: copy_docstring(&self.docstring, alloc)?,
            attributes: copy_attributes(&self.attributes, alloc)?,
            dictionary: self.dictionary,
            identifier: self.identifier,
            inheritance: self.inheritance,
            members: copy_dictionary_members(&self.members, alloc)?,
            semi_colon: self.semi_colon,
        })
    }

    ghost equivalence = { seen_equivalence dictionary_definition_tree equal_equivalence };
}

impl<'a> DictionaryDefinition<'a> {
    /// Its fields, in order: `docstring`, `attributes`, `dictionary`, `identifier`, `inheritance`,
    /// `members` and `semi_colon`.
    pub fn into_fields(
        self,
    ) -> (
        Option<Docstring>,
        Option<ExtendedAttributeList<'a>>,
        Dictionary,
        Identifier<'a>,
        Option<Inheritance<'a>>,
        Braced<DictionaryMembers<'a>>,
        SemiColon,
    )
        ensures { result ≡ (
          self.entry.docstring,
          self.entry.attributes,
          self.entry.dictionary,
          self.entry.identifier,
          self.entry.inheritance,
          self.entry.members,
          self.entry.semi_colon,
        ) }
    {
        let DictionaryDefinition {
            docstring,
            attributes,
            dictionary,
            identifier,
            inheritance,
            members,
            semi_colon,
        } = self;
        (
            docstring,
            attributes,
            dictionary,
            identifier,
            inheritance,
            members,
            semi_colon,
        )
    }
}

#[tactic(auto, using(crate::proofs::written::DictionaryDefinitionRules::partial_dictionary_definition_steps))]
impl<'a> Parse<'a> for PartialDictionaryDefinition<'a> {
    ghost reading = { own PARTIAL_DICTIONARY_DEFINITION partial_dictionary_definition_tree
        (Unit {0}) };

    fn parse(alloc: Global, input: &'a str) -> IResult<&'a str, Self> {
        match attributes_and_five(alloc, input) {
            Ok((rest, (attributes, partial, dictionary, identifier, members, semi_colon))) => Ok((
                rest,
                PartialDictionaryDefinition {
                    attributes,
                    partial,
                    dictionary,
                    identifier,
                    members,
                    semi_colon,
                },
            )),
            Err(error) => Err(error),
        }
    }

    ghost lawful = { own_lawful PARTIAL_DICTIONARY_DEFINITION partial_dictionary_definition_tree
        (Unit {0}) };
}

impl TryClone for PartialDictionaryDefinition<'_> {
    ghost alike = { λ a b. partial_dictionary_definition_tree a
        ≡ partial_dictionary_definition_tree b };

    fn try_clone(&self, alloc: Global) -> Result<Self, AllocError> {
        Ok(PartialDictionaryDefinition {
            attributes: copy_attributes(&self.attributes, alloc)?,
            partial: self.partial,
            dictionary: self.dictionary,
            identifier: self.identifier,
            members: copy_dictionary_members(&self.members, alloc)?,
            semi_colon: self.semi_colon,
        })
    }

    ghost equivalence = { seen_equivalence partial_dictionary_definition_tree equal_equivalence };
}

impl<'a> PartialDictionaryDefinition<'a> {
    /// Its fields, in order: `attributes`, `partial`, `dictionary`, `identifier`, `members` and
    /// `semi_colon`.
    pub fn into_fields(
        self,
    ) -> (
        Option<ExtendedAttributeList<'a>>,
        Partial,
        Dictionary,
        Identifier<'a>,
        Braced<DictionaryMembers<'a>>,
        SemiColon,
    )
        ensures { result ≡ (
          self.entry.attributes,
          self.entry.partial,
          self.entry.dictionary,
          self.entry.identifier,
          self.entry.members,
          self.entry.semi_colon,
        ) }
    {
        let PartialDictionaryDefinition {
            attributes,
            partial,
            dictionary,
            identifier,
            members,
            semi_colon,
        } = self;
        (
            attributes, partial, dictionary, identifier, members, semi_colon,
        )
    }
}
