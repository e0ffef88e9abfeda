//! What follows from the declarations of the module above.
//!
//! Written by tools/impls.py, and not edited by hand.

ghost use Rattle.std.specs.Prelude.{◌≡◌};
ghost use Rattle.weedle_base.specs.AlikeLaws.{equal_equivalence, seen_equivalence};
ghost use Rattle.weedle_base.specs.Own.{own};
ghost use Rattle.weedle_base.specs.OwnLaws.{own_lawful};
ghost use Rattle.weedle_grammar.specs.written.Table.OtherMembers.{DICTIONARY_MEMBER};
ghost use Rattle.weedle_namespaces.specs.written.Trees.{dictionary_member_tree};

use super::DictionaryMember;
use std::alloc::{AllocError, Global};
use weedle_base::term::{Required, SemiColon};
use weedle_base::{IResult, Parse, TryClone};
use weedle_parts::common::{Docstring, Identifier};
use weedle_parts::literal::Default;
use weedle_types::attribute::ExtendedAttributeList;
use weedle_types::copies::{copy_attributes, copy_docstring};
use weedle_types::fields::docstring_attributes_and_five;
use weedle_types::types::Type;

#[tactic(auto, using(crate::proofs::written::DictionaryRules::dictionary_member_steps))]
impl<'a> Parse<'a> for DictionaryMember<'a> {
    ghost reading = { own DICTIONARY_MEMBER dictionary_member_tree (Unit {0}) };

    fn parse(alloc: Global, input: &'a str) -> IResult<&'a str, Self> {
        match docstring_attributes_and_five(alloc, input) {
            Ok((rest, (docstring, attributes, required, type_, identifier, default, semi_colon))) =>
                Ok((
                    rest,
                    DictionaryMember {
                        docstring,
                        attributes,
                        required,
                        type_,
                        identifier,
                        default,
                        semi_colon,
                    },
                )),
            Err(error) => Err(error),
        }
    }

    ghost lawful = { own_lawful DICTIONARY_MEMBER dictionary_member_tree (Unit {0}) };
}

impl TryClone for DictionaryMember<'_> {
    ghost alike = { λ a b. dictionary_member_tree a ≡ dictionary_member_tree b };

    fn try_clone(&self, alloc: Global) -> Result<Self, AllocError> {
        Ok(DictionaryMember {
            docstring: copy_docstring(&self.docstring, alloc)?,
            attributes: copy_attributes(&self.attributes, alloc)?,
            required: self.required,
            type_: self.type_.try_clone(alloc)?,
            identifier: self.identifier,
            default: self.default,
            semi_colon: self.semi_colon,
        })
    }

    ghost equivalence = { seen_equivalence dictionary_member_tree equal_equivalence };
}

impl<'a> DictionaryMember<'a> {
    /// Its fields, in order: `docstring`, `attributes`, `required`, `type_`, `identifier`,
    /// `default` and `semi_colon`.
    pub fn into_fields(
        self,
    ) -> (
        Option<Docstring>,
        Option<ExtendedAttributeList<'a>>,
        Option<Required>,
        Type<'a>,
        Identifier<'a>,
        Option<Default<'a>>,
        SemiColon,
    )
        ensures { result ≡ (
          self.entry.docstring,
          self.entry.attributes,
          self.entry.required,
          self.entry.type_,
          self.entry.identifier,
          self.entry.default,
          self.entry.semi_colon,
        ) }
    {
        let DictionaryMember {
            docstring,
            attributes,
            required,
            type_,
            identifier,
            default,
            semi_colon,
        } = self;
        (
            docstring, attributes, required, type_, identifier, default, semi_colon,
        )
    }
}
