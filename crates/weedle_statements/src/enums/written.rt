//! What follows from the declarations of the module above.
//!
//! Written by tools/impls.py, and not edited by hand.

ghost use Rattle.std.specs.Prelude.{◌≡◌};
ghost use Rattle.weedle_base.specs.AlikeLaws.{equal_equivalence, seen_equivalence};
ghost use Rattle.weedle_base.specs.Own.{own};
ghost use Rattle.weedle_base.specs.OwnLaws.{own_lawful};
ghost use Rattle.weedle_grammar.specs.written.Table.OtherMembers.{ENUM_VARIANT};
ghost use Rattle.weedle_statements.specs.written.Trees.{enum_definition_tree, enum_variant_tree};

use super::{EnumDefinition, EnumValueList, EnumVariant};
use crate::copies::copy_enum_values;
use std::alloc::{AllocError, Global};
use weedle_base::term::{Enum, SemiColon};
use weedle_base::{IResult, Parse, TryClone};
use weedle_parts::common::{Braced, Docstring, Identifier};
use weedle_parts::literal::StringLit;
use weedle_types::attribute::ExtendedAttributeList;
use weedle_types::copies::{copy_attributes, copy_docstring};

#[tactic(auto, using(crate::proofs::written::EnumVariantRules::enum_variant_steps))]
impl<'a> Parse<'a> for EnumVariant<'a> {
    ghost reading = { own ENUM_VARIANT enum_variant_tree (Unit {0}) };

    fn parse(alloc: Global, input: &'a str) -> IResult<&'a str, Self> {
        let (rest, (docstring, value)) = Parse::parse(alloc, input)?;
        Ok((rest, EnumVariant { docstring, value }))
    }

    ghost lawful = { own_lawful ENUM_VARIANT enum_variant_tree (Unit {0}) };
}

impl TryClone for EnumVariant<'_> {
    ghost alike = { λ a b. enum_variant_tree a ≡ enum_variant_tree b };

    fn try_clone(&self, alloc: Global) -> Result<Self, AllocError> {
        Ok(EnumVariant {
            docstring: copy_docstring(&self.docstring, alloc)?,
            value: self.value,
        })
    }

    ghost equivalence = { seen_equivalence enum_variant_tree equal_equivalence };
}

impl<'a> EnumVariant<'a> {
    /// Its fields, in order: `docstring` and `value`.
    pub fn into_fields(self) -> (Option<Docstring>, StringLit<'a>)
        ensures { result ≡ (self.entry.docstring, self.entry.value) }
    {
        let EnumVariant { docstring, value } = self;
        (docstring, value)
    }
}

impl TryClone for EnumDefinition<'_> {
    ghost alike = { λ a b. enum_definition_tree a ≡ enum_definition_tree b };

    fn try_clone(&self, alloc: Global) -> Result<Self, AllocError> {
        Ok(EnumDefinition {
            docstring: copy_docstring(&self.docstring, alloc)?,
            attributes: copy_attributes(&self.attributes, alloc)?,
            enum_: self.enum_,
            identifier: self.identifier,
            values: copy_enum_values(&self.values, alloc)?,
            semi_colon: self.semi_colon,
        })
    }

    ghost equivalence = { seen_equivalence enum_definition_tree equal_equivalence };
}

impl<'a> EnumDefinition<'a> {
    /// Its fields, in order: `docstring`, `attributes`, `enum_`, `identifier`, `values` and
    /// `semi_colon`.
    pub fn into_fields(
        self,
    ) -> (
        Option<Docstring>,
        Option<ExtendedAttributeList<'a>>,
        Enum,
        Identifier<'a>,
        Braced<EnumValueList<'a>>,
        SemiColon,
    )
        ensures { result ≡ (
          self.entry.docstring,
          self.entry.attributes,
          self.entry.enum_,
          self.entry.identifier,
          self.entry.values,
          self.entry.semi_colon,
        ) }
    {
        let EnumDefinition {
            docstring,
            attributes,
            enum_,
            identifier,
            values,
            semi_colon,
        } = self;
        (docstring, attributes, enum_, identifier, values, semi_colon)
    }
}
