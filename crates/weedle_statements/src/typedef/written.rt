//! What follows from the declarations of the module above.
//!
//! Written by tools/impls.py, and not edited by hand.

ghost use Rattle.std.specs.Prelude.{◌≡◌};
ghost use Rattle.weedle_base.specs.AlikeLaws.{equal_equivalence, seen_equivalence};
ghost use Rattle.weedle_base.specs.Own.{own};
ghost use Rattle.weedle_base.specs.OwnLaws.{own_lawful};
ghost use Rattle.weedle_grammar.specs.written.Table.Definitions.{TYPEDEF_DEFINITION};
ghost use Rattle.weedle_statements.specs.written.Trees.{typedef_definition_tree};

use super::TypedefDefinition;
use std::alloc::{AllocError, Global};
use weedle_base::term::{SemiColon, Typedef};
use weedle_base::{IResult, Parse, TryClone};
use weedle_parts::common::Identifier;
use weedle_types::attribute::ExtendedAttributeList;
use weedle_types::copies::copy_attributes;
use weedle_types::fields::attributes_and_four;
use weedle_types::types::AttributedType;

#[tactic(auto, using(crate::proofs::written::TypedefRules::typedef_definition_steps))]
impl<'a> Parse<'a> for TypedefDefinition<'a> {
    ghost reading = { own TYPEDEF_DEFINITION typedef_definition_tree (Unit {0}) };

    fn parse(alloc: Global, input: &'a str) -> IResult<&'a str, Self> {
        match attributes_and_four(alloc, input) {
            Ok((rest, (attributes, typedef, type_, identifier, semi_colon))) => Ok((
                rest,
                TypedefDefinition {
                    attributes,
                    typedef,
                    type_,
                    identifier,
                    semi_colon,
                },
            )),
            Err(error) => Err(error),
        }
    }

    ghost lawful = { own_lawful TYPEDEF_DEFINITION typedef_definition_tree (Unit {0}) };
}

impl TryClone for TypedefDefinition<'_> {
    ghost alike = { λ a b. typedef_definition_tree a ≡ typedef_definition_tree b };

    fn try_clone(&self, alloc: Global) -> Result<Self, AllocError> {
        Ok(TypedefDefinition {
            attributes: copy_attributes(&self.attributes, alloc)?,
            typedef: self.typedef,
            type_: self.type_.try_clone(alloc)?,
            identifier: self.identifier,
            semi_colon: self.semi_colon,
        })
    }

    ghost equivalence = { seen_equivalence typedef_definition_tree equal_equivalence };
}

impl<'a> TypedefDefinition<'a> {
    /// Its fields, in order: `attributes`, `typedef`, `type_`, `identifier` and `semi_colon`.
    pub fn into_fields(
        self,
    ) -> (
        Option<ExtendedAttributeList<'a>>,
        Typedef,
        AttributedType<'a>,
        Identifier<'a>,
        SemiColon,
    )
        ensures { result ≡ (
          self.entry.attributes,
          self.entry.typedef,
          self.entry.type_,
          self.entry.identifier,
          self.entry.semi_colon,
        ) }
    {
        let TypedefDefinition {
            attributes,
            typedef,
            type_,
            identifier,
            semi_colon,
        } = self;
        (attributes, typedef, type_, identifier, semi_colon)
    }
}
