//! What follows from the declarations of the module above.
//!
//! Written by tools/impls.py, and not edited by hand.

ghost use Rattle.std.specs.Prelude.{◌≡◌};
ghost use Rattle.weedle_base.specs.AlikeLaws.{equal_equivalence, seen_equivalence};
ghost use Rattle.weedle_base.specs.Own.{own};
ghost use Rattle.weedle_base.specs.OwnLaws.{own_lawful};
ghost use Rattle.weedle_grammar.specs.written.Table.Definitions.{INCLUDES_STATEMENT_DEFINITION};
ghost use Rattle.weedle_statements.specs.written.Trees.{
  implements_definition_tree,
  includes_statement_definition_tree,
};

use super::{ImplementsDefinition, IncludesStatementDefinition};
use std::alloc::{AllocError, Global};
use weedle_base::term::{Implements, Includes, SemiColon};
use weedle_base::{IResult, Parse, TryClone};
use weedle_parts::common::Identifier;
use weedle_types::attribute::ExtendedAttributeList;
use weedle_types::copies::copy_attributes;
use weedle_types::fields::attributes_and_four;

#[tactic(auto, using(crate::proofs::written::StatementRules::includes_statement_definition_steps))]
impl<'a> Parse<'a> for IncludesStatementDefinition<'a> {
    ghost reading = { own INCLUDES_STATEMENT_DEFINITION includes_statement_definition_tree
        (Unit {0}) };

    fn parse(alloc: Global, input: &'a str) -> IResult<&'a str, Self> {
        match attributes_and_four(alloc, input) {
            Ok((rest, (attributes, lhs_identifier, includes, rhs_identifier, semi_colon))) => Ok((
                rest,
                IncludesStatementDefinition {
                    attributes,
                    lhs_identifier,
                    includes,
                    rhs_identifier,
                    semi_colon,
                },
            )),
            Err(error) => Err(error),
        }
    }

    ghost lawful = { own_lawful INCLUDES_STATEMENT_DEFINITION includes_statement_definition_tree
        (Unit {0}) };
}

impl TryClone for IncludesStatementDefinition<'_> {
    ghost alike = { λ a b. includes_statement_definition_tree a
        ≡ includes_statement_definition_tree b };

    fn try_clone(&self, alloc: Global) -> Result<Self, AllocError> {
        Ok(IncludesStatementDefinition {
            attributes: copy_attributes(&self.attributes, alloc)?,
            lhs_identifier: self.lhs_identifier,
            includes: self.includes,
            rhs_identifier: self.rhs_identifier,
            semi_colon: self.semi_colon,
        })
    }

    ghost equivalence = { seen_equivalence includes_statement_definition_tree equal_equivalence };
}

impl<'a> IncludesStatementDefinition<'a> {
    /// Its fields, in order: `attributes`, `lhs_identifier`, `includes`, `rhs_identifier` and
    /// `semi_colon`.
    pub fn into_fields(
        self,
    ) -> (
        Option<ExtendedAttributeList<'a>>,
        Identifier<'a>,
        Includes,
        Identifier<'a>,
        SemiColon,
    )
        ensures { result ≡ (
          self.entry.attributes,
          self.entry.lhs_identifier,
          self.entry.includes,
          self.entry.rhs_identifier,
          self.entry.semi_colon,
        ) }
    {
        let IncludesStatementDefinition {
            attributes,
            lhs_identifier,
            includes,
            rhs_identifier,
            semi_colon,
        } = self;
        (
            attributes,
            lhs_identifier,
            includes,
            rhs_identifier,
            semi_colon,
        )
    }
}

impl TryClone for ImplementsDefinition<'_> {
    ghost alike = { λ a b. implements_definition_tree a ≡ implements_definition_tree b };

    fn try_clone(&self, alloc: Global) -> Result<Self, AllocError> {
        Ok(ImplementsDefinition {
            attributes: copy_attributes(&self.attributes, alloc)?,
            lhs_identifier: self.lhs_identifier,
            includes: self.includes,
            rhs_identifier: self.rhs_identifier,
            semi_colon: self.semi_colon,
        })
    }

    ghost equivalence = { seen_equivalence implements_definition_tree equal_equivalence };
}

impl<'a> ImplementsDefinition<'a> {
    /// Its fields, in order: `attributes`, `lhs_identifier`, `includes`, `rhs_identifier` and
    /// `semi_colon`.
    pub fn into_fields(
        self,
    ) -> (
        Option<ExtendedAttributeList<'a>>,
        Identifier<'a>,
        Implements,
        Identifier<'a>,
        SemiColon,
    )
        ensures { result ≡ (
          self.entry.attributes,
          self.entry.lhs_identifier,
          self.entry.includes,
          self.entry.rhs_identifier,
          self.entry.semi_colon,
        ) }
    {
        let ImplementsDefinition {
            attributes,
            lhs_identifier,
            includes,
            rhs_identifier,
            semi_colon,
        } = self;
        (
            attributes,
            lhs_identifier,
            includes,
            rhs_identifier,
            semi_colon,
        )
    }
}
