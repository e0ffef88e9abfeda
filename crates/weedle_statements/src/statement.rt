//! The statements that an interface uses a mixin or another interface.

ghost use Rattle.weedle_base.specs.Own.{own};
ghost use Rattle.weedle_base.specs.OwnLaws.{own_lawful};
ghost use Rattle.weedle_grammar.specs.written.Table.Definitions.{IMPLEMENTS_DEFINITION};
ghost use Rattle.weedle_statements.specs.written.Trees.{implements_definition_tree};

mod written;

use std::alloc::Global;
use weedle_base::term::{Implements, Includes, SemiColon};
use weedle_base::{IResult, Parse};
use weedle_parts::common::Identifier;
use weedle_types::attribute::ExtendedAttributeList;
use weedle_types::fields::attributes_and_four;

/// The use of a mixin by an interface, as `A includes B;`. No docstring may precede it.
#[derive(Debug, PartialEq, Eq, PartialOrd, Ord, Hash)]
pub struct IncludesStatementDefinition<'a> {
    /// The extended attributes in brackets, as `[Exposed=Window]`, where present.
    pub attributes: Option<ExtendedAttributeList<'a>>,
    /// The name of the interface, before `includes`.
    pub lhs_identifier: Identifier<'a>,
    /// The word `includes`.
    pub includes: Includes,
    /// The name of the mixin that it uses, behind `includes`.
    pub rhs_identifier: Identifier<'a>,
    /// The `;` at the end.
    pub semi_colon: SemiColon,
}

impl Drop for IncludesStatementDefinition<'_> {
    fn drop(self) {
        let IncludesStatementDefinition {
            attributes: _,
            lhs_identifier: _,
            includes: _,
            rhs_identifier: _,
            semi_colon: _,
        } = self;
    }
}

/// The older form of a mixin's use, as `A implements B;`. No docstring may precede it.
#[derive(Debug, PartialEq, Eq, PartialOrd, Ord, Hash)]
pub struct ImplementsDefinition<'a> {
    /// The extended attributes in brackets, as `[Exposed=Window]`, where present.
    pub attributes: Option<ExtendedAttributeList<'a>>,
    /// The name of the interface, before `implements`.
    pub lhs_identifier: Identifier<'a>,
    /// The word `implements`.
    pub includes: Implements,
    /// The name of the interface that it implements, behind `implements`.
    pub rhs_identifier: Identifier<'a>,
    /// The `;` at the end.
    pub semi_colon: SemiColon,
}

impl Drop for ImplementsDefinition<'_> {
    fn drop(self) {
        let ImplementsDefinition {
            attributes: _,
            lhs_identifier: _,
            includes: _,
            rhs_identifier: _,
            semi_colon: _,
        } = self;
    }
}

#[tactic(auto, using(crate::proofs::written::StatementRules::implements_definition_steps))]
impl<'a> Parse<'a> for ImplementsDefinition<'a> {
    ghost reading = { own IMPLEMENTS_DEFINITION implements_definition_tree (Unit {0}) };

    fn parse(alloc: Global, input: &'a str) -> IResult<&'a str, Self> {
        match attributes_and_four(alloc, input) {
            Ok((rest, (attributes, lhs_identifier, implements, rhs_identifier, semi_colon))) => Ok(
                (
                    rest,
                    ImplementsDefinition {
                        attributes,
                        lhs_identifier,
                        includes: implements,
                        rhs_identifier,
                        semi_colon,
                    },
                ),
            ),
            Err(error) => Err(error),
        }
    }

    ghost lawful = { own_lawful IMPLEMENTS_DEFINITION implements_definition_tree (Unit {0}) };
}
