//! Enums.

ghost use Rattle.weedle_base.specs.Own.{own};
ghost use Rattle.weedle_base.specs.OwnLaws.{own_lawful};
ghost use Rattle.weedle_base.specs.Reading.{Answers};
ghost use Rattle.weedle_grammar.specs.written.Table.Definitions.{ENUM_DEFINITION};
ghost use Rattle.weedle_grammar.specs.written.Table.OtherMembers.{BRACED_ENUM_VALUE_LIST};
ghost use Rattle.weedle_statements.specs.written.Trees.{enum_definition_tree, enum_values_tree};

mod written;

use std::alloc::Global;
use weedle_base::term::{Comma, Enum, SemiColon};
use weedle_base::{IResult, Parse};
use weedle_parts::common::{Braced, Docstring, Identifier, PunctuatedNonEmpty};
use weedle_parts::literal::StringLit;
use weedle_types::attribute::ExtendedAttributeList;
use weedle_types::parts::attributes;

/// The values of an enum, one at least, and a comma behind the last where present, as `"a", "b",`.
pub type EnumValueList<'a> = PunctuatedNonEmpty<EnumVariant<'a>, Comma>;

/// A value of an enum, as `"blob"`. A docstring may precede it.
#[derive(Debug, PartialEq, Eq, PartialOrd, Ord, Hash)]
pub struct EnumVariant<'a> {
    /// The docstring in front, where present.
    pub docstring: Option<Docstring>,
    /// The value in quotes, as `"blob"`: `value.0` is what is between them.
    pub value: StringLit<'a>,
}

impl Drop for EnumVariant<'_> {
    fn drop(self) {
        let EnumVariant {
            docstring: _,
            value: _,
        } = self;
    }
}

/// An enum, as `enum A { "a", "b" };`: one value at least. A docstring may precede it.
#[derive(Debug, PartialEq, Eq, PartialOrd, Ord, Hash)]
pub struct EnumDefinition<'a> {
    /// The docstring in front, where present.
    pub docstring: Option<Docstring>,
    /// The extended attributes in brackets, as `[Exposed=Window]`, where present.
    pub attributes: Option<ExtendedAttributeList<'a>>,
    /// The word `enum`.
    pub enum_: Enum,
    /// Its name.
    pub identifier: Identifier<'a>,
    /// Its values, between braces: `body.list` is their list, one at least.
    pub values: Braced<EnumValueList<'a>>,
    /// The `;` at the end.
    pub semi_colon: SemiColon,
}

impl Drop for EnumDefinition<'_> {
    fn drop(self) {
        let EnumDefinition {
            docstring: _,
            attributes: _,
            enum_: _,
            identifier: _,
            values: _,
            semi_colon: _,
        } = self;
    }
}

#[tactic(auto, using(crate::proofs::written::EnumRules::enum_definition_steps))]
impl<'a> Parse<'a> for EnumDefinition<'a> {
    ghost reading = { own ENUM_DEFINITION enum_definition_tree (Unit {0}) };

    fn parse(alloc: Global, input: &'a str) -> IResult<&'a str, Self> {
        let (rest, docstring) = Option::parse(alloc, input)?;
        let (rest, attributes) = attributes(alloc, rest)?;
        let (rest, enum_) = Enum::parse(alloc, rest)?;
        let (rest, identifier) = Identifier::parse(alloc, rest)?;
        let (rest, values) = enum_values(alloc, rest)?;
        let (rest, semi_colon) = SemiColon::parse(alloc, rest)?;
        Ok((
            rest,
            EnumDefinition {
                docstring,
                attributes,
                enum_,
                identifier,
                values,
                semi_colon,
            },
        ))
    }

    ghost lawful = { own_lawful ENUM_DEFINITION enum_definition_tree (Unit {0}) };
}

/// Reads the values of an enum between braces.
fn enum_values<'a>(alloc: Global, input: &'a str) -> IResult<&'a str, Braced<EnumValueList<'a>>>
    ensures { Answers (own BRACED_ENUM_VALUE_LIST enum_values_tree (Unit {0})) input.now result }
{
    Braced::parse(alloc, input)
}
