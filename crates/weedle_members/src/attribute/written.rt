//! What follows from the declarations of the module above.
//!
//! Written by tools/impls.py, and not edited by hand.

ghost use Rattle.std.specs.Prelude.{◌≡◌};
ghost use Rattle.weedle_base.specs.AlikeLaws.{equal_equivalence, seen_equivalence};
ghost use Rattle.weedle_base.specs.Own.{own};
ghost use Rattle.weedle_base.specs.OwnLaws.{own_lawful};
ghost use Rattle.weedle_grammar.specs.written.Table.InterfaceMembers.{ATTRIBUTE_INTERFACE_MEMBER};
ghost use Rattle.weedle_members.specs.written.Trees.{attribute_interface_member_tree};

use super::AttributeInterfaceMember;
use std::alloc::{AllocError, Global};
use weedle_base::term::{Attribute, ReadOnly, SemiColon};
use weedle_base::{IResult, Parse, TryClone};
use weedle_parts::common::Identifier;
use weedle_parts::modifier::StringifierOrInheritOrStatic;
use weedle_types::attribute::ExtendedAttributeList;
use weedle_types::copies::copy_attributes;
use weedle_types::fields::attributes_and_six;
use weedle_types::types::AttributedType;

#[tactic(auto, using(crate::proofs::written::AttributeRules::attribute_interface_member_steps))]
impl<'a> Parse<'a> for AttributeInterfaceMember<'a> {
    ghost reading = { own ATTRIBUTE_INTERFACE_MEMBER attribute_interface_member_tree (Unit {0}) };

    fn parse(alloc: Global, input: &'a str) -> IResult<&'a str, Self> {
        match attributes_and_six(alloc, input) {
            Ok(
                (rest, (attributes, modifier, readonly, attribute, type_, identifier, semi_colon)),
            ) => Ok((
                rest,
                AttributeInterfaceMember {
                    attributes,
                    modifier,
                    readonly,
                    attribute,
                    type_,
                    identifier,
                    semi_colon,
                },
            )),
            Err(error) => Err(error),
        }
    }

    ghost lawful = { own_lawful ATTRIBUTE_INTERFACE_MEMBER attribute_interface_member_tree
        (Unit {0}) };
}

impl TryClone for AttributeInterfaceMember<'_> {
    ghost alike = { λ a b. attribute_interface_member_tree a ≡ attribute_interface_member_tree b };

    fn try_clone(&self, alloc: Global) -> Result<Self, AllocError> {
        Ok(AttributeInterfaceMember {
            attributes: copy_attributes(&self.attributes, alloc)?,
            modifier: self.modifier,
            readonly: self.readonly,
            attribute: self.attribute,
            type_: self.type_.try_clone(alloc)?,
            identifier: self.identifier,
            semi_colon: self.semi_colon,
        })
    }

    ghost equivalence = { seen_equivalence attribute_interface_member_tree equal_equivalence };
}

impl<'a> AttributeInterfaceMember<'a> {
    /// Its fields, in order: `attributes`, `modifier`, `readonly`, `attribute`, `type_`,
    /// `identifier` and `semi_colon`.
    pub fn into_fields(
        self,
    ) -> (
        Option<ExtendedAttributeList<'a>>,
        Option<StringifierOrInheritOrStatic>,
        Option<ReadOnly>,
        Attribute,
        AttributedType<'a>,
        Identifier<'a>,
        SemiColon,
    )
        ensures { result ≡ (
          self.entry.attributes,
          self.entry.modifier,
          self.entry.readonly,
          self.entry.attribute,
          self.entry.type_,
          self.entry.identifier,
          self.entry.semi_colon,
        ) }
    {
        let AttributeInterfaceMember {
            attributes,
            modifier,
            readonly,
            attribute,
            type_,
            identifier,
            semi_colon,
        } = self;
        (
            attributes, modifier, readonly, attribute, type_, identifier, semi_colon,
        )
    }
}
