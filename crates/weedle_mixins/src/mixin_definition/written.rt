//! What follows from the declarations of the module above.
//!
//! Written by tools/impls.py, and not edited by hand.

ghost use Rattle.std.specs.Prelude.{◌≡◌};
ghost use Rattle.weedle_base.specs.AlikeLaws.{equal_equivalence, seen_equivalence};
ghost use Rattle.weedle_base.specs.Own.{own};
ghost use Rattle.weedle_base.specs.OwnLaws.{own_lawful};
ghost use Rattle.weedle_grammar.specs.written.Table.Definitions.{
  INTERFACE_MIXIN_DEFINITION,
  PARTIAL_INTERFACE_MIXIN_DEFINITION,
};
ghost use Rattle.weedle_mixins.specs.written.Trees.{
  interface_mixin_definition_tree,
  partial_interface_mixin_definition_tree,
};

use super::{InterfaceMixinDefinition, PartialInterfaceMixinDefinition};
use crate::copies::copy_mixin_members;
use crate::mixin::MixinMembers;
use std::alloc::{AllocError, Global};
use weedle_base::term::{Interface, Mixin, Partial, SemiColon};
use weedle_base::{IResult, Parse, TryClone};
use weedle_parts::common::{Braced, Identifier};
use weedle_types::attribute::ExtendedAttributeList;
use weedle_types::copies::copy_attributes;
use weedle_types::fields::{attributes_and_five, attributes_and_six};

#[tactic(auto, using(crate::proofs::written::MixinDefinitionRules::interface_mixin_definition_steps))]
impl<'a> Parse<'a> for InterfaceMixinDefinition<'a> {
    ghost reading = { own INTERFACE_MIXIN_DEFINITION interface_mixin_definition_tree (Unit {0}) };

    fn parse(alloc: Global, input: &'a str) -> IResult<&'a str, Self> {
        match attributes_and_five(alloc, input) {
            Ok((rest, (attributes, interface, mixin, identifier, members, semi_colon))) => Ok((
                rest,
                InterfaceMixinDefinition {
                    attributes,
                    interface,
                    mixin,
                    identifier,
                    members,
                    semi_colon,
                },
            )),
            Err(error) => Err(error),
        }
    }

    ghost lawful = { own_lawful INTERFACE_MIXIN_DEFINITION interface_mixin_definition_tree
        (Unit {0}) };
}

impl TryClone for InterfaceMixinDefinition<'_> {
    ghost alike = { λ a b. interface_mixin_definition_tree a ≡ interface_mixin_definition_tree b };

    fn try_clone(&self, alloc: Global) -> Result<Self, AllocError> {
        Ok(InterfaceMixinDefinition {
            attributes: copy_attributes(&self.attributes, alloc)?,
            interface: self.interface,
            mixin: self.mixin,
            identifier: self.identifier,
            members: copy_mixin_members(&self.members, alloc)?,
            semi_colon: self.semi_colon,
        })
    }

    ghost equivalence = { seen_equivalence interface_mixin_definition_tree equal_equivalence };
}

impl<'a> InterfaceMixinDefinition<'a> {
    /// Its fields, in order: `attributes`, `interface`, `mixin`, `identifier`, `members` and
    /// `semi_colon`.
    pub fn into_fields(
        self,
    ) -> (
        Option<ExtendedAttributeList<'a>>,
        Interface,
        Mixin,
        Identifier<'a>,
        Braced<MixinMembers<'a>>,
        SemiColon,
    )
        ensures { result ≡ (
          self.entry.attributes,
          self.entry.interface,
          self.entry.mixin,
          self.entry.identifier,
          self.entry.members,
          self.entry.semi_colon,
        ) }
    {
        let InterfaceMixinDefinition {
            attributes,
            interface,
            mixin,
            identifier,
            members,
            semi_colon,
        } = self;
        (
            attributes, interface, mixin, identifier, members, semi_colon,
        )
    }
}

#[tactic(auto, using(crate::proofs::written::MixinDefinitionRules::partial_interface_mixin_definition_steps))]
impl<'a> Parse<'a> for PartialInterfaceMixinDefinition<'a> {
    ghost reading = { own PARTIAL_INTERFACE_MIXIN_DEFINITION partial_interface_mixin_definition_tree
        (Unit {0}) };

    fn parse(alloc: Global, input: &'a str) -> IResult<&'a str, Self> {
        match attributes_and_six(alloc, input) {
            Ok((rest, (attributes, partial, interface, mixin, identifier, members, semi_colon))) =>
                Ok((
                    rest,
                    PartialInterfaceMixinDefinition {
                        attributes,
                        partial,
                        interface,
                        mixin,
                        identifier,
                        members,
                        semi_colon,
                    },
                )),
            Err(error) => Err(error),
        }
    }

    ghost lawful = { own_lawful PARTIAL_INTERFACE_MIXIN_DEFINITION
        partial_interface_mixin_definition_tree (Unit {0}) };
}

impl TryClone for PartialInterfaceMixinDefinition<'_> {
    ghost alike = { λ a b. partial_interface_mixin_definition_tree a
        ≡ partial_interface_mixin_definition_tree b };

    fn try_clone(&self, alloc: Global) -> Result<Self, AllocError> {
        Ok(PartialInterfaceMixinDefinition {
            attributes: copy_attributes(&self.attributes, alloc)?,
            partial: self.partial,
            interface: self.interface,
            mixin: self.mixin,
            identifier: self.identifier,
            members: copy_mixin_members(&self.members, alloc)?,
            semi_colon: self.semi_colon,
        })
    }

    ghost equivalence = { seen_equivalence partial_interface_mixin_definition_tree
        equal_equivalence };
}

impl<'a> PartialInterfaceMixinDefinition<'a> {
    /// Its fields, in order: `attributes`, `partial`, `interface`, `mixin`, `identifier`, `members`
    /// and `semi_colon`.
    pub fn into_fields(
        self,
    ) -> (
        Option<ExtendedAttributeList<'a>>,
        Partial,
        Interface,
        Mixin,
        Identifier<'a>,
        Braced<MixinMembers<'a>>,
        SemiColon,
    )
        ensures { result ≡ (
          self.entry.attributes,
          self.entry.partial,
          self.entry.interface,
          self.entry.mixin,
          self.entry.identifier,
          self.entry.members,
          self.entry.semi_colon,
        ) }
    {
        let PartialInterfaceMixinDefinition {
            attributes,
            partial,
            interface,
            mixin,
            identifier,
            members,
            semi_colon,
        } = self;
        (
            attributes, partial, interface, mixin, identifier, members, semi_colon,
        )
    }
}
