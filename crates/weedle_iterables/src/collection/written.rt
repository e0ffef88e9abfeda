//! What follows from the declarations of the module above.
//!
//! Written by tools/impls.py, and not edited by hand.

ghost use Rattle.std.specs.Prelude.{◌≡◌};
ghost use Rattle.weedle_base.specs.AlikeLaws.{equal_equivalence, seen_equivalence};
ghost use Rattle.weedle_base.specs.Own.{own};
ghost use Rattle.weedle_base.specs.OwnLaws.{own_lawful};
ghost use Rattle.weedle_grammar.specs.written.Table.InterfaceMembers.{
  MAPLIKE_INTERFACE_MEMBER,
  SETLIKE_INTERFACE_MEMBER,
};
ghost use Rattle.weedle_iterables.specs.written.Trees.{
  maplike_interface_member_tree,
  setlike_interface_member_tree,
};

use super::{MaplikeInterfaceMember, SetlikeInterfaceMember};
use std::alloc::{AllocError, Global};
use weedle_base::term::{Comma, Maplike, ReadOnly, SemiColon, Setlike};
use weedle_base::{IResult, Parse, TryClone};
use weedle_parts::common::Generics;
use weedle_types::attribute::ExtendedAttributeList;
use weedle_types::copies::{copy_attributes, copy_one_type, copy_two_types};
use weedle_types::fields::attributes_and_four;
use weedle_types::types::AttributedType;

#[tactic(auto, using(crate::proofs::written::CollectionRules::maplike_interface_member_steps))]
impl<'a> Parse<'a> for MaplikeInterfaceMember<'a> {
    ghost reading = { own MAPLIKE_INTERFACE_MEMBER maplike_interface_member_tree (Unit {0}) };

    fn parse(alloc: Global, input: &'a str) -> IResult<&'a str, Self> {
        match attributes_and_four(alloc, input) {
            Ok((rest, (attributes, readonly, maplike, generics, semi_colon))) => Ok((
                rest,
                MaplikeInterfaceMember {
                    attributes,
                    readonly,
                    maplike,
                    generics,
                    semi_colon,
                },
            )),
            Err(error) => Err(error),
        }
    }

    ghost lawful = { own_lawful MAPLIKE_INTERFACE_MEMBER maplike_interface_member_tree (Unit {0}) };
}

impl TryClone for MaplikeInterfaceMember<'_> {
    ghost alike = { λ a b. maplike_interface_member_tree a ≡ maplike_interface_member_tree b };

    fn try_clone(&self, alloc: Global) -> Result<Self, AllocError> {
        Ok(MaplikeInterfaceMember {
            attributes: copy_attributes(&self.attributes, alloc)?,
            readonly: self.readonly,
            maplike: self.maplike,
            generics: copy_two_types(&self.generics, alloc)?,
            semi_colon: self.semi_colon,
        })
    }

    ghost equivalence = { seen_equivalence maplike_interface_member_tree equal_equivalence };
}

impl<'a> MaplikeInterfaceMember<'a> {
    /// Its fields, in order: `attributes`, `readonly`, `maplike`, `generics` and `semi_colon`.
    pub fn into_fields(
        self,
    ) -> (
        Option<ExtendedAttributeList<'a>>,
        Option<ReadOnly>,
        Maplike,
        Generics<(AttributedType<'a>, Comma, AttributedType<'a>)>,
        SemiColon,
    )
        ensures { result ≡ (
          self.entry.attributes,
          self.entry.readonly,
          self.entry.maplike,
          self.entry.generics,
          self.entry.semi_colon,
        ) }
    {
        let MaplikeInterfaceMember {
            attributes,
            readonly,
            maplike,
            generics,
            semi_colon,
        } = self;
        (attributes, readonly, maplike, generics, semi_colon)
    }
}

#[tactic(auto, using(crate::proofs::written::CollectionRules::setlike_interface_member_steps))]
impl<'a> Parse<'a> for SetlikeInterfaceMember<'a> {
    ghost reading = { own SETLIKE_INTERFACE_MEMBER setlike_interface_member_tree (Unit {0}) };

    fn parse(alloc: Global, input: &'a str) -> IResult<&'a str, Self> {
        match attributes_and_four(alloc, input) {
            Ok((rest, (attributes, readonly, setlike, generics, semi_colon))) => Ok((
                rest,
                SetlikeInterfaceMember {
                    attributes,
                    readonly,
                    setlike,
                    generics,
                    semi_colon,
                },
            )),
            Err(error) => Err(error),
        }
    }

    ghost lawful = { own_lawful SETLIKE_INTERFACE_MEMBER setlike_interface_member_tree (Unit {0}) };
}

impl TryClone for SetlikeInterfaceMember<'_> {
    ghost alike = { λ a b. setlike_interface_member_tree a ≡ setlike_interface_member_tree b };

    fn try_clone(&self, alloc: Global) -> Result<Self, AllocError> {
        Ok(SetlikeInterfaceMember {
            attributes: copy_attributes(&self.attributes, alloc)?,
            readonly: self.readonly,
            setlike: self.setlike,
            generics: copy_one_type(&self.generics, alloc)?,
            semi_colon: self.semi_colon,
        })
    }

    ghost equivalence = { seen_equivalence setlike_interface_member_tree equal_equivalence };
}

impl<'a> SetlikeInterfaceMember<'a> {
    /// Its fields, in order: `attributes`, `readonly`, `setlike`, `generics` and `semi_colon`.
    pub fn into_fields(
        self,
    ) -> (
        Option<ExtendedAttributeList<'a>>,
        Option<ReadOnly>,
        Setlike,
        Generics<AttributedType<'a>>,
        SemiColon,
    )
        ensures { result ≡ (
          self.entry.attributes,
          self.entry.readonly,
          self.entry.setlike,
          self.entry.generics,
          self.entry.semi_colon,
        ) }
    {
        let SetlikeInterfaceMember {
            attributes,
            readonly,
            setlike,
            generics,
            semi_colon,
        } = self;
        (attributes, readonly, setlike, generics, semi_colon)
    }
}
