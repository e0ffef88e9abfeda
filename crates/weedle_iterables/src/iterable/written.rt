//! What follows from the declarations of the module above.
//!
//! Written by tools/impls.py, and not edited by hand.

ghost use Rattle.std.specs.Prelude.{◌↔◌, ◌≡◌};
ghost use Rattle.weedle_base.specs.AlikeLaws.{equal_equivalence, seen_equivalence};
ghost use Rattle.weedle_base.specs.Own.{own};
ghost use Rattle.weedle_base.specs.OwnLaws.{own_lawful};
ghost use Rattle.weedle_grammar.specs.written.Table.InterfaceMembers.{
  DOUBLE_TYPED_ITERABLE,
  ITERABLE_INTERFACE_MEMBER,
  SINGLE_TYPED_ITERABLE,
};
ghost use Rattle.weedle_iterables.specs.written.Trees.{
  double_typed_iterable_tree,
  iterable_interface_member_tree,
  single_typed_iterable_tree,
};

use super::{DoubleTypedIterable, IterableInterfaceMember, SingleTypedIterable};
use std::alloc::{AllocError, Global};
use weedle_base::Choice::{self, First, Second};
use weedle_base::term::{Comma, Iterable, SemiColon};
use weedle_base::{IResult, Parse, TryClone};
use weedle_parts::common::Generics;
use weedle_types::attribute::ExtendedAttributeList;
use weedle_types::copies::{copy_attributes, copy_one_type, copy_two_types};
use weedle_types::fields::attributes_and_three;
use weedle_types::types::AttributedType;

#[tactic(auto, using(crate::proofs::written::IterableRules::single_typed_iterable_steps))]
impl<'a> Parse<'a> for SingleTypedIterable<'a> {
    ghost reading = { own SINGLE_TYPED_ITERABLE single_typed_iterable_tree (Unit {0}) };

    fn parse(alloc: Global, input: &'a str) -> IResult<&'a str, Self> {
        match attributes_and_three(alloc, input) {
            Ok((rest, (attributes, iterable, generics, semi_colon))) => Ok((
                rest,
                SingleTypedIterable {
                    attributes,
                    iterable,
                    generics,
                    semi_colon,
                },
            )),
            Err(error) => Err(error),
        }
    }

    ghost lawful = { own_lawful SINGLE_TYPED_ITERABLE single_typed_iterable_tree (Unit {0}) };
}

impl TryClone for SingleTypedIterable<'_> {
    ghost alike = { λ a b. single_typed_iterable_tree a ≡ single_typed_iterable_tree b };

    fn try_clone(&self, alloc: Global) -> Result<Self, AllocError> {
        Ok(SingleTypedIterable {
            attributes: copy_attributes(&self.attributes, alloc)?,
            iterable: self.iterable,
            generics: copy_one_type(&self.generics, alloc)?,
            semi_colon: self.semi_colon,
        })
    }

    ghost equivalence = { seen_equivalence single_typed_iterable_tree equal_equivalence };
}

impl<'a> SingleTypedIterable<'a> {
    /// Its fields, in order: `attributes`, `iterable`, `generics` and `semi_colon`.
    pub fn into_fields(
        self,
    ) -> (
        Option<ExtendedAttributeList<'a>>,
        Iterable,
        Generics<AttributedType<'a>>,
        SemiColon,
    )
        ensures { result ≡ (
          self.entry.attributes,
          self.entry.iterable,
          self.entry.generics,
          self.entry.semi_colon,
        ) }
    {
        let SingleTypedIterable {
            attributes,
            iterable,
            generics,
            semi_colon,
        } = self;
        (attributes, iterable, generics, semi_colon)
    }
}

#[tactic(auto, using(crate::proofs::written::IterableRules::double_typed_iterable_steps))]
impl<'a> Parse<'a> for DoubleTypedIterable<'a> {
    ghost reading = { own DOUBLE_TYPED_ITERABLE double_typed_iterable_tree (Unit {0}) };

    fn parse(alloc: Global, input: &'a str) -> IResult<&'a str, Self> {
        match attributes_and_three(alloc, input) {
            Ok((rest, (attributes, iterable, generics, semi_colon))) => Ok((
                rest,
                DoubleTypedIterable {
                    attributes,
                    iterable,
                    generics,
                    semi_colon,
                },
            )),
            Err(error) => Err(error),
        }
    }

    ghost lawful = { own_lawful DOUBLE_TYPED_ITERABLE double_typed_iterable_tree (Unit {0}) };
}

impl TryClone for DoubleTypedIterable<'_> {
    ghost alike = { λ a b. double_typed_iterable_tree a ≡ double_typed_iterable_tree b };

    fn try_clone(&self, alloc: Global) -> Result<Self, AllocError> {
        Ok(DoubleTypedIterable {
            attributes: copy_attributes(&self.attributes, alloc)?,
            iterable: self.iterable,
            generics: copy_two_types(&self.generics, alloc)?,
            semi_colon: self.semi_colon,
        })
    }

    ghost equivalence = { seen_equivalence double_typed_iterable_tree equal_equivalence };
}

impl<'a> DoubleTypedIterable<'a> {
    /// Its fields, in order: `attributes`, `iterable`, `generics` and `semi_colon`.
    pub fn into_fields(
        self,
    ) -> (
        Option<ExtendedAttributeList<'a>>,
        Iterable,
        Generics<(AttributedType<'a>, Comma, AttributedType<'a>)>,
        SemiColon,
    )
        ensures { result ≡ (
          self.entry.attributes,
          self.entry.iterable,
          self.entry.generics,
          self.entry.semi_colon,
        ) }
    {
        let DoubleTypedIterable {
            attributes,
            iterable,
            generics,
            semi_colon,
        } = self;
        (attributes, iterable, generics, semi_colon)
    }
}

#[tactic(auto, using(crate::proofs::written::IterableRules::iterable_interface_member_steps))]
impl<'a> Parse<'a> for IterableInterfaceMember<'a> {
    ghost reading = { own ITERABLE_INTERFACE_MEMBER iterable_interface_member_tree (Unit {0}) };

    fn parse(alloc: Global, input: &'a str) -> IResult<&'a str, Self> {
        let (rest, read) = Choice::parse(alloc, input)?;
        let member = match read {
            First(member) => IterableInterfaceMember::Single(member),
            Second(member) => IterableInterfaceMember::Double(member),
        };
        Ok((rest, member))
    }

    ghost lawful = { own_lawful ITERABLE_INTERFACE_MEMBER iterable_interface_member_tree
        (Unit {0}) };
}

impl TryClone for IterableInterfaceMember<'_> {
    ghost alike = { λ a b. iterable_interface_member_tree a ≡ iterable_interface_member_tree b };

    fn try_clone(&self, alloc: Global) -> Result<Self, AllocError> {
        match self {
            IterableInterfaceMember::Single(member) => Ok(IterableInterfaceMember::Single(
                member.try_clone(alloc)?,
            )),
            IterableInterfaceMember::Double(member) => Ok(IterableInterfaceMember::Double(
                member.try_clone(alloc)?,
            )),
        }
    }

    ghost equivalence = { seen_equivalence iterable_interface_member_tree equal_equivalence };
}

impl<'a> From<SingleTypedIterable<'a>> for IterableInterfaceMember<'a> {
    ghost use Rattle.weedle_iterables.specs.declared.iterable.IterableInterfaceMember.TheVariants.{
      Single,
    };

    ghost from_gives = { λ value made. made ≡ Single value };

    fn from(value: SingleTypedIterable<'a>) -> Self {
        IterableInterfaceMember::Single(value)
    }
}

impl<'a> From<DoubleTypedIterable<'a>> for IterableInterfaceMember<'a> {
    ghost use Rattle.weedle_iterables.specs.declared.iterable.IterableInterfaceMember.TheVariants.{
      Double,
    };

    ghost from_gives = { λ value made. made ≡ Double value };

    fn from(value: DoubleTypedIterable<'a>) -> Self {
        IterableInterfaceMember::Double(value)
    }
}

impl<'a> IterableInterfaceMember<'a> {
    /// What it holds where it is `IterableInterfaceMember::Single`, and else None.
    pub fn into_single(self) -> Option<SingleTypedIterable<'a>>
        ensures { (held : SingleTypedIterable)
            → result ≡ Some held ↔ self.entry ≡ IterableInterfaceMember.Single held }
    {
        match self {
            IterableInterfaceMember::Single(held) => Some(held),
            _ => None,
        }
    }

    /// What it holds where it is `IterableInterfaceMember::Double`, and else None.
    pub fn into_double(self) -> Option<DoubleTypedIterable<'a>>
        ensures { (held : DoubleTypedIterable)
            → result ≡ Some held ↔ self.entry ≡ IterableInterfaceMember.Double held }
    {
        match self {
            IterableInterfaceMember::Double(held) => Some(held),
            _ => None,
        }
    }
}
