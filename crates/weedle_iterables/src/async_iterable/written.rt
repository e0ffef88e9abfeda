//! What follows from the declarations of the module above.
//!
//! Written by tools/impls.py, and not edited by hand.

ghost use Rattle.std.specs.Prelude.{◌↔◌, ◌≡◌};
ghost use Rattle.weedle_base.specs.AlikeLaws.{equal_equivalence, seen_equivalence};
ghost use Rattle.weedle_base.specs.Own.{own};
ghost use Rattle.weedle_base.specs.OwnLaws.{own_lawful};
ghost use Rattle.weedle_grammar.specs.written.Table.InterfaceMembers.{
  ASYNC_ITERABLE_INTERFACE_MEMBER,
};
ghost use Rattle.weedle_iterables.specs.written.Trees.{
  async_iterable_interface_member_tree,
  double_typed_async_iterable_tree,
  single_typed_async_iterable_tree,
};

use super::{AsyncIterableInterfaceMember, DoubleTypedAsyncIterable, SingleTypedAsyncIterable};
use crate::copies::copy_optional_arguments;
use std::alloc::{AllocError, Global};
use weedle_base::Choice::{self, First, Second};
use weedle_base::term::{Async, Comma, Iterable, SemiColon};
use weedle_base::{IResult, Parse, TryClone};
use weedle_parts::common::Generics;
use weedle_types::argument::ParenthesizedArgumentList;
use weedle_types::attribute::ExtendedAttributeList;
use weedle_types::copies::{copy_attributes, copy_one_type, copy_two_types};
use weedle_types::types::AttributedType;

impl TryClone for SingleTypedAsyncIterable<'_> {
    ghost alike = { λ a b. single_typed_async_iterable_tree a
        ≡ single_typed_async_iterable_tree b };

    fn try_clone(&self, alloc: Global) -> Result<Self, AllocError> {
        Ok(SingleTypedAsyncIterable {
            attributes: copy_attributes(&self.attributes, alloc)?,
            async_iterable: self.async_iterable,
            generics: copy_one_type(&self.generics, alloc)?,
            args: copy_optional_arguments(&self.args, alloc)?,
            semi_colon: self.semi_colon,
        })
    }

    ghost equivalence = { seen_equivalence single_typed_async_iterable_tree equal_equivalence };
}

impl<'a> SingleTypedAsyncIterable<'a> {
    /// Its fields, in order: `attributes`, `async_iterable`, `generics`, `args` and `semi_colon`.
    pub fn into_fields(
        self,
    ) -> (
        Option<ExtendedAttributeList<'a>>,
        (Async, Iterable),
        Generics<AttributedType<'a>>,
        Option<ParenthesizedArgumentList<'a>>,
        SemiColon,
    )
        ensures { result ≡ (
          self.entry.attributes,
          self.entry.async_iterable,
          self.entry.generics,
          self.entry.args,
          self.entry.semi_colon,
        ) }
    {
        let SingleTypedAsyncIterable {
            attributes,
            async_iterable,
            generics,
            args,
            semi_colon,
        } = self;
        (attributes, async_iterable, generics, args, semi_colon)
    }
}

impl TryClone for DoubleTypedAsyncIterable<'_> {
    ghost alike = { λ a b. double_typed_async_iterable_tree a
        ≡ double_typed_async_iterable_tree b };

    fn try_clone(&self, alloc: Global) -> Result<Self, AllocError> {
        Ok(DoubleTypedAsyncIterable {
            attributes: copy_attributes(&self.attributes, alloc)?,
            async_iterable: self.async_iterable,
            generics: copy_two_types(&self.generics, alloc)?,
            args: copy_optional_arguments(&self.args, alloc)?,
            semi_colon: self.semi_colon,
        })
    }

    ghost equivalence = { seen_equivalence double_typed_async_iterable_tree equal_equivalence };
}

impl<'a> DoubleTypedAsyncIterable<'a> {
    /// Its fields, in order: `attributes`, `async_iterable`, `generics`, `args` and `semi_colon`.
    pub fn into_fields(
        self,
    ) -> (
        Option<ExtendedAttributeList<'a>>,
        (Async, Iterable),
        Generics<(AttributedType<'a>, Comma, AttributedType<'a>)>,
        Option<ParenthesizedArgumentList<'a>>,
        SemiColon,
    )
        ensures { result ≡ (
          self.entry.attributes,
          self.entry.async_iterable,
          self.entry.generics,
          self.entry.args,
          self.entry.semi_colon,
        ) }
    {
        let DoubleTypedAsyncIterable {
            attributes,
            async_iterable,
            generics,
            args,
            semi_colon,
        } = self;
        (attributes, async_iterable, generics, args, semi_colon)
    }
}

#[tactic(auto, using(crate::proofs::written::AsyncIterableRules::async_iterable_interface_member_steps))]
impl<'a> Parse<'a> for AsyncIterableInterfaceMember<'a> {
    ghost reading = { own ASYNC_ITERABLE_INTERFACE_MEMBER async_iterable_interface_member_tree
        (Unit {0}) };

    fn parse(alloc: Global, input: &'a str) -> IResult<&'a str, Self> {
        let (rest, read) = Choice::parse(alloc, input)?;
        let member = match read {
            First(member) => AsyncIterableInterfaceMember::Single(member),
            Second(member) => AsyncIterableInterfaceMember::Double(member),
        };
        Ok((rest, member))
    }

    ghost lawful = { own_lawful ASYNC_ITERABLE_INTERFACE_MEMBER async_iterable_interface_member_tree
        (Unit {0}) };
}

impl TryClone for AsyncIterableInterfaceMember<'_> {
    ghost alike = { λ a b. async_iterable_interface_member_tree a
        ≡ async_iterable_interface_member_tree b };

    fn try_clone(&self, alloc: Global) -> Result<Self, AllocError> {
        match self {
            AsyncIterableInterfaceMember::Single(member) => Ok(AsyncIterableInterfaceMember::Single(
                member.try_clone(alloc)?,
            )),
            AsyncIterableInterfaceMember::Double(member) => Ok(AsyncIterableInterfaceMember::Double(
                member.try_clone(alloc)?,
            )),
        }
    }

    ghost equivalence = { seen_equivalence async_iterable_interface_member_tree equal_equivalence };
}

impl<'a> From<SingleTypedAsyncIterable<'a>> for AsyncIterableInterfaceMember<'a> {
    ghost use Rattle.weedle_iterables.specs.declared.async_iterable.AsyncIterableInterfaceMember.TheVariants.{
      Single,
    };

    ghost from_gives = { λ value made. made ≡ Single value };

    fn from(value: SingleTypedAsyncIterable<'a>) -> Self {
        AsyncIterableInterfaceMember::Single(value)
    }
}

impl<'a> From<DoubleTypedAsyncIterable<'a>> for AsyncIterableInterfaceMember<'a> {
    ghost use Rattle.weedle_iterables.specs.declared.async_iterable.AsyncIterableInterfaceMember.TheVariants.{
      Double,
    };

    ghost from_gives = { λ value made. made ≡ Double value };

    fn from(value: DoubleTypedAsyncIterable<'a>) -> Self {
        AsyncIterableInterfaceMember::Double(value)
    }
}

impl<'a> AsyncIterableInterfaceMember<'a> {
    /// What it holds where it is `AsyncIterableInterfaceMember::Single`, and else None.
    pub fn into_single(self) -> Option<SingleTypedAsyncIterable<'a>>
        ensures { (held : SingleTypedAsyncIterable)
            → result ≡ Some held ↔ self.entry ≡ AsyncIterableInterfaceMember.Single held }
    {
        match self {
            AsyncIterableInterfaceMember::Single(held) => Some(held),
            _ => None,
        }
    }

    /// What it holds where it is `AsyncIterableInterfaceMember::Double`, and else None.
    pub fn into_double(self) -> Option<DoubleTypedAsyncIterable<'a>>
        ensures { (held : DoubleTypedAsyncIterable)
            → result ≡ Some held ↔ self.entry ≡ AsyncIterableInterfaceMember.Double held }
    {
        match self {
            AsyncIterableInterfaceMember::Double(held) => Some(held),
            _ => None,
        }
    }
}
