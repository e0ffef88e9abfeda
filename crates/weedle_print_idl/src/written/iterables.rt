//! How iterations, maps and sets are rendered.
//!
//! Written by tools/prints.py, and not edited by hand.

ghost use Rattle.weedle_spell_idl.specs.written.Iterables.{
  async_iterable_interface_member_spelling,
  double_typed_async_iterable_spelling,
  double_typed_iterable_spelling,
  iterable_interface_member_spelling,
  maplike_interface_member_spelling,
  setlike_interface_member_spelling,
  single_typed_async_iterable_spelling,
  single_typed_iterable_spelling,
};

use crate::part::{Attributes, KeyAndValue};
use crate::write::WriteIdl;
use weedle_base::term::{Async, Iterable, Maplike, ReadOnly, SemiColon, Setlike};
use weedle_iterables::{
    AsyncIterableInterfaceMember, DoubleTypedAsyncIterable, DoubleTypedIterable,
    IterableInterfaceMember, MaplikeInterfaceMember, SetlikeInterfaceMember,
    SingleTypedAsyncIterable, SingleTypedIterable,
};
use weedle_parts::common::Generics;
use weedle_print::fields::{five, four};
use weedle_print::{Held, Layout, PrintError};
use weedle_types::argument::ParenthesizedArgumentList;
use weedle_types::types::AttributedType;

impl<'a> WriteIdl for SingleTypedAsyncIterable<'a> {
    ghost spelling = { single_typed_async_iterable_spelling };

    fn write_part(&self, out: &mut String, layout: &mut Layout) -> Result<(), PrintError> {
        five::<
            Attributes<'a>,
            (Async, Iterable),
            Generics<Held<AttributedType<'a>>>,
            Option<Held<ParenthesizedArgumentList<'a>>>,
            SemiColon,
        >(
            out,
            layout,
            &self.attributes,
            &self.async_iterable,
            &self.generics,
            &self.args,
            &self.semi_colon,
        )
    }
}

impl<'a> WriteIdl for DoubleTypedAsyncIterable<'a> {
    ghost spelling = { double_typed_async_iterable_spelling };

    fn write_part(&self, out: &mut String, layout: &mut Layout) -> Result<(), PrintError> {
        five::<
            Attributes<'a>,
            (Async, Iterable),
            Generics<KeyAndValue<Held<AttributedType<'a>>>>,
            Option<Held<ParenthesizedArgumentList<'a>>>,
            SemiColon,
        >(
            out,
            layout,
            &self.attributes,
            &self.async_iterable,
            &self.generics,
            &self.args,
            &self.semi_colon,
        )
    }
}

impl<'a> WriteIdl for AsyncIterableInterfaceMember<'a> {
    ghost spelling = { async_iterable_interface_member_spelling };

    fn write_part(&self, out: &mut String, layout: &mut Layout) -> Result<(), PrintError> {
        match self {
            AsyncIterableInterfaceMember::Single(value) => value.write_part(out, layout),
            AsyncIterableInterfaceMember::Double(value) => value.write_part(out, layout),
        }
    }
}

impl<'a> WriteIdl for MaplikeInterfaceMember<'a> {
    ghost spelling = { maplike_interface_member_spelling };

    fn write_part(&self, out: &mut String, layout: &mut Layout) -> Result<(), PrintError> {
        five::<
            Attributes<'a>,
            Option<ReadOnly>,
            Maplike,
            Generics<KeyAndValue<Held<AttributedType<'a>>>>,
            SemiColon,
        >(
            out,
            layout,
            &self.attributes,
            &self.readonly,
            &self.maplike,
            &self.generics,
            &self.semi_colon,
        )
    }
}

impl<'a> WriteIdl for SetlikeInterfaceMember<'a> {
    ghost spelling = { setlike_interface_member_spelling };

    fn write_part(&self, out: &mut String, layout: &mut Layout) -> Result<(), PrintError> {
        five::<
            Attributes<'a>,
            Option<ReadOnly>,
            Setlike,
            Generics<Held<AttributedType<'a>>>,
            SemiColon,
        >(
            out,
            layout,
            &self.attributes,
            &self.readonly,
            &self.setlike,
            &self.generics,
            &self.semi_colon,
        )
    }
}

impl<'a> WriteIdl for SingleTypedIterable<'a> {
    ghost spelling = { single_typed_iterable_spelling };

    fn write_part(&self, out: &mut String, layout: &mut Layout) -> Result<(), PrintError> {
        four::<Attributes<'a>, Iterable, Generics<Held<AttributedType<'a>>>, SemiColon>(
            out,
            layout,
            &self.attributes,
            &self.iterable,
            &self.generics,
            &self.semi_colon,
        )
    }
}

impl<'a> WriteIdl for DoubleTypedIterable<'a> {
    ghost spelling = { double_typed_iterable_spelling };

    fn write_part(&self, out: &mut String, layout: &mut Layout) -> Result<(), PrintError> {
        four::<
            Attributes<'a>,
            Iterable,
            Generics<KeyAndValue<Held<AttributedType<'a>>>>,
            SemiColon,
        >(
            out,
            layout,
            &self.attributes,
            &self.iterable,
            &self.generics,
            &self.semi_colon,
        )
    }
}

impl<'a> WriteIdl for IterableInterfaceMember<'a> {
    ghost spelling = { iterable_interface_member_spelling };

    fn write_part(&self, out: &mut String, layout: &mut Layout) -> Result<(), PrintError> {
        match self {
            IterableInterfaceMember::Single(value) => value.write_part(out, layout),
            IterableInterfaceMember::Double(value) => value.write_part(out, layout),
        }
    }
}
