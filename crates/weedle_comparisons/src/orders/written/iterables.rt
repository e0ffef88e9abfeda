//! Orders of iterations, and of what is like a map or a set.
//!
//! Written by tools/orders.py, and not edited by hand.

ghost use Rattle.std.specs.Prelude.{◌≡◌, ◌<◌};
ghost use Rattle.std.specs.Ordering.{ordering_then};
ghost use Rattle.weedle_comparisons.specs.written.Places.{
  async_iterable_interface_member_place,
  iterable_interface_member_place,
};

use std::cmp::Ordering;
use weedle_base::term::{Async, Comma, Iterable, Maplike, ReadOnly, SemiColon, Setlike};
use weedle_iterables::{
    AsyncIterableInterfaceMember, DoubleTypedAsyncIterable, DoubleTypedIterable,
    IterableInterfaceMember, MaplikeInterfaceMember, SetlikeInterfaceMember,
    SingleTypedAsyncIterable, SingleTypedIterable,
};
use weedle_parts::common::Generics;
use weedle_types::argument::ParenthesizedArgumentList;
use weedle_types::attribute::ExtendedAttributeList;
use weedle_types::types::AttributedType;

/// A law, which does nothing: `cmp` of `SingleTypedAsyncIterable` goes by its fields, in order.
pub fn single_typed_async_iterable<'a>()
    ensures { (a b : SingleTypedAsyncIterable)
        → ⟦<SingleTypedAsyncIterable<'a> as Ord>⟧.cmp a b
        ≡ ordering_then (⟦<Option<ExtendedAttributeList<'a>> as Ord>⟧.cmp a.attributes b.attributes)
        (ordering_then (⟦<(Async, Iterable) as Ord>⟧.cmp a.async_iterable b.async_iterable)
        (ordering_then (⟦<Generics<AttributedType<'a>> as Ord>⟧.cmp a.generics b.generics)
        (ordering_then (⟦<Option<ParenthesizedArgumentList<'a>> as Ord>⟧.cmp a.args b.args)
        (⟦<SemiColon as Ord>⟧.cmp a.semi_colon b.semi_colon)))) }
{}

/// A law, which does nothing: `cmp` of `DoubleTypedAsyncIterable` goes by its fields, in order.
pub fn double_typed_async_iterable<'a>()
    ensures { (a b : DoubleTypedAsyncIterable)
        → ⟦<DoubleTypedAsyncIterable<'a> as Ord>⟧.cmp a b
        ≡ ordering_then (⟦<Option<ExtendedAttributeList<'a>> as Ord>⟧.cmp a.attributes b.attributes)
        (ordering_then (⟦<(Async, Iterable) as Ord>⟧.cmp a.async_iterable b.async_iterable)
        (ordering_then (⟦<Generics<(AttributedType<'a>, Comma, AttributedType<'a>)> as Ord>⟧.cmp
        a.generics b.generics)
        (ordering_then (⟦<Option<ParenthesizedArgumentList<'a>> as Ord>⟧.cmp a.args b.args)
        (⟦<SemiColon as Ord>⟧.cmp a.semi_colon b.semi_colon)))) }
{}

/// A law, which does nothing: `cmp` of `AsyncIterableInterfaceMember` goes by its variants, and of
/// one variant by what it holds.
pub fn async_iterable_interface_member<'a>()
    ensures earlier { (a b : AsyncIterableInterfaceMember)
        → async_iterable_interface_member_place a < async_iterable_interface_member_place b
        → ⟦<AsyncIterableInterfaceMember<'a> as Ord>⟧.cmp a b ≡ Ordering.Less }
    ensures later { (a b : AsyncIterableInterfaceMember)
        → async_iterable_interface_member_place b < async_iterable_interface_member_place a
        → ⟦<AsyncIterableInterfaceMember<'a> as Ord>⟧.cmp a b ≡ Ordering.Greater }
    ensures single { (a b : SingleTypedAsyncIterable)
        → ⟦<AsyncIterableInterfaceMember<'a> as Ord>⟧.cmp (AsyncIterableInterfaceMember.Single a)
        (AsyncIterableInterfaceMember.Single b)
        ≡ ⟦<SingleTypedAsyncIterable<'a> as Ord>⟧.cmp a b }
    ensures double { (a b : DoubleTypedAsyncIterable)
        → ⟦<AsyncIterableInterfaceMember<'a> as Ord>⟧.cmp (AsyncIterableInterfaceMember.Double a)
        (AsyncIterableInterfaceMember.Double b)
        ≡ ⟦<DoubleTypedAsyncIterable<'a> as Ord>⟧.cmp a b }
{}

/// A law, which does nothing: `cmp` of `MaplikeInterfaceMember` goes by its fields, in order.
pub fn maplike_interface_member<'a>()
    ensures { (a b : MaplikeInterfaceMember)
        → ⟦<MaplikeInterfaceMember<'a> as Ord>⟧.cmp a b
        ≡ ordering_then (⟦<Option<ExtendedAttributeList<'a>> as Ord>⟧.cmp a.attributes b.attributes)
        (ordering_then (⟦<Option<ReadOnly> as Ord>⟧.cmp a.readonly b.readonly)
        (ordering_then (⟦<Maplike as Ord>⟧.cmp a.maplike b.maplike)
        (ordering_then (⟦<Generics<(AttributedType<'a>, Comma, AttributedType<'a>)> as Ord>⟧.cmp
        a.generics b.generics)
        (⟦<SemiColon as Ord>⟧.cmp a.semi_colon b.semi_colon)))) }
{}

/// A law, which does nothing: `cmp` of `SetlikeInterfaceMember` goes by its fields, in order.
pub fn setlike_interface_member<'a>()
    ensures { (a b : SetlikeInterfaceMember)
        → ⟦<SetlikeInterfaceMember<'a> as Ord>⟧.cmp a b
        ≡ ordering_then (⟦<Option<ExtendedAttributeList<'a>> as Ord>⟧.cmp a.attributes b.attributes)
        (ordering_then (⟦<Option<ReadOnly> as Ord>⟧.cmp a.readonly b.readonly)
        (ordering_then (⟦<Setlike as Ord>⟧.cmp a.setlike b.setlike)
        (ordering_then (⟦<Generics<AttributedType<'a>> as Ord>⟧.cmp a.generics b.generics)
        (⟦<SemiColon as Ord>⟧.cmp a.semi_colon b.semi_colon)))) }
{}

/// A law, which does nothing: `cmp` of `SingleTypedIterable` goes by its fields, in order.
pub fn single_typed_iterable<'a>()
    ensures { (a b : SingleTypedIterable)
        → ⟦<SingleTypedIterable<'a> as Ord>⟧.cmp a b
        ≡ ordering_then (⟦<Option<ExtendedAttributeList<'a>> as Ord>⟧.cmp a.attributes b.attributes)
        (ordering_then (⟦<Iterable as Ord>⟧.cmp a.iterable b.iterable)
        (ordering_then (⟦<Generics<AttributedType<'a>> as Ord>⟧.cmp a.generics b.generics)
        (⟦<SemiColon as Ord>⟧.cmp a.semi_colon b.semi_colon))) }
{}

/// A law, which does nothing: `cmp` of `DoubleTypedIterable` goes by its fields, in order.
pub fn double_typed_iterable<'a>()
    ensures { (a b : DoubleTypedIterable)
        → ⟦<DoubleTypedIterable<'a> as Ord>⟧.cmp a b
        ≡ ordering_then (⟦<Option<ExtendedAttributeList<'a>> as Ord>⟧.cmp a.attributes b.attributes)
        (ordering_then (⟦<Iterable as Ord>⟧.cmp a.iterable b.iterable)
        (ordering_then (⟦<Generics<(AttributedType<'a>, Comma, AttributedType<'a>)> as Ord>⟧.cmp
        a.generics b.generics)
        (⟦<SemiColon as Ord>⟧.cmp a.semi_colon b.semi_colon))) }
{}

/// A law, which does nothing: `cmp` of `IterableInterfaceMember` goes by its variants, and of one
/// variant by what it holds.
pub fn iterable_interface_member<'a>()
    ensures earlier { (a b : IterableInterfaceMember)
        → iterable_interface_member_place a < iterable_interface_member_place b
        → ⟦<IterableInterfaceMember<'a> as Ord>⟧.cmp a b ≡ Ordering.Less }
    ensures later { (a b : IterableInterfaceMember)
        → iterable_interface_member_place b < iterable_interface_member_place a
        → ⟦<IterableInterfaceMember<'a> as Ord>⟧.cmp a b ≡ Ordering.Greater }
    ensures single { (a b : SingleTypedIterable)
        → ⟦<IterableInterfaceMember<'a> as Ord>⟧.cmp (IterableInterfaceMember.Single a)
        (IterableInterfaceMember.Single b)
        ≡ ⟦<SingleTypedIterable<'a> as Ord>⟧.cmp a b }
    ensures double { (a b : DoubleTypedIterable)
        → ⟦<IterableInterfaceMember<'a> as Ord>⟧.cmp (IterableInterfaceMember.Double a)
        (IterableInterfaceMember.Double b)
        ≡ ⟦<DoubleTypedIterable<'a> as Ord>⟧.cmp a b }
{}
