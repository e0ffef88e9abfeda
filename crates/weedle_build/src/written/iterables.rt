//! Iterations, maps and sets.
//!
//! Written by tools/builds.py, and not edited by hand.
#![tactic(auto, using(weedle_build_base::proofs::Finding::own_steps))]

ghost use Rattle.std.specs.Prelude.{◌≡◌};
ghost use Rattle.weedle_grammar.specs.written.Table.InterfaceMembers.{
  ASYNC_ITERABLE_INTERFACE_MEMBER,
  DOUBLE_TYPED_ASYNC_ITERABLE,
  DOUBLE_TYPED_ITERABLE,
  ITERABLE_INTERFACE_MEMBER,
  MAPLIKE_INTERFACE_MEMBER,
  SETLIKE_INTERFACE_MEMBER,
  SINGLE_TYPED_ASYNC_ITERABLE,
  SINGLE_TYPED_ITERABLE,
};
ghost use Rattle.weedle_iterables.specs.written.Trees.{
  async_iterable_interface_member_tree,
  double_typed_async_iterable_tree,
  double_typed_iterable_tree,
  iterable_interface_member_tree,
  maplike_interface_member_tree,
  setlike_interface_member_tree,
  single_typed_async_iterable_tree,
  single_typed_iterable_tree,
};

use crate::part::{IdlPart, OneType, TwoTypes};
use std::alloc::Global;
use weedle_base::term::{Async, Iterable, Maplike, ReadOnly, SemiColon, Setlike};
use weedle_build_base::{
    At, Build, BuildResult, Table, alternative, choice, five_fields, four_fields,
};
use weedle_build_types::{Arguments, Attributes};
use weedle_iterables::{
    AsyncIterableInterfaceMember, DoubleTypedAsyncIterable, DoubleTypedIterable,
    IterableInterfaceMember, MaplikeInterfaceMember, SetlikeInterfaceMember,
    SingleTypedAsyncIterable, SingleTypedIterable,
};
use weedle_rules::Rule;

impl<'a> Build<'a> for IdlPart<SingleTypedIterable<'a>> {
    type Value = SingleTypedIterable<'a>;

    ghost fits = { λ r. r ≡ SINGLE_TYPED_ITERABLE };

    ghost tree = { single_typed_iterable_tree };

    fn build(
        alloc: Global,
        table: Table<'_, 'a>,
        _rule: Rule,
        at: At,
    ) -> BuildResult<SingleTypedIterable<'a>> {
        match four_fields::<Attributes<'a>, Iterable, OneType<'a>, SemiColon>(
            alloc,
            table,
            Rule::SINGLE_TYPED_ITERABLE,
            at,
        ) {
            Ok(((attributes, iterable, generics, semi_colon), at)) => Ok((
                SingleTypedIterable {
                    attributes,
                    iterable,
                    generics,
                    semi_colon,
                },
                at,
            )),
            Err(error) => Err(error),
        }
    }
}

impl<'a> Build<'a> for IdlPart<DoubleTypedIterable<'a>> {
    type Value = DoubleTypedIterable<'a>;

    ghost fits = { λ r. r ≡ DOUBLE_TYPED_ITERABLE };

    ghost tree = { double_typed_iterable_tree };

    fn build(
        alloc: Global,
        table: Table<'_, 'a>,
        _rule: Rule,
        at: At,
    ) -> BuildResult<DoubleTypedIterable<'a>> {
        match four_fields::<Attributes<'a>, Iterable, TwoTypes<'a>, SemiColon>(
            alloc,
            table,
            Rule::DOUBLE_TYPED_ITERABLE,
            at,
        ) {
            Ok(((attributes, iterable, generics, semi_colon), at)) => Ok((
                DoubleTypedIterable {
                    attributes,
                    iterable,
                    generics,
                    semi_colon,
                },
                at,
            )),
            Err(error) => Err(error),
        }
    }
}

impl<'a> Build<'a> for IdlPart<IterableInterfaceMember<'a>> {
    type Value = IterableInterfaceMember<'a>;

    ghost fits = { λ r. r ≡ ITERABLE_INTERFACE_MEMBER };

    ghost tree = { iterable_interface_member_tree };

    fn build(
        alloc: Global,
        table: Table<'_, 'a>,
        _rule: Rule,
        at: At,
    ) -> BuildResult<IterableInterfaceMember<'a>> {
        let rule = Rule::ITERABLE_INTERFACE_MEMBER;
        match choice(table, rule, at.place) {
            0 => {
                let (member, at) = alternative::<IdlPart<SingleTypedIterable<'a>>>(
                    alloc, table, rule, 0, at,
                )?;
                Ok((IterableInterfaceMember::Single(member), at))
            }
            1 => {
                let (member, at) = alternative::<IdlPart<DoubleTypedIterable<'a>>>(
                    alloc, table, rule, 1, at,
                )?;
                Ok((IterableInterfaceMember::Double(member), at))
            }
            _ => unreachable!(),
        }
    }
}

impl<'a> Build<'a> for IdlPart<SingleTypedAsyncIterable<'a>> {
    type Value = SingleTypedAsyncIterable<'a>;

    ghost fits = { λ r. r ≡ SINGLE_TYPED_ASYNC_ITERABLE };

    ghost tree = { single_typed_async_iterable_tree };

    fn build(
        alloc: Global,
        table: Table<'_, 'a>,
        _rule: Rule,
        at: At,
    ) -> BuildResult<SingleTypedAsyncIterable<'a>> {
        match five_fields::<
            Attributes<'a>,
            (Async, Iterable),
            OneType<'a>,
            Option<Arguments<'a>>,
            SemiColon,
        >(alloc, table, Rule::SINGLE_TYPED_ASYNC_ITERABLE, at)
        {
            Ok(((attributes, async_iterable, generics, args, semi_colon), at)) => Ok((
                SingleTypedAsyncIterable {
                    attributes,
                    async_iterable,
                    generics,
                    args,
                    semi_colon,
                },
                at,
            )),
            Err(error) => Err(error),
        }
    }
}

impl<'a> Build<'a> for IdlPart<DoubleTypedAsyncIterable<'a>> {
    type Value = DoubleTypedAsyncIterable<'a>;

    ghost fits = { λ r. r ≡ DOUBLE_TYPED_ASYNC_ITERABLE };

    ghost tree = { double_typed_async_iterable_tree };

    fn build(
        alloc: Global,
        table: Table<'_, 'a>,
        _rule: Rule,
        at: At,
    ) -> BuildResult<DoubleTypedAsyncIterable<'a>> {
        match five_fields::<
            Attributes<'a>,
            (Async, Iterable),
            TwoTypes<'a>,
            Option<Arguments<'a>>,
            SemiColon,
        >(alloc, table, Rule::DOUBLE_TYPED_ASYNC_ITERABLE, at)
        {
            Ok(((attributes, async_iterable, generics, args, semi_colon), at)) => Ok((
                DoubleTypedAsyncIterable {
                    attributes,
                    async_iterable,
                    generics,
                    args,
                    semi_colon,
                },
                at,
            )),
            Err(error) => Err(error),
        }
    }
}

impl<'a> Build<'a> for IdlPart<AsyncIterableInterfaceMember<'a>> {
    type Value = AsyncIterableInterfaceMember<'a>;

    ghost fits = { λ r. r ≡ ASYNC_ITERABLE_INTERFACE_MEMBER };

    ghost tree = { async_iterable_interface_member_tree };

    fn build(
        alloc: Global,
        table: Table<'_, 'a>,
        _rule: Rule,
        at: At,
    ) -> BuildResult<AsyncIterableInterfaceMember<'a>> {
        let rule = Rule::ASYNC_ITERABLE_INTERFACE_MEMBER;
        match choice(table, rule, at.place) {
            0 => {
                let (member, at) = alternative::<IdlPart<SingleTypedAsyncIterable<'a>>>(
                    alloc, table, rule, 0, at,
                )?;
                Ok((AsyncIterableInterfaceMember::Single(member), at))
            }
            1 => {
                let (member, at) = alternative::<IdlPart<DoubleTypedAsyncIterable<'a>>>(
                    alloc, table, rule, 1, at,
                )?;
                Ok((AsyncIterableInterfaceMember::Double(member), at))
            }
            _ => unreachable!(),
        }
    }
}

impl<'a> Build<'a> for IdlPart<MaplikeInterfaceMember<'a>> {
    type Value = MaplikeInterfaceMember<'a>;

    ghost fits = { λ r. r ≡ MAPLIKE_INTERFACE_MEMBER };

    ghost tree = { maplike_interface_member_tree };

    fn build(
        alloc: Global,
        table: Table<'_, 'a>,
        _rule: Rule,
        at: At,
    ) -> BuildResult<MaplikeInterfaceMember<'a>> {
        match five_fields::<Attributes<'a>, Option<ReadOnly>, Maplike, TwoTypes<'a>, SemiColon>(
            alloc,
            table,
            Rule::MAPLIKE_INTERFACE_MEMBER,
            at,
        ) {
            Ok(((attributes, readonly, maplike, generics, semi_colon), at)) => Ok((
                MaplikeInterfaceMember {
                    attributes,
                    readonly,
                    maplike,
                    generics,
                    semi_colon,
                },
                at,
            )),
            Err(error) => Err(error),
        }
    }
}

impl<'a> Build<'a> for IdlPart<SetlikeInterfaceMember<'a>> {
    type Value = SetlikeInterfaceMember<'a>;

    ghost fits = { λ r. r ≡ SETLIKE_INTERFACE_MEMBER };

    ghost tree = { setlike_interface_member_tree };

    fn build(
        alloc: Global,
        table: Table<'_, 'a>,
        _rule: Rule,
        at: At,
    ) -> BuildResult<SetlikeInterfaceMember<'a>> {
        match five_fields::<Attributes<'a>, Option<ReadOnly>, Setlike, OneType<'a>, SemiColon>(
            alloc,
            table,
            Rule::SETLIKE_INTERFACE_MEMBER,
            at,
        ) {
            Ok(((attributes, readonly, setlike, generics, semi_colon), at)) => Ok((
                SetlikeInterfaceMember {
                    attributes,
                    readonly,
                    setlike,
                    generics,
                    semi_colon,
                },
                at,
            )),
            Err(error) => Err(error),
        }
    }
}
