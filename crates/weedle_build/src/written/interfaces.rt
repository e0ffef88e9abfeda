//! Interfaces and their members.
//!
//! Written by tools/builds.py, and not edited by hand.
#![tactic(auto, using(weedle_build_base::proofs::Finding::own_steps))]

ghost use Rattle.std.specs.Prelude.{◌≡◌};
ghost use Rattle.weedle_grammar.specs.written.Table.Definitions.{
  CALLBACK_INTERFACE_DEFINITION,
  INTERFACE_DEFINITION,
  PARTIAL_INTERFACE_DEFINITION,
};
ghost use Rattle.weedle_grammar.specs.written.Table.InterfaceMembers.{INTERFACE_MEMBER};
ghost use Rattle.weedle_interfaces.specs.written.Trees.{
  callback_interface_definition_tree,
  interface_definition_tree,
  interface_member_tree,
  partial_interface_definition_tree,
};

use crate::part::IdlPart;
use std::alloc::Global;
use weedle_base::term::{Callback, Interface, Partial, SemiColon};
use weedle_build_base::{
    At, Build, BuildResult, Table, alternative, choice, eight_fields, seven_fields, six_fields,
};
use weedle_build_types::Attributes;
use weedle_interfaces::{
    CallbackInterfaceDefinition, InterfaceDefinition, InterfaceMember, PartialInterfaceDefinition,
};
use weedle_iterables::{
    AsyncIterableInterfaceMember, IterableInterfaceMember, MaplikeInterfaceMember,
    SetlikeInterfaceMember,
};
use weedle_members::{
    AttributeInterfaceMember, ConstMember, ConstructorInterfaceMember, OperationInterfaceMember,
    StringifierMember,
};
use weedle_parts::common::{Braced, Docstring, Identifier};
use weedle_parts::inheritance::Inheritance;
use weedle_rules::Rule;

impl<'a> Build<'a> for IdlPart<InterfaceMember<'a>> {
    type Value = InterfaceMember<'a>;

    ghost fits = { λ r. r ≡ INTERFACE_MEMBER };

    ghost tree = { interface_member_tree };

    fn build(
        alloc: Global,
        table: Table<'_, 'a>,
        _rule: Rule,
        at: At,
    ) -> BuildResult<InterfaceMember<'a>> {
        let rule = Rule::INTERFACE_MEMBER;
        match choice(table, rule, at.place) {
            0 => {
                let (member, at) = alternative::<IdlPart<ConstMember<'a>>>(
                    alloc, table, rule, 0, at,
                )?;
                Ok((InterfaceMember::Const(member), at))
            }
            1 => {
                let (member, at) = alternative::<IdlPart<AttributeInterfaceMember<'a>>>(
                    alloc, table, rule, 1, at,
                )?;
                Ok((InterfaceMember::Attribute(member), at))
            }
            2 => {
                let (member, at) = alternative::<IdlPart<ConstructorInterfaceMember<'a>>>(
                    alloc, table, rule, 2, at,
                )?;
                Ok((InterfaceMember::Constructor(member), at))
            }
            3 => {
                let (member, at) = alternative::<IdlPart<OperationInterfaceMember<'a>>>(
                    alloc, table, rule, 3, at,
                )?;
                Ok((InterfaceMember::Operation(member), at))
            }
            4 => {
                let (member, at) = alternative::<IdlPart<IterableInterfaceMember<'a>>>(
                    alloc, table, rule, 4, at,
                )?;
                Ok((InterfaceMember::Iterable(member), at))
            }
            5 => {
                let (member, at) = alternative::<IdlPart<AsyncIterableInterfaceMember<'a>>>(
                    alloc, table, rule, 5, at,
                )?;
                Ok((InterfaceMember::AsyncIterable(member), at))
            }
            6 => {
                let (member, at) = alternative::<IdlPart<MaplikeInterfaceMember<'a>>>(
                    alloc, table, rule, 6, at,
                )?;
                Ok((InterfaceMember::Maplike(member), at))
            }
            7 => {
                let (member, at) = alternative::<IdlPart<SetlikeInterfaceMember<'a>>>(
                    alloc, table, rule, 7, at,
                )?;
                Ok((InterfaceMember::Setlike(member), at))
            }
            8 => {
                let (member, at) = alternative::<IdlPart<StringifierMember<'a>>>(
                    alloc, table, rule, 8, at,
                )?;
                Ok((InterfaceMember::Stringifier(member), at))
            }
            _ => unreachable!(),
        }
    }
}

impl<'a> Build<'a> for IdlPart<CallbackInterfaceDefinition<'a>> {
    type Value = CallbackInterfaceDefinition<'a>;

    ghost fits = { λ r. r ≡ CALLBACK_INTERFACE_DEFINITION };

    ghost tree = { callback_interface_definition_tree };

    fn build(
        alloc: Global,
        table: Table<'_, 'a>,
        _rule: Rule,
        at: At,
    ) -> BuildResult<CallbackInterfaceDefinition<'a>> {
        match eight_fields::<
            Option<Docstring>,
            Attributes<'a>,
            Callback,
            Interface,
            Identifier<'a>,
            Option<Inheritance<'a>>,
            Braced<Vec<IdlPart<InterfaceMember<'a>>>>,
            SemiColon,
        >(alloc, table, Rule::CALLBACK_INTERFACE_DEFINITION, at)
        {
            Ok(
                (
                    (
                        docstring,
                        attributes,
                        callback,
                        interface,
                        identifier,
                        inheritance,
                        members,
                        semi_colon,
                    ),
                    at,
                ),
            ) => Ok((
                CallbackInterfaceDefinition {
                    docstring,
                    attributes,
                    callback,
                    interface,
                    identifier,
                    inheritance,
                    members,
                    semi_colon,
                },
                at,
            )),
            Err(error) => Err(error),
        }
    }
}

impl<'a> Build<'a> for IdlPart<InterfaceDefinition<'a>> {
    type Value = InterfaceDefinition<'a>;

    ghost fits = { λ r. r ≡ INTERFACE_DEFINITION };

    ghost tree = { interface_definition_tree };

    fn build(
        alloc: Global,
        table: Table<'_, 'a>,
        _rule: Rule,
        at: At,
    ) -> BuildResult<InterfaceDefinition<'a>> {
        match seven_fields::<
            Option<Docstring>,
            Attributes<'a>,
            Interface,
            Identifier<'a>,
            Option<Inheritance<'a>>,
            Braced<Vec<IdlPart<InterfaceMember<'a>>>>,
            SemiColon,
        >(alloc, table, Rule::INTERFACE_DEFINITION, at)
        {
            Ok(
                (
                    (
                        docstring,
                        attributes,
                        interface,
                        identifier,
                        inheritance,
                        members,
                        semi_colon,
                    ),
                    at,
                ),
            ) => Ok((
                InterfaceDefinition {
                    docstring,
                    attributes,
                    interface,
                    identifier,
                    inheritance,
                    members,
                    semi_colon,
                },
                at,
            )),
            Err(error) => Err(error),
        }
    }
}

impl<'a> Build<'a> for IdlPart<PartialInterfaceDefinition<'a>> {
    type Value = PartialInterfaceDefinition<'a>;

    ghost fits = { λ r. r ≡ PARTIAL_INTERFACE_DEFINITION };

    ghost tree = { partial_interface_definition_tree };

    fn build(
        alloc: Global,
        table: Table<'_, 'a>,
        _rule: Rule,
        at: At,
    ) -> BuildResult<PartialInterfaceDefinition<'a>> {
        match six_fields::<
            Attributes<'a>,
            Partial,
            Interface,
            Identifier<'a>,
            Braced<Vec<IdlPart<InterfaceMember<'a>>>>,
            SemiColon,
        >(alloc, table, Rule::PARTIAL_INTERFACE_DEFINITION, at)
        {
            Ok(((attributes, partial, interface, identifier, members, semi_colon), at)) => Ok((
                PartialInterfaceDefinition {
                    attributes,
                    partial,
                    interface,
                    identifier,
                    members,
                    semi_colon,
                },
                at,
            )),
            Err(error) => Err(error),
        }
    }
}
