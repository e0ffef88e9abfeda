//! Mixins and their members.
//!
//! Written by tools/builds.py, and not edited by hand.
#![tactic(auto, using(weedle_build_base::proofs::Finding::own_steps))]

ghost use Rattle.std.specs.Prelude.{◌≡◌};
ghost use Rattle.weedle_grammar.specs.written.Table.Definitions.{
  INTERFACE_MIXIN_DEFINITION,
  PARTIAL_INTERFACE_MIXIN_DEFINITION,
};
ghost use Rattle.weedle_grammar.specs.written.Table.OtherMembers.{
  ATTRIBUTE_MIXIN_MEMBER,
  MIXIN_MEMBER,
  OPERATION_MIXIN_MEMBER,
};
ghost use Rattle.weedle_mixins.specs.written.Trees.{
  attribute_mixin_member_tree,
  interface_mixin_definition_tree,
  mixin_member_tree,
  operation_mixin_member_tree,
  partial_interface_mixin_definition_tree,
};

use crate::part::IdlPart;
use std::alloc::Global;
use weedle_base::term::{Attribute, Interface, Mixin, Partial, ReadOnly, SemiColon, Stringifier};
use weedle_build_base::{
    At, Build, BuildResult, Table, alternative, choice, seven_fields, six_fields,
};
use weedle_build_types::{Arguments, Attributes, Held};
use weedle_members::{ConstMember, StringifierMember};
use weedle_mixins::mixin::{AttributeMixinMember, MixinMember, OperationMixinMember};
use weedle_mixins::{InterfaceMixinDefinition, PartialInterfaceMixinDefinition};
use weedle_parts::common::{Braced, Identifier};
use weedle_rules::Rule;
use weedle_types::types::{AttributedType, ReturnType};

impl<'a> Build<'a> for IdlPart<OperationMixinMember<'a>> {
    type Value = OperationMixinMember<'a>;

    ghost fits = { λ r. r ≡ OPERATION_MIXIN_MEMBER };

    ghost tree = { operation_mixin_member_tree };

    fn build(
        alloc: Global,
        table: Table<'_, 'a>,
        _rule: Rule,
        at: At,
    ) -> BuildResult<OperationMixinMember<'a>> {
        match six_fields::<
            Attributes<'a>,
            Option<Stringifier>,
            Held<ReturnType<'a>>,
            Option<Identifier<'a>>,
            Arguments<'a>,
            SemiColon,
        >(alloc, table, Rule::OPERATION_MIXIN_MEMBER, at)
        {
            Ok(((attributes, stringifier, return_type, identifier, args, semi_colon), at)) => Ok((
                OperationMixinMember {
                    attributes,
                    stringifier,
                    return_type,
                    identifier,
                    args,
                    semi_colon,
                },
                at,
            )),
            Err(error) => Err(error),
        }
    }
}

impl<'a> Build<'a> for IdlPart<AttributeMixinMember<'a>> {
    type Value = AttributeMixinMember<'a>;

    ghost fits = { λ r. r ≡ ATTRIBUTE_MIXIN_MEMBER };

    ghost tree = { attribute_mixin_member_tree };

    fn build(
        alloc: Global,
        table: Table<'_, 'a>,
        _rule: Rule,
        at: At,
    ) -> BuildResult<AttributeMixinMember<'a>> {
        match seven_fields::<
            Attributes<'a>,
            Option<Stringifier>,
            Option<ReadOnly>,
            Attribute,
            Held<AttributedType<'a>>,
            Identifier<'a>,
            SemiColon,
        >(alloc, table, Rule::ATTRIBUTE_MIXIN_MEMBER, at)
        {
            Ok(
                ((attributes, stringifier, readonly, attribute, type_, identifier, semi_colon), at),
            ) => Ok((
                AttributeMixinMember {
                    attributes,
                    stringifier,
                    readonly,
                    attribute,
                    type_,
                    identifier,
                    semi_colon,
                },
                at,
            )),
            Err(error) => Err(error),
        }
    }
}

impl<'a> Build<'a> for IdlPart<MixinMember<'a>> {
    type Value = MixinMember<'a>;

    ghost fits = { λ r. r ≡ MIXIN_MEMBER };

    ghost tree = { mixin_member_tree };

    fn build(
        alloc: Global,
        table: Table<'_, 'a>,
        _rule: Rule,
        at: At,
    ) -> BuildResult<MixinMember<'a>> {
        let rule = Rule::MIXIN_MEMBER;
        match choice(table, rule, at.place) {
            0 => {
                let (member, at) = alternative::<IdlPart<ConstMember<'a>>>(
                    alloc, table, rule, 0, at,
                )?;
                Ok((MixinMember::Const(member), at))
            }
            1 => {
                let (member, at) = alternative::<IdlPart<OperationMixinMember<'a>>>(
                    alloc, table, rule, 1, at,
                )?;
                Ok((MixinMember::Operation(member), at))
            }
            2 => {
                let (member, at) = alternative::<IdlPart<AttributeMixinMember<'a>>>(
                    alloc, table, rule, 2, at,
                )?;
                Ok((MixinMember::Attribute(member), at))
            }
            3 => {
                let (member, at) = alternative::<IdlPart<StringifierMember<'a>>>(
                    alloc, table, rule, 3, at,
                )?;
                Ok((MixinMember::Stringifier(member), at))
            }
            _ => unreachable!(),
        }
    }
}

impl<'a> Build<'a> for IdlPart<InterfaceMixinDefinition<'a>> {
    type Value = InterfaceMixinDefinition<'a>;

    ghost fits = { λ r. r ≡ INTERFACE_MIXIN_DEFINITION };

    ghost tree = { interface_mixin_definition_tree };

    fn build(
        alloc: Global,
        table: Table<'_, 'a>,
        _rule: Rule,
        at: At,
    ) -> BuildResult<InterfaceMixinDefinition<'a>> {
        match six_fields::<
            Attributes<'a>,
            Interface,
            Mixin,
            Identifier<'a>,
            Braced<Vec<IdlPart<MixinMember<'a>>>>,
            SemiColon,
        >(alloc, table, Rule::INTERFACE_MIXIN_DEFINITION, at)
        {
            Ok(((attributes, interface, mixin, identifier, members, semi_colon), at)) => Ok((
                InterfaceMixinDefinition {
                    attributes,
                    interface,
                    mixin,
                    identifier,
                    members,
                    semi_colon,
                },
                at,
            )),
            Err(error) => Err(error),
        }
    }
}

impl<'a> Build<'a> for IdlPart<PartialInterfaceMixinDefinition<'a>> {
    type Value = PartialInterfaceMixinDefinition<'a>;

    ghost fits = { λ r. r ≡ PARTIAL_INTERFACE_MIXIN_DEFINITION };

    ghost tree = { partial_interface_mixin_definition_tree };

    fn build(
        alloc: Global,
        table: Table<'_, 'a>,
        _rule: Rule,
        at: At,
    ) -> BuildResult<PartialInterfaceMixinDefinition<'a>> {
        match seven_fields::<
            Attributes<'a>,
            Partial,
            Interface,
            Mixin,
            Identifier<'a>,
            Braced<Vec<IdlPart<MixinMember<'a>>>>,
            SemiColon,
        >(alloc, table, Rule::PARTIAL_INTERFACE_MIXIN_DEFINITION, at)
        {
            Ok(((attributes, partial, interface, mixin, identifier, members, semi_colon), at)) =>
                Ok((
                    PartialInterfaceMixinDefinition {
                        attributes,
                        partial,
                        interface,
                        mixin,
                        identifier,
                        members,
                        semi_colon,
                    },
                    at,
                )),
            Err(error) => Err(error),
        }
    }
}
