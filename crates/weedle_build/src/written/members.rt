//! The members of interfaces: constants, attributes, operations, constructors and stringifiers.
//!
//! Written by tools/builds.py, and not edited by hand.
#![tactic(auto, using(weedle_build_base::proofs::Finding::own_steps))]

ghost use Rattle.std.specs.Prelude.{◌≡◌};
ghost use Rattle.weedle_grammar.specs.written.Table.InterfaceMembers.{
  ATTRIBUTE_INTERFACE_MEMBER,
  CONSTRUCTOR_INTERFACE_MEMBER,
  CONST_MEMBER,
  OPERATION_INTERFACE_MEMBER,
  STRINGIFIER_MEMBER,
};
ghost use Rattle.weedle_members.specs.written.Trees.{
  attribute_interface_member_tree,
  const_member_tree,
  constructor_interface_member_tree,
  operation_interface_member_tree,
  stringifier_member_tree,
};

use crate::part::IdlPart;
use std::alloc::Global;
use weedle_base::term::{Assign, Attribute, Const, Constructor, ReadOnly, SemiColon, Stringifier};
use weedle_build_base::{
    At, Build, BuildResult, Table, eight_fields, five_fields, seven_fields, three_fields,
};
use weedle_build_types::{Arguments, Attributes, Held};
use weedle_members::{
    AttributeInterfaceMember, ConstMember, ConstructorInterfaceMember, OperationInterfaceMember,
    StringifierMember,
};
use weedle_parts::common::{Docstring, Identifier};
use weedle_parts::literal::ConstValue;
use weedle_parts::modifier::{Special, StringifierOrInheritOrStatic, StringifierOrStatic};
use weedle_parts::types::ConstType;
use weedle_rules::Rule;
use weedle_types::types::{AttributedType, ReturnType};

impl<'a> Build<'a> for IdlPart<ConstMember<'a>> {
    type Value = ConstMember<'a>;

    ghost fits = { λ r. r ≡ CONST_MEMBER };

    ghost tree = { const_member_tree };

    fn build(
        alloc: Global,
        table: Table<'_, 'a>,
        _rule: Rule,
        at: At,
    ) -> BuildResult<ConstMember<'a>> {
        match seven_fields::<
            Attributes<'a>,
            Const,
            ConstType<'a>,
            Identifier<'a>,
            Assign,
            ConstValue<'a>,
            SemiColon,
        >(alloc, table, Rule::CONST_MEMBER, at)
        {
            Ok(
                ((attributes, const_, const_type, identifier, assign, const_value, semi_colon), at),
            ) => Ok((
                ConstMember {
                    attributes,
                    const_,
                    const_type,
                    identifier,
                    assign,
                    const_value,
                    semi_colon,
                },
                at,
            )),
            Err(error) => Err(error),
        }
    }
}

impl<'a> Build<'a> for IdlPart<AttributeInterfaceMember<'a>> {
    type Value = AttributeInterfaceMember<'a>;

    ghost fits = { λ r. r ≡ ATTRIBUTE_INTERFACE_MEMBER };

    ghost tree = { attribute_interface_member_tree };

    fn build(
        alloc: Global,
        table: Table<'_, 'a>,
        _rule: Rule,
        at: At,
    ) -> BuildResult<AttributeInterfaceMember<'a>> {
        match seven_fields::<
            Attributes<'a>,
            Option<StringifierOrInheritOrStatic>,
            Option<ReadOnly>,
            Attribute,
            Held<AttributedType<'a>>,
            Identifier<'a>,
            SemiColon,
        >(alloc, table, Rule::ATTRIBUTE_INTERFACE_MEMBER, at)
        {
            Ok(((attributes, modifier, readonly, attribute, type_, identifier, semi_colon), at)) =>
                Ok((
                    AttributeInterfaceMember {
                        attributes,
                        modifier,
                        readonly,
                        attribute,
                        type_,
                        identifier,
                        semi_colon,
                    },
                    at,
                )),
            Err(error) => Err(error),
        }
    }
}

impl<'a> Build<'a> for IdlPart<ConstructorInterfaceMember<'a>> {
    type Value = ConstructorInterfaceMember<'a>;

    ghost fits = { λ r. r ≡ CONSTRUCTOR_INTERFACE_MEMBER };

    ghost tree = { constructor_interface_member_tree };

    fn build(
        alloc: Global,
        table: Table<'_, 'a>,
        _rule: Rule,
        at: At,
    ) -> BuildResult<ConstructorInterfaceMember<'a>> {
        match five_fields::<
            Option<Docstring>,
            Attributes<'a>,
            Constructor,
            Arguments<'a>,
            SemiColon,
        >(alloc, table, Rule::CONSTRUCTOR_INTERFACE_MEMBER, at)
        {
            Ok(((docstring, attributes, constructor, args, semi_colon), at)) => Ok((
                ConstructorInterfaceMember {
                    docstring,
                    attributes,
                    constructor,
                    args,
                    semi_colon,
                },
                at,
            )),
            Err(error) => Err(error),
        }
    }
}

impl<'a> Build<'a> for IdlPart<OperationInterfaceMember<'a>> {
    type Value = OperationInterfaceMember<'a>;

    ghost fits = { λ r. r ≡ OPERATION_INTERFACE_MEMBER };

    ghost tree = { operation_interface_member_tree };

    fn build(
        alloc: Global,
        table: Table<'_, 'a>,
        _rule: Rule,
        at: At,
    ) -> BuildResult<OperationInterfaceMember<'a>> {
        match eight_fields::<
            Option<Docstring>,
            Attributes<'a>,
            Option<StringifierOrStatic>,
            Option<Special>,
            Held<ReturnType<'a>>,
            Option<Identifier<'a>>,
            Arguments<'a>,
            SemiColon,
        >(alloc, table, Rule::OPERATION_INTERFACE_MEMBER, at)
        {
            Ok(
                (
                    (
                        docstring,
                        attributes,
                        modifier,
                        special,
                        return_type,
                        identifier,
                        args,
                        semi_colon,
                    ),
                    at,
                ),
            ) => Ok((
                OperationInterfaceMember {
                    docstring,
                    attributes,
                    modifier,
                    special,
                    return_type,
                    identifier,
                    args,
                    semi_colon,
                },
                at,
            )),
            Err(error) => Err(error),
        }
    }
}

impl<'a> Build<'a> for IdlPart<StringifierMember<'a>> {
    type Value = StringifierMember<'a>;

    ghost fits = { λ r. r ≡ STRINGIFIER_MEMBER };

    ghost tree = { stringifier_member_tree };

    fn build(
        alloc: Global,
        table: Table<'_, 'a>,
        _rule: Rule,
        at: At,
    ) -> BuildResult<StringifierMember<'a>> {
        match three_fields::<Attributes<'a>, Stringifier, SemiColon>(
            alloc,
            table,
            Rule::STRINGIFIER_MEMBER,
            at,
        ) {
            Ok(((attributes, stringifier, semi_colon), at)) => Ok((
                StringifierMember {
                    attributes,
                    stringifier,
                    semi_colon,
                },
                at,
            )),
            Err(error) => Err(error),
        }
    }
}
