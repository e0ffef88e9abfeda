//! Namespaces and their members.
//!
//! Written by tools/builds.py, and not edited by hand.
#![tactic(auto, using(weedle_build_base::proofs::Finding::own_steps))]

ghost use Rattle.std.specs.Prelude.{◌≡◌};
ghost use Rattle.weedle_grammar.specs.written.Table.Definitions.{
  NAMESPACE_DEFINITION,
  PARTIAL_NAMESPACE_DEFINITION,
};
ghost use Rattle.weedle_grammar.specs.written.Table.OtherMembers.{
  ATTRIBUTE_NAMESPACE_MEMBER,
  NAMESPACE_MEMBER,
  OPERATION_NAMESPACE_MEMBER,
};
ghost use Rattle.weedle_namespaces.specs.written.Trees.{
  attribute_namespace_member_tree,
  namespace_definition_tree,
  namespace_member_tree,
  operation_namespace_member_tree,
  partial_namespace_definition_tree,
};

use crate::part::IdlPart;
use std::alloc::Global;
use weedle_base::term::{Attribute, Namespace, Partial, ReadOnly, SemiColon};
use weedle_build_base::{
    At, Build, BuildResult, Table, alternative, choice, seven_fields, six_fields,
};
use weedle_build_types::{Arguments, Attributes, Held};
use weedle_namespaces::namespace::{
    AttributeNamespaceMember, NamespaceMember, OperationNamespaceMember,
};
use weedle_namespaces::{NamespaceDefinition, PartialNamespaceDefinition};
use weedle_parts::common::{Braced, Docstring, Identifier};
use weedle_rules::Rule;
use weedle_types::types::{AttributedType, ReturnType};

impl<'a> Build<'a> for IdlPart<OperationNamespaceMember<'a>> {
    type Value = OperationNamespaceMember<'a>;

    ghost fits = { λ r. r ≡ OPERATION_NAMESPACE_MEMBER };

    ghost tree = { operation_namespace_member_tree };

    fn build(
        alloc: Global,
        table: Table<'_, 'a>,
        _rule: Rule,
        at: At,
    ) -> BuildResult<OperationNamespaceMember<'a>> {
        match six_fields::<
            Option<Docstring>,
            Attributes<'a>,
            Held<ReturnType<'a>>,
            Option<Identifier<'a>>,
            Arguments<'a>,
            SemiColon,
        >(alloc, table, Rule::OPERATION_NAMESPACE_MEMBER, at)
        {
            Ok(((docstring, attributes, return_type, identifier, args, semi_colon), at)) => Ok((
                OperationNamespaceMember {
                    docstring,
                    attributes,
                    return_type,
                    identifier,
                    args,
                    semi_colon,
                },
                at,
            )),
            Err(error) => Err(error),
        }
    }
}

impl<'a> Build<'a> for IdlPart<AttributeNamespaceMember<'a>> {
    type Value = AttributeNamespaceMember<'a>;

    ghost fits = { λ r. r ≡ ATTRIBUTE_NAMESPACE_MEMBER };

    ghost tree = { attribute_namespace_member_tree };

    fn build(
        alloc: Global,
        table: Table<'_, 'a>,
        _rule: Rule,
        at: At,
    ) -> BuildResult<AttributeNamespaceMember<'a>> {
        match seven_fields::<
            Option<Docstring>,
            Attributes<'a>,
            ReadOnly,
            Attribute,
            Held<AttributedType<'a>>,
            Identifier<'a>,
            SemiColon,
        >(alloc, table, Rule::ATTRIBUTE_NAMESPACE_MEMBER, at)
        {
            Ok(((docstring, attributes, readonly, attribute, type_, identifier, semi_colon), at)) =>
                Ok((
                    AttributeNamespaceMember {
                        docstring,
                        attributes,
                        readonly,
                        attribute,
                        type_,
                        identifier,
                        semi_colon,
                    },
                    at,
                )),
            Err(error) => Err(error),
        }
    }
}

impl<'a> Build<'a> for IdlPart<NamespaceMember<'a>> {
    type Value = NamespaceMember<'a>;

    ghost fits = { λ r. r ≡ NAMESPACE_MEMBER };

    ghost tree = { namespace_member_tree };

    fn build(
        alloc: Global,
        table: Table<'_, 'a>,
        _rule: Rule,
        at: At,
    ) -> BuildResult<NamespaceMember<'a>> {
        let rule = Rule::NAMESPACE_MEMBER;
        match choice(table, rule, at.place) {
            0 => {
                let (member, at) = alternative::<IdlPart<OperationNamespaceMember<'a>>>(
                    alloc, table, rule, 0, at,
                )?;
                Ok((NamespaceMember::Operation(member), at))
            }
            1 => {
                let (member, at) = alternative::<IdlPart<AttributeNamespaceMember<'a>>>(
                    alloc, table, rule, 1, at,
                )?;
                Ok((NamespaceMember::Attribute(member), at))
            }
            _ => unreachable!(),
        }
    }
}

impl<'a> Build<'a> for IdlPart<NamespaceDefinition<'a>> {
    type Value = NamespaceDefinition<'a>;

    ghost fits = { λ r. r ≡ NAMESPACE_DEFINITION };

    ghost tree = { namespace_definition_tree };

    fn build(
        alloc: Global,
        table: Table<'_, 'a>,
        _rule: Rule,
        at: At,
    ) -> BuildResult<NamespaceDefinition<'a>> {
        match six_fields::<
            Option<Docstring>,
            Attributes<'a>,
            Namespace,
            Identifier<'a>,
            Braced<Vec<IdlPart<NamespaceMember<'a>>>>,
            SemiColon,
        >(alloc, table, Rule::NAMESPACE_DEFINITION, at)
        {
            Ok(((docstring, attributes, namespace, identifier, members, semi_colon), at)) => Ok((
                NamespaceDefinition {
                    docstring,
                    attributes,
                    namespace,
                    identifier,
                    members,
                    semi_colon,
                },
                at,
            )),
            Err(error) => Err(error),
        }
    }
}

impl<'a> Build<'a> for IdlPart<PartialNamespaceDefinition<'a>> {
    type Value = PartialNamespaceDefinition<'a>;

    ghost fits = { λ r. r ≡ PARTIAL_NAMESPACE_DEFINITION };

    ghost tree = { partial_namespace_definition_tree };

    fn build(
        alloc: Global,
        table: Table<'_, 'a>,
        _rule: Rule,
        at: At,
    ) -> BuildResult<PartialNamespaceDefinition<'a>> {
        match six_fields::<
            Attributes<'a>,
            Partial,
            Namespace,
            Identifier<'a>,
            Braced<Vec<IdlPart<NamespaceMember<'a>>>>,
            SemiColon,
        >(alloc, table, Rule::PARTIAL_NAMESPACE_DEFINITION, at)
        {
            Ok(((attributes, partial, namespace, identifier, members, semi_colon), at)) => Ok((
                PartialNamespaceDefinition {
                    attributes,
                    partial,
                    namespace,
                    identifier,
                    members,
                    semi_colon,
                },
                at,
            )),
            Err(error) => Err(error),
        }
    }
}
