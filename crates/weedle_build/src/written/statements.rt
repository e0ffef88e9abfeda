//! The definitions without members.
//!
//! Written by tools/builds.py, and not edited by hand.
#![tactic(auto, using(weedle_build_base::proofs::Finding::own_steps))]

ghost use Rattle.std.specs.Prelude.{◌≡◌};
ghost use Rattle.weedle_grammar.specs.written.Table.Definitions.{
  CALLBACK_DEFINITION,
  ENUM_DEFINITION,
  IMPLEMENTS_DEFINITION,
  INCLUDES_STATEMENT_DEFINITION,
  TYPEDEF_DEFINITION,
};
ghost use Rattle.weedle_grammar.specs.written.Table.OtherMembers.{ENUM_VARIANT};
ghost use Rattle.weedle_statements.specs.written.Trees.{
  callback_definition_tree,
  enum_definition_tree,
  enum_variant_tree,
  implements_definition_tree,
  includes_statement_definition_tree,
  typedef_definition_tree,
};

use crate::part::{EnumValues, IdlPart};
use std::alloc::Global;
use weedle_base::term::{Assign, Callback, Enum, Implements, Includes, SemiColon, Typedef};
use weedle_build_base::{
    At, Build, BuildResult, Table, five_fields, seven_fields, six_fields, two_fields,
};
use weedle_build_types::{Arguments, Attributes, Held};
use weedle_parts::common::{Docstring, Identifier};
use weedle_parts::literal::StringLit;
use weedle_rules::Rule;
use weedle_statements::{
    CallbackDefinition, EnumDefinition, EnumVariant, ImplementsDefinition,
    IncludesStatementDefinition, TypedefDefinition,
};
use weedle_types::types::{AttributedType, ReturnType};

impl<'a> Build<'a> for IdlPart<EnumVariant<'a>> {
    type Value = EnumVariant<'a>;

    ghost fits = { λ r. r ≡ ENUM_VARIANT };

    ghost tree = { enum_variant_tree };

    fn build(
        alloc: Global,
        table: Table<'_, 'a>,
        _rule: Rule,
        at: At,
    ) -> BuildResult<EnumVariant<'a>> {
        let ((docstring, value), at) = two_fields::<Option<Docstring>, StringLit<'a>>(
            alloc,
            table,
            Rule::ENUM_VARIANT,
            at,
        )?;
        Ok((EnumVariant { docstring, value }, at))
    }
}

impl<'a> Build<'a> for IdlPart<CallbackDefinition<'a>> {
    type Value = CallbackDefinition<'a>;

    ghost fits = { λ r. r ≡ CALLBACK_DEFINITION };

    ghost tree = { callback_definition_tree };

    fn build(
        alloc: Global,
        table: Table<'_, 'a>,
        _rule: Rule,
        at: At,
    ) -> BuildResult<CallbackDefinition<'a>> {
        match seven_fields::<
            Attributes<'a>,
            Callback,
            Identifier<'a>,
            Assign,
            Held<ReturnType<'a>>,
            Arguments<'a>,
            SemiColon,
        >(alloc, table, Rule::CALLBACK_DEFINITION, at)
        {
            Ok(
                (
                    (attributes, callback, identifier, assign, return_type, arguments, semi_colon),
                    at,
                ),
            ) => Ok((
                CallbackDefinition {
                    attributes,
                    callback,
                    identifier,
                    assign,
                    return_type,
                    arguments,
                    semi_colon,
                },
                at,
            )),
            Err(error) => Err(error),
        }
    }
}

impl<'a> Build<'a> for IdlPart<EnumDefinition<'a>> {
    type Value = EnumDefinition<'a>;

    ghost fits = { λ r. r ≡ ENUM_DEFINITION };

    ghost tree = { enum_definition_tree };

    fn build(
        alloc: Global,
        table: Table<'_, 'a>,
        _rule: Rule,
        at: At,
    ) -> BuildResult<EnumDefinition<'a>> {
        match six_fields::<
            Option<Docstring>,
            Attributes<'a>,
            Enum,
            Identifier<'a>,
            EnumValues<'a>,
            SemiColon,
        >(alloc, table, Rule::ENUM_DEFINITION, at)
        {
            Ok(((docstring, attributes, enum_, identifier, values, semi_colon), at)) => Ok((
                EnumDefinition {
                    docstring,
                    attributes,
                    enum_,
                    identifier,
                    values,
                    semi_colon,
                },
                at,
            )),
            Err(error) => Err(error),
        }
    }
}

impl<'a> Build<'a> for IdlPart<TypedefDefinition<'a>> {
    type Value = TypedefDefinition<'a>;

    ghost fits = { λ r. r ≡ TYPEDEF_DEFINITION };

    ghost tree = { typedef_definition_tree };

    fn build(
        alloc: Global,
        table: Table<'_, 'a>,
        _rule: Rule,
        at: At,
    ) -> BuildResult<TypedefDefinition<'a>> {
        match five_fields::<
            Attributes<'a>,
            Typedef,
            Held<AttributedType<'a>>,
            Identifier<'a>,
            SemiColon,
        >(alloc, table, Rule::TYPEDEF_DEFINITION, at)
        {
            Ok(((attributes, typedef, type_, identifier, semi_colon), at)) => Ok((
                TypedefDefinition {
                    attributes,
                    typedef,
                    type_,
                    identifier,
                    semi_colon,
                },
                at,
            )),
            Err(error) => Err(error),
        }
    }
}

impl<'a> Build<'a> for IdlPart<IncludesStatementDefinition<'a>> {
    type Value = IncludesStatementDefinition<'a>;

    ghost fits = { λ r. r ≡ INCLUDES_STATEMENT_DEFINITION };

    ghost tree = { includes_statement_definition_tree };

    fn build(
        alloc: Global,
        table: Table<'_, 'a>,
        _rule: Rule,
        at: At,
    ) -> BuildResult<IncludesStatementDefinition<'a>> {
        match five_fields::<Attributes<'a>, Identifier<'a>, Includes, Identifier<'a>, SemiColon>(
            alloc,
            table,
            Rule::INCLUDES_STATEMENT_DEFINITION,
            at,
        ) {
            Ok(((attributes, lhs_identifier, includes, rhs_identifier, semi_colon), at)) => Ok((
                IncludesStatementDefinition {
                    attributes,
                    lhs_identifier,
                    includes,
                    rhs_identifier,
                    semi_colon,
                },
                at,
            )),
            Err(error) => Err(error),
        }
    }
}

impl<'a> Build<'a> for IdlPart<ImplementsDefinition<'a>> {
    type Value = ImplementsDefinition<'a>;

    ghost fits = { λ r. r ≡ IMPLEMENTS_DEFINITION };

    ghost tree = { implements_definition_tree };

    fn build(
        alloc: Global,
        table: Table<'_, 'a>,
        _rule: Rule,
        at: At,
    ) -> BuildResult<ImplementsDefinition<'a>> {
        match five_fields::<Attributes<'a>, Identifier<'a>, Implements, Identifier<'a>, SemiColon>(
            alloc,
            table,
            Rule::IMPLEMENTS_DEFINITION,
            at,
        ) {
            Ok(((attributes, lhs_identifier, includes, rhs_identifier, semi_colon), at)) => Ok((
                ImplementsDefinition {
                    attributes,
                    lhs_identifier,
                    includes,
                    rhs_identifier,
                    semi_colon,
                },
                at,
            )),
            Err(error) => Err(error),
        }
    }
}
