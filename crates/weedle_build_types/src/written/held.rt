//! How the types that lead back to themselves are built as parts of others.
#![tactic(auto, using(weedle_build_base::proofs::Finding::own_steps))]

ghost use Rattle.std.specs.Prelude.{◌≡◌};
ghost use Rattle.weedle_grammar.specs.written.Table.Types.{
  ATTRIBUTED_TYPE,
  EXTENDED_ATTRIBUTE_LIST,
  PARENTHESIZED_ARGUMENT_LIST,
  RETURN_TYPE,
  TYPE,
};
ghost use Rattle.weedle_types.specs.Trees.{
  arguments_tree,
  attributed_type_tree,
  extended_attribute_list_tree,
  return_type_tree,
  type_tree,
};

use crate::types::arguments::arguments;
use crate::types::attributes::extended_attribute_list;
use crate::types::kinds::{attributed_type, return_type, type_};
use std::alloc::Global;
use weedle_build_base::{At, Build, BuildResult, Table};
use weedle_rules::Rule;
use weedle_types::argument::ParenthesizedArgumentList;
use weedle_types::attribute::ExtendedAttributeList;
use weedle_types::types::{AttributedType, ReturnType, Type};

/// How a `T` is built. It is the `Build` of a type in another crate.
pub struct Held<T>(T);

impl<'a> Build<'a> for Held<Type<'a>> {
    type Value = Type<'a>;

    ghost fits = { λ r. r ≡ TYPE };

    ghost tree = { type_tree };

    fn build(alloc: Global, table: Table<'_, 'a>, _rule: Rule, at: At) -> BuildResult<Type<'a>> {
        type_(alloc, table, at)
    }
}

impl<'a> Build<'a> for Held<ReturnType<'a>> {
    type Value = ReturnType<'a>;

    ghost fits = { λ r. r ≡ RETURN_TYPE };

    ghost tree = { return_type_tree };

    fn build(
        alloc: Global,
        table: Table<'_, 'a>,
        _rule: Rule,
        at: At,
    ) -> BuildResult<ReturnType<'a>> {
        return_type(alloc, table, at)
    }
}

impl<'a> Build<'a> for Held<AttributedType<'a>> {
    type Value = AttributedType<'a>;

    ghost fits = { λ r. r ≡ ATTRIBUTED_TYPE };

    ghost tree = { attributed_type_tree };

    fn build(
        alloc: Global,
        table: Table<'_, 'a>,
        _rule: Rule,
        at: At,
    ) -> BuildResult<AttributedType<'a>> {
        attributed_type(alloc, table, at)
    }
}

impl<'a> Build<'a> for Held<ExtendedAttributeList<'a>> {
    type Value = ExtendedAttributeList<'a>;

    ghost fits = { λ r. r ≡ EXTENDED_ATTRIBUTE_LIST };

    ghost tree = { extended_attribute_list_tree };

    fn build(
        alloc: Global,
        table: Table<'_, 'a>,
        _rule: Rule,
        at: At,
    ) -> BuildResult<ExtendedAttributeList<'a>> {
        extended_attribute_list(alloc, table, at)
    }
}

impl<'a> Build<'a> for Held<ParenthesizedArgumentList<'a>> {
    type Value = ParenthesizedArgumentList<'a>;

    ghost fits = { λ r. r ≡ PARENTHESIZED_ARGUMENT_LIST };

    ghost tree = { arguments_tree };

    fn build(
        alloc: Global,
        table: Table<'_, 'a>,
        _rule: Rule,
        at: At,
    ) -> BuildResult<ParenthesizedArgumentList<'a>> {
        arguments(alloc, table, at)
    }
}
