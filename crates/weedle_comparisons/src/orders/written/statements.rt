//! Orders of definitions without members.
//!
//! Written by tools/orders.py, and not edited by hand.

ghost use Rattle.std.specs.Prelude.{◌≡◌};
ghost use Rattle.std.specs.Ordering.{ordering_then};

use weedle_base::term::{Assign, Callback, Enum, Implements, Includes, SemiColon, Typedef};
use weedle_parts::common::{Braced, Docstring, Identifier};
use weedle_parts::literal::StringLit;
use weedle_statements::{
    CallbackDefinition, EnumDefinition, EnumValueList, EnumVariant, ImplementsDefinition,
    IncludesStatementDefinition, TypedefDefinition,
};
use weedle_types::argument::ParenthesizedArgumentList;
use weedle_types::attribute::ExtendedAttributeList;
use weedle_types::types::{AttributedType, ReturnType};

/// A law, which does nothing: `cmp` of `CallbackDefinition` goes by its fields, in order.
pub fn callback_definition<'a>()
    ensures { (a b : CallbackDefinition)
        → ⟦<CallbackDefinition<'a> as Ord>⟧.cmp a b
        ≡ ordering_then (⟦<Option<ExtendedAttributeList<'a>> as Ord>⟧.cmp a.attributes b.attributes)
        (ordering_then (⟦<Callback as Ord>⟧.cmp a.callback b.callback)
        (ordering_then (⟦<Identifier<'a> as Ord>⟧.cmp a.identifier b.identifier)
        (ordering_then (⟦<Assign as Ord>⟧.cmp a.assign b.assign)
        (ordering_then (⟦<ReturnType<'a> as Ord>⟧.cmp a.return_type b.return_type)
        (ordering_then (⟦<ParenthesizedArgumentList<'a> as Ord>⟧.cmp a.arguments b.arguments)
        (⟦<SemiColon as Ord>⟧.cmp a.semi_colon b.semi_colon)))))) }
{}

/// A law, which does nothing: `cmp` of `EnumVariant` goes by its fields, in order.
pub fn enum_variant<'a>()
    ensures { (a b : EnumVariant)
        → ⟦<EnumVariant<'a> as Ord>⟧.cmp a b
        ≡ ordering_then (⟦<Option<Docstring> as Ord>⟧.cmp a.docstring b.docstring)
        (⟦<StringLit<'a> as Ord>⟧.cmp a.value b.value) }
{}

/// A law, which does nothing: `cmp` of `EnumDefinition` goes by its fields, in order.
pub fn enum_definition<'a>()
    ensures { (a b : EnumDefinition)
        → ⟦<EnumDefinition<'a> as Ord>⟧.cmp a b
        ≡ ordering_then (⟦<Option<Docstring> as Ord>⟧.cmp a.docstring b.docstring)
        (ordering_then (⟦<Option<ExtendedAttributeList<'a>> as Ord>⟧.cmp a.attributes b.attributes)
        (ordering_then (⟦<Enum as Ord>⟧.cmp a.enum_ b.enum_)
        (ordering_then (⟦<Identifier<'a> as Ord>⟧.cmp a.identifier b.identifier)
        (ordering_then (⟦<Braced<EnumValueList<'a>> as Ord>⟧.cmp a.values b.values)
        (⟦<SemiColon as Ord>⟧.cmp a.semi_colon b.semi_colon))))) }
{}

/// A law, which does nothing: `cmp` of `IncludesStatementDefinition` goes by its fields, in order.
pub fn includes_statement_definition<'a>()
    ensures { (a b : IncludesStatementDefinition)
        → ⟦<IncludesStatementDefinition<'a> as Ord>⟧.cmp a b
        ≡ ordering_then (⟦<Option<ExtendedAttributeList<'a>> as Ord>⟧.cmp a.attributes b.attributes)
        (ordering_then (⟦<Identifier<'a> as Ord>⟧.cmp a.lhs_identifier b.lhs_identifier)
        (ordering_then (⟦<Includes as Ord>⟧.cmp a.includes b.includes)
        (ordering_then (⟦<Identifier<'a> as Ord>⟧.cmp a.rhs_identifier b.rhs_identifier)
        (⟦<SemiColon as Ord>⟧.cmp a.semi_colon b.semi_colon)))) }
{}

/// A law, which does nothing: `cmp` of `ImplementsDefinition` goes by its fields, in order.
pub fn implements_definition<'a>()
    ensures { (a b : ImplementsDefinition)
        → ⟦<ImplementsDefinition<'a> as Ord>⟧.cmp a b
        ≡ ordering_then (⟦<Option<ExtendedAttributeList<'a>> as Ord>⟧.cmp a.attributes b.attributes)
        (ordering_then (⟦<Identifier<'a> as Ord>⟧.cmp a.lhs_identifier b.lhs_identifier)
        (ordering_then (⟦<Implements as Ord>⟧.cmp a.includes b.includes)
        (ordering_then (⟦<Identifier<'a> as Ord>⟧.cmp a.rhs_identifier b.rhs_identifier)
        (⟦<SemiColon as Ord>⟧.cmp a.semi_colon b.semi_colon)))) }
{}

/// A law, which does nothing: `cmp` of `TypedefDefinition` goes by its fields, in order.
pub fn typedef_definition<'a>()
    ensures { (a b : TypedefDefinition)
        → ⟦<TypedefDefinition<'a> as Ord>⟧.cmp a b
        ≡ ordering_then (⟦<Option<ExtendedAttributeList<'a>> as Ord>⟧.cmp a.attributes b.attributes)
        (ordering_then (⟦<Typedef as Ord>⟧.cmp a.typedef b.typedef)
        (ordering_then (⟦<AttributedType<'a> as Ord>⟧.cmp a.type_ b.type_)
        (ordering_then (⟦<Identifier<'a> as Ord>⟧.cmp a.identifier b.identifier)
        (⟦<SemiColon as Ord>⟧.cmp a.semi_colon b.semi_colon)))) }
{}
