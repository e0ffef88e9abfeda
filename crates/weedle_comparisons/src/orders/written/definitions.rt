//! Orders of definitions.
//!
//! Written by tools/orders.py, and not edited by hand.

ghost use Rattle.std.specs.Prelude.{◌≡◌, ◌<◌};
ghost use Rattle.weedle_comparisons.specs.written.Places.{definition_place};

use std::cmp::Ordering;
use weedle_idl::Definition;
use weedle_interfaces::{
    CallbackInterfaceDefinition, InterfaceDefinition, PartialInterfaceDefinition,
};
use weedle_mixins::{InterfaceMixinDefinition, PartialInterfaceMixinDefinition};
use weedle_namespaces::{
    DictionaryDefinition, NamespaceDefinition, PartialDictionaryDefinition,
    PartialNamespaceDefinition,
};
use weedle_statements::{
    CallbackDefinition, EnumDefinition, ImplementsDefinition, IncludesStatementDefinition,
    TypedefDefinition,
};

/// A law, which does nothing: `cmp` of `Definition` goes by its variants, and of one variant by
/// what it holds.
pub fn definition<'a>()
    ensures earlier { (a b : Definition)
        → definition_place a < definition_place b
        → ⟦<Definition<'a> as Ord>⟧.cmp a b ≡ Ordering.Less }
    ensures later { (a b : Definition)
        → definition_place b < definition_place a
        → ⟦<Definition<'a> as Ord>⟧.cmp a b ≡ Ordering.Greater }
    ensures callback { (a b : CallbackDefinition)
        → ⟦<Definition<'a> as Ord>⟧.cmp (Definition.Callback a) (Definition.Callback b)
        ≡ ⟦<CallbackDefinition<'a> as Ord>⟧.cmp a b }
    ensures callback_interface { (a b : CallbackInterfaceDefinition)
        → ⟦<Definition<'a> as Ord>⟧.cmp (Definition.CallbackInterface a)
        (Definition.CallbackInterface b)
        ≡ ⟦<CallbackInterfaceDefinition<'a> as Ord>⟧.cmp a b }
    ensures interface { (a b : InterfaceDefinition)
        → ⟦<Definition<'a> as Ord>⟧.cmp (Definition.Interface a) (Definition.Interface b)
        ≡ ⟦<InterfaceDefinition<'a> as Ord>⟧.cmp a b }
    ensures interface_mixin { (a b : InterfaceMixinDefinition)
        → ⟦<Definition<'a> as Ord>⟧.cmp (Definition.InterfaceMixin a)
        (Definition.InterfaceMixin b)
        ≡ ⟦<InterfaceMixinDefinition<'a> as Ord>⟧.cmp a b }
    ensures namespace { (a b : NamespaceDefinition)
        → ⟦<Definition<'a> as Ord>⟧.cmp (Definition.Namespace a) (Definition.Namespace b)
        ≡ ⟦<NamespaceDefinition<'a> as Ord>⟧.cmp a b }
    ensures dictionary { (a b : DictionaryDefinition)
        → ⟦<Definition<'a> as Ord>⟧.cmp (Definition.Dictionary a) (Definition.Dictionary b)
        ≡ ⟦<DictionaryDefinition<'a> as Ord>⟧.cmp a b }
    ensures partial_interface { (a b : PartialInterfaceDefinition)
        → ⟦<Definition<'a> as Ord>⟧.cmp (Definition.PartialInterface a)
        (Definition.PartialInterface b)
        ≡ ⟦<PartialInterfaceDefinition<'a> as Ord>⟧.cmp a b }
    ensures partial_interface_mixin { (a b : PartialInterfaceMixinDefinition)
        → ⟦<Definition<'a> as Ord>⟧.cmp (Definition.PartialInterfaceMixin a)
        (Definition.PartialInterfaceMixin b)
        ≡ ⟦<PartialInterfaceMixinDefinition<'a> as Ord>⟧.cmp a b }
    ensures partial_dictionary { (a b : PartialDictionaryDefinition)
        → ⟦<Definition<'a> as Ord>⟧.cmp (Definition.PartialDictionary a)
        (Definition.PartialDictionary b)
        ≡ ⟦<PartialDictionaryDefinition<'a> as Ord>⟧.cmp a b }
    ensures partial_namespace { (a b : PartialNamespaceDefinition)
        → ⟦<Definition<'a> as Ord>⟧.cmp (Definition.PartialNamespace a)
        (Definition.PartialNamespace b)
        ≡ ⟦<PartialNamespaceDefinition<'a> as Ord>⟧.cmp a b }
    ensures enum_ { (a b : EnumDefinition)
        → ⟦<Definition<'a> as Ord>⟧.cmp (Definition.Enum a) (Definition.Enum b)
        ≡ ⟦<EnumDefinition<'a> as Ord>⟧.cmp a b }
    ensures typedef { (a b : TypedefDefinition)
        → ⟦<Definition<'a> as Ord>⟧.cmp (Definition.Typedef a) (Definition.Typedef b)
        ≡ ⟦<TypedefDefinition<'a> as Ord>⟧.cmp a b }
    ensures includes_statement { (a b : IncludesStatementDefinition)
        → ⟦<Definition<'a> as Ord>⟧.cmp (Definition.IncludesStatement a)
        (Definition.IncludesStatement b)
        ≡ ⟦<IncludesStatementDefinition<'a> as Ord>⟧.cmp a b }
    ensures implements { (a b : ImplementsDefinition)
        → ⟦<Definition<'a> as Ord>⟧.cmp (Definition.Implements a) (Definition.Implements b)
        ≡ ⟦<ImplementsDefinition<'a> as Ord>⟧.cmp a b }
{}
