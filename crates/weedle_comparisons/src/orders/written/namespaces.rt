//! Orders of namespaces and dictionaries, with their members.
//!
//! Written by tools/orders.py, and not edited by hand.

ghost use Rattle.std.specs.Prelude.{◌≡◌, ◌<◌};
ghost use Rattle.std.specs.Ordering.{ordering_then};
ghost use Rattle.weedle_comparisons.specs.written.Places.{namespace_member_place};

use std::cmp::Ordering;
use weedle_base::term::{Attribute, Dictionary, Namespace, Partial, ReadOnly, Required, SemiColon};
use weedle_namespaces::dictionary::{DictionaryMember, DictionaryMembers};
use weedle_namespaces::namespace::{
    AttributeNamespaceMember, NamespaceMember, NamespaceMembers, OperationNamespaceMember,
};
use weedle_namespaces::{
    DictionaryDefinition, NamespaceDefinition, PartialDictionaryDefinition,
    PartialNamespaceDefinition,
};
use weedle_parts::common::{Braced, Docstring, Identifier};
use weedle_parts::inheritance::Inheritance;
use weedle_parts::literal::Default;
use weedle_types::argument::ParenthesizedArgumentList;
use weedle_types::attribute::ExtendedAttributeList;
use weedle_types::types::{AttributedType, ReturnType, Type};

/// A law, which does nothing: `cmp` of `DictionaryMember` goes by its fields, in order.
pub fn dictionary_member<'a>()
    ensures { (a b : DictionaryMember)
        → ⟦<DictionaryMember<'a> as Ord>⟧.cmp a b
        ≡ ordering_then (⟦<Option<Docstring> as Ord>⟧.cmp a.docstring b.docstring)
        (ordering_then (⟦<Option<ExtendedAttributeList<'a>> as Ord>⟧.cmp a.attributes b.attributes)
        (ordering_then (⟦<Option<Required> as Ord>⟧.cmp a.required b.required)
        (ordering_then (⟦<Type<'a> as Ord>⟧.cmp a.type_ b.type_)
        (ordering_then (⟦<Identifier<'a> as Ord>⟧.cmp a.identifier b.identifier)
        (ordering_then (⟦<Option<Default<'a>> as Ord>⟧.cmp a.default b.default)
        (⟦<SemiColon as Ord>⟧.cmp a.semi_colon b.semi_colon)))))) }
{}

/// A law, which does nothing: `cmp` of `DictionaryDefinition` goes by its fields, in order.
pub fn dictionary_definition<'a>()
    ensures { (a b : DictionaryDefinition)
        → ⟦<DictionaryDefinition<'a> as Ord>⟧.cmp a b
        ≡ ordering_then (⟦<Option<Docstring> as Ord>⟧.cmp a.docstring b.docstring)
        (ordering_then (⟦<Option<ExtendedAttributeList<'a>> as Ord>⟧.cmp a.attributes b.attributes)
        (ordering_then (⟦<Dictionary as Ord>⟧.cmp a.dictionary b.dictionary)
        (ordering_then (⟦<Identifier<'a> as Ord>⟧.cmp a.identifier b.identifier)
        (ordering_then (⟦<Option<Inheritance<'a>> as Ord>⟧.cmp a.inheritance b.inheritance)
        (ordering_then (⟦<Braced<DictionaryMembers<'a>> as Ord>⟧.cmp a.members b.members)
        (⟦<SemiColon as Ord>⟧.cmp a.semi_colon b.semi_colon)))))) }
{}

/// A law, which does nothing: `cmp` of `PartialDictionaryDefinition` goes by its fields, in order.
pub fn partial_dictionary_definition<'a>()
    ensures { (a b : PartialDictionaryDefinition)
        → ⟦<PartialDictionaryDefinition<'a> as Ord>⟧.cmp a b
        ≡ ordering_then (⟦<Option<ExtendedAttributeList<'a>> as Ord>⟧.cmp a.attributes b.attributes)
        (ordering_then (⟦<Partial as Ord>⟧.cmp a.partial b.partial)
        (ordering_then (⟦<Dictionary as Ord>⟧.cmp a.dictionary b.dictionary)
        (ordering_then (⟦<Identifier<'a> as Ord>⟧.cmp a.identifier b.identifier)
        (ordering_then (⟦<Braced<DictionaryMembers<'a>> as Ord>⟧.cmp a.members b.members)
        (⟦<SemiColon as Ord>⟧.cmp a.semi_colon b.semi_colon))))) }
{}

/// A law, which does nothing: `cmp` of `OperationNamespaceMember` goes by its fields, in order.
pub fn operation_namespace_member<'a>()
    ensures { (a b : OperationNamespaceMember)
        → ⟦<OperationNamespaceMember<'a> as Ord>⟧.cmp a b
        ≡ ordering_then (⟦<Option<Docstring> as Ord>⟧.cmp a.docstring b.docstring)
        (ordering_then (⟦<Option<ExtendedAttributeList<'a>> as Ord>⟧.cmp a.attributes b.attributes)
        (ordering_then (⟦<ReturnType<'a> as Ord>⟧.cmp a.return_type b.return_type)
        (ordering_then (⟦<Option<Identifier<'a>> as Ord>⟧.cmp a.identifier b.identifier)
        (ordering_then (⟦<ParenthesizedArgumentList<'a> as Ord>⟧.cmp a.args b.args)
        (⟦<SemiColon as Ord>⟧.cmp a.semi_colon b.semi_colon))))) }
{}

/// A law, which does nothing: `cmp` of `AttributeNamespaceMember` goes by its fields, in order.
pub fn attribute_namespace_member<'a>()
    ensures { (a b : AttributeNamespaceMember)
        → ⟦<AttributeNamespaceMember<'a> as Ord>⟧.cmp a b
        ≡ ordering_then (⟦<Option<Docstring> as Ord>⟧.cmp a.docstring b.docstring)
        (ordering_then (⟦<Option<ExtendedAttributeList<'a>> as Ord>⟧.cmp a.attributes b.attributes)
        (ordering_then (⟦<ReadOnly as Ord>⟧.cmp a.readonly b.readonly)
        (ordering_then (⟦<Attribute as Ord>⟧.cmp a.attribute b.attribute)
        (ordering_then (⟦<AttributedType<'a> as Ord>⟧.cmp a.type_ b.type_)
        (ordering_then (⟦<Identifier<'a> as Ord>⟧.cmp a.identifier b.identifier)
        (⟦<SemiColon as Ord>⟧.cmp a.semi_colon b.semi_colon)))))) }
{}

/// A law, which does nothing: `cmp` of `NamespaceMember` goes by its variants, and of one variant
/// by what it holds.
pub fn namespace_member<'a>()
    ensures earlier { (a b : NamespaceMember)
        → namespace_member_place a < namespace_member_place b
        → ⟦<NamespaceMember<'a> as Ord>⟧.cmp a b ≡ Ordering.Less }
    ensures later { (a b : NamespaceMember)
        → namespace_member_place b < namespace_member_place a
        → ⟦<NamespaceMember<'a> as Ord>⟧.cmp a b ≡ Ordering.Greater }
    ensures operation { (a b : OperationNamespaceMember)
        → ⟦<NamespaceMember<'a> as Ord>⟧.cmp (NamespaceMember.Operation a)
        (NamespaceMember.Operation b)
        ≡ ⟦<OperationNamespaceMember<'a> as Ord>⟧.cmp a b }
    ensures attribute { (a b : AttributeNamespaceMember)
        → ⟦<NamespaceMember<'a> as Ord>⟧.cmp (NamespaceMember.Attribute a)
        (NamespaceMember.Attribute b)
        ≡ ⟦<AttributeNamespaceMember<'a> as Ord>⟧.cmp a b }
{}

/// A law, which does nothing: `cmp` of `NamespaceDefinition` goes by its fields, in order.
pub fn namespace_definition<'a>()
    ensures { (a b : NamespaceDefinition)
        → ⟦<NamespaceDefinition<'a> as Ord>⟧.cmp a b
        ≡ ordering_then (⟦<Option<Docstring> as Ord>⟧.cmp a.docstring b.docstring)
        (ordering_then (⟦<Option<ExtendedAttributeList<'a>> as Ord>⟧.cmp a.attributes b.attributes)
        (ordering_then (⟦<Namespace as Ord>⟧.cmp a.namespace b.namespace)
        (ordering_then (⟦<Identifier<'a> as Ord>⟧.cmp a.identifier b.identifier)
        (ordering_then (⟦<Braced<NamespaceMembers<'a>> as Ord>⟧.cmp a.members b.members)
        (⟦<SemiColon as Ord>⟧.cmp a.semi_colon b.semi_colon))))) }
{}

/// A law, which does nothing: `cmp` of `PartialNamespaceDefinition` goes by its fields, in order.
pub fn partial_namespace_definition<'a>()
    ensures { (a b : PartialNamespaceDefinition)
        → ⟦<PartialNamespaceDefinition<'a> as Ord>⟧.cmp a b
        ≡ ordering_then (⟦<Option<ExtendedAttributeList<'a>> as Ord>⟧.cmp a.attributes b.attributes)
        (ordering_then (⟦<Partial as Ord>⟧.cmp a.partial b.partial)
        (ordering_then (⟦<Namespace as Ord>⟧.cmp a.namespace b.namespace)
        (ordering_then (⟦<Identifier<'a> as Ord>⟧.cmp a.identifier b.identifier)
        (ordering_then (⟦<Braced<NamespaceMembers<'a>> as Ord>⟧.cmp a.members b.members)
        (⟦<SemiColon as Ord>⟧.cmp a.semi_colon b.semi_colon))))) }
{}
