//! Orders of interfaces, with their members.
//!
//! Written by tools/orders.py, and not edited by hand.

ghost use Rattle.std.specs.Prelude.{◌≡◌, ◌<◌};
ghost use Rattle.std.specs.Ordering.{ordering_then};
ghost use Rattle.weedle_comparisons.specs.written.Places.{interface_member_place};

use std::cmp::Ordering;
use weedle_base::term::{Callback, Interface, Partial, SemiColon};
use weedle_interfaces::{
    CallbackInterfaceDefinition, InterfaceDefinition, InterfaceMember, InterfaceMembers,
    PartialInterfaceDefinition,
};
use weedle_iterables::{
    AsyncIterableInterfaceMember, IterableInterfaceMember, MaplikeInterfaceMember,
    SetlikeInterfaceMember,
};
use weedle_members::{
    AttributeInterfaceMember, ConstMember, ConstructorInterfaceMember, OperationInterfaceMember,
    StringifierMember,
};
use weedle_parts::common::{Braced, Docstring, Identifier};
use weedle_parts::inheritance::Inheritance;
use weedle_types::attribute::ExtendedAttributeList;

/// A law, which does nothing: `cmp` of `CallbackInterfaceDefinition` goes by its fields, in order.
pub fn callback_interface_definition<'a>()
    ensures { (a b : CallbackInterfaceDefinition)
        → ⟦<CallbackInterfaceDefinition<'a> as Ord>⟧.cmp a b
        ≡ ordering_then (⟦<Option<Docstring> as Ord>⟧.cmp a.docstring b.docstring)
        (ordering_then (⟦<Option<ExtendedAttributeList<'a>> as Ord>⟧.cmp a.attributes b.attributes)
        (ordering_then (⟦<Callback as Ord>⟧.cmp a.callback b.callback)
        (ordering_then (⟦<Interface as Ord>⟧.cmp a.interface b.interface)
        (ordering_then (⟦<Identifier<'a> as Ord>⟧.cmp a.identifier b.identifier)
        (ordering_then (⟦<Option<Inheritance<'a>> as Ord>⟧.cmp a.inheritance b.inheritance)
        (ordering_then (⟦<Braced<InterfaceMembers<'a>> as Ord>⟧.cmp a.members b.members)
        (⟦<SemiColon as Ord>⟧.cmp a.semi_colon b.semi_colon))))))) }
{}

/// A law, which does nothing: `cmp` of `InterfaceDefinition` goes by its fields, in order.
pub fn interface_definition<'a>()
    ensures { (a b : InterfaceDefinition)
        → ⟦<InterfaceDefinition<'a> as Ord>⟧.cmp a b
        ≡ ordering_then (⟦<Option<Docstring> as Ord>⟧.cmp a.docstring b.docstring)
        (ordering_then (⟦<Option<ExtendedAttributeList<'a>> as Ord>⟧.cmp a.attributes b.attributes)
        (ordering_then (⟦<Interface as Ord>⟧.cmp a.interface b.interface)
        (ordering_then (⟦<Identifier<'a> as Ord>⟧.cmp a.identifier b.identifier)
        (ordering_then (⟦<Option<Inheritance<'a>> as Ord>⟧.cmp a.inheritance b.inheritance)
        (ordering_then (⟦<Braced<InterfaceMembers<'a>> as Ord>⟧.cmp a.members b.members)
        (⟦<SemiColon as Ord>⟧.cmp a.semi_colon b.semi_colon)))))) }
{}

/// A law, which does nothing: `cmp` of `PartialInterfaceDefinition` goes by its fields, in order.
pub fn partial_interface_definition<'a>()
    ensures { (a b : PartialInterfaceDefinition)
        → ⟦<PartialInterfaceDefinition<'a> as Ord>⟧.cmp a b
        ≡ ordering_then (⟦<Option<ExtendedAttributeList<'a>> as Ord>⟧.cmp a.attributes b.attributes)
        (ordering_then (⟦<Partial as Ord>⟧.cmp a.partial b.partial)
        (ordering_then (⟦<Interface as Ord>⟧.cmp a.interface b.interface)
        (ordering_then (⟦<Identifier<'a> as Ord>⟧.cmp a.identifier b.identifier)
        (ordering_then (⟦<Braced<InterfaceMembers<'a>> as Ord>⟧.cmp a.members b.members)
        (⟦<SemiColon as Ord>⟧.cmp a.semi_colon b.semi_colon))))) }
{}

/// A law, which does nothing: `cmp` of `InterfaceMember` goes by its variants, and of one variant
/// by what it holds.
pub fn interface_member<'a>()
    ensures earlier { (a b : InterfaceMember)
        → interface_member_place a < interface_member_place b
        → ⟦<InterfaceMember<'a> as Ord>⟧.cmp a b ≡ Ordering.Less }
    ensures later { (a b : InterfaceMember)
        → interface_member_place b < interface_member_place a
        → ⟦<InterfaceMember<'a> as Ord>⟧.cmp a b ≡ Ordering.Greater }
    ensures const_ { (a b : ConstMember)
        → ⟦<InterfaceMember<'a> as Ord>⟧.cmp (InterfaceMember.Const a) (InterfaceMember.Const b)
        ≡ ⟦<ConstMember<'a> as Ord>⟧.cmp a b }
    ensures attribute { (a b : AttributeInterfaceMember)
        → ⟦<InterfaceMember<'a> as Ord>⟧.cmp (InterfaceMember.Attribute a)
        (InterfaceMember.Attribute b)
        ≡ ⟦<AttributeInterfaceMember<'a> as Ord>⟧.cmp a b }
    ensures constructor { (a b : ConstructorInterfaceMember)
        → ⟦<InterfaceMember<'a> as Ord>⟧.cmp (InterfaceMember.Constructor a)
        (InterfaceMember.Constructor b)
        ≡ ⟦<ConstructorInterfaceMember<'a> as Ord>⟧.cmp a b }
    ensures operation { (a b : OperationInterfaceMember)
        → ⟦<InterfaceMember<'a> as Ord>⟧.cmp (InterfaceMember.Operation a)
        (InterfaceMember.Operation b)
        ≡ ⟦<OperationInterfaceMember<'a> as Ord>⟧.cmp a b }
    ensures iterable { (a b : IterableInterfaceMember)
        → ⟦<InterfaceMember<'a> as Ord>⟧.cmp (InterfaceMember.Iterable a)
        (InterfaceMember.Iterable b)
        ≡ ⟦<IterableInterfaceMember<'a> as Ord>⟧.cmp a b }
    ensures async_iterable { (a b : AsyncIterableInterfaceMember)
        → ⟦<InterfaceMember<'a> as Ord>⟧.cmp (InterfaceMember.AsyncIterable a)
        (InterfaceMember.AsyncIterable b)
        ≡ ⟦<AsyncIterableInterfaceMember<'a> as Ord>⟧.cmp a b }
    ensures maplike { (a b : MaplikeInterfaceMember)
        → ⟦<InterfaceMember<'a> as Ord>⟧.cmp (InterfaceMember.Maplike a)
        (InterfaceMember.Maplike b)
        ≡ ⟦<MaplikeInterfaceMember<'a> as Ord>⟧.cmp a b }
    ensures setlike { (a b : SetlikeInterfaceMember)
        → ⟦<InterfaceMember<'a> as Ord>⟧.cmp (InterfaceMember.Setlike a)
        (InterfaceMember.Setlike b)
        ≡ ⟦<SetlikeInterfaceMember<'a> as Ord>⟧.cmp a b }
    ensures stringifier { (a b : StringifierMember)
        → ⟦<InterfaceMember<'a> as Ord>⟧.cmp (InterfaceMember.Stringifier a)
        (InterfaceMember.Stringifier b)
        ≡ ⟦<StringifierMember<'a> as Ord>⟧.cmp a b }
{}
