//! Orders of constants, attributes, operations and stringifiers.
//!
//! Written by tools/orders.py, and not edited by hand.

ghost use Rattle.std.specs.Prelude.{◌≡◌};
ghost use Rattle.std.specs.Ordering.{ordering_then};

use weedle_base::term::{Assign, Attribute, Const, Constructor, ReadOnly, SemiColon, Stringifier};
use weedle_members::{
    AttributeInterfaceMember, ConstMember, ConstructorInterfaceMember, OperationInterfaceMember,
    StringifierMember,
};
use weedle_parts::common::{Docstring, Identifier};
use weedle_parts::literal::ConstValue;
use weedle_parts::modifier::{Special, StringifierOrInheritOrStatic, StringifierOrStatic};
use weedle_parts::types::ConstType;
use weedle_types::argument::ParenthesizedArgumentList;
use weedle_types::attribute::ExtendedAttributeList;
use weedle_types::types::{AttributedType, ReturnType};

/// A law, which does nothing: `cmp` of `AttributeInterfaceMember` goes by its fields, in order.
pub fn attribute_interface_member<'a>()
    ensures { (a b : AttributeInterfaceMember)
        → ⟦<AttributeInterfaceMember<'a> as Ord>⟧.cmp a b
        ≡ ordering_then (⟦<Option<ExtendedAttributeList<'a>> as Ord>⟧.cmp a.attributes b.attributes)
        (ordering_then (⟦<Option<StringifierOrInheritOrStatic> as Ord>⟧.cmp a.modifier b.modifier)
        (ordering_then (⟦<Option<ReadOnly> as Ord>⟧.cmp a.readonly b.readonly)
        (ordering_then (⟦<Attribute as Ord>⟧.cmp a.attribute b.attribute)
        (ordering_then (⟦<AttributedType<'a> as Ord>⟧.cmp a.type_ b.type_)
        (ordering_then (⟦<Identifier<'a> as Ord>⟧.cmp a.identifier b.identifier)
        (⟦<SemiColon as Ord>⟧.cmp a.semi_colon b.semi_colon)))))) }
{}

/// A law, which does nothing: `cmp` of `ConstMember` goes by its fields, in order.
pub fn const_member<'a>()
    ensures { (a b : ConstMember)
        → ⟦<ConstMember<'a> as Ord>⟧.cmp a b
        ≡ ordering_then (⟦<Option<ExtendedAttributeList<'a>> as Ord>⟧.cmp a.attributes b.attributes)
        (ordering_then (⟦<Const as Ord>⟧.cmp a.const_ b.const_)
        (ordering_then (⟦<ConstType<'a> as Ord>⟧.cmp a.const_type b.const_type)
        (ordering_then (⟦<Identifier<'a> as Ord>⟧.cmp a.identifier b.identifier)
        (ordering_then (⟦<Assign as Ord>⟧.cmp a.assign b.assign)
        (ordering_then (⟦<ConstValue<'a> as Ord>⟧.cmp a.const_value b.const_value)
        (⟦<SemiColon as Ord>⟧.cmp a.semi_colon b.semi_colon)))))) }
{}

/// A law, which does nothing: `cmp` of `ConstructorInterfaceMember` goes by its fields, in order.
pub fn constructor_interface_member<'a>()
    ensures { (a b : ConstructorInterfaceMember)
        → ⟦<ConstructorInterfaceMember<'a> as Ord>⟧.cmp a b
        ≡ ordering_then (⟦<Option<Docstring> as Ord>⟧.cmp a.docstring b.docstring)
        (ordering_then (⟦<Option<ExtendedAttributeList<'a>> as Ord>⟧.cmp a.attributes b.attributes)
        (ordering_then (⟦<Constructor as Ord>⟧.cmp a.constructor b.constructor)
        (ordering_then (⟦<ParenthesizedArgumentList<'a> as Ord>⟧.cmp a.args b.args)
        (⟦<SemiColon as Ord>⟧.cmp a.semi_colon b.semi_colon)))) }
{}

/// A law, which does nothing: `cmp` of `OperationInterfaceMember` goes by its fields, in order.
pub fn operation_interface_member<'a>()
    ensures { (a b : OperationInterfaceMember)
        → ⟦<OperationInterfaceMember<'a> as Ord>⟧.cmp a b
        ≡ ordering_then (⟦<Option<Docstring> as Ord>⟧.cmp a.docstring b.docstring)
        (ordering_then (⟦<Option<ExtendedAttributeList<'a>> as Ord>⟧.cmp a.attributes b.attributes)
        (ordering_then (⟦<Option<StringifierOrStatic> as Ord>⟧.cmp a.modifier b.modifier)
        (ordering_then (⟦<Option<Special> as Ord>⟧.cmp a.special b.special)
        (ordering_then (⟦<ReturnType<'a> as Ord>⟧.cmp a.return_type b.return_type)
        (ordering_then (⟦<Option<Identifier<'a>> as Ord>⟧.cmp a.identifier b.identifier)
        (ordering_then (⟦<ParenthesizedArgumentList<'a> as Ord>⟧.cmp a.args b.args)
        (⟦<SemiColon as Ord>⟧.cmp a.semi_colon b.semi_colon))))))) }
{}

/// A law, which does nothing: `cmp` of `StringifierMember` goes by its fields, in order.
pub fn stringifier_member<'a>()
    ensures { (a b : StringifierMember)
        → ⟦<StringifierMember<'a> as Ord>⟧.cmp a b
        ≡ ordering_then (⟦<Option<ExtendedAttributeList<'a>> as Ord>⟧.cmp a.attributes b.attributes)
        (ordering_then (⟦<Stringifier as Ord>⟧.cmp a.stringifier b.stringifier)
        (⟦<SemiColon as Ord>⟧.cmp a.semi_colon b.semi_colon)) }
{}
