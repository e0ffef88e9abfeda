//! Orders of mixins, with their members.
//!
//! Written by tools/orders.py, and not edited by hand.

ghost use Rattle.std.specs.Prelude.{◌≡◌, ◌<◌};
ghost use Rattle.std.specs.Ordering.{ordering_then};
ghost use Rattle.weedle_comparisons.specs.written.Places.{mixin_member_place};

use std::cmp::Ordering;
use weedle_base::term::{Attribute, Interface, Mixin, Partial, ReadOnly, SemiColon, Stringifier};
use weedle_members::{ConstMember, StringifierMember};
use weedle_mixins::mixin::{AttributeMixinMember, MixinMember, MixinMembers, OperationMixinMember};
use weedle_mixins::{InterfaceMixinDefinition, PartialInterfaceMixinDefinition};
use weedle_parts::common::{Braced, Identifier};
use weedle_types::argument::ParenthesizedArgumentList;
use weedle_types::attribute::ExtendedAttributeList;
use weedle_types::types::{AttributedType, ReturnType};

/// A law, which does nothing: `cmp` of `OperationMixinMember` goes by its fields, in order.
pub fn operation_mixin_member<'a>()
    ensures { (a b : OperationMixinMember)
        → ⟦<OperationMixinMember<'a> as Ord>⟧.cmp a b
        ≡ ordering_then (⟦<Option<ExtendedAttributeList<'a>> as Ord>⟧.cmp a.attributes b.attributes)
        (ordering_then (⟦<Option<Stringifier> as Ord>⟧.cmp a.stringifier b.stringifier)
        (ordering_then (⟦<ReturnType<'a> as Ord>⟧.cmp a.return_type b.return_type)
        (ordering_then (⟦<Option<Identifier<'a>> as Ord>⟧.cmp a.identifier b.identifier)
        (ordering_then (⟦<ParenthesizedArgumentList<'a> as Ord>⟧.cmp a.args b.args)
        (⟦<SemiColon as Ord>⟧.cmp a.semi_colon b.semi_colon))))) }
{}

/// A law, which does nothing: `cmp` of `AttributeMixinMember` goes by its fields, in order.
pub fn attribute_mixin_member<'a>()
    ensures { (a b : AttributeMixinMember)
        → ⟦<AttributeMixinMember<'a> as Ord>⟧.cmp a b
        ≡ ordering_then (⟦<Option<ExtendedAttributeList<'a>> as Ord>⟧.cmp a.attributes b.attributes)
        (ordering_then (⟦<Option<Stringifier> as Ord>⟧.cmp a.stringifier b.stringifier)
        (ordering_then (⟦<Option<ReadOnly> as Ord>⟧.cmp a.readonly b.readonly)
        (ordering_then (⟦<Attribute as Ord>⟧.cmp a.attribute b.attribute)
        (ordering_then (⟦<AttributedType<'a> as Ord>⟧.cmp a.type_ b.type_)
        (ordering_then (⟦<Identifier<'a> as Ord>⟧.cmp a.identifier b.identifier)
        (⟦<SemiColon as Ord>⟧.cmp a.semi_colon b.semi_colon)))))) }
{}

/// A law, which does nothing: `cmp` of `MixinMember` goes by its variants, and of one variant by
/// what it holds.
pub fn mixin_member<'a>()
    ensures earlier { (a b : MixinMember)
        → mixin_member_place a < mixin_member_place b
        → ⟦<MixinMember<'a> as Ord>⟧.cmp a b ≡ Ordering.Less }
    ensures later { (a b : MixinMember)
        → mixin_member_place b < mixin_member_place a
        → ⟦<MixinMember<'a> as Ord>⟧.cmp a b ≡ Ordering.Greater }
    ensures const_ { (a b : ConstMember)
        → ⟦<MixinMember<'a> as Ord>⟧.cmp (MixinMember.Const a) (MixinMember.Const b)
        ≡ ⟦<ConstMember<'a> as Ord>⟧.cmp a b }
    ensures operation { (a b : OperationMixinMember)
        → ⟦<MixinMember<'a> as Ord>⟧.cmp (MixinMember.Operation a) (MixinMember.Operation b)
        ≡ ⟦<OperationMixinMember<'a> as Ord>⟧.cmp a b }
    ensures attribute { (a b : AttributeMixinMember)
        → ⟦<MixinMember<'a> as Ord>⟧.cmp (MixinMember.Attribute a) (MixinMember.Attribute b)
        ≡ ⟦<AttributeMixinMember<'a> as Ord>⟧.cmp a b }
    ensures stringifier { (a b : StringifierMember)
        → ⟦<MixinMember<'a> as Ord>⟧.cmp (MixinMember.Stringifier a) (MixinMember.Stringifier b)
        ≡ ⟦<StringifierMember<'a> as Ord>⟧.cmp a b }
{}

/// A law, which does nothing: `cmp` of `InterfaceMixinDefinition` goes by its fields, in order.
pub fn interface_mixin_definition<'a>()
    ensures { (a b : InterfaceMixinDefinition)
        → ⟦<InterfaceMixinDefinition<'a> as Ord>⟧.cmp a b
        ≡ ordering_then (⟦<Option<ExtendedAttributeList<'a>> as Ord>⟧.cmp a.attributes b.attributes)
        (ordering_then (⟦<Interface as Ord>⟧.cmp a.interface b.interface)
        (ordering_then (⟦<Mixin as Ord>⟧.cmp a.mixin b.mixin)
        (ordering_then (⟦<Identifier<'a> as Ord>⟧.cmp a.identifier b.identifier)
        (ordering_then (⟦<Braced<MixinMembers<'a>> as Ord>⟧.cmp a.members b.members)
        (⟦<SemiColon as Ord>⟧.cmp a.semi_colon b.semi_colon))))) }
{}

/// A law, which does nothing: `cmp` of `PartialInterfaceMixinDefinition` goes by its fields, in
/// order.
pub fn partial_interface_mixin_definition<'a>()
    ensures { (a b : PartialInterfaceMixinDefinition)
        → ⟦<PartialInterfaceMixinDefinition<'a> as Ord>⟧.cmp a b
        ≡ ordering_then (⟦<Option<ExtendedAttributeList<'a>> as Ord>⟧.cmp a.attributes b.attributes)
        (ordering_then (⟦<Partial as Ord>⟧.cmp a.partial b.partial)
        (ordering_then (⟦<Interface as Ord>⟧.cmp a.interface b.interface)
        (ordering_then (⟦<Mixin as Ord>⟧.cmp a.mixin b.mixin)
        (ordering_then (⟦<Identifier<'a> as Ord>⟧.cmp a.identifier b.identifier)
        (ordering_then (⟦<Braced<MixinMembers<'a>> as Ord>⟧.cmp a.members b.members)
        (⟦<SemiColon as Ord>⟧.cmp a.semi_colon b.semi_colon)))))) }
{}
