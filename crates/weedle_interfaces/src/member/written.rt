//! What follows from the declarations of the module above.
//!
//! Written by tools/impls.py, and not edited by hand.

ghost use Rattle.std.specs.Prelude.{◌↔◌, ◌≡◌};
ghost use Rattle.weedle_base.specs.AlikeLaws.{equal_equivalence, seen_equivalence};
ghost use Rattle.weedle_interfaces.specs.written.Trees.{interface_member_tree};

use super::InterfaceMember;
use std::alloc::{AllocError, Global};
use weedle_base::TryClone;
use weedle_iterables::{
    AsyncIterableInterfaceMember, IterableInterfaceMember, MaplikeInterfaceMember,
    SetlikeInterfaceMember,
};
use weedle_members::{
    AttributeInterfaceMember, ConstMember, ConstructorInterfaceMember, OperationInterfaceMember,
    StringifierMember,
};

impl TryClone for InterfaceMember<'_> {
    ghost alike = { λ a b. interface_member_tree a ≡ interface_member_tree b };

    fn try_clone(&self, alloc: Global) -> Result<Self, AllocError> {
        match self {
            InterfaceMember::Const(member) => Ok(InterfaceMember::Const(member.try_clone(alloc)?)),
            InterfaceMember::Attribute(member) => Ok(InterfaceMember::Attribute(member.try_clone(
                alloc,
            )?)),
            InterfaceMember::Constructor(member) => Ok(InterfaceMember::Constructor(
                member.try_clone(alloc)?,
            )),
            InterfaceMember::Operation(member) => Ok(InterfaceMember::Operation(member.try_clone(
                alloc,
            )?)),
            InterfaceMember::Iterable(member) => Ok(InterfaceMember::Iterable(member.try_clone(
                alloc,
            )?)),
            InterfaceMember::AsyncIterable(member) => Ok(InterfaceMember::AsyncIterable(
                member.try_clone(alloc)?,
            )),
            InterfaceMember::Maplike(member) => Ok(InterfaceMember::Maplike(member.try_clone(
                alloc,
            )?)),
            InterfaceMember::Setlike(member) => Ok(InterfaceMember::Setlike(member.try_clone(
                alloc,
            )?)),
            InterfaceMember::Stringifier(member) => Ok(InterfaceMember::Stringifier(
                member.try_clone(alloc)?,
            )),
        }
    }

    ghost equivalence = { seen_equivalence interface_member_tree equal_equivalence };
}

impl<'a> From<ConstMember<'a>> for InterfaceMember<'a> {
    ghost use Rattle.weedle_interfaces.specs.declared.member.InterfaceMember.TheVariants.{Const};

    ghost from_gives = { λ value made. made ≡ Const value };

    fn from(value: ConstMember<'a>) -> Self {
        InterfaceMember::Const(value)
    }
}

impl<'a> From<AttributeInterfaceMember<'a>> for InterfaceMember<'a> {
    ghost use Rattle.weedle_interfaces.specs.declared.member.InterfaceMember.TheVariants.{
      Attribute,
    };

    ghost from_gives = { λ value made. made ≡ Attribute value };

    fn from(value: AttributeInterfaceMember<'a>) -> Self {
        InterfaceMember::Attribute(value)
    }
}

impl<'a> From<ConstructorInterfaceMember<'a>> for InterfaceMember<'a> {
    ghost use Rattle.weedle_interfaces.specs.declared.member.InterfaceMember.TheVariants.{
      Constructor,
    };

    ghost from_gives = { λ value made. made ≡ Constructor value };

    fn from(value: ConstructorInterfaceMember<'a>) -> Self {
        InterfaceMember::Constructor(value)
    }
}

impl<'a> From<OperationInterfaceMember<'a>> for InterfaceMember<'a> {
    ghost use Rattle.weedle_interfaces.specs.declared.member.InterfaceMember.TheVariants.{
      Operation,
    };

    ghost from_gives = { λ value made. made ≡ Operation value };

    fn from(value: OperationInterfaceMember<'a>) -> Self {
        InterfaceMember::Operation(value)
    }
}

impl<'a> From<IterableInterfaceMember<'a>> for InterfaceMember<'a> {
    ghost use Rattle.weedle_interfaces.specs.declared.member.InterfaceMember.TheVariants.{Iterable};

    ghost from_gives = { λ value made. made ≡ Iterable value };

    fn from(value: IterableInterfaceMember<'a>) -> Self {
        InterfaceMember::Iterable(value)
    }
}

impl<'a> From<AsyncIterableInterfaceMember<'a>> for InterfaceMember<'a> {
    ghost use Rattle.weedle_interfaces.specs.declared.member.InterfaceMember.TheVariants.{
      AsyncIterable,
    };

    ghost from_gives = { λ value made. made ≡ AsyncIterable value };

    fn from(value: AsyncIterableInterfaceMember<'a>) -> Self {
        InterfaceMember::AsyncIterable(value)
    }
}

impl<'a> From<MaplikeInterfaceMember<'a>> for InterfaceMember<'a> {
    ghost use Rattle.weedle_interfaces.specs.declared.member.InterfaceMember.TheVariants.{Maplike};

    ghost from_gives = { λ value made. made ≡ Maplike value };

    fn from(value: MaplikeInterfaceMember<'a>) -> Self {
        InterfaceMember::Maplike(value)
    }
}

impl<'a> From<SetlikeInterfaceMember<'a>> for InterfaceMember<'a> {
    ghost use Rattle.weedle_interfaces.specs.declared.member.InterfaceMember.TheVariants.{Setlike};

    ghost from_gives = { λ value made. made ≡ Setlike value };

    fn from(value: SetlikeInterfaceMember<'a>) -> Self {
        InterfaceMember::Setlike(value)
    }
}

impl<'a> From<StringifierMember<'a>> for InterfaceMember<'a> {
    ghost use Rattle.weedle_interfaces.specs.declared.member.InterfaceMember.TheVariants.{
      Stringifier,
    };

    ghost from_gives = { λ value made. made ≡ Stringifier value };

    fn from(value: StringifierMember<'a>) -> Self {
        InterfaceMember::Stringifier(value)
    }
}

impl<'a> InterfaceMember<'a> {
    /// What it holds where it is `InterfaceMember::Const`, and else None.
    pub fn into_const(self) -> Option<ConstMember<'a>>
        ensures { (held : ConstMember)
            → result ≡ Some held ↔ self.entry ≡ InterfaceMember.Const held }
    {
        match self {
            InterfaceMember::Const(held) => Some(held),
            _ => None,
        }
    }

    /// What it holds where it is `InterfaceMember::Attribute`, and else None.
    pub fn into_attribute(self) -> Option<AttributeInterfaceMember<'a>>
        ensures { (held : AttributeInterfaceMember)
            → result ≡ Some held ↔ self.entry ≡ InterfaceMember.Attribute held }
    {
        match self {
            InterfaceMember::Attribute(held) => Some(held),
            _ => None,
        }
    }

    /// What it holds where it is `InterfaceMember::Constructor`, and else None.
    pub fn into_constructor(self) -> Option<ConstructorInterfaceMember<'a>>
        ensures { (held : ConstructorInterfaceMember)
            → result ≡ Some held ↔ self.entry ≡ InterfaceMember.Constructor held }
    {
        match self {
            InterfaceMember::Constructor(held) => Some(held),
            _ => None,
        }
    }

    /// What it holds where it is `InterfaceMember::Operation`, and else None.
    pub fn into_operation(self) -> Option<OperationInterfaceMember<'a>>
        ensures { (held : OperationInterfaceMember)
            → result ≡ Some held ↔ self.entry ≡ InterfaceMember.Operation held }
    {
        match self {
            InterfaceMember::Operation(held) => Some(held),
            _ => None,
        }
    }

    /// What it holds where it is `InterfaceMember::Iterable`, and else None.
    pub fn into_iterable(self) -> Option<IterableInterfaceMember<'a>>
        ensures { (held : IterableInterfaceMember)
            → result ≡ Some held ↔ self.entry ≡ InterfaceMember.Iterable held }
    {
        match self {
            InterfaceMember::Iterable(held) => Some(held),
            _ => None,
        }
    }

    /// What it holds where it is `InterfaceMember::AsyncIterable`, and else None.
    pub fn into_async_iterable(self) -> Option<AsyncIterableInterfaceMember<'a>>
        ensures { (held : AsyncIterableInterfaceMember)
            → result ≡ Some held ↔ self.entry ≡ InterfaceMember.AsyncIterable held }
    {
        match self {
            InterfaceMember::AsyncIterable(held) => Some(held),
            _ => None,
        }
    }

    /// What it holds where it is `InterfaceMember::Maplike`, and else None.
    pub fn into_maplike(self) -> Option<MaplikeInterfaceMember<'a>>
        ensures { (held : MaplikeInterfaceMember)
            → result ≡ Some held ↔ self.entry ≡ InterfaceMember.Maplike held }
    {
        match self {
            InterfaceMember::Maplike(held) => Some(held),
            _ => None,
        }
    }

    /// What it holds where it is `InterfaceMember::Setlike`, and else None.
    pub fn into_setlike(self) -> Option<SetlikeInterfaceMember<'a>>
        ensures { (held : SetlikeInterfaceMember)
            → result ≡ Some held ↔ self.entry ≡ InterfaceMember.Setlike held }
    {
        match self {
            InterfaceMember::Setlike(held) => Some(held),
            _ => None,
        }
    }

    /// What it holds where it is `InterfaceMember::Stringifier`, and else None.
    pub fn into_stringifier(self) -> Option<StringifierMember<'a>>
        ensures { (held : StringifierMember)
            → result ≡ Some held ↔ self.entry ≡ InterfaceMember.Stringifier held }
    {
        match self {
            InterfaceMember::Stringifier(held) => Some(held),
            _ => None,
        }
    }
}
