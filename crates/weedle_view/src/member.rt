//! One view of the members of all lists.

ghost use Rattle.std.specs.Prelude.{◌≡◌};
ghost use Rattle.weedle_view.specs.Members.{
  async_iterable_member_view,
  const_member_view,
  dictionary_member_view,
  interface_member_view,
  iterable_member_view,
  mixin_member_view,
  namespace_member_view,
  nothing,
  seen,
  stringifier_member_view,
};

use crate::kind::MemberKind;
use weedle_idl::dictionary::DictionaryMember;
use weedle_idl::interface::{
    AsyncIterableInterfaceMember, ConstMember, InterfaceMember, IterableInterfaceMember,
    StringifierMember,
};
use weedle_idl::mixin::MixinMember;
use weedle_idl::namespace::NamespaceMember;
use weedle_parts::common::{Docstring, Identifier};
use weedle_parts::types::ConstType;
use weedle_types::argument::ParenthesizedArgumentList;
use weedle_types::attribute::ExtendedAttributeList;
use weedle_types::types::{AttributedType, ReturnType, Type};

/// What a member has, by reference, whatever list it is in: each part where the member has it.
#[derive(Clone, Copy)]
pub struct MemberView<'v, 'a> {
    /// Which kind of member it is.
    pub kind: MemberKind,
    /// The docstring in front, where present.
    pub docstring: Option<&'v Docstring>,
    /// The extended attributes in brackets in front of the member, where present.
    pub attributes: Option<&'v ExtendedAttributeList<'a>>,
    /// Its name: an operation may lack one, and a constructor, an iteration, a map, a set and a
    /// stringifier have none.
    pub identifier: Option<&'v Identifier<'a>>,
    /// The type of a constant.
    pub const_type: Option<&'v ConstType<'a>>,
    /// The type of an operation's result.
    pub return_type: Option<&'v ReturnType<'a>>,
    /// The type of the keys of a map or of an iteration over pairs.
    pub key_type: Option<&'v AttributedType<'a>>,
    /// The extended attributes in front of `type_`, where present.
    pub type_attributes: Option<&'v ExtendedAttributeList<'a>>,
    /// The type of an attribute or of a member of a dictionary; of an iteration, a map or a set
    /// that of its values.
    pub type_: Option<&'v Type<'a>>,
    /// The arguments of an operation or a constructor, and of an asynchronous iteration that has
    /// some.
    pub arguments: Option<&'v ParenthesizedArgumentList<'a>>,
}

impl<'v, 'a> MemberView<'v, 'a> {
    /// The view of a member of an interface, a callback interface or a part of an interface. It
    /// takes no memory.
    pub fn of_interface(member: &'v InterfaceMember<'a>) -> Self
        ensures { seen result ≡ interface_member_view member.entry.now }
    {
        match member {
            InterfaceMember::Const(member) => Self::of_const(member),
            InterfaceMember::Attribute(member) => MemberView {
                attributes: member.attributes.as_ref(),
                identifier: Some(&member.identifier),
                type_attributes: member.type_.attributes.as_ref(),
                type_: Some(&member.type_.type_),
                ..Self::empty(MemberKind::Attribute)
            },
            InterfaceMember::Constructor(member) => MemberView {
                docstring: member.docstring.as_ref(),
                attributes: member.attributes.as_ref(),
                arguments: Some(&member.args),
                ..Self::empty(MemberKind::Constructor)
            },
            InterfaceMember::Operation(member) => MemberView {
                docstring: member.docstring.as_ref(),
                attributes: member.attributes.as_ref(),
                identifier: member.identifier.as_ref(),
                return_type: Some(&member.return_type),
                arguments: Some(&member.args),
                ..Self::empty(MemberKind::Operation)
            },
            InterfaceMember::Iterable(member) => Self::of_iterable(member),
            InterfaceMember::AsyncIterable(member) => Self::of_async_iterable(member),
            InterfaceMember::Maplike(member) => MemberView {
                attributes: member.attributes.as_ref(),
                key_type: Some(&member.generics.body.0),
                type_attributes: member.generics.body.2.attributes.as_ref(),
                type_: Some(&member.generics.body.2.type_),
                ..Self::empty(MemberKind::Maplike)
            },
            InterfaceMember::Setlike(member) => MemberView {
                attributes: member.attributes.as_ref(),
                type_attributes: member.generics.body.attributes.as_ref(),
                type_: Some(&member.generics.body.type_),
                ..Self::empty(MemberKind::Setlike)
            },
            InterfaceMember::Stringifier(member) => Self::of_stringifier(member),
        }
    }

    /// The view of a member of a mixin or of a part of one. It takes no memory.
    ///
    /// ```rust
    /// use weedle_base::Parse;
    /// use weedle_idl::mixin::MixinMember;
    /// use weedle_view::{MemberKind, MemberView};
    ///
    /// let text = "[NewObject] Promise<Blob> blob();";
    /// let (_, member) = MixinMember::parse(rt.alloc(), text).expect(rt, "member");
    /// let view = MemberView::of_mixin(&member);
    /// assert!(rt; view.kind == MemberKind::Operation && view.return_type.is_some());
    /// assert!(rt; view.identifier.is_some_and(|identifier| identifier.0 == "blob"));
    /// ```
    pub fn of_mixin(member: &'v MixinMember<'a>) -> Self
        ensures { seen result ≡ mixin_member_view member.entry.now }
    {
        match member {
            MixinMember::Const(member) => Self::of_const(member),
            MixinMember::Operation(member) => MemberView {
                attributes: member.attributes.as_ref(),
                identifier: member.identifier.as_ref(),
                return_type: Some(&member.return_type),
                arguments: Some(&member.args),
                ..Self::empty(MemberKind::Operation)
            },
            MixinMember::Attribute(member) => MemberView {
                attributes: member.attributes.as_ref(),
                identifier: Some(&member.identifier),
                type_attributes: member.type_.attributes.as_ref(),
                type_: Some(&member.type_.type_),
                ..Self::empty(MemberKind::Attribute)
            },
            MixinMember::Stringifier(member) => Self::of_stringifier(member),
        }
    }

    /// The view of a member of a namespace or of a part of one. It takes no memory.
    ///
    /// ```rust
    /// use weedle_base::Parse;
    /// use weedle_idl::namespace::NamespaceMember;
    /// use weedle_view::{MemberKind, MemberView};
    ///
    /// let text = "/// How loud.\nreadonly attribute double volume;";
    /// let (_, member) = NamespaceMember::parse(rt.alloc(), text).expect(rt, "member");
    /// let view = MemberView::of_namespace(&member);
    /// assert!(rt; view.kind == MemberKind::Attribute && view.return_type.is_none());
    /// assert!(rt; view.docstring.is_some_and(|docstring| docstring.0.as_str() == " How loud."));
    /// ```
    pub fn of_namespace(member: &'v NamespaceMember<'a>) -> Self
        ensures { seen result ≡ namespace_member_view member.entry.now }
    {
        match member {
            NamespaceMember::Operation(member) => MemberView {
                docstring: member.docstring.as_ref(),
                attributes: member.attributes.as_ref(),
                identifier: member.identifier.as_ref(),
                return_type: Some(&member.return_type),
                arguments: Some(&member.args),
                ..Self::empty(MemberKind::Operation)
            },
            NamespaceMember::Attribute(member) => MemberView {
                docstring: member.docstring.as_ref(),
                attributes: member.attributes.as_ref(),
                identifier: Some(&member.identifier),
                type_attributes: member.type_.attributes.as_ref(),
                type_: Some(&member.type_.type_),
                ..Self::empty(MemberKind::Attribute)
            },
        }
    }

    /// The view of a member of a dictionary or of a part of one. It takes no memory.
    ///
    /// ```rust
    /// use weedle_base::Parse;
    /// use weedle_idl::dictionary::DictionaryMember;
    /// use weedle_view::{MemberKind, MemberView};
    ///
    /// let text = "required DOMString name;";
    /// let (_, member) = DictionaryMember::parse(rt.alloc(), text).expect(rt, "member");
    /// let view = MemberView::of_dictionary(&member);
    /// assert!(rt; view.kind == MemberKind::Field && view.type_.is_some());
    /// assert!(rt; view.identifier.is_some_and(|identifier| identifier.0 == "name"));
    /// ```
    pub fn of_dictionary(member: &'v DictionaryMember<'a>) -> Self
        ensures { seen result ≡ dictionary_member_view member.entry.now }
    {
        MemberView {
            docstring: member.docstring.as_ref(),
            attributes: member.attributes.as_ref(),
            identifier: Some(&member.identifier),
            type_: Some(&member.type_),
            ..Self::empty(MemberKind::Field)
        }
    }

    /// The view of a constant.
    fn of_const(member: &'v ConstMember<'a>) -> Self
        ensures { seen result ≡ const_member_view member.entry.now }
    {
        MemberView {
            attributes: member.attributes.as_ref(),
            identifier: Some(&member.identifier),
            const_type: Some(&member.const_type),
            ..Self::empty(MemberKind::Const)
        }
    }

    /// The view of a stringifier with no body.
    fn of_stringifier(member: &'v StringifierMember<'a>) -> Self
        ensures { seen result ≡ stringifier_member_view member.entry.now }
    {
        MemberView {
            attributes: member.attributes.as_ref(),
            ..Self::empty(MemberKind::Stringifier)
        }
    }

    /// The view of an iteration over values or pairs.
    fn of_iterable(member: &'v IterableInterfaceMember<'a>) -> Self
        ensures { seen result ≡ iterable_member_view member.entry.now }
    {
        match member {
            IterableInterfaceMember::Single(member) => MemberView {
                attributes: member.attributes.as_ref(),
                type_attributes: member.generics.body.attributes.as_ref(),
                type_: Some(&member.generics.body.type_),
                ..Self::empty(MemberKind::Iterable)
            },
            IterableInterfaceMember::Double(member) => MemberView {
                attributes: member.attributes.as_ref(),
                key_type: Some(&member.generics.body.0),
                type_attributes: member.generics.body.2.attributes.as_ref(),
                type_: Some(&member.generics.body.2.type_),
                ..Self::empty(MemberKind::Iterable)
            },
        }
    }

    /// The view of an asynchronous iteration over values or pairs.
    fn of_async_iterable(member: &'v AsyncIterableInterfaceMember<'a>) -> Self
        ensures { seen result ≡ async_iterable_member_view member.entry.now }
    {
        match member {
            AsyncIterableInterfaceMember::Single(member) => MemberView {
                attributes: member.attributes.as_ref(),
                type_attributes: member.generics.body.attributes.as_ref(),
                type_: Some(&member.generics.body.type_),
                arguments: member.args.as_ref(),
                ..Self::empty(MemberKind::AsyncIterable)
            },
            AsyncIterableInterfaceMember::Double(member) => MemberView {
                attributes: member.attributes.as_ref(),
                key_type: Some(&member.generics.body.0),
                type_attributes: member.generics.body.2.attributes.as_ref(),
                type_: Some(&member.generics.body.2.type_),
                arguments: member.args.as_ref(),
                ..Self::empty(MemberKind::AsyncIterable)
            },
        }
    }

    /// The view of a member that has none of these parts.
    fn empty(kind: MemberKind) -> Self
        ensures { seen result ≡ nothing kind }
    {
        MemberView {
            kind,
            docstring: None,
            attributes: None,
            identifier: None,
            const_type: None,
            return_type: None,
            key_type: None,
            type_attributes: None,
            type_: None,
            arguments: None,
        }
    }
}
