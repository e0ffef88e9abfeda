//! The members of mixins.

mod written;

use weedle_base::term::{Attribute, ReadOnly, SemiColon, Stringifier};
use weedle_members::{ConstMember, StringifierMember};
use weedle_parts::common::Identifier;
use weedle_types::argument::ParenthesizedArgumentList;
use weedle_types::attribute::ExtendedAttributeList;
use weedle_types::types::{AttributedType, ReturnType};

/// The members of a mixin, one after another, as `long f(); long g();`; none included.
pub type MixinMembers<'a> = Vec<MixinMember<'a>>;

/// An operation of a mixin, as `stringifier long f(long x);`. It may lack a name, and no docstring
/// may precede it.
#[derive(Debug, PartialEq, Eq, PartialOrd, Ord, Hash)]
pub struct OperationMixinMember<'a> {
    /// The extended attributes in brackets, as `[Exposed=Window]`, where present.
    pub attributes: Option<ExtendedAttributeList<'a>>,
    /// The word `stringifier`, where present.
    pub stringifier: Option<Stringifier>,
    /// The type of its result, as `undefined` or `long`.
    pub return_type: ReturnType<'a>,
    /// Its name, where it has one.
    pub identifier: Option<Identifier<'a>>,
    /// Its arguments, between parentheses: `body.list` is their list.
    pub args: ParenthesizedArgumentList<'a>,
    /// The `;` at the end.
    pub semi_colon: SemiColon,
}

impl Drop for OperationMixinMember<'_> {
    fn drop(self) {
        let OperationMixinMember {
            attributes: _,
            stringifier: _,
            return_type: _,
            identifier: _,
            args: _,
            semi_colon: _,
        } = self;
    }
}

/// An attribute of a mixin, as `readonly attribute long x;`.
#[derive(Debug, PartialEq, Eq, PartialOrd, Ord, Hash)]
pub struct AttributeMixinMember<'a> {
    /// The extended attributes in brackets, as `[Exposed=Window]`, where present.
    pub attributes: Option<ExtendedAttributeList<'a>>,
    /// The word `stringifier`, where present.
    pub stringifier: Option<Stringifier>,
    /// The word `readonly`, where present.
    pub readonly: Option<ReadOnly>,
    /// The word `attribute`.
    pub attribute: Attribute,
    /// Its type, as `long`, with the extended attributes before it.
    pub type_: AttributedType<'a>,
    /// Its name.
    pub identifier: Identifier<'a>,
    /// The `;` at the end.
    pub semi_colon: SemiColon,
}

impl Drop for AttributeMixinMember<'_> {
    fn drop(self) {
        let AttributeMixinMember {
            attributes: _,
            stringifier: _,
            readonly: _,
            attribute: _,
            type_: _,
            identifier: _,
            semi_colon: _,
        } = self;
    }
}

/// A member of a mixin, as `readonly attribute long x;`: the first of the four kinds that fits. Of
/// what its variants read, `[extended attributes]` may be absent.
#[derive(Debug, PartialEq, Eq, PartialOrd, Ord, Hash)]
pub enum MixinMember<'a> {
    /// `[extended attributes] const type name = value;`.
    Const(ConstMember<'a>),
    /// `[extended attributes] stringifier type name(arguments);`, also without `stringifier` or the
    /// name.
    Operation(OperationMixinMember<'a>),
    /// `[extended attributes] stringifier readonly attribute type name;`, also without
    /// `stringifier` or `readonly`.
    Attribute(AttributeMixinMember<'a>),
    /// `[extended attributes] stringifier;`.
    Stringifier(StringifierMember<'a>),
}

impl Drop for MixinMember<'_> {
    fn drop(self) {
        match self {
            MixinMember::Const(_)
            | MixinMember::Operation(_)
            | MixinMember::Attribute(_)
            | MixinMember::Stringifier(_) => {}
        }
    }
}
