//! The members of namespaces.

mod written;

use weedle_base::term::{Attribute, ReadOnly, SemiColon};
use weedle_parts::common::{Docstring, Identifier};
use weedle_types::argument::ParenthesizedArgumentList;
use weedle_types::attribute::ExtendedAttributeList;
use weedle_types::types::{AttributedType, ReturnType};

/// The members of a namespace, one after another, as `long f(); long g();`; none included.
pub type NamespaceMembers<'a> = Vec<NamespaceMember<'a>>;

/// An operation of a namespace, as `long f(long x);`. It may lack a name, and a docstring may
/// precede it.
#[derive(Debug, PartialEq, Eq, PartialOrd, Ord, Hash)]
pub struct OperationNamespaceMember<'a> {
    /// The docstring in front, where present.
    pub docstring: Option<Docstring>,
    /// The extended attributes in brackets, as `[Exposed=Window]`, where present.
    pub attributes: Option<ExtendedAttributeList<'a>>,
    /// The type of its result, as `undefined` or `long`.
    pub return_type: ReturnType<'a>,
    /// Its name, where it has one.
    pub identifier: Option<Identifier<'a>>,
    /// Its arguments, between parentheses: `body.list` is their list.
    pub args: ParenthesizedArgumentList<'a>,
    /// The `;` at the end.
    pub semi_colon: SemiColon,
}

impl Drop for OperationNamespaceMember<'_> {
    fn drop(self) {
        let OperationNamespaceMember {
            docstring: _,
            attributes: _,
            return_type: _,
            identifier: _,
            args: _,
            semi_colon: _,
        } = self;
    }
}

/// An attribute of a namespace, as `readonly attribute long x;`, always `readonly`. A docstring may
/// precede it.
#[derive(Debug, PartialEq, Eq, PartialOrd, Ord, Hash)]
pub struct AttributeNamespaceMember<'a> {
    /// The docstring in front, where present.
    pub docstring: Option<Docstring>,
    /// The extended attributes in brackets, as `[Exposed=Window]`, where present.
    pub attributes: Option<ExtendedAttributeList<'a>>,
    /// The word `readonly`, which always is here.
    pub readonly: ReadOnly,
    /// The word `attribute`.
    pub attribute: Attribute,
    /// Its type, as `long`, with the extended attributes before it.
    pub type_: AttributedType<'a>,
    /// Its name.
    pub identifier: Identifier<'a>,
    /// The `;` at the end.
    pub semi_colon: SemiColon,
}

impl Drop for AttributeNamespaceMember<'_> {
    fn drop(self) {
        let AttributeNamespaceMember {
            docstring: _,
            attributes: _,
            readonly: _,
            attribute: _,
            type_: _,
            identifier: _,
            semi_colon: _,
        } = self;
    }
}

/// A member of a namespace, as `long f(long x);`: the first of the two kinds that fits. Of what
/// its variants read, `docstring` and `[extended attributes]` may be absent.
#[derive(Debug, PartialEq, Eq, PartialOrd, Ord, Hash)]
pub enum NamespaceMember<'a> {
    /// `docstring [extended attributes] type name(arguments);`, also without the name.
    Operation(OperationNamespaceMember<'a>),
    /// `docstring [extended attributes] readonly attribute type name;`.
    Attribute(AttributeNamespaceMember<'a>),
}

impl Drop for NamespaceMember<'_> {
    fn drop(self) {
        match self {
            NamespaceMember::Operation(_) | NamespaceMember::Attribute(_) => {}
        }
    }
}
