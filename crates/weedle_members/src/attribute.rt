//! The attributes of interfaces.

mod written;

use weedle_base::term::{Attribute, ReadOnly, SemiColon};
use weedle_parts::common::Identifier;
use weedle_parts::modifier::StringifierOrInheritOrStatic;
use weedle_types::attribute::ExtendedAttributeList;
use weedle_types::types::AttributedType;

/// An attribute of an interface, as `static readonly attribute long x;`. No docstring may precede
/// it.
#[derive(Debug, PartialEq, Eq, PartialOrd, Ord, Hash)]
pub struct AttributeInterfaceMember<'a> {
    /// The extended attributes in brackets, as `[Exposed=Window]`, where present.
    pub attributes: Option<ExtendedAttributeList<'a>>,
    /// The word `stringifier`, `inherit` or `static`, where one of them is present.
    pub modifier: Option<StringifierOrInheritOrStatic>,
    /// The word `readonly`, where present.
    pub readonly: Option<ReadOnly>,
    /// The word `attribute`.
    pub attribute: Attribute,
    /// Its type, as `long`, with the extended attributes before it.
    pub type_: AttributedType<'a>,
    /// Its name.
    pub identifier: Identifier<'a>,
    /// The `;` at the end.
    pub semi_colon: SemiColon,
}

impl Drop for AttributeInterfaceMember<'_> {
    fn drop(self) {
        let AttributeInterfaceMember {
            attributes: _,
            modifier: _,
            readonly: _,
            attribute: _,
            type_: _,
            identifier: _,
            semi_colon: _,
        } = self;
    }
}
