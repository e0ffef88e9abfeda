//! Names for types.

mod written;

use weedle_base::term::{SemiColon, Typedef};
use weedle_parts::common::Identifier;
use weedle_types::attribute::ExtendedAttributeList;
use weedle_types::types::AttributedType;

/// A name for a type, as `typedef long A;`. No docstring may precede it.
#[derive(Debug, PartialEq, Eq, PartialOrd, Ord, Hash)]
pub struct TypedefDefinition<'a> {
    /// The extended attributes in brackets, as `[Exposed=Window]`, where present.
    pub attributes: Option<ExtendedAttributeList<'a>>,
    /// The word `typedef`.
    pub typedef: Typedef,
    /// The type that is named, as `long`, with the extended attributes before it.
    pub type_: AttributedType<'a>,
    /// The name that the type gets.
    pub identifier: Identifier<'a>,
    /// The `;` at the end.
    pub semi_colon: SemiColon,
}

impl Drop for TypedefDefinition<'_> {
    fn drop(self) {
        let TypedefDefinition {
            attributes: _,
            typedef: _,
            type_: _,
            identifier: _,
            semi_colon: _,
        } = self;
    }
}
