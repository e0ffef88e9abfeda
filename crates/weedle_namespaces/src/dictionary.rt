//! The members of dictionaries.

mod written;

use weedle_base::term::{Required, SemiColon};
use weedle_parts::common::{Docstring, Identifier};
use weedle_parts::literal::Default;
use weedle_types::attribute::ExtendedAttributeList;
use weedle_types::types::Type;

/// The members of a dictionary, one after another, as `long x; long y = 5;`; none included.
pub type DictionaryMembers<'a> = Vec<DictionaryMember<'a>>;

/// A member of a dictionary, as `required long x;` or `long x = 5;`. A docstring may precede it.
#[derive(Debug, PartialEq, Eq, PartialOrd, Ord, Hash)]
pub struct DictionaryMember<'a> {
    /// The docstring in front, where present.
    pub docstring: Option<Docstring>,
    /// The extended attributes in brackets, as `[Exposed=Window]`, where present.
    pub attributes: Option<ExtendedAttributeList<'a>>,
    /// The word `required`, where present.
    pub required: Option<Required>,
    /// Its type, as `long`, with no extended attributes of its own.
    pub type_: Type<'a>,
    /// Its name.
    pub identifier: Identifier<'a>,
    /// Its default, as `= 5`, where present.
    pub default: Option<Default<'a>>,
    /// The `;` at the end.
    pub semi_colon: SemiColon,
}

impl Drop for DictionaryMember<'_> {
    fn drop(self) {
        let DictionaryMember {
            docstring: _,
            attributes: _,
            required: _,
            type_: _,
            identifier: _,
            default: _,
            semi_colon: _,
        } = self;
    }
}
