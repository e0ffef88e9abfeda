//! Dictionaries, and parts of them.

mod written;

use crate::dictionary::DictionaryMembers;
use weedle_base::term::{Dictionary, Partial, SemiColon};
use weedle_parts::common::{Braced, Docstring, Identifier};
use weedle_parts::inheritance::Inheritance;
use weedle_types::attribute::ExtendedAttributeList;

/// A dictionary, as `dictionary A : B { long x = 5; };`. A docstring may precede it.
#[derive(Debug, PartialEq, Eq, PartialOrd, Ord, Hash)]
pub struct DictionaryDefinition<'a> {
    /// The docstring in front, where present.
    pub docstring: Option<Docstring>,
    /// The extended attributes in brackets, as `[Exposed=Window]`, where present.
    pub attributes: Option<ExtendedAttributeList<'a>>,
    /// The word `dictionary`.
    pub dictionary: Dictionary,
    /// Its name.
    pub identifier: Identifier<'a>,
    /// The dictionary that it inherits from, as `: EventInit`, where one is named.
    pub inheritance: Option<Inheritance<'a>>,
    /// Its members, between braces: `body` is their list.
    pub members: Braced<DictionaryMembers<'a>>,
    /// The `;` at the end.
    pub semi_colon: SemiColon,
}

impl Drop for DictionaryDefinition<'_> {
    fn drop(self) {
        let DictionaryDefinition {
            docstring: _,
            attributes: _,
            dictionary: _,
            identifier: _,
            inheritance: _,
            members: _,
            semi_colon: _,
        } = self;
    }
}

/// A part of a dictionary, as `partial dictionary A {};`. No docstring may precede it.
#[derive(Debug, PartialEq, Eq, PartialOrd, Ord, Hash)]
pub struct PartialDictionaryDefinition<'a> {
    /// The extended attributes in brackets, as `[Exposed=Window]`, where present.
    pub attributes: Option<ExtendedAttributeList<'a>>,
    /// The word `partial`.
    pub partial: Partial,
    /// The word `dictionary`.
    pub dictionary: Dictionary,
    /// The name of the dictionary that it is a part of.
    pub identifier: Identifier<'a>,
    /// Its members, between braces: `body` is their list.
    pub members: Braced<DictionaryMembers<'a>>,
    /// The `;` at the end.
    pub semi_colon: SemiColon,
}

impl Drop for PartialDictionaryDefinition<'_> {
    fn drop(self) {
        let PartialDictionaryDefinition {
            attributes: _,
            partial: _,
            dictionary: _,
            identifier: _,
            members: _,
            semi_colon: _,
        } = self;
    }
}
