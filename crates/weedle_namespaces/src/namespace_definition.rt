//! Namespaces, and parts of them.

mod written;

use crate::namespace::NamespaceMembers;
use weedle_base::term::{Namespace, Partial, SemiColon};
use weedle_parts::common::{Braced, Docstring, Identifier};
use weedle_types::attribute::ExtendedAttributeList;

/// A namespace, as `namespace A { long f(); };`. A docstring may precede it.
#[derive(Debug, PartialEq, Eq, PartialOrd, Ord, Hash)]
pub struct NamespaceDefinition<'a> {
    /// The docstring in front, where present.
    pub docstring: Option<Docstring>,
    /// The extended attributes in brackets, as `[Exposed=Window]`, where present.
    pub attributes: Option<ExtendedAttributeList<'a>>,
    /// The word `namespace`.
    pub namespace: Namespace,
    /// Its name.
    pub identifier: Identifier<'a>,
    /// Its members, between braces: `body` is their list.
    pub members: Braced<NamespaceMembers<'a>>,
    /// The `;` at the end.
    pub semi_colon: SemiColon,
}

impl Drop for NamespaceDefinition<'_> {
    fn drop(self) {
        let NamespaceDefinition {
            docstring: _,
            attributes: _,
            namespace: _,
            identifier: _,
            members: _,
            semi_colon: _,
        } = self;
    }
}

/// A part of a namespace, as `partial namespace A {};`. No docstring may precede it.
#[derive(Debug, PartialEq, Eq, PartialOrd, Ord, Hash)]
pub struct PartialNamespaceDefinition<'a> {
    /// The extended attributes in brackets, as `[Exposed=Window]`, where present.
    pub attributes: Option<ExtendedAttributeList<'a>>,
    /// The word `partial`.
    pub partial: Partial,
    /// The word `namespace`.
    pub namespace: Namespace,
    /// The name of the namespace that it is a part of.
    pub identifier: Identifier<'a>,
    /// Its members, between braces: `body` is their list.
    pub members: Braced<NamespaceMembers<'a>>,
    /// The `;` at the end.
    pub semi_colon: SemiColon,
}

impl Drop for PartialNamespaceDefinition<'_> {
    fn drop(self) {
        let PartialNamespaceDefinition {
            attributes: _,
            partial: _,
            namespace: _,
            identifier: _,
            members: _,
            semi_colon: _,
        } = self;
    }
}
