//! Interfaces, and parts of them.

mod written;

use crate::InterfaceMembers;
use weedle_base::term::{Callback, Interface, Partial, SemiColon};
use weedle_parts::common::{Braced, Docstring, Identifier};
use weedle_parts::inheritance::Inheritance;
use weedle_types::attribute::ExtendedAttributeList;

/// A callback interface, as `callback interface A {};`. A docstring may precede it.
#[derive(Debug, PartialEq, Eq, PartialOrd, Ord, Hash)]
pub struct CallbackInterfaceDefinition<'a> {
    /// The docstring in front, where present.
    pub docstring: Option<Docstring>,
    /// The extended attributes in brackets, as `[Exposed=Window]`, where present.
    pub attributes: Option<ExtendedAttributeList<'a>>,
    /// The word `callback`.
    pub callback: Callback,
    /// The word `interface`.
    pub interface: Interface,
    /// Its name.
    pub identifier: Identifier<'a>,
    /// The interface that it inherits from, as `: EventTarget`, where one is named.
    pub inheritance: Option<Inheritance<'a>>,
    /// Its members, between braces: `body` is their list.
    pub members: Braced<InterfaceMembers<'a>>,
    /// The `;` at the end.
    pub semi_colon: SemiColon,
}

impl Drop for CallbackInterfaceDefinition<'_> {
    fn drop(self) {
        let CallbackInterfaceDefinition {
            docstring: _,
            attributes: _,
            callback: _,
            interface: _,
            identifier: _,
            inheritance: _,
            members: _,
            semi_colon: _,
        } = self;
    }
}

/// An interface, as `interface A : B { attribute long x; };`. A docstring may precede it.
#[derive(Debug, PartialEq, Eq, PartialOrd, Ord, Hash)]
pub struct InterfaceDefinition<'a> {
    /// The docstring in front, where present.
    pub docstring: Option<Docstring>,
    /// The extended attributes in brackets, as `[Exposed=Window]`, where present.
    pub attributes: Option<ExtendedAttributeList<'a>>,
    /// The word `interface`.
    pub interface: Interface,
    /// Its name.
    pub identifier: Identifier<'a>,
    /// The interface that it inherits from, as `: EventTarget`, where one is named.
    pub inheritance: Option<Inheritance<'a>>,
    /// Its members, between braces: `body` is their list.
    pub members: Braced<InterfaceMembers<'a>>,
    /// The `;` at the end.
    pub semi_colon: SemiColon,
}

impl Drop for InterfaceDefinition<'_> {
    fn drop(self) {
        let InterfaceDefinition {
            docstring: _,
            attributes: _,
            interface: _,
            identifier: _,
            inheritance: _,
            members: _,
            semi_colon: _,
        } = self;
    }
}

/// A part of an interface, as `partial interface A {};`. No docstring may precede it.
#[derive(Debug, PartialEq, Eq, PartialOrd, Ord, Hash)]
pub struct PartialInterfaceDefinition<'a> {
    /// The extended attributes in brackets, as `[Exposed=Window]`, where present.
    pub attributes: Option<ExtendedAttributeList<'a>>,
    /// The word `partial`.
    pub partial: Partial,
    /// The word `interface`.
    pub interface: Interface,
    /// The name of the interface that it is a part of.
    pub identifier: Identifier<'a>,
    /// Its members, between braces: `body` is their list.
    pub members: Braced<InterfaceMembers<'a>>,
    /// The `;` at the end.
    pub semi_colon: SemiColon,
}

impl Drop for PartialInterfaceDefinition<'_> {
    fn drop(self) {
        let PartialInterfaceDefinition {
            attributes: _,
            partial: _,
            interface: _,
            identifier: _,
            members: _,
            semi_colon: _,
        } = self;
    }
}
