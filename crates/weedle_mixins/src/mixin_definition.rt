//! Mixins, whole and in parts.

mod written;

use crate::mixin::MixinMembers;
use weedle_base::term::{Interface, Mixin, Partial, SemiColon};
use weedle_parts::common::{Braced, Identifier};
use weedle_types::attribute::ExtendedAttributeList;

/// A mixin, as `interface mixin A {};`. No docstring may precede it.
#[derive(Debug, PartialEq, Eq, PartialOrd, Ord, Hash)]
pub struct InterfaceMixinDefinition<'a> {
    /// The extended attributes in brackets, as `[Exposed=Window]`, where present.
    pub attributes: Option<ExtendedAttributeList<'a>>,
    /// The word `interface`.
    pub interface: Interface,
    /// The word `mixin`.
    pub mixin: Mixin,
    /// Its name.
    pub identifier: Identifier<'a>,
    /// Its members, between braces: `body` is their list.
    pub members: Braced<MixinMembers<'a>>,
    /// The `;` at the end.
    pub semi_colon: SemiColon,
}

impl Drop for InterfaceMixinDefinition<'_> {
    fn drop(self) {
        let InterfaceMixinDefinition {
            attributes: _,
            interface: _,
            mixin: _,
            identifier: _,
            members: _,
            semi_colon: _,
        } = self;
    }
}

/// A part of a mixin, as `partial interface mixin A {};`. No docstring may precede it.
#[derive(Debug, PartialEq, Eq, PartialOrd, Ord, Hash)]
pub struct PartialInterfaceMixinDefinition<'a> {
    /// The extended attributes in brackets, as `[Exposed=Window]`, where present.
    pub attributes: Option<ExtendedAttributeList<'a>>,
    /// The word `partial`.
    pub partial: Partial,
    /// The word `interface`.
    pub interface: Interface,
    /// The word `mixin`.
    pub mixin: Mixin,
    /// The name of the mixin that it is a part of.
    pub identifier: Identifier<'a>,
    /// Its members, between braces: `body` is their list.
    pub members: Braced<MixinMembers<'a>>,
    /// The `;` at the end.
    pub semi_colon: SemiColon,
}

impl Drop for PartialInterfaceMixinDefinition<'_> {
    fn drop(self) {
        let PartialInterfaceMixinDefinition {
            attributes: _,
            partial: _,
            interface: _,
            mixin: _,
            identifier: _,
            members: _,
            semi_colon: _,
        } = self;
    }
}
