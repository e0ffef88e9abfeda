//! Maps and sets.

mod written;

use weedle_base::term::{Comma, Maplike, ReadOnly, SemiColon, Setlike};
use weedle_parts::common::Generics;
use weedle_types::attribute::ExtendedAttributeList;
use weedle_types::types::AttributedType;

/// A map, as `readonly maplike<DOMString, long>;`.
#[derive(Debug, PartialEq, Eq, PartialOrd, Ord, Hash)]
pub struct MaplikeInterfaceMember<'a> {
    /// The extended attributes in brackets, as `[Exposed=Window]`, where present.
    pub attributes: Option<ExtendedAttributeList<'a>>,
    /// The word `readonly`, where present.
    pub readonly: Option<ReadOnly>,
    /// The word `maplike`.
    pub maplike: Maplike,
    /// The types of its keys and values in angle brackets, as `<DOMString, long>`: `body.0` is
    /// that of the keys, `body.2` that of the values.
    pub generics: Generics<(AttributedType<'a>, Comma, AttributedType<'a>)>,
    /// The `;` at the end.
    pub semi_colon: SemiColon,
}

impl Drop for MaplikeInterfaceMember<'_> {
    fn drop(self) {
        let MaplikeInterfaceMember {
            attributes: _,
            readonly: _,
            maplike: _,
            generics: _,
            semi_colon: _,
        } = self;
    }
}

/// A set, as `readonly setlike<long>;`.
#[derive(Debug, PartialEq, Eq, PartialOrd, Ord, Hash)]
pub struct SetlikeInterfaceMember<'a> {
    /// The extended attributes in brackets, as `[Exposed=Window]`, where present.
    pub attributes: Option<ExtendedAttributeList<'a>>,
    /// The word `readonly`, where present.
    pub readonly: Option<ReadOnly>,
    /// The word `setlike`.
    pub setlike: Setlike,
    /// The type of its values in angle brackets, as `<long>`.
    pub generics: Generics<AttributedType<'a>>,
    /// The `;` at the end.
    pub semi_colon: SemiColon,
}

impl Drop for SetlikeInterfaceMember<'_> {
    fn drop(self) {
        let SetlikeInterfaceMember {
            attributes: _,
            readonly: _,
            setlike: _,
            generics: _,
            semi_colon: _,
        } = self;
    }
}
