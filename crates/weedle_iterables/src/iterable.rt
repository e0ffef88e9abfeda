//! Iterations.

mod written;

use weedle_base::term::{Comma, Iterable, SemiColon};
use weedle_parts::common::Generics;
use weedle_types::attribute::ExtendedAttributeList;
use weedle_types::types::AttributedType;

/// An iteration over values, as `iterable<long>;`.
#[derive(Debug, PartialEq, Eq, PartialOrd, Ord, Hash)]
pub struct SingleTypedIterable<'a> {
    /// The extended attributes in brackets, as `[Exposed=Window]`, where present.
    pub attributes: Option<ExtendedAttributeList<'a>>,
    /// The word `iterable`.
    pub iterable: Iterable,
    /// The type of its values in angle brackets, as `<long>`.
    pub generics: Generics<AttributedType<'a>>,
    /// The `;` at the end.
    pub semi_colon: SemiColon,
}

impl Drop for SingleTypedIterable<'_> {
    fn drop(self) {
        let SingleTypedIterable {
            attributes: _,
            iterable: _,
            generics: _,
            semi_colon: _,
        } = self;
    }
}

/// An iteration over pairs, as `iterable<DOMString, long>;`.
#[derive(Debug, PartialEq, Eq, PartialOrd, Ord, Hash)]
pub struct DoubleTypedIterable<'a> {
    /// The extended attributes in brackets, as `[Exposed=Window]`, where present.
    pub attributes: Option<ExtendedAttributeList<'a>>,
    /// The word `iterable`.
    pub iterable: Iterable,
    /// The types of its keys and values in angle brackets, as `<DOMString, long>`: `body.0` is
    /// that of the keys, `body.2` that of the values.
    pub generics: Generics<(AttributedType<'a>, Comma, AttributedType<'a>)>,
    /// The `;` at the end.
    pub semi_colon: SemiColon,
}

impl Drop for DoubleTypedIterable<'_> {
    fn drop(self) {
        let DoubleTypedIterable {
            attributes: _,
            iterable: _,
            generics: _,
            semi_colon: _,
        } = self;
    }
}

/// An iteration over values or pairs, as `iterable<long>;`: the first of the two that fits. Of
/// what its variants read, `[extended attributes]` may be absent.
#[derive(Debug, PartialEq, Eq, PartialOrd, Ord, Hash)]
pub enum IterableInterfaceMember<'a> {
    /// `[extended attributes] iterable<type>;`.
    Single(SingleTypedIterable<'a>),
    /// `[extended attributes] iterable<type, type>;`.
    Double(DoubleTypedIterable<'a>),
}

impl Drop for IterableInterfaceMember<'_> {
    fn drop(self) {
        match self {
            IterableInterfaceMember::Single(_) | IterableInterfaceMember::Double(_) => {}
        }
    }
}
