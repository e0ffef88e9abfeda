//! Callbacks.

mod written;

use weedle_base::term::{Assign, Callback, SemiColon};
use weedle_parts::common::Identifier;
use weedle_types::argument::ParenthesizedArgumentList;
use weedle_types::attribute::ExtendedAttributeList;
use weedle_types::types::ReturnType;

/// A callback, as `callback F = undefined (long x);`. No docstring may precede it.
#[derive(Debug, PartialEq, Eq, PartialOrd, Ord, Hash)]
pub struct CallbackDefinition<'a> {
    /// The extended attributes in brackets, as `[Exposed=Window]`, where present.
    pub attributes: Option<ExtendedAttributeList<'a>>,
    /// The word `callback`.
    pub callback: Callback,
    /// Its name.
    pub identifier: Identifier<'a>,
    /// The `=`.
    pub assign: Assign,
    /// The type of its result, as `undefined` or `long`.
    pub return_type: ReturnType<'a>,
    /// Its arguments, between parentheses: `body.list` is their list.
    pub arguments: ParenthesizedArgumentList<'a>,
    /// The `;` at the end.
    pub semi_colon: SemiColon,
}

impl Drop for CallbackDefinition<'_> {
    fn drop(self) {
        let CallbackDefinition {
            attributes: _,
            callback: _,
            identifier: _,
            assign: _,
            return_type: _,
            arguments: _,
            semi_colon: _,
        } = self;
    }
}
