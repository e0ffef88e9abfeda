//! Constants.

mod written;

use weedle_base::term::{Assign, Const, SemiColon};
use weedle_parts::common::Identifier;
use weedle_parts::literal::ConstValue;
use weedle_parts::types::ConstType;
use weedle_types::attribute::ExtendedAttributeList;

/// A constant, as `const long X = 5;`. No docstring may precede it.
#[derive(Debug, PartialEq, Eq, PartialOrd, Ord, Hash)]
pub struct ConstMember<'a> {
    /// The extended attributes in brackets, as `[Exposed=Window]`, where present.
    pub attributes: Option<ExtendedAttributeList<'a>>,
    /// The word `const`.
    pub const_: Const,
    /// Its type, as `long`.
    pub const_type: ConstType<'a>,
    /// Its name.
    pub identifier: Identifier<'a>,
    /// The `=`.
    pub assign: Assign,
    /// Its value, as `5`.
    pub const_value: ConstValue<'a>,
    /// The `;` at the end.
    pub semi_colon: SemiColon,
}

impl Drop for ConstMember<'_> {
    fn drop(self) {
        let ConstMember {
            attributes: _,
            const_: _,
            const_type: _,
            identifier: _,
            assign: _,
            const_value: _,
            semi_colon: _,
        } = self;
    }
}
