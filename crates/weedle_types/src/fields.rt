//! The fields of members and definitions, read by one call: extended attributes, or a docstring and
//! extended attributes, and then three to six others, all side by side in one tuple.
//!
//! The type arguments say how the fields behind the extended attributes are read, in order.
//! Whitespace and comments may be between two of them. Where a field isn't there it is a mismatch.
//! Memory is taken for a docstring, for extended attributes and for what the other fields hold;
//! where it is refused that is a failure. A call costs what the calls for its fields cost, and
//! looks at no byte besides.
//!
//! ```rust
//! use weedle_types::fields::attributes_and_four;
//! use weedle_parts::common::Identifier;
//! use weedle_base::term::{Includes, SemiColon};
//!
//! let text = "Request includes Body; enum E";
//! let read = attributes_and_four::<Identifier, Includes, Identifier, SemiColon>(rt.alloc(), text);
//! let (rest, (attributes, user, _, mixin, _)) = read.expect(rt, "fields");
//! assert!(rt; rest == "enum E" && attributes.is_none());
//! assert!(rt; user.0 == "Request" && mixin.0 == "Body");
//! ```

mod attributed;
mod documented;

pub use attributed::{
    attributes_and_five, attributes_and_four, attributes_and_six, attributes_and_three,
};
pub use documented::{
    docstring_attributes_and_five, docstring_attributes_and_four, docstring_attributes_and_six,
};
