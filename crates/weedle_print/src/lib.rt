//! Values written as WebIDL: terminals, names, numbers, strings, docstrings, literals, the generic
//! parts over whatever can be written, types, arguments and extended attributes.
//!
//! What a call writes is a rendering of the value, by the definitions of `weedle_spell`: so what is
//! in the text is the value, whatever the layout. A value that was built by hand may have no text,
//! as `Identifier("a b")`: then a call returns [`PrintError::NoText`].
//!
//! There is one layout, and it is that of `weedle_formatter`, which leaves what is written as it
//! is.
//!
//! ```rust
//! use weedle_parts::common::Identifier;
//! use weedle_print::printed;
//!
//! let mut out = String::new(rt.alloc());
//! assert!(rt; printed::<Identifier>(&Identifier("interface"), &mut out).is_ok());
//! assert!(rt; out.as_str() == "_interface");
//! ```
//!
//! Types hold one another, and so do what writes them; however deep a value is, it is written
//! whole. [`Held`] is how a type of another crate is written:
//!
//! ```rust
//! use weedle_base::Parse;
//! use weedle_print::{Held, printed};
//! use weedle_types::types::Type;
//!
//! let (_, type_) = Type::parse(rt.alloc(), "sequence < long ?>").expect(rt, "a type");
//! let mut out = String::new(rt.alloc());
//! assert!(rt; printed::<Held<Type>>(&type_, &mut out).is_ok());
//! assert!(rt; out.as_str() == "sequence<long?>");
//! ```
#![tactic(auto)]

mod bodies;
mod defaults;
mod docstring;
mod error;
pub mod fields;
mod generic;
mod group;
mod held;
mod held_arguments;
mod held_types;
mod layout;
mod list;
mod literals;
mod modifier_words;
mod name;
mod name_bytes;
mod null;
mod number;
mod plain_attributes;
mod plain_types;
mod print;
mod reserved;
mod simple_types;
mod statement;
mod string;
mod texts;
mod type_words;
mod words;
mod written;

pub use error::PrintError;
pub use held::Held;
pub use layout::Layout;
pub use list::{close_list, separate};
pub use name::Reserved;
pub use null::Nullable;
pub use print::{Print, printed};
pub use statement::print_statement;
pub use texts::{last_word, push, word};
pub use weedle_layout::Statement;
pub use words::Words;
