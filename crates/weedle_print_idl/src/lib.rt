//! Values written as WebIDL: [`WriteIdl`] of every type, from a name up to a list of definitions.
//!
//! What is written is a rendering of the value, by the definitions of `weedle_spell`: so whatever
//! the layout, the text says this value. There is one layout, that of `weedle_formatter`, which
//! leaves what is written as it is.
//!
//! ```rust
//! use weedle_base::Parse;
//! use weedle_idl::Definitions;
//! use weedle_print_idl::WriteIdl;
//!
//! let text = "interface A{attribute long x;};";
//! let (_, definitions) = Definitions::parse(rt.alloc(), text).expect(rt, "definitions");
//! let mut out = String::new(rt.alloc());
//! for definition in &definitions {
//!     assert!(rt; definition.write_idl(&mut out).is_ok());
//! }
//! assert_eq!(rt; out.as_str(), "interface A {\n  attribute long x;\n};\n");
//! ```
#![tactic(auto)]

mod list;
mod part;
mod write;
mod written;

pub use list::write_list;
pub use part::IdlPart;
pub use weedle_print::{Layout, Nullable, PrintError, Reserved, Words};
pub use write::WriteIdl;
