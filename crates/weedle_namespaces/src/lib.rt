//! Namespaces and dictionaries, whole and in parts, with their members.
//!
//! Each struct reads its fields in order, with whitespace and comments between them. Where one of
//! them isn't there it is a mismatch. Memory is taken for extended attributes, types, arguments,
//! docstrings and lists; where it is refused that is a failure, and no other alternative is tried.
//!
//! ```rust
//! use weedle_base::Parse;
//! use weedle_namespaces::DictionaryDefinition;
//!
//! let text = "dictionary Size { required long width; long height = 1; }; interface A {};";
//! let (rest, size) = DictionaryDefinition::parse(rt.alloc(), text).expect(rt, "dictionary");
//! assert!(rt; rest == "interface A {};" && size.members.body.len() == 2);
//! ```
#![tactic(auto)]

mod copies;
pub mod dictionary;
mod dictionary_definition;
pub mod namespace;
mod namespace_definition;

pub use dictionary_definition::{DictionaryDefinition, PartialDictionaryDefinition};
pub use namespace_definition::{NamespaceDefinition, PartialNamespaceDefinition};
