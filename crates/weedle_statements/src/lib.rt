//! The definitions that have no members: callbacks, enums, names for types, and the statements that
//! an interface includes a mixin or implements another.
//!
//! Each struct reads its fields in order, with whitespace and comments between them. Where one of
//! them isn't there it is a mismatch. Memory is taken for extended attributes, types, arguments,
//! docstrings and lists; where it is refused that is a failure, and no other alternative is tried.
//!
//! ```rust
//! use weedle_base::Parse;
//! use weedle_statements::EnumDefinition;
//!
//! let text = r#"enum Kind { "a", "b", }; interface A {};"#;
//! let (rest, kind) = EnumDefinition::parse(rt.alloc(), text).expect(rt, "enum");
//! assert!(rt; rest == "interface A {};" && kind.values.body.list.len() == 2);
//! ```
#![tactic(auto)]

mod callback;
mod copies;
mod enums;
mod statement;
mod typedef;

pub use callback::CallbackDefinition;
pub use enums::{EnumDefinition, EnumValueList, EnumVariant};
pub use statement::{ImplementsDefinition, IncludesStatementDefinition};
pub use typedef::TypedefDefinition;
