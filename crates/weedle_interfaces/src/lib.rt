//! Interfaces, whole and in parts, callback interfaces, and the choice among the members of them
//! all.
//!
//! Each struct reads its fields in order, with whitespace and comments between them. Where one of
//! them isn't there it is a mismatch. Memory is taken for extended attributes, types, arguments,
//! docstrings and lists; where it is refused that is a failure, and no other alternative is tried.
//! What each type reads is in words in docs/GRAMMAR.md.
//!
//! ```rust
//! use weedle_base::Parse;
//! use weedle_interfaces::InterfaceDefinition;
//!
//! let text =
//!     "interface Window { readonly attribute Storage sessionStorage; }; Window includes Timers;";
//! let (rest, window) = InterfaceDefinition::parse(rt.alloc(), text).expect(rt, "interface");
//! assert!(rt; rest == "Window includes Timers;" && window.members.body.len() == 1);
//! ```
#![tactic(auto)]

mod definition;
mod member;
mod members;

pub use definition::{
    CallbackInterfaceDefinition, InterfaceDefinition, PartialInterfaceDefinition,
};
pub use member::InterfaceMember;
pub use members::InterfaceMembers;
