//! Mixins, whole and in parts, with their members.
//!
//! Each struct reads its fields in order, with whitespace and comments between them. Where one of
//! them isn't there it is a mismatch. Memory is taken for extended attributes, types, arguments and
//! lists; where it is refused that is a failure, and no other alternative is tried.
//!
//! ```rust
//! use weedle_base::Parse;
//! use weedle_mixins::InterfaceMixinDefinition;
//!
//! let text =
//!     "interface mixin Body { readonly attribute boolean used; long size(); }; interface A {};";
//! let (rest, body) = InterfaceMixinDefinition::parse(rt.alloc(), text).expect(rt, "mixin");
//! assert!(rt; rest == "interface A {};" && body.members.body.len() == 2);
//! ```
#![tactic(auto)]

mod copies;
pub mod mixin;
mod mixin_definition;

pub use mixin_definition::{InterfaceMixinDefinition, PartialInterfaceMixinDefinition};
