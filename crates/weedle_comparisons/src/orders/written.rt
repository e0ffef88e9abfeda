//! What follows from the grammar and the declarations.

pub mod attributes;
pub mod definitions;
pub mod interfaces;
pub mod iterables;
pub mod literals;
pub mod members;
pub mod mixins;
pub mod modifiers;
pub mod namespaces;
pub mod parts;
pub mod statements;
pub mod types;
