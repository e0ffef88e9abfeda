//! What follows from the grammar and the declarations.

pub mod all_definitions;
pub mod interfaces;
pub mod iterables;
pub mod leaves;
pub mod members;
pub mod modifiers;
pub mod namespaces;
pub mod statements;
pub mod types;
