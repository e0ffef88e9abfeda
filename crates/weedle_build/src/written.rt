//! What follows from the grammar and the declarations.

pub mod definition;
pub mod dictionaries;
pub mod interfaces;
pub mod iterables;
pub mod members;
pub mod mixins;
pub mod namespaces;
pub mod statements;
