//! What follows from the grammar and the declarations.

pub mod arguments;
pub mod attributes;
pub mod generic_types;
pub mod types;
pub mod unions;
