//! What follows from the grammar and the declarations.

pub mod attributes;
pub mod plain_attributes;
pub mod types;
