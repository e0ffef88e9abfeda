//! What follows from the grammar and the declarations.

pub mod arguments;
pub mod attributes;
pub mod generic_types;
pub mod kinds;
pub mod plain_attributes;
pub mod plain_types;
pub mod unions;
