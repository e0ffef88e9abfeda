//! What follows from the grammar and the declarations.

pub mod parse;
pub mod try_clone;
