//! What follows from the grammar and the declarations.

pub mod capitalized_keywords;
pub mod definition_keywords;
pub mod display;
pub mod symbols;
pub mod type_keywords;
