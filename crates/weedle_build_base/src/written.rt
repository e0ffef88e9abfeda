//! What follows from the grammar and the declarations.

pub mod literals;
pub mod modifiers;
pub mod simple_types;
pub mod terminals;
