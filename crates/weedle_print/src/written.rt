//! What follows from the grammar and the declarations.

pub mod reserved;
pub mod terminal_words;
pub mod terminals;
