//! Parts that are anywhere in the grammar: brackets, lists with separators, names and docstrings.
//! What each type reads is in words in docs/GRAMMAR.md.

mod brackets;
mod docstring;
mod identifier;
mod punctuated;

pub use brackets::{Braced, Bracketed, Generics, Parenthesized};
pub use docstring::Docstring;
pub use identifier::Identifier;
pub use punctuated::{Punctuated, PunctuatedNonEmpty};
