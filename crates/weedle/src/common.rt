//! Parts that are anywhere in the grammar: brackets, lists with separators, names, docstrings and
//! defaults.

pub use weedle_parts::common::{
    Braced, Bracketed, Docstring, Generics, Identifier, Parenthesized, Punctuated,
    PunctuatedNonEmpty,
};
pub use weedle_parts::literal::Default;
