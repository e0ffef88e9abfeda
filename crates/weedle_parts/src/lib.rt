//! What the types and definitions of the grammar share: brackets, lists with separators, names,
//! docstrings, literals, defaults, the types that hold no other type, what is inherited from, and
//! the words before an attribute or an operation. What each type reads is in words in
//! docs/GRAMMAR.md.
//!
//! ```rust
//! use weedle_parts::common::{Identifier, Parenthesized, Punctuated};
//! use weedle_base::Parse;
//! use weedle_base::term::Comma;
//!
//! let text = "(a, b) c";
//! let names = Parenthesized::<Punctuated<Identifier, Comma>>::parse(rt.alloc(), text);
//! let (rest, names) = names.expect(rt, "names");
//! assert!(rt; rest == "c" && names.body.list.len() == 2);
//! ```
#![tactic(auto)]

pub mod common;
pub mod inheritance;
pub mod laws;
pub mod literal;
pub mod modifier;
pub mod types;
