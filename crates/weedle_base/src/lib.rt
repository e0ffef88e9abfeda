//! The base of the parser: faults, the trait [`Parse`] with its meaning and laws, names, words and
//! the terminals.
#![tactic(auto)]

mod choice;
mod doc_lines;
mod fault;
mod fault_text;
pub mod laws;
mod names;
mod parse;
mod place;
mod standard;
pub mod term;
mod token;
mod try_clone;

pub use choice::Choice;
pub use doc_lines::{docstring, push_line};
pub use fault::{Err, Error, ErrorKind, IResult, mismatch, out_of_memory};
pub use names::{ident_tag, identifier, is_alphanum_underscore_dash};
pub use parse::Parse;
pub use place::at_byte;
pub use token::{keyword, symbol};
pub use try_clone::TryClone;
pub use weedle_grammar::trivia::sp;
