//! What a descent asks of the rules: what each reads, and which bytes it can begin with, so that it
//! passes over what can't be read.
//!
//! ```rust
//! use weedle_grammar::Rule;
//! use weedle_starts::source::Source;
//!
//! let text = Source::new(b"enum");
//! assert!(rt; text.refuses(Rule::INTERFACE, 0));
//! assert!(rt; !text.refuses(Rule::ENUM, 0));
//! ```
//!
//! Where a rule is refused it fails, and so does all that it tries, at the place itself. Rows and
//! first sets are in tables of the program, so nothing is worked out before a text is read.
#![tactic(auto)]

pub mod ahead;
mod parts;
pub mod row;
pub mod source;
pub mod starts;
mod way;
mod written;
