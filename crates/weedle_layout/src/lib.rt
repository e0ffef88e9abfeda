//! The layout of WebIDL, in which `weedle_formatter` writes texts and `weedle_print` values: how
//! long a line is, how far it is indented, which words are joined, and which definitions stand
//! right below one another.
//!
//! ```rust
//! use weedle_layout::{Statement, indentation, is_tight_behind, is_tight_in_front};
//!
//! assert!(rt; indentation(3) == 6 && indentation(20) == 32);
//! assert!(rt; is_tight_in_front(b";") && !is_tight_behind(b";"));
//! assert!(rt; Statement::Typedef.may_follow(Statement::Includes));
//! ```
#![tactic(auto)]

mod lines;
mod signs;
mod statement;
mod widths;

pub use lines::{COLUMNS, MOST_IN_FRONT, MOST_LEVELS, indentation};
pub use signs::{is_tight_behind, is_tight_in_front};
pub use statement::Statement;
pub use widths::{characters, characters_of_last_line, line_feeds};
