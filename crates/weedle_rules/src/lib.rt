//! The packrat table: where each rule of the grammar ends at each place of one text.
//!
//! ```rust
//! use weedle_rules::{Ends, Rule};
//!
//! let ends = Ends::new(rt.alloc(), "interface A {}; // end")?;
//! assert_eq!(rt; ends.end(Rule::DEFINITIONS, 0), Some(22));
//! ```
//!
//! The grammar is in the crate `weedle_grammar`; its names have a path here too.
#![tactic(auto)]

mod cell;
mod ends;
mod fill;
mod reader;
mod work;

pub use cell::{Cell, Narrow, Wide};
pub use ends::Ends;
pub use weedle_grammar::{Class, Parts, Row, Rule, TABLE_RULES, holds, laws, row_of};

/// How often a byte or a cell is looked at, at most, where one cell is worked out.
pub const READS: usize = 29;
