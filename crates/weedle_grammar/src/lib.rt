//! The grammar of WebIDL definitions as data: a row for each rule, by number.
//!
//! ```rust
//! use weedle_grammar::{Row, Rule, row_of};
//!
//! match row_of(Rule::DEFINITIONS) {
//!     Row::Many(rule) => assert!(rt; rule == Rule::DEFINITION),
//!     _ => {}
//! }
//! ```
//!
//! What a rule reads from a text, and what it gives, is said once for any such table, in
//! `specs/Meaning.antt`; the table itself is `specs/written/Table`, and [`laws`] has what always
//! holds. [`leaf_ends`] has where a rule without parts ends, [`scan`] and [`trivia`] what follows one
//! at the front of a text.
#![tactic(auto)]

mod class;
pub mod laws;
pub mod leaf_ends;
mod row;
mod rule;
pub mod scan;
pub mod trivia;
mod written;

pub use class::{Class, holds};
pub use row::{Parts, Row};
pub use rule::{Rule, rule_of};
pub use written::grammar;
pub use written::grammar::row_of;

/// How many rules there are.
pub const RULES: usize = 520;

/// How many of them are weedle2's: the rules of smaller numbers, of which tables of ends are made.
pub const TABLE_RULES: usize = 386;
