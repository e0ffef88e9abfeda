//! The second pass over a text: its values, built along its packrat table or along a memo.
//!
//! ```rust
//! use weedle_build_base::{At, Build, Table};
//! use weedle_parts::common::Identifier;
//! use weedle_rules::{Ends, Rule};
//!
//! let ends = Ends::new(rt.alloc(), "enum E {};")?;
//! let name = At { place: 5, visits: 0 };
//! let table = Table::of_ends(&ends);
//! let (name, end) = Identifier::build(rt.alloc(), table, Rule::IDENTIFIER, name)?;
//! assert!(rt; name == Identifier("E") && end.place == 7 && end.visits == 1);
//! ```
//!
//! [`Build`] says how the values of a type are built. It is here for the types that hold no other
//! type and for all that is made of them; the crates above have it for their own types.
#![tactic(auto)]

mod alternatives;
mod at;
mod brackets;
mod build;
mod docstring;
mod fields;
mod generic;
mod leaves;
mod lists;
mod structs;
mod table;
mod texts;
mod whole;
mod written;

pub use alternatives::{alternative, alternative_rule, choice};
pub use at::At;
pub use build::{Build, BuildResult, end_at, mark, visit};
pub use fields::{Fields, Last, part, sequence};
pub use lists::items;
pub use structs::{
    eight_fields, five_fields, four_fields, seven_fields, six_fields, three_fields, two_fields,
};
pub use table::Table;
pub use texts::kept;
pub use whole::build_front;
