//! What the derived comparisons, hashes, copies and defaults of the parser's types tell a caller,
//! as contracts, and what brackets read round lists of them.
//!
//! Orders go by the declaration, from one field to the next and from one variant to the next. `==`,
//! `cmp` and the hash agree: two values are equal exactly where their order is `Equal`, and equal
//! values hash alike. A copy equals its original. [`laws`] says what holds at any type, [`orders`]
//! how each type, member and definition is ordered, [`terminals`] what holds of each word and
//! symbol and [`readings`] what brackets read; the other modules say what the answers are at a
//! struct, an enum and a type that owns memory of each crate, as far as the crate has one.
//!
//! ```rust
//! use std::cmp::Ordering;
//! use weedle_comparisons::leaves::compare_identifiers;
//! use weedle_parts::common::Identifier;
//!
//! let answer = compare_identifiers(Identifier("Node"), Identifier("Window"));
//! assert!(rt; answer == (false, Ordering::Less));
//! ```
//!
//! ```rust
//! use std::cmp::Ordering;
//! use weedle_base::Parse;
//! use weedle_idl::Definition;
//!
//! // Of two definitions the one of the kind that is declared first is less.
//! let (_, one) = Definition::parse(rt.alloc(), "enum E { \"a\" };").expect(rt, "an enum");
//! let (_, other) = Definition::parse(rt.alloc(), "typedef long T;").expect(rt, "a typedef");
//! weedle_comparisons::orders::definitions::definition();
//! assert!(rt; one.cmp(&other) == Ordering::Less);
//! ```
#![tactic(auto)]

pub mod laws;
pub mod leaves;
pub mod literals;
pub mod members;
pub mod modifiers;
pub mod orders;
pub mod readings;
pub mod types;
mod written;

pub use written::terminals;
