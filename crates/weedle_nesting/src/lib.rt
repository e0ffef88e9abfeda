//! How deep the brackets of a text nest.
//!
//! [`nesting`] looks once at a text, past strings and comments. So a program that reads untrusted
//! texts can refuse one that nests deeper than the stack holds, before it is read.
//!
//! ```rust
//! use weedle_nesting::nesting;
//!
//! let depths = nesting("[A(optional long a)] typedef sequence<(long or short)> T; // [[[");
//! assert!(rt; depths.attributes == 1 && depths.brackets == 2);
//! ```
#![tactic(auto)]

mod look;
mod marks;
mod weights;

pub use look::{Depths, nesting};
pub use weights::suits_descent;
