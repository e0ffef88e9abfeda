//! The second pass over types, extended attributes and arguments, which hold one another with no
//! limit on how deep.
//!
//! [`Held`] stands for each of those that other types have as parts.
#![tactic(auto)]

mod parts;
mod types;
mod written;

pub use parts::{Arguments, Attributes};
use written::held;
pub use written::held::Held;
