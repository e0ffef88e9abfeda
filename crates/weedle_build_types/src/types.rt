//! How the types that lead back to themselves are built: one function for each rule of the grammar.
//! They call one another, with no limit on how deep.
//!
//! Each call builds from a later place, or from the same place by a rule of a smaller number, so
//! every call ends.

mod steps;
mod written;

pub(crate) use written::{arguments, attributes, generic_types, kinds, unions};
