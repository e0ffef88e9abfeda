//! How the types that lead back to themselves are cloned: one function for each type, each with the
//! tree of the original. They call one another, with no limit on how deep.

mod written;

pub(crate) use written::{arguments, attributes, generic_types, types, unions};
