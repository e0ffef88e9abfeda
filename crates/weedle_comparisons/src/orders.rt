//! Orders go by the declaration: a law for each type, in modules by the crates that declare them.
//! Each of these functions does nothing when it runs: its contract is the law.
//!
//! `cmp` of a struct is the comparison of its fields in order, the first that differs deciding. In
//! an enum the value whose variant is declared first is less, and two values of one variant compare
//! as what they hold. So `cmp` of any value can be followed down to texts and words.

mod written;

pub use written::{
    attributes, definitions, interfaces, iterables, literals, members, mixins, modifiers,
    namespaces, parts, statements, types,
};
