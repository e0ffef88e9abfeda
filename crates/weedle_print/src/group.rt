//! Types, arguments and extended attributes, which hold one another.

pub(crate) mod arguments;
pub(crate) mod attributes;
pub(crate) mod generic_types;
pub(crate) mod types;
pub(crate) mod unions;
