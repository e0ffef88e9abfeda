//! What follows from the grammar. Written by tools/starts.py, and not edited by hand.

pub(crate) mod bytes;
pub(crate) mod first_sets;
pub(crate) mod gates;
pub(crate) mod numbers;
pub(crate) mod ways;
