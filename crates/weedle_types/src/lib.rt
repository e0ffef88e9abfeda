//! Types, extended attributes and arguments: types are in extended attributes, extended attributes
//! in arguments, and both in types, with no limit on how deep. What each type reads is in words in
//! docs/GRAMMAR.md.
#![tactic(auto)]

pub mod argument;
pub mod attribute;
mod clones;
pub mod copies;
pub mod fields;
mod formers;
pub mod laws;
pub mod parts;
mod reading;
pub mod types;
mod written;
