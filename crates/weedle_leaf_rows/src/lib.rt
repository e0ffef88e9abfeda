//! Tests of what is below the types: the grammar's rows, the packrat table, diagnoses, scanners,
//! terminals, standard types, generic parts and leaves, as worked examples whose answers come from
//! outside; messages through outputs that fail; and of syntax trees, names, places, comments, lines
//! and layouts each call once, since what they say of texts is tested over the built programs and
//! from Python.
#![tactic(auto)]

#[cfg(test)]
mod comments;
#[cfg(test)]
mod diagnoses;
#[cfg(test)]
mod dialects;
#[cfg(test)]
mod faults;
#[cfg(test)]
mod generic_parts;
#[cfg(test)]
mod leaves;
#[cfg(test)]
mod messages;
#[cfg(test)]
mod nesting;
#[cfg(test)]
mod plain_types;
#[cfg(test)]
mod references;
#[cfg(test)]
mod requests;
#[cfg(test)]
mod scanners;
#[cfg(test)]
mod standard;
#[cfg(test)]
mod table;
#[cfg(test)]
mod trees;
#[cfg(test)]
mod users;
#[cfg(test)]
mod written;
