//! Tests of types, extended attributes, arguments and members: what is read, how values compare,
//! what is written of values that were put together by hand, and what is answered where memory is
//! refused.
#![tactic(auto)]

#[cfg(test)]
mod arguments;
#[cfg(test)]
mod attributes;
#[cfg(test)]
mod comparisons;
#[cfg(test)]
mod members;
#[cfg(test)]
mod printed;
#[cfg(test)]
mod types;
#[cfg(test)]
mod walks;
#[cfg(test)]
mod word_types;
