//! Tests of writing values that were built by hand: what has no text, and what is answered where
//! memory is refused. What is written of values that were read is tested over the built program.
#![tactic(auto)]

mod answers;
mod definitions;
mod leaves;
mod types;
