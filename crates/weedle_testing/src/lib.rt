//! What the tests share: texts; inputs and outputs that give and take little, or fail; and what is
//! asked of an answer, as tables of examples, each a text and what is to be read of it.
#![tactic(auto)]

pub mod examples;
mod long;
mod printed;
mod refused;
mod requests;
mod rows;
mod streams;

pub use long::{nested_attributes, nested_text, repeated};
pub use printed::is_printed;
pub use refused::{fails_at, is_failure, is_mismatch, refuses};
pub use requests::Wanted;
pub use rows::{Row, Unlike, other_value, reads_with_no_memory};
pub use streams::{ShortReader, ShortWriter, failing_reader, short_reader, short_writer};
