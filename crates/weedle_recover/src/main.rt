//! Prints the parts of the text on standard input: what is read of it, and what isn't.
//!
//! ```text
//! weedle_recover [--today]
//! ```
//!
//! Each line says whether a part is read, its rule, where it begins and ends, and where the
//! definition begins that it belongs to, in bytes from the front of the text; the last one how many
//! nodes were written. For `typedef long;` that is
//!
//! ```text
//! read opt_extended_attribute_list 0 0 0
//! read typedef 0 8 0
//! read attributed_type 8 12 0
//! unread identifier 12 13 0
//! 25 nodes
//! ```
//!
//! It reads by weedle2's rules, and with `--today` by today's. Where weedle2's don't read all
//! parts, and today's read the whole text, a line more says so: `today's WebIDL reads it: --today`.
//!
//! The status is 0 where there is an answer, 1 where the text nests too deep for today's rules, 2
//! where the input can't be read or isn't UTF-8, 3 where memory ran out, 4 where the output can't
//! be written, and 5 where the arguments are others.
#![tactic(auto)]

mod program;

use std::process::ExitCode;

fn main(rt: HostRuntime) -> ExitCode {
    ExitCode::from(program::run(&rt).status())
}
