//! Formats Web IDL: moves whitespace, and changes nothing else.
//!
//! ```text
//! weedle_format [--check | --write] [--partial] [--today] [FILE..]
//! ```
//!
//! It reads the files that are named, or else the standard input, which `-` names too, and prints
//! each formatted. With `--write` it replaces each file by what was formatted, at once: never half,
//! and never one that is formatted already. With `--check` it prints the names of the files that
//! would change. Both print how many there were:
//!
//! ```text
//! a.webidl
//! 3 files, 1 to be laid out, 0 refused
//! ```
//!
//! A file of whitespace and comments alone is formatted as it is: nothing in it could be moved.
//!
//! A file that isn't read whole is left as it is. The program says where and why, as `weedle_check`
//! does, on standard output with `--check` and `--write`, and else on standard error; and the other
//! files are done all the same. With `--partial` the definitions that are read of such a file are
//! formatted too, and all else of it stays byte for byte.
//!
//! It reads by weedle2's rules, and with `--today` by today's. Of a file that weedle2's refuse and
//! today's read whole it says so in a last line: `today's WebIDL reads it: --today`.
//!
//! The status is 0 where all is well, 1 where something is refused or would change, 2 where a file
//! can't be read or isn't UTF-8, 3 where memory ran out, 4 where a file or the output can't be
//! written, and 5 where the arguments ask for nothing that it does: the greatest of those that fit.
//!
//! It is proved that each function is safe and returns, and that what is formatted says the same as
//! the text. What is written to files is only tested, and so is what `--partial` leaves as it is.
#![tactic(auto)]

mod arguments;
mod changes;
mod partly;
mod program;
mod replace;
mod slip;
mod trivia;
mod work;

use std::process::ExitCode;

fn main(rt: HostRuntime) -> ExitCode {
    ExitCode::from(program::run(&rt).status())
}
