//! Checks Web IDL: says of each file whether it is read whole, and if not, where and why.
//!
//! ```text
//! weedle_check [--tree | --syntax | --print | --time] [--errors N] [--today] [FILE..]
//! ```
//!
//! It reads the files that are named, or else the standard input, which `-` names too. It prints
//! each error of a file that isn't read whole: its line and column, what would have been read
//! there, the line of the text and a mark below the place. Then it prints how many files were read,
//! and how many of them were refused:
//!
//! ```text
//! a.webidl:3:1: expected `;`
//! };
//! ^
//! 1 file, 1 refused
//! ```
//!
//! It prints at most 20 errors of a file, or as many as `--errors` says, and how many more there
//! are. Where files have several errors, the last line counts them too.
//!
//! With `--tree` it prints the definitions of what it reads, each on a line behind its line and
//! column; with `--syntax` its syntax tree, a node on a line; with `--print` the definitions
//! written anew as Web IDL, and no count of files behind them; with `--time` how long each reader
//! takes, and what the packrat table needs.
//!
//! It reads by weedle2's rules, and with `--today` by today's, which give no values. Of a file that
//! weedle2's refuse and today's read whole it says so in a last line:
//! `today's WebIDL reads it: --today`.
//!
//! The status is 0 where all is read, 1 where something is refused, 2 where a file can't be read or
//! isn't UTF-8, 3 where memory ran out, 4 where the output can't be written, and 5 where the
//! arguments ask for nothing that it does: the greatest of those that fit.
//!
//! It is proved that each function is safe and returns, and no more: what is written is only
//! tested.
#![tactic(auto)]

mod arguments;
mod check;
mod counts;
mod depth;
mod errors;
mod print;
mod program;
mod slip;
mod syntax;
mod table;
mod timing;
mod tree;

use std::process::ExitCode;

fn main(rt: HostRuntime) -> ExitCode {
    ExitCode::from(program::run(&rt).status())
}
