//! Lists the definitions of the Web IDL text on standard input, each by its kind and its name, and,
//! where the one argument is `outline`, each with its docstring.
//!
//! The status is 0 where the whole text was read, 1 where some of it was not, and 2 to 5 where
//! the run ended in a fault, of which one line on standard error says what it was.
//!
//! It is proved that each function is safe and returns; what a run writes is what the contracts of
//! `weedle_front` say.
#![tactic(auto)]

mod arguments;
mod program;

use std::process::ExitCode;

fn main(rt: HostRuntime) -> ExitCode {
    ExitCode::from(program::list(&rt))
}
