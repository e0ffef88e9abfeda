//! Says what a packrat table tells of the text on standard input.
//!
//! ```text
//! weedle_table [--today] places | names | diagnosis
//! ```
//!
//! With `places` it prints where each definition is, in bytes from the front of the text: the whole
//! of it, its core, the whitespace and comments in front of that, and its name, or `-` where it has
//! none. Below it are its members, or the values of an enum, each behind two spaces; and last how
//! many definitions there are. For `enum E { "a" };` that is
//!
//! ```text
//! definition 0..15 0..15 0..0 5..6
//!   value 9..13 9..12 8..9 -
//! 1 definition
//! ```
//!
//! With `names` it prints of each name what it stands for, where it is and its letters, and then
//! how many there are. For `A includes _B;` that is `Includer 0..1 A`, `Included 11..13 B` and
//! `2 names`. For a text that isn't read whole both print `refused`.
//!
//! With `diagnosis` it prints the furthest place to which the reading of the text comes, and the
//! rules that fail there, whitespace and comments among them:
//! `8 bytes_slash_slash one_of_blank bytes_slash_star bytes_quote bytes_three_slashes` for
//! `enum E {};`.
//!
//! It fills a packrat table of the whole text, whatever the text is. So tests see by it that each
//! call over a table answers where memory is ample, also of a long text, and how much it asks for.
//! With `--today` it reads by today's rules, which have no table: by descent, and for places and
//! names over a memo where that isn't enough.
//!
//! The status is 0 where there is an answer, 1 where a text has no places or nests too deep for its
//! diagnosis, 2 where the input can't be read or isn't UTF-8, 3 where memory ran out, 4 where the
//! output can't be written, and 5 where the arguments are others.
#![tactic(auto)]

mod program;

use std::process::ExitCode;

fn main(rt: HostRuntime) -> ExitCode {
    ExitCode::from(program::run(&rt).status())
}
