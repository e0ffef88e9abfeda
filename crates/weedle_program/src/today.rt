//! Texts that today's rules read.

ghost use Rattle.std.specs.Prelude.{IsTrue};
ghost use Rattle.weedle_syntax.specs.Dialects.{IsWholeIn};
ghost use Rattle.weedle_syntax.specs.declared.dialect.Dialect.TheVariants.{Today};

use std::alloc::Global;
use std::io::{self, Write};
use weedle_syntax::{Dialect, syntax_quick_in};

/// What is said of a text that weedle2's rules refuse and today's read whole.
const READS_IT: &str = "today's WebIDL reads it: --today";

/// Whether today's rules read a text whole; also false where memory for that is refused.
///
/// It reads as [`syntax_quick_in`] does, and costs the same.
pub fn is_todays(alloc: Global, text: &str) -> bool
    ensures { IsTrue result → IsWholeIn Today text.now }
{
    match syntax_quick_in(alloc, text, Dialect::Today) {
        Ok(Some(_)) => true,
        _ => false,
    }
}

/// Writes a line behind what is said of a text that the dialect's rules refuse, where these are
/// weedle2's and today's read it whole: by which word they are asked for. It fails where a write
/// does.
pub fn write_todays<W: Write>(
    alloc: Global,
    dialect: Dialect,
    text: &str,
    out: &mut W,
) -> io::Result<()> {
    if dialect == Dialect::Weedle2 && is_todays(alloc, text) {
        writeln!(out, "{READS_IT}")?;
    }
    Ok(())
}
