//! Where the reading of a text comes furthest.

ghost use Rattle.std.specs.Prelude.{◌≡◌, ◌≤◌, IfErr, IfOk, length};
ghost use Rattle.weedle_refusal.specs.Furthest.{IsFurthest, IsFurthestIn};
ghost use Rattle.weedle_refusal.specs.declared.error.DialectError.TheVariants.{Memory};
ghost use Rattle.weedle_syntax.specs.declared.dialect.Dialect.TheVariants.{Weedle2};

use crate::diagnose::{diagnose_in, diagnose_quick};
use crate::error::DialectError;
use crate::expected::Expected;
use crate::words::words_of;
use std::alloc::{AllocError, Global};
use weedle_syntax::Dialect;

/// Where the reading of a text as definitions comes furthest, in bytes from its front, and what
/// would have been read there.
///
/// In `enum E { "a" "b" };` it comes to 13, where a `,` or a `}` would go on. A text that is read
/// whole has an answer too: what could follow at its end.
///
/// It reads by descent up to the first definition that isn't read, in some 30 to 100 nanoseconds
/// for each byte, and asks for memory for the list alone. Where descent gives up, as for what nests
/// deep, it fills a packrat table of the text, and marks what is tried: together some 1,600 bytes
/// of memory for each byte. Where memory is refused, the answer is an error.
pub fn furthest_in(alloc: Global, text: &str) -> Result<(usize, Vec<Expected>), AllocError>
    ensures found { IfOk result (λ found. IsFurthest text.now found.0 found.1.items) }
    ensures short { IfOk result (λ found. found.0 ≤ length text.now) }
{
    let diagnosis = diagnose_quick(alloc, text, 0)?;
    let expected = words_of(alloc, &diagnosis.expected, Dialect::Weedle2)?;
    Ok((diagnosis.place, expected))
}

/// The same as [`furthest_in`], by the rules of a dialect.
///
/// In `[Exposed=*] interface A { long x };` today's rules come to 33, where a `(` would go on, and
/// weedle2's to the `*` at 9.
///
/// By weedle2's rules it costs what [`furthest_in`] costs. By today's it reads by descent alone,
/// and of a text that nests too deep for that the answer is [`DialectError::TooDeep`].
pub fn furthest_by(
    alloc: Global,
    text: &str,
    dialect: Dialect,
) -> Result<(usize, Vec<Expected>), DialectError>
    ensures found { IfOk result (λ found. IsFurthestIn dialect text.now found.0 found.1.items) }
    ensures short { IfOk result (λ found. found.0 ≤ length text.now) }

    // No text is too deep for weedle2's rules.
    ensures deep { dialect ≡ Weedle2 → IfErr result (λ e. e ≡ Memory) }
{
    let found = diagnose_in(alloc, text, 0, dialect)?;
    let words = words_of(alloc, &found.expected, dialect)?;
    Ok((found.place, words))
}
