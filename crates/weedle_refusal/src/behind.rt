//! What is said of the text from a place of a text on.

ghost use Rattle.std.specs.Prelude.{◌≡◌, ◌≤◌, IfErr, IfOk, IfSome, IsCharBoundary, length};
ghost use Rattle.weedle_refusal.specs.Refusal.{
  ExplainsBehind,
  ExplainsBehindIn,
  IsSaidFrom,
  IsSaidFromIn,
};
ghost use Rattle.weedle_refusal.specs.declared.error.DialectError.TheVariants.{Memory};
ghost use Rattle.weedle_syntax.specs.declared.dialect.Dialect.TheVariants.{Weedle2};

use crate::error::DialectError;
use crate::furthest::{furthest_by, furthest_in};
use crate::hint::hint_among;
use crate::refusal::{Refusal, left_by, rest_of};
use std::alloc::{AllocError, Global};
use weedle_syntax::{Dialect, syntax_of_front};

/// Why the text from a place on isn't read whole, or None where it is. Places of the answer are
/// those of the whole text.
///
/// For `interface A {}; enum E { "a" "b" };` and 16 it says what [`refusal_of`](crate::refusal_of)
/// says of the text, and doesn't read again what precedes 16.
///
/// A character begins at the place, or the text ends there. It costs what `refusal_of` costs of the
/// text from there on.
pub fn refusal_behind(alloc: Global, raw: &str, from: usize) -> Result<Option<Refusal>, AllocError>
    requires { IsCharBoundary raw.now from }
    ensures explains { IfOk result (ExplainsBehind raw.now from) }

    // A refusal's place is one of the text.
    ensures within { IfOk result
        (λ answer. IfSome answer (λ refusal. refusal.place ≤ length raw.now)) }
{
    let rest = &raw[from..];
    let nodes = syntax_of_front(alloc, rest)?;
    let left = rest_of(&nodes);
    drop(nodes);
    if left == rest.len() {
        return Ok(None);
    }
    let refusal = refusal_at(alloc, raw, from + left)?;
    Ok(Some(refusal))
}

/// The same as [`refusal_behind`], by the rules of a dialect.
///
/// For `interface A {}; enum E { "a" "b" };` and 16 the place is 29 by either. By today's rules a
/// docstring would go on there too.
///
/// It costs what [`refusal_in`](crate::refusal_in) costs of the text from the place on. By today's
/// rules a text may nest too deep for descent: then the answer is [`DialectError::TooDeep`].
pub fn refusal_behind_in(
    alloc: Global,
    raw: &str,
    from: usize,
    dialect: Dialect,
) -> Result<Option<Refusal>, DialectError>
    requires { IsCharBoundary raw.now from }
    ensures explains { IfOk result (ExplainsBehindIn dialect raw.now from) }

    // A refusal's place is one of the text.
    ensures within { IfOk result
        (λ answer. IfSome answer (λ refusal. refusal.place ≤ length raw.now)) }

    // No text is too deep for weedle2's rules.
    ensures deep { dialect ≡ Weedle2 → IfErr result (λ e. e ≡ Memory) }
{
    let rest = &raw[from..];
    let left = left_by(alloc, rest, dialect)?;
    if left == rest.len() {
        return Ok(None);
    }
    let refusal = refusal_at_in(alloc, raw, from + left, dialect)?;
    Ok(Some(refusal))
}

/// What is said of the definitions that are read from a place on: how far the reading comes, what
/// would have been read there, and what would fix the first that isn't read.
///
/// For `enum E { "a" "b" };` and 0 the place is 13. A character begins at the place that is given,
/// or the text ends there. For a text that is read whole it says what could follow at its end.
///
/// It reads what is there as [`furthest_in`] does, mostly in some 30 to 100 nanoseconds for each
/// byte of the definition that isn't read. Besides, it costs what [`hint_of`](crate::hint_of)
/// costs. Where memory is refused, the answer is an error.
pub fn refusal_at(alloc: Global, raw: &str, start: usize) -> Result<Refusal, AllocError>
    requires { IsCharBoundary raw.now start }
    ensures said { IfOk result (IsSaidFrom raw.now start) }
    ensures within { IfOk result (λ refusal. refusal.place ≤ length raw.now) }
{
    let (furthest, expected) = furthest_in(alloc, &raw[start..])?;
    let place = start + furthest;
    let hint = hint_among(alloc, raw, start, place, &expected, Dialect::Weedle2)?;
    Ok(Refusal {
        start,
        place,
        expected,
        hint,
    })
}

/// The same as [`refusal_at`], by the rules of a dialect. The words for types and values are those
/// of the dialect; a keyword that a hint gives is one of weedle2's.
///
/// For `[Exposed=*] interface A { long x; };` and 0 the place is 32 by today's rules, where a `(`
/// would go on, and 9 by weedle2's.
///
/// By weedle2's rules it costs what [`refusal_at`] costs. By today's it reads by descent alone, and
/// where the text nests too deep for that the answer is [`DialectError::TooDeep`].
pub fn refusal_at_in(
    alloc: Global,
    raw: &str,
    start: usize,
    dialect: Dialect,
) -> Result<Refusal, DialectError>
    requires { IsCharBoundary raw.now start }
    ensures said { IfOk result (IsSaidFromIn dialect raw.now start) }
    ensures within { IfOk result (λ refusal. refusal.place ≤ length raw.now) }

    // No text is too deep for weedle2's rules.
    ensures deep { dialect ≡ Weedle2 → IfErr result (λ e. e ≡ Memory) }
{
    let (reached, expected) = furthest_by(alloc, &raw[start..], dialect)?;
    let place = start + reached;
    let hint = hint_among(alloc, raw, start, place, &expected, dialect)?;
    Ok(Refusal {
        start,
        place,
        expected,
        hint,
    })
}
