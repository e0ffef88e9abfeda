//! Why a text is refused, in words: what would have been read, and at which line and column.
//!
//! ```rust
//! use weedle_front::explain;
//! use weedle_refusal::position_of;
//!
//! let text = "interface A {\n  readonly attribute long x\n};";
//! if let Some(refusal) = explain(rt.alloc(), text)? {
//!     let position = position_of(text, refusal.place);
//!     println!(rt; "a.webidl:{position}: {refusal}")?;
//! }
//! ```
//!
//! It prints ``a.webidl:3:1: expected `;` ``.

ghost use Rattle.std.specs.Prelude.{◌≡◌, ◌≤◌, IfErr, IfOk, IfSome, length};
ghost use Rattle.weedle_front.specs.Refusal.{Explains, ExplainsIn, IsUnreadRest};
ghost use Rattle.weedle_refusal.specs.declared.error.DialectError.TheVariants.{Memory};
ghost use Rattle.weedle_syntax.specs.declared.dialect.Dialect.TheVariants.{Weedle2};

use crate::parse_quick;
use std::alloc::{AllocError, Global};
use weedle_base::Err;
use weedle_refusal::{Dialect, DialectError, Refusal, furthest_in, hint_of, refusal_in};

/// Why a text is refused, or None where it is read whole.
///
/// `interface A {}; enum E { "a" "b" };` is refused from 16 on, and at 29 a `,` or a `}` is
/// expected. Where a text has several syntax errors, it is the first definition that isn't read
/// that is explained.
///
/// It reads the text by [`parse_quick`], and costs what that costs. Where that leaves input, it
/// goes on as [`furthest_in`] does: mostly in some 30 to 100 nanoseconds for each byte of the
/// definition that isn't read. Besides, it costs what [`hint_of`] costs. Where memory is refused,
/// the answer is an error.
pub fn explain(alloc: Global, raw: &str) -> Result<Option<Refusal>, AllocError>
    ensures explains { IfOk result (Explains raw.now) }

    // A refusal's place is one of the text.
    ensures within { IfOk result
        (λ answer. IfSome answer (λ refusal. refusal.place ≤ length raw.now)) }
{
    let Some(rest) = unread_rest(alloc, raw)? else {
        return Ok(None);
    };
    let start = raw.len() - rest.len();
    let (furthest, expected) = furthest_in(alloc, rest)?;
    let place = start + furthest;
    let hint = hint_of(alloc, raw, start, place)?;
    Ok(Some(Refusal {
        start,
        place,
        expected,
        hint,
    }))
}

/// Why a text is refused by the rules of a dialect, or None where they read it whole.
///
/// `[Exposed=*] interface A { long x; };` is refused by weedle2's rules at 9, where the `*` is, and
/// by today's at 32, where a `(` is expected.
///
/// By weedle2's rules it is [`explain`]. By today's it is [`refusal_in`]: it reads the definition
/// that isn't read by descent alone, and where that nests too deep, the answer is
/// [`DialectError::TooDeep`].
pub fn explain_in(
    alloc: Global,
    raw: &str,
    dialect: Dialect,
) -> Result<Option<Refusal>, DialectError>
    ensures explains { IfOk result (ExplainsIn dialect raw.now) }

    // A refusal's place is one of the text.
    ensures within { IfOk result
        (λ answer. IfSome answer (λ refusal. refusal.place ≤ length raw.now)) }

    // No text is too deep for weedle2's rules.
    ensures deep { dialect ≡ Weedle2 → IfErr result (λ e. e ≡ Memory) }
{
    match dialect {
        Dialect::Weedle2 => explain_weedle2(alloc, raw),
        Dialect::Today => refusal_in(alloc, raw, Dialect::Today),
    }
}

/// The same by weedle2's rules.
fn explain_weedle2(alloc: Global, raw: &str) -> Result<Option<Refusal>, DialectError>
    ensures explains { IfOk result (Explains raw.now) }
    ensures within { IfOk result
        (λ answer. IfSome answer (λ refusal. refusal.place ≤ length raw.now)) }
    ensures memory { IfErr result (λ e. e ≡ Memory) }
{
    let answer = explain(alloc, raw)?;
    Ok(answer)
}

/// What the grammar leaves of the text, or None where it leaves nothing.
fn unread_rest(alloc: Global, raw: &str) -> Result<Option<&str>, AllocError>
    ensures { IfOk result (IsUnreadRest raw.now) }
{
    match parse_quick(alloc, raw) {
        Ok(_) => Ok(None),
        Err(Err::Error(left)) => Ok(Some(left.input)),
        Err(Err::Failure(_)) => Err(AllocError),
    }
}
