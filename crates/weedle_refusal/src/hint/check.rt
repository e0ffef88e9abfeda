//! Whether a change is right: each that is a hint was tried.

ghost use Rattle.std.specs.Prelude.{◌≤◌, IfOk, IsTrue, length};
ghost use Rattle.weedle_refusal.specs.Hint.{ArePair, Helps, IsHintIn, IsMistyped, IsSign};

use crate::hint::Hint;
use crate::hint::again::Trials;
use crate::hint::beyond::comes_beyond;
use crate::hint::change::Change;
use crate::hint::docstring::are_doc_lines;
use crate::hint::keywords::is_keyword;
use crate::hint::mended::is_mended;
use crate::hint::near::differ_by_one;
use crate::hint::order::exchanged;
use crate::hint::stands::{is_word, stand_at};
use crate::hint::tokens::past_token;
use crate::hint::unread::Unread;
use std::alloc::AllocError;

/// How far a change is to bring the reading.
#[derive(Clone, Copy)]
pub(crate) enum Aim {
    /// To the end of the definition.
    End,
    /// Further by more than the member that is changed.
    Beyond,
}

/// Whether the hint tells a change that brings the reading so far.
pub(crate) fn helps(
    trials: &mut Trials,
    unread: &Unread<'_>,
    hint: Hint,
    aim: Aim,
) -> Result<bool, AllocError>
    requires { unread.now.place ≤ length unread.now.raw.now }
    ensures { IfOk result (λ right. IsTrue right
        → IsHintIn unread.now.dialect unread.now.raw.now unread.now.start unread.now.place hint) }
{
    match hint {
        Hint::Keyword {
            place,
            taken,
            keyword,
        } => keyword_helps(trials, unread, place, taken, keyword, aim),
        Hint::Missing { place, sign } => missing_helps(trials, unread, place, sign, aim),
        Hint::Extra { place, sign } => extra_helps(trials, unread, place, sign, aim),
        Hint::WrongSign { place, found, sign } => {
            other_sign_helps(trials, unread, place, found, sign, aim)
        }
        Hint::WordOrder {
            place,
            taken,
            next,
            next_taken,
        } => order_helps(trials, unread, place, taken, next, next_taken, aim),
        Hint::Docstring { place, taken } => docstring_helps(trials, unread, place, taken, aim),
        Hint::OpenString { .. }
        | Hint::SplitString { .. }
        | Hint::ByteOrderMark { .. }
        | Hint::NoDefinitions => Ok(false),
    }
}

/// Whether a change brings the reading of the definition so far.
fn change_helps(
    trials: &mut Trials,
    unread: &Unread<'_>,
    from: usize,
    change: Change<'_>,
    aim: Aim,
) -> Result<bool, AllocError>
    requires order { unread.now.place ≤ from }
    requires within { from ≤ length unread.now.raw.now }
    ensures { IfOk result (λ right. IsTrue right
        → Helps unread.now.dialect unread.now.raw.now unread.now.start unread.now.place
        change.entry.at change.entry.taken change.entry.bytes.now) }
{
    match aim {
        Aim::End => is_mended(trials, unread, change),
        Aim::Beyond => comes_beyond(trials, unread, from, change),
    }
}

/// Whether a keyword in place of a word helps that differs little from it.
fn keyword_helps(
    trials: &mut Trials,
    unread: &Unread<'_>,
    at: usize,
    taken: usize,
    keyword: &'static str,
    aim: Aim,
) -> Result<bool, AllocError>
    requires { unread.now.place ≤ length unread.now.raw.now }
    ensures { IfOk result (λ right. IsTrue right
        → IsHintIn unread.now.dialect unread.now.raw.now unread.now.start unread.now.place
        (Hint.Keyword at taken keyword.entry)) }
{
    if !is_mistyped(unread.raw.as_bytes(), at, taken, keyword) {
        return Ok(false);
    }
    let change = Change {
        at,
        taken,
        bytes: keyword,
    };
    let helped = change_helps(trials, unread, unread.place, change, aim)?;
    Ok(helped)
}

/// Whether a word is there that differs little from a keyword.
fn is_mistyped(raw: &[u8], at: usize, taken: usize, keyword: &str) -> bool
    ensures { IsTrue result → IsMistyped raw.now at taken keyword.now }
{
    if at > raw.len() || taken > raw.len() - at {
        return false;
    }
    if !is_word(raw, at, taken) || !is_keyword(keyword) {
        return false;
    }
    differ_by_one(&raw[at..at + taken], keyword.as_bytes())
}

/// Whether a further sign helps.
fn missing_helps(
    trials: &mut Trials,
    unread: &Unread<'_>,
    at: usize,
    sign: &'static str,
    aim: Aim,
) -> Result<bool, AllocError>
    requires { unread.now.place ≤ length unread.now.raw.now }
    ensures { IfOk result (λ right. IsTrue right
        → IsHintIn unread.now.dialect unread.now.raw.now unread.now.start unread.now.place
        (Hint.Missing at sign.entry)) }
{
    if !is_sign(sign) {
        return Ok(false);
    }
    let change = Change {
        at,
        taken: 0,
        bytes: sign,
    };
    let helped = change_helps(trials, unread, unread.place, change, aim)?;
    Ok(helped)
}

/// Whether it helps to leave a sign out.
fn extra_helps(
    trials: &mut Trials,
    unread: &Unread<'_>,
    at: usize,
    sign: &'static str,
    aim: Aim,
) -> Result<bool, AllocError>
    requires { unread.now.place ≤ length unread.now.raw.now }
    ensures { IfOk result (λ right. IsTrue right
        → IsHintIn unread.now.dialect unread.now.raw.now unread.now.start unread.now.place
        (Hint.Extra at sign.entry)) }
{
    if !is_sign(sign) || !stand_at(sign.as_bytes(), unread.raw.as_bytes(), at) {
        return Ok(false);
    }
    let change = Change {
        at,
        taken: sign.len(),
        bytes: "",
    };
    let helped = change_helps(trials, unread, unread.place, change, aim)?;
    Ok(helped)
}

/// Whether another sign helps in place of one.
fn other_sign_helps(
    trials: &mut Trials,
    unread: &Unread<'_>,
    at: usize,
    found: &'static str,
    sign: &'static str,
    aim: Aim,
) -> Result<bool, AllocError>
    requires { unread.now.place ≤ length unread.now.raw.now }
    ensures { IfOk result (λ right. IsTrue right
        → IsHintIn unread.now.dialect unread.now.raw.now unread.now.start unread.now.place
        (Hint.WrongSign at found.entry sign.entry)) }
{
    if !are_pair(found, sign) || !stand_at(found.as_bytes(), unread.raw.as_bytes(), at) {
        return Ok(false);
    }
    let change = Change {
        at,
        taken: found.len(),
        bytes: sign,
    };
    change_helps(trials, unread, unread.place, change, aim)
}

/// Whether two words help in the other order.
fn order_helps(
    trials: &mut Trials,
    unread: &Unread<'_>,
    at: usize,
    taken: usize,
    next: usize,
    next_taken: usize,
    aim: Aim,
) -> Result<bool, AllocError>
    requires { unread.now.place ≤ length unread.now.raw.now }
    ensures { IfOk result (λ right. IsTrue right
        → IsHintIn unread.now.dialect unread.now.raw.now unread.now.start unread.now.place
        (Hint.WordOrder at taken next next_taken)) }
{
    match exchanged(trials.alloc, unread.raw, at, taken, next, next_taken)? {
        Some(words) => {
            let change = Change {
                at,
                taken: next + next_taken - at,
                bytes: &words,
            };
            change_helps(trials, unread, unread.place, change, aim)
        }
        None => Ok(false),
    }
}

/// Whether it helps to leave a docstring out. Where that doesn't bring the reading to the end of
/// the definition, it is to come past the word or sign at the place, so that no docstring is blamed
/// for an unknown word behind it.
fn docstring_helps(
    trials: &mut Trials,
    unread: &Unread<'_>,
    at: usize,
    taken: usize,
    aim: Aim,
) -> Result<bool, AllocError>
    requires { unread.now.place ≤ length unread.now.raw.now }
    ensures { IfOk result (λ right. IsTrue right
        → IsHintIn unread.now.dialect unread.now.raw.now unread.now.start unread.now.place
        (Hint.Docstring at taken)) }
{
    if !are_doc_lines(unread.raw, at, taken) {
        return Ok(false);
    }
    let change = Change {
        at,
        taken,
        bytes: "",
    };
    change_helps(
        trials,
        unread,
        past_token(unread.raw, unread.place),
        change,
        aim,
    )
}

/// Whether it is a sign that may be missing or too many.
fn is_sign(sign: &str) -> bool
    ensures { IsTrue result → IsSign sign.now }
{
    matches!(
        sign,
        ";" | "=" | "{" | "," | ")" | ">" | "]" | "(" | ":" | "}" | "};"
    )
}

/// Whether the one is `;` and the other `,`, or the other way round.
fn are_pair(found: &str, sign: &str) -> bool
    ensures { IsTrue result → ArePair found.now sign.now }
{
    match found {
        ";" => sign == ",",
        "," => sign == ";",
        _ => false,
    }
}
