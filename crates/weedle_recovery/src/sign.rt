//! Signs that are missing.

ghost use Rattle.std.specs.Prelude.{◌≡◌, IfErr, IfOk, option_map};
ghost use Rattle.weedle_recovery.specs.Refusals.{IsOfSign, missing_sign as the_missing_sign};
ghost use Rattle.weedle_refusal.specs.declared.error.DialectError.TheVariants.{Memory};

use crate::part::Part;
use std::alloc::{AllocError, Global};
use weedle_grammar::Rule;
use weedle_refusal::{DialectError, Expected, Refusal};

/// The sign that is missing at a part, or None where something else is unread.
pub(crate) fn missing_sign(part: &Part) -> Option<&'static str>
    ensures { option_map (λ sign. sign.now) result ≡ the_missing_sign part.now }
{
    if part.start != part.end {
        return None;
    }
    match part.rule {
        Rule::SEMI_COLON => Some(";"),
        Rule::OPEN_BRACE => Some("{"),
        Rule::CLOSE_BRACE => Some("}"),
        _ => None,
    }
}

/// What is said where a sign is missing at a place: that it is expected there. A hint stays, where
/// it belongs to the place.
pub(crate) fn of_sign(
    alloc: Global,
    said: Refusal,
    place: usize,
    sign: &'static str,
) -> Result<Refusal, DialectError>
    ensures is { IfOk result (IsOfSign said place sign.entry.now) }
    ensures memory { IfErr result (λ e. e ≡ Memory) }
{
    let mut expected = Vec::new(alloc);
    match expected.push(Expected::Text(sign)) {
        Ok(()) => {}
        Err(e) => return Err(AllocError::from(e).into()),
    }
    let hint = if said.place == place { said.hint } else { None };
    Ok(Refusal {
        start: place,
        place,
        expected,
        hint,
    })
}
