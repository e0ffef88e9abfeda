//! Whole texts by recursive descent with backtracking, and with no packrat table.

ghost use Rattle.std.specs.Prelude.{IfOk, IfErr};
ghost use Rattle.weedle_base.specs.Faults.{IsWithin};
ghost use Rattle.weedle_front.specs.Whole.{ParseAnswers, SpellsList, HasTexts};

use crate::bounded::parse_bounded;
use crate::reader::whole;
use std::alloc::Global;
use weedle_base::{Err, Error, Parse, out_of_memory};
use weedle_idl::Definitions;
use weedle_nesting::suits_descent;

/// Reads a whole text as [`parse`](crate::parse) does, from the text on and with no table.
///
/// It takes no memory except for the list of definitions and for what each holds. Its steps have no
/// bound that is proved: what is in the arguments of an extended attribute is read up to three
/// times, and so `n` of them in one another up to 3ⁿ times; what is in front of a definition is
/// read by each of the fourteen kinds that is tried. [`parse_quick`] takes it where they nest
/// little.
pub fn parse_by_descent(alloc: Global, raw: &str) -> Result<Definitions<'_>, Err<Error<&str>>>
    // The list of the whole text, or what the grammar leaves of it.
    ensures answers { ParseAnswers raw.now result }

    // The text is a rendering of its list.
    ensures spells { IfOk result (λ definitions. SpellsList raw.now definitions.items) }

    // The texts of the list are in it in their order.
    ensures pieces { IfOk result (λ definitions. HasTexts raw.now definitions.items) }

    // What a fault has of the text is no longer than the text.
    ensures within { IfErr result (λ fault. IsWithin raw.now fault) }
{
    weedle_idl::laws::definitions();
    weedle_spell_idl::laws::definitions();
    match Definitions::parse(alloc, raw) {
        Ok((rest, definitions)) => whole(definitions, rest),
        // Definitions are never a mismatch, so memory was refused.
        Err(_) => Err(out_of_memory(raw)),
    }
}

/// Reads a whole text as [`parse`](crate::parse) does, by descent or over a memo.
///
/// It looks once at the text, past strings and comments. Where extended attributes nest so little
/// that a byte is read less than four times on the average for their arguments, and no more than
/// 1,000 of `(` and `<` are open at once, it takes [`parse_by_descent`], and else
/// [`parse_bounded`]. So for what people write it needs little time, and no memory except for the
/// list's; for a hostile text it needs what [`parse_bounded`] needs.
pub fn parse_quick(alloc: Global, raw: &str) -> Result<Definitions<'_>, Err<Error<&str>>>
    // The list of the whole text, or what the grammar leaves of it.
    ensures answers { ParseAnswers raw.now result }

    // The text is a rendering of its list.
    ensures spells { IfOk result (λ definitions. SpellsList raw.now definitions.items) }

    // The texts of the list are in it in their order.
    ensures pieces { IfOk result (λ definitions. HasTexts raw.now definitions.items) }

    // What a fault has of the text is no longer than the text.
    ensures within { IfErr result (λ fault. IsWithin raw.now fault) }
{
    if suits_descent(raw) {
        parse_by_descent(alloc, raw)
    } else {
        parse_bounded(alloc, raw).answer
    }
}
