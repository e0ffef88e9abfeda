//! Whole texts.

ghost use Rattle.std.specs.Prelude.{IfOk, IfErr};
ghost use Rattle.weedle_base.specs.Faults.{IsWithin};
ghost use Rattle.weedle_front.specs.Counts.{MemoryRanOut, IsBounded, IsExact, IsCutShort};
ghost use Rattle.weedle_front.specs.Whole.{ParseAnswers, SpellsList, HasTexts, WholeOf};

use std::alloc::Global;
use weedle_base::{Err, Error, ErrorKind, out_of_memory};
use weedle_build::build_definitions;
use weedle_idl::Definitions;
use weedle_rules::Ends;

/// What [`parse_counted`] or [`parse_bounded`](crate::parse_bounded) answers, and what that took.
#[derive(Drop)]
pub struct Counted<'a> {
    /// What [`parse`] answers.
    pub answer: Result<Definitions<'a>, Err<Error<&'a str>>>,
    /// How many times a rule was worked out at a place of the text.
    pub workings: u128,
    /// How many times a byte, or what is known of a rule at a place, was looked at for that.
    pub reads: u128,
    /// How many nodes of the tree were visited to build the list.
    pub visits: u128,
}

/// Reads a whole text as definitions, in their order.
///
/// `interface A {}; interface B {};` has two, and the empty text has none. Whitespace and comments
/// may be around each word of a definition, but not where there is none: a text of whitespace is
/// refused.
///
/// The text that is read is a rendering of the list: its words are in their order, with whitespace
/// and comments around them, each name with an underscore before it or none, each string in quotes.
///
/// A text that isn't read whole is refused with [`Err::Error`], which has all that follows the
/// last definition that can be read: `interface B {}` for `interface A {};interface B {}`.
///
/// The steps that it takes grow with the length of the text alone, as [`parse_counted`] says. First
/// it takes memory for a packrat table: a cell of 4 bytes for each rule at each place of the text,
/// of 16 bytes where the text is longer than 4,294,967,294 bytes. Then it takes memory for the list
/// of definitions and for what each holds. Where that is refused it ends with [`Err::Failure`].
/// Names aren't copied: each is a part of the text.
pub fn parse(alloc: Global, raw: &str) -> Result<Definitions<'_>, Err<Error<&str>>>
    // The list of the whole text, or what the grammar leaves of it.
    ensures answers { ParseAnswers raw.now result }

    // The text is a rendering of its list.
    ensures spells { IfOk result (λ definitions. SpellsList raw.now definitions.items) }

    // The texts of the list are in it in their order.
    ensures pieces { IfOk result (λ definitions. HasTexts raw.now definitions.items) }

    // What a fault has of the text is no longer than the text.
    ensures within { IfErr result (λ fault. IsWithin raw.now fault) }
{
    parse_counted(alloc, raw).answer
}

/// Reads a whole text as [`parse`] does, and counts what that takes.
///
/// For `enum E {"a"};`, 13 bytes, each of the 386 rules is worked out once at each of the 14
/// places, and the 15 nodes of its tree are visited. Where something follows the last definition
/// that can be read, the nodes are those of the definitions before it.
///
/// It takes the memory that [`parse`] takes. Where the packrat table is refused nothing is counted,
/// and where the list is refused no visits are.
pub fn parse_counted(alloc: Global, raw: &str) -> Counted<'_>
    // The list of the whole text, or what the grammar leaves of it.
    ensures answers { ParseAnswers raw.now result.answer }

    // The text is a rendering of its list.
    ensures spells { IfOk result.answer (λ definitions. SpellsList raw.now definitions.items) }

    // The texts of the list are in it in their order.
    ensures pieces { IfOk result.answer (λ definitions. HasTexts raw.now definitions.items) }

    // What a fault has of the text is no longer than the text.
    ensures within { IfErr result.answer (λ fault. IsWithin raw.now fault) }

    // Whatever the answer is, the counts are within bounds that grow with the text's length alone.
    ensures bounded { IsBounded raw.now result }

    // Where memory doesn't run out, the text determines how many workings and visits there are.
    ensures exact { ¬ MemoryRanOut result.answer → IsExact raw.now result }

    // Where it does, there are no visits.
    ensures cut_short { MemoryRanOut result.answer → IsCutShort raw.now result }
{
    weedle_spell_idl::laws::definitions();
    let Ok(ends) = Ends::new(alloc, raw) else {
        return Counted {
            answer: Err(out_of_memory(raw)),
            workings: 0,
            reads: 0,
            visits: 0,
        };
    };
    let (workings, reads) = (ends.workings(), ends.reads());
    match build_definitions(alloc, &ends, raw) {
        Ok(built) => Counted {
            answer: whole(built.list, built.rest),
            workings,
            reads,
            visits: built.visits,
        },
        Err(_) => Counted {
            answer: Err(out_of_memory(raw)),
            workings,
            reads,
            visits: 0,
        },
    }
}

/// What was read of a text, where nothing is left of it, and else what is left.
pub(crate) fn whole<'a, T: Drop>(value: T, rest: &'a str) -> Result<T, Err<Error<&'a str>>>
    ensures { WholeOf value rest.entry.now result }
{
    if rest.is_empty() {
        return Ok(value);
    }
    Err(Err::Error(Error {
        input: rest,
        code: ErrorKind::Unread,
    }))
}
