//! Whole texts over a memo, in bounded steps.

ghost use Rattle.std.specs.Prelude.{◌≡◌, IfOk, IfErr};
ghost use Rattle.weedle_base.specs.Faults.{IsWithin};
ghost use Rattle.weedle_front.specs.Counts.{MemoryRanOut, IsBounded, IsVisited};
ghost use Rattle.weedle_front.specs.Whole.{ParseAnswers, SpellsList, HasTexts};

use crate::reader::{Counted, whole};
use std::alloc::Global;
use weedle_base::out_of_memory;
use weedle_build::build_by_memo;
use weedle_memo::{Memo, Tables};

/// Reads a whole text as [`parse`](crate::parse) does, and counts what that takes: with the same
/// bounds on its steps, and a fraction of its time and memory for what people write.
///
/// A rule is worked out at a place where the reading tries it, and never twice there: of real files
/// one to two for each byte, and of the 13 bytes of `enum E {"a"};` fewer than 100, where
/// [`parse`](crate::parse) works out all 386 at each place. There is no recursion until the list is
/// built, and no step more for what nests deep.
///
/// First it takes memory for a memo: a number of 8 bytes for each place of the text, an entry of 16
/// bytes for each rule that is worked out, and a frame of 24 bytes for each that is open. Where 32
/// bits don't hold a place or the number of an entry, entries have 40 bytes. Then it takes memory
/// for the list of definitions and for what each holds. Where the memo is refused nothing is
/// counted, and where the list is refused no visits are.
pub fn parse_bounded(alloc: Global, raw: &str) -> Counted<'_>
    // The list of the whole text, or what the grammar leaves of it.
    ensures answers { ParseAnswers raw.now result.answer }

    // The text is a rendering of its list.
    ensures spells { IfOk result.answer (λ definitions. SpellsList raw.now definitions.items) }

    // The texts of the list are in it in their order.
    ensures pieces { IfOk result.answer (λ definitions. HasTexts raw.now definitions.items) }

    // What a fault has of the text is no longer than the text.
    ensures within { IfErr result.answer (λ fault. IsWithin raw.now fault) }

    // Whatever the answer is, the counts are within bounds that grow with the text's length alone.
    ensures bounded { IsBounded raw.now result }

    // Where memory doesn't run out, each node of the tree was visited once.
    ensures visited { ¬ MemoryRanOut result.answer → IsVisited raw.now result.visits }

    // Where it does, none was.
    ensures cut_short { MemoryRanOut result.answer → result.visits ≡ 0 }
{
    weedle_spell_idl::laws::definitions();
    let tables = Tables::new();
    let Ok(memo) = Memo::new(alloc, raw, &tables) else {
        return Counted {
            answer: Err(out_of_memory(raw)),
            workings: 0,
            reads: 0,
            visits: 0,
        };
    };
    let (workings, reads) = (memo.workings() as u128, memo.reads());
    match build_by_memo(alloc, &memo, raw) {
        Ok(built) => Counted {
            answer: whole(built.list, built.rest),
            workings,
            reads,
            visits: built.visits,
        },
        Err(_) => Counted {
            answer: Err(out_of_memory(raw)),
            workings,
            reads,
            visits: 0,
        },
    }
}
