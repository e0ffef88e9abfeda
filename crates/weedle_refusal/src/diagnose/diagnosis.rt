//! Why a text is refused.

ghost use Rattle.std.specs.Prelude.{◌≤◌, length, IfOk};
ghost use Rattle.weedle_refusal.specs.Diagnosis.{IsDiagnosis};

use crate::diagnose::marking::marks_of_tried;
use crate::diagnose::unmet::{furthest_place, unmet_at};
use std::alloc::{AllocError, Global};
use weedle_grammar::Rule;
use weedle_rules::Ends;

/// The furthest place where something that is tried fails, and what fails there.
///
/// Over `enum E { "a", "b" "c" };` the place is 18, where the third string begins. Expected are the
/// rules of the bytes `,` and `}`, beside those that begin a comment or whitespace.
#[derive(Debug, Drop)]
pub struct Diagnosis {
    /// The place, in bytes from the front of the text.
    pub place: usize,
    /// The rules without parts that are tried there and fail, in the order of their numbers.
    /// `row_of` says what each of them reads.
    pub expected: Vec<Rule>,
}

/// Where the reading of definitions that begin at this place comes furthest, and what would have to
/// be there.
///
/// The table is that of the whole text. The place is 0, or where the part begins that wasn't read:
/// in `interface A {}; /* open` that is 16, and the answer is the place 18, behind which nothing
/// ends the comment. A text that is read whole has an answer too: what could follow at its end.
///
/// It asks for memory once, 48.25 bytes for each byte of the text from this place on, and then for
/// the list. Where that is refused, the answer is an error. Some 15 kB of the stack hold the
/// grammar's rows. Each rule is gone through at most once at each place; there is no recursion,
/// however deep the text nests.
pub fn diagnose_from(alloc: Global, ends: &Ends<'_>, start: usize) -> Result<Diagnosis, AllocError>
    requires { start ≤ length ends.now.text }
    ensures { IfOk result (λ d. IsDiagnosis ends.now.text start d.place d.expected.items) }
{
    let last = ends.text().len();
    let marks = marks_of_tried(alloc, ends, last, start)?;
    let place = furthest_place(&marks, ends, last, start);
    let expected = unmet_at(alloc, &marks, ends, last, start, place)?;
    Ok(Diagnosis { place, expected })
}
