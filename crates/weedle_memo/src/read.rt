//! The reading of a text: frames wait on a stack of their own, and there is no recursion.

ghost use Rattle.std.specs.Prelude.{◌^◌, ◌≡◌, ◌≤◌, ◌<◌, ◌+◌, ◌-◌, ◌*◌, false, [], length, reverse};
ghost use Rattle.std.specs.Prelude.{IfOk};
ghost use Rattle.weedle_grammar.specs.written.Table.{row_of};
ghost use Rattle.weedle_rules.specs.Cells.{HasEnd};
ghost use Rattle.weedle_starts.specs.Tries.{has_no_parts};
ghost use Rattle.weedle_memo.specs.Frames.{IsOpen, Waits, IsState, IsDone, AreWaiting, weight};
ghost use Rattle.weedle_memo.specs.Closure.{memory_of, Covered, MetIf, AreClosed, SameText};
ghost use Rattle.weedle_memo.specs.Entries.{Absent};

use crate::frame::{Frame, Look, Step};
use crate::leaves::work;
use crate::machine::{begin, resume};
use crate::reader::Reader;
use std::alloc::{AllocError, Global};
use weedle_grammar::Rule;

/// Looks at what a frame waits for. Where it is known or has no parts, the frame goes on; else it
/// waits, and a frame of what it waits for is next.
#[inline(always)]
fn advance(
    reader: &mut Reader<'_>,
    waiting: &mut Vec<Frame>,
    frame: Frame,
    rule: Rule,
    place: usize,
) -> Result<(Frame, Step), AllocError>
    requires opened { IsOpen reader.old.text frame }
    requires waits { Waits reader.old.text frame rule place 0 }
    requires absent { Absent reader.old.known frame.rule frame.place }
    requires others { AreWaiting reader.old.text (memory_of reader.old)
        (reverse waiting.old.items) frame.rule frame.place }
    requires covered { Covered reader.old.text (memory_of reader.old) (row_of frame.rule)
        frame place }
    requires closed { AreClosed reader.old.text (memory_of reader.old) }
    ensures same { SameText reader.old reader.new }
    ensures state { IfOk result (λ next. IsState reader.new.text (memory_of reader.new)
        (reverse waiting.new.items) next.0 next.1) }
    ensures closed { IfOk result (λ next. AreClosed reader.new.text (memory_of reader.new)) }
    ensures longer { IfOk result (λ next. length reader.old.known ≤ length reader.new.known) }
    ensures falls { IfOk result
        (λ next. weight reader.old.text next.0 < weight reader.old.text frame) }
{
    let mut looked = frame;
    match reader.look(&mut looked, rule, place) {
        Look::Known(outcome) => Ok(resume(reader, looked, rule, place, outcome)),
        Look::Unknown => match work(reader, rule, place)? {
            Look::Known(outcome) => Ok(resume(reader, looked, rule, place, outcome)),
            Look::Unknown => {
                waiting.push(looked)?;
                Ok(begin(reader, rule, place))
            }
        },
    }
}

/// Goes on until the outcome of a frame is known.
fn settle(
    reader: &mut Reader<'_>,
    waiting: &mut Vec<Frame>,
    frame: Frame,
    step: Step,
) -> Result<(Frame, Option<usize>), AllocError>
    requires state { IsState reader.old.text (memory_of reader.old) (reverse waiting.old.items)
        frame step }
    requires closed { AreClosed reader.old.text (memory_of reader.old) }
    ensures same { SameText reader.old reader.new }
    ensures done { IfOk result (λ done. IsDone reader.new.text (memory_of reader.new)
        (reverse waiting.new.items) done.0 done.1) }
    ensures closed { IfOk result (λ done. AreClosed reader.new.text (memory_of reader.new)) }
    ensures longer { IfOk result (λ done. length reader.old.known ≤ length reader.new.known) }
{
    let mut frame = frame;
    let mut step = step;
    'steps: loop {
        match step {
            Step::Ends(outcome) => return Ok((frame, outcome)),
            Step::Needs(rule, place) => {
                let (next, after) = advance(reader, waiting, frame, rule, place)?;
                frame = next;
                step = after;
            }
        }
    }
}

/// Reads the rule at the place where the reader starts, whose row has parts: where it ends.
fn read_parts(alloc: Global, reader: &mut Reader<'_>) -> Result<Option<usize>, AllocError>
    requires unread { reader.old.known ≡ [] }
    requires within { reader.old.start.place ≤ length reader.old.text }
    requires parts { has_no_parts (row_of reader.old.start.rule) ≡ false }
    ensures same { SameText reader.old reader.new }
    ensures ends { IfOk result
        (λ end. HasEnd reader.new.text reader.new.start.rule reader.new.start.place end) }
    ensures met { IfOk result
        (λ end. MetIf (memory_of reader.new) reader.new.start.rule reader.new.start.place end) }
    ensures closed { IfOk result (λ end. AreClosed reader.new.text (memory_of reader.new)) }
{
    let mut waiting = Vec::new(alloc);
    let (mut frame, mut step) = begin(reader, reader.rule(), reader.place());
    'cells: loop {
        let (done, outcome) = settle(reader, &mut waiting, frame, step)?;
        let (rule, place) = (done.rule, done.place);
        reader.keep(rule, place, done.count as usize, outcome)?;
        reader.recall();
        match waiting.pop() {
            None => return Ok(outcome),
            Some(parent) => {
                let (next, after) = resume(reader, parent, rule, place, outcome);
                frame = next;
                step = after;
            }
        }
    }
}

/// Reads the rule at the place where the reader starts: where it ends.
pub(crate) fn read(alloc: Global, reader: &mut Reader<'_>) -> Result<Option<usize>, AllocError>
    requires unread { reader.old.known ≡ [] }
    requires within { reader.old.start.place ≤ length reader.old.text }
    ensures same { SameText reader.old reader.new }
    ensures ends { IfOk result
        (λ end. HasEnd reader.new.text reader.new.start.rule reader.new.start.place end) }

    // What is read of the text is known, and where what it tries is read, that is known too.
    ensures met { IfOk result
        (λ end. MetIf (memory_of reader.new) reader.new.start.rule reader.new.start.place end) }
    ensures closed { IfOk result (λ end. AreClosed reader.new.text (memory_of reader.new)) }
{
    let (rule, place) = (reader.rule(), reader.place());
    match work(reader, rule, place)? {
        Look::Known(end) => Ok(end),
        Look::Unknown => read_parts(alloc, reader),
    }
}
