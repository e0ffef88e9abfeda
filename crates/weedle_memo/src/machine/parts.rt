//! Rows of several parts.

ghost use Rattle.std.specs.Prelude.{◌≡◌, ◌<◌, ◌≤◌, if◌then◌else◌, length};
ghost use Rattle.weedle_grammar.specs.Rows.{Seq, First, If};
ghost use Rattle.weedle_grammar.specs.written.Table.{row_of};
ghost use Rattle.weedle_grammar.specs.View.{numbers_of};
ghost use Rattle.weedle_rules.specs.Cells.{HasEnd};
ghost use Rattle.weedle_memo.specs.Frames.{IsOpen, IsFresh, Waits, IsStep, SameCell};
ghost use Rattle.weedle_memo.specs.Closure.{memory_of, Covered, CoveredStep, MetIf};

use crate::frame::{Frame, Step};
use crate::reader::Reader;
use weedle_grammar::{Parts, Rule};

/// Takes the end of a part of a row `Seq`.
#[inline(always)]
pub(crate) fn resume_seq(
    reader: &Reader<'_>,
    frame: Frame,
    parts: Parts,
    rule: Rule,
    place: usize,
    outcome: Option<usize>,
) -> (Frame, Step)
    requires open { IsOpen reader.now.text frame }
    requires row { row_of frame.rule ≡ Seq (numbers_of parts) }
    requires waits { Waits reader.now.text frame rule place 1 }
    requires came { HasEnd reader.now.text rule place outcome }
    requires covered { Covered reader.now.text (memory_of reader.now) (row_of frame.rule)
        frame place }
    requires met { MetIf (memory_of reader.now) rule place outcome }
    ensures same { SameCell frame result.0 }
    ensures turn { IsStep reader.now.text result.0 result.1 }
    ensures covered { CoveredStep reader.now.text (memory_of reader.now) result.0 result.1 }
{
    match outcome {
        None => (frame, Step::Ends(None)),
        Some(end) => {
            let part = frame.part + 1;
            let next = Frame {
                rule: frame.rule,
                place: frame.place,
                part,
                end,
                present: frame.present,
                count: frame.count,
                spare: frame.spare,
            };
            if (part as usize) < parts.len() {
                (next, Step::Needs(parts.rule(part as usize), end))
            } else {
                (next, Step::Ends(Some(end)))
            }
        }
    }
}

/// Takes the end of a part of a row `First`.
#[inline(always)]
pub(crate) fn resume_first(
    reader: &Reader<'_>,
    frame: Frame,
    parts: Parts,
    rule: Rule,
    place: usize,
    outcome: Option<usize>,
) -> (Frame, Step)
    requires open { IsOpen reader.now.text frame }
    requires row { row_of frame.rule ≡ First (numbers_of parts) }
    requires waits { Waits reader.now.text frame rule place 1 }
    requires came { HasEnd reader.now.text rule place outcome }
    requires covered { Covered reader.now.text (memory_of reader.now) (row_of frame.rule)
        frame place }
    requires met { MetIf (memory_of reader.now) rule place outcome }
    ensures same { SameCell frame result.0 }
    ensures turn { IsStep reader.now.text result.0 result.1 }
    ensures covered { CoveredStep reader.now.text (memory_of reader.now) result.0 result.1 }
{
    match outcome {
        Some(end) => (frame, Step::Ends(Some(end))),
        None => {
            let part = frame.part + 1;
            let next = Frame {
                rule: frame.rule,
                place: frame.place,
                part,
                end: frame.end,
                present: frame.present,
                count: frame.count,
                spare: frame.spare,
            };
            if (part as usize) < parts.len() {
                (next, Step::Needs(parts.rule(part as usize), frame.place))
            } else {
                (next, Step::Ends(None))
            }
        }
    }
}

/// The first of two booleans where the test holds, else the second.
#[inline(always)]
fn choose(test: bool, first: bool, second: bool) -> bool
    ensures { result ≡ (if test then first else second) }
{
    if test { first } else { second }
}

/// Takes the end of a part of a row `If`, or of the rule behind them.
#[inline(always)]
pub(crate) fn resume_if(
    reader: &Reader<'_>,
    frame: Frame,
    parts: Parts,
    k: usize,
    last: Rule,
    rule: Rule,
    place: usize,
    outcome: Option<usize>,
) -> (Frame, Step)
    requires open { IsOpen reader.now.text frame }
    requires row { row_of frame.rule ≡ If (numbers_of parts) k last }
    requires waits { Waits reader.now.text frame rule place 1 }
    requires came { HasEnd reader.now.text rule place outcome }
    requires covered { Covered reader.now.text (memory_of reader.now) (row_of frame.rule)
        frame place }
    requires met { MetIf (memory_of reader.now) rule place outcome }
    ensures same { SameCell frame result.0 }
    ensures turn { IsStep reader.now.text result.0 result.1 }
    ensures covered { CoveredStep reader.now.text (memory_of reader.now) result.0 result.1 }
{
    let many = parts.len();
    if frame.part as usize >= many {
        return (frame, Step::Ends(outcome));
    }
    match outcome {
        None => (frame, Step::Ends(None)),
        Some(end) => {
            let part = frame.part + 1;
            let present = choose(frame.part as usize == k, end != frame.end, frame.present);
            let next = Frame {
                rule: frame.rule,
                place: frame.place,
                part,
                end,
                present,
                count: frame.count,
                spare: frame.spare,
            };
            if (part as usize) < many {
                (next, Step::Needs(parts.rule(part as usize), end))
            } else if present {
                (next, Step::Needs(last, end))
            } else {
                (next, Step::Ends(Some(end)))
            }
        }
    }
}

/// The first part of a row `Seq`.
#[inline(always)]
pub(crate) fn begin_seq(reader: &Reader<'_>, frame: Frame, parts: Parts) -> (Frame, Step)
    requires fresh { IsFresh reader.now.text frame }
    requires row { row_of frame.rule ≡ Seq (numbers_of parts) }
    ensures same { SameCell frame result.0 }
    ensures turn { IsStep reader.now.text result.0 result.1 }
    ensures covered { CoveredStep reader.now.text (memory_of reader.now) result.0 result.1 }
{
    let place = frame.place;
    (frame, Step::Needs(parts.rule(0), place))
}

/// The first part of a row `First`.
#[inline(always)]
pub(crate) fn begin_first(reader: &Reader<'_>, frame: Frame, parts: Parts) -> (Frame, Step)
    requires fresh { IsFresh reader.now.text frame }
    requires row { row_of frame.rule ≡ First (numbers_of parts) }
    ensures same { SameCell frame result.0 }
    ensures turn { IsStep reader.now.text result.0 result.1 }
    ensures covered { CoveredStep reader.now.text (memory_of reader.now) result.0 result.1 }
{
    let place = frame.place;
    (frame, Step::Needs(parts.rule(0), place))
}

/// The first part of a row `If`.
#[inline(always)]
pub(crate) fn begin_if(
    reader: &Reader<'_>,
    frame: Frame,
    parts: Parts,
    k: usize,
    last: Rule,
) -> (Frame, Step)
    requires fresh { IsFresh reader.now.text frame }
    requires row { row_of frame.rule ≡ If (numbers_of parts) k last }
    ensures same { SameCell frame result.0 }
    ensures turn { IsStep reader.now.text result.0 result.1 }
    ensures covered { CoveredStep reader.now.text (memory_of reader.now) result.0 result.1 }
{
    let place = frame.place;
    (frame, Step::Needs(parts.rule(0), place))
}
