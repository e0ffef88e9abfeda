//! Rows of a rule that may be there once or more often.

ghost use Rattle.std.specs.Prelude.{◌≡◌};
ghost use Rattle.weedle_grammar.specs.Rows.{Opt, Many, ListOf, List1, Tail};
ghost use Rattle.weedle_grammar.specs.written.Table.{row_of};
ghost use Rattle.weedle_rules.specs.Cells.{HasEnd};
ghost use Rattle.weedle_memo.specs.Frames.{IsOpen, IsFresh, Waits, IsStep, SameCell};
ghost use Rattle.weedle_memo.specs.Closure.{memory_of, Covered, CoveredStep, MetIf};

use crate::frame::{Frame, Step};
use crate::reader::Reader;
use weedle_grammar::Rule;

/// Takes the end of the rule of a row `Opt`.
#[inline(always)]
pub(crate) fn resume_opt(
    reader: &Reader<'_>,
    frame: Frame,
    item: Rule,
    rule: Rule,
    place: usize,
    outcome: Option<usize>,
) -> (Frame, Step)
    requires open { IsOpen reader.now.text frame }
    requires row { row_of frame.rule ≡ Opt item }
    requires waits { Waits reader.now.text frame rule place 1 }
    requires came { HasEnd reader.now.text rule place outcome }
    requires covered { Covered reader.now.text (memory_of reader.now) (row_of frame.rule)
        frame place }
    requires met { MetIf (memory_of reader.now) rule place outcome }
    ensures same { SameCell frame result.0 }
    ensures turn { IsStep reader.now.text result.0 result.1 }
    ensures covered { CoveredStep reader.now.text (memory_of reader.now) result.0 result.1 }
{
    match outcome {
        Some(end) => (frame, Step::Ends(Some(end))),
        None => (frame, Step::Ends(Some(frame.place))),
    }
}

/// The frame behind its first part, or its second.
#[inline(always)]
fn behind(frame: Frame, part: u16, end: usize) -> Frame
    ensures { result ≡ record frame { part = part; end = end } }
{
    Frame {
        rule: frame.rule,
        place: frame.place,
        part,
        end,
        present: frame.present,
        count: frame.count,
        spare: frame.spare,
    }
}

/// Takes an end of a row `Many`.
#[inline(always)]
pub(crate) fn resume_many(
    reader: &Reader<'_>,
    frame: Frame,
    item: Rule,
    rule: Rule,
    place: usize,
    outcome: Option<usize>,
) -> (Frame, Step)
    requires open { IsOpen reader.now.text frame }
    requires row { row_of frame.rule ≡ Many item }
    requires waits { Waits reader.now.text frame rule place 1 }
    requires came { HasEnd reader.now.text rule place outcome }
    requires covered { Covered reader.now.text (memory_of reader.now) (row_of frame.rule)
        frame place }
    requires met { MetIf (memory_of reader.now) rule place outcome }
    ensures same { SameCell frame result.0 }
    ensures turn { IsStep reader.now.text result.0 result.1 }
    ensures covered { CoveredStep reader.now.text (memory_of reader.now) result.0 result.1 }
{
    if frame.part > 0 {
        return (frame, Step::Ends(outcome));
    }
    match outcome {
        None => (frame, Step::Ends(Some(frame.place))),
        Some(end) => {
            if end == frame.place {
                (frame, Step::Ends(None))
            } else {
                let again = frame.rule;
                (behind(frame, 1, end), Step::Needs(again, end))
            }
        }
    }
}

/// Takes an end of a row `List`.
#[inline(always)]
pub(crate) fn resume_list(
    reader: &Reader<'_>,
    frame: Frame,
    item: Rule,
    tail: Rule,
    rule: Rule,
    place: usize,
    outcome: Option<usize>,
) -> (Frame, Step)
    requires open { IsOpen reader.now.text frame }
    requires row { row_of frame.rule ≡ ListOf item tail }
    requires waits { Waits reader.now.text frame rule place 1 }
    requires came { HasEnd reader.now.text rule place outcome }
    requires covered { Covered reader.now.text (memory_of reader.now) (row_of frame.rule)
        frame place }
    requires met { MetIf (memory_of reader.now) rule place outcome }
    ensures same { SameCell frame result.0 }
    ensures turn { IsStep reader.now.text result.0 result.1 }
    ensures covered { CoveredStep reader.now.text (memory_of reader.now) result.0 result.1 }
{
    if frame.part > 0 {
        return (frame, Step::Ends(outcome));
    }
    match outcome {
        None => (frame, Step::Ends(Some(frame.place))),
        Some(end) => (behind(frame, 1, end), Step::Needs(tail, end)),
    }
}

/// Takes an end of a row `List1`.
#[inline(always)]
pub(crate) fn resume_list1(
    reader: &Reader<'_>,
    frame: Frame,
    item: Rule,
    tail: Rule,
    rule: Rule,
    place: usize,
    outcome: Option<usize>,
) -> (Frame, Step)
    requires open { IsOpen reader.now.text frame }
    requires row { row_of frame.rule ≡ List1 item tail }
    requires waits { Waits reader.now.text frame rule place 1 }
    requires came { HasEnd reader.now.text rule place outcome }
    requires covered { Covered reader.now.text (memory_of reader.now) (row_of frame.rule)
        frame place }
    requires met { MetIf (memory_of reader.now) rule place outcome }
    ensures same { SameCell frame result.0 }
    ensures turn { IsStep reader.now.text result.0 result.1 }
    ensures covered { CoveredStep reader.now.text (memory_of reader.now) result.0 result.1 }
{
    if frame.part > 0 {
        return (frame, Step::Ends(outcome));
    }
    match outcome {
        None => (frame, Step::Ends(None)),
        Some(end) => (behind(frame, 1, end), Step::Needs(tail, end)),
    }
}

/// Takes an end of a row `Tail`.
#[inline(always)]
pub(crate) fn resume_tail(
    reader: &Reader<'_>,
    frame: Frame,
    item: Rule,
    separator: Rule,
    rule: Rule,
    place: usize,
    outcome: Option<usize>,
) -> (Frame, Step)
    requires open { IsOpen reader.now.text frame }
    requires row { row_of frame.rule ≡ Tail item separator }
    requires waits { Waits reader.now.text frame rule place 1 }
    requires came { HasEnd reader.now.text rule place outcome }
    requires covered { Covered reader.now.text (memory_of reader.now) (row_of frame.rule)
        frame place }
    requires met { MetIf (memory_of reader.now) rule place outcome }
    ensures same { SameCell frame result.0 }
    ensures turn { IsStep reader.now.text result.0 result.1 }
    ensures covered { CoveredStep reader.now.text (memory_of reader.now) result.0 result.1 }
{
    if frame.part > 1 {
        return (frame, Step::Ends(outcome));
    }
    match outcome {
        None => (frame, Step::Ends(Some(frame.place))),
        Some(end) => {
            if frame.part == 1 {
                let again = frame.rule;
                (behind(frame, 2, end), Step::Needs(again, end))
            } else if end == frame.place {
                (frame, Step::Ends(None))
            } else {
                (behind(frame, 1, end), Step::Needs(item, end))
            }
        }
    }
}

/// What a row of this kind reads first.
#[inline(always)]
pub(crate) fn begin_opt(reader: &Reader<'_>, frame: Frame, item: Rule) -> (Frame, Step)
    requires fresh { IsFresh reader.now.text frame }
    requires row { row_of frame.rule ≡ Opt item }
    ensures same { SameCell frame result.0 }
    ensures turn { IsStep reader.now.text result.0 result.1 }
    ensures covered { CoveredStep reader.now.text (memory_of reader.now) result.0 result.1 }
{
    let place = frame.place;
    (frame, Step::Needs(item, place))
}

/// What a row of this kind reads first.
#[inline(always)]
pub(crate) fn begin_many(reader: &Reader<'_>, frame: Frame, item: Rule) -> (Frame, Step)
    requires fresh { IsFresh reader.now.text frame }
    requires row { row_of frame.rule ≡ Many item }
    ensures same { SameCell frame result.0 }
    ensures turn { IsStep reader.now.text result.0 result.1 }
    ensures covered { CoveredStep reader.now.text (memory_of reader.now) result.0 result.1 }
{
    let place = frame.place;
    (frame, Step::Needs(item, place))
}

/// What a row of this kind reads first.
#[inline(always)]
pub(crate) fn begin_list(reader: &Reader<'_>, frame: Frame, item: Rule, tail: Rule) -> (Frame, Step)
    requires fresh { IsFresh reader.now.text frame }
    requires row { row_of frame.rule ≡ ListOf item tail }
    ensures same { SameCell frame result.0 }
    ensures turn { IsStep reader.now.text result.0 result.1 }
    ensures covered { CoveredStep reader.now.text (memory_of reader.now) result.0 result.1 }
{
    let place = frame.place;
    (frame, Step::Needs(item, place))
}

/// What a row of this kind reads first.
#[inline(always)]
pub(crate) fn begin_list1(
    reader: &Reader<'_>,
    frame: Frame,
    item: Rule,
    tail: Rule,
) -> (Frame, Step)
    requires fresh { IsFresh reader.now.text frame }
    requires row { row_of frame.rule ≡ List1 item tail }
    ensures same { SameCell frame result.0 }
    ensures turn { IsStep reader.now.text result.0 result.1 }
    ensures covered { CoveredStep reader.now.text (memory_of reader.now) result.0 result.1 }
{
    let place = frame.place;
    (frame, Step::Needs(item, place))
}

/// What a row of this kind reads first.
#[inline(always)]
pub(crate) fn begin_tail(
    reader: &Reader<'_>,
    frame: Frame,
    item: Rule,
    separator: Rule,
) -> (Frame, Step)
    requires fresh { IsFresh reader.now.text frame }
    requires row { row_of frame.rule ≡ Tail item separator }
    ensures same { SameCell frame result.0 }
    ensures turn { IsStep reader.now.text result.0 result.1 }
    ensures covered { CoveredStep reader.now.text (memory_of reader.now) result.0 result.1 }
{
    let place = frame.place;
    (frame, Step::Needs(separator, place))
}
