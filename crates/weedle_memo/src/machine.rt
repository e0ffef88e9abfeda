//! What a frame needs next, by the row of its rule.

ghost use Rattle.std.specs.Prelude.{◌≡◌, ◌≤◌, false, length};
ghost use Rattle.weedle_starts.specs.Tries.{has_no_parts};
ghost use Rattle.weedle_rules.specs.Cells.{HasEnd};
ghost use Rattle.weedle_grammar.specs.written.Table.{row_of};
ghost use Rattle.weedle_memo.specs.Closure.{memory_of, Covered, CoveredStep, MetIf};
ghost use Rattle.weedle_memo.specs.Frames.{IsOpen, Waits, IsStep, SameCell};

use crate::frame::{Frame, Step};
use crate::reader::Reader;
use crate::tables::Way;
use weedle_grammar::{Rule, rule_of};

mod items;
mod parts;

/// A frame of a rule with parts at the place, and what it needs first.
#[inline(always)]
pub(crate) fn begin(reader: &Reader<'_>, rule: Rule, place: usize) -> (Frame, Step)
    requires within { place ≤ length reader.now.text }
    requires parts { has_no_parts (row_of rule) ≡ false }
    ensures opened { IsOpen reader.now.text result.0 }
    ensures cell { (result.0.rule ≡ rule) × (result.0.place ≡ place) }
    ensures turn { IsStep reader.now.text result.0 result.1 }
    ensures covered { CoveredStep reader.now.text (memory_of reader.now) result.0 result.1 }
{
    reader.recall();
    let frame = Frame {
        place,
        end: place,
        rule,
        part: 0,
        count: 0,
        present: false,
        spare: 0,
    };
    match reader.way(rule) {
        Way::Seq(list) => parts::begin_seq(reader, frame, list),
        Way::First(list) => parts::begin_first(reader, frame, list),
        Way::Opt(item) => items::begin_opt(reader, frame, rule_of(item)),
        Way::Many(item) => items::begin_many(reader, frame, rule_of(item)),
        Way::List(item, tail) => items::begin_list(reader, frame, rule_of(item), rule_of(tail)),
        Way::List1(item, tail) => items::begin_list1(reader, frame, rule_of(item), rule_of(tail)),
        Way::Tail(item, separator) => {
            items::begin_tail(reader, frame, rule_of(item), rule_of(separator))
        }
        Way::If(list, k, last) => parts::begin_if(reader, frame, list, k, rule_of(last)),
        Way::Bytes(_) => unreachable!(),
        Way::OneOf(_) => unreachable!(),
        Way::NotNext(_) => unreachable!(),
        Way::Run(_) => unreachable!(),
        Way::Past(_) => unreachable!(),
    }
}

/// Takes the outcome of what a frame waits for, the rule at the place: what it needs next.
#[inline(always)]
pub(crate) fn resume(
    reader: &Reader<'_>,
    frame: Frame,
    rule: Rule,
    place: usize,
    outcome: Option<usize>,
) -> (Frame, Step)
    requires opened { IsOpen reader.now.text frame }
    requires waits { Waits reader.now.text frame rule place 1 }
    requires came { HasEnd reader.now.text rule place outcome }
    requires covered { Covered reader.now.text (memory_of reader.now) (row_of frame.rule)
        frame place }
    requires met { MetIf (memory_of reader.now) rule place outcome }
    ensures same { SameCell frame result.0 }
    ensures turn { IsStep reader.now.text result.0 result.1 }
    ensures covered { CoveredStep reader.now.text (memory_of reader.now) result.0 result.1 }
{
    match reader.way(frame.rule) {
        Way::Seq(list) => parts::resume_seq(reader, frame, list, rule, place, outcome),
        Way::First(list) => parts::resume_first(reader, frame, list, rule, place, outcome),
        Way::Opt(item) => items::resume_opt(reader, frame, rule_of(item), rule, place, outcome),
        Way::Many(item) => items::resume_many(reader, frame, rule_of(item), rule, place, outcome),
        Way::List(item, tail) => {
            items::resume_list(
                reader,
                frame,
                rule_of(item),
                rule_of(tail),
                rule,
                place,
                outcome,
            )
        }
        Way::List1(item, tail) => {
            items::resume_list1(
                reader,
                frame,
                rule_of(item),
                rule_of(tail),
                rule,
                place,
                outcome,
            )
        }
        Way::Tail(item, separator) => {
            items::resume_tail(
                reader,
                frame,
                rule_of(item),
                rule_of(separator),
                rule,
                place,
                outcome,
            )
        }
        Way::If(list, k, last) => {
            parts::resume_if(reader, frame, list, k, rule_of(last), rule, place, outcome)
        }
        Way::Bytes(_) => unreachable!(),
        Way::OneOf(_) => unreachable!(),
        Way::NotNext(_) => unreachable!(),
        Way::Run(_) => unreachable!(),
        Way::Past(_) => unreachable!(),
    }
}
