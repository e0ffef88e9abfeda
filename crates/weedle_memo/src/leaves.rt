//! Rules without parts: they are worked out at once.

ghost use Rattle.std.specs.Prelude.{◌≡◌, ◌≤◌, ◌<◌, true, length, IfOk};
ghost use Rattle.weedle_grammar.specs.Rows.{Bytes, OneOf, NotNext, Run, Past};
ghost use Rattle.weedle_grammar.specs.written.Table.{row_of};
ghost use Rattle.weedle_rules.specs.Cells.{HasEnd};
ghost use Rattle.weedle_starts.specs.Tries.{has_no_parts};
ghost use Rattle.weedle_memo.specs.Entries.{IsOwn, Absent};
ghost use Rattle.weedle_memo.specs.Closure.{memory_of, SameText, IsWorked, IsLeaf, EndsAlike};

use crate::READS;
use crate::frame::Look;
use crate::reader::Reader;
use crate::tables::Way;
use std::alloc::AllocError;
use weedle_grammar::{Class, Rule};

/// Makes an outcome known, unless the entries have it.
#[inline(always)]
fn fill_in(
    reader: &mut Reader<'_>,
    rule: Rule,
    place: usize,
    looks: usize,
    outcome: Option<usize>,
) -> Result<(), AllocError>
    requires leaf { has_no_parts (row_of rule) ≡ true }
    requires own { IsOwn reader.old.start.rule rule }
    requires within { place ≤ length reader.old.text }
    requires right { HasEnd reader.old.text rule place outcome }
    requires looked { 0 < looks }
    requires few { looks ≤ READS }
    ensures same { SameText reader.old reader.new }
    ensures worked { IfOk result
        (λ done. IsWorked (memory_of reader.old) (memory_of reader.new) rule place outcome) }
{
    match reader.find(rule, place) {
        Look::Known(_) => Ok(()),
        Look::Unknown => {
            reader.keep(rule, place, looks, outcome)?;
            Ok(())
        }
    }
}

/// Makes an outcome known that a rule has at a place and at all behind it up to the last one, from
/// the last to the first. The last took so many looks, and each before it one more, at the outcome
/// behind it.
fn fill_back(
    reader: &mut Reader<'_>,
    rule: Rule,
    place: usize,
    last: usize,
    looks: usize,
    outcome: Option<usize>,
) -> Result<(), AllocError>
    requires leaf { has_no_parts (row_of rule) ≡ true }
    requires own { IsOwn reader.old.start.rule rule }
    requires order { place ≤ last }
    requires within { last ≤ length reader.old.text }
    requires alike { EndsAlike reader.old.text rule place last outcome }
    requires looked { 0 < looks }
    requires few { looks < READS }
    ensures same { SameText reader.old reader.new }
    ensures worked { IfOk result
        (λ done. IsWorked (memory_of reader.old) (memory_of reader.new) rule place outcome) }
{
    let mut at = last;
    let mut each = looks;
    'places: loop {
        fill_in(reader, rule, at, each, outcome)?;
        if at == place {
            return Ok(());
        }
        at -= 1;
        each = looks + 1;
    }
}

/// Works out a row `Bytes`.
#[inline(always)]
fn work_bytes(
    reader: &mut Reader<'_>,
    rule: Rule,
    place: usize,
    bytes: &[u8],
) -> Result<Option<usize>, AllocError>
    requires row { row_of rule ≡ Bytes bytes.now }
    requires own { IsOwn reader.old.start.rule rule }
    requires within { place ≤ length reader.old.text }
    requires absent { Absent reader.old.known rule place }
    ensures same { SameText reader.old reader.new }
    ensures worked { IfOk result
        (λ end. IsWorked (memory_of reader.old) (memory_of reader.new) rule place end) }
{
    let end = reader.end_of_bytes(bytes, place);
    reader.keep(rule, place, bytes.len(), end)?;
    Ok(end)
}

/// Works out a row `OneOf`.
#[inline(always)]
fn work_one(
    reader: &mut Reader<'_>,
    rule: Rule,
    place: usize,
    class: Class,
) -> Result<Option<usize>, AllocError>
    requires row { row_of rule ≡ OneOf class }
    requires own { IsOwn reader.old.start.rule rule }
    requires within { place ≤ length reader.old.text }
    requires absent { Absent reader.old.known rule place }
    ensures same { SameText reader.old reader.new }
    ensures worked { IfOk result
        (λ end. IsWorked (memory_of reader.old) (memory_of reader.new) rule place end) }
{
    let end = reader.end_of_one(class, place);
    reader.keep(rule, place, 1, end)?;
    Ok(end)
}

/// Works out a row `NotNext`.
#[inline(always)]
fn work_not_next(
    reader: &mut Reader<'_>,
    rule: Rule,
    place: usize,
    class: Class,
) -> Result<Option<usize>, AllocError>
    requires row { row_of rule ≡ NotNext class }
    requires own { IsOwn reader.old.start.rule rule }
    requires within { place ≤ length reader.old.text }
    requires absent { Absent reader.old.known rule place }
    ensures same { SameText reader.old reader.new }
    ensures worked { IfOk result
        (λ end. IsWorked (memory_of reader.old) (memory_of reader.new) rule place end) }
{
    let end = reader.end_of_not_next(class, place);
    reader.keep(rule, place, 1, end)?;
    Ok(end)
}

/// Works out a row `Run` at a place, and at each place behind it up to the end.
fn work_run(
    reader: &mut Reader<'_>,
    rule: Rule,
    place: usize,
    class: Class,
) -> Result<Option<usize>, AllocError>
    requires row { row_of rule ≡ Run class }
    requires own { IsOwn reader.old.start.rule rule }
    requires within { place ≤ length reader.old.text }
    ensures same { SameText reader.old reader.new }
    ensures worked { IfOk result
        (λ end. IsWorked (memory_of reader.old) (memory_of reader.new) rule place end) }
{
    let end = reader.end_of_run(class, place);
    fill_back(reader, rule, place, end, 1, Some(end))?;
    Ok(Some(end))
}

/// Works out a row `Past` at a place, and at each place behind it up to the bytes, or to the end of
/// the text.
fn work_past(
    reader: &mut Reader<'_>,
    rule: Rule,
    place: usize,
    bytes: &[u8],
) -> Result<Option<usize>, AllocError>
    requires row { row_of rule ≡ Past bytes.now }
    requires own { IsOwn reader.old.start.rule rule }
    requires within { place ≤ length reader.old.text }
    ensures same { SameText reader.old reader.new }
    ensures worked { IfOk result
        (λ end. IsWorked (memory_of reader.old) (memory_of reader.new) rule place end) }
{
    match reader.end_past(bytes, place) {
        Some(end) => {
            fill_back(
                reader,
                rule,
                place,
                end - bytes.len(),
                bytes.len(),
                Some(end),
            )?;
            Ok(Some(end))
        }
        None => {
            let last = reader.text_len();
            fill_back(reader, rule, place, last, bytes.len(), None)?;
            Ok(None)
        }
    }
}

/// Works out a rule without parts at a place. For a rule with parts it says that nothing is known.
#[inline(always)]
pub(crate) fn work(reader: &mut Reader<'_>, rule: Rule, place: usize) -> Result<Look, AllocError>
    requires own { IsOwn reader.old.start.rule rule }
    requires within { place ≤ length reader.old.text }
    requires absent { Absent reader.old.known rule place }
    ensures same { SameText reader.old reader.new }
    ensures leaf { IfOk result
        (λ look. IsLeaf (memory_of reader.old) (memory_of reader.new) rule place look) }
{
    let outcome = match reader.way(rule) {
        Way::Bytes(word) => work_bytes(reader, rule, place, word.bytes)?,
        Way::OneOf(class) => work_one(reader, rule, place, class)?,
        Way::NotNext(class) => work_not_next(reader, rule, place, class)?,
        Way::Run(class) => work_run(reader, rule, place, class)?,
        Way::Past(word) => work_past(reader, rule, place, word.bytes)?,
        _ => return Ok(Look::Unknown),
    };
    Ok(Look::Known(outcome))
}
