//! Rows without parts: bytes, a byte of a class, a run of them, everything past some bytes.

ghost use Rattle.std.specs.Prelude.{◌^◌, ◌≡◌, ◌≤◌, ◌<◌, true, length, drop};
ghost use Rattle.weedle_grammar.specs.Rows.{
  begins as begins_with,
  Bytes,
  OneOf,
  NotNext,
  Run,
  Past,
};
ghost use Rattle.weedle_grammar.specs.written.Table.{row_of};
ghost use Rattle.weedle_rules.specs.Filling.{IsBegun, IsWorked};

use crate::READS;
use crate::cell::Cell;
use crate::reader::{Reader, Working};
use weedle_grammar::{Class, Rule, holds};

/// Whether the bytes are at the place.
#[inline(always)]
fn stand_at<C: Cell>(
    reader: &Reader<'_, C>,
    working: &mut Working,
    place: usize,
    bytes: &[u8],
) -> bool
    requires opened { reader.now.is_open ≡ true }
    requires fresh { working.old.count ≡ 0 }
    requires within { place ≤ length reader.now.text }
    requires fits { length reader.now.text < 2 ^ 64 }
    requires some { 0 < length bytes.now }
    requires few { length bytes.now < READS }
    ensures value { result ≡ begins_with bytes.now (drop place reader.now.text) }
    ensures looked { 0 < working.new.count }
    ensures few { working.new.count ≤ length bytes.now }
    ensures same { working.new ≡ record working.old { count = working.new.count } }
{
    for (i, byte) in bytes.iter().enumerate() {
        match reader.byte(working, place + i) {
            Some(here) => {
                if here != *byte {
                    return false;
                }
            }
            None => return false,
        }
    }
    true
}

/// Works out a row `Bytes`: these bytes.
#[inline(always)]
pub(crate) fn bytes<C: Cell>(
    reader: &Reader<'_, C>,
    working: &mut Working,
    rule: Rule,
    place: usize,
    bytes: &[u8],
) -> Option<usize>
    requires begun { IsBegun reader.now working.old rule place }
    requires row { row_of rule ≡ Bytes bytes.now }
    ensures { IsWorked reader.now working.old working.new result }
{
    if stand_at(reader, working, place, bytes) {
        Some(place + bytes.len())
    } else {
        None
    }
}

/// Works out a row `OneOf`: one byte of the class.
#[inline(always)]
pub(crate) fn one_of<C: Cell>(
    reader: &Reader<'_, C>,
    working: &mut Working,
    rule: Rule,
    place: usize,
    class: Class,
) -> Option<usize>
    requires begun { IsBegun reader.now working.old rule place }
    requires row { row_of rule ≡ OneOf class }
    ensures { IsWorked reader.now working.old working.new result }
{
    match reader.byte(working, place) {
        Some(byte) => {
            if holds(class, byte) {
                Some(place + 1)
            } else {
                None
            }
        }
        None => None,
    }
}

/// Works out a row `NotNext`: nothing, where no byte of the class is next.
#[inline(always)]
pub(crate) fn not_next<C: Cell>(
    reader: &Reader<'_, C>,
    working: &mut Working,
    rule: Rule,
    place: usize,
    class: Class,
) -> Option<usize>
    requires begun { IsBegun reader.now working.old rule place }
    requires row { row_of rule ≡ NotNext class }
    ensures { IsWorked reader.now working.old working.new result }
{
    match reader.byte(working, place) {
        Some(byte) => {
            if holds(class, byte) {
                None
            } else {
                Some(place)
            }
        }
        None => Some(place),
    }
}

/// Works out a row `Run`: all bytes of the class from here on. They are the byte here, and what the
/// rule itself takes behind it.
#[inline(always)]
pub(crate) fn run<C: Cell>(
    reader: &Reader<'_, C>,
    working: &mut Working,
    rule: Rule,
    place: usize,
    class: Class,
) -> Option<usize>
    requires begun { IsBegun reader.now working.old rule place }
    requires row { row_of rule ≡ Run class }
    ensures { IsWorked reader.now working.old working.new result }
{
    match reader.byte(working, place) {
        Some(byte) => {
            if holds(class, byte) {
                reader.cell(working, rule, place + 1)
            } else {
                Some(place)
            }
        }
        None => Some(place),
    }
}

/// Works out a row `Past`: everything up to the bytes, and these. They are here, or else it is what
/// the rule itself takes behind this place.
#[inline(always)]
pub(crate) fn past<C: Cell>(
    reader: &Reader<'_, C>,
    working: &mut Working,
    rule: Rule,
    place: usize,
    bytes: &[u8],
) -> Option<usize>
    requires begun { IsBegun reader.now working.old rule place }
    requires row { row_of rule ≡ Past bytes.now }
    ensures { IsWorked reader.now working.old working.new result }
{
    if stand_at(reader, working, place, bytes) {
        Some(place + bytes.len())
    } else if place < reader.text_len() {
        reader.cell(working, rule, place + 1)
    } else {
        None
    }
}
