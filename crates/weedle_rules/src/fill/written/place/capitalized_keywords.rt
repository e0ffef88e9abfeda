//! Works out the cells of a place, section: Keywords with capitals: trivia, the keyword's bytes
//! with no name character next, trivia.
//!
//! Written by tools/grammar.py, and not edited by hand.

ghost use Rattle.std.specs.Prelude.{◌≤◌, length};
ghost use Rattle.weedle_rules.specs.Filling.{IsFilling};

use crate::cell::Cell;
use crate::fill::fill_cell;
use crate::reader::Reader;
use weedle_grammar::grammar::capitalized_keywords;

/// Works out the cells of the rules from 140 to 183.
#[inline(always)]
pub(super) fn fill<C: Cell>(reader: &mut Reader<'_, C>, place: usize)
    requires within { place ≤ length reader.old.text }
    requires next { IsFilling reader.old reader.old.text place 140 }
    ensures { IsFilling reader.new reader.old.text place 184 }
{
    fill_from_140(reader, place);
    fill_from_148(reader, place);
    fill_from_156(reader, place);
    fill_from_164(reader, place);
    fill_from_172(reader, place);
    fill_from_180(reader, place);
}

#[inline(always)]
fn fill_from_140<C: Cell>(reader: &mut Reader<'_, C>, place: usize)
    requires within { place ≤ length reader.old.text }
    requires next { IsFilling reader.old reader.old.text place 140 }
    ensures { IsFilling reader.new reader.old.text place 148 }
{
    fill_cell(reader, capitalized_keywords::BYTES_BYTE_STRING, place);
    fill_cell(reader, capitalized_keywords::BYTE_STRING, place);
    fill_cell(reader, capitalized_keywords::BYTES_DOM_STRING, place);
    fill_cell(reader, capitalized_keywords::DOM_STRING, place);
    fill_cell(reader, capitalized_keywords::BYTES_FROZEN_ARRAY, place);
    fill_cell(reader, capitalized_keywords::FROZEN_ARRAY, place);
    fill_cell(reader, capitalized_keywords::BYTES_INFINITY, place);
    fill_cell(reader, capitalized_keywords::INFINITY, place);
}

#[inline(always)]
fn fill_from_148<C: Cell>(reader: &mut Reader<'_, C>, place: usize)
    requires within { place ≤ length reader.old.text }
    requires next { IsFilling reader.old reader.old.text place 148 }
    ensures { IsFilling reader.new reader.old.text place 156 }
{
    fill_cell(reader, capitalized_keywords::BYTES_NAN, place);
    fill_cell(reader, capitalized_keywords::NAN, place);
    fill_cell(reader, capitalized_keywords::BYTES_USV_STRING, place);
    fill_cell(reader, capitalized_keywords::USV_STRING, place);
    fill_cell(reader, capitalized_keywords::BYTES_ARRAY_BUFFER, place);
    fill_cell(reader, capitalized_keywords::ARRAY_BUFFER, place);
    fill_cell(reader, capitalized_keywords::BYTES_DATA_VIEW, place);
    fill_cell(reader, capitalized_keywords::DATA_VIEW, place);
}

#[inline(always)]
fn fill_from_156<C: Cell>(reader: &mut Reader<'_, C>, place: usize)
    requires within { place ≤ length reader.old.text }
    requires next { IsFilling reader.old reader.old.text place 156 }
    ensures { IsFilling reader.new reader.old.text place 164 }
{
    fill_cell(reader, capitalized_keywords::BYTES_INT8_ARRAY, place);
    fill_cell(reader, capitalized_keywords::INT8_ARRAY, place);
    fill_cell(reader, capitalized_keywords::BYTES_INT16_ARRAY, place);
    fill_cell(reader, capitalized_keywords::INT16_ARRAY, place);
    fill_cell(reader, capitalized_keywords::BYTES_INT32_ARRAY, place);
    fill_cell(reader, capitalized_keywords::INT32_ARRAY, place);
    fill_cell(reader, capitalized_keywords::BYTES_UINT8_ARRAY, place);
    fill_cell(reader, capitalized_keywords::UINT8_ARRAY, place);
}

#[inline(always)]
fn fill_from_164<C: Cell>(reader: &mut Reader<'_, C>, place: usize)
    requires within { place ≤ length reader.old.text }
    requires next { IsFilling reader.old reader.old.text place 164 }
    ensures { IsFilling reader.new reader.old.text place 172 }
{
    fill_cell(reader, capitalized_keywords::BYTES_UINT16_ARRAY, place);
    fill_cell(reader, capitalized_keywords::UINT16_ARRAY, place);
    fill_cell(reader, capitalized_keywords::BYTES_UINT32_ARRAY, place);
    fill_cell(reader, capitalized_keywords::UINT32_ARRAY, place);
    fill_cell(
        reader,
        capitalized_keywords::BYTES_UINT8_CLAMPED_ARRAY,
        place,
    );
    fill_cell(reader, capitalized_keywords::UINT8_CLAMPED_ARRAY, place);
    fill_cell(reader, capitalized_keywords::BYTES_FLOAT32_ARRAY, place);
    fill_cell(reader, capitalized_keywords::FLOAT32_ARRAY, place);
}

#[inline(always)]
fn fill_from_172<C: Cell>(reader: &mut Reader<'_, C>, place: usize)
    requires within { place ≤ length reader.old.text }
    requires next { IsFilling reader.old reader.old.text place 172 }
    ensures { IsFilling reader.new reader.old.text place 180 }
{
    fill_cell(reader, capitalized_keywords::BYTES_FLOAT64_ARRAY, place);
    fill_cell(reader, capitalized_keywords::FLOAT64_ARRAY, place);
    fill_cell(reader, capitalized_keywords::BYTES_ARRAY_BUFFER_VIEW, place);
    fill_cell(reader, capitalized_keywords::ARRAY_BUFFER_VIEW, place);
    fill_cell(reader, capitalized_keywords::BYTES_BUFFER_SOURCE, place);
    fill_cell(reader, capitalized_keywords::BUFFER_SOURCE, place);
    fill_cell(reader, capitalized_keywords::BYTES_PROMISE, place);
    fill_cell(reader, capitalized_keywords::PROMISE, place);
}

#[inline(always)]
fn fill_from_180<C: Cell>(reader: &mut Reader<'_, C>, place: usize)
    requires within { place ≤ length reader.old.text }
    requires next { IsFilling reader.old reader.old.text place 180 }
    ensures { IsFilling reader.new reader.old.text place 184 }
{
    fill_cell(reader, capitalized_keywords::BYTES_ERROR, place);
    fill_cell(reader, capitalized_keywords::ERROR, place);
    fill_cell(reader, capitalized_keywords::BYTES_NEG_INFINITY, place);
    fill_cell(reader, capitalized_keywords::NEG_INFINITY, place);
}
