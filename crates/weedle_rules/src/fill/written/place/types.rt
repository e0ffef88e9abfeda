//! Works out the cells of a place, section: Types that hold types, extended attributes and
//! arguments, which read one another.
//!
//! Written by tools/grammar.py, and not edited by hand.

ghost use Rattle.std.specs.Prelude.{◌≤◌, length};
ghost use Rattle.weedle_rules.specs.Filling.{IsFilling};

use crate::cell::Cell;
use crate::fill::fill_cell;
use crate::reader::Reader;
use weedle_grammar::grammar::types;

/// Works out the cells of the rules from 256 to 316.
#[inline(always)]
pub(super) fn fill<C: Cell>(reader: &mut Reader<'_, C>, place: usize)
    requires within { place ≤ length reader.old.text }
    requires next { IsFilling reader.old reader.old.text place 256 }
    ensures { IsFilling reader.new reader.old.text place 317 }
{
    fill_from_256(reader, place);
    fill_from_264(reader, place);
    fill_from_272(reader, place);
    fill_from_280(reader, place);
    fill_from_288(reader, place);
    fill_from_296(reader, place);
    fill_from_304(reader, place);
    fill_from_312(reader, place);
}

#[inline(always)]
fn fill_from_256<C: Cell>(reader: &mut Reader<'_, C>, place: usize)
    requires within { place ≤ length reader.old.text }
    requires next { IsFilling reader.old reader.old.text place 256 }
    ensures { IsFilling reader.new reader.old.text place 264 }
{
    fill_cell(reader, types::GENERICS_TYPE, place);
    fill_cell(reader, types::SEQUENCE_TYPE, place);
    fill_cell(reader, types::FROZEN_ARRAY_TYPE, place);
    fill_cell(reader, types::GENERICS_RETURN_TYPE, place);
    fill_cell(reader, types::PROMISE_TYPE, place);
    fill_cell(reader, types::GENERICS_RECORD_TYPES, place);
    fill_cell(reader, types::RECORD_TYPE, place);
    fill_cell(reader, types::UNION_TYPE, place);
}

#[inline(always)]
fn fill_from_264<C: Cell>(reader: &mut Reader<'_, C>, place: usize)
    requires within { place ≤ length reader.old.text }
    requires next { IsFilling reader.old reader.old.text place 264 }
    ensures { IsFilling reader.new reader.old.text place 272 }
{
    fill_cell(reader, types::MAY_BE_NULL_UNION_TYPE, place);
    fill_cell(reader, types::MAY_BE_NULL_BYTE_STRING, place);
    fill_cell(reader, types::MAY_BE_NULL_DOM_STRING, place);
    fill_cell(reader, types::MAY_BE_NULL_USV_STRING, place);
    fill_cell(reader, types::MAY_BE_NULL_SEQUENCE_TYPE, place);
    fill_cell(reader, types::MAY_BE_NULL_OBJECT, place);
    fill_cell(reader, types::MAY_BE_NULL_SYMBOL, place);
    fill_cell(reader, types::MAY_BE_NULL_ERROR, place);
}

#[inline(always)]
fn fill_from_272<C: Cell>(reader: &mut Reader<'_, C>, place: usize)
    requires within { place ≤ length reader.old.text }
    requires next { IsFilling reader.old reader.old.text place 272 }
    ensures { IsFilling reader.new reader.old.text place 280 }
{
    fill_cell(reader, types::MAY_BE_NULL_ARRAY_BUFFER, place);
    fill_cell(reader, types::MAY_BE_NULL_DATA_VIEW, place);
    fill_cell(reader, types::MAY_BE_NULL_INT8_ARRAY, place);
    fill_cell(reader, types::MAY_BE_NULL_INT16_ARRAY, place);
    fill_cell(reader, types::MAY_BE_NULL_INT32_ARRAY, place);
    fill_cell(reader, types::MAY_BE_NULL_UINT8_ARRAY, place);
    fill_cell(reader, types::MAY_BE_NULL_UINT16_ARRAY, place);
    fill_cell(reader, types::MAY_BE_NULL_UINT32_ARRAY, place);
}

#[inline(always)]
fn fill_from_280<C: Cell>(reader: &mut Reader<'_, C>, place: usize)
    requires within { place ≤ length reader.old.text }
    requires next { IsFilling reader.old reader.old.text place 280 }
    ensures { IsFilling reader.new reader.old.text place 288 }
{
    fill_cell(reader, types::MAY_BE_NULL_UINT8_CLAMPED_ARRAY, place);
    fill_cell(reader, types::MAY_BE_NULL_FLOAT32_ARRAY, place);
    fill_cell(reader, types::MAY_BE_NULL_FLOAT64_ARRAY, place);
    fill_cell(reader, types::MAY_BE_NULL_ARRAY_BUFFER_VIEW, place);
    fill_cell(reader, types::MAY_BE_NULL_BUFFER_SOURCE, place);
    fill_cell(reader, types::MAY_BE_NULL_FROZEN_ARRAY_TYPE, place);
    fill_cell(reader, types::MAY_BE_NULL_RECORD_TYPE, place);
    fill_cell(reader, types::NON_ANY_TYPE, place);
}

#[inline(always)]
fn fill_from_288<C: Cell>(reader: &mut Reader<'_, C>, place: usize)
    requires within { place ≤ length reader.old.text }
    requires next { IsFilling reader.old reader.old.text place 288 }
    ensures { IsFilling reader.new reader.old.text place 296 }
{
    fill_cell(reader, types::RECORD_KEY_TYPE, place);
    fill_cell(reader, types::RECORD_TYPES, place);
    fill_cell(reader, types::SINGLE_TYPE, place);
    fill_cell(reader, types::TYPE, place);
    fill_cell(reader, types::RETURN_TYPE, place);
    fill_cell(reader, types::EXTENDED_ATTRIBUTE_LIST, place);
    fill_cell(reader, types::OPT_EXTENDED_ATTRIBUTE_LIST, place);
    fill_cell(reader, types::ATTRIBUTED_TYPE, place);
}

#[inline(always)]
fn fill_from_296<C: Cell>(reader: &mut Reader<'_, C>, place: usize)
    requires within { place ≤ length reader.old.text }
    requires next { IsFilling reader.old reader.old.text place 296 }
    ensures { IsFilling reader.new reader.old.text place 304 }
{
    fill_cell(reader, types::ATTRIBUTED_NON_ANY_TYPE, place);
    fill_cell(reader, types::UNION_MEMBER_TYPE, place);
    fill_cell(reader, types::TAIL_UNION_MEMBER_TYPE_OR, place);
    fill_cell(reader, types::LIST_UNION_MEMBER_TYPE_OR, place);
    fill_cell(reader, types::OPT_OPTIONAL, place);
    fill_cell(reader, types::OPT_DEFAULT, place);
    fill_cell(reader, types::SINGLE_ARGUMENT, place);
    fill_cell(reader, types::VARIADIC_ARGUMENT, place);
}

#[inline(always)]
fn fill_from_304<C: Cell>(reader: &mut Reader<'_, C>, place: usize)
    requires within { place ≤ length reader.old.text }
    requires next { IsFilling reader.old reader.old.text place 304 }
    ensures { IsFilling reader.new reader.old.text place 312 }
{
    fill_cell(reader, types::ARGUMENT, place);
    fill_cell(reader, types::TAIL_ARGUMENT_COMMA, place);
    fill_cell(reader, types::ARGUMENT_LIST, place);
    fill_cell(reader, types::PARENTHESIZED_ARGUMENT_LIST, place);
    fill_cell(reader, types::EXTENDED_ATTRIBUTE_ARG_LIST, place);
    fill_cell(reader, types::EXTENDED_ATTRIBUTE_NAMED_ARG_LIST, place);
    fill_cell(reader, types::EXTENDED_ATTRIBUTE_IDENT_LIST, place);
    fill_cell(reader, types::IDENTIFIER_OR_STRING, place);
}

#[inline(always)]
fn fill_from_312<C: Cell>(reader: &mut Reader<'_, C>, place: usize)
    requires within { place ≤ length reader.old.text }
    requires next { IsFilling reader.old reader.old.text place 312 }
    ensures { IsFilling reader.new reader.old.text place 317 }
{
    fill_cell(reader, types::EXTENDED_ATTRIBUTE_IDENT, place);
    fill_cell(reader, types::EXTENDED_ATTRIBUTE_NO_ARGS, place);
    fill_cell(reader, types::EXTENDED_ATTRIBUTE, place);
    fill_cell(reader, types::TAIL_EXTENDED_ATTRIBUTE_COMMA, place);
    fill_cell(reader, types::LIST_EXTENDED_ATTRIBUTE_COMMA, place);
}
