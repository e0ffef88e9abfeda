//! Works out the cells of a place, section: Types that hold no other type, and lists of names.
//!
//! Written by tools/grammar.py, and not edited by hand.

ghost use Rattle.std.specs.Prelude.{◌≤◌, length};
ghost use Rattle.weedle_rules.specs.Filling.{IsFilling};

use crate::cell::Cell;
use crate::fill::fill_cell;
use crate::reader::Reader;
use weedle_grammar::grammar::simple_types;

/// Works out the cells of the rules from 235 to 255.
#[inline(always)]
pub(super) fn fill<C: Cell>(reader: &mut Reader<'_, C>, place: usize)
    requires within { place ≤ length reader.old.text }
    requires next { IsFilling reader.old reader.old.text place 235 }
    ensures { IsFilling reader.new reader.old.text place 256 }
{
    fill_from_235(reader, place);
    fill_from_243(reader, place);
    fill_from_251(reader, place);
}

#[inline(always)]
fn fill_from_235<C: Cell>(reader: &mut Reader<'_, C>, place: usize)
    requires within { place ≤ length reader.old.text }
    requires next { IsFilling reader.old reader.old.text place 235 }
    ensures { IsFilling reader.new reader.old.text place 243 }
{
    fill_cell(reader, simple_types::OPT_UNSIGNED, place);
    fill_cell(reader, simple_types::LONG_LONG, place);
    fill_cell(reader, simple_types::LONG_LONG_TYPE, place);
    fill_cell(reader, simple_types::LONG_TYPE, place);
    fill_cell(reader, simple_types::SHORT_TYPE, place);
    fill_cell(reader, simple_types::INTEGER_TYPE, place);
    fill_cell(reader, simple_types::OPT_UNRESTRICTED, place);
    fill_cell(reader, simple_types::FLOAT_TYPE, place);
}

#[inline(always)]
fn fill_from_243<C: Cell>(reader: &mut Reader<'_, C>, place: usize)
    requires within { place ≤ length reader.old.text }
    requires next { IsFilling reader.old reader.old.text place 243 }
    ensures { IsFilling reader.new reader.old.text place 251 }
{
    fill_cell(reader, simple_types::DOUBLE_TYPE, place);
    fill_cell(reader, simple_types::FLOATING_POINT_TYPE, place);
    fill_cell(reader, simple_types::OPT_Q_MARK, place);
    fill_cell(reader, simple_types::MAY_BE_NULL_INTEGER_TYPE, place);
    fill_cell(reader, simple_types::MAY_BE_NULL_FLOATING_POINT_TYPE, place);
    fill_cell(reader, simple_types::MAY_BE_NULL_BOOLEAN, place);
    fill_cell(reader, simple_types::MAY_BE_NULL_BYTE, place);
    fill_cell(reader, simple_types::MAY_BE_NULL_OCTET, place);
}

#[inline(always)]
fn fill_from_251<C: Cell>(reader: &mut Reader<'_, C>, place: usize)
    requires within { place ≤ length reader.old.text }
    requires next { IsFilling reader.old reader.old.text place 251 }
    ensures { IsFilling reader.new reader.old.text place 256 }
{
    fill_cell(reader, simple_types::MAY_BE_NULL_IDENTIFIER, place);
    fill_cell(reader, simple_types::CONST_TYPE, place);
    fill_cell(reader, simple_types::TAIL_IDENTIFIER_COMMA, place);
    fill_cell(reader, simple_types::IDENTIFIER_LIST, place);
    fill_cell(reader, simple_types::PARENTHESIZED_IDENTIFIER_LIST, place);
}
