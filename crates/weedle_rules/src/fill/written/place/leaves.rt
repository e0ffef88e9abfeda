//! Works out the cells of a place, section: Leaves: names, numbers, strings and docstrings.
//!
//! Written by tools/grammar.py, and not edited by hand.

ghost use Rattle.std.specs.Prelude.{◌≤◌, length};
ghost use Rattle.weedle_rules.specs.Filling.{IsFilling};

use crate::cell::Cell;
use crate::fill::fill_cell;
use crate::reader::Reader;
use weedle_grammar::grammar::leaves;

/// Works out the cells of the rules from 184 to 226.
#[inline(always)]
pub(super) fn fill<C: Cell>(reader: &mut Reader<'_, C>, place: usize)
    requires within { place ≤ length reader.old.text }
    requires next { IsFilling reader.old reader.old.text place 184 }
    ensures { IsFilling reader.new reader.old.text place 227 }
{
    fill_from_184(reader, place);
    fill_from_192(reader, place);
    fill_from_200(reader, place);
    fill_from_208(reader, place);
    fill_from_216(reader, place);
    fill_from_224(reader, place);
}

#[inline(always)]
fn fill_from_184<C: Cell>(reader: &mut Reader<'_, C>, place: usize)
    requires within { place ≤ length reader.old.text }
    requires next { IsFilling reader.old reader.old.text place 184 }
    ensures { IsFilling reader.new reader.old.text place 192 }
{
    fill_cell(reader, leaves::BYTES_UNDERSCORE, place);
    fill_cell(reader, leaves::OPT_BYTES_UNDERSCORE, place);
    fill_cell(reader, leaves::ONE_OF_LETTER, place);
    fill_cell(reader, leaves::RUN_NAME, place);
    fill_cell(reader, leaves::IDENTIFIER_TEXT, place);
    fill_cell(reader, leaves::IDENTIFIER, place);
    fill_cell(reader, leaves::OPT_BYTES_MINUS, place);
    fill_cell(reader, leaves::ONE_OF_ONE_TO_NINE, place);
}

#[inline(always)]
fn fill_from_192<C: Cell>(reader: &mut Reader<'_, C>, place: usize)
    requires within { place ≤ length reader.old.text }
    requires next { IsFilling reader.old reader.old.text place 192 }
    ensures { IsFilling reader.new reader.old.text place 200 }
{
    fill_cell(reader, leaves::RUN_DIGIT, place);
    fill_cell(reader, leaves::DEC_LIT_TEXT, place);
    fill_cell(reader, leaves::DEC_LIT, place);
    fill_cell(reader, leaves::BYTES_ZERO, place);
    fill_cell(reader, leaves::ONE_OF_X_LETTER, place);
    fill_cell(reader, leaves::ONE_OF_HEX, place);
    fill_cell(reader, leaves::RUN_HEX, place);
    fill_cell(reader, leaves::HEX_LIT_TEXT, place);
}

#[inline(always)]
fn fill_from_200<C: Cell>(reader: &mut Reader<'_, C>, place: usize)
    requires within { place ≤ length reader.old.text }
    requires next { IsFilling reader.old reader.old.text place 200 }
    ensures { IsFilling reader.new reader.old.text place 208 }
{
    fill_cell(reader, leaves::HEX_LIT, place);
    fill_cell(reader, leaves::RUN_OCTAL, place);
    fill_cell(reader, leaves::OCT_LIT_TEXT, place);
    fill_cell(reader, leaves::OCT_LIT, place);
    fill_cell(reader, leaves::ONE_OF_DIGIT, place);
    fill_cell(reader, leaves::DIGITS, place);
    fill_cell(reader, leaves::ONE_OF_E_LETTER, place);
    fill_cell(reader, leaves::ONE_OF_SIGN, place);
}

#[inline(always)]
fn fill_from_208<C: Cell>(reader: &mut Reader<'_, C>, place: usize)
    requires within { place ≤ length reader.old.text }
    requires next { IsFilling reader.old reader.old.text place 208 }
    ensures { IsFilling reader.new reader.old.text place 216 }
{
    fill_cell(reader, leaves::OPT_ONE_OF_SIGN, place);
    fill_cell(reader, leaves::EXPONENT, place);
    fill_cell(reader, leaves::POINT_AFTER_DIGITS, place);
    fill_cell(reader, leaves::POINT_BEFORE_DIGITS, place);
    fill_cell(reader, leaves::POINT, place);
    fill_cell(reader, leaves::OPT_EXPONENT, place);
    fill_cell(reader, leaves::POINT_FORM, place);
    fill_cell(reader, leaves::EXPONENT_FORM, place);
}

#[inline(always)]
fn fill_from_216<C: Cell>(reader: &mut Reader<'_, C>, place: usize)
    requires within { place ≤ length reader.old.text }
    requires next { IsFilling reader.old reader.old.text place 216 }
    ensures { IsFilling reader.new reader.old.text place 224 }
{
    fill_cell(reader, leaves::FLOAT_FORM, place);
    fill_cell(reader, leaves::FLOAT_VALUE_LIT_TEXT, place);
    fill_cell(reader, leaves::FLOAT_VALUE_LIT, place);
    fill_cell(reader, leaves::BYTES_QUOTE, place);
    fill_cell(reader, leaves::RUN_NOT_QUOTE, place);
    fill_cell(reader, leaves::STRING_LIT, place);
    fill_cell(reader, leaves::BYTES_THREE_SLASHES, place);
    fill_cell(reader, leaves::PAST_LF, place);
}

#[inline(always)]
fn fill_from_224<C: Cell>(reader: &mut Reader<'_, C>, place: usize)
    requires within { place ≤ length reader.old.text }
    requires next { IsFilling reader.old reader.old.text place 224 }
    ensures { IsFilling reader.new reader.old.text place 227 }
{
    fill_cell(reader, leaves::DOC_LINE, place);
    fill_cell(reader, leaves::MANY_DOC_LINE, place);
    fill_cell(reader, leaves::DOCSTRING, place);
}
