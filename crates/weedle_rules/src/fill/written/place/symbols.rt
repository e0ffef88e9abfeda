//! Works out the cells of a place, section: Symbols: trivia, the symbol's bytes, trivia.
//!
//! Written by tools/grammar.py, and not edited by hand.

ghost use Rattle.std.specs.Prelude.{◌≤◌, length};
ghost use Rattle.weedle_rules.specs.Filling.{IsFilling};

use crate::cell::Cell;
use crate::fill::fill_cell;
use crate::reader::Reader;
use weedle_grammar::grammar::symbols;

/// Works out the cells of the rules from 15 to 46.
#[inline(always)]
pub(super) fn fill<C: Cell>(reader: &mut Reader<'_, C>, place: usize)
    requires within { place ≤ length reader.old.text }
    requires next { IsFilling reader.old reader.old.text place 15 }
    ensures { IsFilling reader.new reader.old.text place 47 }
{
    fill_from_15(reader, place);
    fill_from_23(reader, place);
    fill_from_31(reader, place);
    fill_from_39(reader, place);
}

#[inline(always)]
fn fill_from_15<C: Cell>(reader: &mut Reader<'_, C>, place: usize)
    requires within { place ≤ length reader.old.text }
    requires next { IsFilling reader.old reader.old.text place 15 }
    ensures { IsFilling reader.new reader.old.text place 23 }
{
    fill_cell(reader, symbols::BYTES_OPEN_PAREN, place);
    fill_cell(reader, symbols::OPEN_PAREN, place);
    fill_cell(reader, symbols::BYTES_CLOSE_PAREN, place);
    fill_cell(reader, symbols::CLOSE_PAREN, place);
    fill_cell(reader, symbols::BYTES_OPEN_BRACKET, place);
    fill_cell(reader, symbols::OPEN_BRACKET, place);
    fill_cell(reader, symbols::BYTES_CLOSE_BRACKET, place);
    fill_cell(reader, symbols::CLOSE_BRACKET, place);
}

#[inline(always)]
fn fill_from_23<C: Cell>(reader: &mut Reader<'_, C>, place: usize)
    requires within { place ≤ length reader.old.text }
    requires next { IsFilling reader.old reader.old.text place 23 }
    ensures { IsFilling reader.new reader.old.text place 31 }
{
    fill_cell(reader, symbols::BYTES_OPEN_BRACE, place);
    fill_cell(reader, symbols::OPEN_BRACE, place);
    fill_cell(reader, symbols::BYTES_CLOSE_BRACE, place);
    fill_cell(reader, symbols::CLOSE_BRACE, place);
    fill_cell(reader, symbols::BYTES_COMMA, place);
    fill_cell(reader, symbols::COMMA, place);
    fill_cell(reader, symbols::BYTES_MINUS, place);
    fill_cell(reader, symbols::MINUS, place);
}

#[inline(always)]
fn fill_from_31<C: Cell>(reader: &mut Reader<'_, C>, place: usize)
    requires within { place ≤ length reader.old.text }
    requires next { IsFilling reader.old reader.old.text place 31 }
    ensures { IsFilling reader.new reader.old.text place 39 }
{
    fill_cell(reader, symbols::BYTES_DOT, place);
    fill_cell(reader, symbols::DOT, place);
    fill_cell(reader, symbols::BYTES_ELLIPSIS, place);
    fill_cell(reader, symbols::ELLIPSIS, place);
    fill_cell(reader, symbols::BYTES_COLON, place);
    fill_cell(reader, symbols::COLON, place);
    fill_cell(reader, symbols::BYTES_SEMI_COLON, place);
    fill_cell(reader, symbols::SEMI_COLON, place);
}

#[inline(always)]
fn fill_from_39<C: Cell>(reader: &mut Reader<'_, C>, place: usize)
    requires within { place ≤ length reader.old.text }
    requires next { IsFilling reader.old reader.old.text place 39 }
    ensures { IsFilling reader.new reader.old.text place 47 }
{
    fill_cell(reader, symbols::BYTES_LESS_THAN, place);
    fill_cell(reader, symbols::LESS_THAN, place);
    fill_cell(reader, symbols::BYTES_ASSIGN, place);
    fill_cell(reader, symbols::ASSIGN, place);
    fill_cell(reader, symbols::BYTES_GREATER_THAN, place);
    fill_cell(reader, symbols::GREATER_THAN, place);
    fill_cell(reader, symbols::BYTES_Q_MARK, place);
    fill_cell(reader, symbols::Q_MARK, place);
}
