//! Works out the cells of a place, section: Literals and default values.
//!
//! Written by tools/grammar.py, and not edited by hand.

ghost use Rattle.std.specs.Prelude.{◌≤◌, length};
ghost use Rattle.weedle_rules.specs.Filling.{IsFilling};

use crate::cell::Cell;
use crate::fill::fill_cell;
use crate::reader::Reader;
use weedle_grammar::grammar::literals;

/// Works out the cells of the rules from 227 to 234.
#[inline(always)]
pub(super) fn fill<C: Cell>(reader: &mut Reader<'_, C>, place: usize)
    requires within { place ≤ length reader.old.text }
    requires next { IsFilling reader.old reader.old.text place 227 }
    ensures { IsFilling reader.new reader.old.text place 235 }
{
    fill_from_227(reader, place);
}

#[inline(always)]
fn fill_from_227<C: Cell>(reader: &mut Reader<'_, C>, place: usize)
    requires within { place ≤ length reader.old.text }
    requires next { IsFilling reader.old reader.old.text place 227 }
    ensures { IsFilling reader.new reader.old.text place 235 }
{
    fill_cell(reader, literals::BOOLEAN_LIT, place);
    fill_cell(reader, literals::INTEGER_LIT, place);
    fill_cell(reader, literals::FLOAT_LIT, place);
    fill_cell(reader, literals::EMPTY_ARRAY_LIT, place);
    fill_cell(reader, literals::EMPTY_DICTIONARY_LIT, place);
    fill_cell(reader, literals::DEFAULT_VALUE, place);
    fill_cell(reader, literals::CONST_VALUE, place);
    fill_cell(reader, literals::DEFAULT, place);
}
