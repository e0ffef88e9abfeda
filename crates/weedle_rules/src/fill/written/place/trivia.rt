//! Works out the cells of a place, section: Trivia: line comments, whitespace and block comments.
//!
//! Written by tools/grammar.py, and not edited by hand.

ghost use Rattle.std.specs.Prelude.{◌≤◌, length};
ghost use Rattle.weedle_rules.specs.Filling.{IsFilling};

use crate::cell::Cell;
use crate::fill::fill_cell;
use crate::reader::Reader;
use weedle_grammar::grammar::trivia;

/// Works out the cells of the rules from 0 to 14.
#[inline(always)]
pub(super) fn fill<C: Cell>(reader: &mut Reader<'_, C>, place: usize)
    requires within { place ≤ length reader.old.text }
    requires next { IsFilling reader.old reader.old.text place 0 }
    ensures { IsFilling reader.new reader.old.text place 15 }
{
    fill_from_0(reader, place);
    fill_from_8(reader, place);
}

#[inline(always)]
fn fill_from_0<C: Cell>(reader: &mut Reader<'_, C>, place: usize)
    requires within { place ≤ length reader.old.text }
    requires next { IsFilling reader.old reader.old.text place 0 }
    ensures { IsFilling reader.new reader.old.text place 8 }
{
    fill_cell(reader, trivia::BYTES_LF, place);
    fill_cell(reader, trivia::NOT_NEXT_ANY, place);
    fill_cell(reader, trivia::LINE_END, place);
    fill_cell(reader, trivia::BYTES_SLASH_SLASH, place);
    fill_cell(reader, trivia::NOT_NEXT_SLASH, place);
    fill_cell(reader, trivia::RUN_NOT_LINE_FEED, place);
    fill_cell(reader, trivia::LINE_COMMENT, place);
    fill_cell(reader, trivia::ONE_OF_BLANK, place);
}

#[inline(always)]
fn fill_from_8<C: Cell>(reader: &mut Reader<'_, C>, place: usize)
    requires within { place ≤ length reader.old.text }
    requires next { IsFilling reader.old reader.old.text place 8 }
    ensures { IsFilling reader.new reader.old.text place 15 }
{
    fill_cell(reader, trivia::RUN_BLANK, place);
    fill_cell(reader, trivia::BLANKS, place);
    fill_cell(reader, trivia::BYTES_SLASH_STAR, place);
    fill_cell(reader, trivia::PAST_STAR_SLASH, place);
    fill_cell(reader, trivia::BLOCK_COMMENT, place);
    fill_cell(reader, trivia::PIECE, place);
    fill_cell(reader, trivia::TRIVIA, place);
}
