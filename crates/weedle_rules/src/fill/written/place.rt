//! Works out the cells of one place, section by section.
//!
//! Written by tools/grammar.py, and not edited by hand.

ghost use Rattle.std.specs.Prelude.{◌≤◌, ◌+◌, ◌-◌, ◌*◌, length};
ghost use Rattle.weedle_grammar.specs.written.Bound.{table_count};
ghost use Rattle.weedle_rules.specs.Filling.{IsFilled};

use crate::cell::Cell;
use crate::reader::Reader;

mod capitalized_keywords;
mod definitions;
mod interface_members;
mod keywords;
mod leaves;
mod literals;
mod other_members;
mod simple_types;
mod symbols;
mod trivia;
mod types;

/// Works out the cells of weedle2's rules at a place, where all behind it are known.
#[inline(always)]
pub(crate) fn fill_place<C: Cell>(reader: &mut Reader<'_, C>, place: usize)
    requires within { place ≤ length reader.old.text }
    requires next { IsFilled reader.old reader.old.text
        ((length reader.old.text - place) * table_count) }
    ensures { IsFilled reader.new reader.old.text
        ((length reader.old.text - place) * table_count + table_count) }
{
    reader.lay();
    trivia::fill(reader, place);
    symbols::fill(reader, place);
    keywords::fill(reader, place);
    capitalized_keywords::fill(reader, place);
    leaves::fill(reader, place);
    literals::fill(reader, place);
    simple_types::fill(reader, place);
    types::fill(reader, place);
    interface_members::fill(reader, place);
    other_members::fill(reader, place);
    definitions::fill(reader, place);
}
