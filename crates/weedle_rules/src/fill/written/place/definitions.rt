//! Works out the cells of a place, section: Definitions.
//!
//! Written by tools/grammar.py, and not edited by hand.

ghost use Rattle.std.specs.Prelude.{◌≤◌, length};
ghost use Rattle.weedle_rules.specs.Filling.{IsFilling};

use crate::cell::Cell;
use crate::fill::fill_cell;
use crate::reader::Reader;
use weedle_grammar::grammar::definitions;

/// Works out the cells of the rules from 370 to 385.
#[inline(always)]
pub(super) fn fill<C: Cell>(reader: &mut Reader<'_, C>, place: usize)
    requires within { place ≤ length reader.old.text }
    requires next { IsFilling reader.old reader.old.text place 370 }
    ensures { IsFilling reader.new reader.old.text place 386 }
{
    fill_from_370(reader, place);
    fill_from_378(reader, place);
}

#[inline(always)]
fn fill_from_370<C: Cell>(reader: &mut Reader<'_, C>, place: usize)
    requires within { place ≤ length reader.old.text }
    requires next { IsFilling reader.old reader.old.text place 370 }
    ensures { IsFilling reader.new reader.old.text place 378 }
{
    fill_cell(reader, definitions::CALLBACK_DEFINITION, place);
    fill_cell(reader, definitions::CALLBACK_INTERFACE_DEFINITION, place);
    fill_cell(reader, definitions::INTERFACE_DEFINITION, place);
    fill_cell(reader, definitions::INTERFACE_MIXIN_DEFINITION, place);
    fill_cell(reader, definitions::NAMESPACE_DEFINITION, place);
    fill_cell(reader, definitions::DICTIONARY_DEFINITION, place);
    fill_cell(reader, definitions::PARTIAL_INTERFACE_DEFINITION, place);
    fill_cell(
        reader,
        definitions::PARTIAL_INTERFACE_MIXIN_DEFINITION,
        place,
    );
}

#[inline(always)]
fn fill_from_378<C: Cell>(reader: &mut Reader<'_, C>, place: usize)
    requires within { place ≤ length reader.old.text }
    requires next { IsFilling reader.old reader.old.text place 378 }
    ensures { IsFilling reader.new reader.old.text place 386 }
{
    fill_cell(reader, definitions::PARTIAL_DICTIONARY_DEFINITION, place);
    fill_cell(reader, definitions::PARTIAL_NAMESPACE_DEFINITION, place);
    fill_cell(reader, definitions::ENUM_DEFINITION, place);
    fill_cell(reader, definitions::TYPEDEF_DEFINITION, place);
    fill_cell(reader, definitions::INCLUDES_STATEMENT_DEFINITION, place);
    fill_cell(reader, definitions::IMPLEMENTS_DEFINITION, place);
    fill_cell(reader, definitions::DEFINITION, place);
    fill_cell(reader, definitions::DEFINITIONS, place);
}
