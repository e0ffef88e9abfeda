//! Works out the cells of a place, section: Members of mixins, namespaces and dictionaries, and the
//! values of an enum.
//!
//! Written by tools/grammar.py, and not edited by hand.

ghost use Rattle.std.specs.Prelude.{◌≤◌, length};
ghost use Rattle.weedle_rules.specs.Filling.{IsFilling};

use crate::cell::Cell;
use crate::fill::fill_cell;
use crate::reader::Reader;
use weedle_grammar::grammar::other_members;

/// Works out the cells of the rules from 349 to 369.
#[inline(always)]
pub(super) fn fill<C: Cell>(reader: &mut Reader<'_, C>, place: usize)
    requires within { place ≤ length reader.old.text }
    requires next { IsFilling reader.old reader.old.text place 349 }
    ensures { IsFilling reader.new reader.old.text place 370 }
{
    fill_from_349(reader, place);
    fill_from_357(reader, place);
    fill_from_365(reader, place);
}

#[inline(always)]
fn fill_from_349<C: Cell>(reader: &mut Reader<'_, C>, place: usize)
    requires within { place ≤ length reader.old.text }
    requires next { IsFilling reader.old reader.old.text place 349 }
    ensures { IsFilling reader.new reader.old.text place 357 }
{
    fill_cell(reader, other_members::OPT_STRINGIFIER, place);
    fill_cell(reader, other_members::OPERATION_MIXIN_MEMBER, place);
    fill_cell(reader, other_members::ATTRIBUTE_MIXIN_MEMBER, place);
    fill_cell(reader, other_members::MIXIN_MEMBER, place);
    fill_cell(reader, other_members::MIXIN_MEMBERS, place);
    fill_cell(reader, other_members::BRACED_MIXIN_MEMBERS, place);
    fill_cell(reader, other_members::OPERATION_NAMESPACE_MEMBER, place);
    fill_cell(reader, other_members::ATTRIBUTE_NAMESPACE_MEMBER, place);
}

#[inline(always)]
fn fill_from_357<C: Cell>(reader: &mut Reader<'_, C>, place: usize)
    requires within { place ≤ length reader.old.text }
    requires next { IsFilling reader.old reader.old.text place 357 }
    ensures { IsFilling reader.new reader.old.text place 365 }
{
    fill_cell(reader, other_members::NAMESPACE_MEMBER, place);
    fill_cell(reader, other_members::NAMESPACE_MEMBERS, place);
    fill_cell(reader, other_members::BRACED_NAMESPACE_MEMBERS, place);
    fill_cell(reader, other_members::OPT_REQUIRED, place);
    fill_cell(reader, other_members::DICTIONARY_MEMBER, place);
    fill_cell(reader, other_members::DICTIONARY_MEMBERS, place);
    fill_cell(reader, other_members::BRACED_DICTIONARY_MEMBERS, place);
    fill_cell(reader, other_members::ENUM_VARIANT, place);
}

#[inline(always)]
fn fill_from_365<C: Cell>(reader: &mut Reader<'_, C>, place: usize)
    requires within { place ≤ length reader.old.text }
    requires next { IsFilling reader.old reader.old.text place 365 }
    ensures { IsFilling reader.new reader.old.text place 370 }
{
    fill_cell(reader, other_members::TAIL_ENUM_VARIANT_COMMA, place);
    fill_cell(reader, other_members::LIST1_ENUM_VARIANT_COMMA, place);
    fill_cell(reader, other_members::OPT_COMMA, place);
    fill_cell(reader, other_members::ENUM_VALUE_LIST, place);
    fill_cell(reader, other_members::BRACED_ENUM_VALUE_LIST, place);
}
