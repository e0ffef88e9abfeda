//! Works out the cells of a place, section: Members of interfaces.
//!
//! Written by tools/grammar.py, and not edited by hand.

ghost use Rattle.std.specs.Prelude.{◌≤◌, length};
ghost use Rattle.weedle_rules.specs.Filling.{IsFilling};

use crate::cell::Cell;
use crate::fill::fill_cell;
use crate::reader::Reader;
use weedle_grammar::grammar::interface_members;

/// Works out the cells of the rules from 317 to 348.
#[inline(always)]
pub(super) fn fill<C: Cell>(reader: &mut Reader<'_, C>, place: usize)
    requires within { place ≤ length reader.old.text }
    requires next { IsFilling reader.old reader.old.text place 317 }
    ensures { IsFilling reader.new reader.old.text place 349 }
{
    fill_from_317(reader, place);
    fill_from_325(reader, place);
    fill_from_333(reader, place);
    fill_from_341(reader, place);
}

#[inline(always)]
fn fill_from_317<C: Cell>(reader: &mut Reader<'_, C>, place: usize)
    requires within { place ≤ length reader.old.text }
    requires next { IsFilling reader.old reader.old.text place 317 }
    ensures { IsFilling reader.new reader.old.text place 325 }
{
    fill_cell(reader, interface_members::OPT_DOCSTRING, place);
    fill_cell(reader, interface_members::OPT_IDENTIFIER, place);
    fill_cell(reader, interface_members::OPT_READ_ONLY, place);
    fill_cell(reader, interface_members::KEY_AND_VALUE_TYPES, place);
    fill_cell(reader, interface_members::GENERICS_ATTRIBUTED_TYPE, place);
    fill_cell(
        reader,
        interface_members::GENERICS_KEY_AND_VALUE_TYPES,
        place,
    );
    fill_cell(reader, interface_members::INHERITANCE, place);
    fill_cell(reader, interface_members::OPT_INHERITANCE, place);
}

#[inline(always)]
fn fill_from_325<C: Cell>(reader: &mut Reader<'_, C>, place: usize)
    requires within { place ≤ length reader.old.text }
    requires next { IsFilling reader.old reader.old.text place 325 }
    ensures { IsFilling reader.new reader.old.text place 333 }
{
    fill_cell(reader, interface_members::SPECIAL, place);
    fill_cell(reader, interface_members::OPT_SPECIAL, place);
    fill_cell(
        reader,
        interface_members::STRINGIFIER_OR_INHERIT_OR_STATIC,
        place,
    );
    fill_cell(
        reader,
        interface_members::OPT_STRINGIFIER_OR_INHERIT_OR_STATIC,
        place,
    );
    fill_cell(reader, interface_members::STRINGIFIER_OR_STATIC, place);
    fill_cell(reader, interface_members::OPT_STRINGIFIER_OR_STATIC, place);
    fill_cell(reader, interface_members::CONST_MEMBER, place);
    fill_cell(reader, interface_members::ATTRIBUTE_INTERFACE_MEMBER, place);
}

#[inline(always)]
fn fill_from_333<C: Cell>(reader: &mut Reader<'_, C>, place: usize)
    requires within { place ≤ length reader.old.text }
    requires next { IsFilling reader.old reader.old.text place 333 }
    ensures { IsFilling reader.new reader.old.text place 341 }
{
    fill_cell(
        reader,
        interface_members::CONSTRUCTOR_INTERFACE_MEMBER,
        place,
    );
    fill_cell(reader, interface_members::OPERATION_INTERFACE_MEMBER, place);
    fill_cell(reader, interface_members::SINGLE_TYPED_ITERABLE, place);
    fill_cell(reader, interface_members::DOUBLE_TYPED_ITERABLE, place);
    fill_cell(reader, interface_members::ITERABLE_INTERFACE_MEMBER, place);
    fill_cell(reader, interface_members::ASYNC_ITERABLE, place);
    fill_cell(
        reader,
        interface_members::OPT_PARENTHESIZED_ARGUMENT_LIST,
        place,
    );
    fill_cell(
        reader,
        interface_members::SINGLE_TYPED_ASYNC_ITERABLE,
        place,
    );
}

#[inline(always)]
fn fill_from_341<C: Cell>(reader: &mut Reader<'_, C>, place: usize)
    requires within { place ≤ length reader.old.text }
    requires next { IsFilling reader.old reader.old.text place 341 }
    ensures { IsFilling reader.new reader.old.text place 349 }
{
    fill_cell(
        reader,
        interface_members::DOUBLE_TYPED_ASYNC_ITERABLE,
        place,
    );
    fill_cell(
        reader,
        interface_members::ASYNC_ITERABLE_INTERFACE_MEMBER,
        place,
    );
    fill_cell(reader, interface_members::MAPLIKE_INTERFACE_MEMBER, place);
    fill_cell(reader, interface_members::SETLIKE_INTERFACE_MEMBER, place);
    fill_cell(reader, interface_members::STRINGIFIER_MEMBER, place);
    fill_cell(reader, interface_members::INTERFACE_MEMBER, place);
    fill_cell(reader, interface_members::INTERFACE_MEMBERS, place);
    fill_cell(reader, interface_members::BRACED_INTERFACE_MEMBERS, place);
}
