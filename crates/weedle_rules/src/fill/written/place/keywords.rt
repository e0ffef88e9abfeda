//! Works out the cells of a place, section: Keywords in lower case: trivia, the keyword's bytes
//! with no name character next, trivia.
//!
//! Written by tools/grammar.py, and not edited by hand.

ghost use Rattle.std.specs.Prelude.{◌≤◌, length};
ghost use Rattle.weedle_rules.specs.Filling.{IsFilling};

use crate::cell::Cell;
use crate::fill::fill_cell;
use crate::reader::Reader;
use weedle_grammar::grammar::keywords;

/// Works out the cells of the rules from 47 to 139.
#[inline(always)]
pub(super) fn fill<C: Cell>(reader: &mut Reader<'_, C>, place: usize)
    requires within { place ≤ length reader.old.text }
    requires next { IsFilling reader.old reader.old.text place 47 }
    ensures { IsFilling reader.new reader.old.text place 140 }
{
    fill_from_47(reader, place);
    fill_from_55(reader, place);
    fill_from_63(reader, place);
    fill_from_71(reader, place);
    fill_from_79(reader, place);
    fill_from_87(reader, place);
    fill_from_95(reader, place);
    fill_from_103(reader, place);
    fill_from_111(reader, place);
    fill_from_119(reader, place);
    fill_from_127(reader, place);
    fill_from_135(reader, place);
}

#[inline(always)]
fn fill_from_47<C: Cell>(reader: &mut Reader<'_, C>, place: usize)
    requires within { place ≤ length reader.old.text }
    requires next { IsFilling reader.old reader.old.text place 47 }
    ensures { IsFilling reader.new reader.old.text place 55 }
{
    fill_cell(reader, keywords::BYTES_OR, place);
    fill_cell(reader, keywords::NOT_NEXT_NAME, place);
    fill_cell(reader, keywords::OR, place);
    fill_cell(reader, keywords::BYTES_OPTIONAL, place);
    fill_cell(reader, keywords::OPTIONAL, place);
    fill_cell(reader, keywords::BYTES_ASYNC, place);
    fill_cell(reader, keywords::ASYNC, place);
    fill_cell(reader, keywords::BYTES_ATTRIBUTE, place);
}

#[inline(always)]
fn fill_from_55<C: Cell>(reader: &mut Reader<'_, C>, place: usize)
    requires within { place ≤ length reader.old.text }
    requires next { IsFilling reader.old reader.old.text place 55 }
    ensures { IsFilling reader.new reader.old.text place 63 }
{
    fill_cell(reader, keywords::ATTRIBUTE, place);
    fill_cell(reader, keywords::BYTES_CALLBACK, place);
    fill_cell(reader, keywords::CALLBACK, place);
    fill_cell(reader, keywords::BYTES_CONST, place);
    fill_cell(reader, keywords::CONST, place);
    fill_cell(reader, keywords::BYTES_DELETER, place);
    fill_cell(reader, keywords::DELETER, place);
    fill_cell(reader, keywords::BYTES_DICTIONARY, place);
}

#[inline(always)]
fn fill_from_63<C: Cell>(reader: &mut Reader<'_, C>, place: usize)
    requires within { place ≤ length reader.old.text }
    requires next { IsFilling reader.old reader.old.text place 63 }
    ensures { IsFilling reader.new reader.old.text place 71 }
{
    fill_cell(reader, keywords::DICTIONARY, place);
    fill_cell(reader, keywords::BYTES_ENUM, place);
    fill_cell(reader, keywords::ENUM, place);
    fill_cell(reader, keywords::BYTES_GETTER, place);
    fill_cell(reader, keywords::GETTER, place);
    fill_cell(reader, keywords::BYTES_INCLUDES, place);
    fill_cell(reader, keywords::INCLUDES, place);
    fill_cell(reader, keywords::BYTES_INHERIT, place);
}

#[inline(always)]
fn fill_from_71<C: Cell>(reader: &mut Reader<'_, C>, place: usize)
    requires within { place ≤ length reader.old.text }
    requires next { IsFilling reader.old reader.old.text place 71 }
    ensures { IsFilling reader.new reader.old.text place 79 }
{
    fill_cell(reader, keywords::INHERIT, place);
    fill_cell(reader, keywords::BYTES_INTERFACE, place);
    fill_cell(reader, keywords::INTERFACE, place);
    fill_cell(reader, keywords::BYTES_ITERABLE, place);
    fill_cell(reader, keywords::ITERABLE, place);
    fill_cell(reader, keywords::BYTES_MAPLIKE, place);
    fill_cell(reader, keywords::MAPLIKE, place);
    fill_cell(reader, keywords::BYTES_NAMESPACE, place);
}

#[inline(always)]
fn fill_from_79<C: Cell>(reader: &mut Reader<'_, C>, place: usize)
    requires within { place ≤ length reader.old.text }
    requires next { IsFilling reader.old reader.old.text place 79 }
    ensures { IsFilling reader.new reader.old.text place 87 }
{
    fill_cell(reader, keywords::NAMESPACE, place);
    fill_cell(reader, keywords::BYTES_PARTIAL, place);
    fill_cell(reader, keywords::PARTIAL, place);
    fill_cell(reader, keywords::BYTES_REQUIRED, place);
    fill_cell(reader, keywords::REQUIRED, place);
    fill_cell(reader, keywords::BYTES_SETLIKE, place);
    fill_cell(reader, keywords::SETLIKE, place);
    fill_cell(reader, keywords::BYTES_SETTER, place);
}

#[inline(always)]
fn fill_from_87<C: Cell>(reader: &mut Reader<'_, C>, place: usize)
    requires within { place ≤ length reader.old.text }
    requires next { IsFilling reader.old reader.old.text place 87 }
    ensures { IsFilling reader.new reader.old.text place 95 }
{
    fill_cell(reader, keywords::SETTER, place);
    fill_cell(reader, keywords::BYTES_STATIC, place);
    fill_cell(reader, keywords::STATIC, place);
    fill_cell(reader, keywords::BYTES_STRINGIFIER, place);
    fill_cell(reader, keywords::STRINGIFIER, place);
    fill_cell(reader, keywords::BYTES_TYPEDEF, place);
    fill_cell(reader, keywords::TYPEDEF, place);
    fill_cell(reader, keywords::BYTES_UNRESTRICTED, place);
}

#[inline(always)]
fn fill_from_95<C: Cell>(reader: &mut Reader<'_, C>, place: usize)
    requires within { place ≤ length reader.old.text }
    requires next { IsFilling reader.old reader.old.text place 95 }
    ensures { IsFilling reader.new reader.old.text place 103 }
{
    fill_cell(reader, keywords::UNRESTRICTED, place);
    fill_cell(reader, keywords::BYTES_SYMBOL, place);
    fill_cell(reader, keywords::SYMBOL, place);
    fill_cell(reader, keywords::BYTES_ANY, place);
    fill_cell(reader, keywords::ANY, place);
    fill_cell(reader, keywords::BYTES_BOOLEAN, place);
    fill_cell(reader, keywords::BOOLEAN, place);
    fill_cell(reader, keywords::BYTES_BYTE, place);
}

#[inline(always)]
fn fill_from_103<C: Cell>(reader: &mut Reader<'_, C>, place: usize)
    requires within { place ≤ length reader.old.text }
    requires next { IsFilling reader.old reader.old.text place 103 }
    ensures { IsFilling reader.new reader.old.text place 111 }
{
    fill_cell(reader, keywords::BYTE, place);
    fill_cell(reader, keywords::BYTES_DOUBLE, place);
    fill_cell(reader, keywords::DOUBLE, place);
    fill_cell(reader, keywords::BYTES_FALSE, place);
    fill_cell(reader, keywords::FALSE, place);
    fill_cell(reader, keywords::BYTES_FLOAT, place);
    fill_cell(reader, keywords::FLOAT, place);
    fill_cell(reader, keywords::BYTES_LONG, place);
}

#[inline(always)]
fn fill_from_111<C: Cell>(reader: &mut Reader<'_, C>, place: usize)
    requires within { place ≤ length reader.old.text }
    requires next { IsFilling reader.old reader.old.text place 111 }
    ensures { IsFilling reader.new reader.old.text place 119 }
{
    fill_cell(reader, keywords::LONG, place);
    fill_cell(reader, keywords::BYTES_NULL, place);
    fill_cell(reader, keywords::NULL, place);
    fill_cell(reader, keywords::BYTES_OBJECT, place);
    fill_cell(reader, keywords::OBJECT, place);
    fill_cell(reader, keywords::BYTES_OCTET, place);
    fill_cell(reader, keywords::OCTET, place);
    fill_cell(reader, keywords::BYTES_SEQUENCE, place);
}

#[inline(always)]
fn fill_from_119<C: Cell>(reader: &mut Reader<'_, C>, place: usize)
    requires within { place ≤ length reader.old.text }
    requires next { IsFilling reader.old reader.old.text place 119 }
    ensures { IsFilling reader.new reader.old.text place 127 }
{
    fill_cell(reader, keywords::SEQUENCE, place);
    fill_cell(reader, keywords::BYTES_SHORT, place);
    fill_cell(reader, keywords::SHORT, place);
    fill_cell(reader, keywords::BYTES_TRUE, place);
    fill_cell(reader, keywords::TRUE, place);
    fill_cell(reader, keywords::BYTES_UNSIGNED, place);
    fill_cell(reader, keywords::UNSIGNED, place);
    fill_cell(reader, keywords::BYTES_UNDEFINED, place);
}

#[inline(always)]
fn fill_from_127<C: Cell>(reader: &mut Reader<'_, C>, place: usize)
    requires within { place ≤ length reader.old.text }
    requires next { IsFilling reader.old reader.old.text place 127 }
    ensures { IsFilling reader.new reader.old.text place 135 }
{
    fill_cell(reader, keywords::UNDEFINED, place);
    fill_cell(reader, keywords::BYTES_RECORD, place);
    fill_cell(reader, keywords::RECORD, place);
    fill_cell(reader, keywords::BYTES_READ_ONLY, place);
    fill_cell(reader, keywords::READ_ONLY, place);
    fill_cell(reader, keywords::BYTES_MIXIN, place);
    fill_cell(reader, keywords::MIXIN, place);
    fill_cell(reader, keywords::BYTES_IMPLEMENTS, place);
}

#[inline(always)]
fn fill_from_135<C: Cell>(reader: &mut Reader<'_, C>, place: usize)
    requires within { place ≤ length reader.old.text }
    requires next { IsFilling reader.old reader.old.text place 135 }
    ensures { IsFilling reader.new reader.old.text place 140 }
{
    fill_cell(reader, keywords::IMPLEMENTS, place);
    fill_cell(reader, keywords::BYTES_LEGACY_CALLER, place);
    fill_cell(reader, keywords::LEGACY_CALLER, place);
    fill_cell(reader, keywords::BYTES_CONSTRUCTOR, place);
    fill_cell(reader, keywords::CONSTRUCTOR, place);
}
