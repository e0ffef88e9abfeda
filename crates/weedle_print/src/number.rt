//! Numbers.

ghost use Rattle.std.specs.Prelude.{◌≡◌, IsTrue, OnOk, string_bytes};
ghost use Rattle.weedle_spell.specs.Leaves.{
  dec_spelling,
  hex_spelling,
  oct_spelling,
  float_value_spelling,
};
ghost use Rattle.weedle_spell.specs.Tokens.{
  word as the_word,
  decimal,
  hexadecimal,
  octal,
  floating,
};
ghost use Rattle.weedle_print.specs.Adds.{Adds};
ghost use Rattle.weedle_print.specs.Apart.{apart as the_apart, begins_as_name, ends_as_name};

use crate::error::PrintError;
use crate::layout::Layout;
use crate::print::Print;
use crate::texts::{push, space};
use std::alloc::Global;
use weedle_base::Parse;
use weedle_parts::literal::{DecLit, FloatValueLit, HexLit, OctLit};

/// Writes a number as it is kept, behind a space or a line end at least, where it would go on with
/// the word before.
#[tactic(auto, using(crate::proofs::AddsFacts::adds_word, crate::proofs::ApartFacts::apart_word))]
fn push_number(out: &mut String, layout: &mut Layout, text: &str) -> Result<(), PrintError>
    ensures adds { OnOk result
        (Adds (the_word text.now) (string_bytes out.old) (string_bytes out.new)) }
    ensures apart { IsTrue layout.old.is_in_name → IsTrue (begins_as_name text.now)
        → OnOk result (Adds (the_apart text.now) (string_bytes out.old) (string_bytes out.new)) }
    ensures ends { OnOk result (layout.new.is_in_name ≡ ends_as_name text.now) }
{
    space(out, layout, text)?;
    push(out, text)?;
    layout.wrote(text, "");
    Ok(())
}

/// Whether a text is a decimal number, as `-12`.
fn is_decimal(alloc: Global, text: &str) -> bool
    ensures { IsTrue result → decimal text.now }
{
    match DecLit::parse(alloc, text) {
        Ok((_, found)) => found.0 == text,
        Err(_) => false,
    }
}

#[tactic(auto, using(crate::proofs::LeafFacts::adds_number))]
impl<'a> Print for DecLit<'a> {
    type Value = Self;

    ghost spelling = { dec_spelling };

    fn print(value: &DecLit<'a>, out: &mut String, layout: &mut Layout) -> Result<(), PrintError> {
        if !is_decimal(*out.allocator(), value.0) {
            return Err(PrintError::NoText);
        }
        push_number(out, layout, value.0)
    }
}

/// Whether a text is a hexadecimal number, as `0x1F`.
fn is_hexadecimal(alloc: Global, text: &str) -> bool
    ensures { IsTrue result → hexadecimal text.now }
{
    match HexLit::parse(alloc, text) {
        Ok((_, found)) => found.0 == text,
        Err(_) => false,
    }
}

#[tactic(auto, using(crate::proofs::LeafFacts::adds_number))]
impl<'a> Print for HexLit<'a> {
    type Value = Self;

    ghost spelling = { hex_spelling };

    fn print(value: &HexLit<'a>, out: &mut String, layout: &mut Layout) -> Result<(), PrintError> {
        if !is_hexadecimal(*out.allocator(), value.0) {
            return Err(PrintError::NoText);
        }
        push_number(out, layout, value.0)
    }
}

/// Whether a text is an octal number, as `017`.
fn is_octal(alloc: Global, text: &str) -> bool
    ensures { IsTrue result → octal text.now }
{
    match OctLit::parse(alloc, text) {
        Ok((_, found)) => found.0 == text,
        Err(_) => false,
    }
}

#[tactic(auto, using(crate::proofs::LeafFacts::adds_number))]
impl<'a> Print for OctLit<'a> {
    type Value = Self;

    ghost spelling = { oct_spelling };

    fn print(value: &OctLit<'a>, out: &mut String, layout: &mut Layout) -> Result<(), PrintError> {
        if !is_octal(*out.allocator(), value.0) {
            return Err(PrintError::NoText);
        }
        push_number(out, layout, value.0)
    }
}

/// Whether a text is a number with a point or an exponent, as `-1.5e3`.
fn is_floating(alloc: Global, text: &str) -> bool
    ensures { IsTrue result → floating text.now }
{
    match FloatValueLit::parse(alloc, text) {
        Ok((_, found)) => found.0 == text,
        Err(_) => false,
    }
}

#[tactic(auto, using(crate::proofs::LeafFacts::adds_number))]
impl<'a> Print for FloatValueLit<'a> {
    type Value = Self;

    ghost spelling = { float_value_spelling };

    fn print(
        value: &FloatValueLit<'a>,
        out: &mut String,
        layout: &mut Layout,
    ) -> Result<(), PrintError> {
        if !is_floating(*out.allocator(), value.0) {
            return Err(PrintError::NoText);
        }
        push_number(out, layout, value.0)
    }
}
