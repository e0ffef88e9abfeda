//! Strings.

ghost use Rattle.std.specs.Prelude.{◌≡◌, IsTrue};
ghost use Rattle.weedle_grammar.specs.declared.class.Class.TheVariants.{NotQuote};
ghost use Rattle.weedle_spell.specs.Forms.{any};
ghost use Rattle.weedle_spell.specs.Leaves.{string_spelling};

use crate::error::PrintError;
use crate::layout::Layout;
use crate::print::Print;
use crate::texts::{push, space};
use memchr::memchr;
use weedle_parts::literal::StringLit;

/// Whether no quote is in a text.
fn is_without_quote(text: &str) -> bool
    ensures { IsTrue result → any NotQuote text.now }
{
    match memchr(b'"', text.as_bytes()) {
        None => true,
        Some(_) => false,
    }
}

/// A string in quotes, as `"a"`. One with a quote in it has no text.
#[tactic(auto, using(crate::proofs::LeafFacts::adds_string))]
impl<'a> Print for StringLit<'a> {
    type Value = Self;

    ghost spelling = { string_spelling };

    fn print(
        value: &StringLit<'a>,
        out: &mut String,
        layout: &mut Layout,
    ) -> Result<(), PrintError> {
        if !is_without_quote(value.0) {
            return Err(PrintError::NoText);
        }
        space(out, layout, "\"")?;
        push(out, "\"")?;
        push(out, value.0)?;
        push(out, "\"")?;
        layout.wrote_string(value.0);
        Ok(())
    }
}
