//! Texts, whitespace and words at the end of a text.
#![tactic(auto, using(crate::proofs::AddsFacts::adds_steps))]

ghost use Rattle.std.specs.Prelude.{◌≡◌, ◌∷◌, [], false, IsTrue, OnErr, OnOk, string_bytes};
ghost use Rattle.weedle_grammar.specs.declared.class.Class.TheVariants.{Blank};
ghost use Rattle.weedle_spell.specs.Forms.{◌then◌, exactly, any, some};
ghost use Rattle.weedle_spell.specs.Tokens.{word as the_word};
ghost use Rattle.weedle_print.specs.Adds.{Adds};
ghost use Rattle.weedle_print.specs.Apart.{
  apart as the_apart,
  begins_as_name,
  ends_as_name,
  so_many,
};

use crate::error::PrintError;
use crate::layout::Layout;

/// Writes a text at the end. It fails where `out` can't grow, and changes nothing then.
pub fn push(out: &mut String, text: &str) -> Result<(), PrintError>
    ensures adds { OnOk result
        (Adds (exactly text.now) (string_bytes out.old) (string_bytes out.new)) }
    ensures unchanged { OnErr result (string_bytes out.new ≡ string_bytes out.old) }
{
    match out.push_str(text) {
        Ok(()) => Ok(()),
        Err(_) => Err(PrintError::Memory),
    }
}

/// Writes so many spaces at the end.
#[tactic(auto, using(crate::proofs::ApartFacts::many_steps))]
fn push_blanks(out: &mut String, many: usize) -> Result<(), PrintError>
    ensures { OnOk result (Adds (so_many many) (string_bytes out.old) (string_bytes out.new)) }
{
    'blanks: for put in 0..many {
        push(out, " ")?;
    }
    Ok(())
}

/// Writes so many line ends at the end.
#[tactic(auto, using(crate::proofs::ApartFacts::many_steps))]
fn push_line_ends(out: &mut String, many: usize) -> Result<(), PrintError>
    ensures { OnOk result (Adds (so_many many) (string_bytes out.old) (string_bytes out.new)) }
{
    'ends: for put in 0..many {
        push(out, "\n")?;
    }
    Ok(())
}

/// Writes what goes in front of a word: a space or a line end at least, where the word would go on
/// with the one before.
#[tactic(auto, using(crate::proofs::ApartFacts::space_steps))]
pub(crate) fn space(out: &mut String, layout: &mut Layout, text: &str) -> Result<(), PrintError>
    ensures adds { OnOk result (Adds (any Blank) (string_bytes out.old) (string_bytes out.new)) }
    ensures apart { IsTrue layout.old.is_in_name → IsTrue (begins_as_name text.now)
        → OnOk result (Adds (some Blank) (string_bytes out.old) (string_bytes out.new)) }
{
    let space = layout.space(text);
    push_line_ends(out, space.line_ends)?;
    push_blanks(out, space.blanks)?;
    layout.spaced(space);
    Ok(())
}

/// Writes a symbol or a keyword, as `{` or `interface`, and what goes in front of it: a space or a
/// line end at least, where it would go on with the word before.
#[tactic(auto, using(crate::proofs::AddsFacts::adds_steps, crate::proofs::ApartFacts::apart_steps))]
pub fn word(out: &mut String, layout: &mut Layout, text: &'static str) -> Result<(), PrintError>
    ensures adds { OnOk result (Adds (the_word text.now) (string_bytes out.old) (string_bytes out.new)) }
    ensures apart { IsTrue layout.old.is_in_name → IsTrue (begins_as_name text.now)
        → OnOk result (Adds (the_apart text.now) (string_bytes out.old) (string_bytes out.new)) }
    ensures ends { OnOk result (layout.new.is_in_name ≡ ends_as_name text.now) }
{
    space(out, layout, text)?;
    push(out, text)?;
    layout.wrote_word(text);
    Ok(())
}

/// Writes a symbol that ends its line, as `;`, and the line end behind it.
#[tactic(auto, using(crate::proofs::AddsFacts::adds_steps, crate::proofs::ApartFacts::apart_steps))]
pub fn last_word(
    out: &mut String,
    layout: &mut Layout,
    text: &'static str,
) -> Result<(), PrintError>
    ensures adds { OnOk result
        (Adds (the_word text.now) (string_bytes out.old) (string_bytes out.new)) }
    ensures apart { IsTrue layout.old.is_in_name → IsTrue (begins_as_name text.now)
        → OnOk result (Adds (the_apart text.now then exactly (10 ∷ [])) (string_bytes out.old)
        (string_bytes out.new)) }
    ensures ends { OnOk result (layout.new.is_in_name ≡ false) }
{
    space(out, layout, text)?;
    push(out, text)?;
    layout.wrote_word(text);
    push(out, "\n")?;
    layout.end_line();
    Ok(())
}
