//! Docstrings.

ghost use Rattle.std.specs.Prelude.{◌≡◌, [], ◌∷◌, codes, OnOk, string_bytes};
ghost use Rattle.weedle_grammar.specs.declared.class.Class.TheVariants.{Blank};
ghost use Rattle.weedle_spell.specs.Forms.{◌then◌, exactly, any};
ghost use Rattle.weedle_spell.specs.Leaves.{docstring_spelling};
ghost use Rattle.weedle_print.specs.Adds.{Adds};

use crate::error::PrintError;
use crate::layout::Layout;
use crate::print::Print;
use crate::texts::{push, space};
use weedle_parts::common::Docstring;

/// Writes a line of a docstring, on a line of its own.
#[tactic(auto, using(crate::proofs::AddsFacts::adds_then))]
fn push_doc_line(line: &str, out: &mut String, layout: &mut Layout) -> Result<(), PrintError>
    ensures { OnOk result
        (Adds (any Blank then exactly (codes "///") then exactly line.now then exactly (10 ∷ []))
        (string_bytes out.old) (string_bytes out.new)) }
{
    layout.begin_line();
    space(out, layout, "///")?;
    push(out, "///")?;
    push(out, line)?;
    push(out, "\n")?;
    layout.wrote("///", "");
    layout.end_line();
    Ok(())
}

/// A docstring: each of its lines behind `///`, on a line of its own.
impl Print for Docstring {
    type Value = Self;

    ghost spelling = { docstring_spelling };

    fn print(value: &Docstring, out: &mut String, layout: &mut Layout) -> Result<(), PrintError> {
        for line in value.0.as_str().split('\n') {
            push_doc_line(line, out, layout)?;
        }
        layout.end_docstring();
        Ok(())
    }
}
