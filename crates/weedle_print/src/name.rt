//! Names.

ghost use Rattle.std.specs.Prelude.{◌≡◌, ◌↔◌, ℕ, List, codes, IsTrue, OnOk, string_bytes};
ghost use Rattle.weedle_grammar.specs.declared.class.Class.TheVariants.{Blank};
ghost use Rattle.weedle_spell.specs.Forms.{◌then◌, exactly, perhaps, some};
ghost use Rattle.weedle_spell.specs.Leaves.{identifier_spelling};
ghost use Rattle.weedle_spell.specs.Tokens.{name as the_name, named};
ghost use Rattle.weedle_print.specs.Adds.{Adds};
ghost use Rattle.weedle_print.specs.Apart.{begins_as_name, ends_as_name};
ghost use Rattle.weedle_print.specs.Reserved.{IsWord};

use crate::error::PrintError;
use crate::layout::Layout;
use crate::print::Print;
use crate::reserved::is_word;
use crate::texts::{push, space};
use std::alloc::Global;
use weedle_base::Parse;
use weedle_parts::common::Identifier;

/// A name that may have the letters of a keyword.
pub trait Reserved {
    ghost letters: { Self → List ℕ };

    /// Whether the name has the letters of a keyword, as `interface`, so that in some places it is
    /// written `_interface`. It looks at each rule of the grammar, and takes no memory.
    fn is_reserved(&self) -> bool
        ensures { IsTrue result ↔ IsWord (letters self.now) };
}

impl<'a> Reserved for Identifier<'a> {
    ghost letters = { λ v. v.0.now };

    fn is_reserved(&self) -> bool {
        is_word(self.0)
    }
}

/// Whether a text is a name: a letter, and any letters, digits, `_` and `-`.
fn is_name(alloc: Global, text: &str) -> bool
    ensures { IsTrue result → the_name text.now }
{
    match Identifier::parse(alloc, text) {
        Ok((_, found)) => found.0 == text,
        Err(_) => false,
    }
}

/// Writes an underscore, where one is needed.
#[tactic(auto, using(crate::proofs::LeafFacts::perhaps_steps))]
fn push_underscore(is_wanted: bool, out: &mut String) -> Result<(), PrintError>
    ensures { OnOk result
        (Adds (perhaps (exactly (codes "_"))) (string_bytes out.old) (string_bytes out.new)) }
{
    if is_wanted {
        return push(out, "_");
    }
    Ok(())
}

/// Writes a name behind an underscore, where a keyword of its letters would be read there; and
/// behind a space or a line end at least, where it would go on with the word before.
#[tactic(auto, using(crate::proofs::LeafFacts::adds_name, crate::proofs::ApartFacts::apart_name))]
fn push_name(name: &str, out: &mut String, layout: &mut Layout) -> Result<(), PrintError>
    requires { the_name name.now }
    ensures adds { OnOk result
        (Adds (named name.now) (string_bytes out.old) (string_bytes out.new)) }
    ensures apart { IsTrue layout.old.is_in_name → IsTrue (begins_as_name name.now)
        → OnOk result (Adds (some Blank then perhaps (exactly (codes "_")) then exactly name.now)
        (string_bytes out.old) (string_bytes out.new)) }
    ensures ends { OnOk result (layout.new.is_in_name ≡ ends_as_name name.now) }
{
    space(out, layout, name)?;
    let is_wanted = layout.is_read_as_word(name);
    push_underscore(is_wanted, out)?;
    push(out, name)?;
    layout.wrote_name(name, is_wanted);
    Ok(())
}

/// A name, as `width`. Where a keyword of its letters would be read there, it follows an
/// underscore.
impl<'a> Print for Identifier<'a> {
    type Value = Self;

    ghost spelling = { identifier_spelling };

    fn print(
        value: &Identifier<'a>,
        out: &mut String,
        layout: &mut Layout,
    ) -> Result<(), PrintError> {
        if !is_name(*out.allocator(), value.0) {
            return Err(PrintError::NoText);
        }
        push_name(value.0, out, layout)
    }
}
