//! What is written as WebIDL.

ghost use Rattle.std.specs.Prelude.{◌≡◌, OnErr, OnOk, string_bytes};
ghost use Rattle.weedle_spell.specs.Forms.{Form};
ghost use Rattle.weedle_print.specs.Adds.{Adds};

use weedle_print::{Layout, PrintError, push};

/// A value that is written as WebIDL. `spelling` says which texts are renderings of it.
pub trait WriteIdl: Sized {
    ghost spelling: { Self → Form };

    /// Writes the value at the end of `out` as a part of a text, where `layout` says how the line
    /// is there. Where it fails, a part of the value may have been written: callers take
    /// [`write_idl`](WriteIdl::write_idl).
    fn write_part(&self, out: &mut String, layout: &mut Layout) -> Result<(), PrintError>
        ensures { OnOk result
            (Adds (spelling self.now) (string_bytes out.old) (string_bytes out.new)) };

    /// Writes the value at the end of `out`, as `interface A {\n  attribute long x;\n};\n`: in one
    /// layout, whatever was read. The value begins at the front of a line, and ends with a line end
    /// where its last sign is `;`.
    ///
    /// It returns [`PrintError::NoText`] where no text is a rendering of the value, since it was
    /// built by hand: where a name isn't one, as `a b`, a string has a quote in it, a number is
    /// none, an enum has no value, or an argument that isn't optional has a default. What was read
    /// is written. It returns [`PrintError::Memory`] where `out` or the text beside it can't grow.
    /// It asks for twice the text, and writes what is in lists once more for each of them that
    /// doesn't fit on its line.
    #[tactic(auto, using(weedle_print::proofs::AddsFacts::adds_copied))]
    final fn write_idl(&self, out: &mut String) -> Result<(), PrintError>
        ensures spells { OnOk result
            (Adds (spelling self.now) (string_bytes out.old) (string_bytes out.new)) }
        ensures unchanged { OnErr result (string_bytes out.new ≡ string_bytes out.old) }
    {
        let mut text = String::new(*out.allocator());
        let mut layout = Layout::new();
        self.write_part(&mut text, &mut layout)?;
        push(out, text.as_str())
    }
}
