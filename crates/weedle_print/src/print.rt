//! How a value is written.

ghost use Rattle.std.specs.Prelude.{◌≡◌, OnErr, OnOk, string_bytes};
ghost use Rattle.weedle_spell.specs.Forms.{Form};
ghost use Rattle.weedle_print.specs.Adds.{Adds};

use crate::error::PrintError;
use crate::layout::Layout;
use crate::texts::push;
use std::alloc::Global;

/// How values of a type are written as WebIDL. `spelling` says which texts are renderings of a
/// value.
///
/// It is the type itself, as `Identifier`, or a struct that stands for it: a trait can't be
/// implemented for the types of other crates.
pub trait Print {
    /// What is written.
    type Value;

    ghost spelling: { Self.Value → Form };

    /// Writes a value at the end of `out`, where `layout` says how the line is there. Where it
    /// fails, a part of the value may have been written: so [`printed`] is for callers.
    ///
    /// It fails with `Memory` where `out` can't grow, and with `NoText` where no text is a
    /// rendering of the value.
    fn print(value: &Self::Value, out: &mut String, layout: &mut Layout) -> Result<(), PrintError>
        ensures { OnOk result
            (Adds (spelling value.now) (string_bytes out.old) (string_bytes out.new)) };
}

/// Writes a value that begins a line into a text of its own, to see how much is on that line, and
/// leaves `layout` as it was, except for that.
pub(crate) fn try_line<P: Print>(
    alloc: Global,
    value: &P::Value,
    layout: &mut Layout,
) -> Result<(), PrintError> {
    let start = *layout;
    let mut text = String::new(alloc);
    layout.try_line();
    P::print(value, &mut text, layout)?;
    layout.end_line_try(&start, 0);
    Ok(())
}

/// Writes a value at the end of `out`, as `long long? a` of an argument, in the one layout. It
/// begins at the front of a line, whatever is in `out`, and ends with a line end where the value
/// ends in a `;`.
///
/// It fails with `Memory` where memory is refused, and with `NoText` where no text is a rendering
/// of the value; then `out` is as it was. It writes the text once into a text of its own, which is
/// copied, and so takes twice the memory for a while.
#[tactic(auto, using(crate::proofs::AddsFacts::adds_copied))]
pub fn printed<P: Print>(value: &P::Value, out: &mut String) -> Result<(), PrintError>
    ensures spells { OnOk result
        (Adds (P.spelling value.now) (string_bytes out.old) (string_bytes out.new)) }
    ensures unchanged { OnErr result (string_bytes out.new ≡ string_bytes out.old) }
{
    let mut text = String::new(*out.allocator());
    let mut layout = Layout::new();
    P::print(value, &mut text, &mut layout)?;
    push(out, text.as_str())
}
