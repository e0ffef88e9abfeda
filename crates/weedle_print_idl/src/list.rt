//! How lists of members and of definitions are written.

ghost use Rattle.std.specs.Prelude.{◌≡◌, OnErr, OnOk, string_bytes};
ghost use Rattle.weedle_print.specs.Adds.{Adds};
ghost use Rattle.weedle_spell.specs.Forms.{each};

use crate::part::IdlPart;
use crate::write::WriteIdl;
use weedle_print::{Layout, Print, PrintError, push};

/// Values one after another, as the definitions of a text.
impl<T: WriteIdl> WriteIdl for Vec<T> {
    ghost spelling = { λ v. each T.spelling v.items };

    fn write_part(&self, out: &mut String, layout: &mut Layout) -> Result<(), PrintError> {
        Vec::<IdlPart<T>>::print(self, out, layout)
    }
}

/// Writes values one after another, as a part of a text.
#[tactic(auto, using(weedle_print::proofs::EachFacts::each_steps))]
fn push_each<T: WriteIdl>(
    list: &[T],
    out: &mut String,
    layout: &mut Layout,
) -> Result<(), PrintError>
    ensures { OnOk result
        (Adds (each T.spelling list.now) (string_bytes out.old) (string_bytes out.new)) }
{
    for item in list {
        item.write_part(out, layout)?;
    }
    Ok(())
}

/// Writes values one after another at the end of `out`, as [`WriteIdl::write_idl`] writes a list of
/// them. A function that is generic over the values' type may call either. Where the values are
/// known to be definitions the prover meets a limit, except in a function that does this alone, as
/// `write_list(definitions.as_slice(), out)`.
#[tactic(auto, using(weedle_print::proofs::AddsFacts::adds_copied))]
pub fn write_list<T: WriteIdl>(list: &[T], out: &mut String) -> Result<(), PrintError>
    ensures spells { OnOk result
        (Adds (each T.spelling list.now) (string_bytes out.old) (string_bytes out.new)) }
    ensures unchanged { OnErr result (string_bytes out.new ≡ string_bytes out.old) }
{
    let mut text = String::new(*out.allocator());
    let mut layout = Layout::new();
    push_each(list, &mut text, &mut layout)?;
    push(out, text.as_str())
}
