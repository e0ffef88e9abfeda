//! Lists whose items are between separators.

ghost use Rattle.std.specs.Prelude.{OnOk, string_bytes};
ghost use Rattle.weedle_spell.specs.Tokens.{word as the_word};
ghost use Rattle.weedle_print.specs.Adds.{Adds};
ghost use Rattle.weedle_print.specs.Separators.{in_front_of};

use crate::error::PrintError;
use crate::layout::Layout;
use crate::texts::word;

/// Writes what separates an item of a list from the one before it, as `,`; nothing in front of the
/// first.
#[tactic(auto, using(crate::proofs::AddsFacts::adds_none))]
pub fn separate(
    is_first: bool,
    out: &mut String,
    layout: &mut Layout,
    text: &'static str,
) -> Result<(), PrintError>
    ensures { OnOk result
        (Adds (in_front_of is_first (the_word text.now)) (string_bytes out.old)
        (string_bytes out.new)) }
{
    if is_first {
        return Ok(());
    }
    word(out, layout, text)
}

/// Writes the bracket that ends a list, as `)`. Where the list has a line for each item, the
/// bracket has one too.
pub fn close_list(
    out: &mut String,
    layout: &mut Layout,
    text: &'static str,
) -> Result<(), PrintError>
    ensures { OnOk result (Adds (the_word text.now) (string_bytes out.old) (string_bytes out.new)) }
{
    layout.end_items();
    word(out, layout, text)
}
