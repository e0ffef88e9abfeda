//! Defaults of arguments.

ghost use Rattle.std.specs.Prelude.{OnOk, string_bytes};
ghost use Rattle.weedle_print.specs.Adds.{Adds};
ghost use Rattle.weedle_spell.specs.RecursiveTypes.{default_where_optional};

use crate::error::PrintError;
use crate::layout::Layout;
use crate::print::Print;
use weedle_base::term::Optional;
use weedle_parts::literal::Default;

/// Writes the default of an argument, as `= 5`. One that isn't optional can't have a default, and
/// has no text.
#[tactic(auto, using(crate::proofs::AddsFacts::adds_none))]
pub(crate) fn print_default(
    optional: &Option<Optional>,
    default: &Option<Default<'_>>,
    out: &mut String,
    layout: &mut Layout,
) -> Result<(), PrintError>
    ensures { OnOk result
        (Adds (default_where_optional optional.now default.now) (string_bytes out.old)
        (string_bytes out.new)) }
{
    match optional {
        Some(_) => Option::<Default<'_>>::print(default, out, layout),
        None => match default {
            Some(_) => Err(PrintError::NoText),
            None => Ok(()),
        },
    }
}
