//! Definitions, and the empty lines between them.

ghost use Rattle.std.specs.Prelude.{OnOk, string_bytes};
ghost use Rattle.weedle_print.specs.Adds.{Adds};

use crate::error::PrintError;
use crate::layout::Layout;
use crate::print::{Print, try_line};
use weedle_layout::Statement;

/// Writes a definition of this kind, behind an empty line where the layout has one. A statement is
/// written into a text of its own first, to see whether it takes one line, and whether that fits
/// with the extended attributes in front of it.
pub fn print_statement<P: Print>(
    value: &P::Value,
    kind: Statement,
    out: &mut String,
    layout: &mut Layout,
) -> Result<(), PrintError>
    ensures { OnOk result
        (Adds (P.spelling value.now) (string_bytes out.old) (string_bytes out.new)) }
{
    let start = *layout;
    if kind != Statement::Other {
        try_line::<P>(*out.allocator(), value, layout)?;
    }
    if !layout.is_flat() || !layout.is_right_below(kind) {
        layout.skip_line();
    }
    P::print(value, out, layout)?;
    layout.end_item(&start);
    layout.end_statement(kind, &start);
    Ok(())
}
