//! What is at the front of a whole text.

ghost use Rattle.std.specs.Prelude.{◌≡◌, IfOk};
ghost use Rattle.weedle_grammar.specs.written.Table.Definitions.{DEFINITIONS};
ghost use Rattle.weedle_build_base.specs.Whole.{IsBuilt};

use crate::at::At;
use crate::build::Build;
use crate::table::Table;
use std::alloc::{AllocError, Global};
use weedle_rules::Rule;

/// Builds the value that the rule of definitions reads at the front of the text that the table is
/// over, and gives what follows it and how many nodes its tree has: so of `enum E {"a"}; x` the
/// remaining input is `x`. It reads the table alone: it works no rule out, and its steps are as
/// many as the tree has nodes and its docstrings have lines, up to a factor that the grammar fixes.
/// It takes the memory that the value holds, and is refused for lack of it alone.
pub fn build_front<'a, T: Build<'a>>(
    alloc: Global,
    table: Table<'_, 'a>,
    raw: &'a str,
) -> Result<(T::Value, &'a str, u128), AllocError>
    requires fit { T.fits DEFINITIONS }
    requires table { table.text.now ≡ raw.now }
    ensures { IfOk result (λ x. IsBuilt raw.now (T.tree x.0) x.1.now x.2) }
{
    let front = At {
        place: 0,
        visits: 0,
    };
    let (value, end) = T::build(alloc, table, Rule::DEFINITIONS, front)?;
    Ok((value, &raw[end.place..], end.visits))
}
