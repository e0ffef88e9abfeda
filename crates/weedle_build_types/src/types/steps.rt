//! An optional part of a rule, and an item of a list.

ghost use Rattle.std.specs.Prelude.{ℕ, IfOk};
ghost use Rattle.weedle_base.specs.Rules.{option_tree};
ghost use Rattle.weedle_build_base.specs.Built.{Answers, IsTried};
ghost use Rattle.weedle_build_types.specs.Steps.{IsOption, Keeps};

use std::alloc::{AllocError, Global};
use weedle_build_base::{At, Build, BuildResult, Table, visit};
use weedle_rules::Rule;

/// Builds what is at a place of a rule that takes the item or nothing.
pub(crate) fn optional<'a, T: Build<'a>>(
    alloc: Global,
    table: Table<'_, 'a>,
    item: Rule,
    at: At,
) -> BuildResult<Option<T::Value>>
    requires fit { T.fits item }
    requires tried { IsTried table.text.now item at.place }
    ensures { (r : ℕ) → IsOption item r
        → Answers table.entry.text.now r (option_tree T.tree) at.place at.visits result }
{
    match table.end(item, at.place) {
        Some(_) => {
            let (value, end) = T::build(alloc, table, item, at)?;
            Ok((Some(value), visit(end)))
        }
        None => Ok((None, visit(at))),
    }
}

/// Puts what was built at the end of a list, and gives where it is then.
// It stays a call, so that no list holds the room of an item more than once while the item is
// built.
#[inline(never)]
pub(crate) fn keep<T: Drop>(list: &mut Vec<T>, built: BuildResult<T>) -> Result<At, AllocError>
    ensures { IfOk result (λ at. Keeps list.old.items list.new.items built at) }
{
    let (value, at) = built?;
    list.push(value)?;
    Ok(at)
}
