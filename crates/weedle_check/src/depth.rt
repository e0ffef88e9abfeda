//! How deep a text may nest.

use crate::arguments::Task;
use crate::check::Wish;
use weedle_nesting::nesting;
use weedle_syntax::Dialect;

/// How many levels a text may nest that is read, and dropped.
const MOST_READ: usize = 6_000;

/// How many levels a text may nest that is printed, too.
const MOST_PRINTED: usize = 2_000;

/// How many levels deep a text nests, where that is more than 8 MB of stack hold for the task.
///
/// A `(` or a `<` that is open is one level, and a `[` two: so much more stack do its arguments
/// take. How deep the readers come was measured, as docs/PROVED.md tells, and the first limit
/// leaves a quarter of that. What it takes to print a text wasn't: the second limit is a cautious
/// guess. By today's rules a text is read with as little stack as any other.
pub fn too_many_levels(wish: Wish, text: &str) -> Option<usize> {
    if wish.dialect == Dialect::Today {
        return None;
    }
    let depths = nesting(text);
    let levels = depths
        .attributes
        .saturating_mul(2)
        .saturating_add(depths.brackets);
    if levels > most_levels(wish.task) {
        Some(levels)
    } else {
        None
    }
}

/// How many levels a text may nest for the task.
fn most_levels(task: Task) -> usize {
    match task {
        Task::Tree | Task::Print => MOST_PRINTED,
        Task::Check | Task::Syntax | Task::Time => MOST_READ,
    }
}
