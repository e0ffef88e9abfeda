//! Marking all that is tried: from the last cell to the first, what each marked cell tries.
//!
//! What a rule tries has a smaller cell than the rule. So when a cell's turn comes, it is marked if
//! anything tries it, and one walk over all cells suffices.

ghost use Rattle.std.specs.Prelude.{◌^◌, ◌≡◌, ◌≤◌, ◌<◌, ◌+◌, ◌-◌, ◌*◌, ℕ, length, IfOk};
ghost use Rattle.weedle_grammar.specs.written.Bound.{table_count};
ghost use Rattle.weedle_refusal.specs.Marks.{AreTried, IsSet, IsMarking};
ghost use Rattle.weedle_refusal.specs.Ways.{AreWays};

use crate::diagnose::marks::{behind_marks, last_set, mark};
use crate::diagnose::tries::mark_tries;
use crate::diagnose::ways::{Ways, lay_ways};
use std::alloc::{AllocError, Global};
use weedle_grammar::{Rule, TABLE_RULES, rule_of};
use weedle_rules::Ends;

/// Marks what the rule of a marked cell tries. The last word may have cells of no place.
fn close_cell(
    marks: &mut [u64],
    ends: &Ends<'_>,
    ways: &Ways,
    last: usize,
    start: usize,
    cell: usize,
)
    requires last { last ≡ length ends.now.text }
    requires fits { 64 * length marks.old < 2 ^ 64 }
    requires ways { AreWays ways.now table_count }
    requires within { cell < 64 * length marks.old }
    requires marked { IsSet marks.old cell }
    requires before { IsMarking ends.now.text start marks.old (cell + 1) }
    ensures { IsMarking ends.now.text start marks.new cell }
{
    let row = cell / TABLE_RULES;
    if row <= last {
        let rule = rule_of((cell % TABLE_RULES) as u16);
        mark_tries(marks, ends, ways, last, rule, last - row);
    }
}

/// Marks what is tried, where nothing is marked.
fn mark_all(marks: &mut [u64], ends: &Ends<'_>, last: usize, start: usize)
    requires last { last ≡ length ends.now.text }
    requires within { start ≤ last }
    requires fits { 64 * length marks.old < 2 ^ 64 }
    requires laid { (last - start) * table_count + table_count ≤ 64 * length marks.old }
    requires clear { (cell : ℕ) → IsSet marks.old cell → ⊥ }
    ensures { AreTried ends.now.text start marks.new }
{
    let ways = lay_ways();
    mark(marks, last, Rule::DEFINITIONS, start);
    let mut left = 64 * marks.len();
    while left > 0 {
        match last_set(marks, left) {
            Some(cell) => {
                close_cell(marks, ends, &ways, last, start, cell);
                left = cell;
            }
            None => left = behind_marks(marks, (left - 1) / 64),
        }
    }
}

/// The marks of what is tried where definitions are read from a place on.
pub(crate) fn marks_of_tried(
    alloc: Global,
    ends: &Ends<'_>,
    last: usize,
    start: usize,
) -> Result<Vec<u64>, AllocError>
    requires last { last ≡ length ends.now.text }
    requires within { start ≤ last }
    requires small { last < 2 ^ 64 - 1 }
    ensures fits { IfOk result (λ marks. 64 * length marks.items < 2 ^ 64) }
    ensures laid { IfOk result
        (λ marks. (last - start) * table_count + table_count ≤ 64 * length marks.items) }
    ensures are { IfOk result (λ marks. AreTried ends.now.text start marks.items) }
{
    let Some(cells) = (last - start + 1).checked_mul(TABLE_RULES) else {
        return Err(AllocError);
    };
    let Some(rounded) = cells.checked_add(63) else {
        return Err(AllocError);
    };
    let mut marks: Vec<u64> = Vec::from_elem(alloc, 0, rounded / 64)?;
    mark_all(&mut marks, ends, last, start);
    Ok(marks)
}
