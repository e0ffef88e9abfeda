//! Marks of rules at places: a bit for each, by the number of its cell in a packrat table.
//!
//! In a word the first cell has the highest bit and the last cell the lowest. So the last cell that
//! is marked in a word is the number of its trailing zeros away from its end.

ghost use Rattle.std.specs.Prelude.{
  ◌^◌,
  ◌≡◌,
  ◌⊎◌,
  ◌≤◌,
  ◌<◌,
  ◌*◌,
  ◌/◌,
  ◌-◌,
  ◌↔◌,
  ℕ,
  IsTrue,
  length,
  IfSome,
  IfNone,
};
ghost use Rattle.weedle_rules.specs.Cells.{cell_number};
ghost use Rattle.weedle_starts.specs.Tries.{SameAttempt};
ghost use Rattle.weedle_refusal.specs.Marks.{HasBit, IsSet, IsMarked, Adds, IsLastSet, IsClear};

use weedle_grammar::{Rule, TABLE_RULES};

/// Whether the cell's bit is set.
#[inline(always)]
pub(crate) fn is_set(marks: &[u64], cell: usize) -> bool
    requires { cell < 64 * length marks.now }
    ensures { IsTrue result ↔ IsSet marks.now cell }
{
    (marks[cell / 64] >> (63 - cell % 64)) & 1 == 1
}

/// Sets the cell's bit.
#[inline(always)]
pub(crate) fn set(marks: &mut [u64], cell: usize)
    requires { cell < 64 * length marks.old }
    ensures { (other : ℕ) → IsSet marks.new other ↔ (IsSet marks.old other ⊎ (other ≡ cell)) }
{
    marks[cell / 64] |= 1 << (63 - cell % 64);
}

/// The last cell before this one whose bit is set, in the word of the cell before this one.
#[inline(always)]
pub(crate) fn last_set(marks: &[u64], behind: usize) -> Option<usize>
    requires some { 0 < behind }
    requires within { behind ≤ 64 * length marks.now }
    ensures found { IfSome result (λ cell. IsLastSet marks.now behind cell) }
    ensures none { IfNone result (IsClear marks.now ((behind - 1) / 64 * 64) behind) }
{
    let cell = behind - 1;
    let bits = marks[cell / 64] >> (63 - cell % 64);
    if bits == 0 {
        return None;
    }
    Some(cell - bits.trailing_zeros() as usize)
}

/// The cell behind the last of so many words that has a mark, or 0 where none has.
pub(crate) fn behind_marks(marks: &[u64], words: usize) -> usize
    requires within { words ≤ length marks.now }
    requires fits { 64 * length marks.now < 2 ^ 64 }
    ensures before { result ≤ 64 * words }
    ensures clear { IsClear marks.now result (64 * words) }
{
    let mut left = words;
    while left > 0 && marks[left - 1] == 0 {
        left -= 1;
    }
    64 * left
}

/// The number of the rule's cell at the place, in a text whose last place is this one.
#[inline(always)]
fn cell_of(last: usize, rule: Rule, place: usize) -> usize
    requires within { place ≤ last }
    requires fits { cell_number last rule place < 2 ^ 64 }
    ensures { result ≡ cell_number last rule place }
{
    (last - place) * TABLE_RULES + rule.number() as usize
}

/// Whether the rule is marked at the place.
#[inline(always)]
pub(crate) fn is_marked(marks: &[u64], last: usize, rule: Rule, place: usize) -> bool
    requires fits { 64 * length marks.now < 2 ^ 64 }
    requires here { HasBit last (length marks.now) rule place }
    ensures { IsTrue result ↔ IsMarked last marks.now rule place }
{
    is_set(marks, cell_of(last, rule, place))
}

/// Marks the rule at the place.
#[inline(always)]
pub(crate) fn mark(marks: &mut [u64], last: usize, rule: Rule, place: usize)
    requires fits { 64 * length marks.old < 2 ^ 64 }
    requires here { HasBit last (length marks.old) rule place }
    ensures { Adds last marks.old marks.new (SameAttempt rule place) }
{
    set(marks, cell_of(last, rule, place));
}
