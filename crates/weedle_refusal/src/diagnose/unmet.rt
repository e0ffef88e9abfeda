//! What is unmet: rules without parts that are tried and fail.

ghost use Rattle.std.specs.Prelude.{
  ◌^◌,
  ◌≡◌,
  ◌≤◌,
  ◌<◌,
  ◌-◌,
  ◌*◌,
  ◌/◌,
  ◌%◌,
  ◌↔◌,
  ℕ,
  length,
  IsTrue,
  IfOk,
};
ghost use Rattle.std.specs.List.{Contains};
ghost use Rattle.weedle_grammar.specs.written.Bound.{table_count};
ghost use Rattle.weedle_grammar.specs.written.Table.{row_of as the_row_of};
ghost use Rattle.weedle_starts.specs.Tries.{IsUnmet, has_no_parts as lacks_parts};
ghost use Rattle.weedle_refusal.specs.Marks.{AreTried, HasBit};
ghost use Rattle.weedle_refusal.specs.Diagnosis.{IsRising};

use crate::diagnose::marks::is_marked;
use std::alloc::{AllocError, Global};
use weedle_grammar::{Row, Rule, TABLE_RULES, row_of, rule_of};
use weedle_rules::Ends;

/// Whether the rule's row has no parts.
fn has_no_parts(rule: Rule) -> bool
    ensures { result ≡ lacks_parts (the_row_of rule) }
{
    match row_of(rule) {
        Row::Bytes(_) | Row::OneOf(_) | Row::NotNext(_) | Row::Run(_) | Row::Past(_) => true,
        _ => false,
    }
}

/// Whether the rule has no parts, is tried at the place and fails.
fn is_unmet(
    marks: &[u64],
    ends: &Ends<'_>,
    last: usize,
    start: usize,
    rule: Rule,
    place: usize,
) -> bool
    requires last { last ≡ length ends.now.text }
    requires fits { 64 * length marks.now < 2 ^ 64 }
    requires marked { AreTried ends.now.text start marks.now }
    requires here { HasBit last (length marks.now) rule place }
    ensures { IsTrue result ↔ IsUnmet ends.now.text start rule place }
{
    if !is_marked(marks, last, rule, place) {
        return false;
    }
    if !has_no_parts(rule) {
        return false;
    }
    match ends.cell(rule, place) {
        Some(_) => false,
        None => true,
    }
}

/// The rules without parts that are tried at the place and fail.
pub(crate) fn unmet_at(
    alloc: Global,
    marks: &[u64],
    ends: &Ends<'_>,
    last: usize,
    start: usize,
    place: usize,
) -> Result<Vec<Rule>, AllocError>
    requires last { last ≡ length ends.now.text }
    requires fits { 64 * length marks.now < 2 ^ 64 }
    requires marked { AreTried ends.now.text start marks.now }
    requires inside { (r : ℕ) → r < table_count → HasBit last (length marks.now) r place }
    ensures exact { IfOk result
        (λ found. (r : ℕ) → Contains found.items r
        ↔ ((r < table_count) × IsUnmet ends.now.text start r place)) }
    ensures rising { IfOk result (λ found. IsRising found.items) }
{
    let mut found = Vec::new(alloc);
    for number in 0..TABLE_RULES {
        let rule = rule_of(number as u16);
        if is_unmet(marks, ends, last, start, rule, place) {
            found.push(rule)?;
        }
    }
    Ok(found)
}

/// Whether the cell is that of a rule without parts that is tried there and fails.
fn is_unmet_cell(marks: &[u64], ends: &Ends<'_>, last: usize, start: usize, cell: usize) -> bool
    requires last { last ≡ length ends.now.text }
    requires fits { 64 * length marks.now < 2 ^ 64 }
    requires marked { AreTried ends.now.text start marks.now }
    requires within { cell < 64 * length marks.now }
    ensures { IsTrue result
        ↔ ((cell / TABLE_RULES ≤ last)
        × IsUnmet ends.now.text start (cell % TABLE_RULES) (last - cell / TABLE_RULES)) }
{
    let row = cell / TABLE_RULES;
    if row > last {
        return false;
    }
    let rule = rule_of((cell % TABLE_RULES) as u16);
    is_unmet(marks, ends, last, start, rule, last - row)
}

/// The furthest place where something that is tried fails. A word without marks is passed over.
pub(crate) fn furthest_place(marks: &[u64], ends: &Ends<'_>, last: usize, start: usize) -> usize
    requires last { last ≡ length ends.now.text }
    requires fits { 64 * length marks.now < 2 ^ 64 }
    requires within { start ≤ last }
    requires marked { AreTried ends.now.text start marks.now }
    ensures after { start ≤ result }
    ensures within { result ≤ last }
    ensures some { (r : ℕ) × IsUnmet ends.now.text start r result }
    ensures furthest { (r p : ℕ) → IsUnmet ends.now.text start r p → p ≤ result }
{
    let cells = 64 * marks.len();
    let mut cell = 0;
    while cell < cells {
        let word = cell / 64;
        if marks[word] == 0 {
            cell = word * 64 + 64;
        } else {
            if is_unmet_cell(marks, ends, last, start, cell) {
                return last - cell / TABLE_RULES;
            }
            cell += 1;
        }
    }
    start
}
