//! The first alternative that fits.

ghost use Rattle.std.specs.Prelude.{
  ℕ,
  List,
  [],
  ◌∷◌,
  ◌≡◌,
  ◌+◌,
  ◌<◌,
  ◌^◌,
  IsTrue,
  IsSome,
  length,
  get_or,
};
ghost use Rattle.weedle_grammar.specs.Trees.{Tree, Alt};
ghost use Rattle.weedle_grammar.specs.written.Table.{row_of as row_of_rule, shape_of};
ghost use Rattle.weedle_build_base.specs.Built.{Due, IsChosen, Answers};
ghost use Rattle.weedle_build_base.specs.Fits.{firsts, is_choice, fits_first};

use crate::at::At;
use crate::build::{Build, BuildResult, visit};
use crate::table::Table;
use std::alloc::Global;
use weedle_rules::{Row, Rule, row_of};

/// The number of the first alternative that fits, counted from 0. It looks at the end of each
/// alternative up to it, and takes no memory.
pub fn choice(table: Table<'_, '_>, rule: Rule, place: usize) -> usize
    requires row { IsTrue (is_choice (row_of_rule rule) (shape_of rule)) }
    requires due { Due table.text.now rule place }
    ensures { IsChosen table.entry.text.now rule place result }
{
    let Row::First(parts) = row_of(rule) else {
        unreachable!()
    };
    let mut i = 0;
    loop {
        let Some(part) = parts.at(i) else {
            unreachable!()
        };
        if let Some(_) = table.end(part, place) {
            return i;
        }
        i += 1;
    }
}

/// An alternative of a rule, counted from 0. It takes no memory.
pub fn alternative_rule(rule: Rule, i: usize) -> Rule
    requires { i < length (firsts (row_of_rule rule)) }
    ensures { result ≡ get_or (firsts (row_of_rule rule)) i 0 }
{
    let Row::First(parts) = row_of(rule) else {
        unreachable!()
    };
    match parts.at(i) {
        Some(part) => part,
        None => unreachable!(),
    }
}

/// Builds the value of alternative `i` of the choice `rule`, the first that fits at the place `at`,
/// and visits the node of the choice. It is refused where the value is.
pub fn alternative<'a, T: Build<'a>>(
    alloc: Global,
    table: Table<'_, 'a>,
    rule: Rule,
    i: usize,
    at: At,
) -> BuildResult<T::Value>
    requires fit { fits_first T.fits i (row_of_rule rule) }
    requires chosen { IsChosen table.text.now rule at.place i }
    ensures { Answers table.entry.text.now rule (λ v. Alt i (T.tree v)) at.place at.visits result }
{
    let (value, at) = T::build(alloc, table, alternative_rule(rule, i), at)?;
    Ok((value, visit(at)))
}
