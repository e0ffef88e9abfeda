//! Building along a packrat table or a memo.

ghost use Rattle.std.specs.Prelude.{◌≡◌, ℕ};
ghost use Rattle.weedle_grammar.specs.Trees.{Tree, Mark};
ghost use Rattle.weedle_grammar.specs.Meaning.{Marked};
ghost use Rattle.weedle_grammar.specs.written.Table.{shape_of};
ghost use Rattle.weedle_build_base.specs.Built.{Due, Builds, Visits, Found, Answers};

use crate::at::At;
use crate::table::Table;
use std::alloc::{AllocError, Global};
use weedle_rules::Rule;

/// A value and where the building is behind it, or that memory was refused.
pub type BuildResult<T> = Result<(T, At), AllocError>;

/// How values are built where the table says that a rule reads one.
///
/// A type of the crates below has it for its own values, an `Option` or a list for those of its
/// items. A crate above gives it to a type of its own and names the value's type as `Value`, since
/// only this crate can give it to a type elsewhere.
///
/// `fits` says which rules read such a value, `tree` which tree a value stands for.
pub trait Build<'a> {
    /// What is built.
    type Value: Drop;

    ghost fits: { ℕ → Type 0 };

    ghost tree: { Self.Value → Tree };

    /// Builds the value that `rule` reads at the place `at`, and goes on to its end. It looks at
    /// ends alone, a few for each node of the tree and for each line of a docstring, and one for
    /// each alternative that doesn't fit. It takes the memory that the value holds, and is refused
    /// for lack of it alone.
    fn build(alloc: Global, table: Table<'_, 'a>, rule: Rule, at: At) -> BuildResult<Self::Value>
        requires fit { fits rule }
        requires due { Due table.text.now rule at.place }
        ensures { Answers table.entry.text.now rule tree at.place at.visits result };
}

/// One more node at the same place. It takes no memory.
pub fn visit(at: At) -> At
    ensures { Visits at.place at.visits result.place result.visits }
{
    At {
        place: at.place,
        visits: at.visits.saturating_add(1),
    }
}

/// Where a rule ends that reads something at the place: one look at the table. It takes no memory.
#[tactic(auto, using(crate::proofs::Finding::found))]
pub fn end_at(table: Table<'_, '_>, rule: Rule, place: usize) -> usize
    requires { Due table.text.now rule place }
    ensures { Found table.entry.text.now rule place result }
{
    match table.end(rule, place) {
        Some(end) => end,
        None => unreachable!(),
    }
}

/// Where a symbol or a keyword ends, with its node visited. It takes no memory.
#[tactic(auto, using(crate::proofs::Finding::marked_there))]
pub fn mark(table: Table<'_, '_>, rule: Rule, at: At) -> At
    requires shape { shape_of rule ≡ Marked }
    requires due { Due table.text.now rule at.place }
    ensures { Builds table.entry.text.now rule Mark at.place at.visits result.place result.visits }
{
    let place = end_at(table, rule, at.place);
    visit(At {
        place,
        visits: at.visits,
    })
}
