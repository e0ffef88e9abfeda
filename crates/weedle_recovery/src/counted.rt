//! How many rules are tried for the parts of a text.

ghost use Rattle.std.specs.Prelude.{◌≡◌, ◌≤◌, ◌+◌, ◌*◌, length, true, All, IfOk};
ghost use Rattle.std.specs.Bool.{OnFalse};
ghost use Rattle.weedle_grammar.specs.written.Bound.{table_count};
ghost use Rattle.weedle_recovery.specs.Counts.{AreStepsOf};
ghost use Rattle.weedle_recovery.specs.Recovery.{AreParts, roots_of, IsDefinition};
ghost use Rattle.weedle_syntax.specs.Syntax.{AreTrees, IsWhole};

use crate::reading::Reading;
use crate::recovered::{Recovered, divided};
use std::alloc::{AllocError, Global};
use weedle_rules::{Ends, READS};
use weedle_syntax::{Dialect, Limits};

/// The parts of a text, and what was tried for them.
#[derive(Drop)]
pub struct Counted {
    /// The parts, and the nodes of those that are read.
    pub found: Recovered,
    /// How many rules were tried by descent.
    pub steps: usize,
    /// Whether the packrat table was filled, since the limits of descent were spent.
    pub by_table: bool,
    /// How many cells of the table were worked out: 0 where it wasn't filled.
    pub workings: u128,
    /// How often a byte or a cell was looked at to work them out.
    pub reads: u128,
}

/// Divides a text into parts as [`recover`](crate::recover) does, and says how many rules were
/// tried for that.
///
/// By descent there are at most 16 for each byte and 4,096 more: each rule that is tried at a place
/// counts, once for each time. For `typedef long A;` the parts are one definition, and some 60
/// rules are tried. Where the limits are spent, what was tried until then is counted, and the
/// packrat table says what its cells took. It costs what `recover` costs.
pub fn recover_counted(alloc: Global, raw: &str) -> Result<Counted, AllocError>
    ensures whole { IsWhole raw.now → IfOk result (λ c. All IsDefinition c.found.parts.items) }
    ensures cover { IfOk result
        (λ c. AreParts raw.now 0 (length raw.now) c.found.parts.items) }
    ensures nodes { IfOk result
        (λ c. AreTrees raw.now (roots_of c.found.parts.items) c.found.nodes.items) }
    ensures few { IfOk result (λ c. c.steps ≤ 16 * length raw.now + 4096) }

    // By descent the rules of the parts that are read were tried, each with all below it.
    ensures steps { IfOk result
        (λ c. OnFalse c.by_table (AreStepsOf raw.now c.found.parts.items c.steps)) }

    // Only a table has cells, and each is worked out once.
    ensures none { IfOk result (λ c. OnFalse c.by_table (c.workings ≡ 0)) }
    ensures cells { IfOk result (λ c. c.workings ≤ (length raw.now + 1) * table_count) }
    ensures reads { IfOk result (λ c. c.reads ≤ READS * c.workings) }
{
    let mut limits = Limits::of_length(raw.len());
    let most = limits.steps;
    let text = Reading::by_descent(raw.as_bytes(), most, Dialect::Weedle2);
    match divided(alloc, &text, &mut limits) {
        Ok(found) => Ok(Counted {
            found,
            steps: most - limits.steps,
            by_table: false,
            workings: 0,
            reads: 0,
        }),
        Err(error) => {
            if !limits.are_spent() {
                return Err(error);
            }
            over_table(alloc, raw, most.saturating_sub(limits.steps))
        }
    }
}

/// The parts of a text that is read over its packrat table, behind so many steps.
fn over_table(alloc: Global, raw: &str, steps: usize) -> Result<Counted, AllocError>
    ensures whole { IsWhole raw.now → IfOk result (λ c. All IsDefinition c.found.parts.items) }
    ensures cover { IfOk result
        (λ c. AreParts raw.now 0 (length raw.now) c.found.parts.items) }
    ensures nodes { IfOk result
        (λ c. AreTrees raw.now (roots_of c.found.parts.items) c.found.nodes.items) }
    ensures steps { IfOk result (λ c. c.steps ≡ steps) }
    ensures table { IfOk result (λ c. c.by_table ≡ true) }
    ensures cells { IfOk result (λ c. c.workings ≤ (length raw.now + 1) * table_count) }
    ensures reads { IfOk result (λ c. c.reads ≤ READS * c.workings) }
{
    let ends = Ends::new(alloc, raw)?;
    let text = Reading::over_table(raw.as_bytes(), &ends);
    let mut limits = Limits { steps: 0, depth: 0 };
    let found = divided(alloc, &text, &mut limits)?;
    Ok(Counted {
        found,
        steps,
        by_table: true,
        workings: ends.workings(),
        reads: ends.reads(),
    })
}
