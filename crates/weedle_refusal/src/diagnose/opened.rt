//! What fails at the furthest place: in two steps, of which the first marks rules as a whole.

ghost use Rattle.std.specs.Prelude.{◌≤◌, ℕ, List, length, IfOk};
ghost use Rattle.weedle_grammar.specs.written.Bound.{rule_count};
ghost use Rattle.weedle_syntax.specs.Dialects.{start_of};
ghost use Rattle.weedle_syntax.specs.Steps.{Spends};
ghost use Rattle.weedle_refusal.specs.Descent.{DescentStepsIn, EachSteps};
ghost use Rattle.weedle_refusal.specs.Noted.{AreOpened, IsFurthestFrom};

use crate::diagnose::descent::{GaveUp, read};
use crate::diagnose::noted::Furthest;
use weedle_grammar::{RULES, rule_of};
use weedle_starts::source::Source;
use weedle_syntax::Dialect;

/// The furthest place at which something fails where definitions are read from `start` on by the
/// rules of a dialect, and the rules without parts that fail there.
///
/// At most `left` rules are tried, and at most `depth` in one another.
pub(crate) fn furthest_from(
    text: &Source<'_>,
    start: usize,
    left: &mut usize,
    depth: usize,
    dialect: Dialect,
) -> Result<Furthest, GaveUp>
    requires { start ≤ length text.now }
    ensures found { IfOk result (IsFurthestFrom text.now (start_of dialect) start) }
    ensures steps { IfOk result
        (λ found. Spends (DescentStepsIn dialect text.now start found.place) left.old left.new) }
{
    let mut first = Furthest::new(start, false);
    read(&mut first, left, text, dialect.start(), start, depth)?;
    let found = opened(&first, left, text, depth)?;
    Ok(found)
}

/// The rules without parts that fail in those that are marked, where these are read again at their
/// place, and nothing is passed over.
fn opened(
    first: &Furthest,
    left: &mut usize,
    text: &Source<'_>,
    depth: usize,
) -> Result<Furthest, GaveUp>
    requires { first.now.place ≤ length text.now }
    ensures opened { IfOk result (AreOpened text.now first.now rule_count) }
    ensures steps { IfOk result (λ found. (rules : List ℕ)
        × Spends (EachSteps text.now first.now.place rules) left.old left.new) }
{
    let mut found = Furthest::new(first.place, true);
    for number in 0..RULES {
        let rule = rule_of(number as u16);
        if first.has(rule) {
            read(&mut found, left, text, rule, first.place, depth)?;
        }
    }
    Ok(found)
}
