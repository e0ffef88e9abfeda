//! The nodes of a text in 8 bytes each, for callers in other languages.

ghost use Rattle.std.specs.Prelude.{◌≡◌, [], length, IfOk, IfSome, IfNone, Some};
ghost use Rattle.weedle_grammar.specs.written.Table.Definitions.{DEFINITIONS};
ghost use Rattle.weedle_rules.specs.Cells.{HasEnd};
ghost use Rattle.weedle_rules.specs.Outcomes.{FailsAt};
ghost use Rattle.weedle_syntax.specs.Compact.{AreRuns, nodes_of};
ghost use Rattle.weedle_syntax.specs.Laid.{LaysBelow};
ghost use Rattle.weedle_syntax.specs.Syntax.{IsFront, IsRuleFront};

use crate::compact::Compact;
use crate::descent::read;
use crate::lay::{front_by_descent, rule_by_descent};
use crate::limits::Limits;
use crate::narrow::{Narrow, lay, narrowed, packed};
use crate::on_demand::{front_on_demand, rule_on_demand};
use crate::runs::{Runs, push_run};
use std::alloc::{AllocError, Global};
use weedle_grammar::Rule;
use weedle_starts::source::Source;

/// The nodes that [`syntax_of_front`](crate::syntax_of_front) gives, most of them in 8 bytes each.
///
/// For them it asks once for 8 bytes for each byte of the text, which is more than what people
/// write needs, and then for twice as much where there are more. It is an error where a place or a
/// depth is 2³² or more, and where memory is refused.
pub fn compact_of_front(alloc: Global, raw: &str) -> Result<Compact, AllocError>
    ensures { IfOk result (λ nodes. IsFront raw.now nodes) }
{
    let mut limits = Limits::of_length(raw.len());
    match compact_within(alloc, raw, &mut limits) {
        Ok(nodes) => return Ok(nodes),
        Err(error) => {
            if !limits.are_spent() {
                return Err(error);
            }
        }
    }
    let nodes = front_on_demand(alloc, raw)?;
    let narrow = narrowed(alloc, &nodes)?;
    Compact::of(alloc, narrow)
}

/// The nodes that [`syntax_of_rule`](crate::syntax_of_rule) gives, in 16 bytes each.
///
/// It is an error where a place or a depth is 2³² or more, and where memory is refused.
pub fn compact_of_rule(alloc: Global, raw: &str, rule: Rule) -> Result<Option<Compact>, AllocError>
    ensures fails { IfOk result (λ found. IfNone found (FailsAt raw.now rule 0)) }
    ensures are { IfOk result (λ found. IfSome found (λ nodes. IsRuleFront raw.now rule nodes)) }
{
    match narrow_of_rule(alloc, raw, rule)? {
        Some(nodes) => {
            let compact = Compact::of(alloc, nodes)?;
            Ok(Some(compact))
        }
        None => Ok(None),
    }
}

/// The nodes of a rule, in 16 bytes each.
fn narrow_of_rule(alloc: Global, raw: &str, rule: Rule) -> Result<Option<Vec<Narrow>>, AllocError>
    ensures fails { IfOk result (λ found. IfNone found (FailsAt raw.now rule 0)) }
    ensures are { IfOk result
        (λ found. IfSome found (λ nodes. IsRuleFront raw.now rule nodes.items)) }
{
    let mut limits = Limits::of_length(raw.len());
    match rule_by_descent(alloc, raw, rule, &mut limits) {
        Ok(found) => return Ok(found),
        Err(error) => {
            if !limits.are_spent() {
                return Err(error);
            }
        }
    }
    match rule_on_demand(alloc, raw, rule)? {
        Some(nodes) => {
            let narrow = narrowed(alloc, &nodes)?;
            Ok(Some(narrow))
        }
        None => Ok(None),
    }
}

/// The nodes of the definitions at the front of a text, in 16 bytes each, by descent within limits.
pub(crate) fn narrow_within(
    alloc: Global,
    raw: &str,
    limits: &mut Limits,
) -> Result<Vec<Narrow>, AllocError>
    ensures { IfOk result (λ nodes. IsFront raw.now nodes.items) }
{
    let mut nodes = Vec::with_capacity(alloc, raw.len())?;
    front_by_descent(&mut nodes, raw, limits)?;
    Ok(nodes)
}

/// The nodes of the definitions at the front of a text, by descent within limits.
///
/// A definition that was read is never taken back, so its nodes are packed at once: those of one
/// definition alone are there in 16 bytes each.
fn compact_within(alloc: Global, raw: &str, limits: &mut Limits) -> Result<Compact, AllocError>
    ensures { IfOk result (λ nodes. IsFront raw.now nodes) }
{
    limits.allow(raw.len())?;
    let text = Source::new(raw.as_bytes());
    let mut below = Runs::new(alloc, raw.len())?;
    let end = lay_definitions(alloc, &mut below, &text, limits)?;
    let root = packed(Rule::DEFINITIONS, 0, end, 0)?;
    Ok(Compact { root, below })
}

/// Writes the nodes of definitions, one definition after another, and says where they end.
fn lay_definitions(
    alloc: Global,
    below: &mut Runs,
    text: &Source<'_>,
    limits: &mut Limits,
) -> Result<usize, AllocError>
    requires are { AreRuns below.old }
    requires none { nodes_of below.old ≡ [] }
    ensures end { IfOk result (λ end. HasEnd text.now DEFINITIONS 0 (Some end)) }
    ensures are { IfOk result (λ _. AreRuns below.new) }
    ensures lays { IfOk result
        (λ end. LaysBelow text.now DEFINITIONS 0 end 0 (nodes_of below.new)) }
{
    // The nodes of a definition, behind one that stands for the root.
    let mut nodes = Vec::new(alloc);
    lay(&mut nodes, Rule::DEFINITIONS, 0, 0, 0)?;
    let mut at = 0;
    loop {
        let found = read(&mut nodes, text, Rule::DEFINITION, at, 1, limits)?;
        let Some(end) = found else {
            return Ok(at);
        };
        if end == at {
            unreachable!();
        }
        push_run(below, &nodes[1..])?;
        nodes.truncate(1);
        at = end;
    }
}
