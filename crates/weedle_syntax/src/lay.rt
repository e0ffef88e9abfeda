//! What descent writes of a rule: behind nodes there, and at the front of a text.

ghost use Rattle.std.specs.Prelude.{◌≡◌, ◌≤◌, ◌<◌, [], length, IfOk, IfNone, IfSome, OnOk};
ghost use Rattle.weedle_grammar.specs.written.Bound.{rule_count};
ghost use Rattle.weedle_rules.specs.Cells.{HasEnd};
ghost use Rattle.weedle_rules.specs.Outcomes.{FailsAt};
ghost use Rattle.weedle_syntax.specs.Laid.{LaysNode};
ghost use Rattle.weedle_syntax.specs.Steps.{Spends, Steps};
ghost use Rattle.weedle_syntax.specs.Syntax.{RestBegins, IsSyntaxTo, IsRuleFront};

use crate::descent::read;
use crate::limits::Limits;
use crate::narrow::{Narrow, widen};
use crate::node::Node;
use std::alloc::{AllocError, Global};
use weedle_grammar::Rule;
use weedle_starts::source::Source;

/// Writes the nodes of a rule that is read at a place, behind those there, and says where it ends;
/// where it fails, nothing is written.
///
/// The first of them is the rule's own, of depth 0. It reads by descent, and asks for memory for
/// the nodes alone. What it tries is taken from the limits. Where they are spent, or memory is
/// refused, the answer is an error, and what it wrote is of no use; `limits.are_spent()` says which
/// it was.
pub fn lay_by_descent(
    nodes: &mut Vec<Node>,
    text: &Source<'_>,
    rule: Rule,
    place: usize,
    limits: &mut Limits,
) -> Result<Option<usize>, AllocError>
    requires within { place ≤ length text.now }
    ensures end { IfOk result (λ o. HasEnd text.now rule place o) }
    ensures lays { IfOk result
        (λ o. LaysNode text.now rule place 0 nodes.old.items nodes.new.items o) }
    ensures steps { OnOk result
        (Spends (Steps text.now rule place) limits.old.steps limits.new.steps) }
{
    limits.allow(text.len())?;
    let mut more = Vec::new(*nodes.allocator());
    let end = read(&mut more, text, rule, place, 0, limits)?;
    widen(nodes, &more)?;
    Ok(end)
}

/// Writes the nodes of the definitions at the front of a text, and says where the remaining input
/// begins.
pub(crate) fn front_by_descent(
    nodes: &mut Vec<Narrow>,
    raw: &str,
    limits: &mut Limits,
) -> Result<usize, AllocError>
    requires { nodes.old.items ≡ [] }
    ensures end { IfOk result (λ end. RestBegins raw.now end) }
    ensures are { IfOk result (λ end. IsSyntaxTo raw.now end nodes.new.items) }
{
    limits.allow(raw.len())?;
    let text = Source::new(raw.as_bytes());
    match read(nodes, &text, Rule::DEFINITIONS, 0, 0, limits)? {
        Some(end) => Ok(end),
        None => unreachable!(),
    }
}

/// Every rule that was read where a rule is read at the front of a text, in preorder, by descent;
/// None where the rule fails there.
pub(crate) fn rule_by_descent(
    alloc: Global,
    raw: &str,
    rule: Rule,
    limits: &mut Limits,
) -> Result<Option<Vec<Narrow>>, AllocError>
    requires { rule < rule_count }
    ensures fails { IfOk result (λ found. IfNone found (FailsAt raw.now rule 0)) }
    ensures are { IfOk result
        (λ found. IfSome found (λ nodes. IsRuleFront raw.now rule nodes.items)) }
    ensures steps { OnOk result
        (Spends (Steps raw.now rule 0) limits.old.steps limits.new.steps) }
{
    limits.allow(raw.len())?;
    let text = Source::new(raw.as_bytes());
    let mut nodes = Vec::new(alloc);
    match read(&mut nodes, &text, rule, 0, 0, limits)? {
        Some(_) => Ok(Some(nodes)),
        None => Ok(None),
    }
}
