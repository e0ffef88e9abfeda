//! The calls that write the nodes of a text over a memo of what their reading needs.

ghost use Rattle.std.specs.Prelude.{◌≡◌, ◌≤◌, ◌↔◌, All, IsSome, IfOk, IfSome, IfNone, length};
ghost use Rattle.weedle_rules.specs.Cells.{HasEnd};
ghost use Rattle.weedle_rules.specs.Outcomes.{FailsAt};
ghost use Rattle.weedle_syntax.specs.Laid.{LaysNode};
ghost use Rattle.weedle_syntax.specs.Syntax.{
  IsWhole,
  IsSyntax,
  IsFront,
  IsRead,
  IsRuleFront,
  leaves_of,
};

use crate::node::Node;
use crate::table::Table;
use crate::walk::laid_from;
use std::alloc::{AllocError, Global};
use weedle_grammar::Rule;
use weedle_memo::{RuleMemo, Tables};

/// Every rule that was read where the text is read whole, in preorder; None where it isn't.
///
/// The first node is that of the whole text. Behind a node are those that it reads directly, each
/// before its own: so what is below a node are the nodes behind it as long as they are deeper. For
/// `interface A {` the answer is None.
///
/// It asks for memory for a memo of what the reading tries, as `RuleMemo::new` says, and for the
/// nodes: about one for each byte of a text. Where that is refused, the answer is an error. There
/// is no recursion, however deep the text nests, and no rule is worked out twice at a place.
pub fn syntax(alloc: Global, raw: &str) -> Result<Option<Vec<Node>>, AllocError>
    ensures whole { IfOk result (λ found. IsSome found ↔ IsWhole raw.now) }
    ensures are { IfOk result (λ found. IfSome found (λ nodes. IsSyntax raw.now nodes.items)) }

    // The bytes of the leaves, one after another, are the text.
    ensures lossless { IfOk result
        (λ found. IfSome found (λ nodes. leaves_of raw.now nodes.items ≡ raw.now)) }

    // Each node was read from its start to its end, and characters begin there.
    ensures read { IfOk result
        (λ found. IfSome found (λ nodes. All (IsRead raw.now) nodes.items)) }
{
    let tables = Tables::new();
    let memo = RuleMemo::new(alloc, raw, &tables, Rule::DEFINITIONS, 0)?;
    match memo.rule_end() {
        Some(end) => {
            if end == raw.len() {
                let table = Table::of_memo(&memo, raw, Rule::DEFINITIONS, 0);
                let nodes = laid_from(alloc, &table, end)?;
                return Ok(Some(nodes));
            }
            Ok(None)
        }
        None => Ok(None),
    }
}

/// Every rule that was read of the definitions at the front of a text, in preorder.
pub(crate) fn front_on_demand(alloc: Global, raw: &str) -> Result<Vec<Node>, AllocError>
    ensures { IfOk result (λ nodes. IsFront raw.now nodes.items) }
{
    match rule_on_demand(alloc, raw, Rule::DEFINITIONS)? {
        Some(nodes) => Ok(nodes),
        None => unreachable!(),
    }
}

/// Every rule that was read where a rule is read at the front of a text, in preorder; None where
/// the rule fails there.
pub(crate) fn rule_on_demand(
    alloc: Global,
    raw: &str,
    rule: Rule,
) -> Result<Option<Vec<Node>>, AllocError>
    ensures fails { IfOk result (λ found. IfNone found (FailsAt raw.now rule 0)) }
    ensures are { IfOk result
        (λ found. IfSome found (λ nodes. IsRuleFront raw.now rule nodes.items)) }
{
    let tables = Tables::new();
    let memo = RuleMemo::new(alloc, raw, &tables, rule, 0)?;
    match memo.rule_end() {
        Some(end) => {
            let nodes = laid_from(alloc, &Table::of_memo(&memo, raw, rule, 0), end)?;
            Ok(Some(nodes))
        }
        None => Ok(None),
    }
}

/// Writes the nodes of a rule that is read at a place, behind those there, and says where it ends;
/// where it fails, nothing is written.
pub(crate) fn lay_on_demand(
    alloc: Global,
    nodes: &mut Vec<Node>,
    raw: &str,
    rule: Rule,
    place: usize,
) -> Result<Option<usize>, AllocError>
    requires { place ≤ length raw.now }
    ensures end { IfOk result (λ o. HasEnd raw.now rule place o) }
    ensures lays { IfOk result
        (λ o. LaysNode raw.now rule place 0 nodes.old.items nodes.new.items o) }
{
    let tables = Tables::new();
    let memo = RuleMemo::new(alloc, raw, &tables, rule, place)?;
    match memo.rule_end() {
        Some(end) => {
            let mut more = laid_from(alloc, &Table::of_memo(&memo, raw, rule, place), end)?;
            nodes.append(&mut more)?;
            Ok(Some(end))
        }
        None => Ok(None),
    }
}
