//! The calls that write the nodes of a text, over its packrat table and by descent.

ghost use Rattle.std.specs.Prelude.{◌≡◌, ◌↔◌, All, IsSome, IfOk, IfSome, IfNone};
ghost use Rattle.weedle_rules.specs.Outcomes.{FailsAt};
ghost use Rattle.weedle_syntax.specs.Syntax.{
  IsWhole,
  IsSyntax,
  IsFront,
  IsRead,
  IsRuleFront,
  leaves_of,
};

use crate::lay::front_by_descent;
use crate::limits::Limits;
use crate::narrow::widened;
use crate::node::Node;
use crate::on_demand::rule_on_demand;
use crate::table::Table;
use crate::walk::laid_from;
use std::alloc::{AllocError, Global};
use weedle_grammar::Rule;
use weedle_rules::Ends;

/// Every rule that was read of a text that is read whole, in preorder, over its packrat table.
///
/// It asks for memory for the nodes alone.
pub fn syntax_of(alloc: Global, ends: &Ends<'_>) -> Result<Option<Vec<Node>>, AllocError>
    ensures whole { IfOk result (λ found. IsSome found ↔ IsWhole ends.now.text) }
    ensures are { IfOk result
        (λ found. IfSome found (λ nodes. IsSyntax ends.now.text nodes.items)) }
    ensures lossless { IfOk result
        (λ found. IfSome found (λ nodes. leaves_of ends.now.text nodes.items ≡ ends.now.text)) }
    ensures read { IfOk result
        (λ found. IfSome found (λ nodes. All (IsRead ends.now.text) nodes.items)) }
{
    match ends.cell(Rule::DEFINITIONS, 0) {
        Some(end) => {
            if end == ends.text().len() {
                let nodes = laid_from(alloc, &Table::of_ends(ends, Rule::DEFINITIONS, 0), end)?;
                return Ok(Some(nodes));
            }
            Ok(None)
        }
        None => Ok(None),
    }
}

/// Every rule that was read of a text that is read whole, in preorder, by descent from its front
/// and without a table.
///
/// It asks for memory for the nodes alone. Where an attempt fails, its nodes are taken back, and
/// what is tried again is read again: so a text that nests extended attributes may take a time that
/// grows exponentially, and one that nests deeply ends the stack.
/// [`syntax_quick`](crate::syntax_quick) takes it where neither can be.
pub fn syntax_by_descent(alloc: Global, raw: &str) -> Result<Option<Vec<Node>>, AllocError>
    ensures whole { IfOk result (λ found. IsSome found ↔ IsWhole raw.now) }
    ensures are { IfOk result (λ found. IfSome found (λ nodes. IsSyntax raw.now nodes.items)) }
    ensures lossless { IfOk result
        (λ found. IfSome found (λ nodes. leaves_of raw.now nodes.items ≡ raw.now)) }
    ensures read { IfOk result
        (λ found. IfSome found (λ nodes. All (IsRead raw.now) nodes.items)) }
{
    let mut limits = Limits {
        steps: usize::MAX,
        depth: usize::MAX,
    };
    whole_within(alloc, raw, &mut limits)
}

/// Every rule that was read of a text that is read whole, in preorder, by descent within limits.
pub(crate) fn whole_within(
    alloc: Global,
    raw: &str,
    limits: &mut Limits,
) -> Result<Option<Vec<Node>>, AllocError>
    ensures whole { IfOk result (λ found. IsSome found ↔ IsWhole raw.now) }
    ensures are { IfOk result (λ found. IfSome found (λ nodes. IsSyntax raw.now nodes.items)) }
    ensures lossless { IfOk result
        (λ found. IfSome found (λ nodes. leaves_of raw.now nodes.items ≡ raw.now)) }
    ensures read { IfOk result
        (λ found. IfSome found (λ nodes. All (IsRead raw.now) nodes.items)) }
{
    let mut narrow = Vec::new(alloc);
    let end = front_by_descent(&mut narrow, raw, limits)?;
    if end == raw.len() {
        let nodes = widened(alloc, &narrow)?;
        return Ok(Some(nodes));
    }
    Ok(None)
}

/// Every rule that was read of the definitions at the front of a text, in preorder, over the
/// packrat table of the whole text.
///
/// It asks for memory for the nodes alone.
pub fn front_of(alloc: Global, ends: &Ends<'_>) -> Result<Vec<Node>, AllocError>
    ensures { IfOk result (λ nodes. IsFront ends.now.text nodes.items) }
{
    match ends.cell(Rule::DEFINITIONS, 0) {
        Some(end) => laid_from(alloc, &Table::of_ends(ends, Rule::DEFINITIONS, 0), end),
        None => unreachable!(),
    }
}

/// Every rule that was read where a rule is read at the front of a text, in preorder, over the
/// packrat table of the whole text; None where the rule fails there.
///
/// It asks for memory for the nodes alone. A rule of today's, which the table lacks, is read over a
/// memo, as [`syntax_of_rule`](crate::syntax_of_rule) says.
pub fn rule_of_table(
    alloc: Global,
    ends: &Ends<'_>,
    rule: Rule,
) -> Result<Option<Vec<Node>>, AllocError>
    ensures fails { IfOk result (λ found. IfNone found (FailsAt ends.now.text rule 0)) }
    ensures are { IfOk result
        (λ found. IfSome found (λ nodes. IsRuleFront ends.now.text rule nodes.items)) }
{
    if !rule.is_of_table() {
        return rule_on_demand(alloc, ends.text(), rule);
    }
    match ends.cell(rule, 0) {
        Some(end) => {
            let nodes = laid_from(alloc, &Table::of_ends(ends, rule, 0), end)?;
            Ok(Some(nodes))
        }
        None => Ok(None),
    }
}
