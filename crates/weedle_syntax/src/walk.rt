//! The nodes of a text along what is known of it: its packrat table, or a memo.
//!
//! There is no recursion: nodes wait on a pile, the top goes to the answer, and what it reads
//! directly takes its place.

ghost use Rattle.std.specs.Prelude.{◌≡◌, ◌≤◌, ◌<◌, ◌∷◌, [], ◌++◌, length, reverse, IfOk, OnOk};
ghost use Rattle.weedle_grammar.specs.written.Bound.{rule_count};
ghost use Rattle.weedle_rules.specs.Cells.{HasEnd};
ghost use Rattle.weedle_rules.specs.Outcomes.{EndsAt};
ghost use Rattle.weedle_syntax.specs.Laid.{LaysNode, Piles, node};
ghost use Rattle.weedle_syntax.specs.Syntax.{AreTrees};
ghost use Rattle.weedle_syntax.specs.Table.{IsWanted};

use crate::node::Node;
use crate::on_demand::lay_on_demand;
use crate::table::Table;
use std::alloc::{AllocError, Global};
use weedle_grammar::Rule;
use weedle_rules::Ends;

mod items;
mod parts;
mod rows;

/// Puts nodes on the pile of those that wait, the first of them on top.
fn pile_up(waiting: &mut Vec<Node>, inner: &mut Vec<Node>) -> Result<(), AllocError>
    ensures empty { OnOk result (inner.new.items ≡ []) }
    ensures piled { OnOk result
        (reverse waiting.new.items ≡ inner.old.items ++ reverse waiting.old.items) }
{
    while let Some(node) = inner.pop() {
        waiting.push(node)?;
    }
    Ok(())
}

/// Goes on to the node on top of the pile, and puts the nodes that it reads directly there instead.
fn go_on(
    nodes: &mut Vec<Node>,
    waiting: &mut Vec<Node>,
    inner: &mut Vec<Node>,
    table: &Table<'_, '_>,
    node: Node,
) -> Result<(), AllocError>
    requires empty { inner.old.items ≡ [] }
    requires shallow { node.depth ≤ length nodes.old.items }
    requires within { node.start ≤ length table.now.text }
    requires low { node.rule < rule_count }
    requires reads { EndsAt table.now.text node.rule node.start node.end }
    requires wanted { IsWanted table.now node.rule node.start }
    ensures found { OnOk result (nodes.new.items ≡ nodes.old.items ++ node ∷ []) }
    ensures empty { OnOk result (inner.new.items ≡ []) }
    ensures piled { OnOk result (Piles table.now.text node waiting.old.items waiting.new.items) }
{
    nodes.push(Node {
        rule: node.rule,
        start: node.start,
        end: node.end,
        depth: node.depth,
    })?;
    rows::lay_parts(inner, table, node)?;
    pile_up(waiting, inner)
}

/// The node of the table's rule, which is read from its place up to this end, and all below it.
pub(crate) fn laid_from(
    alloc: Global,
    table: &Table<'_, '_>,
    end: usize,
) -> Result<Vec<Node>, AllocError>
    requires within { table.now.start.place ≤ length table.now.text }
    requires reads { EndsAt table.now.text table.now.start.rule table.now.start.place end }
    ensures { IfOk result (λ nodes. AreTrees table.now.text
        (node table.now.start.rule table.now.start.place end 0 ∷ []) nodes.items) }
{
    let mut nodes = Vec::new(alloc);
    let mut inner = Vec::new(alloc);
    let mut waiting = Vec::new(alloc);
    waiting.push(Node {
        rule: table.rule(),
        start: table.place(),
        end,
        depth: 0,
    })?;
    while let Some(node) = waiting.pop() {
        go_on(&mut nodes, &mut waiting, &mut inner, table, node)?;
    }
    Ok(nodes)
}

/// Writes the nodes of a rule that is read at a place, behind those there, over the packrat table,
/// and says where it ends; where it fails, nothing is written.
///
/// The first of them is the rule's own, of depth 0. There is no recursion, and it asks for memory
/// for the nodes alone; for a rule of today's, which the table lacks, also for a memo of what its
/// reading tries.
pub fn lay_over_table(
    alloc: Global,
    nodes: &mut Vec<Node>,
    ends: &Ends<'_>,
    rule: Rule,
    place: usize,
) -> Result<Option<usize>, AllocError>
    requires { place ≤ length ends.now.text }
    ensures end { IfOk result (λ o. HasEnd ends.now.text rule place o) }
    ensures lays { IfOk result
        (λ o. LaysNode ends.now.text rule place 0 nodes.old.items nodes.new.items o) }
{
    if !rule.is_of_table() {
        return lay_on_demand(alloc, nodes, ends.text(), rule, place);
    }
    match ends.cell(rule, place) {
        Some(end) => {
            let mut more = laid_from(alloc, &Table::of_ends(ends, rule, place), end)?;
            nodes.append(&mut more)?;
            Ok(Some(end))
        }
        None => Ok(None),
    }
}
