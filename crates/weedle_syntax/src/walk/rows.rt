//! What a node reads directly, by its row: a function for each kind of row.

ghost use Rattle.std.specs.Prelude.{◌^◌, ◌≡◌, ◌≤◌, ◌<◌, ◌+◌, [], length, OnOk};
ghost use Rattle.weedle_grammar.specs.written.Bound.{rule_count};
ghost use Rattle.weedle_grammar.specs.written.Table.{row_of as the_row_of};
ghost use Rattle.weedle_rules.specs.Outcomes.{EndsAt};
ghost use Rattle.weedle_syntax.specs.Parts.{HasParts};
ghost use Rattle.weedle_syntax.specs.Table.{IsWanted};

use super::items::{listed, many, optional, tail};
use super::parts::{by_choice, conditional, in_turn};
use crate::node::Node;
use crate::table::Table;
use std::alloc::AllocError;
use weedle_grammar::{Row, row_of};

/// Writes the nodes that a node reads directly.
pub(crate) fn lay_parts(
    inner: &mut Vec<Node>,
    table: &Table<'_, '_>,
    node: Node,
) -> Result<(), AllocError>
    requires empty { inner.old.items ≡ [] }
    requires shallow { node.depth + 1 < 2 ^ 64 }
    requires within { node.start ≤ length table.now.text }
    requires low { node.rule < rule_count }
    requires reads { EndsAt table.now.text node.rule node.start node.end }
    requires wanted { IsWanted table.now node.rule node.start }
    ensures { OnOk result (HasParts table.now.text node inner.new.items) }
{
    let depth = node.depth + 1;
    match row_of(node.rule) {
        Row::Bytes(_) | Row::OneOf(_) | Row::NotNext(_) | Row::Run(_) | Row::Past(_) => Ok(()),
        Row::Seq(parts) => {
            in_turn(inner, table, parts, depth, node.start)?;
            Ok(())
        }
        Row::First(parts) => by_choice(inner, table, node, parts, depth),
        Row::Opt(item) => optional(inner, table, node, item, depth),
        Row::Many(item) => many(inner, table, node, item, depth),
        Row::List(item, rest) => listed(inner, table, node, item, rest, depth),
        Row::List1(item, rest) => {
            listed(inner, table, node, item, rest, depth)?;
            Ok(())
        }
        Row::Tail(item, separator) => tail(inner, table, node, item, separator, depth),
        Row::If(parts, k, y) => conditional(inner, table, node, parts, k, y, depth),
    }
}
