//! The nodes above the one that comes next, while nodes are gone through.

ghost use Rattle.std.specs.Prelude.{◌≡◌, ◌<◌, ◌+◌, true, false, length, IfOk, OnOk, MatchOption};
ghost use Rattle.weedle_syntax.specs.Tree.{node_at};
ghost use Rattle.weedle_places.specs.Above.{AreAbove, AreOpen};
ghost use Rattle.weedle_places.specs.Names.{HasRole, is_name};

use crate::role::{Role, role_of};
use std::alloc::AllocError;
use weedle_grammar::Rule;
use weedle_syntax::Syntax;

/// A node above the one that comes next.
#[derive(Clone, Copy)]
pub(crate) struct Above {
    pub(crate) node: usize,
    // whether it has read a name
    pub(crate) named: bool,
}

/// Goes on to a node, the one behind those that are open: its role, where it is a name.
pub(crate) fn role_at(
    above: &mut Vec<Above>,
    syntax: &Syntax<'_>,
    i: usize,
) -> Result<Option<Role>, AllocError>
    requires within { i < length syntax.now.nodes }
    requires open { AreOpen syntax.now.nodes i above.old.items }
    ensures open { OnOk result (AreOpen syntax.now.nodes (i + 1) above.new.items) }
    ensures role { IfOk result
        (λ found. MatchOption found (is_name syntax.now.nodes i ≡ false)
        (λ role. (is_name syntax.now.nodes i ≡ true) × HasRole syntax.now.nodes i role)) }
{
    let node = syntax.nodes()[i];
    above.truncate(node.depth);
    let mut role = None;
    if node.rule == Rule::IDENTIFIER {
        role = Some(name_below(above, syntax, i)?);
    }
    above.push(Above {
        node: i,
        named: false,
    })?;
    Ok(role)
}

/// The role of a name right below the last of these nodes, which has then read a name.
fn name_below(above: &mut Vec<Above>, syntax: &Syntax<'_>, i: usize) -> Result<Role, AllocError>
    requires within { i < length syntax.now.nodes }
    requires name { is_name syntax.now.nodes i ≡ true }
    requires above { AreAbove syntax.now.nodes i 0 above.old.items }
    requires many { length above.old.items ≡ (node_at syntax.now.nodes i).depth }
    ensures above { OnOk result (AreAbove syntax.now.nodes (i + 1) 0 above.new.items) }
    ensures many { OnOk result (length above.new.items ≡ length above.old.items) }
    ensures role { IfOk result (λ role. HasRole syntax.now.nodes i role) }
{
    // The node's number stands for the contract alone.
    let _ = i;
    let nodes = syntax.nodes();
    let Some(last) = above.pop() else {
        unreachable!();
    };
    let rule = nodes[last.node].rule;
    let Some(role) = role_of(rule, last.named) else {
        unreachable!();
    };
    above.push(Above {
        node: last.node,
        named: true,
    })?;
    Ok(role)
}
