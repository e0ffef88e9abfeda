//! Nodes in 16 bytes each, as a descent writes them.

ghost use Rattle.std.specs.Prelude.{◌≡◌, [], ◌∷◌, ◌++◌, length, IfOk};
ghost use Rattle.weedle_syntax.specs.Compact.{IsNarrow};
ghost use Rattle.weedle_syntax.specs.Laid.{node as the_node};

use crate::node::Node;
use std::alloc::{AllocError, Global};
use std::marker::Model;
use weedle_grammar::Rule;

/// The greatest place and depth of a narrow node.
pub(crate) const MOST: usize = u32::MAX as usize;

/// A [`Node`] in 16 bytes: its places and its depth are below 2³².
#[derive(Clone, Copy)]
pub struct Narrow {
    rule: Rule,
    depth: u32,
    start: u32,
    end: u32,
}

impl Model for Narrow {
    ghost use Rattle.weedle_syntax.specs.declared.node.Node.{Node as TheNode};

    ghost Value = { TheNode };

    ghost view = { λ n. record { rule = n.rule; start = n.start; end = n.end; depth = n.depth } };

    ghost inverse = { λ n. record { rule = n.rule; depth = n.depth; start = n.start; end = n.end } };
}

impl Narrow {
    /// The node.
    #[inline(always)]
    pub fn node(self) -> Node
        ensures same { result ≡ self }
        ensures narrow { IsNarrow result }
    {
        Node {
            rule: self.rule,
            start: self.start as usize,
            end: self.end as usize,
            depth: self.depth as usize,
        }
    }
}

/// The node of these. It is an error where its places or its depth are 2³² or more.
#[inline(always)]
pub(crate) fn packed(
    rule: Rule,
    start: usize,
    end: usize,
    depth: usize,
) -> Result<Narrow, AllocError>
    ensures { IfOk result (λ n. n ≡ the_node rule start end depth) }
{
    if start > MOST || end > MOST || depth > MOST {
        return Err(AllocError);
    }
    Ok(Narrow {
        rule,
        depth: depth as u32,
        start: start as u32,
        end: end as u32,
    })
}

/// Writes a node behind the others. It is an error where its places or its depth are 2³² or more,
/// and where memory is refused.
#[inline(always)]
pub(crate) fn lay(
    nodes: &mut Vec<Narrow>,
    rule: Rule,
    start: usize,
    end: usize,
    depth: usize,
) -> Result<(), AllocError>
    ensures items { IfOk result
        (λ _. nodes.new.items ≡ nodes.old.items ++ the_node rule start end depth ∷ []) }
{
    let node = packed(rule, start, end, depth)?;
    nodes.push(node)?;
    Ok(())
}

/// Puts the nodes behind those there.
pub(crate) fn widen(nodes: &mut Vec<Node>, narrow: &[Narrow]) -> Result<(), AllocError>
    ensures { IfOk result (λ _. nodes.new.items ≡ nodes.old.items ++ narrow.now) }
{
    nodes.reserve(narrow.len())?;
    for i in 0..narrow.len() {
        nodes.push(narrow[i].node())?;
    }
    Ok(())
}

/// The same nodes with numbers of any size.
pub(crate) fn widened(alloc: Global, narrow: &[Narrow]) -> Result<Vec<Node>, AllocError>
    ensures { IfOk result (λ nodes. nodes.items ≡ narrow.now) }
{
    let mut nodes = Vec::with_capacity(alloc, narrow.len())?;
    widen(&mut nodes, narrow)?;
    Ok(nodes)
}

/// The same nodes in 16 bytes each. It is an error where one's places or depth are 2³² or more.
pub(crate) fn narrowed(alloc: Global, nodes: &[Node]) -> Result<Vec<Narrow>, AllocError>
    ensures { IfOk result (λ narrow. narrow.items ≡ nodes.now) }
{
    let mut narrow = Vec::with_capacity(alloc, nodes.len())?;
    for i in 0..nodes.len() {
        let node = nodes[i];
        lay(&mut narrow, node.rule, node.start, node.end, node.depth)?;
    }
    Ok(narrow)
}
