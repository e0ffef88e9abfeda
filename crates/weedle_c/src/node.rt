//! Nodes as C has them.

ghost use Rattle.std.specs.Prelude.{◌≡◌, ◌≤◌, ◌↔◌, ◌++◌, All, IsTrue, drop, length, map};
ghost use Rattle.weedle_c.specs.Nodes.{c_node};
ghost use Rattle.weedle_syntax.specs.Compact.{IsNarrow};

use weedle_syntax::{FromNode, Node};

/// A rule that was read, and the bytes that it took.
#[repr(C)]
#[derive(Clone, Copy)]
pub struct WeedleNode {
    /// The number of the rule.
    pub rule: u32,
    /// How many nodes it is in.
    pub depth: u32,
    /// Where it begins, in bytes from the front of the text.
    pub start: u32,
    /// Where it ends: the place behind its last byte.
    pub end: u32,
}

impl FromNode for WeedleNode {
    ghost of = { c_node };

    #[inline(always)]
    fn from_node(node: Node) -> WeedleNode {
        WeedleNode {
            rule: u32::from(node.rule.number()),
            depth: node.depth as u32,
            start: node.start as u32,
            end: node.end as u32,
        }
    }
}

/// The greatest number that a node holds.
pub const MOST: usize = u32::MAX as usize;

/// Whether each node fits into the numbers that C has for it.
pub(crate) fn all_fit(found: &[Node]) -> bool
    ensures { IsTrue result ↔ All IsNarrow found.now }
{
    found.iter().all(fits)
}

/// Whether the node's places and depth fit.
fn fits(node: &Node) -> bool
    ensures { IsTrue result ↔ IsNarrow node.now }
{
    node.depth <= MOST && node.start <= MOST && node.end <= MOST
}

/// Writes the nodes to the front of the room.
pub(crate) fn fill(found: &[Node], room: &mut [WeedleNode])
    requires room { length found.now ≤ length room.old }
    requires fit { All IsNarrow found.now }
    ensures { room.new ≡ map c_node found.now ++ drop (length found.now) room.old }
{
    for (at, node) in found.iter().enumerate() {
        room[at] = WeedleNode::from_node(*node);
    }
}
