//! How many nodes are below each.

ghost use Rattle.std.specs.Prelude.{◌≡◌, ◌+◌, ◌<◌, length, IfOk};
ghost use Rattle.weedle_syntax.specs.Tree.{AreCounts, below_of};

use crate::node::Node;
use std::alloc::{AllocError, Global};

/// How many nodes are below a node, where it is known of those behind it.
///
/// It hops from one node to the next that isn't below it.
fn count_behind(nodes: &[Node], below: &[usize], i: usize) -> usize
    requires within { i < length nodes.now }
    requires counted { AreCounts nodes.now below.now (i + 1) }
    ensures { result ≡ below_of nodes.now i }
{
    let many = nodes.len();
    let depth = nodes[i].depth;
    let mut next = i + 1;
    while next < many {
        if nodes[next].depth <= depth {
            return next - i - 1;
        }
        next += 1 + below[next];
    }
    next - i - 1
}

/// How many nodes are below each, from the last node to the first.
///
/// Each node is hopped over once, and looked at once more.
pub(crate) fn count_below(alloc: Global, nodes: &[Node]) -> Result<Vec<usize>, AllocError>
    ensures { IfOk result (λ below. AreCounts nodes.now below.items 0) }
{
    let mut below = vec![in alloc; 0; nodes.len()]?;
    let mut i = nodes.len();
    while i > 0 {
        i -= 1;
        let count = count_behind(nodes, &below, i);
        below[i] = count;
    }
    Ok(below)
}
