//! Nodes that are written to the room that a caller has.

ghost use Rattle.std.specs.Prelude.{◌≡◌, ◌+◌, ◌≤◌, All, length, map};
ghost use Rattle.weedle_syntax.specs.Compact.{IsInside, IsNarrow, IsWrittenAt, node_of, run_nodes};
ghost use Rattle.weedle_syntax.specs.declared.node.Node.{Node as TheNode};

use crate::narrow::Narrow;
use crate::node::Node;
use crate::runs::{Run, Runs, Short};

/// How a caller holds a node, such as one in another language.
pub trait FromNode: Copy {
    ghost of: { TheNode → Self };

    /// The node, as the caller holds it.
    fn from_node(node: Node) -> Self
        requires { IsNarrow node }
        ensures { result ≡ of node };
}

/// Writes the nodes of a run from number `at` of the room on.
pub(crate) fn write_run<T: FromNode>(nodes: &Runs, run: Run, room: &mut [T], at: usize)
    requires inside { IsInside (length nodes.now.shorts.items) (length nodes.now.longs.items) run }
    requires narrow { All IsNarrow (run_nodes nodes.now.shorts.items nodes.now.longs.items run) }
    requires room { at + run.many ≤ length room.old }
    ensures { IsWrittenAt at
        (map T.of (run_nodes nodes.now.shorts.items nodes.now.longs.items run))
        room.old room.new }
{
    let end = run.from + run.many;
    if run.is_long {
        write_longs(&nodes.longs[run.from..end], room, at);
    } else {
        write_shorts(&nodes.shorts[run.from..end], run.base, room, at);
    }
}

/// Writes nodes of 8 bytes, of a run that begins at this place.
fn write_shorts<T: FromNode>(shorts: &[Short], base: u32, room: &mut [T], at: usize)
    requires narrow { All IsNarrow (map (node_of base) shorts.now) }
    requires room { at + length shorts.now ≤ length room.old }
    ensures { IsWrittenAt at (map T.of (map (node_of base) shorts.now)) room.old room.new }
{
    for (i, short) in shorts.iter().enumerate() {
        room[at + i] = T::from_node(short.node(base));
    }
}

/// Writes nodes of 16 bytes.
fn write_longs<T: FromNode>(longs: &[Narrow], room: &mut [T], at: usize)
    requires room { at + length longs.now ≤ length room.old }
    ensures { IsWrittenAt at (map T.of longs.now) room.old room.new }
{
    for (i, node) in longs.iter().enumerate() {
        room[at + i] = T::from_node(node.node());
    }
}
