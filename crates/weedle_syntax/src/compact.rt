//! The nodes of a text in 8 bytes each, for callers in other languages.

ghost use Rattle.std.specs.Prelude.{◌≡◌, ◌<◌, ◌≤◌, ◌++◌, drop, length, map, IfOk};
ghost use Rattle.weedle_syntax.specs.Syntax.{rest_of};

use crate::fill::{FromNode, write_run};
use crate::narrow::Narrow;
use crate::runs::{Run, Runs, are_narrow};
use std::alloc::{AllocError, Global};
use std::marker::Model;

/// The nodes of a rule that was read, in preorder: the node of the rule, and all below it in 8
/// bytes each where their depths and their places within a definition are below 2¹⁶, else in 16.
#[derive(Drop)]
pub struct Compact {
    pub(crate) root: Narrow,
    pub(crate) below: Runs,
}

impl Model for Compact {
    ghost use Rattle.std.specs.Prelude.{List, ◌∷◌};
    ghost use Rattle.weedle_syntax.specs.declared.node.Node.{Node as TheNode};
    ghost use Rattle.weedle_syntax.specs.Compact.{AreRuns, nodes_of};

    ghost Value = { List TheNode };

    ghost view = { λ nodes. nodes.root ∷ nodes_of nodes.below };

    ghost invariant = { λ nodes. AreRuns nodes.below };
}

impl Compact {
    /// How many nodes there are.
    pub fn len(&self) -> usize
        ensures { result ≡ length self.now }
    {
        self.below.many
    }

    /// These nodes, of which the first is the root.
    pub(crate) fn of(alloc: Global, nodes: Vec<Narrow>) -> Result<Compact, AllocError>
        requires { 0 < length nodes.items }
        ensures { IfOk result (λ compact. compact ≡ nodes.items) }
    {
        are_narrow(&nodes);
        let (root, many) = (nodes[0], nodes.len());
        let mut runs = Vec::new(alloc);
        runs.push(Run {
            base: 0,
            is_long: true,
            from: 1,
            many: many - 1,
        })?;
        let below = Runs {
            runs,
            shorts: Vec::new(alloc),
            longs: nodes,
            many,
        };
        Ok(Compact { root, below })
    }

    /// Where the rule ends.
    pub fn end(&self) -> usize
        ensures { result ≡ rest_of self.now }
    {
        self.root.node().end
    }

    /// Writes the nodes to the front of the room, as the caller holds them.
    pub fn write_to<T: FromNode>(&self, room: &mut [T])
        requires { length self.now ≤ length room.old }
        ensures { room.new ≡ map T.of self.now ++ drop (length self.now) room.old }
    {
        room[0] = T::from_node(self.root.node());
        let mut at = 1;
        for run in &self.below.runs {
            write_run(&self.below, *run, room, at);
            at += run.many;
        }
    }
}
