//! Iterators over the numbers of nodes, which a [`Syntax`](crate::Syntax) lends.

ghost use Rattle.std.specs.Prelude.{◌≡◌};
ghost use Rattle.std.specs.Iterator.{YieldsFirst, item_count};

use crate::node::Node;
use std::iter::FusedIterator;
use std::marker::Model;

/// The numbers of the nodes that a node reads directly, in their order. From
/// [`Syntax::children`](crate::Syntax::children).
#[derive(Drop)]
pub struct Children<'s> {
    pub(crate) nodes: &'s [Node],
    // how many nodes are below each
    pub(crate) below: &'s [usize],
    // how deep the node itself is
    pub(crate) depth: usize,
    pub(crate) next: usize,
    pub(crate) end: usize,
}

impl<'s> Model for Children<'s> {
    ghost use Rattle.std.specs.Prelude.{ℕ, List};
    ghost use Rattle.weedle_syntax.specs.Tree.{children_from, AreChildren};

    ghost Value = { List ℕ };

    ghost view = { λ c. children_from c.nodes.now c.depth c.next c.end };

    ghost invariant = { λ c. AreChildren c.nodes.now c.below.now c.depth c.next c.end };
}

impl<'s> Iterator for Children<'s> {
    type Item = usize;

    ghost next_gives = { YieldsFirst (λ rest. rest) };

    ghost remaining = { item_count (λ rest. rest) };

    fn next(&mut self) -> Option<usize> {
        if self.next >= self.end {
            return None;
        }
        let child = self.next;
        self.next = child + self.below[child] + 1;
        Some(child)
    }
}

impl<'s> FusedIterator for Children<'s> {}

/// The numbers of the nodes that read no other, in their order. From
/// [`Syntax::leaves`](crate::Syntax::leaves).
#[derive(Drop)]
pub struct Leaves<'s> {
    // how many nodes are below each
    pub(crate) below: &'s [usize],
    pub(crate) next: usize,
}

impl<'s> Model for Leaves<'s> {
    ghost use Rattle.std.specs.Prelude.{◌≤◌, ℕ, List, length};
    ghost use Rattle.weedle_syntax.specs.Tree.{zeros_from};

    ghost Value = { List ℕ };

    ghost view = { λ l. zeros_from l.below.now l.next };

    ghost invariant = { λ l. l.next ≤ length l.below.now };
}

impl<'s> Iterator for Leaves<'s> {
    type Item = usize;

    ghost next_gives = { YieldsFirst (λ rest. rest) };

    ghost remaining = { item_count (λ rest. rest) };

    fn next(&mut self) -> Option<usize> {
        for node in self.next..self.below.len() {
            if self.below[node] == 0 {
                self.next = node + 1;
                return Some(node);
            }
        }
        self.next = self.below.len();
        None
    }
}

impl<'s> FusedIterator for Leaves<'s> {}
