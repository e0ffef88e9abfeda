//! A text with its nodes, to go from node to node.

ghost use Rattle.std.specs.Prelude.{
  ◌≡◌,
  ◌≤◌,
  ◌<◌,
  ◌+◌,
  ◌↔◌,
  ℕ,
  length,
  IsTrue,
  IsSome,
  IfOk,
  IfSome,
  IfNone,
  MatchOption,
};
ghost use Rattle.weedle_grammar.specs.Meaning.{between};
ghost use Rattle.weedle_syntax.specs.declared.dialect.Dialect.TheVariants.{Weedle2};
ghost use Rattle.weedle_syntax.specs.Dialects.{
  start_of,
  RestBeginsIn,
  IsWholeIn,
  IsFrontIn,
  IsSyntaxIn,
};
ghost use Rattle.weedle_syntax.specs.Syntax.{IsWhole, IsSyntax, IsFront, rest_of, node_to};
ghost use Rattle.weedle_syntax.specs.Tree.{
  node_at,
  below_of,
  IsChild,
  IsLeaf,
  HasRule,
  FindsNext,
  IsLeafAt,
  children_of,
  leaf_numbers,
};

use crate::below::count_below;
use crate::dialect::{Dialect, front_in};
use crate::iter::{Children, Leaves};
use crate::node::Node;
use crate::quick::syntax_of_front;
use crate::readers::syntax_of;
use std::alloc::{AllocError, Global};
use std::marker::Model;
use weedle_grammar::Rule;
use weedle_rules::Ends;

/// A text with its nodes, to go from node to node.
///
/// A node is named by its number in preorder, from 0 on. So a node's number is greater than those
/// of the nodes that it is in, and what is below a node has the numbers behind its own.
///
/// In `enum E { "a" };` node 0 is the root, of the rule `DEFINITIONS`, and node 1 its child, of the
/// rule `DEFINITION`. By today's rules the root is of `TODAY_DEFINITIONS`, and its child of
/// `TODAY_PIECE`.
#[derive(Drop)]
pub struct Syntax<'a> {
    text: &'a str,
    dialect: Dialect,
    nodes: Vec<Node>,
    // how many nodes are below each
    below: Vec<usize>,
}

impl<'a> Model for Syntax<'a> {
    ghost use Rattle.weedle_syntax.specs.SyntaxView.{SyntaxView};

    ghost Value = { SyntaxView };

    ghost view = { λ s. record { text = s.text.now; dialect = s.dialect; nodes = s.nodes.items } };

    ghost use Rattle.weedle_syntax.specs.Tree.{IsTree};

    ghost invariant = { λ s. IsTree s.text.now s.dialect s.nodes.items s.below.items };
}

impl<'a> Syntax<'a> {
    /// The nodes of a text that weedle2's rules read whole; None of one that they don't, as
    /// `interface A {`.
    ///
    /// It reads as [`syntax_quick`](crate::syntax_quick) does, and costs the same; besides, it asks
    /// for memory once, 8 bytes for each node. Where memory is refused, the answer is an error.
    pub fn new(alloc: Global, text: &'a str) -> Result<Option<Syntax<'a>>, AllocError>
        ensures whole { IfOk result (λ found. IsSome found ↔ IsWhole text.entry.now) }
        ensures text { IfOk result (λ found. IfSome found (λ s. s.text ≡ text.entry.now)) }
        ensures are { IfOk result (λ found. IfSome found (λ s. IsSyntax s.text s.nodes)) }
        ensures dialect { IfOk result (λ found. IfSome found (λ s. s.dialect ≡ Weedle2)) }

        // The same as `are`, in the words of the calls over a tree of any dialect.
        ensures same { IfOk result
            (λ found. IfSome found (λ s. IsSyntaxIn s.dialect s.text s.nodes)) }
    {
        let syntax = Syntax::of_front(alloc, text)?;
        if syntax.rest() == text.len() {
            return Ok(Some(syntax));
        }
        Ok(None)
    }

    /// The nodes of a text that the dialect's rules read whole; None of one that they don't: of
    /// `[Exposed=*] interface A {};` there is a tree by today's rules alone.
    ///
    /// It reads as [`syntax_quick_in`](crate::syntax_quick_in) does, and costs the same; besides,
    /// it asks for memory once, 8 bytes for each node. Where memory is refused, the answer is an
    /// error.
    pub fn new_in(
        alloc: Global,
        text: &'a str,
        dialect: Dialect,
    ) -> Result<Option<Syntax<'a>>, AllocError>
        ensures whole { IfOk result (λ found. IsSome found ↔ IsWholeIn dialect text.entry.now) }
        ensures text { IfOk result (λ found. IfSome found (λ s. s.text ≡ text.entry.now)) }
        ensures are { IfOk result
            (λ found. IfSome found (λ s. IsSyntaxIn dialect s.text s.nodes)) }
        ensures dialect { IfOk result (λ found. IfSome found (λ s. s.dialect ≡ dialect)) }
        ensures same { IfOk result
            (λ found. IfSome found (λ s. IsSyntaxIn s.dialect s.text s.nodes)) }
    {
        let front = Syntax::of_front_in(alloc, text, dialect)?;
        if front.rest() == text.len() {
            return Ok(Some(front));
        }
        Ok(None)
    }

    /// The nodes of the definitions at the front of a text, whatever follows them.
    ///
    /// [`rest`](Syntax::rest) says where the remaining input begins, which no definition reads: so
    /// a tool has a tree while a text is written. It costs what [`new`](Syntax::new) costs. Where
    /// memory is refused, the answer is an error.
    pub fn of_front(alloc: Global, text: &'a str) -> Result<Syntax<'a>, AllocError>
        ensures text { IfOk result (λ s. s.text ≡ text.entry.now) }
        ensures are { IfOk result (λ s. IsFront s.text s.nodes) }
        ensures dialect { IfOk result (λ s. s.dialect ≡ Weedle2) }
    {
        let nodes = syntax_of_front(alloc, text)?;
        let below = count_below(alloc, &nodes)?;
        Ok(Syntax {
            text,
            dialect: Dialect::Weedle2,
            nodes,
            below,
        })
    }

    /// The nodes of what the dialect's rules read at the front of a text, whatever follows it.
    ///
    /// Of `[A=*] interface B {}; interface` today's rules read the definition, and
    /// [`rest`](Syntax::rest) is 22; weedle2's read nothing, and it is 0. It costs what
    /// [`new_in`](Syntax::new_in) costs. Where memory is refused, the answer is an error.
    pub fn of_front_in(
        alloc: Global,
        text: &'a str,
        dialect: Dialect,
    ) -> Result<Syntax<'a>, AllocError>
        ensures text { IfOk result (λ s. s.text ≡ text.entry.now) }
        ensures are { IfOk result (λ s. IsFrontIn dialect s.text s.nodes) }
        ensures dialect { IfOk result (λ s. s.dialect ≡ dialect) }
    {
        let nodes = front_in(alloc, text, dialect)?;
        let below = count_below(alloc, &nodes)?;
        Ok(Syntax {
            text,
            dialect,
            nodes,
            below,
        })
    }

    /// The nodes of a text that weedle2's rules read whole, over its packrat table; None of others.
    ///
    /// It asks for memory for the nodes, and once for 8 bytes for each.
    pub fn of_table(alloc: Global, ends: &Ends<'a>) -> Result<Option<Syntax<'a>>, AllocError>
        ensures whole { IfOk result (λ found. IsSome found ↔ IsWhole ends.now.text) }
        ensures text { IfOk result (λ found. IfSome found (λ s. s.text ≡ ends.now.text)) }
        ensures are { IfOk result (λ found. IfSome found (λ s. IsSyntax s.text s.nodes)) }
        ensures dialect { IfOk result (λ found. IfSome found (λ s. s.dialect ≡ Weedle2)) }
        ensures same { IfOk result
            (λ found. IfSome found (λ s. IsSyntaxIn s.dialect s.text s.nodes)) }
    {
        match syntax_of(alloc, ends)? {
            Some(nodes) => {
                let below = count_below(alloc, &nodes)?;
                Ok(Some(Syntax {
                    text: ends.text(),
                    dialect: Dialect::Weedle2,
                    nodes,
                    below,
                }))
            }
            None => Ok(None),
        }
    }

    /// The text. It takes no memory, as none of the following except for those that return a `Vec`.
    pub fn text(&self) -> &'a str
        ensures { result.now ≡ self.now.text }
    {
        self.text
    }

    /// Whose rules the text is read by.
    pub fn dialect(&self) -> Dialect
        ensures { result ≡ self.now.dialect }
    {
        self.dialect
    }

    /// The nodes, in preorder.
    pub fn nodes(&self) -> &[Node]
        ensures are { result.now ≡ self.now.nodes }
        ensures front { IsFrontIn self.now.dialect self.now.text result.now }
    {
        &self.nodes
    }

    /// Where the remaining input begins, in bytes: the end of the text, where it is read whole.
    pub fn rest(&self) -> usize
        ensures value { result ≡ rest_of self.now.nodes }
        ensures begins { RestBeginsIn self.now.dialect self.now.text result }
    {
        self.nodes[0].end
    }

    /// The root: the node of the rule that [`Dialect::start`] gives. It has number 0.
    pub fn root(&self) -> usize
        ensures within { result < length self.now.nodes }
        ensures first { result ≡ 0 }
        ensures root { node_at self.now.nodes result
            ≡ node_to (start_of self.now.dialect) (rest_of self.now.nodes) }
    {
        let _ = &self.nodes;
        0
    }

    /// How many nodes are below a node: they have the numbers behind its own. One step.
    pub fn below(&self, node: usize) -> usize
        requires { node < length self.now.nodes }
        ensures value { result ≡ below_of self.now.nodes node }
        ensures within { node + result < length self.now.nodes }
    {
        self.below[node]
    }

    /// The bytes of a node. One step.
    ///
    /// Most rules take the whitespace and comments behind them, so in `interface A {};` the text of
    /// the keyword's node is `interface ` with the space.
    pub fn text_of(&self, node: usize) -> &'a str
        requires { node < length self.now.nodes }
        ensures { result.now
            ≡ between self.now.text
            (node_at self.now.nodes node).start (node_at self.now.nodes node).end }
    {
        let node = self.nodes[node];
        &self.text[node.start..node.end]
    }

    /// The first of the nodes that a node reads directly, if there is one. One step.
    pub fn first_child(&self, node: usize) -> Option<usize>
        requires { node < length self.now.nodes }
        ensures { MatchOption result (IsLeaf self.now.nodes node)
            (λ child. (child ≡ node + 1) × IsChild self.now.nodes node child) }
    {
        if self.below[node] == 0 {
            None
        } else {
            Some(node + 1)
        }
    }

    /// The next node that is read directly by the same node, if there is one. One step.
    pub fn next_sibling(&self, node: usize) -> Option<usize>
        requires { node < length self.now.nodes }

        // The sibling is the node behind all that is below, and has the same parent.
        ensures some { IfSome result
            (λ next. (next ≡ node + below_of self.now.nodes node + 1)
            × (next < length self.now.nodes)
            × ((p : ℕ) → IsChild self.now.nodes p node → IsChild self.now.nodes p next)) }

        // Without one, the parent ends with the node.
        ensures none { IfNone result
            ((p : ℕ) → IsChild self.now.nodes p node
            → p + below_of self.now.nodes p ≡ node + below_of self.now.nodes node) }
    {
        let many = self.nodes.len();
        let next = node + self.below[node] + 1;
        if next < many {
            if self.nodes[next].depth == self.nodes[node].depth {
                return Some(next);
            }
        }
        None
    }

    /// The nodes that a node reads directly, in their order. It takes a step for each.
    ///
    /// Those of the root are the definitions; by today's rules each is in a node of `TODAY_PIECE`.
    pub fn children(&self, node: usize) -> Children<'_>
        requires { node < length self.now.nodes }
        ensures { result ≡ children_of self.now.nodes node }
    {
        Children {
            nodes: &self.nodes,
            below: &self.below,
            depth: self.nodes[node].depth,
            next: node + 1,
            end: node + 1 + self.below[node],
        }
    }

    /// The node that reads a node directly; None of the root.
    ///
    /// It looks back from the node: a step for each node between the two.
    pub fn parent(&self, node: usize) -> Option<usize>
        requires { node < length self.now.nodes }
        ensures { MatchOption result (node ≡ 0) (λ parent. IsChild self.now.nodes parent node) }
    {
        let depth = self.nodes[node].depth;
        let mut at = node;
        while at > 0 {
            at -= 1;
            if self.nodes[at].depth < depth {
                return Some(at);
            }
        }
        None
    }

    /// The leaf that holds a byte: the deepest node there. None from where the remaining input
    /// begins on.
    ///
    /// It halves the nodes: of a million it looks at 20.
    pub fn at(&self, byte: usize) -> Option<usize>
        ensures { MatchOption result (rest_of self.now.nodes ≤ byte)
            (λ leaf. IsLeafAt self.now.nodes byte leaf) }
    {
        if byte >= self.rest() {
            return None;
        }
        let mut low = 0;
        let mut high = self.nodes.len();
        while low + 1 < high {
            let middle = low + (high - low) / 2;
            if self.nodes[middle].start <= byte {
                low = middle;
            } else {
                high = middle;
            }
        }
        Some(low)
    }

    /// The first node of a rule from a number on. A step for each node that it passes.
    pub fn find(&self, rule: Rule, from: usize) -> Option<usize>
        ensures { FindsNext (HasRule self.now.nodes rule) from (length self.now.nodes) result }
    {
        for node in from..self.nodes.len() {
            if self.nodes[node].rule == rule {
                return Some(node);
            }
        }
        None
    }

    /// The leaves, in their order: the nodes that read no other. A step for each node.
    ///
    /// Their bytes, one after another, are the text up to where the remaining input begins. Some
    /// take no byte.
    pub fn leaves(&self) -> Leaves<'_>
        ensures { result ≡ leaf_numbers self.now.nodes }
    {
        Leaves {
            below: &self.below,
            next: 0,
        }
    }

    /// The first leaf from a number on: a node that reads no other. A step for each node that it
    /// passes.
    ///
    /// The leaves, one after another, are the text up to where the remaining input begins. Some
    /// take no byte.
    pub fn next_leaf(&self, from: usize) -> Option<usize>
        ensures { FindsNext (IsLeaf self.now.nodes) from (length self.now.nodes) result }
    {
        for node in from..self.nodes.len() {
            if self.below[node] == 0 {
                return Some(node);
            }
        }
        None
    }
}
