//! The comments of a part of a text.

ghost use Rattle.std.specs.Prelude.{◌≡◌, ◌≤◌, ◌<◌, ℕ, length, IfOk};
ghost use Rattle.std.specs.List.Sorted.{IsNonDecreasingBy};
ghost use Rattle.weedle_places.specs.Comments.{comments_of, is_comment_in as the_is_comment_in};
ghost use Rattle.weedle_syntax.specs.declared.node.Node.{Node as TheNode};
ghost use Rattle.weedle_syntax.specs.Tree.{node_at};

use crate::span::{Span, span_of};
use std::alloc::{AllocError, Global};
use weedle_syntax::{Node, Syntax};

/// How many nodes begin before a place.
fn begun_before(nodes: &[Node], place: usize) -> usize
    requires rise { IsNonDecreasingBy (λ (n : TheNode). n.start) nodes.now }
    ensures few { result ≤ length nodes.now }
    ensures before { (j : ℕ) → j < result → (node_at nodes.now j).start < place }
    ensures behind { (j : ℕ) → result ≤ j → j < length nodes.now
        → place ≤ (node_at nodes.now j).start }
{
    nodes.partition_point(|node| node.start < place)
}

/// Whether a node is a comment that begins and ends within a span.
fn is_comment_in(nodes: &[Node], span: Span, i: usize) -> bool
    requires { i < length nodes.now }
    ensures { result ≡ the_is_comment_in nodes.now span i }
{
    let node = nodes[i];
    node.is_comment() && span.start <= node.start && node.start < span.end && node.end <= span.end
}

/// The comments of a syntax tree within a span, in their order.
///
/// In `interface A { /* x */ attribute long x; // y` with an LF behind it, the comment `/* x */`
/// has the span from 14 to 21, and `// y` that from 40 to 45: a line comment has its LF, unless the
/// text ends without one. A docstring is no comment. With the `front` of a
/// [`Place`](crate::Place) or of a [`MemberPlace`](crate::MemberPlace) these are the comments in
/// front of a definition, a member or a value; with its `core` those inside it.
///
/// It halves the nodes to find the first within the span, and then takes a step for each node that
/// begins there. It asks for memory for the answer, and where it is refused, the answer is an
/// error.
pub fn comments_in(alloc: Global, syntax: &Syntax<'_>, span: Span) -> Result<Vec<Span>, AllocError>
    ensures { IfOk result (λ found. found.items ≡ comments_of syntax.now.nodes span) }
{
    let nodes = syntax.nodes();
    let first = begun_before(nodes, span.start);
    let end = begun_before(nodes, span.end);
    let mut found = Vec::new(alloc);
    for i in first..end {
        if is_comment_in(nodes, span, i) {
            found.push(span_of(nodes, i))?;
        }
    }
    Ok(found)
}
