//! What is around a node: where its first and its last word are, and what is in front of it.

ghost use Rattle.std.specs.Prelude.{◌≡◌, ◌≤◌, ◌<◌, ◌+◌, length, IfSome};
ghost use Rattle.weedle_syntax.specs.Tree.{below_of, FindsNext};
ghost use Rattle.weedle_places.specs.Around.{
  end_or as the_end_or,
  is_solid as the_is_solid,
  start_or as the_start_or,
  IsAround,
  IsSolid,
  FindsLast,
};

use crate::span::Span;
use weedle_grammar::Rule;
use weedle_syntax::{Node, Syntax};

/// Whether a node is a leaf with bytes that are neither whitespace nor of a comment.
fn is_solid(syntax: &Syntax<'_>, i: usize) -> bool
    requires { i < length syntax.now.nodes }
    ensures { result ≡ the_is_solid syntax.now.nodes i }
{
    let node = syntax.nodes()[i];
    syntax.below(i) == 0 && node.start < node.end && node.rule.number() > Rule::TRIVIA.number()
}

/// The first such leaf from a number on and below another.
fn first_solid(syntax: &Syntax<'_>, from: usize, end: usize) -> Option<usize>
    requires { end ≤ length syntax.now.nodes }
    ensures { FindsNext (IsSolid syntax.now.nodes) from end result }
{
    for i in from..end {
        if is_solid(syntax, i) {
            return Some(i);
        }
    }
    None
}

/// The last such leaf from a number on and below another.
fn last_solid(syntax: &Syntax<'_>, from: usize, end: usize) -> Option<usize>
    requires { end ≤ length syntax.now.nodes }
    ensures { FindsLast (IsSolid syntax.now.nodes) from end result }
{
    let mut i = end;
    while i > from {
        i -= 1;
        if is_solid(syntax, i) {
            return Some(i);
        }
    }
    None
}

/// Where the node of this number begins, or a place where there is none.
fn start_or(nodes: &[Node], found: Option<usize>, place: usize) -> usize
    requires { IfSome found (λ i. i < length nodes.now) }
    ensures { result ≡ the_start_or nodes.now found place }
{
    match found {
        Some(i) => nodes[i].start,
        None => place,
    }
}

/// Where the node of this number ends, or a place where there is none.
fn end_or(nodes: &[Node], found: Option<usize>, place: usize) -> usize
    requires { IfSome found (λ i. i < length nodes.now) }
    ensures { result ≡ the_end_or nodes.now found place }
{
    match found {
        Some(i) => nodes[i].end,
        None => place,
    }
}

/// The bytes of a node without whitespace and comments at either end, and those of the whitespace
/// and comments in front of it.
pub(crate) fn around(syntax: &Syntax<'_>, i: usize) -> (Span, Span)
    requires { i < length syntax.now.nodes }
    ensures { IsAround syntax.now.nodes i result.0 result.1 }
{
    let nodes = syntax.nodes();
    let end = i + syntax.below(i) + 1;
    let first = first_solid(syntax, i, end);
    let last = last_solid(syntax, i, end);
    let before = last_solid(syntax, 0, first.unwrap_or(i));
    let core = Span {
        start: start_or(nodes, first, nodes[i].end),
        end: end_or(nodes, last, nodes[i].end),
    };
    let front = Span {
        start: end_or(nodes, before, 0),
        end: core.start,
    };
    (core, front)
}
