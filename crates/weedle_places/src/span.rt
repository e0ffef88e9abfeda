//! Parts of a text.

ghost use Rattle.std.specs.Prelude.{◌≡◌, ◌<◌, length};
ghost use Rattle.weedle_places.specs.Spans.{span_at};

use weedle_syntax::Node;

/// A part of a text, in bytes from the text's front.
///
/// A definition or a member takes the whitespace and comments behind its `;`, so its span may end
/// with them. Only the first definition's may begin with some.
#[derive(Clone, Copy, Debug, PartialEq, Eq)]
pub struct Span {
    /// Where it begins.
    pub start: usize,
    /// Where it ends: the place behind its last byte.
    pub end: usize,
}

/// The span of a node.
pub(crate) fn span_of(nodes: &[Node], node: usize) -> Span
    requires { node < length nodes.now }
    ensures { result ≡ span_at nodes.now node }
{
    Span {
        start: nodes[node].start,
        end: nodes[node].end,
    }
}
