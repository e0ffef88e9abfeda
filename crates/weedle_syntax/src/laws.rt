//! What always holds of nodes. Each of these functions does nothing when it runs: its contract is
//! the law.

ghost use Rattle.std.specs.Prelude.{◌≡◌, ◌<◌, ℕ, List, All, IsUtf8, length, map};
ghost use Rattle.weedle_syntax.specs.declared.node.Node.{Node as TheNode};
ghost use Rattle.weedle_syntax.specs.Parts.{HasParts};
ghost use Rattle.weedle_syntax.specs.Syntax.{IsSyntax, IsFront, IsRead};
ghost use Rattle.weedle_syntax.specs.Tree.{node_at, children_of};

/// A law, which does nothing: a text has no more than one list of nodes.
pub fn one_syntax()
    ensures { (text : List ℕ) (ns ms : List TheNode)
        → IsSyntax text ns → IsSyntax text ms → ns ≡ ms }
{}

/// A law, which does nothing: the definitions at the front of a text have no more than one list of
/// nodes.
pub fn one_front()
    ensures { (text : List ℕ) (ns ms : List TheNode) → IsFront text ns → IsFront text ms → ns ≡ ms }
{}

/// A law, which does nothing: each node's rule was read from its start to its end, and both are
/// boundaries of characters.
pub fn each_is_read()
    ensures { (text : List ℕ) (ns : List TheNode)
        → IsUtf8 text → IsFront text ns → All (IsRead text) ns }
{}

/// A law, which does nothing: a node's children are the nodes that it reads directly, by its row,
/// from its start to its end.
pub fn children_are_parts()
    ensures { (text : List ℕ) (ns : List TheNode) (i : ℕ) → IsFront text ns → i < length ns
        → HasParts text (node_at ns i) (map (node_at ns) (children_of ns i)) }
{}
