//! Whether two texts have the same words.

ghost use Rattle.std.specs.Prelude.{
  ◌≡◌,
  ◌≤◌,
  ◌<◌,
  ◌↔◌,
  ℕ,
  List,
  ◌∷◌,
  length,
  drop,
  false,
  IsTrue,
};
ghost use Rattle.weedle_grammar.specs.Meaning.{between as the_between};
ghost use Rattle.weedle_syntax.specs.declared.node.Node.{Node as TheNode};
ghost use Rattle.weedle_formatter.specs.Words.{
  is_comment_end as the_is_comment_end,
  is_of_blanks as the_is_of_blanks,
  is_left_out as the_is_left_out,
  bytes_of,
  word_of,
  words_of,
};

use weedle_grammar::Rule;
use weedle_grammar::grammar::trivia::{
    BLANKS, BYTES_LF, NOT_NEXT_ANY, ONE_OF_BLANK, PIECE, RUN_BLANK,
};
use weedle_syntax::Node;

/// Whether the rule is that of a line comment's LF, or of the end of the text in its place.
fn is_comment_end(rule: Rule) -> bool
    ensures { result ≡ the_is_comment_end rule }
{
    let number = rule.number();
    number == BYTES_LF || number == NOT_NEXT_ANY
}

/// Whether the rule is of whitespace, or of the choice between whitespace and a comment.
fn is_of_blanks(rule: Rule) -> bool
    ensures { result ≡ the_is_of_blanks rule }
{
    let number = rule.number();
    number == ONE_OF_BLANK || number == RUN_BLANK || number == BLANKS || number == PIECE
}

/// Whether nodes of the rule say nothing.
fn is_left_out(rule: Rule) -> bool
    ensures { result ≡ the_is_left_out rule }
{
    is_comment_end(rule) || is_of_blanks(rule)
}

/// The bytes between two places; where the text ends before the second, up to its end.
pub(crate) fn between(text: &[u8], start: usize, end: usize) -> &[u8]
    ensures { result.now ≡ the_between text.now start end }
{
    if end > text.len() {
        return between_within(text, start, text.len());
    }
    between_within(text, start, end)
}

/// The bytes between two places of the text, none where the first comes behind the second.
fn between_within(text: &[u8], start: usize, end: usize) -> &[u8]
    requires { end ≤ length text.now }
    ensures { result.now ≡ the_between text.now start end }
{
    if start > end {
        return &[];
    }
    &text[start..end]
}

/// The bytes of a node that reads no other; none of one that does.
fn bytes_at<'a>(text: &'a [u8], nodes: &[Node], at: usize) -> &'a [u8]
    requires { at < length nodes.now }
    ensures { (n : TheNode) (ns : List TheNode) → drop at nodes.now ≡ n ∷ ns
        → result.now ≡ bytes_of text.now n ns }
{
    let node = nodes[at];
    if at + 1 < nodes.len() {
        if node.depth < nodes[at + 1].depth {
            return &[];
        }
    }
    between(text, node.start, node.end)
}

/// The first node from a place on that says something, or how many nodes there are.
fn next_word(nodes: &[Node], from: usize) -> usize
    requires { from ≤ length nodes.now }
    ensures within { (from ≤ result) × (result ≤ length nodes.now) }
    ensures same { (text : List ℕ)
        → words_of text (drop from nodes.now) ≡ words_of text (drop result nodes.now) }
    ensures is_word { (n : TheNode) (ns : List TheNode) → drop result nodes.now ≡ n ∷ ns
        → the_is_left_out n.rule ≡ false }
{
    let mut at = from;
    while at < nodes.len() {
        if !is_left_out(nodes[at].rule) {
            return at;
        }
        at += 1;
    }
    at
}

/// Whether two nodes are the same word.
fn same_word(raw: &[u8], nodes: &[Node], i: usize, out: &[u8], others: &[Node], j: usize) -> bool
    requires raw { i < length nodes.now }
    requires out { j < length others.now }
    ensures { (n m : TheNode) (ns ms : List TheNode) → drop i nodes.now ≡ n ∷ ns
        → drop j others.now ≡ m ∷ ms
        → IsTrue result ↔ (word_of raw.now n ns ≡ word_of out.now m ms) }
{
    if nodes[i].rule.number() != others[j].rule.number() {
        return false;
    }
    if nodes[i].depth != others[j].depth {
        return false;
    }
    bytes_at(raw, nodes, i) == bytes_at(out, others, j)
}

/// Whether two texts of these nodes have the same words: all that was read except for whitespace
/// and the ends of line comments.
///
/// `A includes B;` and `A  includes B ;` have, `A includes B;` and `A includes C;` don't. It takes
/// no memory, and a step for each node of both.
pub fn same_words(raw: &[u8], nodes: &[Node], out: &[u8], others: &[Node]) -> bool
    ensures { IsTrue result ↔ (words_of raw.now nodes.now ≡ words_of out.now others.now) }
{
    let mut i = next_word(nodes, 0);
    let mut j = next_word(others, 0);
    while i < nodes.len() {
        if j >= others.len() {
            return false;
        }
        if !same_word(raw, nodes, i, out, others, j) {
            return false;
        }
        i = next_word(nodes, i + 1);
        j = next_word(others, j + 1);
    }
    j >= others.len()
}
