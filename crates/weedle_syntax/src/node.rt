//! Rules that were read.

use weedle_grammar::Rule;

/// A rule that was read, and the bytes that it took.
///
/// The nodes of a text are in preorder: behind a node are those that it reads directly, each with
/// all below it, and all of these are deeper. In `enum E { "a" };` the node of the whole text has
/// the rule `DEFINITIONS`, goes from 0 to 15 and has depth 0. Behind it are `DEFINITION` and
/// `ENUM_DEFINITION`, with the same bytes and depths 1 and 2.
#[derive(Clone, Copy, Debug, PartialEq, Eq)]
pub struct Node {
    /// The rule.
    pub rule: Rule,
    /// Where it begins, in bytes from the text's front.
    pub start: usize,
    /// Where it ends: the place behind its last byte. A rule may be read and take no byte.
    pub end: usize,
    /// How many nodes it is in.
    pub depth: usize,
}
