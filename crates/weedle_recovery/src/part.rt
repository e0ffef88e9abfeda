//! Parts of a text.

use weedle_grammar::Rule;

/// A part of a text: a rule is read there, or it is unread.
#[derive(Clone, Copy, Debug, PartialEq, Eq)]
pub struct Part {
    /// The rule that is read from the start to the end; of an unread part the rule that fails at
    /// its start.
    pub rule: Rule,
    /// Whether it is read.
    pub is_read: bool,
    /// Where it begins, in bytes from the front of the text.
    pub start: usize,
    /// Where it ends: the place behind its last byte. An unread part has no byte where something
    /// is missing.
    pub end: usize,
    /// Where the definition begins that it belongs to. So the parts of one definition have the
    /// same number here.
    pub definition: usize,
}
