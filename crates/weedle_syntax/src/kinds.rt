//! What kind of text a rule reads: whitespace, a comment, a word.

ghost use Rattle.std.specs.Prelude.{◌≡◌};
ghost use Rattle.weedle_syntax.specs.Kinds.{
  is_blank as the_is_blank,
  is_comment as the_is_comment,
  is_word as the_is_word,
  has_letter as the_has_letter,
};

use crate::node::Node;
use weedle_grammar::{Class, Row, Rule, holds, row_of};

/// Whether one of the bytes is an ASCII letter.
fn has_letter(bytes: &[u8]) -> bool
    ensures { result ≡ the_has_letter bytes.now }
{
    bytes.iter().any(|&byte| holds(Class::Letter, byte))
}

impl Node {
    /// Whether these are whitespace: spaces, tabs, CRs and LFs, at least one.
    pub fn is_blank(&self) -> bool
        ensures { result ≡ the_is_blank self.now.rule }
    {
        self.rule == Rule::BLANKS
    }

    /// Whether this is a line comment or a block comment.
    ///
    /// A docstring is neither: it belongs to what it comes before, and has a value.
    pub fn is_comment(&self) -> bool
        ensures { result ≡ the_is_comment self.now.rule }
    {
        self.rule == Rule::LINE_COMMENT || self.rule == Rule::BLOCK_COMMENT
    }

    /// Whether this is a word: the letters of a keyword or of a name, as `interface` or `Window`,
    /// without the whitespace and comments around it and without the `_` before a name.
    pub fn is_word(&self) -> bool
        ensures { result ≡ the_is_word self.now.rule }
    {
        match row_of(self.rule) {
            Row::Bytes(bytes) => has_letter(bytes),
            _ => self.rule == Rule::IDENTIFIER_TEXT,
        }
    }
}
