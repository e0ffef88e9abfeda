//! Texts with nothing to format.

use weedle_grammar::trivia::skip_trivia;

/// Whether the text has only whitespace and comments, or nothing at all. A docstring, as `/// a`,
/// is no comment, nor is a comment that isn't closed. It takes no memory.
pub fn is_trivia(text: &str) -> bool {
    skip_trivia(text).is_empty()
}
