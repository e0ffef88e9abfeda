//! How the lines of a text end.

use crate::words::between;
use weedle_grammar::grammar::leaves::PAST_LF;
use weedle_grammar::grammar::trivia::{BLANKS, RUN_NOT_LINE_FEED};
use weedle_syntax::Node;

/// Whether the lines of the text of these nodes end in CR and LF.
///
/// So does the first that ends in whitespace; where none does, the first that ends with a line
/// comment or in a docstring. Whitespace in front of a docstring that the text begins with isn't
/// looked at: weedle2's rules read it as a part of the docstring.
pub(crate) fn ends_in_two(text: &[u8], nodes: &[Node]) -> bool {
    let mut by_comment = None;
    for node in nodes {
        match node.rule.number() {
            BLANKS if node.start > 0 || !is_docstring(text, node.end) => {
                if let Some(in_two) = first_in_two(between(text, node.start, node.end)) {
                    return in_two;
                }
            }
            RUN_NOT_LINE_FEED | PAST_LF if by_comment.is_none() => {
                by_comment = Some(has_return(between(text, node.start, node.end)));
            }
            _ => {}
        }
    }
    by_comment.unwrap_or(false)
}

/// Whether a docstring begins at a place of the text.
fn is_docstring(text: &[u8], place: usize) -> bool {
    between(text, place, place.saturating_add(3)) == b"///".as_slice()
}

/// Whether the first line that ends in the bytes ends in CR and LF; None where none ends.
fn first_in_two(bytes: &[u8]) -> Option<bool> {
    let mut last = b' ';
    for &byte in bytes {
        if byte == b'\n' {
            return Some(last == b'\r');
        }
        last = byte;
    }
    None
}

/// Whether the bytes end in CR, or in CR and LF.
fn has_return(bytes: &[u8]) -> bool {
    bytes.ends_with(b"\r") || bytes.ends_with(b"\r\n")
}
