//! Extended attributes in front of a member or a statement, on its line.

use crate::apart::statement_of;
use crate::fits::line_fits;
use crate::piece::{Gap, Joint, Piece, Role};
use weedle_grammar::grammar::symbols::OPEN_BRACKET;
use weedle_layout::{Statement, indentation};

/// Puts extended attributes on a line of their own, where the line of the member or the statement
/// behind them wouldn't fit with them. Lists one behind another stay together.
pub(crate) fn set_in_front(pieces: &mut [Piece]) {
    let mut blanks = 0;
    let mut is_statement_begun = false;
    let mut first = 0;
    for i in 0..pieces.len() {
        let piece = pieces[i];
        if piece.definition > 0 {
            is_statement_begun = statement_of(piece.definition) != Statement::Other;
        }
        match piece.role {
            Role::OpensBody => blanks = indentation(1),
            Role::ClosesBody => blanks = 0,
            _ => {}
        }
        let is_other_list = piece.rule == OPEN_BRACKET;
        if piece.joint == Joint::BehindAttributes && !piece.is_comment() && !is_other_list {
            if (blanks > 0 || is_statement_begun) && !line_fits(pieces, first, blanks) {
                begin_line(pieces, first, i);
            }
        }
        if !piece.is_comment() {
            first = i + 1;
        }
    }
}

/// Begins a line with the first of these pieces, where none begins among them.
fn begin_line(pieces: &mut [Piece], first: usize, last: usize) {
    for i in first..=last {
        if let Some(piece) = pieces.get(i) {
            if piece.gap.is_line() {
                return;
            }
        }
    }
    if let Some(piece) = pieces.get_mut(first) {
        piece.gap = Gap::Line;
    }
}
