//! Whether pieces fit on a line.

use crate::piece::{Gap, Piece, Role};
use weedle_grammar::grammar::symbols::{OPEN_PAREN, SEMI_COLON};
use weedle_layout::COLUMNS;

/// The column behind a piece that goes on a line from this column on; None where it doesn't fit, or
/// a line ends.
fn column_behind(piece: &Piece, column: usize) -> Option<usize> {
    if piece.gap.is_line() {
        return None;
    }
    let width = piece.width?;
    let behind = column
        .saturating_add(piece.gap.width())
        .saturating_add(width);
    if behind > COLUMNS {
        return None;
    }
    Some(behind)
}

/// How many lists are open behind a piece, where so many are in front of it.
fn open_behind(open: usize, role: Role) -> usize {
    match role {
        Role::OpensList | Role::OpensUnion => open.saturating_add(1),
        Role::ClosesList => open.saturating_sub(1),
        Role::Plain | Role::OpensBody | Role::ClosesBody => open,
    }
}

/// Whether the list fits on the line that is opened by the piece of this number, which ends at this
/// column: a union with what follows it, and another list with a sign.
pub(crate) fn list_fits(pieces: &[Piece], opener: usize, column: usize) -> bool {
    let mut column = column;
    let mut open: usize = 1;
    for i in opener.saturating_add(1)..pieces.len() {
        let piece = pieces[i];
        let Some(behind) = column_behind(&piece, column) else {
            return false;
        };
        column = behind;
        open = open_behind(open, piece.role);
        if open == 0 {
            return if pieces[opener].role == Role::OpensUnion {
                rest_fits(pieces, i + 1, column)
            } else {
                sign_fits(pieces.get(i + 1), column)
            };
        }
    }
    true
}

/// Whether what follows a union fits on its line: up to the parenthesis of arguments, or to the end
/// of the item, the member or the statement that the union is in.
fn rest_fits(pieces: &[Piece], first: usize, column: usize) -> bool {
    let mut column = column;
    let mut open: usize = 0;
    for i in first..pieces.len() {
        let piece = pieces[i];
        if open == 0 && begins_anew(&piece) {
            return true;
        }
        let Some(behind) = column_behind(&piece, column) else {
            return false;
        };
        column = behind;
        if open == 0 && (piece.rule == SEMI_COLON || opens_arguments(&piece)) {
            return true;
        }
        open = open_behind(open, piece.role);
    }
    true
}

/// Whether a line begins with a piece behind a broken union, in the list that the union is in, or
/// it is a comment.
fn begins_anew(piece: &Piece) -> bool {
    piece.is_item || piece.role == Role::ClosesList || piece.gap.is_line() || piece.is_comment()
}

/// Whether a piece opens a list of arguments.
fn opens_arguments(piece: &Piece) -> bool {
    piece.rule == OPEN_PAREN && piece.role == Role::OpensList
}

/// Whether a sign fits that follows with nothing in front.
fn sign_fits(piece: Option<&Piece>, column: usize) -> bool {
    match piece {
        Some(piece) if piece.gap == Gap::Nothing => column_behind(piece, column).is_some(),
        _ => true,
    }
}

/// Whether what is between two line ends around the piece of this number fits on its line, where a
/// line is indented by so many spaces. It is counted up to a `;`.
pub(crate) fn line_fits(pieces: &[Piece], i: usize, blanks: usize) -> bool {
    let Some(mut column) = column_at(pieces, i, blanks) else {
        return false;
    };
    for j in i..pieces.len() {
        let piece = pieces[j];
        if piece.gap.is_line() {
            return true;
        }
        let Some(behind) = column_behind(&piece, column) else {
            return false;
        };
        column = behind;
        if piece.rule == SEMI_COLON {
            return true;
        }
    }
    true
}

/// The column in front of a piece, where a line is indented by so many spaces; None where that is
/// none of a line.
fn column_at(pieces: &[Piece], i: usize, blanks: usize) -> Option<usize> {
    let mut column = blanks;
    for back in 0..i {
        let piece = pieces.get(i - 1 - back)?;
        column = column
            .saturating_add(piece.gap.width())
            .saturating_add(piece.width?);
        if column > COLUMNS {
            return None;
        }
        if piece.gap.is_line() {
            break;
        }
    }
    Some(column)
}

/// Whether the statement that begins with the piece of this number takes one line.
pub(crate) fn is_one_line(pieces: &[Piece], first: usize) -> bool {
    let mut column = 0;
    for i in first..pieces.len() {
        let piece = pieces[i];
        if i > first || !piece.gap.is_line() {
            let Some(behind) = column_behind(&piece, column) else {
                return false;
            };
            column = behind;
        } else {
            column = piece.width.unwrap_or(COLUMNS);
        }
        if piece.rule == SEMI_COLON {
            return true;
        }
    }
    true
}
