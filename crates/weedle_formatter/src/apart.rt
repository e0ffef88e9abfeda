//! Empty lines between definitions.

use crate::fits::is_one_line;
use crate::piece::{Gap, Joint, Piece};
use weedle_grammar::grammar::definitions::{
    CALLBACK_DEFINITION, IMPLEMENTS_DEFINITION, INCLUDES_STATEMENT_DEFINITION, TYPEDEF_DEFINITION,
};
use weedle_grammar::grammar::today_definitions::{
    TODAY_CALLBACK, TODAY_IMPLEMENTS, TODAY_INCLUDES, TODAY_TYPEDEF,
};
use weedle_layout::Statement;

/// Sets an empty line between definitions, except in front of those that may be right below the one
/// before.
pub(crate) fn set_apart(pieces: &mut [Piece]) {
    let mut first = 0;
    let mut before = Statement::Other;
    for i in 0..pieces.len() {
        let piece = pieces[i];
        if piece.joint == Joint::Definition && !piece.is_comment() {
            let kind = kind_at(pieces, i);
            if first > 0 && !kind.may_follow(before) {
                set_empty_line(pieces, first, i);
            }
            before = kind;
        }
        if !piece.is_comment() {
            first = i + 1;
        }
    }
}

/// What the definition is that begins with the piece of this number, where it takes one line.
fn kind_at(pieces: &[Piece], i: usize) -> Statement {
    let kind = match pieces.get(i) {
        Some(piece) => statement_of(piece.definition),
        None => Statement::Other,
    };
    if kind != Statement::Other && is_one_line(pieces, i) {
        return kind;
    }
    Statement::Other
}

/// What a definition is by its rule: a statement has no braces, as `typedef long L;`.
pub(crate) fn statement_of(rule: u16) -> Statement {
    match rule {
        CALLBACK_DEFINITION | TODAY_CALLBACK => Statement::Callback,
        TYPEDEF_DEFINITION | TODAY_TYPEDEF => Statement::Typedef,
        INCLUDES_STATEMENT_DEFINITION | TODAY_INCLUDES => Statement::Includes,
        IMPLEMENTS_DEFINITION | TODAY_IMPLEMENTS => Statement::Implements,
        _ => Statement::Other,
    }
}

/// Sets an empty line before the first of these pieces that begins a line, where there is none
/// among them.
fn set_empty_line(pieces: &mut [Piece], first: usize, last: usize) {
    let mut found = None;
    for i in first..=last {
        if let Some(piece) = pieces.get(i) {
            match piece.gap {
                Gap::EmptyLine => return,
                Gap::Line if found.is_none() => found = Some(i),
                _ => {}
            }
        }
    }
    if let Some(i) = found {
        if let Some(piece) = pieces.get_mut(i) {
            piece.gap = Gap::EmptyLine;
        }
    }
}
