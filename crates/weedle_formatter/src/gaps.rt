//! What is written between pieces, where no list is broken.

use crate::piece::{Gap, Joint, Kind, Piece, Role};
use crate::words::between;
use weedle_grammar::grammar::symbols::OPEN_BRACE;
use weedle_layout::{MOST_IN_FRONT, is_tight_behind, is_tight_in_front};

/// A token, and the comments between it and the token before it.
#[derive(Clone, Copy)]
struct Run {
    /// The number of the first comment, or of the token where there is none.
    first: usize,
    /// The number of the token.
    last: usize,
    /// The token before, if there is one.
    before: Option<Piece>,
    token: Piece,
    /// A line ends in the text before one of them.
    has_lines: bool,
    /// The token follows extended attributes that take a line of their own.
    is_behind_line: bool,
    /// Nothing is in front of the token on its line, wherever it is.
    is_tight: bool,
    /// Nothing follows the token before on its line, whatever follows it.
    is_behind_tight: bool,
}

/// Sets what is written in front of each piece of a text.
pub(crate) fn set_gaps(text: &[u8], pieces: &mut [Piece]) {
    let mut first = 0;
    for i in 0..pieces.len() {
        if !pieces[i].is_comment() {
            set_run(text, pieces, first, i);
            first = i + 1;
        }
    }
    set_end(pieces, first);
}

/// Sets what is written in front of the comments behind the last token.
fn set_end(pieces: &mut [Piece], first: usize) {
    for i in first..pieces.len() {
        let gap = match pieces[i].lines {
            0 => Gap::Space,
            1 => Gap::Line,
            _ => Gap::EmptyLine,
        };
        set_gap(pieces, i, gap);
    }
}

/// How many lines end in the text in front of a piece.
fn lines_at(pieces: &[Piece], i: usize) -> usize {
    match pieces.get(i) {
        Some(piece) => piece.lines,
        None => 0,
    }
}

/// Sets what is written in front of a piece.
fn set_gap(pieces: &mut [Piece], i: usize, gap: Gap) {
    if let Some(piece) = pieces.get_mut(i) {
        piece.gap = gap;
    }
}

/// Sets what is written in front of a token and of the comments before it.
fn set_run(text: &[u8], pieces: &mut [Piece], first: usize, last: usize) {
    let Some(run) = run_of(text, pieces, first, last) else {
        return;
    };
    if first == last {
        set_gap(pieces, last, gap_alone(&run));
        return;
    }
    for i in first..last {
        let gap = gap_at(&run, i, lines_at(pieces, i));
        set_gap(pieces, i, gap);
    }
    let gap = gap_at(&run, last, run.token.lines);
    set_gap(pieces, last, gap);
    if run.token.is_item {
        set_item(pieces, &run);
    }
}

/// Sets where a line begins if the list is broken, where comments come before the item.
fn set_item(pieces: &mut [Piece], run: &Run) {
    let closes = run.token.role == Role::ClosesList;
    if let Some(token) = pieces.get_mut(run.last) {
        token.is_item = closes;
    }
    if !closes && !run.has_lines {
        if let Some(comment) = pieces.get_mut(run.first) {
            comment.is_item = true;
        }
    }
}

/// What is known of a token and of the comments before it.
fn run_of(text: &[u8], pieces: &[Piece], first: usize, last: usize) -> Option<Run> {
    let token = pieces.get(last)?;
    let mut has_lines = false;
    for i in first..last {
        if lines_at(pieces, i) > 0 && i > 0 {
            has_lines = true;
        }
    }
    let before = if first > 0 {
        pieces.get(first - 1)
    } else {
        None
    };
    Some(Run {
        first,
        last,
        before: before.copied(),
        token: *token,
        has_lines: has_lines || token.lines > 0,
        is_behind_line: token.joint == Joint::BehindAttributes && are_long(pieces, first),
        is_tight: is_tight_in_front(bytes_of(text, token)),
        is_behind_tight: match before {
            Some(piece) => is_tight_behind(bytes_of(text, piece)),
            None => false,
        },
    })
}

/// The bytes of a piece of the text.
fn bytes_of<'a>(text: &'a [u8], piece: &Piece) -> &'a [u8] {
    between(text, piece.start, piece.end)
}

/// Whether the extended attributes that end before a piece take a line of their own. Several lists
/// on a line count together.
fn are_long(pieces: &[Piece], behind: usize) -> bool {
    let mut width: usize = 0;
    let mut depth: usize = 0;
    for back in 0..behind {
        let Some(piece) = pieces.get(behind - 1 - back) else {
            break;
        };
        let Some(more) = piece.width else {
            return true;
        };
        width = width.saturating_add(more);
        match piece.role {
            Role::ClosesList => depth = depth.saturating_add(1),
            Role::OpensList | Role::OpensUnion => depth = depth.saturating_sub(1),
            _ => {}
        }
        let is_first_list = depth == 0 && piece.joint != Joint::BehindAttributes;
        if is_first_list || width > MOST_IN_FRONT {
            break;
        }
        if piece.gap.is_line() {
            return depth > 0;
        }
        width = width.saturating_add(piece.gap.width());
    }
    width > MOST_IN_FRONT
}

/// Whether the token before opens braces of members or a list.
fn is_behind_opener(run: &Run) -> bool {
    match run.before {
        Some(piece) => piece.role == Role::OpensBody || piece.role.opens_list(),
        None => false,
    }
}

/// Whether the token before is a docstring's line.
fn is_behind_doc_line(run: &Run) -> bool {
    match run.before {
        Some(piece) => piece.kind == Kind::DocLine,
        None => false,
    }
}

/// What is written in front of a token without comments before it.
fn gap_alone(run: &Run) -> Gap {
    if run.first == 0 {
        return Gap::Nothing;
    }
    if is_behind_doc_line(run) {
        return Gap::Line;
    }
    match run.token.joint {
        Joint::Tight => Gap::Nothing,
        Joint::Space => Gap::Space,
        Joint::EndOfBody if is_behind_opener(run) => Gap::Nothing,
        Joint::EndOfBody => Gap::Line,
        Joint::Member | Joint::Definition if run.token.lines > 1 && !is_behind_opener(run) => {
            Gap::EmptyLine
        }
        Joint::Member | Joint::Definition => Gap::Line,
        Joint::BehindAttributes if run.is_behind_line || run.token.lines > 0 => Gap::Line,
        Joint::BehindAttributes => Gap::Space,
    }
}

/// What is written in front of the piece of this number among comments and the token behind them,
/// where so many lines end in the text before it.
fn gap_at(run: &Run, i: usize, lines: usize) -> Gap {
    if i == 0 {
        return Gap::Nothing;
    }
    if lines > 0 {
        return gap_of_lines(run, i, lines);
    }
    if i == run.last && ends_line(run) {
        return Gap::Line;
    }
    if i == run.first && !run.has_lines && begins_line(run) {
        return Gap::Line;
    }
    gap_on_line(run, i)
}

/// Whether a bracket that closes begins a line behind comments.
fn ends_line(run: &Run) -> bool {
    match run.token.role {
        Role::ClosesBody => true,
        Role::ClosesList => run.has_lines,
        _ => false,
    }
}

/// Whether a token begins a line, so that comments before it do.
fn begins_line(run: &Run) -> bool {
    match run.token.joint {
        Joint::Member | Joint::Definition => true,
        Joint::BehindAttributes => run.is_behind_line,
        _ => false,
    }
}

/// What is written where so many lines end in the text.
fn gap_of_lines(run: &Run, i: usize, lines: usize) -> Gap {
    let may_be_empty = match run.token.joint {
        Joint::Member | Joint::Definition => true,
        Joint::EndOfBody => i < run.last,
        _ => false,
    };
    let is_first = i == run.first && is_behind_opener(run);
    if may_be_empty {
        if lines > 1 && !is_first && !is_behind_doc_line(run) {
            return Gap::EmptyLine;
        }
        return Gap::Line;
    }
    match run.token.joint {
        Joint::Tight | Joint::Space if is_in_midst(run) => Gap::Continued,
        _ => Gap::Line,
    }
}

/// Whether a line that begins with the token begins in the midst of a statement or an item.
fn is_in_midst(run: &Run) -> bool {
    let begins = run.token.is_item || run.token.role == Role::ClosesList;
    !begins && !is_behind_doc_line(run)
}

/// Whether a token is the `{` of the default value `{}`.
fn opens_dictionary(token: &Piece) -> bool {
    token.rule == OPEN_BRACE && token.role == Role::Plain
}

/// What is written where no line ends.
fn gap_on_line(run: &Run, i: usize) -> Gap {
    if i == run.first {
        if let Some(before) = run.before {
            if run.is_behind_tight || opens_dictionary(&before) {
                return Gap::Nothing;
            }
        }
    }
    if i == run.last && run.token.joint == Joint::Tight && run.is_tight {
        return Gap::Nothing;
    }
    Gap::Space
}
