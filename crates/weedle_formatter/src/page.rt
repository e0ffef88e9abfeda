//! The pieces of a text, written in lines.

ghost use Rattle.std.specs.Prelude.{◌≤◌, IfOk, IfSome, length, string_bytes};
ghost use Rattle.weedle_formatter.specs.Bound.{most_laid_out};

use crate::apart::set_apart;
use crate::fits::list_fits;
use crate::gaps::set_gaps;
use crate::in_front::set_in_front;
use crate::line_end::ends_in_two;
use crate::piece::{Gap, Kind, Piece, Role};
use crate::pieces::pieces_of;
use crate::words::between;
use std::alloc::{AllocError, Global};
use weedle_layout::{MOST_LEVELS, characters_of_last_line, indentation};
use weedle_syntax::Node;

/// What was written.
#[derive(Drop)]
struct Page {
    out: Vec<u8>,
    /// Lines end in CR and LF.
    in_two: bool,
    /// The column at which the last line ends.
    column: usize,
    /// How many braces with members and broken lists are open.
    level: usize,
    /// Whether each list that is open is broken, the innermost last.
    lists: Vec<bool>,
    /// What was written last is a line comment, which an LF ends.
    is_behind_comment: bool,
    /// A line ended with what was written last.
    is_line_begun: bool,
}

/// How many bytes a text of so many has at most once it is formatted.
fn most_bytes(length: usize) -> usize
    ensures { result ≤ most_laid_out length }
{
    length.saturating_mul(8).saturating_add(1_024)
}

/// The text of these nodes formatted; as it was where that would be more than eight times as long
/// and 1,024 bytes more. What it says isn't known before it is read again: so
/// [`format`](crate::format) reads it. It is for callers who read in a way of their own.
///
/// It asks for memory for what is between the whitespace of the text, and for the answer.
pub fn lay_out(alloc: Global, raw: &str, nodes: &[Node]) -> Result<String, AllocError>
    ensures short { IfOk result
        (λ text. length (string_bytes text) ≤ most_laid_out (length raw.now)) }
{
    match short_layout(alloc, raw, nodes)? {
        Some(text) => Ok(text),
        None => String::from_str(alloc, raw),
    }
}

/// The text of these nodes formatted, or None where that would be longer.
pub(crate) fn short_layout(
    alloc: Global,
    raw: &str,
    nodes: &[Node],
) -> Result<Option<String>, AllocError>
    ensures { IfOk result
        (λ found. IfSome found
        (λ text. length (string_bytes text) ≤ most_laid_out (length raw.now))) }
{
    let text = raw.as_bytes();
    let mut pieces = pieces_of(alloc, text, nodes)?;
    set_gaps(text, &mut pieces);
    set_in_front(&mut pieces);
    set_apart(&mut pieces);
    let page = written(alloc, text, &pieces, ends_in_two(text, nodes))?;
    if page.out.len() > most_bytes(text.len()) {
        return Ok(None);
    }
    match String::from_utf8(page.out) {
        Ok(out) => Ok(Some(out)),
        Err(_) => Ok(None),
    }
}

/// The pieces of a text in lines, which end in CR and LF or in LF. It ends where there is more than
/// a layout may have.
fn written(alloc: Global, text: &[u8], pieces: &[Piece], in_two: bool) -> Result<Page, AllocError> {
    let mut page = Page::new(alloc, in_two);
    let most = most_bytes(text.len());
    for i in 0..pieces.len() {
        let piece = pieces[i];
        page.separate(&piece)?;
        page.write(&piece, between(text, piece.start, piece.end))?;
        if piece.role.opens_list() {
            let column = page.column;
            page.open_list(!list_fits(pieces, i, column))?;
        }
        if page.out.len() > most {
            return Ok(page);
        }
    }
    page.end_line()?;
    Ok(page)
}

impl Page {
    /// A page on which nothing is written yet.
    fn new(alloc: Global, in_two: bool) -> Page {
        Page {
            out: Vec::new(alloc),
            in_two,
            column: 0,
            level: 0,
            lists: Vec::new(alloc),
            is_behind_comment: false,
            is_line_begun: true,
        }
    }

    /// Writes what is in front of a piece.
    fn separate(&mut self, piece: &Piece) -> Result<(), AllocError> {
        let is_broken = piece.is_item && self.lists.last().copied().unwrap_or(false);
        self.close(piece.role);
        match piece.gap {
            Gap::Line => self.begin_line(0),
            Gap::EmptyLine => {
                self.end_line()?;
                self.push_line_end()?;
                self.begin_line(0)
            }
            Gap::Continued => self.begin_line(1),
            Gap::Nothing | Gap::Space if is_broken => self.begin_line(0),
            Gap::Space => self.push_blanks(1),
            Gap::Nothing => Ok(()),
        }
    }

    /// Takes back the level that ends with a bracket.
    fn close(&mut self, role: Role) {
        match role {
            Role::ClosesBody => self.level = self.level.saturating_sub(1),
            Role::ClosesList => {
                if let Some(true) = self.lists.pop() {
                    self.level = self.level.saturating_sub(1);
                }
            }
            _ => {}
        }
    }

    /// Keeps that a list is open, which fits on its line or doesn't. Where so many levels are open
    /// that no line is indented further, it isn't broken.
    fn open_list(&mut self, is_too_long: bool) -> Result<(), AllocError> {
        let is_broken = is_too_long && self.level < MOST_LEVELS;
        self.lists.push(is_broken)?;
        if is_broken {
            self.level = self.level.saturating_add(1);
        }
        Ok(())
    }

    /// Begins a line, so many levels deeper than where a statement begins.
    fn begin_line(&mut self, deeper: usize) -> Result<(), AllocError> {
        self.end_line()?;
        self.push_blanks(indentation(self.level.saturating_add(deeper)))
    }

    /// Ends the line, where it isn't ended.
    fn end_line(&mut self) -> Result<(), AllocError> {
        if self.is_line_begun {
            return Ok(());
        }
        self.push_line_end()
    }

    /// Writes a line end.
    fn push_line_end(&mut self) -> Result<(), AllocError> {
        if self.in_two && !self.is_behind_comment {
            self.out.push(b'\r')?;
        }
        self.out.push(b'\n')?;
        self.column = 0;
        self.is_line_begun = true;
        self.is_behind_comment = false;
        Ok(())
    }

    /// Writes so many spaces.
    fn push_blanks(&mut self, many: usize) -> Result<(), AllocError> {
        for _ in 0..many {
            self.out.push(b' ')?;
        }
        self.column = self.column.saturating_add(many);
        Ok(())
    }

    /// Writes a piece.
    fn write(&mut self, piece: &Piece, bytes: &[u8]) -> Result<(), AllocError> {
        self.out.extend_from_slice(bytes)?;
        self.column = match piece.width {
            Some(width) => self.column.saturating_add(width),
            None => characters_of_last_line(bytes),
        };
        // What ends with the text, or with its LF, takes no line end more.
        self.is_line_begun = match piece.kind {
            Kind::DocLine | Kind::Rest => true,
            Kind::Token | Kind::LineComment | Kind::BlockComment => false,
        };
        self.is_behind_comment = piece.kind == Kind::LineComment;
        if piece.role == Role::OpensBody {
            self.level = self.level.saturating_add(1);
        }
        Ok(())
    }
}
