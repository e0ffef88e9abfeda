//! What begins a line: an item of a broken list, a member, or a statement.

use super::{Front, Layout};
use weedle_layout::COLUMNS;

impl Layout {
    /// Begins to write what begins a line on that line alone, to see how much is on it.
    pub(crate) fn try_line(&mut self) {
        if self.front == Front::Line {
            self.end_line();
        }
        self.first = self.lines;
        self.head = 0;
        self.cut = 0;
        self.is_flat = true;
        self.is_broken = false;
        self.is_apart = false;
    }

    /// Keeps that the lines so far were those of a docstring.
    pub(crate) fn end_docstring(&mut self) {
        self.first = self.lines;
    }

    /// Keeps that a text was written in which a line ends.
    pub(super) fn cut_line(&mut self) {
        if self.head == 0 {
            self.cut = self.count;
        }
    }

    /// Keeps that arguments follow, which may be broken: so what is in front of them has to fit
    /// with their parenthesis alone.
    pub(crate) fn end_head(&mut self) {
        if self.head == 0 {
            let blanks = if self.is_behind_type { 1 } else { 0 };
            self.head = self.count.saturating_add(blanks).saturating_add(1);
        }
    }

    /// Ends what was tried, behind which a sign of so many characters is on its line. `start` is
    /// the layout in front of it, from where it is written again.
    pub(crate) fn end_line_try(&mut self, start: &Layout, sign: usize) {
        let fits = if self.is_line_begun {
            self.lines == self.first.saturating_add(1) && self.width <= COLUMNS
        } else {
            self.lines == self.first && self.column.saturating_add(sign) <= COLUMNS
        };
        let head = if self.head > 0 {
            self.head
        } else {
            self.count.saturating_add(sign)
        };
        let cut = self.cut;
        *self = *start;
        self.head = head;
        self.cut = cut;
        self.is_flat = fits;
        self.is_apart = !fits;
    }

    /// Ends what was tried, and written again from this layout on.
    pub(crate) fn end_item(&mut self, start: &Layout) {
        if !start.is_flat {
            self.head = start.head;
            self.cut = start.cut;
            self.is_flat = false;
            self.is_apart = start.is_apart;
        }
    }
}
