//! Lists, which stay on the line or have a line for each item.

use super::{Front, Layout};
use weedle_layout::{COLUMNS, MOST_IN_FRONT, MOST_LEVELS};

impl Layout {
    /// Whether lists stay on the line, so that none is to be tried.
    pub fn is_flat(&self) -> bool {
        self.is_flat
    }

    /// Keeps lists on the line, to try whether they fit.
    pub fn try_flat(&mut self) {
        self.is_flat = true;
        self.is_broken = false;
    }

    /// Ends a list that was tried. `start` is the layout behind its bracket.
    pub fn end_try(&mut self, start: &Layout) {
        self.is_flat = start.is_flat;
        self.is_broken = start.is_broken;
        self.listed = if self.lines == start.lines {
            self.column.saturating_sub(start.column).saturating_add(1)
        } else {
            usize::MAX
        };
    }

    /// Whether the list that was tried stays on its line: it fits there with a sign of so many
    /// characters behind it, or is too deep to be broken.
    pub fn fits(&self, start: &Layout, sign: usize) -> bool {
        start.level >= MOST_LEVELS
            || self.lines == start.lines && self.column.saturating_add(sign) <= COLUMNS
    }

    /// Whether the union that was tried stays on its line: it fits there with all behind it in its
    /// item, its member or its statement, up to the parenthesis of arguments, or is too deep to be
    /// broken.
    pub(crate) fn fits_with_rest(&self, start: &Layout) -> bool {
        self.fits(start, self.head.saturating_sub(self.count))
            && (start.level >= MOST_LEVELS || self.cut < self.count)
    }

    /// Opens the list anew, with a line for each item. The answer is how many characters it had on
    /// one line.
    pub fn break_list(&mut self, start: &Layout) -> usize {
        let width = self.listed;
        *self = *start;
        self.is_broken = true;
        self.level = self.level.saturating_add(1);
        width
    }

    /// Begins an item of a list.
    pub fn begin_item(&mut self) {
        if self.is_broken {
            self.break_line();
        }
    }

    /// Begins a line where a space would be, or nothing.
    fn break_line(&mut self) {
        if self.front == Front::Blank {
            self.count = self.count.saturating_add(1);
        }
        self.front = Front::Line;
    }

    /// Ends the items of a list.
    pub fn end_items(&mut self) {
        if self.is_broken {
            self.is_broken = false;
            self.level = self.level.saturating_sub(1);
            self.front = Front::Line;
        }
    }

    /// Ends a list with a line for each item, which had so many characters on one line.
    pub fn end_list(&mut self, start: &Layout, width: usize) {
        self.is_broken = start.is_broken;
        self.listed = width;
    }

    /// Puts what follows extended attributes on a line of its own where they are long, or it
    /// doesn't fit on their line.
    pub fn end_attributes(&mut self) {
        if self.listed > MOST_IN_FRONT || self.is_apart {
            self.break_line();
        }
    }
}
