//! Where a line is, and what goes between two words.

ghost use Rattle.std.specs.Prelude.{◌≡◌, ◌≤◌, ◌+◌, ◌↔◌, IsTrue, false};
ghost use Rattle.weedle_print.specs.Apart.{
  begins_as_name as the_begins_as_name,
  ends_as_name as the_ends_as_name,
};

mod items;
mod lists;

use crate::name_bytes::{begins_as_name, ends_as_name};
use crate::written::reserved::is_read_behind;
use weedle_layout::{
    COLUMNS, Statement, characters, characters_of_last_line, indentation, is_tight_behind,
    is_tight_in_front, line_feeds,
};

/// What goes in front of the next word.
#[derive(Clone, Copy, Debug, PartialEq, Eq)]
enum Front {
    /// Nothing.
    Nothing,
    /// A space, except for words that never have one in front.
    Blank,
    /// A line end, where the line isn't ended, and the spaces of the level.
    Line,
    /// The same, with an empty line before it.
    EmptyLine,
}

/// How many line ends and spaces go in front of a word.
#[derive(Clone, Copy, Debug, PartialEq, Eq)]
pub(crate) struct Space {
    pub(crate) line_ends: usize,
    pub(crate) blanks: usize,
}

impl Space {
    /// Whether nothing goes there.
    fn is_nothing(&self) -> bool
        ensures { IsTrue result ↔ (self.now.line_ends + self.now.blanks ≡ 0) }
    {
        self.line_ends == 0 && self.blanks == 0
    }
}

/// How the line is at the end of a text that is being written: what whoever writes the next word
/// has to know for the layout. It is no part of what a text says.
#[derive(Clone, Copy, Debug)]
pub struct Layout {
    /// How many characters the line has.
    column: usize,
    /// How many bodies and broken lists are open.
    level: usize,
    /// How many lines were ended.
    lines: usize,
    /// How many characters the line had that was ended last.
    width: usize,
    /// Whether nothing is on the line.
    is_line_begun: bool,
    /// Whether the text ends with a character of names: another one would go on with its last word.
    is_in_name: bool,
    /// Whether lists stay on the line.
    is_flat: bool,
    /// Whether the innermost open list has a line for each item.
    is_broken: bool,
    /// How many characters the last list has on one line, with its brackets.
    listed: usize,
    /// How many characters were written, as they would be if no list were broken, and no attributes
    /// had a line of their own.
    count: usize,
    /// The count at the end of the line that an item, a member or a statement begins, where it is
    /// on one: up to the parenthesis of its arguments, or to its end. 0 while it isn't known.
    head: usize,
    /// The count in front of the last string on that line in which a line ends.
    cut: usize,
    /// How many lines were ended in front of that line.
    first: usize,
    /// Whether extended attributes in front of a member or a statement have a line of their own,
    /// since it doesn't fit on one with them.
    is_apart: bool,
    /// Whether a type ended with the word before, behind which arguments are apart.
    is_behind_type: bool,
    front: Front,
    /// What the definition before was, where it took one line.
    statement: Statement,
    /// The word before: a symbol or a keyword, `a` for a name, and nothing at the front and behind
    /// the rest.
    before: &'static str,
}

impl Layout {
    /// The layout at the front of a line, of which nothing is written yet.
    pub fn new() -> Layout {
        Layout {
            column: 0,
            level: 0,
            lines: 0,
            width: 0,
            is_line_begun: true,
            is_in_name: false,
            is_flat: false,
            is_broken: false,
            listed: 0,
            count: 0,
            head: 0,
            cut: 0,
            first: 0,
            is_apart: false,
            is_behind_type: false,
            front: Front::Line,
            statement: Statement::Other,
            before: "",
        }
    }

    /// What goes in front of this word: a space or a line end at least, where it would go on with
    /// the word before.
    pub(crate) fn space(&self, text: &str) -> Space
        ensures apart { IsTrue self.now.is_in_name → IsTrue (the_begins_as_name text.now)
            → 1 ≤ result.line_ends + result.blanks }
    {
        let space = self.wanted_space(text);
        if self.is_in_name && space.is_nothing() && begins_as_name(text) {
            return self.blanks(1);
        }
        space
    }

    /// What goes in front of this word by what was asked for.
    fn wanted_space(&self, text: &str) -> Space {
        match self.front {
            Front::Nothing => self.blanks(0),
            Front::Blank if is_tight_in_front(text.as_bytes()) => self.blanks(0),
            Front::Blank => self.blanks(1),
            Front::Line => self.line(0),
            Front::EmptyLine => self.line(1),
        }
    }

    /// So many spaces on the line.
    fn blanks(&self, blanks: usize) -> Space
        ensures { result.blanks ≡ blanks }
    {
        Space {
            line_ends: 0,
            blanks,
        }
    }

    /// The end of the line, so many empty lines, and the spaces of the level.
    fn line(&self, empty: usize) -> Space {
        Space {
            line_ends: if self.is_line_begun {
                empty
            } else {
                empty.saturating_add(1)
            },
            blanks: indentation(self.level),
        }
    }

    /// Keeps that this was written in front of a word.
    pub(crate) fn spaced(&mut self, space: Space) {
        match self.front {
            Front::Nothing | Front::Blank => self.count = self.count.saturating_add(space.blanks),
            Front::Line | Front::EmptyLine => {}
        }
        if space.line_ends > 0 {
            self.end_line();
        }
        self.column = self.column.saturating_add(space.blanks);
    }

    /// Keeps that the line was ended. An empty line isn't counted.
    pub(crate) fn end_line(&mut self)
        ensures { self.new.is_in_name ≡ false }
    {
        if !self.is_line_begun {
            self.width = self.column;
            self.lines = self.lines.saturating_add(1);
        }
        self.column = 0;
        self.is_line_begun = true;
        self.is_in_name = false;
        self.front = Front::Line;
    }

    /// Keeps that a text was written that holds no word of the grammar, as a name or a string.
    pub(crate) fn wrote(&mut self, text: &str, before: &'static str)
        ensures ends { self.new.is_in_name ≡ the_ends_as_name text.now }
    {
        let ended = line_feeds(text.as_bytes());
        let width = characters(text.as_bytes());
        if ended > 0 {
            self.lines = self.lines.saturating_add(ended);
            self.column = characters_of_last_line(text.as_bytes());
            self.cut_line();
        } else {
            self.column = self.column.saturating_add(width);
        }
        self.count = self.count.saturating_add(width);
        self.is_line_begun = false;
        self.is_in_name = ends_as_name(text);
        self.is_behind_type = false;
        self.front = Front::Blank;
        self.before = before;
    }

    /// Keeps that a word was written.
    pub(crate) fn wrote_word(&mut self, word: &'static str)
        ensures ends { self.new.is_in_name ≡ the_ends_as_name word.now }
    {
        self.wrote(word, word);
        if is_tight_behind(word.as_bytes()) {
            self.front = Front::Nothing;
        }
    }

    /// Keeps that a name was written, perhaps behind an underscore.
    pub(crate) fn wrote_name(&mut self, name: &str, is_behind_underscore: bool)
        ensures ends { self.new.is_in_name ≡ the_ends_as_name name.now }
    {
        if is_behind_underscore {
            self.column = self.column.saturating_add(1);
            self.count = self.count.saturating_add(1);
        }
        self.wrote(name, "a");
    }

    /// Keeps that a text was written in quotes.
    pub(crate) fn wrote_string(&mut self, text: &str)
        ensures { self.new.is_in_name ≡ false }
    {
        self.column = self.column.saturating_add(1);
        self.wrote(text, "");
        self.column = self.column.saturating_add(1);
        self.count = self.count.saturating_add(2);
        self.is_in_name = false;
    }

    /// Begins a line with what follows.
    pub(crate) fn begin_line(&mut self) {
        if self.front != Front::EmptyLine {
            self.front = Front::Line;
        }
    }

    /// Whether a name would be read as a word of the grammar here.
    pub(crate) fn is_read_as_word(&self, name: &str) -> bool {
        is_read_behind(self.before, name)
    }

    /// Puts the next word with nothing in front.
    pub fn join(&mut self) {
        self.front = Front::Nothing;
    }

    /// Keeps that a type ended, behind which arguments are apart, as in `undefined (long x)`.
    pub fn end_type(&mut self) {
        self.is_behind_type = true;
    }

    /// Puts the arguments that follow behind the word before with nothing in front, except where
    /// that is a type.
    pub fn join_arguments(&mut self) {
        if !self.is_behind_type {
            self.front = Front::Nothing;
        }
    }

    /// Opens the lines of a body.
    pub(crate) fn open_body(&mut self) {
        self.level = self.level.saturating_add(1);
    }

    /// Ends the lines of a body.
    pub(crate) fn close_body(&mut self) {
        self.level = self.level.saturating_sub(1);
    }

    /// Puts an empty line in front of what follows, except at the front of a text.
    pub(crate) fn skip_line(&mut self) {
        if self.lines > 0 {
            self.front = Front::EmptyLine;
        }
    }

    /// Whether a definition of this kind is written right below the one before.
    pub(crate) fn is_right_below(&self, kind: Statement) -> bool {
        kind.is_written_below(self.statement)
    }

    /// Whether one line was written since, and it fits.
    pub(crate) fn is_one_line(&self, start: &Layout) -> bool {
        self.lines == start.lines.saturating_add(1) && self.width <= COLUMNS
    }

    /// Keeps what the definition was that was written since.
    pub(crate) fn end_statement(&mut self, kind: Statement, start: &Layout) {
        self.statement = if self.is_one_line(start) {
            kind
        } else {
            Statement::Other
        };
    }
}
