//! Trivia: line comments, whitespace and block comments.
//!
//! Written by tools/grammar.py, and not edited by hand.

ghost use Rattle.std.specs.Prelude.{◌≡◌, ◌<◌, ◌≤◌};
ghost use Rattle.weedle_grammar.specs.written.Names.{name_of};
ghost use Rattle.weedle_grammar.specs.written.Table.{row_of};
ghost use Rattle.weedle_grammar.specs.View.{row_view};

use crate::class::Class;
use crate::row::{Row, parts_of};
use crate::rule::Rule;

pub const BYTES_LF: u16 = 0;

pub const NOT_NEXT_ANY: u16 = 1;

pub const LINE_END: u16 = 2;

pub const BYTES_SLASH_SLASH: u16 = 3;

pub const NOT_NEXT_SLASH: u16 = 4;

pub const RUN_NOT_LINE_FEED: u16 = 5;

pub const LINE_COMMENT: u16 = 6;

pub const ONE_OF_BLANK: u16 = 7;

pub const RUN_BLANK: u16 = 8;

pub const BLANKS: u16 = 9;

pub const BYTES_SLASH_STAR: u16 = 10;

pub const PAST_STAR_SLASH: u16 = 11;

pub const BLOCK_COMMENT: u16 = 12;

pub const PIECE: u16 = 13;

pub const TRIVIA: u16 = 14;

impl Rule {
    /// An LF, or the end of the text.
    pub const LINE_END: Rule = Rule(LINE_END);
    /// A part: the bytes `//`.
    pub const BYTES_SLASH_SLASH: Rule = Rule(BYTES_SLASH_SLASH);
    /// A line comment, as `// c`, with its LF where the text doesn't end before it.
    pub const LINE_COMMENT: Rule = Rule(LINE_COMMENT);
    /// A part: one byte of the class `Blank`.
    pub const ONE_OF_BLANK: Rule = Rule(ONE_OF_BLANK);
    /// A part: all bytes of the class `Blank`.
    pub const RUN_BLANK: Rule = Rule(RUN_BLANK);
    /// Spaces, tabs, CRs and LFs, one at least.
    pub const BLANKS: Rule = Rule(BLANKS);
    /// A part: the bytes `/*`.
    pub const BYTES_SLASH_STAR: Rule = Rule(BYTES_SLASH_STAR);
    /// A block comment, as `/* c */`.
    pub const BLOCK_COMMENT: Rule = Rule(BLOCK_COMMENT);
    /// A comment or whitespace.
    pub const PIECE: Rule = Rule(PIECE);
    /// Comments and whitespace, none included.
    pub const TRIVIA: Rule = Rule(TRIVIA);
}

/// The row of a rule from 0 to 14.
#[inline(always)]
pub(super) fn row(number: u16) -> Row
    requires { number < 15 }
    ensures { row_view result ≡ row_of number }
{
    match number {
        BYTES_LF => Row::Bytes(b"\n"),
        NOT_NEXT_ANY => Row::NotNext(Class::Any),
        LINE_END => Row::First(parts_of(&[BYTES_LF, NOT_NEXT_ANY])),
        BYTES_SLASH_SLASH => Row::Bytes(b"//"),
        NOT_NEXT_SLASH => Row::NotNext(Class::Slash),
        RUN_NOT_LINE_FEED => Row::Run(Class::NotLineFeed),
        LINE_COMMENT => Row::Seq(parts_of(&[
            BYTES_SLASH_SLASH,
            NOT_NEXT_SLASH,
            RUN_NOT_LINE_FEED,
            LINE_END,
        ])),
        ONE_OF_BLANK => Row::OneOf(Class::Blank),
        RUN_BLANK => Row::Run(Class::Blank),
        BLANKS => Row::Seq(parts_of(&[ONE_OF_BLANK, RUN_BLANK])),
        BYTES_SLASH_STAR => Row::Bytes(b"/*"),
        PAST_STAR_SLASH => Row::Past(b"*/"),
        BLOCK_COMMENT => Row::Seq(parts_of(&[BYTES_SLASH_STAR, PAST_STAR_SLASH])),
        PIECE => Row::First(parts_of(&[LINE_COMMENT, BLANKS, BLOCK_COMMENT])),
        _ => Row::Many(Rule(PIECE)),
    }
}

/// The name of a rule from 0 to 14.
pub(super) fn name(number: u16) -> &'static str
    requires { number < 15 }
    ensures { result.now ≡ name_of number }
{
    match number {
        BYTES_LF => "bytes_lf",
        NOT_NEXT_ANY => "not_next_any",
        LINE_END => "line_end",
        BYTES_SLASH_SLASH => "bytes_slash_slash",
        NOT_NEXT_SLASH => "not_next_slash",
        RUN_NOT_LINE_FEED => "run_not_line_feed",
        LINE_COMMENT => "line_comment",
        ONE_OF_BLANK => "one_of_blank",
        RUN_BLANK => "run_blank",
        BLANKS => "blanks",
        BYTES_SLASH_STAR => "bytes_slash_star",
        PAST_STAR_SLASH => "past_star_slash",
        BLOCK_COMMENT => "block_comment",
        PIECE => "piece",
        _ => "trivia",
    }
}
