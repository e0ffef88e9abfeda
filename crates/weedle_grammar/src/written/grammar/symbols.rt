//! Symbols: trivia, the symbol's bytes, trivia.
//!
//! Written by tools/grammar.py, and not edited by hand.

ghost use Rattle.std.specs.Prelude.{◌≡◌, ◌<◌, ◌≤◌};
ghost use Rattle.weedle_grammar.specs.written.Names.{name_of};
ghost use Rattle.weedle_grammar.specs.written.Table.{row_of};
ghost use Rattle.weedle_grammar.specs.View.{row_view};

use crate::grammar::trivia::TRIVIA;
use crate::row::{Row, parts_of};
use crate::rule::Rule;

pub const BYTES_OPEN_PAREN: u16 = 15;

pub const OPEN_PAREN: u16 = 16;

pub const BYTES_CLOSE_PAREN: u16 = 17;

pub const CLOSE_PAREN: u16 = 18;

pub const BYTES_OPEN_BRACKET: u16 = 19;

pub const OPEN_BRACKET: u16 = 20;

pub const BYTES_CLOSE_BRACKET: u16 = 21;

pub const CLOSE_BRACKET: u16 = 22;

pub const BYTES_OPEN_BRACE: u16 = 23;

pub const OPEN_BRACE: u16 = 24;

pub const BYTES_CLOSE_BRACE: u16 = 25;

pub const CLOSE_BRACE: u16 = 26;

pub const BYTES_COMMA: u16 = 27;

pub const COMMA: u16 = 28;

pub const BYTES_MINUS: u16 = 29;

pub const MINUS: u16 = 30;

pub const BYTES_DOT: u16 = 31;

pub const DOT: u16 = 32;

pub const BYTES_ELLIPSIS: u16 = 33;

pub const ELLIPSIS: u16 = 34;

pub const BYTES_COLON: u16 = 35;

pub const COLON: u16 = 36;

pub const BYTES_SEMI_COLON: u16 = 37;

pub const SEMI_COLON: u16 = 38;

pub const BYTES_LESS_THAN: u16 = 39;

pub const LESS_THAN: u16 = 40;

pub const BYTES_ASSIGN: u16 = 41;

pub const ASSIGN: u16 = 42;

pub const BYTES_GREATER_THAN: u16 = 43;

pub const GREATER_THAN: u16 = 44;

pub const BYTES_Q_MARK: u16 = 45;

pub const Q_MARK: u16 = 46;

impl Rule {
    /// The symbol `(`.
    pub const OPEN_PAREN: Rule = Rule(OPEN_PAREN);
    /// The symbol `)`.
    pub const CLOSE_PAREN: Rule = Rule(CLOSE_PAREN);
    /// The symbol `[`.
    pub const OPEN_BRACKET: Rule = Rule(OPEN_BRACKET);
    /// The symbol `]`.
    pub const CLOSE_BRACKET: Rule = Rule(CLOSE_BRACKET);
    /// The symbol `{`.
    pub const OPEN_BRACE: Rule = Rule(OPEN_BRACE);
    /// The symbol `}`.
    pub const CLOSE_BRACE: Rule = Rule(CLOSE_BRACE);
    /// The symbol `,`.
    pub const COMMA: Rule = Rule(COMMA);
    /// A part: the bytes `-`.
    pub const BYTES_MINUS: Rule = Rule(BYTES_MINUS);
    /// The symbol `-`.
    pub const MINUS: Rule = Rule(MINUS);
    /// A part: the bytes `.`.
    pub const BYTES_DOT: Rule = Rule(BYTES_DOT);
    /// The symbol `.`.
    pub const DOT: Rule = Rule(DOT);
    /// The symbol `...`.
    pub const ELLIPSIS: Rule = Rule(ELLIPSIS);
    /// The symbol `:`.
    pub const COLON: Rule = Rule(COLON);
    /// The symbol `;`.
    pub const SEMI_COLON: Rule = Rule(SEMI_COLON);
    /// The symbol `<`.
    pub const LESS_THAN: Rule = Rule(LESS_THAN);
    /// The symbol `=`.
    pub const ASSIGN: Rule = Rule(ASSIGN);
    /// The symbol `>`.
    pub const GREATER_THAN: Rule = Rule(GREATER_THAN);
    /// The symbol `?`.
    pub const Q_MARK: Rule = Rule(Q_MARK);
}

/// The row of a rule from 15 to 46.
#[inline(always)]
pub(super) fn row(number: u16) -> Row
    requires low { 15 ≤ number }
    requires high { number < 47 }
    ensures { row_view result ≡ row_of number }
{
    match number {
        BYTES_OPEN_PAREN => Row::Bytes(b"("),
        OPEN_PAREN => Row::Seq(parts_of(&[TRIVIA, BYTES_OPEN_PAREN, TRIVIA])),
        BYTES_CLOSE_PAREN => Row::Bytes(b")"),
        CLOSE_PAREN => Row::Seq(parts_of(&[TRIVIA, BYTES_CLOSE_PAREN, TRIVIA])),
        BYTES_OPEN_BRACKET => Row::Bytes(b"["),
        OPEN_BRACKET => Row::Seq(parts_of(&[TRIVIA, BYTES_OPEN_BRACKET, TRIVIA])),
        BYTES_CLOSE_BRACKET => Row::Bytes(b"]"),
        CLOSE_BRACKET => Row::Seq(parts_of(&[TRIVIA, BYTES_CLOSE_BRACKET, TRIVIA])),
        BYTES_OPEN_BRACE => Row::Bytes(b"{"),
        OPEN_BRACE => Row::Seq(parts_of(&[TRIVIA, BYTES_OPEN_BRACE, TRIVIA])),
        BYTES_CLOSE_BRACE => Row::Bytes(b"}"),
        CLOSE_BRACE => Row::Seq(parts_of(&[TRIVIA, BYTES_CLOSE_BRACE, TRIVIA])),
        BYTES_COMMA => Row::Bytes(b","),
        COMMA => Row::Seq(parts_of(&[TRIVIA, BYTES_COMMA, TRIVIA])),
        BYTES_MINUS => Row::Bytes(b"-"),
        MINUS => Row::Seq(parts_of(&[TRIVIA, BYTES_MINUS, TRIVIA])),
        BYTES_DOT => Row::Bytes(b"."),
        DOT => Row::Seq(parts_of(&[TRIVIA, BYTES_DOT, TRIVIA])),
        BYTES_ELLIPSIS => Row::Bytes(b"..."),
        ELLIPSIS => Row::Seq(parts_of(&[TRIVIA, BYTES_ELLIPSIS, TRIVIA])),
        BYTES_COLON => Row::Bytes(b":"),
        COLON => Row::Seq(parts_of(&[TRIVIA, BYTES_COLON, TRIVIA])),
        BYTES_SEMI_COLON => Row::Bytes(b";"),
        SEMI_COLON => Row::Seq(parts_of(&[TRIVIA, BYTES_SEMI_COLON, TRIVIA])),
        BYTES_LESS_THAN => Row::Bytes(b"<"),
        LESS_THAN => Row::Seq(parts_of(&[TRIVIA, BYTES_LESS_THAN, TRIVIA])),
        BYTES_ASSIGN => Row::Bytes(b"="),
        ASSIGN => Row::Seq(parts_of(&[TRIVIA, BYTES_ASSIGN, TRIVIA])),
        BYTES_GREATER_THAN => Row::Bytes(b">"),
        GREATER_THAN => Row::Seq(parts_of(&[TRIVIA, BYTES_GREATER_THAN, TRIVIA])),
        BYTES_Q_MARK => Row::Bytes(b"?"),
        _ => Row::Seq(parts_of(&[TRIVIA, BYTES_Q_MARK, TRIVIA])),
    }
}

/// The name of a rule from 15 to 46.
pub(super) fn name(number: u16) -> &'static str
    requires low { 15 ≤ number }
    requires high { number < 47 }
    ensures { result.now ≡ name_of number }
{
    match number {
        BYTES_OPEN_PAREN => "bytes_open_paren",
        OPEN_PAREN => "open_paren",
        BYTES_CLOSE_PAREN => "bytes_close_paren",
        CLOSE_PAREN => "close_paren",
        BYTES_OPEN_BRACKET => "bytes_open_bracket",
        OPEN_BRACKET => "open_bracket",
        BYTES_CLOSE_BRACKET => "bytes_close_bracket",
        CLOSE_BRACKET => "close_bracket",
        BYTES_OPEN_BRACE => "bytes_open_brace",
        OPEN_BRACE => "open_brace",
        BYTES_CLOSE_BRACE => "bytes_close_brace",
        CLOSE_BRACE => "close_brace",
        BYTES_COMMA => "bytes_comma",
        COMMA => "comma",
        BYTES_MINUS => "bytes_minus",
        MINUS => "minus",
        BYTES_DOT => "bytes_dot",
        DOT => "dot",
        BYTES_ELLIPSIS => "bytes_ellipsis",
        ELLIPSIS => "ellipsis",
        BYTES_COLON => "bytes_colon",
        COLON => "colon",
        BYTES_SEMI_COLON => "bytes_semi_colon",
        SEMI_COLON => "semi_colon",
        BYTES_LESS_THAN => "bytes_less_than",
        LESS_THAN => "less_than",
        BYTES_ASSIGN => "bytes_assign",
        ASSIGN => "assign",
        BYTES_GREATER_THAN => "bytes_greater_than",
        GREATER_THAN => "greater_than",
        BYTES_Q_MARK => "bytes_q_mark",
        _ => "q_mark",
    }
}
