//! Symbols.
//!
//! Written by tools/terminals.py, and not edited by hand.

ghost use Rattle.std.specs.Prelude.{◌≡◌};
ghost use Rattle.weedle_grammar.specs.written.Table.Symbols.{
  OPEN_PAREN,
  CLOSE_PAREN,
  OPEN_BRACKET,
  CLOSE_BRACKET,
  OPEN_BRACE,
  CLOSE_BRACE,
  COMMA,
  MINUS,
  DOT,
  ELLIPSIS,
  COLON,
  SEMI_COLON,
  LESS_THAN,
  ASSIGN,
  GREATER_THAN,
  Q_MARK,
};
ghost use Rattle.weedle_base.specs.Rules.{mark_tree};

use crate::at::At;
use crate::build::{Build, BuildResult, mark};
use crate::table::Table;
use std::alloc::Global;
use weedle_base::term::{
    Assign, CloseBrace, CloseBracket, CloseParen, Colon, Comma, Dot, Ellipsis, GreaterThan,
    LessThan, Minus, OpenBrace, OpenBracket, OpenParen, QMark, SemiColon,
};
use weedle_rules::Rule;

impl<'a> Build<'a> for OpenParen {
    type Value = Self;

    ghost fits = { λ r. r ≡ OPEN_PAREN };

    ghost tree = { mark_tree };

    fn build(_alloc: Global, table: Table<'_, 'a>, rule: Rule, at: At) -> BuildResult<Self> {
        Ok((OpenParen, mark(table, rule, at)))
    }
}

impl<'a> Build<'a> for CloseParen {
    type Value = Self;

    ghost fits = { λ r. r ≡ CLOSE_PAREN };

    ghost tree = { mark_tree };

    fn build(_alloc: Global, table: Table<'_, 'a>, rule: Rule, at: At) -> BuildResult<Self> {
        Ok((CloseParen, mark(table, rule, at)))
    }
}

impl<'a> Build<'a> for OpenBracket {
    type Value = Self;

    ghost fits = { λ r. r ≡ OPEN_BRACKET };

    ghost tree = { mark_tree };

    fn build(_alloc: Global, table: Table<'_, 'a>, rule: Rule, at: At) -> BuildResult<Self> {
        Ok((OpenBracket, mark(table, rule, at)))
    }
}

impl<'a> Build<'a> for CloseBracket {
    type Value = Self;

    ghost fits = { λ r. r ≡ CLOSE_BRACKET };

    ghost tree = { mark_tree };

    fn build(_alloc: Global, table: Table<'_, 'a>, rule: Rule, at: At) -> BuildResult<Self> {
        Ok((CloseBracket, mark(table, rule, at)))
    }
}

impl<'a> Build<'a> for OpenBrace {
    type Value = Self;

    ghost fits = { λ r. r ≡ OPEN_BRACE };

    ghost tree = { mark_tree };

    fn build(_alloc: Global, table: Table<'_, 'a>, rule: Rule, at: At) -> BuildResult<Self> {
        Ok((OpenBrace, mark(table, rule, at)))
    }
}

impl<'a> Build<'a> for CloseBrace {
    type Value = Self;

    ghost fits = { λ r. r ≡ CLOSE_BRACE };

    ghost tree = { mark_tree };

    fn build(_alloc: Global, table: Table<'_, 'a>, rule: Rule, at: At) -> BuildResult<Self> {
        Ok((CloseBrace, mark(table, rule, at)))
    }
}

impl<'a> Build<'a> for Comma {
    type Value = Self;

    ghost fits = { λ r. r ≡ COMMA };

    ghost tree = { mark_tree };

    fn build(_alloc: Global, table: Table<'_, 'a>, rule: Rule, at: At) -> BuildResult<Self> {
        Ok((Comma, mark(table, rule, at)))
    }
}

impl<'a> Build<'a> for Minus {
    type Value = Self;

    ghost fits = { λ r. r ≡ MINUS };

    ghost tree = { mark_tree };

    fn build(_alloc: Global, table: Table<'_, 'a>, rule: Rule, at: At) -> BuildResult<Self> {
        Ok((Minus, mark(table, rule, at)))
    }
}

impl<'a> Build<'a> for Dot {
    type Value = Self;

    ghost fits = { λ r. r ≡ DOT };

    ghost tree = { mark_tree };

    fn build(_alloc: Global, table: Table<'_, 'a>, rule: Rule, at: At) -> BuildResult<Self> {
        Ok((Dot, mark(table, rule, at)))
    }
}

impl<'a> Build<'a> for Ellipsis {
    type Value = Self;

    ghost fits = { λ r. r ≡ ELLIPSIS };

    ghost tree = { mark_tree };

    fn build(_alloc: Global, table: Table<'_, 'a>, rule: Rule, at: At) -> BuildResult<Self> {
        Ok((Ellipsis, mark(table, rule, at)))
    }
}

impl<'a> Build<'a> for Colon {
    type Value = Self;

    ghost fits = { λ r. r ≡ COLON };

    ghost tree = { mark_tree };

    fn build(_alloc: Global, table: Table<'_, 'a>, rule: Rule, at: At) -> BuildResult<Self> {
        Ok((Colon, mark(table, rule, at)))
    }
}

impl<'a> Build<'a> for SemiColon {
    type Value = Self;

    ghost fits = { λ r. r ≡ SEMI_COLON };

    ghost tree = { mark_tree };

    fn build(_alloc: Global, table: Table<'_, 'a>, rule: Rule, at: At) -> BuildResult<Self> {
        Ok((SemiColon, mark(table, rule, at)))
    }
}

impl<'a> Build<'a> for LessThan {
    type Value = Self;

    ghost fits = { λ r. r ≡ LESS_THAN };

    ghost tree = { mark_tree };

    fn build(_alloc: Global, table: Table<'_, 'a>, rule: Rule, at: At) -> BuildResult<Self> {
        Ok((LessThan, mark(table, rule, at)))
    }
}

impl<'a> Build<'a> for Assign {
    type Value = Self;

    ghost fits = { λ r. r ≡ ASSIGN };

    ghost tree = { mark_tree };

    fn build(_alloc: Global, table: Table<'_, 'a>, rule: Rule, at: At) -> BuildResult<Self> {
        Ok((Assign, mark(table, rule, at)))
    }
}

impl<'a> Build<'a> for GreaterThan {
    type Value = Self;

    ghost fits = { λ r. r ≡ GREATER_THAN };

    ghost tree = { mark_tree };

    fn build(_alloc: Global, table: Table<'_, 'a>, rule: Rule, at: At) -> BuildResult<Self> {
        Ok((GreaterThan, mark(table, rule, at)))
    }
}

impl<'a> Build<'a> for QMark {
    type Value = Self;

    ghost fits = { λ r. r ≡ Q_MARK };

    ghost tree = { mark_tree };

    fn build(_alloc: Global, table: Table<'_, 'a>, rule: Rule, at: At) -> BuildResult<Self> {
        Ok((QMark, mark(table, rule, at)))
    }
}
