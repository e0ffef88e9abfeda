//! Symbols.
//!
//! Written by tools/terminals.py, and not edited by hand.

ghost use Rattle.weedle_grammar.specs.Trees.{Mark};
ghost use Rattle.weedle_grammar.specs.written.Table.Symbols.{
  OPEN_PAREN,
  CLOSE_PAREN,
  OPEN_BRACKET,
  CLOSE_BRACKET,
  OPEN_BRACE,
  CLOSE_BRACE,
  COMMA,
  MINUS,
  DOT,
  ELLIPSIS,
  COLON,
  SEMI_COLON,
  LESS_THAN,
  ASSIGN,
  GREATER_THAN,
  Q_MARK,
};
ghost use Rattle.weedle_base.specs.Own.{own};
ghost use Rattle.weedle_base.specs.OwnLaws.{own_lawful};

use crate::{IResult, Parse, symbol};
use std::alloc::Global;
use weedle_grammar::Rule;

/// The symbol `(`, with the trivia around it.
#[derive(Clone, Copy, Debug, Default, PartialEq, Eq, PartialOrd, Ord, Hash)]
pub struct OpenParen;

impl<'a> Parse<'a> for OpenParen {
    ghost reading = { own OPEN_PAREN (λ v. Mark) ⊥ };

    fn parse(_alloc: Global, input: &'a str) -> IResult<&'a str, Self> {
        symbol(Rule::OPEN_PAREN, "(", OpenParen, input)
    }

    ghost lawful = { own_lawful OPEN_PAREN (λ v. Mark) ⊥ };
}

/// The symbol `)`, with the trivia around it.
#[derive(Clone, Copy, Debug, Default, PartialEq, Eq, PartialOrd, Ord, Hash)]
pub struct CloseParen;

impl<'a> Parse<'a> for CloseParen {
    ghost reading = { own CLOSE_PAREN (λ v. Mark) ⊥ };

    fn parse(_alloc: Global, input: &'a str) -> IResult<&'a str, Self> {
        symbol(Rule::CLOSE_PAREN, ")", CloseParen, input)
    }

    ghost lawful = { own_lawful CLOSE_PAREN (λ v. Mark) ⊥ };
}

/// The symbol `[`, with the trivia around it.
#[derive(Clone, Copy, Debug, Default, PartialEq, Eq, PartialOrd, Ord, Hash)]
pub struct OpenBracket;

impl<'a> Parse<'a> for OpenBracket {
    ghost reading = { own OPEN_BRACKET (λ v. Mark) ⊥ };

    fn parse(_alloc: Global, input: &'a str) -> IResult<&'a str, Self> {
        symbol(Rule::OPEN_BRACKET, "[", OpenBracket, input)
    }

    ghost lawful = { own_lawful OPEN_BRACKET (λ v. Mark) ⊥ };
}

/// The symbol `]`, with the trivia around it.
#[derive(Clone, Copy, Debug, Default, PartialEq, Eq, PartialOrd, Ord, Hash)]
pub struct CloseBracket;

impl<'a> Parse<'a> for CloseBracket {
    ghost reading = { own CLOSE_BRACKET (λ v. Mark) ⊥ };

    fn parse(_alloc: Global, input: &'a str) -> IResult<&'a str, Self> {
        symbol(Rule::CLOSE_BRACKET, "]", CloseBracket, input)
    }

    ghost lawful = { own_lawful CLOSE_BRACKET (λ v. Mark) ⊥ };
}

/// The symbol `{`, with the trivia around it.
#[derive(Clone, Copy, Debug, Default, PartialEq, Eq, PartialOrd, Ord, Hash)]
pub struct OpenBrace;

impl<'a> Parse<'a> for OpenBrace {
    ghost reading = { own OPEN_BRACE (λ v. Mark) ⊥ };

    fn parse(_alloc: Global, input: &'a str) -> IResult<&'a str, Self> {
        symbol(Rule::OPEN_BRACE, "{", OpenBrace, input)
    }

    ghost lawful = { own_lawful OPEN_BRACE (λ v. Mark) ⊥ };
}

/// The symbol `}`, with the trivia around it.
#[derive(Clone, Copy, Debug, Default, PartialEq, Eq, PartialOrd, Ord, Hash)]
pub struct CloseBrace;

impl<'a> Parse<'a> for CloseBrace {
    ghost reading = { own CLOSE_BRACE (λ v. Mark) ⊥ };

    fn parse(_alloc: Global, input: &'a str) -> IResult<&'a str, Self> {
        symbol(Rule::CLOSE_BRACE, "}", CloseBrace, input)
    }

    ghost lawful = { own_lawful CLOSE_BRACE (λ v. Mark) ⊥ };
}

/// The symbol `,`, with the trivia around it.
#[derive(Clone, Copy, Debug, Default, PartialEq, Eq, PartialOrd, Ord, Hash)]
pub struct Comma;

impl<'a> Parse<'a> for Comma {
    ghost reading = { own COMMA (λ v. Mark) ⊥ };

    fn parse(_alloc: Global, input: &'a str) -> IResult<&'a str, Self> {
        symbol(Rule::COMMA, ",", Comma, input)
    }

    ghost lawful = { own_lawful COMMA (λ v. Mark) ⊥ };
}

/// The symbol `-`, with the trivia around it.
#[derive(Clone, Copy, Debug, Default, PartialEq, Eq, PartialOrd, Ord, Hash)]
pub struct Minus;

impl<'a> Parse<'a> for Minus {
    ghost reading = { own MINUS (λ v. Mark) ⊥ };

    fn parse(_alloc: Global, input: &'a str) -> IResult<&'a str, Self> {
        symbol(Rule::MINUS, "-", Minus, input)
    }

    ghost lawful = { own_lawful MINUS (λ v. Mark) ⊥ };
}

/// The symbol `.`, with the trivia around it.
#[derive(Clone, Copy, Debug, Default, PartialEq, Eq, PartialOrd, Ord, Hash)]
pub struct Dot;

impl<'a> Parse<'a> for Dot {
    ghost reading = { own DOT (λ v. Mark) ⊥ };

    fn parse(_alloc: Global, input: &'a str) -> IResult<&'a str, Self> {
        symbol(Rule::DOT, ".", Dot, input)
    }

    ghost lawful = { own_lawful DOT (λ v. Mark) ⊥ };
}

/// The symbol `...`, with the trivia around it.
#[derive(Clone, Copy, Debug, Default, PartialEq, Eq, PartialOrd, Ord, Hash)]
pub struct Ellipsis;

impl<'a> Parse<'a> for Ellipsis {
    ghost reading = { own ELLIPSIS (λ v. Mark) ⊥ };

    fn parse(_alloc: Global, input: &'a str) -> IResult<&'a str, Self> {
        symbol(Rule::ELLIPSIS, "...", Ellipsis, input)
    }

    ghost lawful = { own_lawful ELLIPSIS (λ v. Mark) ⊥ };
}

/// The symbol `:`, with the trivia around it.
#[derive(Clone, Copy, Debug, Default, PartialEq, Eq, PartialOrd, Ord, Hash)]
pub struct Colon;

impl<'a> Parse<'a> for Colon {
    ghost reading = { own COLON (λ v. Mark) ⊥ };

    fn parse(_alloc: Global, input: &'a str) -> IResult<&'a str, Self> {
        symbol(Rule::COLON, ":", Colon, input)
    }

    ghost lawful = { own_lawful COLON (λ v. Mark) ⊥ };
}

/// The symbol `;`, with the trivia around it.
#[derive(Clone, Copy, Debug, Default, PartialEq, Eq, PartialOrd, Ord, Hash)]
pub struct SemiColon;

impl<'a> Parse<'a> for SemiColon {
    ghost reading = { own SEMI_COLON (λ v. Mark) ⊥ };

    fn parse(_alloc: Global, input: &'a str) -> IResult<&'a str, Self> {
        symbol(Rule::SEMI_COLON, ";", SemiColon, input)
    }

    ghost lawful = { own_lawful SEMI_COLON (λ v. Mark) ⊥ };
}

/// The symbol `<`, with the trivia around it.
#[derive(Clone, Copy, Debug, Default, PartialEq, Eq, PartialOrd, Ord, Hash)]
pub struct LessThan;

impl<'a> Parse<'a> for LessThan {
    ghost reading = { own LESS_THAN (λ v. Mark) ⊥ };

    fn parse(_alloc: Global, input: &'a str) -> IResult<&'a str, Self> {
        symbol(Rule::LESS_THAN, "<", LessThan, input)
    }

    ghost lawful = { own_lawful LESS_THAN (λ v. Mark) ⊥ };
}

/// The symbol `=`, with the trivia around it.
#[derive(Clone, Copy, Debug, Default, PartialEq, Eq, PartialOrd, Ord, Hash)]
pub struct Assign;

impl<'a> Parse<'a> for Assign {
    ghost reading = { own ASSIGN (λ v. Mark) ⊥ };

    fn parse(_alloc: Global, input: &'a str) -> IResult<&'a str, Self> {
        symbol(Rule::ASSIGN, "=", Assign, input)
    }

    ghost lawful = { own_lawful ASSIGN (λ v. Mark) ⊥ };
}

/// The symbol `>`, with the trivia around it.
#[derive(Clone, Copy, Debug, Default, PartialEq, Eq, PartialOrd, Ord, Hash)]
pub struct GreaterThan;

impl<'a> Parse<'a> for GreaterThan {
    ghost reading = { own GREATER_THAN (λ v. Mark) ⊥ };

    fn parse(_alloc: Global, input: &'a str) -> IResult<&'a str, Self> {
        symbol(Rule::GREATER_THAN, ">", GreaterThan, input)
    }

    ghost lawful = { own_lawful GREATER_THAN (λ v. Mark) ⊥ };
}

/// The symbol `?`, with the trivia around it.
#[derive(Clone, Copy, Debug, Default, PartialEq, Eq, PartialOrd, Ord, Hash)]
pub struct QMark;

impl<'a> Parse<'a> for QMark {
    ghost reading = { own Q_MARK (λ v. Mark) ⊥ };

    fn parse(_alloc: Global, input: &'a str) -> IResult<&'a str, Self> {
        symbol(Rule::Q_MARK, "?", QMark, input)
    }

    ghost lawful = { own_lawful Q_MARK (λ v. Mark) ⊥ };
}
