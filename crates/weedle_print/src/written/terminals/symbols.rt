//! Symbols.
//!
//! Written by tools/terminals.py, and not edited by hand.

ghost use Rattle.std.specs.Prelude.{codes};
ghost use Rattle.weedle_spell.specs.Leaves.{terminal};

use crate::error::PrintError;
use crate::layout::Layout;
use crate::print::Print;
use crate::texts::{last_word, word};
use weedle_base::term::{
    Assign, CloseBrace, CloseBracket, CloseParen, Colon, Comma, Dot, Ellipsis, GreaterThan,
    LessThan, Minus, OpenBrace, OpenBracket, OpenParen, QMark, SemiColon,
};

impl Print for OpenParen {
    type Value = Self;

    ghost spelling = { λ v. terminal (codes "(") v };

    fn print(_value: &OpenParen, out: &mut String, layout: &mut Layout) -> Result<(), PrintError> {
        word(out, layout, "(")
    }
}

impl Print for CloseParen {
    type Value = Self;

    ghost spelling = { λ v. terminal (codes ")") v };

    fn print(_value: &CloseParen, out: &mut String, layout: &mut Layout) -> Result<(), PrintError> {
        word(out, layout, ")")
    }
}

impl Print for OpenBracket {
    type Value = Self;

    ghost spelling = { λ v. terminal (codes "[") v };

    fn print(
        _value: &OpenBracket,
        out: &mut String,
        layout: &mut Layout,
    ) -> Result<(), PrintError> {
        word(out, layout, "[")
    }
}

impl Print for CloseBracket {
    type Value = Self;

    ghost spelling = { λ v. terminal (codes "]") v };

    fn print(
        _value: &CloseBracket,
        out: &mut String,
        layout: &mut Layout,
    ) -> Result<(), PrintError> {
        word(out, layout, "]")
    }
}

impl Print for OpenBrace {
    type Value = Self;

    ghost spelling = { λ v. terminal (codes "{") v };

    fn print(_value: &OpenBrace, out: &mut String, layout: &mut Layout) -> Result<(), PrintError> {
        word(out, layout, "{")
    }
}

impl Print for CloseBrace {
    type Value = Self;

    ghost spelling = { λ v. terminal (codes "}") v };

    fn print(_value: &CloseBrace, out: &mut String, layout: &mut Layout) -> Result<(), PrintError> {
        word(out, layout, "}")
    }
}

impl Print for Comma {
    type Value = Self;

    ghost spelling = { λ v. terminal (codes ",") v };

    fn print(_value: &Comma, out: &mut String, layout: &mut Layout) -> Result<(), PrintError> {
        word(out, layout, ",")
    }
}

impl Print for Minus {
    type Value = Self;

    ghost spelling = { λ v. terminal (codes "-") v };

    fn print(_value: &Minus, out: &mut String, layout: &mut Layout) -> Result<(), PrintError> {
        word(out, layout, "-")
    }
}

impl Print for Dot {
    type Value = Self;

    ghost spelling = { λ v. terminal (codes ".") v };

    fn print(_value: &Dot, out: &mut String, layout: &mut Layout) -> Result<(), PrintError> {
        word(out, layout, ".")
    }
}

impl Print for Ellipsis {
    type Value = Self;

    ghost spelling = { λ v. terminal (codes "...") v };

    fn print(_value: &Ellipsis, out: &mut String, layout: &mut Layout) -> Result<(), PrintError> {
        word(out, layout, "...")
    }
}

impl Print for Colon {
    type Value = Self;

    ghost spelling = { λ v. terminal (codes ":") v };

    fn print(_value: &Colon, out: &mut String, layout: &mut Layout) -> Result<(), PrintError> {
        word(out, layout, ":")
    }
}

impl Print for SemiColon {
    type Value = Self;

    ghost spelling = { λ v. terminal (codes ";") v };

    fn print(_value: &SemiColon, out: &mut String, layout: &mut Layout) -> Result<(), PrintError> {
        last_word(out, layout, ";")
    }
}

impl Print for LessThan {
    type Value = Self;

    ghost spelling = { λ v. terminal (codes "<") v };

    fn print(_value: &LessThan, out: &mut String, layout: &mut Layout) -> Result<(), PrintError> {
        word(out, layout, "<")
    }
}

impl Print for Assign {
    type Value = Self;

    ghost spelling = { λ v. terminal (codes "=") v };

    fn print(_value: &Assign, out: &mut String, layout: &mut Layout) -> Result<(), PrintError> {
        word(out, layout, "=")
    }
}

impl Print for GreaterThan {
    type Value = Self;

    ghost spelling = { λ v. terminal (codes ">") v };

    fn print(
        _value: &GreaterThan,
        out: &mut String,
        layout: &mut Layout,
    ) -> Result<(), PrintError> {
        word(out, layout, ">")
    }
}

impl Print for QMark {
    type Value = Self;

    ghost spelling = { λ v. terminal (codes "?") v };

    fn print(_value: &QMark, out: &mut String, layout: &mut Layout) -> Result<(), PrintError> {
        word(out, layout, "?")
    }
}
