//! Symbols.
//!
//! Written by tools/terminals.py, and not edited by hand.

ghost use Rattle.std.specs.Prelude.{codes};

use crate::words::Words;
use weedle_base::term::{
    Assign, CloseBrace, CloseBracket, CloseParen, Colon, Comma, Dot, Ellipsis, GreaterThan,
    LessThan, Minus, OpenBrace, OpenBracket, OpenParen, QMark, SemiColon,
};

impl Words for OpenParen {
    ghost words = { λ v. codes "(" };

    fn as_str(&self) -> &'static str {
        "("
    }
}

impl Words for CloseParen {
    ghost words = { λ v. codes ")" };

    fn as_str(&self) -> &'static str {
        ")"
    }
}

impl Words for OpenBracket {
    ghost words = { λ v. codes "[" };

    fn as_str(&self) -> &'static str {
        "["
    }
}

impl Words for CloseBracket {
    ghost words = { λ v. codes "]" };

    fn as_str(&self) -> &'static str {
        "]"
    }
}

impl Words for OpenBrace {
    ghost words = { λ v. codes "{" };

    fn as_str(&self) -> &'static str {
        "{"
    }
}

impl Words for CloseBrace {
    ghost words = { λ v. codes "}" };

    fn as_str(&self) -> &'static str {
        "}"
    }
}

impl Words for Comma {
    ghost words = { λ v. codes "," };

    fn as_str(&self) -> &'static str {
        ","
    }
}

impl Words for Minus {
    ghost words = { λ v. codes "-" };

    fn as_str(&self) -> &'static str {
        "-"
    }
}

impl Words for Dot {
    ghost words = { λ v. codes "." };

    fn as_str(&self) -> &'static str {
        "."
    }
}

impl Words for Ellipsis {
    ghost words = { λ v. codes "..." };

    fn as_str(&self) -> &'static str {
        "..."
    }
}

impl Words for Colon {
    ghost words = { λ v. codes ":" };

    fn as_str(&self) -> &'static str {
        ":"
    }
}

impl Words for SemiColon {
    ghost words = { λ v. codes ";" };

    fn as_str(&self) -> &'static str {
        ";"
    }
}

impl Words for LessThan {
    ghost words = { λ v. codes "<" };

    fn as_str(&self) -> &'static str {
        "<"
    }
}

impl Words for Assign {
    ghost words = { λ v. codes "=" };

    fn as_str(&self) -> &'static str {
        "="
    }
}

impl Words for GreaterThan {
    ghost words = { λ v. codes ">" };

    fn as_str(&self) -> &'static str {
        ">"
    }
}

impl Words for QMark {
    ghost words = { λ v. codes "?" };

    fn as_str(&self) -> &'static str {
        "?"
    }
}
