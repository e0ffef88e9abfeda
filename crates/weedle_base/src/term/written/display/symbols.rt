//! Symbols.
//!
//! Written by tools/terminals.py, and not edited by hand.

ghost use Rattle.std.specs.Prelude.{Some, codes};

use crate::term::{
    Assign, CloseBrace, CloseBracket, CloseParen, Colon, Comma, Dot, Ellipsis, GreaterThan,
    LessThan, Minus, OpenBrace, OpenBracket, OpenParen, QMark, SemiColon,
};
use std::fmt::{self, Display, Formatter, Write};

impl Display for OpenParen {
    ghost output = { λ v. Some (codes "(") };

    fn fmt<W: Write>(&self, f: &mut Formatter<W>) -> fmt::Result {
        f.write_str("(")
    }
}

impl Display for CloseParen {
    ghost output = { λ v. Some (codes ")") };

    fn fmt<W: Write>(&self, f: &mut Formatter<W>) -> fmt::Result {
        f.write_str(")")
    }
}

impl Display for OpenBracket {
    ghost output = { λ v. Some (codes "[") };

    fn fmt<W: Write>(&self, f: &mut Formatter<W>) -> fmt::Result {
        f.write_str("[")
    }
}

impl Display for CloseBracket {
    ghost output = { λ v. Some (codes "]") };

    fn fmt<W: Write>(&self, f: &mut Formatter<W>) -> fmt::Result {
        f.write_str("]")
    }
}

impl Display for OpenBrace {
    ghost output = { λ v. Some (codes "{") };

    fn fmt<W: Write>(&self, f: &mut Formatter<W>) -> fmt::Result {
        f.write_str("{")
    }
}

impl Display for CloseBrace {
    ghost output = { λ v. Some (codes "}") };

    fn fmt<W: Write>(&self, f: &mut Formatter<W>) -> fmt::Result {
        f.write_str("}")
    }
}

impl Display for Comma {
    ghost output = { λ v. Some (codes ",") };

    fn fmt<W: Write>(&self, f: &mut Formatter<W>) -> fmt::Result {
        f.write_str(",")
    }
}

impl Display for Minus {
    ghost output = { λ v. Some (codes "-") };

    fn fmt<W: Write>(&self, f: &mut Formatter<W>) -> fmt::Result {
        f.write_str("-")
    }
}

impl Display for Dot {
    ghost output = { λ v. Some (codes ".") };

    fn fmt<W: Write>(&self, f: &mut Formatter<W>) -> fmt::Result {
        f.write_str(".")
    }
}

impl Display for Ellipsis {
    ghost output = { λ v. Some (codes "...") };

    fn fmt<W: Write>(&self, f: &mut Formatter<W>) -> fmt::Result {
        f.write_str("...")
    }
}

impl Display for Colon {
    ghost output = { λ v. Some (codes ":") };

    fn fmt<W: Write>(&self, f: &mut Formatter<W>) -> fmt::Result {
        f.write_str(":")
    }
}

impl Display for SemiColon {
    ghost output = { λ v. Some (codes ";") };

    fn fmt<W: Write>(&self, f: &mut Formatter<W>) -> fmt::Result {
        f.write_str(";")
    }
}

impl Display for LessThan {
    ghost output = { λ v. Some (codes "<") };

    fn fmt<W: Write>(&self, f: &mut Formatter<W>) -> fmt::Result {
        f.write_str("<")
    }
}

impl Display for Assign {
    ghost output = { λ v. Some (codes "=") };

    fn fmt<W: Write>(&self, f: &mut Formatter<W>) -> fmt::Result {
        f.write_str("=")
    }
}

impl Display for GreaterThan {
    ghost output = { λ v. Some (codes ">") };

    fn fmt<W: Write>(&self, f: &mut Formatter<W>) -> fmt::Result {
        f.write_str(">")
    }
}

impl Display for QMark {
    ghost output = { λ v. Some (codes "?") };

    fn fmt<W: Write>(&self, f: &mut Formatter<W>) -> fmt::Result {
        f.write_str("?")
    }
}
