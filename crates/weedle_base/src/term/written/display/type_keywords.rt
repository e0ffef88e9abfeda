//! Keywords of types, arguments and values.
//!
//! Written by tools/terminals.py, and not edited by hand.

ghost use Rattle.std.specs.Prelude.{Some, codes};

use crate::term::{
    Any, Boolean, Byte, Double, False, Float, Long, Null, Object, Octet, Optional, Or, Record,
    Sequence, Short, Symbol, True, Undefined, Unrestricted, Unsigned,
};
use std::fmt::{self, Display, Formatter, Write};

impl Display for Or {
    ghost output = { λ v. Some (codes "or") };

    fn fmt<W: Write>(&self, f: &mut Formatter<W>) -> fmt::Result {
        f.write_str("or")
    }
}

impl Display for Optional {
    ghost output = { λ v. Some (codes "optional") };

    fn fmt<W: Write>(&self, f: &mut Formatter<W>) -> fmt::Result {
        f.write_str("optional")
    }
}

impl Display for Unrestricted {
    ghost output = { λ v. Some (codes "unrestricted") };

    fn fmt<W: Write>(&self, f: &mut Formatter<W>) -> fmt::Result {
        f.write_str("unrestricted")
    }
}

impl Display for Symbol {
    ghost output = { λ v. Some (codes "symbol") };

    fn fmt<W: Write>(&self, f: &mut Formatter<W>) -> fmt::Result {
        f.write_str("symbol")
    }
}

impl Display for Any {
    ghost output = { λ v. Some (codes "any") };

    fn fmt<W: Write>(&self, f: &mut Formatter<W>) -> fmt::Result {
        f.write_str("any")
    }
}

impl Display for Boolean {
    ghost output = { λ v. Some (codes "boolean") };

    fn fmt<W: Write>(&self, f: &mut Formatter<W>) -> fmt::Result {
        f.write_str("boolean")
    }
}

impl Display for Byte {
    ghost output = { λ v. Some (codes "byte") };

    fn fmt<W: Write>(&self, f: &mut Formatter<W>) -> fmt::Result {
        f.write_str("byte")
    }
}

impl Display for Double {
    ghost output = { λ v. Some (codes "double") };

    fn fmt<W: Write>(&self, f: &mut Formatter<W>) -> fmt::Result {
        f.write_str("double")
    }
}

impl Display for False {
    ghost output = { λ v. Some (codes "false") };

    fn fmt<W: Write>(&self, f: &mut Formatter<W>) -> fmt::Result {
        f.write_str("false")
    }
}

impl Display for Float {
    ghost output = { λ v. Some (codes "float") };

    fn fmt<W: Write>(&self, f: &mut Formatter<W>) -> fmt::Result {
        f.write_str("float")
    }
}

impl Display for Long {
    ghost output = { λ v. Some (codes "long") };

    fn fmt<W: Write>(&self, f: &mut Formatter<W>) -> fmt::Result {
        f.write_str("long")
    }
}

impl Display for Null {
    ghost output = { λ v. Some (codes "null") };

    fn fmt<W: Write>(&self, f: &mut Formatter<W>) -> fmt::Result {
        f.write_str("null")
    }
}

impl Display for Object {
    ghost output = { λ v. Some (codes "object") };

    fn fmt<W: Write>(&self, f: &mut Formatter<W>) -> fmt::Result {
        f.write_str("object")
    }
}

impl Display for Octet {
    ghost output = { λ v. Some (codes "octet") };

    fn fmt<W: Write>(&self, f: &mut Formatter<W>) -> fmt::Result {
        f.write_str("octet")
    }
}

impl Display for Sequence {
    ghost output = { λ v. Some (codes "sequence") };

    fn fmt<W: Write>(&self, f: &mut Formatter<W>) -> fmt::Result {
        f.write_str("sequence")
    }
}

impl Display for Short {
    ghost output = { λ v. Some (codes "short") };

    fn fmt<W: Write>(&self, f: &mut Formatter<W>) -> fmt::Result {
        f.write_str("short")
    }
}

impl Display for True {
    ghost output = { λ v. Some (codes "true") };

    fn fmt<W: Write>(&self, f: &mut Formatter<W>) -> fmt::Result {
        f.write_str("true")
    }
}

impl Display for Unsigned {
    ghost output = { λ v. Some (codes "unsigned") };

    fn fmt<W: Write>(&self, f: &mut Formatter<W>) -> fmt::Result {
        f.write_str("unsigned")
    }
}

impl Display for Undefined {
    ghost output = { λ v. Some (codes "undefined") };

    fn fmt<W: Write>(&self, f: &mut Formatter<W>) -> fmt::Result {
        f.write_str("undefined")
    }
}

impl Display for Record {
    ghost output = { λ v. Some (codes "record") };

    fn fmt<W: Write>(&self, f: &mut Formatter<W>) -> fmt::Result {
        f.write_str("record")
    }
}
