//! Keywords of definitions and their members.
//!
//! Written by tools/terminals.py, and not edited by hand.

ghost use Rattle.std.specs.Prelude.{Some, codes};

use crate::term::{
    Async, Attribute, Callback, Const, Constructor, Deleter, Dictionary, Enum, Getter, Implements,
    Includes, Inherit, Interface, Iterable, LegacyCaller, Maplike, Mixin, Namespace, Partial,
    ReadOnly, Required, Setlike, Setter, Static, Stringifier, Typedef,
};
use std::fmt::{self, Display, Formatter, Write};

impl Display for Async {
    ghost output = { λ v. Some (codes "async") };

    fn fmt<W: Write>(&self, f: &mut Formatter<W>) -> fmt::Result {
        f.write_str("async")
    }
}

impl Display for Attribute {
    ghost output = { λ v. Some (codes "attribute") };

    fn fmt<W: Write>(&self, f: &mut Formatter<W>) -> fmt::Result {
        f.write_str("attribute")
    }
}

impl Display for Callback {
    ghost output = { λ v. Some (codes "callback") };

    fn fmt<W: Write>(&self, f: &mut Formatter<W>) -> fmt::Result {
        f.write_str("callback")
    }
}

impl Display for Const {
    ghost output = { λ v. Some (codes "const") };

    fn fmt<W: Write>(&self, f: &mut Formatter<W>) -> fmt::Result {
        f.write_str("const")
    }
}

impl Display for Deleter {
    ghost output = { λ v. Some (codes "deleter") };

    fn fmt<W: Write>(&self, f: &mut Formatter<W>) -> fmt::Result {
        f.write_str("deleter")
    }
}

impl Display for Dictionary {
    ghost output = { λ v. Some (codes "dictionary") };

    fn fmt<W: Write>(&self, f: &mut Formatter<W>) -> fmt::Result {
        f.write_str("dictionary")
    }
}

impl Display for Enum {
    ghost output = { λ v. Some (codes "enum") };

    fn fmt<W: Write>(&self, f: &mut Formatter<W>) -> fmt::Result {
        f.write_str("enum")
    }
}

impl Display for Getter {
    ghost output = { λ v. Some (codes "getter") };

    fn fmt<W: Write>(&self, f: &mut Formatter<W>) -> fmt::Result {
        f.write_str("getter")
    }
}

impl Display for Includes {
    ghost output = { λ v. Some (codes "includes") };

    fn fmt<W: Write>(&self, f: &mut Formatter<W>) -> fmt::Result {
        f.write_str("includes")
    }
}

impl Display for Inherit {
    ghost output = { λ v. Some (codes "inherit") };

    fn fmt<W: Write>(&self, f: &mut Formatter<W>) -> fmt::Result {
        f.write_str("inherit")
    }
}

impl Display for Interface {
    ghost output = { λ v. Some (codes "interface") };

    fn fmt<W: Write>(&self, f: &mut Formatter<W>) -> fmt::Result {
        f.write_str("interface")
    }
}

impl Display for Iterable {
    ghost output = { λ v. Some (codes "iterable") };

    fn fmt<W: Write>(&self, f: &mut Formatter<W>) -> fmt::Result {
        f.write_str("iterable")
    }
}

impl Display for Maplike {
    ghost output = { λ v. Some (codes "maplike") };

    fn fmt<W: Write>(&self, f: &mut Formatter<W>) -> fmt::Result {
        f.write_str("maplike")
    }
}

impl Display for Namespace {
    ghost output = { λ v. Some (codes "namespace") };

    fn fmt<W: Write>(&self, f: &mut Formatter<W>) -> fmt::Result {
        f.write_str("namespace")
    }
}

impl Display for Partial {
    ghost output = { λ v. Some (codes "partial") };

    fn fmt<W: Write>(&self, f: &mut Formatter<W>) -> fmt::Result {
        f.write_str("partial")
    }
}

impl Display for Required {
    ghost output = { λ v. Some (codes "required") };

    fn fmt<W: Write>(&self, f: &mut Formatter<W>) -> fmt::Result {
        f.write_str("required")
    }
}

impl Display for Setlike {
    ghost output = { λ v. Some (codes "setlike") };

    fn fmt<W: Write>(&self, f: &mut Formatter<W>) -> fmt::Result {
        f.write_str("setlike")
    }
}

impl Display for Setter {
    ghost output = { λ v. Some (codes "setter") };

    fn fmt<W: Write>(&self, f: &mut Formatter<W>) -> fmt::Result {
        f.write_str("setter")
    }
}

impl Display for Static {
    ghost output = { λ v. Some (codes "static") };

    fn fmt<W: Write>(&self, f: &mut Formatter<W>) -> fmt::Result {
        f.write_str("static")
    }
}

impl Display for Stringifier {
    ghost output = { λ v. Some (codes "stringifier") };

    fn fmt<W: Write>(&self, f: &mut Formatter<W>) -> fmt::Result {
        f.write_str("stringifier")
    }
}

impl Display for Typedef {
    ghost output = { λ v. Some (codes "typedef") };

    fn fmt<W: Write>(&self, f: &mut Formatter<W>) -> fmt::Result {
        f.write_str("typedef")
    }
}

impl Display for ReadOnly {
    ghost output = { λ v. Some (codes "readonly") };

    fn fmt<W: Write>(&self, f: &mut Formatter<W>) -> fmt::Result {
        f.write_str("readonly")
    }
}

impl Display for Mixin {
    ghost output = { λ v. Some (codes "mixin") };

    fn fmt<W: Write>(&self, f: &mut Formatter<W>) -> fmt::Result {
        f.write_str("mixin")
    }
}

impl Display for Implements {
    ghost output = { λ v. Some (codes "implements") };

    fn fmt<W: Write>(&self, f: &mut Formatter<W>) -> fmt::Result {
        f.write_str("implements")
    }
}

impl Display for LegacyCaller {
    ghost output = { λ v. Some (codes "legacycaller") };

    fn fmt<W: Write>(&self, f: &mut Formatter<W>) -> fmt::Result {
        f.write_str("legacycaller")
    }
}

impl Display for Constructor {
    ghost output = { λ v. Some (codes "constructor") };

    fn fmt<W: Write>(&self, f: &mut Formatter<W>) -> fmt::Result {
        f.write_str("constructor")
    }
}
