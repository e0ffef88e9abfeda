//! Keywords of definitions and their members.
//!
//! Written by tools/terminals.py, and not edited by hand.

ghost use Rattle.std.specs.Prelude.{codes};

use crate::words::Words;
use weedle_base::term::{
    Async, Attribute, Callback, Const, Constructor, Deleter, Dictionary, Enum, Getter, Implements,
    Includes, Inherit, Interface, Iterable, LegacyCaller, Maplike, Mixin, Namespace, Partial,
    ReadOnly, Required, Setlike, Setter, Static, Stringifier, Typedef,
};

impl Words for Async {
    ghost words = { λ v. codes "async" };

    fn as_str(&self) -> &'static str {
        "async"
    }
}

impl Words for Attribute {
    ghost words = { λ v. codes "attribute" };

    fn as_str(&self) -> &'static str {
        "attribute"
    }
}

impl Words for Callback {
    ghost words = { λ v. codes "callback" };

    fn as_str(&self) -> &'static str {
        "callback"
    }
}

impl Words for Const {
    ghost words = { λ v. codes "const" };

    fn as_str(&self) -> &'static str {
        "const"
    }
}

impl Words for Deleter {
    ghost words = { λ v. codes "deleter" };

    fn as_str(&self) -> &'static str {
        "deleter"
    }
}

impl Words for Dictionary {
    ghost words = { λ v. codes "dictionary" };

    fn as_str(&self) -> &'static str {
        "dictionary"
    }
}

impl Words for Enum {
    ghost words = { λ v. codes "enum" };

    fn as_str(&self) -> &'static str {
        "enum"
    }
}

impl Words for Getter {
    ghost words = { λ v. codes "getter" };

    fn as_str(&self) -> &'static str {
        "getter"
    }
}

impl Words for Includes {
    ghost words = { λ v. codes "includes" };

    fn as_str(&self) -> &'static str {
        "includes"
    }
}

impl Words for Inherit {
    ghost words = { λ v. codes "inherit" };

    fn as_str(&self) -> &'static str {
        "inherit"
    }
}

impl Words for Interface {
    ghost words = { λ v. codes "interface" };

    fn as_str(&self) -> &'static str {
        "interface"
    }
}

impl Words for Iterable {
    ghost words = { λ v. codes "iterable" };

    fn as_str(&self) -> &'static str {
        "iterable"
    }
}

impl Words for Maplike {
    ghost words = { λ v. codes "maplike" };

    fn as_str(&self) -> &'static str {
        "maplike"
    }
}

impl Words for Namespace {
    ghost words = { λ v. codes "namespace" };

    fn as_str(&self) -> &'static str {
        "namespace"
    }
}

impl Words for Partial {
    ghost words = { λ v. codes "partial" };

    fn as_str(&self) -> &'static str {
        "partial"
    }
}

impl Words for Required {
    ghost words = { λ v. codes "required" };

    fn as_str(&self) -> &'static str {
        "required"
    }
}

impl Words for Setlike {
    ghost words = { λ v. codes "setlike" };

    fn as_str(&self) -> &'static str {
        "setlike"
    }
}

impl Words for Setter {
    ghost words = { λ v. codes "setter" };

    fn as_str(&self) -> &'static str {
        "setter"
    }
}

impl Words for Static {
    ghost words = { λ v. codes "static" };

    fn as_str(&self) -> &'static str {
        "static"
    }
}

impl Words for Stringifier {
    ghost words = { λ v. codes "stringifier" };

    fn as_str(&self) -> &'static str {
        "stringifier"
    }
}

impl Words for Typedef {
    ghost words = { λ v. codes "typedef" };

    fn as_str(&self) -> &'static str {
        "typedef"
    }
}

impl Words for ReadOnly {
    ghost words = { λ v. codes "readonly" };

    fn as_str(&self) -> &'static str {
        "readonly"
    }
}

impl Words for Mixin {
    ghost words = { λ v. codes "mixin" };

    fn as_str(&self) -> &'static str {
        "mixin"
    }
}

impl Words for Implements {
    ghost words = { λ v. codes "implements" };

    fn as_str(&self) -> &'static str {
        "implements"
    }
}

impl Words for LegacyCaller {
    ghost words = { λ v. codes "legacycaller" };

    fn as_str(&self) -> &'static str {
        "legacycaller"
    }
}

impl Words for Constructor {
    ghost words = { λ v. codes "constructor" };

    fn as_str(&self) -> &'static str {
        "constructor"
    }
}
