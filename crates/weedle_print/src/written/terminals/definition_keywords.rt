//! Keywords of definitions and their members.
//!
//! Written by tools/terminals.py, and not edited by hand.

ghost use Rattle.std.specs.Prelude.{codes};
ghost use Rattle.weedle_spell.specs.Leaves.{terminal};

use crate::error::PrintError;
use crate::layout::Layout;
use crate::print::Print;
use crate::texts::word;
use weedle_base::term::{
    Async, Attribute, Callback, Const, Constructor, Deleter, Dictionary, Enum, Getter, Implements,
    Includes, Inherit, Interface, Iterable, LegacyCaller, Maplike, Mixin, Namespace, Partial,
    ReadOnly, Required, Setlike, Setter, Static, Stringifier, Typedef,
};

impl Print for Async {
    type Value = Self;

    ghost spelling = { λ v. terminal (codes "async") v };

    fn print(_value: &Async, out: &mut String, layout: &mut Layout) -> Result<(), PrintError> {
        word(out, layout, "async")
    }
}

impl Print for Attribute {
    type Value = Self;

    ghost spelling = { λ v. terminal (codes "attribute") v };

    fn print(_value: &Attribute, out: &mut String, layout: &mut Layout) -> Result<(), PrintError> {
        word(out, layout, "attribute")
    }
}

impl Print for Callback {
    type Value = Self;

    ghost spelling = { λ v. terminal (codes "callback") v };

    fn print(_value: &Callback, out: &mut String, layout: &mut Layout) -> Result<(), PrintError> {
        word(out, layout, "callback")
    }
}

impl Print for Const {
    type Value = Self;

    ghost spelling = { λ v. terminal (codes "const") v };

    fn print(_value: &Const, out: &mut String, layout: &mut Layout) -> Result<(), PrintError> {
        word(out, layout, "const")
    }
}

impl Print for Deleter {
    type Value = Self;

    ghost spelling = { λ v. terminal (codes "deleter") v };

    fn print(_value: &Deleter, out: &mut String, layout: &mut Layout) -> Result<(), PrintError> {
        word(out, layout, "deleter")
    }
}

impl Print for Dictionary {
    type Value = Self;

    ghost spelling = { λ v. terminal (codes "dictionary") v };

    fn print(_value: &Dictionary, out: &mut String, layout: &mut Layout) -> Result<(), PrintError> {
        word(out, layout, "dictionary")
    }
}

impl Print for Enum {
    type Value = Self;

    ghost spelling = { λ v. terminal (codes "enum") v };

    fn print(_value: &Enum, out: &mut String, layout: &mut Layout) -> Result<(), PrintError> {
        word(out, layout, "enum")
    }
}

impl Print for Getter {
    type Value = Self;

    ghost spelling = { λ v. terminal (codes "getter") v };

    fn print(_value: &Getter, out: &mut String, layout: &mut Layout) -> Result<(), PrintError> {
        word(out, layout, "getter")
    }
}

impl Print for Includes {
    type Value = Self;

    ghost spelling = { λ v. terminal (codes "includes") v };

    fn print(_value: &Includes, out: &mut String, layout: &mut Layout) -> Result<(), PrintError> {
        word(out, layout, "includes")
    }
}

impl Print for Inherit {
    type Value = Self;

    ghost spelling = { λ v. terminal (codes "inherit") v };

    fn print(_value: &Inherit, out: &mut String, layout: &mut Layout) -> Result<(), PrintError> {
        word(out, layout, "inherit")
    }
}

impl Print for Interface {
    type Value = Self;

    ghost spelling = { λ v. terminal (codes "interface") v };

    fn print(_value: &Interface, out: &mut String, layout: &mut Layout) -> Result<(), PrintError> {
        word(out, layout, "interface")
    }
}

impl Print for Iterable {
    type Value = Self;

    ghost spelling = { λ v. terminal (codes "iterable") v };

    fn print(_value: &Iterable, out: &mut String, layout: &mut Layout) -> Result<(), PrintError> {
        word(out, layout, "iterable")
    }
}

impl Print for Maplike {
    type Value = Self;

    ghost spelling = { λ v. terminal (codes "maplike") v };

    fn print(_value: &Maplike, out: &mut String, layout: &mut Layout) -> Result<(), PrintError> {
        word(out, layout, "maplike")
    }
}

impl Print for Namespace {
    type Value = Self;

    ghost spelling = { λ v. terminal (codes "namespace") v };

    fn print(_value: &Namespace, out: &mut String, layout: &mut Layout) -> Result<(), PrintError> {
        word(out, layout, "namespace")
    }
}

impl Print for Partial {
    type Value = Self;

    ghost spelling = { λ v. terminal (codes "partial") v };

    fn print(_value: &Partial, out: &mut String, layout: &mut Layout) -> Result<(), PrintError> {
        word(out, layout, "partial")
    }
}

impl Print for Required {
    type Value = Self;

    ghost spelling = { λ v. terminal (codes "required") v };

    fn print(_value: &Required, out: &mut String, layout: &mut Layout) -> Result<(), PrintError> {
        word(out, layout, "required")
    }
}

impl Print for Setlike {
    type Value = Self;

    ghost spelling = { λ v. terminal (codes "setlike") v };

    fn print(_value: &Setlike, out: &mut String, layout: &mut Layout) -> Result<(), PrintError> {
        word(out, layout, "setlike")
    }
}

impl Print for Setter {
    type Value = Self;

    ghost spelling = { λ v. terminal (codes "setter") v };

    fn print(_value: &Setter, out: &mut String, layout: &mut Layout) -> Result<(), PrintError> {
        word(out, layout, "setter")
    }
}

impl Print for Static {
    type Value = Self;

    ghost spelling = { λ v. terminal (codes "static") v };

    fn print(_value: &Static, out: &mut String, layout: &mut Layout) -> Result<(), PrintError> {
        word(out, layout, "static")
    }
}

impl Print for Stringifier {
    type Value = Self;

    ghost spelling = { λ v. terminal (codes "stringifier") v };

    fn print(
        _value: &Stringifier,
        out: &mut String,
        layout: &mut Layout,
    ) -> Result<(), PrintError> {
        word(out, layout, "stringifier")
    }
}

impl Print for Typedef {
    type Value = Self;

    ghost spelling = { λ v. terminal (codes "typedef") v };

    fn print(_value: &Typedef, out: &mut String, layout: &mut Layout) -> Result<(), PrintError> {
        word(out, layout, "typedef")
    }
}

impl Print for ReadOnly {
    type Value = Self;

    ghost spelling = { λ v. terminal (codes "readonly") v };

    fn print(_value: &ReadOnly, out: &mut String, layout: &mut Layout) -> Result<(), PrintError> {
        word(out, layout, "readonly")
    }
}

impl Print for Mixin {
    type Value = Self;

    ghost spelling = { λ v. terminal (codes "mixin") v };

    fn print(_value: &Mixin, out: &mut String, layout: &mut Layout) -> Result<(), PrintError> {
        word(out, layout, "mixin")
    }
}

impl Print for Implements {
    type Value = Self;

    ghost spelling = { λ v. terminal (codes "implements") v };

    fn print(_value: &Implements, out: &mut String, layout: &mut Layout) -> Result<(), PrintError> {
        word(out, layout, "implements")
    }
}

impl Print for LegacyCaller {
    type Value = Self;

    ghost spelling = { λ v. terminal (codes "legacycaller") v };

    fn print(
        _value: &LegacyCaller,
        out: &mut String,
        layout: &mut Layout,
    ) -> Result<(), PrintError> {
        word(out, layout, "legacycaller")
    }
}

impl Print for Constructor {
    type Value = Self;

    ghost spelling = { λ v. terminal (codes "constructor") v };

    fn print(
        _value: &Constructor,
        out: &mut String,
        layout: &mut Layout,
    ) -> Result<(), PrintError> {
        word(out, layout, "constructor")
    }
}
