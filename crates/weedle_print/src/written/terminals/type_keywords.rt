//! Keywords of types, arguments and values.
//!
//! Written by tools/terminals.py, and not edited by hand.

ghost use Rattle.std.specs.Prelude.{codes};
ghost use Rattle.weedle_spell.specs.Leaves.{terminal};

use crate::error::PrintError;
use crate::layout::Layout;
use crate::print::Print;
use crate::texts::word;
use weedle_base::term::{
    Any, Boolean, Byte, Double, False, Float, Long, Null, Object, Octet, Optional, Or, Record,
    Sequence, Short, Symbol, True, Undefined, Unrestricted, Unsigned,
};

impl Print for Or {
    type Value = Self;

    ghost spelling = { λ v. terminal (codes "or") v };

    fn print(_value: &Or, out: &mut String, layout: &mut Layout) -> Result<(), PrintError> {
        word(out, layout, "or")
    }
}

impl Print for Optional {
    type Value = Self;

    ghost spelling = { λ v. terminal (codes "optional") v };

    fn print(_value: &Optional, out: &mut String, layout: &mut Layout) -> Result<(), PrintError> {
        word(out, layout, "optional")
    }
}

impl Print for Unrestricted {
    type Value = Self;

    ghost spelling = { λ v. terminal (codes "unrestricted") v };

    fn print(
        _value: &Unrestricted,
        out: &mut String,
        layout: &mut Layout,
    ) -> Result<(), PrintError> {
        word(out, layout, "unrestricted")
    }
}

impl Print for Symbol {
    type Value = Self;

    ghost spelling = { λ v. terminal (codes "symbol") v };

    fn print(_value: &Symbol, out: &mut String, layout: &mut Layout) -> Result<(), PrintError> {
        word(out, layout, "symbol")
    }
}

impl Print for Any {
    type Value = Self;

    ghost spelling = { λ v. terminal (codes "any") v };

    fn print(_value: &Any, out: &mut String, layout: &mut Layout) -> Result<(), PrintError> {
        word(out, layout, "any")
    }
}

impl Print for Boolean {
    type Value = Self;

    ghost spelling = { λ v. terminal (codes "boolean") v };

    fn print(_value: &Boolean, out: &mut String, layout: &mut Layout) -> Result<(), PrintError> {
        word(out, layout, "boolean")
    }
}

impl Print for Byte {
    type Value = Self;

    ghost spelling = { λ v. terminal (codes "byte") v };

    fn print(_value: &Byte, out: &mut String, layout: &mut Layout) -> Result<(), PrintError> {
        word(out, layout, "byte")
    }
}

impl Print for Double {
    type Value = Self;

    ghost spelling = { λ v. terminal (codes "double") v };

    fn print(_value: &Double, out: &mut String, layout: &mut Layout) -> Result<(), PrintError> {
        word(out, layout, "double")
    }
}

impl Print for False {
    type Value = Self;

    ghost spelling = { λ v. terminal (codes "false") v };

    fn print(_value: &False, out: &mut String, layout: &mut Layout) -> Result<(), PrintError> {
        word(out, layout, "false")
    }
}

impl Print for Float {
    type Value = Self;

    ghost spelling = { λ v. terminal (codes "float") v };

    fn print(_value: &Float, out: &mut String, layout: &mut Layout) -> Result<(), PrintError> {
        word(out, layout, "float")
    }
}

impl Print for Long {
    type Value = Self;

    ghost spelling = { λ v. terminal (codes "long") v };

    fn print(_value: &Long, out: &mut String, layout: &mut Layout) -> Result<(), PrintError> {
        word(out, layout, "long")
    }
}

impl Print for Null {
    type Value = Self;

    ghost spelling = { λ v. terminal (codes "null") v };

    fn print(_value: &Null, out: &mut String, layout: &mut Layout) -> Result<(), PrintError> {
        word(out, layout, "null")
    }
}

impl Print for Object {
    type Value = Self;

    ghost spelling = { λ v. terminal (codes "object") v };

    fn print(_value: &Object, out: &mut String, layout: &mut Layout) -> Result<(), PrintError> {
        word(out, layout, "object")
    }
}

impl Print for Octet {
    type Value = Self;

    ghost spelling = { λ v. terminal (codes "octet") v };

    fn print(_value: &Octet, out: &mut String, layout: &mut Layout) -> Result<(), PrintError> {
        word(out, layout, "octet")
    }
}

impl Print for Sequence {
    type Value = Self;

    ghost spelling = { λ v. terminal (codes "sequence") v };

    fn print(_value: &Sequence, out: &mut String, layout: &mut Layout) -> Result<(), PrintError> {
        word(out, layout, "sequence")
    }
}

impl Print for Short {
    type Value = Self;

    ghost spelling = { λ v. terminal (codes "short") v };

    fn print(_value: &Short, out: &mut String, layout: &mut Layout) -> Result<(), PrintError> {
        word(out, layout, "short")
    }
}

impl Print for True {
    type Value = Self;

    ghost spelling = { λ v. terminal (codes "true") v };

    fn print(_value: &True, out: &mut String, layout: &mut Layout) -> Result<(), PrintError> {
        word(out, layout, "true")
    }
}

impl Print for Unsigned {
    type Value = Self;

    ghost spelling = { λ v. terminal (codes "unsigned") v };

    fn print(_value: &Unsigned, out: &mut String, layout: &mut Layout) -> Result<(), PrintError> {
        word(out, layout, "unsigned")
    }
}

impl Print for Undefined {
    type Value = Self;

    ghost spelling = { λ v. terminal (codes "undefined") v };

    fn print(_value: &Undefined, out: &mut String, layout: &mut Layout) -> Result<(), PrintError> {
        word(out, layout, "undefined")
    }
}

impl Print for Record {
    type Value = Self;

    ghost spelling = { λ v. terminal (codes "record") v };

    fn print(_value: &Record, out: &mut String, layout: &mut Layout) -> Result<(), PrintError> {
        word(out, layout, "record")
    }
}
