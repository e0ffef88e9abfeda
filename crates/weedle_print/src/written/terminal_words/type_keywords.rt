//! Keywords of types, arguments and values.
//!
//! Written by tools/terminals.py, and not edited by hand.

ghost use Rattle.std.specs.Prelude.{codes};

use crate::words::Words;
use weedle_base::term::{
    Any, Boolean, Byte, Double, False, Float, Long, Null, Object, Octet, Optional, Or, Record,
    Sequence, Short, Symbol, True, Undefined, Unrestricted, Unsigned,
};

impl Words for Or {
    ghost words = { λ v. codes "or" };

    fn as_str(&self) -> &'static str {
        "or"
    }
}

impl Words for Optional {
    ghost words = { λ v. codes "optional" };

    fn as_str(&self) -> &'static str {
        "optional"
    }
}

impl Words for Unrestricted {
    ghost words = { λ v. codes "unrestricted" };

    fn as_str(&self) -> &'static str {
        "unrestricted"
    }
}

impl Words for Symbol {
    ghost words = { λ v. codes "symbol" };

    fn as_str(&self) -> &'static str {
        "symbol"
    }
}

impl Words for Any {
    ghost words = { λ v. codes "any" };

    fn as_str(&self) -> &'static str {
        "any"
    }
}

impl Words for Boolean {
    ghost words = { λ v. codes "boolean" };

    fn as_str(&self) -> &'static str {
        "boolean"
    }
}

impl Words for Byte {
    ghost words = { λ v. codes "byte" };

    fn as_str(&self) -> &'static str {
        "byte"
    }
}

impl Words for Double {
    ghost words = { λ v. codes "double" };

    fn as_str(&self) -> &'static str {
        "double"
    }
}

impl Words for False {
    ghost words = { λ v. codes "false" };

    fn as_str(&self) -> &'static str {
        "false"
    }
}

impl Words for Float {
    ghost words = { λ v. codes "float" };

    fn as_str(&self) -> &'static str {
        "float"
    }
}

impl Words for Long {
    ghost words = { λ v. codes "long" };

    fn as_str(&self) -> &'static str {
        "long"
    }
}

impl Words for Null {
    ghost words = { λ v. codes "null" };

    fn as_str(&self) -> &'static str {
        "null"
    }
}

impl Words for Object {
    ghost words = { λ v. codes "object" };

    fn as_str(&self) -> &'static str {
        "object"
    }
}

impl Words for Octet {
    ghost words = { λ v. codes "octet" };

    fn as_str(&self) -> &'static str {
        "octet"
    }
}

impl Words for Sequence {
    ghost words = { λ v. codes "sequence" };

    fn as_str(&self) -> &'static str {
        "sequence"
    }
}

impl Words for Short {
    ghost words = { λ v. codes "short" };

    fn as_str(&self) -> &'static str {
        "short"
    }
}

impl Words for True {
    ghost words = { λ v. codes "true" };

    fn as_str(&self) -> &'static str {
        "true"
    }
}

impl Words for Unsigned {
    ghost words = { λ v. codes "unsigned" };

    fn as_str(&self) -> &'static str {
        "unsigned"
    }
}

impl Words for Undefined {
    ghost words = { λ v. codes "undefined" };

    fn as_str(&self) -> &'static str {
        "undefined"
    }
}

impl Words for Record {
    ghost words = { λ v. codes "record" };

    fn as_str(&self) -> &'static str {
        "record"
    }
}
