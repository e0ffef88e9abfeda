//! Keywords of types, arguments and values.
//!
//! Written by tools/terminals.py, and not edited by hand.

ghost use Rattle.std.specs.Prelude.{◌≡◌};
ghost use Rattle.weedle_grammar.specs.written.Table.Keywords.{
  OR,
  OPTIONAL,
  UNRESTRICTED,
  SYMBOL,
  ANY,
  BOOLEAN,
  BYTE,
  DOUBLE,
  FALSE,
  FLOAT,
  LONG,
  NULL,
  OBJECT,
  OCTET,
  SEQUENCE,
  SHORT,
  TRUE,
  UNSIGNED,
  UNDEFINED,
  RECORD,
};
ghost use Rattle.weedle_base.specs.Rules.{mark_tree};

use crate::at::At;
use crate::build::{Build, BuildResult, mark};
use crate::table::Table;
use std::alloc::Global;
use weedle_base::term::{
    Any, Boolean, Byte, Double, False, Float, Long, Null, Object, Octet, Optional, Or, Record,
    Sequence, Short, Symbol, True, Undefined, Unrestricted, Unsigned,
};
use weedle_rules::Rule;

impl<'a> Build<'a> for Or {
    type Value = Self;

    ghost fits = { λ r. r ≡ OR };

    ghost tree = { mark_tree };

    fn build(_alloc: Global, table: Table<'_, 'a>, rule: Rule, at: At) -> BuildResult<Self> {
        Ok((Or, mark(table, rule, at)))
    }
}

impl<'a> Build<'a> for Optional {
    type Value = Self;

    ghost fits = { λ r. r ≡ OPTIONAL };

    ghost tree = { mark_tree };

    fn build(_alloc: Global, table: Table<'_, 'a>, rule: Rule, at: At) -> BuildResult<Self> {
        Ok((Optional, mark(table, rule, at)))
    }
}

impl<'a> Build<'a> for Unrestricted {
    type Value = Self;

    ghost fits = { λ r. r ≡ UNRESTRICTED };

    ghost tree = { mark_tree };

    fn build(_alloc: Global, table: Table<'_, 'a>, rule: Rule, at: At) -> BuildResult<Self> {
        Ok((Unrestricted, mark(table, rule, at)))
    }
}

impl<'a> Build<'a> for Symbol {
    type Value = Self;

    ghost fits = { λ r. r ≡ SYMBOL };

    ghost tree = { mark_tree };

    fn build(_alloc: Global, table: Table<'_, 'a>, rule: Rule, at: At) -> BuildResult<Self> {
        Ok((Symbol, mark(table, rule, at)))
    }
}

impl<'a> Build<'a> for Any {
    type Value = Self;

    ghost fits = { λ r. r ≡ ANY };

    ghost tree = { mark_tree };

    fn build(_alloc: Global, table: Table<'_, 'a>, rule: Rule, at: At) -> BuildResult<Self> {
        Ok((Any, mark(table, rule, at)))
    }
}

impl<'a> Build<'a> for Boolean {
    type Value = Self;

    ghost fits = { λ r. r ≡ BOOLEAN };

    ghost tree = { mark_tree };

    fn build(_alloc: Global, table: Table<'_, 'a>, rule: Rule, at: At) -> BuildResult<Self> {
        Ok((Boolean, mark(table, rule, at)))
    }
}

impl<'a> Build<'a> for Byte {
    type Value = Self;

    ghost fits = { λ r. r ≡ BYTE };

    ghost tree = { mark_tree };

    fn build(_alloc: Global, table: Table<'_, 'a>, rule: Rule, at: At) -> BuildResult<Self> {
        Ok((Byte, mark(table, rule, at)))
    }
}

impl<'a> Build<'a> for Double {
    type Value = Self;

    ghost fits = { λ r. r ≡ DOUBLE };

    ghost tree = { mark_tree };

    fn build(_alloc: Global, table: Table<'_, 'a>, rule: Rule, at: At) -> BuildResult<Self> {
        Ok((Double, mark(table, rule, at)))
    }
}

impl<'a> Build<'a> for False {
    type Value = Self;

    ghost fits = { λ r. r ≡ FALSE };

    ghost tree = { mark_tree };

    fn build(_alloc: Global, table: Table<'_, 'a>, rule: Rule, at: At) -> BuildResult<Self> {
        Ok((False, mark(table, rule, at)))
    }
}

impl<'a> Build<'a> for Float {
    type Value = Self;

    ghost fits = { λ r. r ≡ FLOAT };

    ghost tree = { mark_tree };

    fn build(_alloc: Global, table: Table<'_, 'a>, rule: Rule, at: At) -> BuildResult<Self> {
        Ok((Float, mark(table, rule, at)))
    }
}

impl<'a> Build<'a> for Long {
    type Value = Self;

    ghost fits = { λ r. r ≡ LONG };

    ghost tree = { mark_tree };

    fn build(_alloc: Global, table: Table<'_, 'a>, rule: Rule, at: At) -> BuildResult<Self> {
        Ok((Long, mark(table, rule, at)))
    }
}

impl<'a> Build<'a> for Null {
    type Value = Self;

    ghost fits = { λ r. r ≡ NULL };

    ghost tree = { mark_tree };

    fn build(_alloc: Global, table: Table<'_, 'a>, rule: Rule, at: At) -> BuildResult<Self> {
        Ok((Null, mark(table, rule, at)))
    }
}

impl<'a> Build<'a> for Object {
    type Value = Self;

    ghost fits = { λ r. r ≡ OBJECT };

    ghost tree = { mark_tree };

    fn build(_alloc: Global, table: Table<'_, 'a>, rule: Rule, at: At) -> BuildResult<Self> {
        Ok((Object, mark(table, rule, at)))
    }
}

impl<'a> Build<'a> for Octet {
    type Value = Self;

    ghost fits = { λ r. r ≡ OCTET };

    ghost tree = { mark_tree };

    fn build(_alloc: Global, table: Table<'_, 'a>, rule: Rule, at: At) -> BuildResult<Self> {
        Ok((Octet, mark(table, rule, at)))
    }
}

impl<'a> Build<'a> for Sequence {
    type Value = Self;

    ghost fits = { λ r. r ≡ SEQUENCE };

    ghost tree = { mark_tree };

    fn build(_alloc: Global, table: Table<'_, 'a>, rule: Rule, at: At) -> BuildResult<Self> {
        Ok((Sequence, mark(table, rule, at)))
    }
}

impl<'a> Build<'a> for Short {
    type Value = Self;

    ghost fits = { λ r. r ≡ SHORT };

    ghost tree = { mark_tree };

    fn build(_alloc: Global, table: Table<'_, 'a>, rule: Rule, at: At) -> BuildResult<Self> {
        Ok((Short, mark(table, rule, at)))
    }
}

impl<'a> Build<'a> for True {
    type Value = Self;

    ghost fits = { λ r. r ≡ TRUE };

    ghost tree = { mark_tree };

    fn build(_alloc: Global, table: Table<'_, 'a>, rule: Rule, at: At) -> BuildResult<Self> {
        Ok((True, mark(table, rule, at)))
    }
}

impl<'a> Build<'a> for Unsigned {
    type Value = Self;

    ghost fits = { λ r. r ≡ UNSIGNED };

    ghost tree = { mark_tree };

    fn build(_alloc: Global, table: Table<'_, 'a>, rule: Rule, at: At) -> BuildResult<Self> {
        Ok((Unsigned, mark(table, rule, at)))
    }
}

impl<'a> Build<'a> for Undefined {
    type Value = Self;

    ghost fits = { λ r. r ≡ UNDEFINED };

    ghost tree = { mark_tree };

    fn build(_alloc: Global, table: Table<'_, 'a>, rule: Rule, at: At) -> BuildResult<Self> {
        Ok((Undefined, mark(table, rule, at)))
    }
}

impl<'a> Build<'a> for Record {
    type Value = Self;

    ghost fits = { λ r. r ≡ RECORD };

    ghost tree = { mark_tree };

    fn build(_alloc: Global, table: Table<'_, 'a>, rule: Rule, at: At) -> BuildResult<Self> {
        Ok((Record, mark(table, rule, at)))
    }
}
