//! Keywords of definitions and their members.
//!
//! Written by tools/terminals.py, and not edited by hand.

ghost use Rattle.std.specs.Prelude.{◌≡◌};
ghost use Rattle.weedle_grammar.specs.written.Table.Keywords.{
  ASYNC,
  ATTRIBUTE,
  CALLBACK,
  CONST,
  DELETER,
  DICTIONARY,
  ENUM,
  GETTER,
  INCLUDES,
  INHERIT,
  INTERFACE,
  ITERABLE,
  MAPLIKE,
  NAMESPACE,
  PARTIAL,
  REQUIRED,
  SETLIKE,
  SETTER,
  STATIC,
  STRINGIFIER,
  TYPEDEF,
  READ_ONLY,
  MIXIN,
  IMPLEMENTS,
  LEGACY_CALLER,
  CONSTRUCTOR,
};
ghost use Rattle.weedle_base.specs.Rules.{mark_tree};

use crate::at::At;
use crate::build::{Build, BuildResult, mark};
use crate::table::Table;
use std::alloc::Global;
use weedle_base::term::{
    Async, Attribute, Callback, Const, Constructor, Deleter, Dictionary, Enum, Getter, Implements,
    Includes, Inherit, Interface, Iterable, LegacyCaller, Maplike, Mixin, Namespace, Partial,
    ReadOnly, Required, Setlike, Setter, Static, Stringifier, Typedef,
};
use weedle_rules::Rule;

impl<'a> Build<'a> for Async {
    type Value = Self;

    ghost fits = { λ r. r ≡ ASYNC };

    ghost tree = { mark_tree };

    fn build(_alloc: Global, table: Table<'_, 'a>, rule: Rule, at: At) -> BuildResult<Self> {
        Ok((Async, mark(table, rule, at)))
    }
}

impl<'a> Build<'a> for Attribute {
    type Value = Self;

    ghost fits = { λ r. r ≡ ATTRIBUTE };

    ghost tree = { mark_tree };

    fn build(_alloc: Global, table: Table<'_, 'a>, rule: Rule, at: At) -> BuildResult<Self> {
        Ok((Attribute, mark(table, rule, at)))
    }
}

impl<'a> Build<'a> for Callback {
    type Value = Self;

    ghost fits = { λ r. r ≡ CALLBACK };

    ghost tree = { mark_tree };

    fn build(_alloc: Global, table: Table<'_, 'a>, rule: Rule, at: At) -> BuildResult<Self> {
        Ok((Callback, mark(table, rule, at)))
    }
}

impl<'a> Build<'a> for Const {
    type Value = Self;

    ghost fits = { λ r. r ≡ CONST };

    ghost tree = { mark_tree };

    fn build(_alloc: Global, table: Table<'_, 'a>, rule: Rule, at: At) -> BuildResult<Self> {
        Ok((Const, mark(table, rule, at)))
    }
}

impl<'a> Build<'a> for Deleter {
    type Value = Self;

    ghost fits = { λ r. r ≡ DELETER };

    ghost tree = { mark_tree };

    fn build(_alloc: Global, table: Table<'_, 'a>, rule: Rule, at: At) -> BuildResult<Self> {
        Ok((Deleter, mark(table, rule, at)))
    }
}

impl<'a> Build<'a> for Dictionary {
    type Value = Self;

    ghost fits = { λ r. r ≡ DICTIONARY };

    ghost tree = { mark_tree };

    fn build(_alloc: Global, table: Table<'_, 'a>, rule: Rule, at: At) -> BuildResult<Self> {
        Ok((Dictionary, mark(table, rule, at)))
    }
}

impl<'a> Build<'a> for Enum {
    type Value = Self;

    ghost fits = { λ r. r ≡ ENUM };

    ghost tree = { mark_tree };

    fn build(_alloc: Global, table: Table<'_, 'a>, rule: Rule, at: At) -> BuildResult<Self> {
        Ok((Enum, mark(table, rule, at)))
    }
}

impl<'a> Build<'a> for Getter {
    type Value = Self;

    ghost fits = { λ r. r ≡ GETTER };

    ghost tree = { mark_tree };

    fn build(_alloc: Global, table: Table<'_, 'a>, rule: Rule, at: At) -> BuildResult<Self> {
        Ok((Getter, mark(table, rule, at)))
    }
}

impl<'a> Build<'a> for Includes {
    type Value = Self;

    ghost fits = { λ r. r ≡ INCLUDES };

    ghost tree = { mark_tree };

    fn build(_alloc: Global, table: Table<'_, 'a>, rule: Rule, at: At) -> BuildResult<Self> {
        Ok((Includes, mark(table, rule, at)))
    }
}

impl<'a> Build<'a> for Inherit {
    type Value = Self;

    ghost fits = { λ r. r ≡ INHERIT };

    ghost tree = { mark_tree };

    fn build(_alloc: Global, table: Table<'_, 'a>, rule: Rule, at: At) -> BuildResult<Self> {
        Ok((Inherit, mark(table, rule, at)))
    }
}

impl<'a> Build<'a> for Interface {
    type Value = Self;

    ghost fits = { λ r. r ≡ INTERFACE };

    ghost tree = { mark_tree };

    fn build(_alloc: Global, table: Table<'_, 'a>, rule: Rule, at: At) -> BuildResult<Self> {
        Ok((Interface, mark(table, rule, at)))
    }
}

impl<'a> Build<'a> for Iterable {
    type Value = Self;

    ghost fits = { λ r. r ≡ ITERABLE };

    ghost tree = { mark_tree };

    fn build(_alloc: Global, table: Table<'_, 'a>, rule: Rule, at: At) -> BuildResult<Self> {
        Ok((Iterable, mark(table, rule, at)))
    }
}

impl<'a> Build<'a> for Maplike {
    type Value = Self;

    ghost fits = { λ r. r ≡ MAPLIKE };

    ghost tree = { mark_tree };

    fn build(_alloc: Global, table: Table<'_, 'a>, rule: Rule, at: At) -> BuildResult<Self> {
        Ok((Maplike, mark(table, rule, at)))
    }
}

impl<'a> Build<'a> for Namespace {
    type Value = Self;

    ghost fits = { λ r. r ≡ NAMESPACE };

    ghost tree = { mark_tree };

    fn build(_alloc: Global, table: Table<'_, 'a>, rule: Rule, at: At) -> BuildResult<Self> {
        Ok((Namespace, mark(table, rule, at)))
    }
}

impl<'a> Build<'a> for Partial {
    type Value = Self;

    ghost fits = { λ r. r ≡ PARTIAL };

    ghost tree = { mark_tree };

    fn build(_alloc: Global, table: Table<'_, 'a>, rule: Rule, at: At) -> BuildResult<Self> {
        Ok((Partial, mark(table, rule, at)))
    }
}

impl<'a> Build<'a> for Required {
    type Value = Self;

    ghost fits = { λ r. r ≡ REQUIRED };

    ghost tree = { mark_tree };

    fn build(_alloc: Global, table: Table<'_, 'a>, rule: Rule, at: At) -> BuildResult<Self> {
        Ok((Required, mark(table, rule, at)))
    }
}

impl<'a> Build<'a> for Setlike {
    type Value = Self;

    ghost fits = { λ r. r ≡ SETLIKE };

    ghost tree = { mark_tree };

    fn build(_alloc: Global, table: Table<'_, 'a>, rule: Rule, at: At) -> BuildResult<Self> {
        Ok((Setlike, mark(table, rule, at)))
    }
}

impl<'a> Build<'a> for Setter {
    type Value = Self;

    ghost fits = { λ r. r ≡ SETTER };

    ghost tree = { mark_tree };

    fn build(_alloc: Global, table: Table<'_, 'a>, rule: Rule, at: At) -> BuildResult<Self> {
        Ok((Setter, mark(table, rule, at)))
    }
}

impl<'a> Build<'a> for Static {
    type Value = Self;

    ghost fits = { λ r. r ≡ STATIC };

    ghost tree = { mark_tree };

    fn build(_alloc: Global, table: Table<'_, 'a>, rule: Rule, at: At) -> BuildResult<Self> {
        Ok((Static, mark(table, rule, at)))
    }
}

impl<'a> Build<'a> for Stringifier {
    type Value = Self;

    ghost fits = { λ r. r ≡ STRINGIFIER };

    ghost tree = { mark_tree };

    fn build(_alloc: Global, table: Table<'_, 'a>, rule: Rule, at: At) -> BuildResult<Self> {
        Ok((Stringifier, mark(table, rule, at)))
    }
}

impl<'a> Build<'a> for Typedef {
    type Value = Self;

    ghost fits = { λ r. r ≡ TYPEDEF };

    ghost tree = { mark_tree };

    fn build(_alloc: Global, table: Table<'_, 'a>, rule: Rule, at: At) -> BuildResult<Self> {
        Ok((Typedef, mark(table, rule, at)))
    }
}

impl<'a> Build<'a> for ReadOnly {
    type Value = Self;

    ghost fits = { λ r. r ≡ READ_ONLY };

    ghost tree = { mark_tree };

    fn build(_alloc: Global, table: Table<'_, 'a>, rule: Rule, at: At) -> BuildResult<Self> {
        Ok((ReadOnly, mark(table, rule, at)))
    }
}

impl<'a> Build<'a> for Mixin {
    type Value = Self;

    ghost fits = { λ r. r ≡ MIXIN };

    ghost tree = { mark_tree };

    fn build(_alloc: Global, table: Table<'_, 'a>, rule: Rule, at: At) -> BuildResult<Self> {
        Ok((Mixin, mark(table, rule, at)))
    }
}

impl<'a> Build<'a> for Implements {
    type Value = Self;

    ghost fits = { λ r. r ≡ IMPLEMENTS };

    ghost tree = { mark_tree };

    fn build(_alloc: Global, table: Table<'_, 'a>, rule: Rule, at: At) -> BuildResult<Self> {
        Ok((Implements, mark(table, rule, at)))
    }
}

impl<'a> Build<'a> for LegacyCaller {
    type Value = Self;

    ghost fits = { λ r. r ≡ LEGACY_CALLER };

    ghost tree = { mark_tree };

    fn build(_alloc: Global, table: Table<'_, 'a>, rule: Rule, at: At) -> BuildResult<Self> {
        Ok((LegacyCaller, mark(table, rule, at)))
    }
}

impl<'a> Build<'a> for Constructor {
    type Value = Self;

    ghost fits = { λ r. r ≡ CONSTRUCTOR };

    ghost tree = { mark_tree };

    fn build(_alloc: Global, table: Table<'_, 'a>, rule: Rule, at: At) -> BuildResult<Self> {
        Ok((Constructor, mark(table, rule, at)))
    }
}
