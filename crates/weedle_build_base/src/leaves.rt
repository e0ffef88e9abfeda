//! Names, numbers and texts: each keeps a text of one part of its rule.
#![tactic(auto, using(crate::proofs::Finding::own_steps))]

ghost use Rattle.std.specs.Prelude.{◌≡◌};
ghost use Rattle.weedle_grammar.specs.written.Table.Leaves.{
  IDENTIFIER,
  DEC_LIT,
  HEX_LIT,
  OCT_LIT,
  FLOAT_VALUE_LIT,
  STRING_LIT,
};
ghost use Rattle.weedle_parts.specs.ValueTrees.{identifier_tree};
ghost use Rattle.weedle_parts.specs.LiteralTrees.{
  dec_tree,
  hex_tree,
  oct_tree,
  float_value_tree,
  string_tree,
};

use crate::at::At;
use crate::build::{Build, BuildResult};
use crate::table::Table;
use crate::texts::kept;
use std::alloc::Global;
use weedle_parts::common::Identifier;
use weedle_parts::literal::{DecLit, FloatValueLit, HexLit, OctLit, StringLit};
use weedle_rules::Rule;

impl<'a> Build<'a> for Identifier<'a> {
    type Value = Self;

    ghost fits = { λ r. r ≡ IDENTIFIER };

    ghost tree = { identifier_tree };

    fn build(_alloc: Global, table: Table<'_, 'a>, _rule: Rule, at: At) -> BuildResult<Self> {
        let (text, at) = kept(table, Rule::IDENTIFIER, 2, at);
        Ok((Identifier(text), at))
    }
}

impl<'a> Build<'a> for DecLit<'a> {
    type Value = Self;

    ghost fits = { λ r. r ≡ DEC_LIT };

    ghost tree = { dec_tree };

    fn build(_alloc: Global, table: Table<'_, 'a>, _rule: Rule, at: At) -> BuildResult<Self> {
        let (text, at) = kept(table, Rule::DEC_LIT, 1, at);
        Ok((DecLit(text), at))
    }
}

impl<'a> Build<'a> for HexLit<'a> {
    type Value = Self;

    ghost fits = { λ r. r ≡ HEX_LIT };

    ghost tree = { hex_tree };

    fn build(_alloc: Global, table: Table<'_, 'a>, _rule: Rule, at: At) -> BuildResult<Self> {
        let (text, at) = kept(table, Rule::HEX_LIT, 1, at);
        Ok((HexLit(text), at))
    }
}

impl<'a> Build<'a> for OctLit<'a> {
    type Value = Self;

    ghost fits = { λ r. r ≡ OCT_LIT };

    ghost tree = { oct_tree };

    fn build(_alloc: Global, table: Table<'_, 'a>, _rule: Rule, at: At) -> BuildResult<Self> {
        let (text, at) = kept(table, Rule::OCT_LIT, 1, at);
        Ok((OctLit(text), at))
    }
}

impl<'a> Build<'a> for FloatValueLit<'a> {
    type Value = Self;

    ghost fits = { λ r. r ≡ FLOAT_VALUE_LIT };

    ghost tree = { float_value_tree };

    fn build(_alloc: Global, table: Table<'_, 'a>, _rule: Rule, at: At) -> BuildResult<Self> {
        let (text, at) = kept(table, Rule::FLOAT_VALUE_LIT, 1, at);
        Ok((FloatValueLit(text), at))
    }
}

impl<'a> Build<'a> for StringLit<'a> {
    type Value = Self;

    ghost fits = { λ r. r ≡ STRING_LIT };

    ghost tree = { string_tree };

    fn build(_alloc: Global, table: Table<'_, 'a>, _rule: Rule, at: At) -> BuildResult<Self> {
        let (text, at) = kept(table, Rule::STRING_LIT, 2, at);
        Ok((StringLit(text), at))
    }
}
