//! Literals, and the values of defaults and constants.
//!
//! Written by tools/builds.py, and not edited by hand.
#![tactic(auto, using(crate::proofs::Finding::own_steps))]

ghost use Rattle.std.specs.Prelude.{◌≡◌};
ghost use Rattle.weedle_grammar.specs.written.Table.Literals.{
  BOOLEAN_LIT,
  CONST_VALUE,
  DEFAULT,
  DEFAULT_VALUE,
  EMPTY_ARRAY_LIT,
  EMPTY_DICTIONARY_LIT,
  FLOAT_LIT,
  INTEGER_LIT,
};
ghost use Rattle.weedle_parts.specs.LiteralTrees.{
  boolean_tree,
  const_value_tree,
  default_tree,
  default_value_tree,
  empty_array_tree,
  empty_dictionary_tree,
  float_tree,
  integer_tree,
};

use crate::alternatives::{alternative, choice};
use crate::at::At;
use crate::build::{Build, BuildResult};
use crate::structs::two_fields;
use crate::table::Table;
use std::alloc::Global;
use weedle_base::term::{
    Assign, CloseBrace, CloseBracket, False, Infinity, NaN, NegInfinity, Null, OpenBrace,
    OpenBracket, True,
};
use weedle_parts::literal::{
    BooleanLit, ConstValue, DecLit, Default, DefaultValue, EmptyArrayLit, EmptyDictionaryLit,
    FloatLit, FloatValueLit, HexLit, IntegerLit, OctLit, StringLit,
};
use weedle_rules::Rule;

impl<'a> Build<'a> for BooleanLit {
    type Value = Self;

    ghost fits = { λ r. r ≡ BOOLEAN_LIT };

    ghost tree = { boolean_tree };

    fn build(alloc: Global, table: Table<'_, 'a>, _rule: Rule, at: At) -> BuildResult<Self> {
        let rule = Rule::BOOLEAN_LIT;
        match choice(table, rule, at.place) {
            0 => {
                let (_, at) = alternative::<True>(alloc, table, rule, 0, at)?;
                Ok((BooleanLit(true), at))
            }
            1 => {
                let (_, at) = alternative::<False>(alloc, table, rule, 1, at)?;
                Ok((BooleanLit(false), at))
            }
            _ => unreachable!(),
        }
    }
}

impl<'a> Build<'a> for IntegerLit<'a> {
    type Value = Self;

    ghost fits = { λ r. r ≡ INTEGER_LIT };

    ghost tree = { integer_tree };

    fn build(alloc: Global, table: Table<'_, 'a>, _rule: Rule, at: At) -> BuildResult<Self> {
        let rule = Rule::INTEGER_LIT;
        match choice(table, rule, at.place) {
            0 => {
                let (member, at) = alternative::<DecLit>(alloc, table, rule, 0, at)?;
                Ok((IntegerLit::Dec(member), at))
            }
            1 => {
                let (member, at) = alternative::<HexLit>(alloc, table, rule, 1, at)?;
                Ok((IntegerLit::Hex(member), at))
            }
            2 => {
                let (member, at) = alternative::<OctLit>(alloc, table, rule, 2, at)?;
                Ok((IntegerLit::Oct(member), at))
            }
            _ => unreachable!(),
        }
    }
}

impl<'a> Build<'a> for FloatLit<'a> {
    type Value = Self;

    ghost fits = { λ r. r ≡ FLOAT_LIT };

    ghost tree = { float_tree };

    fn build(alloc: Global, table: Table<'_, 'a>, _rule: Rule, at: At) -> BuildResult<Self> {
        let rule = Rule::FLOAT_LIT;
        match choice(table, rule, at.place) {
            0 => {
                let (member, at) = alternative::<FloatValueLit>(alloc, table, rule, 0, at)?;
                Ok((FloatLit::Value(member), at))
            }
            1 => {
                let (member, at) = alternative::<NegInfinity>(alloc, table, rule, 1, at)?;
                Ok((FloatLit::NegInfinity(member), at))
            }
            2 => {
                let (member, at) = alternative::<Infinity>(alloc, table, rule, 2, at)?;
                Ok((FloatLit::Infinity(member), at))
            }
            3 => {
                let (member, at) = alternative::<NaN>(alloc, table, rule, 3, at)?;
                Ok((FloatLit::NaN(member), at))
            }
            _ => unreachable!(),
        }
    }
}

impl<'a> Build<'a> for EmptyArrayLit {
    type Value = Self;

    ghost fits = { λ r. r ≡ EMPTY_ARRAY_LIT };

    ghost tree = { empty_array_tree };

    fn build(alloc: Global, table: Table<'_, 'a>, _rule: Rule, at: At) -> BuildResult<Self> {
        let ((open_bracket, close_bracket), at) = two_fields::<OpenBracket, CloseBracket>(
            alloc,
            table,
            Rule::EMPTY_ARRAY_LIT,
            at,
        )?;
        Ok((
            EmptyArrayLit {
                open_bracket,
                close_bracket,
            },
            at,
        ))
    }
}

impl<'a> Build<'a> for EmptyDictionaryLit {
    type Value = Self;

    ghost fits = { λ r. r ≡ EMPTY_DICTIONARY_LIT };

    ghost tree = { empty_dictionary_tree };

    fn build(alloc: Global, table: Table<'_, 'a>, _rule: Rule, at: At) -> BuildResult<Self> {
        let ((open_brace, close_brace), at) = two_fields::<OpenBrace, CloseBrace>(
            alloc,
            table,
            Rule::EMPTY_DICTIONARY_LIT,
            at,
        )?;
        Ok((
            EmptyDictionaryLit {
                open_brace,
                close_brace,
            },
            at,
        ))
    }
}

impl<'a> Build<'a> for DefaultValue<'a> {
    type Value = Self;

    ghost fits = { λ r. r ≡ DEFAULT_VALUE };

    ghost tree = { default_value_tree };

    fn build(alloc: Global, table: Table<'_, 'a>, _rule: Rule, at: At) -> BuildResult<Self> {
        let rule = Rule::DEFAULT_VALUE;
        match choice(table, rule, at.place) {
            0 => {
                let (member, at) = alternative::<BooleanLit>(alloc, table, rule, 0, at)?;
                Ok((DefaultValue::Boolean(member), at))
            }
            1 => {
                let (member, at) = alternative::<EmptyArrayLit>(alloc, table, rule, 1, at)?;
                Ok((DefaultValue::EmptyArray(member), at))
            }
            2 => {
                let (member, at) = alternative::<EmptyDictionaryLit>(alloc, table, rule, 2, at)?;
                Ok((DefaultValue::EmptyDictionary(member), at))
            }
            3 => {
                let (member, at) = alternative::<FloatLit>(alloc, table, rule, 3, at)?;
                Ok((DefaultValue::Float(member), at))
            }
            4 => {
                let (member, at) = alternative::<IntegerLit>(alloc, table, rule, 4, at)?;
                Ok((DefaultValue::Integer(member), at))
            }
            5 => {
                let (member, at) = alternative::<Null>(alloc, table, rule, 5, at)?;
                Ok((DefaultValue::Null(member), at))
            }
            6 => {
                let (member, at) = alternative::<StringLit>(alloc, table, rule, 6, at)?;
                Ok((DefaultValue::String(member), at))
            }
            _ => unreachable!(),
        }
    }
}

impl<'a> Build<'a> for ConstValue<'a> {
    type Value = Self;

    ghost fits = { λ r. r ≡ CONST_VALUE };

    ghost tree = { const_value_tree };

    fn build(alloc: Global, table: Table<'_, 'a>, _rule: Rule, at: At) -> BuildResult<Self> {
        let rule = Rule::CONST_VALUE;
        match choice(table, rule, at.place) {
            0 => {
                let (member, at) = alternative::<BooleanLit>(alloc, table, rule, 0, at)?;
                Ok((ConstValue::Boolean(member), at))
            }
            1 => {
                let (member, at) = alternative::<FloatLit>(alloc, table, rule, 1, at)?;
                Ok((ConstValue::Float(member), at))
            }
            2 => {
                let (member, at) = alternative::<IntegerLit>(alloc, table, rule, 2, at)?;
                Ok((ConstValue::Integer(member), at))
            }
            3 => {
                let (member, at) = alternative::<Null>(alloc, table, rule, 3, at)?;
                Ok((ConstValue::Null(member), at))
            }
            _ => unreachable!(),
        }
    }
}

impl<'a> Build<'a> for Default<'a> {
    type Value = Self;

    ghost fits = { λ r. r ≡ DEFAULT };

    ghost tree = { default_tree };

    fn build(alloc: Global, table: Table<'_, 'a>, _rule: Rule, at: At) -> BuildResult<Self> {
        let ((assign, value), at) = two_fields::<Assign, DefaultValue>(
            alloc,
            table,
            Rule::DEFAULT,
            at,
        )?;
        Ok((Default { assign, value }, at))
    }
}
