//! Types that hold no other type.
//!
//! Written by tools/builds.py, and not edited by hand.
#![tactic(auto, using(crate::proofs::Finding::own_steps))]

ghost use Rattle.std.specs.Prelude.{◌≡◌};
ghost use Rattle.weedle_grammar.specs.written.Table.SimpleTypes.{
  CONST_TYPE,
  DOUBLE_TYPE,
  FLOATING_POINT_TYPE,
  FLOAT_TYPE,
  INTEGER_TYPE,
  LONG_LONG_TYPE,
  LONG_TYPE,
  SHORT_TYPE,
};
ghost use Rattle.weedle_parts.specs.ValueTrees.{
  const_type_tree,
  double_type_tree,
  float_type_tree,
  floating_point_type_tree,
  integer_type_tree,
  long_long_type_tree,
  long_type_tree,
  short_type_tree,
};

use crate::alternatives::{alternative, choice};
use crate::at::At;
use crate::build::{Build, BuildResult};
use crate::structs::two_fields;
use crate::table::Table;
use std::alloc::Global;
use weedle_base::term::{Boolean, Byte, Double, Float, Long, Octet, Short, Unrestricted, Unsigned};
use weedle_parts::common::Identifier;
use weedle_parts::types::{
    ConstType, DoubleType, FloatType, FloatingPointType, IntegerType, LongLongType, LongType,
    MayBeNull, ShortType,
};
use weedle_rules::Rule;

impl<'a> Build<'a> for LongLongType {
    type Value = Self;

    ghost fits = { λ r. r ≡ LONG_LONG_TYPE };

    ghost tree = { long_long_type_tree };

    fn build(alloc: Global, table: Table<'_, 'a>, _rule: Rule, at: At) -> BuildResult<Self> {
        let ((unsigned, long_long), at) = two_fields::<Option<Unsigned>, (Long, Long)>(
            alloc,
            table,
            Rule::LONG_LONG_TYPE,
            at,
        )?;
        Ok((
            LongLongType {
                unsigned,
                long_long,
            },
            at,
        ))
    }
}

impl<'a> Build<'a> for LongType {
    type Value = Self;

    ghost fits = { λ r. r ≡ LONG_TYPE };

    ghost tree = { long_type_tree };

    fn build(alloc: Global, table: Table<'_, 'a>, _rule: Rule, at: At) -> BuildResult<Self> {
        let ((unsigned, long), at) = two_fields::<Option<Unsigned>, Long>(
            alloc,
            table,
            Rule::LONG_TYPE,
            at,
        )?;
        Ok((LongType { unsigned, long }, at))
    }
}

impl<'a> Build<'a> for ShortType {
    type Value = Self;

    ghost fits = { λ r. r ≡ SHORT_TYPE };

    ghost tree = { short_type_tree };

    fn build(alloc: Global, table: Table<'_, 'a>, _rule: Rule, at: At) -> BuildResult<Self> {
        let ((unsigned, short), at) = two_fields::<Option<Unsigned>, Short>(
            alloc,
            table,
            Rule::SHORT_TYPE,
            at,
        )?;
        Ok((ShortType { unsigned, short }, at))
    }
}

impl<'a> Build<'a> for IntegerType {
    type Value = Self;

    ghost fits = { λ r. r ≡ INTEGER_TYPE };

    ghost tree = { integer_type_tree };

    fn build(alloc: Global, table: Table<'_, 'a>, _rule: Rule, at: At) -> BuildResult<Self> {
        let rule = Rule::INTEGER_TYPE;
        match choice(table, rule, at.place) {
            0 => {
                let (member, at) = alternative::<LongLongType>(alloc, table, rule, 0, at)?;
                Ok((IntegerType::LongLong(member), at))
            }
            1 => {
                let (member, at) = alternative::<LongType>(alloc, table, rule, 1, at)?;
                Ok((IntegerType::Long(member), at))
            }
            2 => {
                let (member, at) = alternative::<ShortType>(alloc, table, rule, 2, at)?;
                Ok((IntegerType::Short(member), at))
            }
            _ => unreachable!(),
        }
    }
}

impl<'a> Build<'a> for FloatType {
    type Value = Self;

    ghost fits = { λ r. r ≡ FLOAT_TYPE };

    ghost tree = { float_type_tree };

    fn build(alloc: Global, table: Table<'_, 'a>, _rule: Rule, at: At) -> BuildResult<Self> {
        let ((unrestricted, float), at) = two_fields::<Option<Unrestricted>, Float>(
            alloc,
            table,
            Rule::FLOAT_TYPE,
            at,
        )?;
        Ok((
            FloatType {
                unrestricted,
                float,
            },
            at,
        ))
    }
}

impl<'a> Build<'a> for DoubleType {
    type Value = Self;

    ghost fits = { λ r. r ≡ DOUBLE_TYPE };

    ghost tree = { double_type_tree };

    fn build(alloc: Global, table: Table<'_, 'a>, _rule: Rule, at: At) -> BuildResult<Self> {
        let ((unrestricted, double), at) = two_fields::<Option<Unrestricted>, Double>(
            alloc,
            table,
            Rule::DOUBLE_TYPE,
            at,
        )?;
        Ok((
            DoubleType {
                unrestricted,
                double,
            },
            at,
        ))
    }
}

impl<'a> Build<'a> for FloatingPointType {
    type Value = Self;

    ghost fits = { λ r. r ≡ FLOATING_POINT_TYPE };

    ghost tree = { floating_point_type_tree };

    fn build(alloc: Global, table: Table<'_, 'a>, _rule: Rule, at: At) -> BuildResult<Self> {
        let rule = Rule::FLOATING_POINT_TYPE;
        match choice(table, rule, at.place) {
            0 => {
                let (member, at) = alternative::<FloatType>(alloc, table, rule, 0, at)?;
                Ok((FloatingPointType::Float(member), at))
            }
            1 => {
                let (member, at) = alternative::<DoubleType>(alloc, table, rule, 1, at)?;
                Ok((FloatingPointType::Double(member), at))
            }
            _ => unreachable!(),
        }
    }
}

impl<'a> Build<'a> for ConstType<'a> {
    type Value = Self;

    ghost fits = { λ r. r ≡ CONST_TYPE };

    ghost tree = { const_type_tree };

    fn build(alloc: Global, table: Table<'_, 'a>, _rule: Rule, at: At) -> BuildResult<Self> {
        let rule = Rule::CONST_TYPE;
        match choice(table, rule, at.place) {
            0 => {
                let (member, at) = alternative::<MayBeNull<IntegerType>>(
                    alloc, table, rule, 0, at,
                )?;
                Ok((ConstType::Integer(member), at))
            }
            1 => {
                let (member, at) = alternative::<MayBeNull<FloatingPointType>>(
                    alloc, table, rule, 1, at,
                )?;
                Ok((ConstType::FloatingPoint(member), at))
            }
            2 => {
                let (member, at) = alternative::<MayBeNull<Boolean>>(alloc, table, rule, 2, at)?;
                Ok((ConstType::Boolean(member), at))
            }
            3 => {
                let (member, at) = alternative::<MayBeNull<Byte>>(alloc, table, rule, 3, at)?;
                Ok((ConstType::Byte(member), at))
            }
            4 => {
                let (member, at) = alternative::<MayBeNull<Octet>>(alloc, table, rule, 4, at)?;
                Ok((ConstType::Octet(member), at))
            }
            5 => {
                let (member, at) = alternative::<MayBeNull<Identifier>>(alloc, table, rule, 5, at)?;
                Ok((ConstType::Identifier(member), at))
            }
            _ => unreachable!(),
        }
    }
}
