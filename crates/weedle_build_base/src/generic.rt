//! The standard library's types.

ghost use Rattle.weedle_grammar.specs.written.Table.{row_of as row_of_rule, shape_of};
ghost use Rattle.weedle_base.specs.Rules.{option_tree, items_tree};
ghost use Rattle.weedle_build_base.specs.Fits.{
  fits_option,
  fits_many,
  fits_seq,
  then_fits,
  end_fits,
};
ghost use Rattle.weedle_build_base.specs.Tuples.{pair_tree, triple_tree};

use crate::at::At;
use crate::build::{Build, BuildResult, visit};
use crate::structs::{three_fields, two_fields};
use crate::table::Table;
use std::alloc::Global;
use weedle_rules::{Row, Rule, row_of};

impl<'a, T: Build<'a>> Build<'a> for Option<T> {
    type Value = Option<T::Value>;

    ghost fits = { λ r. fits_option T.fits (row_of_rule r) (shape_of r) };

    ghost tree = { option_tree T.tree };

    fn build(
        alloc: Global,
        table: Table<'_, 'a>,
        rule: Rule,
        at: At,
    ) -> BuildResult<Option<T::Value>> {
        let Row::Opt(item) = row_of(rule) else {
            unreachable!()
        };
        match table.end(item, at.place) {
            Some(_) => {
                let (value, end) = T::build(alloc, table, item, at)?;
                Ok((Some(value), visit(end)))
            }
            None => Ok((None, visit(at))),
        }
    }
}

impl<'a, T: Build<'a>> Build<'a> for Vec<T> {
    type Value = Vec<T::Value>;

    ghost fits = { λ r. fits_many T.fits (row_of_rule r) (shape_of r) };

    ghost tree = { λ v. items_tree T.tree v.items };

    fn build(
        alloc: Global,
        table: Table<'_, 'a>,
        rule: Rule,
        at: At,
    ) -> BuildResult<Vec<T::Value>> {
        let Row::Many(item) = row_of(rule) else {
            unreachable!()
        };
        let mut list = Vec::new(alloc);
        let mut here = at;
        'items: while let Some(_) = table.end(item, here.place) {
            let (value, next) = T::build(alloc, table, item, here)?;
            list.push(value)?;
            here = next;
        }
        Ok((list, visit(here)))
    }
}

impl<'a, T: Build<'a>> Build<'a> for Box<T> {
    type Value = Box<T::Value>;

    ghost fits = { T.fits };

    ghost tree = { λ b. T.tree b.value };

    fn build(
        alloc: Global,
        table: Table<'_, 'a>,
        rule: Rule,
        at: At,
    ) -> BuildResult<Box<T::Value>> {
        let (value, at) = T::build(alloc, table, rule, at)?;
        let held = Box::new(alloc, value)?;
        Ok((held, at))
    }
}

impl<'a, T: Build<'a>, U: Build<'a>> Build<'a> for (T, U) {
    type Value = (T::Value, U::Value);

    ghost fits = { λ r. fits_seq (then_fits T.fits (then_fits U.fits end_fits)) (row_of_rule r)
        (shape_of r) };

    ghost tree = { pair_tree T.tree U.tree };

    fn build(
        alloc: Global,
        table: Table<'_, 'a>,
        rule: Rule,
        at: At,
    ) -> BuildResult<(T::Value, U::Value)> {
        two_fields::<T, U>(alloc, table, rule, at)
    }
}

impl<'a, T: Build<'a>, U: Build<'a>, V: Build<'a>> Build<'a> for (T, U, V) {
    type Value = (T::Value, U::Value, V::Value);

    ghost fits = { λ r. fits_seq (then_fits T.fits (then_fits U.fits (then_fits V.fits end_fits)))
        (row_of_rule r) (shape_of r) };

    ghost tree = { triple_tree T.tree U.tree V.tree };

    fn build(
        alloc: Global,
        table: Table<'_, 'a>,
        rule: Rule,
        at: At,
    ) -> BuildResult<(T::Value, U::Value, V::Value)> {
        three_fields::<T, U, V>(alloc, table, rule, at)
    }
}
