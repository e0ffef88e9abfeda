//! A body between two brackets, and a type that may be null.

ghost use Rattle.weedle_grammar.specs.written.Table.{row_of as row_of_rule, shape_of};
ghost use Rattle.weedle_grammar.specs.written.Table.Symbols.{
  OPEN_PAREN,
  CLOSE_PAREN,
  OPEN_BRACKET,
  CLOSE_BRACKET,
  OPEN_BRACE,
  CLOSE_BRACE,
  LESS_THAN,
  GREATER_THAN,
};
ghost use Rattle.weedle_parts.specs.ValueTrees.{
  parenthesized_tree,
  bracketed_tree,
  braced_tree,
  generics_tree,
  may_be_null_tree,
};
ghost use Rattle.weedle_build_base.specs.Fits.{fits_seq, bracket_fits, may_be_null_fits};

use crate::at::At;
use crate::build::{Build, BuildResult};
use crate::structs::{three_fields, two_fields};
use crate::table::Table;
use std::alloc::Global;
use weedle_base::term::{
    CloseBrace, CloseBracket, CloseParen, GreaterThan, LessThan, OpenBrace, OpenBracket, OpenParen,
    QMark,
};
use weedle_parts::common::{Braced, Bracketed, Generics, Parenthesized};
use weedle_parts::types::MayBeNull;
use weedle_rules::Rule;

impl<'a, T: Build<'a>> Build<'a> for Parenthesized<T> {
    type Value = Parenthesized<T::Value>;

    ghost fits = { λ r. fits_seq (bracket_fits OPEN_PAREN T.fits CLOSE_PAREN) (row_of_rule r)
        (shape_of r) };

    ghost tree = { parenthesized_tree T.tree };

    fn build(
        alloc: Global,
        table: Table<'_, 'a>,
        rule: Rule,
        at: At,
    ) -> BuildResult<Parenthesized<T::Value>> {
        let ((open_paren, body, close_paren), at) = three_fields::<OpenParen, T, CloseParen>(
            alloc, table, rule, at,
        )?;
        Ok((
            Parenthesized {
                open_paren,
                body,
                close_paren,
            },
            at,
        ))
    }
}

impl<'a, T: Build<'a>> Build<'a> for Bracketed<T> {
    type Value = Bracketed<T::Value>;

    ghost fits = { λ r. fits_seq (bracket_fits OPEN_BRACKET T.fits CLOSE_BRACKET) (row_of_rule r)
        (shape_of r) };

    ghost tree = { bracketed_tree T.tree };

    fn build(
        alloc: Global,
        table: Table<'_, 'a>,
        rule: Rule,
        at: At,
    ) -> BuildResult<Bracketed<T::Value>> {
        let ((open_bracket, body, close_bracket), at) = three_fields::<
            OpenBracket,
            T,
            CloseBracket,
        >(alloc, table, rule, at)?;
        Ok((
            Bracketed {
                open_bracket,
                body,
                close_bracket,
            },
            at,
        ))
    }
}

impl<'a, T: Build<'a>> Build<'a> for Braced<T> {
    type Value = Braced<T::Value>;

    ghost fits = { λ r. fits_seq (bracket_fits OPEN_BRACE T.fits CLOSE_BRACE) (row_of_rule r)
        (shape_of r) };

    ghost tree = { braced_tree T.tree };

    fn build(
        alloc: Global,
        table: Table<'_, 'a>,
        rule: Rule,
        at: At,
    ) -> BuildResult<Braced<T::Value>> {
        let ((open_brace, body, close_brace), at) = three_fields::<OpenBrace, T, CloseBrace>(
            alloc, table, rule, at,
        )?;
        Ok((
            Braced {
                open_brace,
                body,
                close_brace,
            },
            at,
        ))
    }
}

impl<'a, T: Build<'a>> Build<'a> for Generics<T> {
    type Value = Generics<T::Value>;

    ghost fits = { λ r. fits_seq (bracket_fits LESS_THAN T.fits GREATER_THAN) (row_of_rule r)
        (shape_of r) };

    ghost tree = { generics_tree T.tree };

    fn build(
        alloc: Global,
        table: Table<'_, 'a>,
        rule: Rule,
        at: At,
    ) -> BuildResult<Generics<T::Value>> {
        let ((open_angle, body, close_angle), at) = three_fields::<LessThan, T, GreaterThan>(
            alloc, table, rule, at,
        )?;
        Ok((
            Generics {
                open_angle,
                body,
                close_angle,
            },
            at,
        ))
    }
}

impl<'a, T: Build<'a>> Build<'a> for MayBeNull<T> {
    type Value = MayBeNull<T::Value>;

    ghost fits = { λ r. fits_seq (may_be_null_fits T.fits) (row_of_rule r) (shape_of r) };

    ghost tree = { may_be_null_tree T.tree };

    fn build(
        alloc: Global,
        table: Table<'_, 'a>,
        rule: Rule,
        at: At,
    ) -> BuildResult<MayBeNull<T::Value>> {
        let ((type_, q_mark), at) = two_fields::<T, Option<QMark>>(alloc, table, rule, at)?;
        Ok((MayBeNull { type_, q_mark }, at))
    }
}
