//! Lists with separators.

ghost use Rattle.std.specs.Global.{Vec};
ghost use Rattle.std.specs.Prelude.{map};
ghost use Rattle.weedle_grammar.specs.written.Table.{row_of as row_of_rule, shape_of};
ghost use Rattle.weedle_parts.specs.ValueTrees.{punctuated_tree, punctuated_non_empty_tree};
ghost use Rattle.weedle_build_base.specs.Built.{IsDueList, ItemAnswers};
ghost use Rattle.weedle_build_base.specs.Fits.{fits_tail, fits_list, fits_non_empty};

use crate::at::At;
use crate::build::{Build, BuildResult, end_at, visit};
use crate::fields::part;
use crate::table::Table;
use std::alloc::Global;
use weedle_parts::common::{Punctuated, PunctuatedNonEmpty};
use weedle_rules::{Row, Rule, row_of};

/// Builds the items of a list that has one at the place `at`, each behind a separator except for
/// the first: `item` reads an item, and `tail` the items behind the first. A separator that no item
/// follows is left. It takes the memory that the items hold, and is refused for lack of it alone.
pub fn items<'a, T: Build<'a>>(
    alloc: Global,
    table: Table<'_, 'a>,
    item: Rule,
    tail: Rule,
    at: At,
) -> BuildResult<Vec<T::Value>>
    requires fit { T.fits item }
    requires tail { fits_tail item (row_of_rule tail) (shape_of tail) }
    requires due { IsDueList table.text.now item tail at.place }
    ensures { ItemAnswers table.entry.text.now item tail (λ (l : Vec T.Value). map T.tree l.items)
        at.place at.visits result }
{
    let Row::Tail(_, separator) = row_of(tail) else {
        unreachable!()
    };
    let mut list = Vec::new(alloc);
    let (first, mut here) = T::build(alloc, table, item, at)?;
    list.push(first)?;
    while let Some(behind) = table.end(separator, here.place) {
        let Some(_) = table.end(item, behind) else {
            return Ok((list, here));
        };
        let start = At {
            place: behind,
            visits: here.visits,
        };
        let (value, next) = T::build(alloc, table, item, start)?;
        list.push(value)?;
        here = next;
    }
    Ok((list, here))
}

impl<'a, T: Build<'a>, S: Default + Drop> Build<'a> for Punctuated<T, S> {
    type Value = Punctuated<T::Value, S>;

    ghost fits = { λ r. fits_list T.fits (row_of_rule r) (shape_of r) };

    ghost tree = { punctuated_tree T.tree };

    fn build(
        alloc: Global,
        table: Table<'_, 'a>,
        rule: Rule,
        at: At,
    ) -> BuildResult<Punctuated<T::Value, S>> {
        let Row::List(item, tail) = row_of(rule) else {
            unreachable!()
        };
        let separator = S::default();
        let Some(_) = table.end(item, at.place) else {
            let list = Vec::new(alloc);
            return Ok((Punctuated { list, separator }, visit(at)));
        };
        let (list, end) = items::<T>(alloc, table, item, tail, at)?;
        Ok((Punctuated { list, separator }, visit(end)))
    }
}

impl<'a, T: Build<'a>, S: Default + Drop> Build<'a> for PunctuatedNonEmpty<T, S> {
    type Value = PunctuatedNonEmpty<T::Value, S>;

    ghost fits = { λ r. fits_non_empty T.fits (row_of_rule r) (shape_of r) };

    ghost tree = { punctuated_non_empty_tree T.tree };

    fn build(
        alloc: Global,
        table: Table<'_, 'a>,
        rule: Rule,
        at: At,
    ) -> BuildResult<PunctuatedNonEmpty<T::Value, S>> {
        let Some(many) = part(rule, 0) else {
            unreachable!()
        };
        let Row::List1(item, tail) = row_of(many) else {
            unreachable!()
        };
        let (list, end) = items::<T>(alloc, table, item, tail, at)?;
        let separator = S::default();
        let behind = At {
            place: end_at(table, rule, at.place),
            visits: end.visits,
        };
        Ok((PunctuatedNonEmpty { list, separator }, visit(behind)))
    }
}
