//! Fields one after another.

ghost use Rattle.std.specs.Prelude.{◌≡◌, ◌+◌, ◌<◌, ◌^◌, ℕ, List, [], ◌∷◌, drop, IsSome, slice_get};
ghost use Rattle.weedle_grammar.specs.Trees.{Tree, Node, trees};
ghost use Rattle.weedle_grammar.specs.written.Table.{row_of as row_of_rule, shape_of};
ghost use Rattle.weedle_build_base.specs.Built.{Due, Rest, Answers, FieldAnswers};
ghost use Rattle.weedle_build_base.specs.Fits.{list_of, then_fits, end_fits, fits_seq};

use crate::at::At;
use crate::build::{Build, BuildResult, visit};
use crate::table::Table;
use std::alloc::Global;
use weedle_rules::{Row, Rule, row_of};

/// The rule at a place of a sequence, counted from 0; None from the end on, and of other rows. It
/// takes no memory.
pub fn part(rule: Rule, i: usize) -> Option<Rule>
    ensures found { result ≡ slice_get (list_of (row_of_rule rule)) i }
    ensures counted { IsSome result → i + 1 < 2 ^ 64 }
{
    let (Row::Seq(parts) | Row::If(parts, _, _)) = row_of(rule) else {
        return None;
    };
    if i < parts.len() { parts.at(i) } else { None }
}

/// How fields are built one after another: a pair of a field and of those behind it, up to
/// [`Last`].
///
/// `fits` says of which rules the parts of a sequence are, `trees` which trees the values stand
/// for.
pub trait Fields<'a> {
    /// What is built: a pair of a value and of those behind it.
    type Values: Drop;

    ghost fits: { List ℕ → Type 0 };

    ghost trees: { Self.Values → List Tree };

    /// Builds the fields from the part `first` of the sequence `rule` on, counted from 0, which it
    /// reads from `at` on. It takes the memory that the values hold, and is refused for lack of it
    /// alone.
    fn build_fields(
        alloc: Global,
        table: Table<'_, 'a>,
        rule: Rule,
        first: usize,
        at: At,
    ) -> BuildResult<Self::Values>
        requires fit { fits (drop first (list_of (row_of_rule rule))) }
        requires due { Rest table.text.now (drop first (list_of (row_of_rule rule))) at.place }
        ensures { FieldAnswers table.entry.text.now (drop first (list_of (row_of_rule rule))) trees
            at.place at.visits result };
}

/// The last field of a sequence.
#[derive(Drop)]
pub struct Last<A>(pub A);

impl<'a, A: Build<'a>> Fields<'a> for Last<A> {
    type Values = Last<A::Value>;

    ghost fits = { then_fits A.fits end_fits };

    ghost trees = { λ v. A.tree v.0 ∷ [] };

    fn build_fields(
        alloc: Global,
        table: Table<'_, 'a>,
        rule: Rule,
        first: usize,
        at: At,
    ) -> BuildResult<Last<A::Value>> {
        let Some(field) = part(rule, first) else {
            unreachable!()
        };
        let (field, at) = A::build(alloc, table, field, at)?;
        Ok((Last(field), at))
    }
}

impl<'a, A: Build<'a>, P: Fields<'a>> Fields<'a> for (A, P) {
    type Values = (A::Value, P::Values);

    ghost fits = { then_fits A.fits P.fits };

    ghost trees = { λ v. A.tree v.0 ∷ P.trees v.1 };

    fn build_fields(
        alloc: Global,
        table: Table<'_, 'a>,
        rule: Rule,
        first: usize,
        at: At,
    ) -> BuildResult<(A::Value, P::Values)> {
        let Some(field) = part(rule, first) else {
            unreachable!()
        };
        let (field, at) = A::build(alloc, table, field, at)?;
        let (fields, at) = P::build_fields(alloc, table, rule, first + 1, at)?;
        Ok(((field, fields), at))
    }
}

/// Builds the fields of a sequence, which `rule` reads one after another, and visits its node. `at`
/// is a place where `rule` reads them, with the nodes that were visited before. It is refused where
/// a field is.
pub fn sequence<'a, P: Fields<'a>>(
    alloc: Global,
    table: Table<'_, 'a>,
    rule: Rule,
    at: At,
) -> BuildResult<P::Values>
    requires fit { fits_seq P.fits (row_of_rule rule) (shape_of rule) }
    requires due { Due table.text.now rule at.place }
    ensures { Answers table.entry.text.now rule (λ fields. Node (trees (P.trees fields))) at.place
        at.visits result }
{
    let (fields, at) = P::build_fields(alloc, table, rule, 0, at)?;
    Ok((fields, visit(at)))
}
