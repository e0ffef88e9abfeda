//! The fields of a struct, side by side in one tuple: a function for each number of them.
//!
//! The type arguments say how each field is built, in order. What is given is the rule of the
//! struct, and a place where it reads something. Memory is taken for what the values hold, and a
//! call is refused for lack of it alone.
//!
//! Each is [`sequence`] with its pairs taken apart. That is done here once for each number of
//! fields, and not again for each struct.

ghost use Rattle.std.specs.Prelude.{[], ◌∷◌};
ghost use Rattle.weedle_grammar.specs.Trees.{Node, trees};
ghost use Rattle.weedle_grammar.specs.written.Table.{row_of as row_of_rule, shape_of};
ghost use Rattle.weedle_build_base.specs.Built.{Due, Answers};
ghost use Rattle.weedle_build_base.specs.Fits.{then_fits, end_fits, fits_seq};

use crate::at::At;
use crate::build::{Build, BuildResult};
use crate::fields::{Last, sequence};
use crate::table::Table;
use std::alloc::Global;
use weedle_rules::Rule;

/// Builds the two fields of a struct, which `rule` reads one after another, and visits its node.
/// `at` is a place where `rule` reads them, with the nodes that were visited before. It answers the
/// values, and where the rule ends; it is refused where a field is.
pub fn two_fields<'a, A: Build<'a>, B: Build<'a>>(
    alloc: Global,
    table: Table<'_, 'a>,
    rule: Rule,
    at: At,
) -> BuildResult<(A::Value, B::Value)>
    requires fit { fits_seq (then_fits A.fits (then_fits B.fits end_fits)) (row_of_rule rule)
        (shape_of rule) }
    requires due { Due table.text.now rule at.place }
    ensures { Answers table.entry.text.now rule (λ v. Node (trees (A.tree v.0 ∷ B.tree v.1 ∷ [])))
        at.place at.visits result }
{
    let ((first, Last(second)), at) = sequence::<(A, Last<B>)>(alloc, table, rule, at)?;
    Ok(((first, second), at))
}

/// Builds the three fields of a struct, which `rule` reads one after another, and visits its node.
/// `at` is a place where `rule` reads them, with the nodes that were visited before. It answers the
/// values, and where the rule ends; it is refused where a field is.
pub fn three_fields<'a, A: Build<'a>, B: Build<'a>, C: Build<'a>>(
    alloc: Global,
    table: Table<'_, 'a>,
    rule: Rule,
    at: At,
) -> BuildResult<(A::Value, B::Value, C::Value)>
    requires fit { fits_seq (then_fits A.fits (then_fits B.fits (then_fits C.fits end_fits)))
        (row_of_rule rule) (shape_of rule) }
    requires due { Due table.text.now rule at.place }
    ensures { Answers table.entry.text.now rule
        (λ v. Node (trees (A.tree v.0 ∷ B.tree v.1 ∷ C.tree v.2 ∷ []))) at.place at.visits result }
{
    let ((first, (second, Last(third))), at) = sequence::<(A, (B, Last<C>))>(
        alloc, table, rule, at,
    )?;
    Ok(((first, second, third), at))
}

/// Builds the four fields of a struct, which `rule` reads one after another, and visits its node.
/// `at` is a place where `rule` reads them, with the nodes that were visited before. It answers the
/// values, and where the rule ends; it is refused where a field is.
pub fn four_fields<'a, A: Build<'a>, B: Build<'a>, C: Build<'a>, D: Build<'a>>(
    alloc: Global,
    table: Table<'_, 'a>,
    rule: Rule,
    at: At,
) -> BuildResult<(A::Value, B::Value, C::Value, D::Value)>
    requires fit { fits_seq
        (then_fits A.fits (then_fits B.fits (then_fits C.fits (then_fits D.fits end_fits))))
        (row_of_rule rule) (shape_of rule) }
    requires due { Due table.text.now rule at.place }
    ensures { Answers table.entry.text.now rule
        (λ v. Node (trees (A.tree v.0 ∷ B.tree v.1 ∷ C.tree v.2 ∷ D.tree v.3 ∷ []))) at.place
        at.visits result }
{
    let ((first, (second, (third, Last(fourth)))), at) = sequence::<(A, (B, (C, Last<D>)))>(
        alloc, table, rule, at,
    )?;
    Ok(((first, second, third, fourth), at))
}

/// Builds the five fields of a struct, which `rule` reads one after another, and visits its node.
/// `at` is a place where `rule` reads them, with the nodes that were visited before. It answers the
/// values, and where the rule ends; it is refused where a field is.
pub fn five_fields<'a, A: Build<'a>, B: Build<'a>, C: Build<'a>, D: Build<'a>, E: Build<'a>>(
    alloc: Global,
    table: Table<'_, 'a>,
    rule: Rule,
    at: At,
) -> BuildResult<(A::Value, B::Value, C::Value, D::Value, E::Value)>
    requires fit { fits_seq (then_fits A.fits (then_fits B.fits (then_fits C.fits (then_fits D.fits
        (then_fits E.fits end_fits))))) (row_of_rule rule) (shape_of rule) }
    requires due { Due table.text.now rule at.place }
    ensures { Answers table.entry.text.now rule
        (λ v. Node (trees (A.tree v.0 ∷ B.tree v.1 ∷ C.tree v.2 ∷ D.tree v.3 ∷ E.tree v.4 ∷ [])))
        at.place at.visits result }
{
    let ((first, (second, (third, (fourth, Last(fifth))))), at) = sequence::<
        (A, (B, (C, (D, Last<E>)))),
    >(alloc, table, rule, at)?;
    Ok(((first, second, third, fourth, fifth), at))
}

/// Builds the six fields of a struct, which `rule` reads one after another, and visits its node.
/// `at` is a place where `rule` reads them, with the nodes that were visited before. It answers the
/// values, and where the rule ends; it is refused where a field is.
pub fn six_fields<
    'a,
    A: Build<'a>,
    B: Build<'a>,
    C: Build<'a>,
    D: Build<'a>,
    E: Build<'a>,
    F: Build<'a>,
>(
    alloc: Global,
    table: Table<'_, 'a>,
    rule: Rule,
    at: At,
) -> BuildResult<(A::Value, B::Value, C::Value, D::Value, E::Value, F::Value)>
    requires fit { fits_seq (then_fits A.fits (then_fits B.fits (then_fits C.fits (then_fits D.fits
        (then_fits E.fits (then_fits F.fits end_fits)))))) (row_of_rule rule) (shape_of rule) }
    requires due { Due table.text.now rule at.place }
    ensures { Answers table.entry.text.now rule (λ v. Node (trees (A.tree v.0 ∷ B.tree v.1
        ∷ C.tree v.2 ∷ D.tree v.3 ∷ E.tree v.4 ∷ F.tree v.5 ∷ []))) at.place at.visits result }
{
    let ((first, (second, (third, (fourth, (fifth, Last(sixth)))))), at) = sequence::<
        (A, (B, (C, (D, (E, Last<F>))))),
    >(alloc, table, rule, at)?;
    Ok(((first, second, third, fourth, fifth, sixth), at))
}

/// Builds the seven fields of a struct, which `rule` reads one after another, and visits its node.
/// `at` is a place where `rule` reads them, with the nodes that were visited before. It answers the
/// values, and where the rule ends; it is refused where a field is.
pub fn seven_fields<
    'a,
    A: Build<'a>,
    B: Build<'a>,
    C: Build<'a>,
    D: Build<'a>,
    E: Build<'a>,
    F: Build<'a>,
    G: Build<'a>,
>(
    alloc: Global,
    table: Table<'_, 'a>,
    rule: Rule,
    at: At,
) -> BuildResult<
    (
        A::Value,
        B::Value,
        C::Value,
        D::Value,
        E::Value,
        F::Value,
        G::Value,
    ),
>
    requires fit { fits_seq (then_fits A.fits (then_fits B.fits (then_fits C.fits (then_fits D.fits
        (then_fits E.fits (then_fits F.fits (then_fits G.fits end_fits))))))) (row_of_rule rule)
        (shape_of rule) }
    requires due { Due table.text.now rule at.place }
    ensures { Answers table.entry.text.now rule (λ v. Node (trees (A.tree v.0 ∷ B.tree v.1
        ∷ C.tree v.2 ∷ D.tree v.3 ∷ E.tree v.4 ∷ F.tree v.5 ∷ G.tree v.6
        ∷ []))) at.place at.visits result }
{
    let ((first, (second, (third, (fourth, (fifth, (sixth, Last(seventh))))))), at) = sequence::<
        (A, (B, (C, (D, (E, (F, Last<G>)))))),
    >(alloc, table, rule, at)?;
    Ok(((first, second, third, fourth, fifth, sixth, seventh), at))
}

/// Builds the eight fields of a struct, which `rule` reads one after another, and visits its node.
/// `at` is a place where `rule` reads them, with the nodes that were visited before. It answers the
/// values, and where the rule ends; it is refused where a field is.
pub fn eight_fields<
    'a,
    A: Build<'a>,
    B: Build<'a>,
    C: Build<'a>,
    D: Build<'a>,
    E: Build<'a>,
    F: Build<'a>,
    G: Build<'a>,
    H: Build<'a>,
>(
    alloc: Global,
    table: Table<'_, 'a>,
    rule: Rule,
    at: At,
) -> BuildResult<
    (
        A::Value,
        B::Value,
        C::Value,
        D::Value,
        E::Value,
        F::Value,
        G::Value,
        H::Value,
    ),
>
    requires fit { fits_seq (then_fits A.fits (then_fits B.fits (then_fits C.fits (then_fits D.fits
        (then_fits E.fits (then_fits F.fits (then_fits G.fits (then_fits H.fits end_fits))))))))
        (row_of_rule rule) (shape_of rule) }
    requires due { Due table.text.now rule at.place }
    ensures { Answers table.entry.text.now rule (λ v. Node (trees (A.tree v.0 ∷ B.tree v.1
        ∷ C.tree v.2 ∷ D.tree v.3 ∷ E.tree v.4 ∷ F.tree v.5 ∷ G.tree v.6 ∷ H.tree v.7
        ∷ []))) at.place at.visits result }
{
    let ((first, (second, (third, (fourth, (fifth, (sixth, (seventh, Last(eighth)))))))), at) =
        sequence::<(A, (B, (C, (D, (E, (F, (G, Last<H>)))))))>(alloc, table, rule, at)?;
    Ok((
        (first, second, third, fourth, fifth, sixth, seventh, eighth),
        at,
    ))
}
