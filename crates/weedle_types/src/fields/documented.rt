//! A docstring, extended attributes and what follows them.
#![tactic(auto, using(weedle_base::proofs::Steps::part_steps))]

ghost use Rattle.weedle_base.specs.Generic.{pair_reading};
ghost use Rattle.weedle_types.specs.Fields.{AnswersInPairs, attributes_then, docstring_then};

use super::attributed::{attributes_and_five, attributes_and_four, attributes_and_six};
use crate::attribute::ExtendedAttributeList;
use std::alloc::Global;
use weedle_base::{IResult, Parse};
use weedle_parts::common::Docstring;

/// Reads a docstring and extended attributes, each where it is, and then four others, as the type,
/// the name, the arguments and the `;` of `long f();`. Where one of the four isn't there it is a
/// mismatch.
pub fn docstring_attributes_and_four<'a, A: Parse<'a>, B: Parse<'a>, C: Parse<'a>, D: Parse<'a>>(
    alloc: Global,
    input: &'a str,
) -> IResult<
    &'a str,
    (
        Option<Docstring>,
        Option<ExtendedAttributeList<'a>>,
        A,
        B,
        C,
        D,
    ),
>
    ensures { AnswersInPairs (docstring_then (attributes_then (pair_reading A.reading
        (pair_reading B.reading (pair_reading C.reading D.reading)))))
        (λ v. (v.0, (v.1, (v.2, (v.3, (v.4, v.5)))))) input.now result }
{
    let (rest, docstring) = Option::parse(alloc, input)?;
    let (rest, (attributes, first, second, third, fourth)) = attributes_and_four(alloc, rest)?;
    Ok((rest, (docstring, attributes, first, second, third, fourth)))
}

/// Reads a docstring and extended attributes, each where it is, and then five others, as the word,
/// the name, the name that it inherits from, the members and the `;` of `interface A : B {};`.
/// Where one of the five isn't there it is a mismatch.
pub fn docstring_attributes_and_five<
    'a,
    A: Parse<'a>,
    B: Parse<'a>,
    C: Parse<'a>,
    D: Parse<'a>,
    E: Parse<'a>,
>(
    alloc: Global,
    input: &'a str,
) -> IResult<
    &'a str,
    (
        Option<Docstring>,
        Option<ExtendedAttributeList<'a>>,
        A,
        B,
        C,
        D,
        E,
    ),
>
    ensures { AnswersInPairs (docstring_then (attributes_then (pair_reading A.reading
        (pair_reading B.reading (pair_reading C.reading (pair_reading D.reading E.reading))))))
        (λ v. (v.0, (v.1, (v.2, (v.3, (v.4, (v.5, v.6))))))) input.now result }
{
    let (rest, docstring) = Option::parse(alloc, input)?;
    let (rest, (attributes, first, second, third, fourth, fifth)) = attributes_and_five(
        alloc, rest,
    )?;
    Ok((
        rest,
        (docstring, attributes, first, second, third, fourth, fifth),
    ))
}

/// Reads a docstring and extended attributes, each where it is, and then six others, as the two
/// words, the name, the name that it inherits from, the members and the `;` of
/// `callback interface A : B {};`. Where one of the six isn't there it is a mismatch.
pub fn docstring_attributes_and_six<
    'a,
    A: Parse<'a>,
    B: Parse<'a>,
    C: Parse<'a>,
    D: Parse<'a>,
    E: Parse<'a>,
    F: Parse<'a>,
>(
    alloc: Global,
    input: &'a str,
) -> IResult<
    &'a str,
    (
        Option<Docstring>,
        Option<ExtendedAttributeList<'a>>,
        A,
        B,
        C,
        D,
        E,
        F,
    ),
>
    ensures { AnswersInPairs (docstring_then (attributes_then (pair_reading A.reading
        (pair_reading B.reading (pair_reading C.reading (pair_reading D.reading
        (pair_reading E.reading F.reading)))))))
        (λ v. (v.0, (v.1, (v.2, (v.3, (v.4, (v.5, (v.6, v.7)))))))) input.now result }
{
    let (rest, docstring) = Option::parse(alloc, input)?;
    let (rest, (attributes, first, second, third, fourth, fifth, sixth)) = attributes_and_six(
        alloc, rest,
    )?;
    Ok((
        rest,
        (
            docstring, attributes, first, second, third, fourth, fifth, sixth,
        ),
    ))
}
