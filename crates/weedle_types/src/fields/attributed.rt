//! Extended attributes and what follows them.
#![tactic(auto, using(weedle_base::proofs::Steps::part_steps))]

ghost use Rattle.weedle_base.specs.Generic.{pair_reading};
ghost use Rattle.weedle_base.specs.Reading.{Answers};
ghost use Rattle.weedle_types.specs.Fields.{AnswersInPairs, attributes_then};

use crate::attribute::ExtendedAttributeList;
use crate::parts::attributes;
use std::alloc::Global;
use weedle_base::{IResult, Parse};

/// Reads extended attributes where present, and then others as pairs within pairs.
fn attributes_and<'a, R: Parse<'a>>(
    alloc: Global,
    input: &'a str,
) -> IResult<&'a str, (Option<ExtendedAttributeList<'a>>, R)>
    ensures { Answers (attributes_then R.reading) input.now result }
{
    let (rest, attributes) = attributes(alloc, input)?;
    let (rest, others) = R::parse(alloc, rest)?;
    Ok((rest, (attributes, others)))
}

/// Reads extended attributes where present, and then three others, as the word, the types and the
/// `;` of `[A] iterable<long>;`. Where one of the three isn't there it is a mismatch.
pub fn attributes_and_three<'a, A: Parse<'a>, B: Parse<'a>, C: Parse<'a>>(
    alloc: Global,
    input: &'a str,
) -> IResult<&'a str, (Option<ExtendedAttributeList<'a>>, A, B, C)>
    ensures { AnswersInPairs
        (attributes_then (pair_reading A.reading (pair_reading B.reading C.reading)))
        (λ v. (v.0, (v.1, (v.2, v.3)))) input.now result }
{
    let (rest, (attributes, (first, (second, third)))) = attributes_and(alloc, input)?;
    Ok((rest, (attributes, first, second, third)))
}

/// Reads extended attributes where present, and then four others, as the name, the word, the name
/// and the `;` of `[A] Request includes Body;`. Where one of the four isn't there it is a mismatch.
pub fn attributes_and_four<'a, A: Parse<'a>, B: Parse<'a>, C: Parse<'a>, D: Parse<'a>>(
    alloc: Global,
    input: &'a str,
) -> IResult<&'a str, (Option<ExtendedAttributeList<'a>>, A, B, C, D)>
    ensures { AnswersInPairs (attributes_then (pair_reading A.reading (pair_reading B.reading
        (pair_reading C.reading D.reading))))
        (λ v. (v.0, (v.1, (v.2, (v.3, v.4))))) input.now result }
{
    let (rest, (attributes, (first, (second, (third, fourth))))) = attributes_and(alloc, input)?;
    Ok((rest, (attributes, first, second, third, fourth)))
}

/// Reads extended attributes where present, and then five others, as the two words, the name, the
/// members and the `;` of `[A] partial interface B {};`. Where one of the five isn't there it is a
/// mismatch.
pub fn attributes_and_five<
    'a,
    A: Parse<'a>,
    B: Parse<'a>,
    C: Parse<'a>,
    D: Parse<'a>,
    E: Parse<'a>,
>(
    alloc: Global,
    input: &'a str,
) -> IResult<&'a str, (Option<ExtendedAttributeList<'a>>, A, B, C, D, E)>
    ensures { AnswersInPairs (attributes_then (pair_reading A.reading (pair_reading B.reading
        (pair_reading C.reading (pair_reading D.reading E.reading)))))
        (λ v. (v.0, (v.1, (v.2, (v.3, (v.4, v.5)))))) input.now result }
{
    let (rest, (attributes, (first, (second, (third, (fourth, fifth)))))) = attributes_and(
        alloc, input,
    )?;
    Ok((rest, (attributes, first, second, third, fourth, fifth)))
}

/// Reads extended attributes where present, and then six others, as the word, the name, the `=`,
/// the type, the arguments and the `;` of `[A] callback F = undefined (long x);`. Where one of the
/// six isn't there it is a mismatch.
pub fn attributes_and_six<
    'a,
    A: Parse<'a>,
    B: Parse<'a>,
    C: Parse<'a>,
    D: Parse<'a>,
    E: Parse<'a>,
    F: Parse<'a>,
>(
    alloc: Global,
    input: &'a str,
) -> IResult<&'a str, (Option<ExtendedAttributeList<'a>>, A, B, C, D, E, F)>
    ensures { AnswersInPairs (attributes_then (pair_reading A.reading (pair_reading B.reading
        (pair_reading C.reading (pair_reading D.reading (pair_reading E.reading F.reading))))))
        (λ v. (v.0, (v.1, (v.2, (v.3, (v.4, (v.5, v.6))))))) input.now result }
{
    let (rest, (attributes, (first, (second, (third, (fourth, (fifth, sixth))))))) = attributes_and(
        alloc, input,
    )?;
    Ok((
        rest,
        (attributes, first, second, third, fourth, fifth, sixth),
    ))
}
