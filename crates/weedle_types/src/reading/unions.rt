//! Unions.

ghost use Rattle.std.specs.Prelude.{◌<◌, ◌≤◌, length, IfOk};
ghost use Rattle.weedle_base.specs.Own.{own};
ghost use Rattle.weedle_base.specs.Reading.{Answers};
ghost use Rattle.weedle_parts.specs.Lists.{after_first};
ghost use Rattle.weedle_parts.specs.ValueTrees.{may_be_null_tree};
ghost use Rattle.weedle_grammar.specs.written.Table.Types.{
  LIST_UNION_MEMBER_TYPE_OR,
  MAY_BE_NULL_UNION_TYPE,
  UNION_MEMBER_TYPE,
  UNION_TYPE,
};
ghost use Rattle.weedle_types.specs.Separators.{or_reading};
ghost use Rattle.weedle_types.specs.Trees.{
  union_member_type_tree,
  union_member_types_tree,
  union_type_tree,
};

use super::steps::{part, word};
use super::types::attributed_non_any_type;
use crate::types::{UnionMemberType, UnionType};
use std::alloc::Global;
use weedle_base::term::Or;
use weedle_base::{Err, IResult, out_of_memory};
use weedle_parts::common::{Parenthesized, Punctuated};
use weedle_parts::types::MayBeNull;

/// Reads a union, as `(long or DOMString)`.
#[cycle(group)]
#[tactic(auto, using(crate::proofs::written::UnionRules::union_type_steps))]
pub(crate) fn union_type<'a>(alloc: Global, input: &'a str) -> IResult<&'a str, UnionType<'a>>
    ensures reads { Answers (own UNION_TYPE union_type_tree (Unit {0})) input.now result }
    ensures shorter { IfOk result (λ x. length x.0.now < length input.now) }
{
    let (rest, open_paren) = word(alloc, input)?;
    let (rest, body) = union_member_types(alloc, rest)?;
    let (rest, close_paren) = part(alloc, rest)?;
    Ok((
        rest,
        Parenthesized {
            open_paren,
            body,
            close_paren,
        },
    ))
}

/// Reads a union that may be null, as `(long or DOMString)?`.
#[cycle(group)]
#[tactic(auto, using(crate::proofs::written::UnionRules::nullable_union_type_steps))]
pub(crate) fn nullable_union_type<'a>(
    alloc: Global,
    input: &'a str,
) -> IResult<&'a str, MayBeNull<UnionType<'a>>>
    ensures reads { Answers
        (own MAY_BE_NULL_UNION_TYPE (may_be_null_tree union_type_tree) (Unit {0})) input.now
        result }
    ensures shorter { IfOk result (λ x. length x.0.now < length input.now) }
{
    let (rest, type_) = union_type(alloc, input)?;
    let (rest, q_mark) = part(alloc, rest)?;
    Ok((rest, MayBeNull { type_, q_mark }))
}

/// Reads a member of a union, as `[Clamp] octet`.
#[cycle(group)]
#[tactic(auto, using(crate::proofs::written::UnionRules::union_member_type_steps))]
pub(crate) fn union_member_type<'a>(
    alloc: Global,
    input: &'a str,
) -> IResult<&'a str, UnionMemberType<'a>>
    ensures reads { Answers (own UNION_MEMBER_TYPE union_member_type_tree (Unit {0})) input.now
        result }
    ensures shorter { IfOk result (λ x. length x.0.now < length input.now) }
{
    read_or_next!(
        attributed_non_any_type(alloc, input),
        UnionMemberType::Single
    );
    let (rest, member) = nullable_union_type(alloc, input)?;
    Ok((rest, UnionMemberType::Union(member)))
}

/// Reads the members of a union, as `long or DOMString`, none included.
#[cycle(group)]
#[tactic(auto, using(crate::proofs::written::UnionRules::union_member_types_steps))]
pub(crate) fn union_member_types<'a>(
    alloc: Global,
    input: &'a str,
) -> IResult<&'a str, Punctuated<UnionMemberType<'a>, Or>>
    ensures reads { Answers (own LIST_UNION_MEMBER_TYPE_OR union_member_types_tree (Unit {0}))
        input.now result }
    ensures no_longer { IfOk result (λ x. length x.0.now ≤ length input.now) }
{
    match union_member_type(alloc, input) {
        Ok((rest, first)) => {
            let (rest, mut list) = more_union_member_types(alloc, first, rest)?;
            list.shrink_to_fit();
            Ok((
                rest,
                Punctuated {
                    list,
                    separator: Or,
                },
            ))
        }
        Err(Err::Error(_)) => {
            let list = Vec::new(alloc);
            Ok((
                input,
                Punctuated {
                    list,
                    separator: Or,
                },
            ))
        }
        Err(Err::Failure(e)) => Err(Err::Failure(e)),
    }
}

/// Reads the members after the first, each behind `or`.
// It stays a call, so that its room isn't held while the first member is read.
#[inline(never)]
#[cycle(group)]
#[tactic(auto, using(weedle_base::proofs::TakesFacts::own_takes))]
pub(crate) fn more_union_member_types<'a>(
    alloc: Global,
    first: UnionMemberType<'a>,
    input: &'a str,
) -> IResult<&'a str, Vec<UnionMemberType<'a>>>
    ensures reads { Answers
        (after_first (own UNION_MEMBER_TYPE union_member_type_tree (Unit {0})) or_reading
        (λ l. l.items) first.entry) input.now result }
    ensures no_longer { IfOk result (λ x. length x.0.now ≤ length input.now) }
{
    let mut list = Vec::new(alloc);
    if list.push(first).is_err() {
        return Err(out_of_memory(input));
    }
    let mut rest = input;
    'items: loop {
        let after = match word::<Or>(alloc, rest) {
            Ok((after, _)) => after,
            Err(Err::Error(_)) => return Ok((rest, list)),
            Err(Err::Failure(e)) => return Err(Err::Failure(e)),
        };
        match union_member_type(alloc, after) {
            Ok((next, item)) => {
                if list.push(item).is_err() {
                    return Err(out_of_memory(rest));
                }
                rest = next;
            }
            Err(Err::Error(_)) => return Ok((rest, list)),
            Err(Err::Failure(e)) => return Err(Err::Failure(e)),
        }
    }
}
