//! Unions.

ghost use Rattle.std.specs.Prelude.{IfOk};
ghost use Rattle.weedle_parts.specs.ValueTrees.{may_be_null_tree};
ghost use Rattle.weedle_grammar.specs.written.Table.Types.{
  LIST_UNION_MEMBER_TYPE_OR,
  MAY_BE_NULL_UNION_TYPE,
  UNION_MEMBER_TYPE,
  UNION_TYPE,
};
ghost use Rattle.weedle_types.specs.Trees.{
  attributed_non_any_type_tree,
  union_member_type_tree,
  union_member_types_tree,
  union_type_tree,
};
ghost use Rattle.weedle_build_base.specs.Built.{Answers, Due};
ghost use Rattle.weedle_build_types.specs.Steps.{Adds, KeepsAs};

use super::super::steps::optional;
use super::kinds::attributed_non_any_type;
use std::alloc::{AllocError, Global};
use weedle_base::term::{CloseParen, OpenParen, Or, QMark};
use weedle_build_base::{At, Build, BuildResult, Table, choice, visit};
use weedle_parts::common::{Parenthesized, Punctuated};
use weedle_parts::types::MayBeNull;
use weedle_rules::Rule;
use weedle_types::types::{AttributedNonAnyType, UnionMemberType, UnionType};

/// Builds a union, as `(long or DOMString)`.
#[cycle(group)]
pub(crate) fn union_type<'a>(
    alloc: Global,
    table: Table<'_, 'a>,
    at: At,
) -> BuildResult<UnionType<'a>>
    requires { Due table.text.now UNION_TYPE at.place }
    ensures { Answers table.entry.text.now UNION_TYPE union_type_tree at.place at.visits result }
{
    let (open_paren, at) = OpenParen::build(alloc, table, Rule::OPEN_PAREN, at)?;
    let (body, at) = union_member_types(alloc, table, at)?;
    let (close_paren, at) = CloseParen::build(alloc, table, Rule::CLOSE_PAREN, at)?;
    Ok((
        Parenthesized {
            open_paren,
            body,
            close_paren,
        },
        visit(at),
    ))
}

/// Builds a union that may be null, as `(long or DOMString)?`.
#[cycle(group)]
pub(crate) fn nullable_union_type<'a>(
    alloc: Global,
    table: Table<'_, 'a>,
    at: At,
) -> BuildResult<MayBeNull<UnionType<'a>>>
    requires { Due table.text.now MAY_BE_NULL_UNION_TYPE at.place }
    ensures { Answers table.entry.text.now MAY_BE_NULL_UNION_TYPE (may_be_null_tree union_type_tree)
        at.place at.visits result }
{
    let (type_, at) = union_type(alloc, table, at)?;
    let (q_mark, at) = optional::<QMark>(alloc, table, Rule::Q_MARK, at)?;
    Ok((MayBeNull { type_, q_mark }, visit(at)))
}

/// Puts a member of a union, as `UnionMemberType::Single`, behind those of a list.
#[inline(never)]
fn keep_single<'a>(
    list: &mut Vec<UnionMemberType<'a>>,
    built: BuildResult<AttributedNonAnyType<'a>>,
) -> Result<At, AllocError>
    ensures { IfOk result
        (λ at. KeepsAs attributed_non_any_type_tree union_member_type_tree 0 list.old.items
        list.new.items built.entry at) }
{
    let (member, at) = built?;
    list.push(UnionMemberType::Single(member))?;
    Ok(visit(at))
}

/// Puts a member of a union, as `UnionMemberType::Union`, behind those of a list.
#[inline(never)]
fn keep_union<'a>(
    list: &mut Vec<UnionMemberType<'a>>,
    built: BuildResult<MayBeNull<UnionType<'a>>>,
) -> Result<At, AllocError>
    ensures { IfOk result
        (λ at. KeepsAs (may_be_null_tree union_type_tree) union_member_type_tree 1 list.old.items
        list.new.items built.entry at) }
{
    let (member, at) = built?;
    list.push(UnionMemberType::Union(member))?;
    Ok(visit(at))
}

/// Builds a member of a union, as `[Clamp] octet`, behind those of a list, and gives where it is
/// then.
// It hands on what it builds, so that no level of nested unions has room for a member.
#[cycle(group)]
pub(crate) fn add_union_member_type<'a>(
    alloc: Global,
    table: Table<'_, 'a>,
    list: &mut Vec<UnionMemberType<'a>>,
    at: At,
) -> Result<At, AllocError>
    requires { Due table.text.now UNION_MEMBER_TYPE at.place }
    ensures { IfOk result
        (λ here. Adds table.entry.text.now UNION_MEMBER_TYPE union_member_type_tree list.old.items
        list.new.items at.place at.visits here.place here.visits) }
{
    match choice(table, Rule::UNION_MEMBER_TYPE, at.place) {
        0 => keep_single(list, attributed_non_any_type(alloc, table, at)),
        1 => keep_union(list, nullable_union_type(alloc, table, at)),
        _ => unreachable!(),
    }
}

/// Builds the members of a union, as `long or DOMString`, none included.
#[cycle(group)]
pub(crate) fn union_member_types<'a>(
    alloc: Global,
    table: Table<'_, 'a>,
    at: At,
) -> BuildResult<Punctuated<UnionMemberType<'a>, Or>>
    requires { Due table.text.now LIST_UNION_MEMBER_TYPE_OR at.place }
    ensures { Answers table.entry.text.now LIST_UNION_MEMBER_TYPE_OR union_member_types_tree
        at.place at.visits result }
{
    let mut list = Vec::new(alloc);
    let separator = Or;
    let Some(_) = table.end(Rule::UNION_MEMBER_TYPE, at.place) else {
        return Ok((Punctuated { list, separator }, visit(at)));
    };
    let mut here = add_union_member_type(alloc, table, &mut list, at)?;
    while let Some(behind) = table.end(Rule::OR, here.place) {
        let Some(_) = table.end(Rule::UNION_MEMBER_TYPE, behind) else {
            return Ok((Punctuated { list, separator }, visit(here)));
        };
        let start = At {
            place: behind,
            visits: here.visits,
        };
        here = add_union_member_type(alloc, table, &mut list, start)?;
    }
    Ok((Punctuated { list, separator }, visit(here)))
}
