//! A walk over types that recurses: the example of docs/USING.md.
#![tactic(auto, using(weedle_types::proofs::TreeLaws::clone_steps))]

use std::test::Fail;
use weedle_base::Parse;
use weedle_types::types::{NonAnyType, SingleType, Type, UnionMemberType};

/// How deep sequences and frozen arrays nest.
#[cycle(lists)]
pub fn lists_in(type_: &Type<'_>) -> usize {
    match type_ {
        Type::Single(SingleType::Any(_)) => 0,
        Type::Single(SingleType::NonAny(type_)) => lists_in_non_any(type_),
        Type::Union(union) => lists_in_members(&union.type_.body.list),
    }
}

/// How deep they nest in a type that is neither `any` nor a union.
#[cycle(lists)]
fn lists_in_non_any(type_: &NonAnyType<'_>) -> usize {
    match type_ {
        NonAnyType::Sequence(list) => lists_in(&list.type_.generics.body).saturating_add(1),
        NonAnyType::FrozenArrayType(list) => lists_in(&list.type_.generics.body).saturating_add(1),
        _ => 0,
    }
}

/// How deep they nest in that member of a union where they nest deepest.
#[cycle(lists)]
#[tactic(auto, using(weedle_types::proofs::TreeLaws::clone_steps, weedle_types::proofs::Smaller::member_smaller))]
fn lists_in_members(members: &Vec<UnionMemberType<'_>>) -> usize {
    let mut most = 0;
    for member in members {
        most = lists_in_member(member).max(most);
    }
    most
}

/// How deep they nest in a member of a union.
#[cycle(lists)]
fn lists_in_member(member: &UnionMemberType<'_>) -> usize {
    match member {
        UnionMemberType::Single(member) => lists_in_non_any(&member.type_),
        UnionMemberType::Union(union) => lists_in_members(&union.type_.body.list),
    }
}

#[test]
fn lists_within_lists_are_counted(rt: HostRuntime) -> Result<(), Fail> {
    // Counted by hand.
    let table = [
        ("any", 0),
        ("record<DOMString, sequence<long>>", 0),
        ("sequence<long>", 1),
        ("FrozenArray<sequence<long>?>", 2),
        ("sequence<(FrozenArray<long> or DOMString)>", 2),
        (
            "(long or ([Clamp] sequence<sequence<any>> or sequence<long>))?",
            2,
        ),
    ];
    for (text, count) in table {
        let (rest, type_) = Type::parse(rt.alloc(), text)?;
        assert_eq!(rt; rest, "", "of {text:?}");
        assert_eq!(rt; lists_in(&type_), count, "of {text:?}");
    }
    Ok(())
}
