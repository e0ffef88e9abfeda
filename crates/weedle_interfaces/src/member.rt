//! The members of interfaces.

ghost use Rattle.weedle_base.specs.Own.{own};
ghost use Rattle.weedle_base.specs.OwnLaws.{own_lawful};
ghost use Rattle.weedle_base.specs.Reading.{Answers};
ghost use Rattle.weedle_interfaces.specs.written.Trees.{interface_member_tree};
ghost use Rattle.weedle_interfaces.specs.Pieces.{
  collection_member_rules,
  iterable_member_rules,
  main_member_rules,
};
ghost use Rattle.weedle_grammar.specs.written.Table.InterfaceMembers.{INTERFACE_MEMBER};
ghost use Rattle.weedle_types.specs.Steps.{members};

mod written;

use std::alloc::Global;
use weedle_base::Choice::{self, First, Second};
use weedle_base::{Err, IResult, Parse};
use weedle_iterables::{
    AsyncIterableInterfaceMember, IterableInterfaceMember, MaplikeInterfaceMember,
    SetlikeInterfaceMember,
};
use weedle_members::{
    AttributeInterfaceMember, ConstMember, ConstructorInterfaceMember, OperationInterfaceMember,
    StringifierMember,
};

/// A member of an interface, as `attribute long length;`: the first of the nine kinds that fits, so
/// `stringifier();`, which begins an operation without a name but has no second list of arguments,
/// is none of them. Of what its variants read, `docstring` and `[extended attributes]` may be
/// absent.
#[derive(Debug, PartialEq, Eq, PartialOrd, Ord, Hash)]
pub enum InterfaceMember<'a> {
    /// `[extended attributes] const type name = value;`.
    Const(ConstMember<'a>),
    /// `[extended attributes] readonly attribute type name;`, also without `readonly`. Before these
    /// words may be `stringifier`, `inherit` or `static`.
    Attribute(AttributeInterfaceMember<'a>),
    /// `docstring [extended attributes] constructor(arguments);`.
    Constructor(ConstructorInterfaceMember<'a>),
    /// `docstring [extended attributes] type name(arguments);`, also without the name. Before the
    /// type may be `stringifier` or `static`, then `getter` or the like.
    Operation(OperationInterfaceMember<'a>),
    /// `[extended attributes] iterable<type>;` or `[extended attributes] iterable<type, type>;`.
    Iterable(IterableInterfaceMember<'a>),
    /// `[extended attributes] async iterable<type>(arguments);`, also with two types, or without
    /// `(arguments)`.
    AsyncIterable(AsyncIterableInterfaceMember<'a>),
    /// `[extended attributes] readonly maplike<type, type>;`, also without `readonly`.
    Maplike(MaplikeInterfaceMember<'a>),
    /// `[extended attributes] readonly setlike<type>;`, also without `readonly`.
    Setlike(SetlikeInterfaceMember<'a>),
    /// `[extended attributes] stringifier;`.
    Stringifier(StringifierMember<'a>),
}

impl Drop for InterfaceMember<'_> {
    fn drop(self) {
        match self {
            InterfaceMember::Const(_)
            | InterfaceMember::Attribute(_)
            | InterfaceMember::Constructor(_)
            | InterfaceMember::Operation(_)
            | InterfaceMember::Iterable(_)
            | InterfaceMember::AsyncIterable(_)
            | InterfaceMember::Maplike(_)
            | InterfaceMember::Setlike(_)
            | InterfaceMember::Stringifier(_) => {}
        }
    }
}

#[tactic(auto, using(crate::proofs::written::MemberRules::interface_member_steps))]
impl<'a> Parse<'a> for InterfaceMember<'a> {
    ghost reading = { own INTERFACE_MEMBER interface_member_tree (Unit {0}) };

    fn parse(alloc: Global, input: &'a str) -> IResult<&'a str, Self> {
        match main_member(alloc, input) {
            Ok((rest, read)) => return Ok((rest, read)),
            Err(Err::Error(_)) => {}
            Err(Err::Failure(fault)) => return Err(Err::Failure(fault)),
        }
        match iterable_member(alloc, input) {
            Ok((rest, read)) => return Ok((rest, read)),
            Err(Err::Error(_)) => {}
            Err(Err::Failure(fault)) => return Err(Err::Failure(fault)),
        }
        collection_member(alloc, input)
    }

    ghost lawful = { own_lawful INTERFACE_MEMBER interface_member_tree (Unit {0}) };
}

/// Reads one of the members up to operations.
#[tactic(auto, using(crate::proofs::written::MemberRules::main_member_steps))]
fn main_member<'a>(alloc: Global, input: &'a str) -> IResult<&'a str, InterfaceMember<'a>>
    ensures { Answers (members main_member_rules 0 interface_member_tree (Unit {0})) input.now
        result }
{
    let (rest, read) = Choice::parse(alloc, input)?;
    let member = match read {
        First(member) => InterfaceMember::Const(member),
        Second(First(member)) => InterfaceMember::Attribute(member),
        Second(Second(First(member))) => InterfaceMember::Constructor(member),
        Second(Second(Second(member))) => InterfaceMember::Operation(member),
    };
    Ok((rest, member))
}

/// Reads an iteration.
#[tactic(auto, using(crate::proofs::written::MemberRules::iterable_member_steps))]
fn iterable_member<'a>(alloc: Global, input: &'a str) -> IResult<&'a str, InterfaceMember<'a>>
    ensures { Answers (members iterable_member_rules 4 interface_member_tree (Unit {0})) input.now
        result }
{
    let (rest, read) = Choice::parse(alloc, input)?;
    let member = match read {
        First(member) => InterfaceMember::Iterable(member),
        Second(member) => InterfaceMember::AsyncIterable(member),
    };
    Ok((rest, member))
}

/// Reads a map, a set or a stringifier.
#[tactic(auto, using(crate::proofs::written::MemberRules::collection_member_steps))]
fn collection_member<'a>(alloc: Global, input: &'a str) -> IResult<&'a str, InterfaceMember<'a>>
    ensures { Answers (members collection_member_rules 6 interface_member_tree (Unit {0})) input.now
        result }
{
    let (rest, read) = Choice::parse(alloc, input)?;
    let member = match read {
        First(member) => InterfaceMember::Maplike(member),
        Second(First(member)) => InterfaceMember::Setlike(member),
        Second(Second(member)) => InterfaceMember::Stringifier(member),
    };
    Ok((rest, member))
}
