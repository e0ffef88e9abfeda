//! The constructors and operations of interfaces.

ghost use Rattle.weedle_base.specs.Own.{own};
ghost use Rattle.weedle_base.specs.OwnLaws.{own_lawful};
ghost use Rattle.weedle_members.specs.written.Trees.{constructor_interface_member_tree};
ghost use Rattle.weedle_grammar.specs.written.Table.InterfaceMembers.{CONSTRUCTOR_INTERFACE_MEMBER};

mod written;

use std::alloc::Global;
use weedle_base::term::{Constructor, SemiColon};
use weedle_base::{IResult, Parse};
use weedle_parts::common::{Docstring, Identifier};
use weedle_parts::modifier::{Special, StringifierOrStatic};
use weedle_types::argument::ParenthesizedArgumentList;
use weedle_types::attribute::ExtendedAttributeList;
use weedle_types::parts::attributes;
use weedle_types::types::ReturnType;

/// A constructor, as `constructor(long x);`. A docstring may precede it.
#[derive(Debug, PartialEq, Eq, PartialOrd, Ord, Hash)]
pub struct ConstructorInterfaceMember<'a> {
    /// The docstring in front, where present.
    pub docstring: Option<Docstring>,
    /// The extended attributes in brackets, as `[Exposed=Window]`, where present.
    pub attributes: Option<ExtendedAttributeList<'a>>,
    /// The word `constructor`.
    pub constructor: Constructor,
    /// Its arguments, between parentheses: `body.list` is their list.
    pub args: ParenthesizedArgumentList<'a>,
    /// The `;` at the end.
    pub semi_colon: SemiColon,
}

impl Drop for ConstructorInterfaceMember<'_> {
    fn drop(self) {
        let ConstructorInterfaceMember {
            docstring: _,
            attributes: _,
            constructor: _,
            args: _,
            semi_colon: _,
        } = self;
    }
}

#[tactic(auto, using(crate::proofs::written::OperationRules::constructor_interface_member_steps))]
impl<'a> Parse<'a> for ConstructorInterfaceMember<'a> {
    ghost reading = { own CONSTRUCTOR_INTERFACE_MEMBER constructor_interface_member_tree
        (Unit {0}) };

    fn parse(alloc: Global, input: &'a str) -> IResult<&'a str, Self> {
        let (rest, docstring) = Option::parse(alloc, input)?;
        let (rest, attributes) = attributes(alloc, rest)?;
        let (rest, (constructor, (args, semi_colon))) = Parse::parse(alloc, rest)?;
        Ok((
            rest,
            ConstructorInterfaceMember {
                docstring,
                attributes,
                constructor,
                args,
                semi_colon,
            },
        ))
    }

    ghost lawful = { own_lawful CONSTRUCTOR_INTERFACE_MEMBER constructor_interface_member_tree
        (Unit {0}) };
}

/// An operation of an interface, as `getter long item(long index);`. It may lack a name, and a
/// docstring may precede it.
#[derive(Debug, PartialEq, Eq, PartialOrd, Ord, Hash)]
pub struct OperationInterfaceMember<'a> {
    /// The docstring in front, where present.
    pub docstring: Option<Docstring>,
    /// The extended attributes in brackets, as `[Exposed=Window]`, where present.
    pub attributes: Option<ExtendedAttributeList<'a>>,
    /// The word `stringifier` or `static`, where one of them is present.
    pub modifier: Option<StringifierOrStatic>,
    /// The word `getter`, `setter`, `deleter` or `legacycaller`, where one of them is present.
    pub special: Option<Special>,
    /// The type of its result, as `undefined` or `long`.
    pub return_type: ReturnType<'a>,
    /// Its name, where it has one.
    pub identifier: Option<Identifier<'a>>,
    /// Its arguments, between parentheses: `body.list` is their list.
    pub args: ParenthesizedArgumentList<'a>,
    /// The `;` at the end.
    pub semi_colon: SemiColon,
}

impl Drop for OperationInterfaceMember<'_> {
    fn drop(self) {
        let OperationInterfaceMember {
            docstring: _,
            attributes: _,
            modifier: _,
            special: _,
            return_type: _,
            identifier: _,
            args: _,
            semi_colon: _,
        } = self;
    }
}
