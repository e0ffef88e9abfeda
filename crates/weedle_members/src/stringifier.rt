//! Stringifiers with no body.

ghost use Rattle.weedle_base.specs.Own.{own};
ghost use Rattle.weedle_base.specs.OwnLaws.{own_lawful};
ghost use Rattle.weedle_members.specs.written.Trees.{stringifier_member_tree};
ghost use Rattle.weedle_grammar.specs.written.Table.InterfaceMembers.{STRINGIFIER_MEMBER};

mod written;

use std::alloc::Global;
use weedle_base::term::{SemiColon, Stringifier};
use weedle_base::{IResult, Parse};
use weedle_types::attribute::ExtendedAttributeList;
use weedle_types::parts::attributes;

/// A stringifier with no body, as `stringifier;`.
#[derive(Debug, Default, PartialEq, Eq, PartialOrd, Ord, Hash)]
pub struct StringifierMember<'a> {
    /// The extended attributes in brackets, as `[Exposed=Window]`, where present.
    pub attributes: Option<ExtendedAttributeList<'a>>,
    /// The word `stringifier`.
    pub stringifier: Stringifier,
    /// The `;` at the end.
    pub semi_colon: SemiColon,
}

impl Drop for StringifierMember<'_> {
    fn drop(self) {
        let StringifierMember {
            attributes: _,
            stringifier: _,
            semi_colon: _,
        } = self;
    }
}

#[tactic(auto, using(crate::proofs::written::StringifierRules::stringifier_member_steps))]
impl<'a> Parse<'a> for StringifierMember<'a> {
    ghost reading = { own STRINGIFIER_MEMBER stringifier_member_tree (Unit {0}) };

    fn parse(alloc: Global, input: &'a str) -> IResult<&'a str, Self> {
        let (rest, attributes) = attributes(alloc, input)?;
        let (rest, (stringifier, semi_colon)) = Parse::parse(alloc, rest)?;
        Ok((
            rest,
            StringifierMember {
                attributes,
                stringifier,
                semi_colon,
            },
        ))
    }

    ghost lawful = { own_lawful STRINGIFIER_MEMBER stringifier_member_tree (Unit {0}) };
}
