//! What follows from the declarations of the module above.
//!
//! Written by tools/impls.py, and not edited by hand.

ghost use Rattle.std.specs.Prelude.{◌≡◌};
ghost use Rattle.weedle_base.specs.AlikeLaws.{equal_equivalence, seen_equivalence};
ghost use Rattle.weedle_base.specs.Own.{own};
ghost use Rattle.weedle_base.specs.OwnLaws.{own_lawful};
ghost use Rattle.weedle_grammar.specs.written.Table.InterfaceMembers.{CONST_MEMBER};
ghost use Rattle.weedle_members.specs.written.Trees.{const_member_tree};

use super::ConstMember;
use std::alloc::{AllocError, Global};
use weedle_base::term::{Assign, Const, SemiColon};
use weedle_base::{IResult, Parse, TryClone};
use weedle_parts::common::Identifier;
use weedle_parts::literal::ConstValue;
use weedle_parts::types::ConstType;
use weedle_types::attribute::ExtendedAttributeList;
use weedle_types::copies::copy_attributes;
use weedle_types::fields::attributes_and_six;

#[tactic(auto, using(crate::proofs::written::ConstantRules::const_member_steps))]
impl<'a> Parse<'a> for ConstMember<'a> {
    ghost reading = { own CONST_MEMBER const_member_tree (Unit {0}) };

    fn parse(alloc: Global, input: &'a str) -> IResult<&'a str, Self> {
        match attributes_and_six(alloc, input) {
            Ok(
                (
                    rest,
                    (attributes, const_, const_type, identifier, assign, const_value, semi_colon),
                ),
            ) => Ok((
                rest,
                ConstMember {
                    attributes,
                    const_,
                    const_type,
                    identifier,
                    assign,
                    const_value,
                    semi_colon,
                },
            )),
            Err(error) => Err(error),
        }
    }

    ghost lawful = { own_lawful CONST_MEMBER const_member_tree (Unit {0}) };
}

impl TryClone for ConstMember<'_> {
    ghost alike = { λ a b. const_member_tree a ≡ const_member_tree b };

    fn try_clone(&self, alloc: Global) -> Result<Self, AllocError> {
        Ok(ConstMember {
            attributes: copy_attributes(&self.attributes, alloc)?,
            const_: self.const_,
            const_type: self.const_type,
            identifier: self.identifier,
            assign: self.assign,
            const_value: self.const_value,
            semi_colon: self.semi_colon,
        })
    }

    ghost equivalence = { seen_equivalence const_member_tree equal_equivalence };
}

impl<'a> ConstMember<'a> {
    /// Its fields, in order: `attributes`, `const_`, `const_type`, `identifier`, `assign`,
    /// `const_value` and `semi_colon`.
    pub fn into_fields(
        self,
    ) -> (
        Option<ExtendedAttributeList<'a>>,
        Const,
        ConstType<'a>,
        Identifier<'a>,
        Assign,
        ConstValue<'a>,
        SemiColon,
    )
        ensures { result ≡ (
          self.entry.attributes,
          self.entry.const_,
          self.entry.const_type,
          self.entry.identifier,
          self.entry.assign,
          self.entry.const_value,
          self.entry.semi_colon,
        ) }
    {
        let ConstMember {
            attributes,
            const_,
            const_type,
            identifier,
            assign,
            const_value,
            semi_colon,
        } = self;
        (
            attributes,
            const_,
            const_type,
            identifier,
            assign,
            const_value,
            semi_colon,
        )
    }
}
