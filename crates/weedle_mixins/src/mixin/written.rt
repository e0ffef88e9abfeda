//! What follows from the declarations of the module above.
//!
//! Written by tools/impls.py, and not edited by hand.

ghost use Rattle.std.specs.Prelude.{◌↔◌, ◌≡◌};
ghost use Rattle.weedle_base.specs.AlikeLaws.{equal_equivalence, seen_equivalence};
ghost use Rattle.weedle_base.specs.Own.{own};
ghost use Rattle.weedle_base.specs.OwnLaws.{own_lawful};
ghost use Rattle.weedle_grammar.specs.written.Table.OtherMembers.{
  ATTRIBUTE_MIXIN_MEMBER,
  MIXIN_MEMBER,
  OPERATION_MIXIN_MEMBER,
};
ghost use Rattle.weedle_mixins.specs.written.Trees.{
  attribute_mixin_member_tree,
  mixin_member_tree,
  operation_mixin_member_tree,
};

use super::{AttributeMixinMember, MixinMember, OperationMixinMember};
use std::alloc::{AllocError, Global};
use weedle_base::Choice::{self, First, Second};
use weedle_base::term::{Attribute, ReadOnly, SemiColon, Stringifier};
use weedle_base::{IResult, Parse, TryClone};
use weedle_members::{ConstMember, StringifierMember};
use weedle_parts::common::Identifier;
use weedle_types::argument::ParenthesizedArgumentList;
use weedle_types::attribute::ExtendedAttributeList;
use weedle_types::copies::copy_attributes;
use weedle_types::fields::{attributes_and_five, attributes_and_six};
use weedle_types::types::{AttributedType, ReturnType};

#[tactic(auto, using(crate::proofs::written::MixinRules::operation_mixin_member_steps))]
impl<'a> Parse<'a> for OperationMixinMember<'a> {
    ghost reading = { own OPERATION_MIXIN_MEMBER operation_mixin_member_tree (Unit {0}) };

    fn parse(alloc: Global, input: &'a str) -> IResult<&'a str, Self> {
        match attributes_and_five(alloc, input) {
            Ok((rest, (attributes, stringifier, return_type, identifier, args, semi_colon))) => Ok(
                (
                    rest,
                    OperationMixinMember {
                        attributes,
                        stringifier,
                        return_type,
                        identifier,
                        args,
                        semi_colon,
                    },
                ),
            ),
            Err(error) => Err(error),
        }
    }

    ghost lawful = { own_lawful OPERATION_MIXIN_MEMBER operation_mixin_member_tree (Unit {0}) };
}

impl TryClone for OperationMixinMember<'_> {
    ghost alike = { λ a b. operation_mixin_member_tree a ≡ operation_mixin_member_tree b };

    fn try_clone(&self, alloc: Global) -> Result<Self, AllocError> {
        Ok(OperationMixinMember {
            attributes: copy_attributes(&self.attributes, alloc)?,
            stringifier: self.stringifier,
            return_type: self.return_type.try_clone(alloc)?,
            identifier: self.identifier,
            args: self.args.try_clone(alloc)?,
            semi_colon: self.semi_colon,
        })
    }

    ghost equivalence = { seen_equivalence operation_mixin_member_tree equal_equivalence };
}

impl<'a> OperationMixinMember<'a> {
    /// Its fields, in order: `attributes`, `stringifier`, `return_type`, `identifier`, `args` and
    /// `semi_colon`.
    pub fn into_fields(
        self,
    ) -> (
        Option<ExtendedAttributeList<'a>>,
        Option<Stringifier>,
        ReturnType<'a>,
        Option<Identifier<'a>>,
        ParenthesizedArgumentList<'a>,
        SemiColon,
    )
        ensures { result ≡ (
          self.entry.attributes,
          self.entry.stringifier,
          self.entry.return_type,
          self.entry.identifier,
          self.entry.args,
          self.entry.semi_colon,
        ) }
    {
        let OperationMixinMember {
            attributes,
            stringifier,
            return_type,
            identifier,
            args,
            semi_colon,
        } = self;
        (
            attributes,
            stringifier,
            return_type,
            identifier,
            args,
            semi_colon,
        )
    }
}

#[tactic(auto, using(crate::proofs::written::MixinRules::attribute_mixin_member_steps))]
impl<'a> Parse<'a> for AttributeMixinMember<'a> {
    ghost reading = { own ATTRIBUTE_MIXIN_MEMBER attribute_mixin_member_tree (Unit {0}) };

    fn parse(alloc: Global, input: &'a str) -> IResult<&'a str, Self> {
        match attributes_and_six(alloc, input) {
            Ok(
                (
                    rest,
                    (attributes, stringifier, readonly, attribute, type_, identifier, semi_colon),
                ),
            ) => Ok((
                rest,
                AttributeMixinMember {
                    attributes,
                    stringifier,
                    readonly,
                    attribute,
                    type_,
                    identifier,
                    semi_colon,
                },
            )),
            Err(error) => Err(error),
        }
    }

    ghost lawful = { own_lawful ATTRIBUTE_MIXIN_MEMBER attribute_mixin_member_tree (Unit {0}) };
}

impl TryClone for AttributeMixinMember<'_> {
    ghost alike = { λ a b. attribute_mixin_member_tree a ≡ attribute_mixin_member_tree b };

    fn try_clone(&self, alloc: Global) -> Result<Self, AllocError> {
        Ok(AttributeMixinMember {
            attributes: copy_attributes(&self.attributes, alloc)?,
            stringifier: self.stringifier,
            readonly: self.readonly,
            attribute: self.attribute,
            type_: self.type_.try_clone(alloc)?,
            identifier: self.identifier,
            semi_colon: self.semi_colon,
        })
    }

    ghost equivalence = { seen_equivalence attribute_mixin_member_tree equal_equivalence };
}

impl<'a> AttributeMixinMember<'a> {
    /// Its fields, in order: `attributes`, `stringifier`, `readonly`, `attribute`, `type_`,
    /// `identifier` and `semi_colon`.
    pub fn into_fields(
        self,
    ) -> (
        Option<ExtendedAttributeList<'a>>,
        Option<Stringifier>,
        Option<ReadOnly>,
        Attribute,
        AttributedType<'a>,
        Identifier<'a>,
        SemiColon,
    )
        ensures { result ≡ (
          self.entry.attributes,
          self.entry.stringifier,
          self.entry.readonly,
          self.entry.attribute,
          self.entry.type_,
          self.entry.identifier,
          self.entry.semi_colon,
        ) }
    {
        let AttributeMixinMember {
            attributes,
            stringifier,
            readonly,
            attribute,
            type_,
            identifier,
            semi_colon,
        } = self;
        (
            attributes,
            stringifier,
            readonly,
            attribute,
            type_,
            identifier,
            semi_colon,
        )
    }
}

#[tactic(auto, using(crate::proofs::written::MixinRules::mixin_member_steps))]
impl<'a> Parse<'a> for MixinMember<'a> {
    ghost reading = { own MIXIN_MEMBER mixin_member_tree (Unit {0}) };

    fn parse(alloc: Global, input: &'a str) -> IResult<&'a str, Self> {
        let (rest, read) = Choice::parse(alloc, input)?;
        let member = match read {
            First(member) => MixinMember::Const(member),
            Second(First(member)) => MixinMember::Operation(member),
            Second(Second(First(member))) => MixinMember::Attribute(member),
            Second(Second(Second(member))) => MixinMember::Stringifier(member),
        };
        Ok((rest, member))
    }

    ghost lawful = { own_lawful MIXIN_MEMBER mixin_member_tree (Unit {0}) };
}

impl TryClone for MixinMember<'_> {
    ghost alike = { λ a b. mixin_member_tree a ≡ mixin_member_tree b };

    fn try_clone(&self, alloc: Global) -> Result<Self, AllocError> {
        match self {
            MixinMember::Const(member) => Ok(MixinMember::Const(member.try_clone(alloc)?)),
            MixinMember::Operation(member) => Ok(MixinMember::Operation(member.try_clone(alloc)?)),
            MixinMember::Attribute(member) => Ok(MixinMember::Attribute(member.try_clone(alloc)?)),
            MixinMember::Stringifier(member) => Ok(MixinMember::Stringifier(member.try_clone(
                alloc,
            )?)),
        }
    }

    ghost equivalence = { seen_equivalence mixin_member_tree equal_equivalence };
}

impl<'a> From<ConstMember<'a>> for MixinMember<'a> {
    ghost use Rattle.weedle_mixins.specs.declared.mixin.MixinMember.TheVariants.{Const};

    ghost from_gives = { λ value made. made ≡ Const value };

    fn from(value: ConstMember<'a>) -> Self {
        MixinMember::Const(value)
    }
}

impl<'a> From<OperationMixinMember<'a>> for MixinMember<'a> {
    ghost use Rattle.weedle_mixins.specs.declared.mixin.MixinMember.TheVariants.{Operation};

    ghost from_gives = { λ value made. made ≡ Operation value };

    fn from(value: OperationMixinMember<'a>) -> Self {
        MixinMember::Operation(value)
    }
}

impl<'a> From<AttributeMixinMember<'a>> for MixinMember<'a> {
    ghost use Rattle.weedle_mixins.specs.declared.mixin.MixinMember.TheVariants.{Attribute};

    ghost from_gives = { λ value made. made ≡ Attribute value };

    fn from(value: AttributeMixinMember<'a>) -> Self {
        MixinMember::Attribute(value)
    }
}

impl<'a> From<StringifierMember<'a>> for MixinMember<'a> {
    ghost use Rattle.weedle_mixins.specs.declared.mixin.MixinMember.TheVariants.{Stringifier};

    ghost from_gives = { λ value made. made ≡ Stringifier value };

    fn from(value: StringifierMember<'a>) -> Self {
        MixinMember::Stringifier(value)
    }
}

impl<'a> MixinMember<'a> {
    /// What it holds where it is `MixinMember::Const`, and else None.
    pub fn into_const(self) -> Option<ConstMember<'a>>
        ensures { (held : ConstMember)
            → result ≡ Some held ↔ self.entry ≡ MixinMember.Const held }
    {
        match self {
            MixinMember::Const(held) => Some(held),
            _ => None,
        }
    }

    /// What it holds where it is `MixinMember::Operation`, and else None.
    pub fn into_operation(self) -> Option<OperationMixinMember<'a>>
        ensures { (held : OperationMixinMember)
            → result ≡ Some held ↔ self.entry ≡ MixinMember.Operation held }
    {
        match self {
            MixinMember::Operation(held) => Some(held),
            _ => None,
        }
    }

    /// What it holds where it is `MixinMember::Attribute`, and else None.
    pub fn into_attribute(self) -> Option<AttributeMixinMember<'a>>
        ensures { (held : AttributeMixinMember)
            → result ≡ Some held ↔ self.entry ≡ MixinMember.Attribute held }
    {
        match self {
            MixinMember::Attribute(held) => Some(held),
            _ => None,
        }
    }

    /// What it holds where it is `MixinMember::Stringifier`, and else None.
    pub fn into_stringifier(self) -> Option<StringifierMember<'a>>
        ensures { (held : StringifierMember)
            → result ≡ Some held ↔ self.entry ≡ MixinMember.Stringifier held }
    {
        match self {
            MixinMember::Stringifier(held) => Some(held),
            _ => None,
        }
    }
}
