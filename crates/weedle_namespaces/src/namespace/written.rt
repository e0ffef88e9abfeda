//! What follows from the declarations of the module above.
//!
//! Written by tools/impls.py, and not edited by hand.

ghost use Rattle.std.specs.Prelude.{◌↔◌, ◌≡◌};
ghost use Rattle.weedle_base.specs.AlikeLaws.{equal_equivalence, seen_equivalence};
ghost use Rattle.weedle_base.specs.Own.{own};
ghost use Rattle.weedle_base.specs.OwnLaws.{own_lawful};
ghost use Rattle.weedle_grammar.specs.written.Table.OtherMembers.{
  ATTRIBUTE_NAMESPACE_MEMBER,
  NAMESPACE_MEMBER,
  OPERATION_NAMESPACE_MEMBER,
};
ghost use Rattle.weedle_namespaces.specs.written.Trees.{
  attribute_namespace_member_tree,
  namespace_member_tree,
  operation_namespace_member_tree,
};

use super::{AttributeNamespaceMember, NamespaceMember, OperationNamespaceMember};
use std::alloc::{AllocError, Global};
use weedle_base::Choice::{self, First, Second};
use weedle_base::term::{Attribute, ReadOnly, SemiColon};
use weedle_base::{IResult, Parse, TryClone};
use weedle_parts::common::{Docstring, Identifier};
use weedle_types::argument::ParenthesizedArgumentList;
use weedle_types::attribute::ExtendedAttributeList;
use weedle_types::copies::{copy_attributes, copy_docstring};
use weedle_types::fields::{docstring_attributes_and_five, docstring_attributes_and_four};
use weedle_types::types::{AttributedType, ReturnType};

#[tactic(auto, using(crate::proofs::written::NamespaceRules::operation_namespace_member_steps))]
impl<'a> Parse<'a> for OperationNamespaceMember<'a> {
    ghost reading = { own OPERATION_NAMESPACE_MEMBER operation_namespace_member_tree (Unit {0}) };

    fn parse(alloc: Global, input: &'a str) -> IResult<&'a str, Self> {
        match docstring_attributes_and_four(alloc, input) {
            Ok((rest, (docstring, attributes, return_type, identifier, args, semi_colon))) => Ok((
                rest,
                OperationNamespaceMember {
                    docstring,
                    attributes,
                    return_type,
                    identifier,
                    args,
                    semi_colon,
                },
            )),
            Err(error) => Err(error),
        }
    }

    ghost lawful = { own_lawful OPERATION_NAMESPACE_MEMBER operation_namespace_member_tree
        (Unit {0}) };
}

impl TryClone for OperationNamespaceMember<'_> {
    ghost alike = { λ a b. operation_namespace_member_tree a ≡ operation_namespace_member_tree b };

    fn try_clone(&self, alloc: Global) -> Result<Self, AllocError> {
        Ok(OperationNamespaceMember {
            docstring: copy_docstring(&self.docstring, alloc)?,
            attributes: copy_attributes(&self.attributes, alloc)?,
            return_type: self.return_type.try_clone(alloc)?,
            identifier: self.identifier,
            args: self.args.try_clone(alloc)?,
            semi_colon: self.semi_colon,
        })
    }

    ghost equivalence = { seen_equivalence operation_namespace_member_tree equal_equivalence };
}

impl<'a> OperationNamespaceMember<'a> {
    /// Its fields, in order: `docstring`, `attributes`, `return_type`, `identifier`, `args` and
    /// `semi_colon`.
    pub fn into_fields(
        self,
    ) -> (
        Option<Docstring>,
        Option<ExtendedAttributeList<'a>>,
        ReturnType<'a>,
        Option<Identifier<'a>>,
        ParenthesizedArgumentList<'a>,
        SemiColon,
    )
        ensures { result ≡ (
          self.entry.docstring,
          self.entry.attributes,
          self.entry.return_type,
          self.entry.identifier,
          self.entry.args,
          self.entry.semi_colon,
        ) }
    {
        let OperationNamespaceMember {
            docstring,
            attributes,
            return_type,
            identifier,
            args,
            semi_colon,
        } = self;
        (
            docstring,
            attributes,
            return_type,
            identifier,
            args,
            semi_colon,
        )
    }
}

#[tactic(auto, using(crate::proofs::written::NamespaceRules::attribute_namespace_member_steps))]
impl<'a> Parse<'a> for AttributeNamespaceMember<'a> {
    ghost reading = { own ATTRIBUTE_NAMESPACE_MEMBER attribute_namespace_member_tree (Unit {0}) };

    fn parse(alloc: Global, input: &'a str) -> IResult<&'a str, Self> {
        match docstring_attributes_and_five(alloc, input) {
            Ok(
                (rest, (docstring, attributes, readonly, attribute, type_, identifier, semi_colon)),
            ) => Ok((
                rest,
                AttributeNamespaceMember {
                    docstring,
                    attributes,
                    readonly,
                    attribute,
                    type_,
                    identifier,
                    semi_colon,
                },
            )),
            Err(error) => Err(error),
        }
    }

    ghost lawful = { own_lawful ATTRIBUTE_NAMESPACE_MEMBER attribute_namespace_member_tree
        (Unit {0}) };
}

impl TryClone for AttributeNamespaceMember<'_> {
    ghost alike = { λ a b. attribute_namespace_member_tree a ≡ attribute_namespace_member_tree b };

    fn try_clone(&self, alloc: Global) -> Result<Self, AllocError> {
        Ok(AttributeNamespaceMember {
            docstring: copy_docstring(&self.docstring, alloc)?,
            attributes: copy_attributes(&self.attributes, alloc)?,
            readonly: self.readonly,
            attribute: self.attribute,
            type_: self.type_.try_clone(alloc)?,
            identifier: self.identifier,
            semi_colon: self.semi_colon,
        })
    }

    ghost equivalence = { seen_equivalence attribute_namespace_member_tree equal_equivalence };
}

impl<'a> AttributeNamespaceMember<'a> {
    /// Its fields, in order: `docstring`, `attributes`, `readonly`, `attribute`, `type_`,
    /// `identifier` and `semi_colon`.
    pub fn into_fields(
        self,
    ) -> (
        Option<Docstring>,
        Option<ExtendedAttributeList<'a>>,
        ReadOnly,
        Attribute,
        AttributedType<'a>,
        Identifier<'a>,
        SemiColon,
    )
        ensures { result ≡ (
          self.entry.docstring,
          self.entry.attributes,
          self.entry.readonly,
          self.entry.attribute,
          self.entry.type_,
          self.entry.identifier,
          self.entry.semi_colon,
        ) }
    {
        let AttributeNamespaceMember {
            docstring,
            attributes,
            readonly,
            attribute,
            type_,
            identifier,
            semi_colon,
        } = self;
        (
            docstring, attributes, readonly, attribute, type_, identifier, semi_colon,
        )
    }
}

#[tactic(auto, using(crate::proofs::written::NamespaceRules::namespace_member_steps))]
impl<'a> Parse<'a> for NamespaceMember<'a> {
    ghost reading = { own NAMESPACE_MEMBER namespace_member_tree (Unit {0}) };

    fn parse(alloc: Global, input: &'a str) -> IResult<&'a str, Self> {
        let (rest, read) = Choice::parse(alloc, input)?;
        let member = match read {
            First(member) => NamespaceMember::Operation(member),
            Second(member) => NamespaceMember::Attribute(member),
        };
        Ok((rest, member))
    }

    ghost lawful = { own_lawful NAMESPACE_MEMBER namespace_member_tree (Unit {0}) };
}

impl TryClone for NamespaceMember<'_> {
    ghost alike = { λ a b. namespace_member_tree a ≡ namespace_member_tree b };

    fn try_clone(&self, alloc: Global) -> Result<Self, AllocError> {
        match self {
            NamespaceMember::Operation(member) => Ok(NamespaceMember::Operation(member.try_clone(
                alloc,
            )?)),
            NamespaceMember::Attribute(member) => Ok(NamespaceMember::Attribute(member.try_clone(
                alloc,
            )?)),
        }
    }

    ghost equivalence = { seen_equivalence namespace_member_tree equal_equivalence };
}

impl<'a> From<OperationNamespaceMember<'a>> for NamespaceMember<'a> {
    ghost use Rattle.weedle_namespaces.specs.declared.namespace.NamespaceMember.TheVariants.{
      Operation,
    };

    ghost from_gives = { λ value made. made ≡ Operation value };

    fn from(value: OperationNamespaceMember<'a>) -> Self {
        NamespaceMember::Operation(value)
    }
}

impl<'a> From<AttributeNamespaceMember<'a>> for NamespaceMember<'a> {
    ghost use Rattle.weedle_namespaces.specs.declared.namespace.NamespaceMember.TheVariants.{
      Attribute,
    };

    ghost from_gives = { λ value made. made ≡ Attribute value };

    fn from(value: AttributeNamespaceMember<'a>) -> Self {
        NamespaceMember::Attribute(value)
    }
}

impl<'a> NamespaceMember<'a> {
    /// What it holds where it is `NamespaceMember::Operation`, and else None.
    pub fn into_operation(self) -> Option<OperationNamespaceMember<'a>>
        ensures { (held : OperationNamespaceMember)
            → result ≡ Some held ↔ self.entry ≡ NamespaceMember.Operation held }
    {
        match self {
            NamespaceMember::Operation(held) => Some(held),
            _ => None,
        }
    }

    /// What it holds where it is `NamespaceMember::Attribute`, and else None.
    pub fn into_attribute(self) -> Option<AttributeNamespaceMember<'a>>
        ensures { (held : AttributeNamespaceMember)
            → result ≡ Some held ↔ self.entry ≡ NamespaceMember.Attribute held }
    {
        match self {
            NamespaceMember::Attribute(held) => Some(held),
            _ => None,
        }
    }
}
