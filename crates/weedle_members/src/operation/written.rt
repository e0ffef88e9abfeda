//! What follows from the declarations of the module above.
//!
//! Written by tools/impls.py, and not edited by hand.

ghost use Rattle.std.specs.Prelude.{◌≡◌};
ghost use Rattle.weedle_base.specs.AlikeLaws.{equal_equivalence, seen_equivalence};
ghost use Rattle.weedle_base.specs.Own.{own};
ghost use Rattle.weedle_base.specs.OwnLaws.{own_lawful};
ghost use Rattle.weedle_grammar.specs.written.Table.InterfaceMembers.{OPERATION_INTERFACE_MEMBER};
ghost use Rattle.weedle_members.specs.written.Trees.{
  constructor_interface_member_tree,
  operation_interface_member_tree,
};

use super::{ConstructorInterfaceMember, OperationInterfaceMember};
use std::alloc::{AllocError, Global};
use weedle_base::term::{Constructor, SemiColon};
use weedle_base::{IResult, Parse, TryClone};
use weedle_parts::common::{Docstring, Identifier};
use weedle_parts::modifier::{Special, StringifierOrStatic};
use weedle_types::argument::ParenthesizedArgumentList;
use weedle_types::attribute::ExtendedAttributeList;
use weedle_types::copies::{copy_attributes, copy_docstring};
use weedle_types::fields::docstring_attributes_and_six;
use weedle_types::types::ReturnType;

impl TryClone for ConstructorInterfaceMember<'_> {
    ghost alike = { λ a b. constructor_interface_member_tree a
        ≡ constructor_interface_member_tree b };

    fn try_clone(&self, alloc: Global) -> Result<Self, AllocError> {
        Ok(ConstructorInterfaceMember {
            docstring: copy_docstring(&self.docstring, alloc)?,
            attributes: copy_attributes(&self.attributes, alloc)?,
            constructor: self.constructor,
            args: self.args.try_clone(alloc)?,
            semi_colon: self.semi_colon,
        })
    }

    ghost equivalence = { seen_equivalence constructor_interface_member_tree equal_equivalence };
}

impl<'a> ConstructorInterfaceMember<'a> {
    /// Its fields, in order: `docstring`, `attributes`, `constructor`, `args` and `semi_colon`.
    pub fn into_fields(
        self,
    ) -> (
        Option<Docstring>,
        Option<ExtendedAttributeList<'a>>,
        Constructor,
        ParenthesizedArgumentList<'a>,
        SemiColon,
    )
        ensures { result ≡ (
          self.entry.docstring,
          self.entry.attributes,
          self.entry.constructor,
          self.entry.args,
          self.entry.semi_colon,
        ) }
    {
        let ConstructorInterfaceMember {
            docstring,
            attributes,
            constructor,
            args,
            semi_colon,
        } = self;
        (docstring, attributes, constructor, args, semi_colon)
    }
}

#[tactic(auto, using(crate::proofs::written::OperationRules::operation_interface_member_steps))]
impl<'a> Parse<'a> for OperationInterfaceMember<'a> {
    ghost reading = { own OPERATION_INTERFACE_MEMBER operation_interface_member_tree (Unit {0}) };

    fn parse(alloc: Global, input: &'a str) -> IResult<&'a str, Self> {
        match docstring_attributes_and_six(alloc, input) {
            Ok(
                (
                    rest,
                    (
                        docstring,
                        attributes,
                        modifier,
                        special,
                        return_type,
                        identifier,
                        args,
                        semi_colon,
                    ),
                ),
            ) => Ok((
                rest,
                OperationInterfaceMember {
                    docstring,
                    attributes,
                    modifier,
                    special,
                    return_type,
                    identifier,
                    args,
                    semi_colon,
                },
            )),
            Err(error) => Err(error),
        }
    }

    ghost lawful = { own_lawful OPERATION_INTERFACE_MEMBER operation_interface_member_tree
        (Unit {0}) };
}

impl TryClone for OperationInterfaceMember<'_> {
    ghost alike = { λ a b. operation_interface_member_tree a ≡ operation_interface_member_tree b };

    fn try_clone(&self, alloc: Global) -> Result<Self, AllocError> {
        Ok(OperationInterfaceMember {
            docstring: copy_docstring(&self.docstring, alloc)?,
            attributes: copy_attributes(&self.attributes, alloc)?,
            modifier: self.modifier,
            special: self.special,
            return_type: self.return_type.try_clone(alloc)?,
            identifier: self.identifier,
            args: self.args.try_clone(alloc)?,
            semi_colon: self.semi_colon,
        })
    }

    ghost equivalence = { seen_equivalence operation_interface_member_tree equal_equivalence };
}

impl<'a> OperationInterfaceMember<'a> {
    /// Its fields, in order: `docstring`, `attributes`, `modifier`, `special`, `return_type`,
    /// `identifier`, `args` and `semi_colon`.
    pub fn into_fields(
        self,
    ) -> (
        Option<Docstring>,
        Option<ExtendedAttributeList<'a>>,
        Option<StringifierOrStatic>,
        Option<Special>,
        ReturnType<'a>,
        Option<Identifier<'a>>,
        ParenthesizedArgumentList<'a>,
        SemiColon,
    )
        ensures { result ≡ (
          self.entry.docstring,
          self.entry.attributes,
          self.entry.modifier,
          self.entry.special,
          self.entry.return_type,
          self.entry.identifier,
          self.entry.args,
          self.entry.semi_colon,
        ) }
    {
        let OperationInterfaceMember {
            docstring,
            attributes,
            modifier,
            special,
            return_type,
            identifier,
            args,
            semi_colon,
        } = self;
        (
            docstring,
            attributes,
            modifier,
            special,
            return_type,
            identifier,
            args,
            semi_colon,
        )
    }
}
