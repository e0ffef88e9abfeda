//! What follows from the declarations of the module above.
//!
//! Written by tools/impls.py, and not edited by hand.

ghost use Rattle.std.specs.Prelude.{◌≡◌};
ghost use Rattle.weedle_base.specs.AlikeLaws.{equal_equivalence, seen_equivalence};
ghost use Rattle.weedle_base.specs.Own.{own};
ghost use Rattle.weedle_base.specs.OwnLaws.{own_lawful};
ghost use Rattle.weedle_grammar.specs.written.Table.Definitions.{
  CALLBACK_INTERFACE_DEFINITION,
  INTERFACE_DEFINITION,
  PARTIAL_INTERFACE_DEFINITION,
};
ghost use Rattle.weedle_interfaces.specs.written.Trees.{
  callback_interface_definition_tree,
  interface_definition_tree,
  partial_interface_definition_tree,
};

use super::{CallbackInterfaceDefinition, InterfaceDefinition, PartialInterfaceDefinition};
use crate::InterfaceMembers;
use crate::members::copy_interface_members;
use std::alloc::{AllocError, Global};
use weedle_base::term::{Callback, Interface, Partial, SemiColon};
use weedle_base::{IResult, Parse, TryClone};
use weedle_parts::common::{Braced, Docstring, Identifier};
use weedle_parts::inheritance::Inheritance;
use weedle_types::attribute::ExtendedAttributeList;
use weedle_types::copies::{copy_attributes, copy_docstring};
use weedle_types::fields::{
    attributes_and_five, docstring_attributes_and_five, docstring_attributes_and_six,
};

#[tactic(auto, using(crate::proofs::written::DefinitionRules::callback_interface_definition_steps))]
impl<'a> Parse<'a> for CallbackInterfaceDefinition<'a> {
    ghost reading = { own CALLBACK_INTERFACE_DEFINITION callback_interface_definition_tree
        (Unit {0}) };

    fn parse(alloc: Global, input: &'a str) -> IResult<&'a str, Self> {
        match docstring_attributes_and_six(alloc, input) {
            Ok(
                (
                    rest,
                    (
                        docstring,
                        attributes,
                        callback,
                        interface,
                        identifier,
                        inheritance,
                        members,
                        semi_colon,
                    ),
                ),
            ) => Ok((
                rest,
                CallbackInterfaceDefinition {
                    docstring,
                    attributes,
                    callback,
                    interface,
                    identifier,
                    inheritance,
                    members,
                    semi_colon,
                },
            )),
            Err(error) => Err(error),
        }
    }

    ghost lawful = { own_lawful CALLBACK_INTERFACE_DEFINITION callback_interface_definition_tree
        (Unit {0}) };
}

impl TryClone for CallbackInterfaceDefinition<'_> {
    ghost alike = { λ a b. callback_interface_definition_tree a
        ≡ callback_interface_definition_tree b };

    fn try_clone(&self, alloc: Global) -> Result<Self, AllocError> {
        Ok(CallbackInterfaceDefinition {
            docstring: copy_docstring(&self.docstring, alloc)?,
            attributes: copy_attributes(&self.attributes, alloc)?,
            callback: self.callback,
            interface: self.interface,
            identifier: self.identifier,
            inheritance: self.inheritance,
            members: copy_interface_members(&self.members, alloc)?,
            semi_colon: self.semi_colon,
        })
    }

    ghost equivalence = { seen_equivalence callback_interface_definition_tree equal_equivalence };
}

impl<'a> CallbackInterfaceDefinition<'a> {
    /// Its fields, in order: `docstring`, `attributes`, `callback`, `interface`, `identifier`,
    /// `inheritance`, `members` and `semi_colon`.
    pub fn into_fields(
        self,
    ) -> (
        Option<Docstring>,
        Option<ExtendedAttributeList<'a>>,
        Callback,
        Interface,
        Identifier<'a>,
        Option<Inheritance<'a>>,
        Braced<InterfaceMembers<'a>>,
        SemiColon,
    )
        ensures { result ≡ (
          self.entry.docstring,
          self.entry.attributes,
          self.entry.callback,
          self.entry.interface,
          self.entry.identifier,
          self.entry.inheritance,
          self.entry.members,
          self.entry.semi_colon,
        ) }
    {
        let CallbackInterfaceDefinition {
            docstring,
            attributes,
            callback,
            interface,
            identifier,
            inheritance,
            members,
            semi_colon,
        } = self;
        (
            docstring,
            attributes,
            callback,
            interface,
            identifier,
            inheritance,
            members,
            semi_colon,
        )
    }
}

#[tactic(auto, using(crate::proofs::written::DefinitionRules::interface_definition_steps))]
impl<'a> Parse<'a> for InterfaceDefinition<'a> {
    ghost reading = { own INTERFACE_DEFINITION interface_definition_tree (Unit {0}) };

    fn parse(alloc: Global, input: &'a str) -> IResult<&'a str, Self> {
        match docstring_attributes_and_five(alloc, input) {
            Ok(
                (
                    rest,
                    (
                        docstring,
                        attributes,
                        interface,
                        identifier,
                        inheritance,
                        members,
                        semi_colon,
                    ),
                ),
            ) => Ok((
                rest,
                InterfaceDefinition {
                    docstring,
                    attributes,
                    interface,
                    identifier,
                    inheritance,
                    members,
                    semi_colon,
                },
            )),
            Err(error) => Err(error),
        }
    }

    ghost lawful = { own_lawful INTERFACE_DEFINITION interface_definition_tree (Unit {0}) };
}

impl TryClone for InterfaceDefinition<'_> {
    ghost alike = { λ a b. interface_definition_tree a ≡ interface_definition_tree b };

    fn try_clone(&self, alloc: Global) -> Result<Self, AllocError> {
        Ok(InterfaceDefinition {
            docstring: copy_docstring(&self.docstring, alloc)?,
            attributes: copy_attributes(&self.attributes, alloc)?,
            interface: self.interface,
            identifier: self.identifier,
            inheritance: self.inheritance,
            members: copy_interface_members(&self.members, alloc)?,
            semi_colon: self.semi_colon,
        })
    }

    ghost equivalence = { seen_equivalence interface_definition_tree equal_equivalence };
}

impl<'a> InterfaceDefinition<'a> {
    /// Its fields, in order: `docstring`, `attributes`, `interface`, `identifier`, `inheritance`,
    /// `members` and `semi_colon`.
    pub fn into_fields(
        self,
    ) -> (
        Option<Docstring>,
        Option<ExtendedAttributeList<'a>>,
        Interface,
        Identifier<'a>,
        Option<Inheritance<'a>>,
        Braced<InterfaceMembers<'a>>,
        SemiColon,
    )
        ensures { result ≡ (
          self.entry.docstring,
          self.entry.attributes,
          self.entry.interface,
          self.entry.identifier,
          self.entry.inheritance,
          self.entry.members,
          self.entry.semi_colon,
        ) }
    {
        let InterfaceDefinition {
            docstring,
            attributes,
            interface,
            identifier,
            inheritance,
            members,
            semi_colon,
        } = self;
        (
            docstring,
            attributes,
            interface,
            identifier,
            inheritance,
            members,
            semi_colon,
        )
    }
}

#[tactic(auto, using(crate::proofs::written::DefinitionRules::partial_interface_definition_steps))]
impl<'a> Parse<'a> for PartialInterfaceDefinition<'a> {
    ghost reading = { own PARTIAL_INTERFACE_DEFINITION partial_interface_definition_tree
        (Unit {0}) };

    fn parse(alloc: Global, input: &'a str) -> IResult<&'a str, Self> {
        match attributes_and_five(alloc, input) {
            Ok((rest, (attributes, partial, interface, identifier, members, semi_colon))) => Ok((
                rest,
                PartialInterfaceDefinition {
                    attributes,
                    partial,
                    interface,
                    identifier,
                    members,
                    semi_colon,
                },
            )),
            Err(error) => Err(error),
        }
    }

    ghost lawful = { own_lawful PARTIAL_INTERFACE_DEFINITION partial_interface_definition_tree
        (Unit {0}) };
}

impl TryClone for PartialInterfaceDefinition<'_> {
    ghost alike = { λ a b. partial_interface_definition_tree a
        ≡ partial_interface_definition_tree b };

    fn try_clone(&self, alloc: Global) -> Result<Self, AllocError> {
        Ok(PartialInterfaceDefinition {
            attributes: copy_attributes(&self.attributes, alloc)?,
            partial: self.partial,
            interface: self.interface,
            identifier: self.identifier,
            members: copy_interface_members(&self.members, alloc)?,
            semi_colon: self.semi_colon,
        })
    }

    ghost equivalence = { seen_equivalence partial_interface_definition_tree equal_equivalence };
}

impl<'a> PartialInterfaceDefinition<'a> {
    /// Its fields, in order: `attributes`, `partial`, `interface`, `identifier`, `members` and
    /// `semi_colon`.
    pub fn into_fields(
        self,
    ) -> (
        Option<ExtendedAttributeList<'a>>,
        Partial,
        Interface,
        Identifier<'a>,
        Braced<InterfaceMembers<'a>>,
        SemiColon,
    )
        ensures { result ≡ (
          self.entry.attributes,
          self.entry.partial,
          self.entry.interface,
          self.entry.identifier,
          self.entry.members,
          self.entry.semi_colon,
        ) }
    {
        let PartialInterfaceDefinition {
            attributes,
            partial,
            interface,
            identifier,
            members,
            semi_colon,
        } = self;
        (
            attributes, partial, interface, identifier, members, semi_colon,
        )
    }
}
