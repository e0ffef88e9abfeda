//! What follows from the declarations of the module above.
//!
//! Written by tools/impls.py, and not edited by hand.

ghost use Rattle.std.specs.Prelude.{◌≡◌};
ghost use Rattle.weedle_base.specs.AlikeLaws.{equal_equivalence, seen_equivalence};
ghost use Rattle.weedle_base.specs.Own.{own};
ghost use Rattle.weedle_base.specs.OwnLaws.{own_lawful};
ghost use Rattle.weedle_grammar.specs.written.Table.Definitions.{
  NAMESPACE_DEFINITION,
  PARTIAL_NAMESPACE_DEFINITION,
};
ghost use Rattle.weedle_namespaces.specs.written.Trees.{
  namespace_definition_tree,
  partial_namespace_definition_tree,
};

use super::{NamespaceDefinition, PartialNamespaceDefinition};
use crate::copies::copy_namespace_members;
use crate::namespace::NamespaceMembers;
use std::alloc::{AllocError, Global};
use weedle_base::term::{Namespace, Partial, SemiColon};
use weedle_base::{IResult, Parse, TryClone};
use weedle_parts::common::{Braced, Docstring, Identifier};
use weedle_types::attribute::ExtendedAttributeList;
use weedle_types::copies::{copy_attributes, copy_docstring};
use weedle_types::fields::{attributes_and_five, docstring_attributes_and_four};

#[tactic(auto, using(crate::proofs::written::NamespaceDefinitionRules::namespace_definition_steps))]
impl<'a> Parse<'a> for NamespaceDefinition<'a> {
    ghost reading = { own NAMESPACE_DEFINITION namespace_definition_tree (Unit {0}) };

    fn parse(alloc: Global, input: &'a str) -> IResult<&'a str, Self> {
        match docstring_attributes_and_four(alloc, input) {
            Ok((rest, (docstring, attributes, namespace, identifier, members, semi_colon))) => Ok(
                (
                    rest,
                    NamespaceDefinition {
                        docstring,
                        attributes,
                        namespace,
                        identifier,
                        members,
                        semi_colon,
                    },
                ),
            ),
            Err(error) => Err(error),
        }
    }

    ghost lawful = { own_lawful NAMESPACE_DEFINITION namespace_definition_tree (Unit {0}) };
}

impl TryClone for NamespaceDefinition<'_> {
    ghost alike = { λ a b. namespace_definition_tree a ≡ namespace_definition_tree b };

    fn try_clone(&self, alloc: Global) -> Result<Self, AllocError> {
        Ok(NamespaceDefinition {
            docstring: copy_docstring(&self.docstring, alloc)?,
            attributes: copy_attributes(&self.attributes, alloc)?,
            namespace: self.namespace,
            identifier: self.identifier,
            members: copy_namespace_members(&self.members, alloc)?,
            semi_colon: self.semi_colon,
        })
    }

    ghost equivalence = { seen_equivalence namespace_definition_tree equal_equivalence };
}

impl<'a> NamespaceDefinition<'a> {
    /// Its fields, in order: `docstring`, `attributes`, `namespace`, `identifier`, `members` and
    /// `semi_colon`.
    pub fn into_fields(
        self,
    ) -> (
        Option<Docstring>,
        Option<ExtendedAttributeList<'a>>,
        Namespace,
        Identifier<'a>,
        Braced<NamespaceMembers<'a>>,
        SemiColon,
    )
        ensures { result ≡ (
          self.entry.docstring,
          self.entry.attributes,
          self.entry.namespace,
          self.entry.identifier,
          self.entry.members,
          self.entry.semi_colon,
        ) }
    {
        let NamespaceDefinition {
            docstring,
            attributes,
            namespace,
            identifier,
            members,
            semi_colon,
        } = self;
        (
            docstring, attributes, namespace, identifier, members, semi_colon,
        )
    }
}

#[tactic(auto, using(crate::proofs::written::NamespaceDefinitionRules::partial_namespace_definition_steps))]
impl<'a> Parse<'a> for PartialNamespaceDefinition<'a> {
    ghost reading = { own PARTIAL_NAMESPACE_DEFINITION partial_namespace_definition_tree
        (Unit {0}) };

    fn parse(alloc: Global, input: &'a str) -> IResult<&'a str, Self> {
        match attributes_and_five(alloc, input) {
            Ok((rest, (attributes, partial, namespace, identifier, members, semi_colon))) => Ok((
                rest,
                PartialNamespaceDefinition {
                    attributes,
                    partial,
                    namespace,
                    identifier,
                    members,
                    semi_colon,
                },
            )),
            Err(error) => Err(error),
        }
    }

    ghost lawful = { own_lawful PARTIAL_NAMESPACE_DEFINITION partial_namespace_definition_tree
        (Unit {0}) };
}

impl TryClone for PartialNamespaceDefinition<'_> {
    ghost alike = { λ a b. partial_namespace_definition_tree a
        ≡ partial_namespace_definition_tree b };

    fn try_clone(&self, alloc: Global) -> Result<Self, AllocError> {
        Ok(PartialNamespaceDefinition {
            attributes: copy_attributes(&self.attributes, alloc)?,
            partial: self.partial,
            namespace: self.namespace,
            identifier: self.identifier,
            members: copy_namespace_members(&self.members, alloc)?,
            semi_colon: self.semi_colon,
        })
    }

    ghost equivalence = { seen_equivalence partial_namespace_definition_tree equal_equivalence };
}

impl<'a> PartialNamespaceDefinition<'a> {
    /// Its fields, in order: `attributes`, `partial`, `namespace`, `identifier`, `members` and
    /// `semi_colon`.
    pub fn into_fields(
        self,
    ) -> (
        Option<ExtendedAttributeList<'a>>,
        Partial,
        Namespace,
        Identifier<'a>,
        Braced<NamespaceMembers<'a>>,
        SemiColon,
    )
        ensures { result ≡ (
          self.entry.attributes,
          self.entry.partial,
          self.entry.namespace,
          self.entry.identifier,
          self.entry.members,
          self.entry.semi_colon,
        ) }
    {
        let PartialNamespaceDefinition {
            attributes,
            partial,
            namespace,
            identifier,
            members,
            semi_colon,
        } = self;
        (
            attributes, partial, namespace, identifier, members, semi_colon,
        )
    }
}
