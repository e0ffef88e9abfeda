//! What follows from the declarations of the module above.
//!
//! Written by tools/impls.py, and not edited by hand.

ghost use Rattle.std.specs.Prelude.{◌≡◌};
ghost use Rattle.weedle_base.specs.AlikeLaws.{equal_equivalence, seen_equivalence};
ghost use Rattle.weedle_base.specs.Own.{own};
ghost use Rattle.weedle_base.specs.OwnLaws.{own_lawful};
ghost use Rattle.weedle_grammar.specs.written.Table.Definitions.{CALLBACK_DEFINITION};
ghost use Rattle.weedle_statements.specs.written.Trees.{callback_definition_tree};

use super::CallbackDefinition;
use std::alloc::{AllocError, Global};
use weedle_base::term::{Assign, Callback, SemiColon};
use weedle_base::{IResult, Parse, TryClone};
use weedle_parts::common::Identifier;
use weedle_types::argument::ParenthesizedArgumentList;
use weedle_types::attribute::ExtendedAttributeList;
use weedle_types::copies::copy_attributes;
use weedle_types::fields::attributes_and_six;
use weedle_types::types::ReturnType;

#[tactic(auto, using(crate::proofs::written::CallbackRules::callback_definition_steps))]
impl<'a> Parse<'a> for CallbackDefinition<'a> {
    ghost reading = { own CALLBACK_DEFINITION callback_definition_tree (Unit {0}) };

    fn parse(alloc: Global, input: &'a str) -> IResult<&'a str, Self> {
        match attributes_and_six(alloc, input) {
            Ok(
                (
                    rest,
                    (attributes, callback, identifier, assign, return_type, arguments, semi_colon),
                ),
            ) => Ok((
                rest,
                CallbackDefinition {
                    attributes,
                    callback,
                    identifier,
                    assign,
                    return_type,
                    arguments,
                    semi_colon,
                },
            )),
            Err(error) => Err(error),
        }
    }

    ghost lawful = { own_lawful CALLBACK_DEFINITION callback_definition_tree (Unit {0}) };
}

impl TryClone for CallbackDefinition<'_> {
    ghost alike = { λ a b. callback_definition_tree a ≡ callback_definition_tree b };

    fn try_clone(&self, alloc: Global) -> Result<Self, AllocError> {
        Ok(CallbackDefinition {
            attributes: copy_attributes(&self.attributes, alloc)?,
            callback: self.callback,
            identifier: self.identifier,
            assign: self.assign,
            return_type: self.return_type.try_clone(alloc)?,
            arguments: self.arguments.try_clone(alloc)?,
            semi_colon: self.semi_colon,
        })
    }

    ghost equivalence = { seen_equivalence callback_definition_tree equal_equivalence };
}

impl<'a> CallbackDefinition<'a> {
    /// Its fields, in order: `attributes`, `callback`, `identifier`, `assign`, `return_type`,
    /// `arguments` and `semi_colon`.
    pub fn into_fields(
        self,
    ) -> (
        Option<ExtendedAttributeList<'a>>,
        Callback,
        Identifier<'a>,
        Assign,
        ReturnType<'a>,
        ParenthesizedArgumentList<'a>,
        SemiColon,
    )
        ensures { result ≡ (
          self.entry.attributes,
          self.entry.callback,
          self.entry.identifier,
          self.entry.assign,
          self.entry.return_type,
          self.entry.arguments,
          self.entry.semi_colon,
        ) }
    {
        let CallbackDefinition {
            attributes,
            callback,
            identifier,
            assign,
            return_type,
            arguments,
            semi_colon,
        } = self;
        (
            attributes,
            callback,
            identifier,
            assign,
            return_type,
            arguments,
            semi_colon,
        )
    }
}
