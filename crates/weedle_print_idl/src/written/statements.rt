//! How definitions without members are rendered.
//!
//! Written by tools/prints.py, and not edited by hand.

ghost use Rattle.weedle_spell_idl.specs.written.Statements.{
  callback_definition_spelling,
  enum_definition_spelling,
  enum_variant_spelling,
  implements_definition_spelling,
  includes_statement_definition_spelling,
  typedef_definition_spelling,
};

use crate::part::{Attributes, IdlPart};
use crate::write::WriteIdl;
use weedle_base::term::{Assign, Callback, Comma, Enum, Implements, Includes, SemiColon, Typedef};
use weedle_parts::common::{Braced, Docstring, Identifier, PunctuatedNonEmpty};
use weedle_parts::literal::StringLit;
use weedle_print::fields::{five, seven, six, two};
use weedle_print::{Held, Layout, PrintError};
use weedle_statements::{
    CallbackDefinition, EnumDefinition, EnumVariant, ImplementsDefinition,
    IncludesStatementDefinition, TypedefDefinition,
};
use weedle_types::argument::ParenthesizedArgumentList;
use weedle_types::types::{AttributedType, ReturnType};

impl<'a> WriteIdl for CallbackDefinition<'a> {
    ghost spelling = { callback_definition_spelling };

    fn write_part(&self, out: &mut String, layout: &mut Layout) -> Result<(), PrintError> {
        seven::<
            Attributes<'a>,
            Callback,
            Identifier<'a>,
            Assign,
            Held<ReturnType<'a>>,
            Held<ParenthesizedArgumentList<'a>>,
            SemiColon,
        >(
            out,
            layout,
            &self.attributes,
            &self.callback,
            &self.identifier,
            &self.assign,
            &self.return_type,
            &self.arguments,
            &self.semi_colon,
        )
    }
}

impl<'a> WriteIdl for EnumVariant<'a> {
    ghost spelling = { enum_variant_spelling };

    fn write_part(&self, out: &mut String, layout: &mut Layout) -> Result<(), PrintError> {
        two::<Option<Docstring>, StringLit<'a>>(out, layout, &self.docstring, &self.value)
    }
}

impl<'a> WriteIdl for EnumDefinition<'a> {
    ghost spelling = { enum_definition_spelling };

    fn write_part(&self, out: &mut String, layout: &mut Layout) -> Result<(), PrintError> {
        six::<
            Option<Docstring>,
            Attributes<'a>,
            Enum,
            Identifier<'a>,
            Braced<PunctuatedNonEmpty<IdlPart<EnumVariant<'a>>, Comma>>,
            SemiColon,
        >(
            out,
            layout,
            &self.docstring,
            &self.attributes,
            &self.enum_,
            &self.identifier,
            &self.values,
            &self.semi_colon,
        )
    }
}

impl<'a> WriteIdl for IncludesStatementDefinition<'a> {
    ghost spelling = { includes_statement_definition_spelling };

    fn write_part(&self, out: &mut String, layout: &mut Layout) -> Result<(), PrintError> {
        five::<Attributes<'a>, Identifier<'a>, Includes, Identifier<'a>, SemiColon>(
            out,
            layout,
            &self.attributes,
            &self.lhs_identifier,
            &self.includes,
            &self.rhs_identifier,
            &self.semi_colon,
        )
    }
}

impl<'a> WriteIdl for ImplementsDefinition<'a> {
    ghost spelling = { implements_definition_spelling };

    fn write_part(&self, out: &mut String, layout: &mut Layout) -> Result<(), PrintError> {
        five::<Attributes<'a>, Identifier<'a>, Implements, Identifier<'a>, SemiColon>(
            out,
            layout,
            &self.attributes,
            &self.lhs_identifier,
            &self.includes,
            &self.rhs_identifier,
            &self.semi_colon,
        )
    }
}

impl<'a> WriteIdl for TypedefDefinition<'a> {
    ghost spelling = { typedef_definition_spelling };

    fn write_part(&self, out: &mut String, layout: &mut Layout) -> Result<(), PrintError> {
        five::<Attributes<'a>, Typedef, Held<AttributedType<'a>>, Identifier<'a>, SemiColon>(
            out,
            layout,
            &self.attributes,
            &self.typedef,
            &self.type_,
            &self.identifier,
            &self.semi_colon,
        )
    }
}
