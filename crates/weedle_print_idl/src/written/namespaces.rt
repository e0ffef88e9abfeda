//! How namespaces and dictionaries are rendered, and their members.
//!
//! Written by tools/prints.py, and not edited by hand.

ghost use Rattle.weedle_spell_idl.specs.written.Namespaces.{
  attribute_namespace_member_spelling,
  dictionary_definition_spelling,
  dictionary_member_spelling,
  namespace_definition_spelling,
  namespace_member_spelling,
  operation_namespace_member_spelling,
  partial_dictionary_definition_spelling,
  partial_namespace_definition_spelling,
};

use crate::part::{Attributes, IdlPart};
use crate::write::WriteIdl;
use weedle_base::term::{Attribute, Dictionary, Namespace, Partial, ReadOnly, Required, SemiColon};
use weedle_namespaces::dictionary::DictionaryMember;
use weedle_namespaces::namespace::{
    AttributeNamespaceMember, NamespaceMember, OperationNamespaceMember,
};
use weedle_namespaces::{
    DictionaryDefinition, NamespaceDefinition, PartialDictionaryDefinition,
    PartialNamespaceDefinition,
};
use weedle_parts::common::{Braced, Docstring, Identifier};
use weedle_parts::inheritance::Inheritance;
use weedle_parts::literal::Default;
use weedle_print::fields::{seven, six};
use weedle_print::{Held, Layout, PrintError};
use weedle_types::argument::ParenthesizedArgumentList;
use weedle_types::types::{AttributedType, ReturnType, Type};

impl<'a> WriteIdl for DictionaryMember<'a> {
    ghost spelling = { dictionary_member_spelling };

    fn write_part(&self, out: &mut String, layout: &mut Layout) -> Result<(), PrintError> {
        seven::<
            Option<Docstring>,
            Attributes<'a>,
            Option<Required>,
            Held<Type<'a>>,
            Identifier<'a>,
            Option<Default<'a>>,
            SemiColon,
        >(
            out,
            layout,
            &self.docstring,
            &self.attributes,
            &self.required,
            &self.type_,
            &self.identifier,
            &self.default,
            &self.semi_colon,
        )
    }
}

impl<'a> WriteIdl for DictionaryDefinition<'a> {
    ghost spelling = { dictionary_definition_spelling };

    fn write_part(&self, out: &mut String, layout: &mut Layout) -> Result<(), PrintError> {
        seven::<
            Option<Docstring>,
            Attributes<'a>,
            Dictionary,
            Identifier<'a>,
            Option<IdlPart<Inheritance<'a>>>,
            Braced<Vec<IdlPart<DictionaryMember<'a>>>>,
            SemiColon,
        >(
            out,
            layout,
            &self.docstring,
            &self.attributes,
            &self.dictionary,
            &self.identifier,
            &self.inheritance,
            &self.members,
            &self.semi_colon,
        )
    }
}

impl<'a> WriteIdl for PartialDictionaryDefinition<'a> {
    ghost spelling = { partial_dictionary_definition_spelling };

    fn write_part(&self, out: &mut String, layout: &mut Layout) -> Result<(), PrintError> {
        six::<
            Attributes<'a>,
            Partial,
            Dictionary,
            Identifier<'a>,
            Braced<Vec<IdlPart<DictionaryMember<'a>>>>,
            SemiColon,
        >(
            out,
            layout,
            &self.attributes,
            &self.partial,
            &self.dictionary,
            &self.identifier,
            &self.members,
            &self.semi_colon,
        )
    }
}

impl<'a> WriteIdl for OperationNamespaceMember<'a> {
    ghost spelling = { operation_namespace_member_spelling };

    fn write_part(&self, out: &mut String, layout: &mut Layout) -> Result<(), PrintError> {
        six::<
            Option<Docstring>,
            Attributes<'a>,
            Held<ReturnType<'a>>,
            Option<Identifier<'a>>,
            Held<ParenthesizedArgumentList<'a>>,
            SemiColon,
        >(
            out,
            layout,
            &self.docstring,
            &self.attributes,
            &self.return_type,
            &self.identifier,
            &self.args,
            &self.semi_colon,
        )
    }
}

impl<'a> WriteIdl for AttributeNamespaceMember<'a> {
    ghost spelling = { attribute_namespace_member_spelling };

    fn write_part(&self, out: &mut String, layout: &mut Layout) -> Result<(), PrintError> {
        seven::<
            Option<Docstring>,
            Attributes<'a>,
            ReadOnly,
            Attribute,
            Held<AttributedType<'a>>,
            Identifier<'a>,
            SemiColon,
        >(
            out,
            layout,
            &self.docstring,
            &self.attributes,
            &self.readonly,
            &self.attribute,
            &self.type_,
            &self.identifier,
            &self.semi_colon,
        )
    }
}

impl<'a> WriteIdl for NamespaceMember<'a> {
    ghost spelling = { namespace_member_spelling };

    fn write_part(&self, out: &mut String, layout: &mut Layout) -> Result<(), PrintError> {
        match self {
            NamespaceMember::Operation(value) => value.write_part(out, layout),
            NamespaceMember::Attribute(value) => value.write_part(out, layout),
        }
    }
}

impl<'a> WriteIdl for NamespaceDefinition<'a> {
    ghost spelling = { namespace_definition_spelling };

    fn write_part(&self, out: &mut String, layout: &mut Layout) -> Result<(), PrintError> {
        six::<
            Option<Docstring>,
            Attributes<'a>,
            Namespace,
            Identifier<'a>,
            Braced<Vec<IdlPart<NamespaceMember<'a>>>>,
            SemiColon,
        >(
            out,
            layout,
            &self.docstring,
            &self.attributes,
            &self.namespace,
            &self.identifier,
            &self.members,
            &self.semi_colon,
        )
    }
}

impl<'a> WriteIdl for PartialNamespaceDefinition<'a> {
    ghost spelling = { partial_namespace_definition_spelling };

    fn write_part(&self, out: &mut String, layout: &mut Layout) -> Result<(), PrintError> {
        six::<
            Attributes<'a>,
            Partial,
            Namespace,
            Identifier<'a>,
            Braced<Vec<IdlPart<NamespaceMember<'a>>>>,
            SemiColon,
        >(
            out,
            layout,
            &self.attributes,
            &self.partial,
            &self.namespace,
            &self.identifier,
            &self.members,
            &self.semi_colon,
        )
    }
}
