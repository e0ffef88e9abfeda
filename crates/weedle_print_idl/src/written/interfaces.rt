//! How the members of interfaces are rendered, interfaces and mixins.
//!
//! Written by tools/prints.py, and not edited by hand.

ghost use Rattle.weedle_spell_idl.specs.written.Interfaces.{
  callback_interface_definition_spelling,
  interface_definition_spelling,
  interface_member_spelling,
  interface_mixin_definition_spelling,
  partial_interface_definition_spelling,
  partial_interface_mixin_definition_spelling,
};

use crate::part::{Attributes, IdlPart};
use crate::write::WriteIdl;
use weedle_base::term::{Callback, Interface, Mixin, Partial, SemiColon};
use weedle_interfaces::{
    CallbackInterfaceDefinition, InterfaceDefinition, InterfaceMember, PartialInterfaceDefinition,
};
use weedle_mixins::mixin::MixinMember;
use weedle_mixins::{InterfaceMixinDefinition, PartialInterfaceMixinDefinition};
use weedle_parts::common::{Braced, Docstring, Identifier};
use weedle_parts::inheritance::Inheritance;
use weedle_print::fields::{eight, seven, six};
use weedle_print::{Layout, PrintError};

impl<'a> WriteIdl for InterfaceMember<'a> {
    ghost spelling = { interface_member_spelling };

    fn write_part(&self, out: &mut String, layout: &mut Layout) -> Result<(), PrintError> {
        match self {
            InterfaceMember::Const(value) => value.write_part(out, layout),
            InterfaceMember::Attribute(value) => value.write_part(out, layout),
            InterfaceMember::Constructor(value) => value.write_part(out, layout),
            InterfaceMember::Operation(value) => value.write_part(out, layout),
            InterfaceMember::Iterable(value) => value.write_part(out, layout),
            InterfaceMember::AsyncIterable(value) => value.write_part(out, layout),
            InterfaceMember::Maplike(value) => value.write_part(out, layout),
            InterfaceMember::Setlike(value) => value.write_part(out, layout),
            InterfaceMember::Stringifier(value) => value.write_part(out, layout),
        }
    }
}

impl<'a> WriteIdl for CallbackInterfaceDefinition<'a> {
    ghost spelling = { callback_interface_definition_spelling };

    fn write_part(&self, out: &mut String, layout: &mut Layout) -> Result<(), PrintError> {
        eight::<
            Option<Docstring>,
            Attributes<'a>,
            Callback,
            Interface,
            Identifier<'a>,
            Option<IdlPart<Inheritance<'a>>>,
            Braced<Vec<IdlPart<InterfaceMember<'a>>>>,
            SemiColon,
        >(
            out,
            layout,
            &self.docstring,
            &self.attributes,
            &self.callback,
            &self.interface,
            &self.identifier,
            &self.inheritance,
            &self.members,
            &self.semi_colon,
        )
    }
}

impl<'a> WriteIdl for InterfaceDefinition<'a> {
    ghost spelling = { interface_definition_spelling };

    fn write_part(&self, out: &mut String, layout: &mut Layout) -> Result<(), PrintError> {
        seven::<
            Option<Docstring>,
            Attributes<'a>,
            Interface,
            Identifier<'a>,
            Option<IdlPart<Inheritance<'a>>>,
            Braced<Vec<IdlPart<InterfaceMember<'a>>>>,
            SemiColon,
        >(
            out,
            layout,
            &self.docstring,
            &self.attributes,
            &self.interface,
            &self.identifier,
            &self.inheritance,
            &self.members,
            &self.semi_colon,
        )
    }
}

impl<'a> WriteIdl for PartialInterfaceDefinition<'a> {
    ghost spelling = { partial_interface_definition_spelling };

    fn write_part(&self, out: &mut String, layout: &mut Layout) -> Result<(), PrintError> {
        six::<
            Attributes<'a>,
            Partial,
            Interface,
            Identifier<'a>,
            Braced<Vec<IdlPart<InterfaceMember<'a>>>>,
            SemiColon,
        >(
            out,
            layout,
            &self.attributes,
            &self.partial,
            &self.interface,
            &self.identifier,
            &self.members,
            &self.semi_colon,
        )
    }
}

impl<'a> WriteIdl for InterfaceMixinDefinition<'a> {
    ghost spelling = { interface_mixin_definition_spelling };

    fn write_part(&self, out: &mut String, layout: &mut Layout) -> Result<(), PrintError> {
        six::<
            Attributes<'a>,
            Interface,
            Mixin,
            Identifier<'a>,
            Braced<Vec<IdlPart<MixinMember<'a>>>>,
            SemiColon,
        >(
            out,
            layout,
            &self.attributes,
            &self.interface,
            &self.mixin,
            &self.identifier,
            &self.members,
            &self.semi_colon,
        )
    }
}

impl<'a> WriteIdl for PartialInterfaceMixinDefinition<'a> {
    ghost spelling = { partial_interface_mixin_definition_spelling };

    fn write_part(&self, out: &mut String, layout: &mut Layout) -> Result<(), PrintError> {
        seven::<
            Attributes<'a>,
            Partial,
            Interface,
            Mixin,
            Identifier<'a>,
            Braced<Vec<IdlPart<MixinMember<'a>>>>,
            SemiColon,
        >(
            out,
            layout,
            &self.attributes,
            &self.partial,
            &self.interface,
            &self.mixin,
            &self.identifier,
            &self.members,
            &self.semi_colon,
        )
    }
}
