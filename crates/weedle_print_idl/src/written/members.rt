//! How constants, attributes, operations, constructors and stringifiers of interfaces are rendered,
//! and the members of mixins.
//!
//! Written by tools/prints.py, and not edited by hand.

ghost use Rattle.weedle_spell_idl.specs.written.Members.{
  attribute_interface_member_spelling,
  attribute_mixin_member_spelling,
  const_member_spelling,
  constructor_interface_member_spelling,
  mixin_member_spelling,
  operation_interface_member_spelling,
  operation_mixin_member_spelling,
  stringifier_member_spelling,
};

use crate::part::{Attributes, IdlPart};
use crate::write::WriteIdl;
use weedle_base::term::{Assign, Attribute, Const, Constructor, ReadOnly, SemiColon, Stringifier};
use weedle_members::{
    AttributeInterfaceMember, ConstMember, ConstructorInterfaceMember, OperationInterfaceMember,
    StringifierMember,
};
use weedle_mixins::mixin::{AttributeMixinMember, MixinMember, OperationMixinMember};
use weedle_parts::common::{Docstring, Identifier};
use weedle_parts::literal::ConstValue;
use weedle_parts::modifier::{Special, StringifierOrInheritOrStatic, StringifierOrStatic};
use weedle_parts::types::ConstType;
use weedle_print::fields::{eight, five, seven, six, three};
use weedle_print::{Held, Layout, PrintError};
use weedle_types::argument::ParenthesizedArgumentList;
use weedle_types::types::{AttributedType, ReturnType};

impl<'a> WriteIdl for AttributeInterfaceMember<'a> {
    ghost spelling = { attribute_interface_member_spelling };

    fn write_part(&self, out: &mut String, layout: &mut Layout) -> Result<(), PrintError> {
        seven::<
            Attributes<'a>,
            Option<IdlPart<StringifierOrInheritOrStatic>>,
            Option<ReadOnly>,
            Attribute,
            Held<AttributedType<'a>>,
            Identifier<'a>,
            SemiColon,
        >(
            out,
            layout,
            &self.attributes,
            &self.modifier,
            &self.readonly,
            &self.attribute,
            &self.type_,
            &self.identifier,
            &self.semi_colon,
        )
    }
}

impl<'a> WriteIdl for ConstMember<'a> {
    ghost spelling = { const_member_spelling };

    fn write_part(&self, out: &mut String, layout: &mut Layout) -> Result<(), PrintError> {
        seven::<
            Attributes<'a>,
            Const,
            ConstType<'a>,
            Identifier<'a>,
            Assign,
            ConstValue<'a>,
            SemiColon,
        >(
            out,
            layout,
            &self.attributes,
            &self.const_,
            &self.const_type,
            &self.identifier,
            &self.assign,
            &self.const_value,
            &self.semi_colon,
        )
    }
}

impl<'a> WriteIdl for ConstructorInterfaceMember<'a> {
    ghost spelling = { constructor_interface_member_spelling };

    fn write_part(&self, out: &mut String, layout: &mut Layout) -> Result<(), PrintError> {
        five::<
            Option<Docstring>,
            Attributes<'a>,
            Constructor,
            Held<ParenthesizedArgumentList<'a>>,
            SemiColon,
        >(
            out,
            layout,
            &self.docstring,
            &self.attributes,
            &self.constructor,
            &self.args,
            &self.semi_colon,
        )
    }
}

impl<'a> WriteIdl for OperationInterfaceMember<'a> {
    ghost spelling = { operation_interface_member_spelling };

    fn write_part(&self, out: &mut String, layout: &mut Layout) -> Result<(), PrintError> {
        eight::<
            Option<Docstring>,
            Attributes<'a>,
            Option<IdlPart<StringifierOrStatic>>,
            Option<IdlPart<Special>>,
            Held<ReturnType<'a>>,
            Option<Identifier<'a>>,
            Held<ParenthesizedArgumentList<'a>>,
            SemiColon,
        >(
            out,
            layout,
            &self.docstring,
            &self.attributes,
            &self.modifier,
            &self.special,
            &self.return_type,
            &self.identifier,
            &self.args,
            &self.semi_colon,
        )
    }
}

impl<'a> WriteIdl for StringifierMember<'a> {
    ghost spelling = { stringifier_member_spelling };

    fn write_part(&self, out: &mut String, layout: &mut Layout) -> Result<(), PrintError> {
        three::<Attributes<'a>, Stringifier, SemiColon>(
            out,
            layout,
            &self.attributes,
            &self.stringifier,
            &self.semi_colon,
        )
    }
}

impl<'a> WriteIdl for OperationMixinMember<'a> {
    ghost spelling = { operation_mixin_member_spelling };

    fn write_part(&self, out: &mut String, layout: &mut Layout) -> Result<(), PrintError> {
        six::<
            Attributes<'a>,
            Option<Stringifier>,
            Held<ReturnType<'a>>,
            Option<Identifier<'a>>,
            Held<ParenthesizedArgumentList<'a>>,
            SemiColon,
        >(
            out,
            layout,
            &self.attributes,
            &self.stringifier,
            &self.return_type,
            &self.identifier,
            &self.args,
            &self.semi_colon,
        )
    }
}

impl<'a> WriteIdl for AttributeMixinMember<'a> {
    ghost spelling = { attribute_mixin_member_spelling };

    fn write_part(&self, out: &mut String, layout: &mut Layout) -> Result<(), PrintError> {
        seven::<
            Attributes<'a>,
            Option<Stringifier>,
            Option<ReadOnly>,
            Attribute,
            Held<AttributedType<'a>>,
            Identifier<'a>,
            SemiColon,
        >(
            out,
            layout,
            &self.attributes,
            &self.stringifier,
            &self.readonly,
            &self.attribute,
            &self.type_,
            &self.identifier,
            &self.semi_colon,
        )
    }
}

impl<'a> WriteIdl for MixinMember<'a> {
    ghost spelling = { mixin_member_spelling };

    fn write_part(&self, out: &mut String, layout: &mut Layout) -> Result<(), PrintError> {
        match self {
            MixinMember::Const(value) => value.write_part(out, layout),
            MixinMember::Operation(value) => value.write_part(out, layout),
            MixinMember::Attribute(value) => value.write_part(out, layout),
            MixinMember::Stringifier(value) => value.write_part(out, layout),
        }
    }
}
