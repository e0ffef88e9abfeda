//! How arguments and extended attributes are written.

ghost use Rattle.weedle_spell.specs.RecursiveTypes.{
  argument_spelling,
  extended_attribute_spelling,
};
ghost use Rattle.weedle_spell.specs.written.Arguments.{
  arguments_spelling,
  extended_attribute_arg_list_spelling,
  extended_attribute_list_spelling,
  extended_attribute_named_arg_list_spelling,
  single_argument_spelling,
  variadic_argument_spelling,
};
ghost use Rattle.weedle_spell.specs.written.PlainAttributes.{
  extended_attribute_ident_list_spelling,
  extended_attribute_ident_spelling,
  extended_attribute_no_args_spelling,
  identifier_list_spelling,
  identifier_or_string_spelling,
};

use crate::error::PrintError;
use crate::group::arguments::{
    print_argument, print_arguments, print_single_argument, print_variadic_argument,
};
use crate::group::attributes::{
    print_arg_list, print_attribute_list, print_extended_attribute, print_named_arg_list,
};
use crate::held::Held;
use crate::layout::Layout;
use crate::plain_attributes::{
    print_ident, print_ident_list, print_identifier_list, print_identifier_or_string,
};
use crate::print::Print;
use weedle_parts::common::Identifier;
use weedle_types::argument::{
    Argument, ParenthesizedArgumentList, SingleArgument, VariadicArgument,
};
use weedle_types::attribute::{
    ExtendedAttribute, ExtendedAttributeArgList, ExtendedAttributeIdent,
    ExtendedAttributeIdentList, ExtendedAttributeList, ExtendedAttributeNamedArgList,
    ExtendedAttributeNoArgs, IdentifierList, IdentifierOrString,
};

impl<'a> Print for Held<Argument<'a>> {
    type Value = Argument<'a>;

    ghost spelling = { argument_spelling };

    fn print(
        value: &Argument<'a>,
        out: &mut String,
        layout: &mut Layout,
    ) -> Result<(), PrintError> {
        print_argument(value, out, layout)
    }
}

impl<'a> Print for Held<SingleArgument<'a>> {
    type Value = SingleArgument<'a>;

    ghost spelling = { single_argument_spelling };

    fn print(
        value: &SingleArgument<'a>,
        out: &mut String,
        layout: &mut Layout,
    ) -> Result<(), PrintError> {
        print_single_argument(value, out, layout)
    }
}

impl<'a> Print for Held<VariadicArgument<'a>> {
    type Value = VariadicArgument<'a>;

    ghost spelling = { variadic_argument_spelling };

    fn print(
        value: &VariadicArgument<'a>,
        out: &mut String,
        layout: &mut Layout,
    ) -> Result<(), PrintError> {
        print_variadic_argument(value, out, layout)
    }
}

impl<'a> Print for Held<ParenthesizedArgumentList<'a>> {
    type Value = ParenthesizedArgumentList<'a>;

    ghost spelling = { arguments_spelling };

    fn print(
        value: &ParenthesizedArgumentList<'a>,
        out: &mut String,
        layout: &mut Layout,
    ) -> Result<(), PrintError> {
        layout.end_head();
        print_arguments(value, out, layout)
    }
}

impl<'a> Print for Held<ExtendedAttribute<'a>> {
    type Value = ExtendedAttribute<'a>;

    ghost spelling = { extended_attribute_spelling };

    fn print(
        value: &ExtendedAttribute<'a>,
        out: &mut String,
        layout: &mut Layout,
    ) -> Result<(), PrintError> {
        print_extended_attribute(value, out, layout)
    }
}

impl<'a> Print for Held<ExtendedAttributeArgList<'a>> {
    type Value = ExtendedAttributeArgList<'a>;

    ghost spelling = { extended_attribute_arg_list_spelling };

    fn print(
        value: &ExtendedAttributeArgList<'a>,
        out: &mut String,
        layout: &mut Layout,
    ) -> Result<(), PrintError> {
        print_arg_list(value, out, layout)
    }
}

impl<'a> Print for Held<ExtendedAttributeNamedArgList<'a>> {
    type Value = ExtendedAttributeNamedArgList<'a>;

    ghost spelling = { extended_attribute_named_arg_list_spelling };

    fn print(
        value: &ExtendedAttributeNamedArgList<'a>,
        out: &mut String,
        layout: &mut Layout,
    ) -> Result<(), PrintError> {
        print_named_arg_list(value, out, layout)
    }
}

impl<'a> Print for Held<ExtendedAttributeIdentList<'a>> {
    type Value = ExtendedAttributeIdentList<'a>;

    ghost spelling = { extended_attribute_ident_list_spelling };

    fn print(
        value: &ExtendedAttributeIdentList<'a>,
        out: &mut String,
        layout: &mut Layout,
    ) -> Result<(), PrintError> {
        print_ident_list(value, out, layout)
    }
}

impl<'a> Print for Held<ExtendedAttributeIdent<'a>> {
    type Value = ExtendedAttributeIdent<'a>;

    ghost spelling = { extended_attribute_ident_spelling };

    fn print(
        value: &ExtendedAttributeIdent<'a>,
        out: &mut String,
        layout: &mut Layout,
    ) -> Result<(), PrintError> {
        print_ident(value, out, layout)
    }
}

impl<'a> Print for Held<IdentifierOrString<'a>> {
    type Value = IdentifierOrString<'a>;

    ghost spelling = { identifier_or_string_spelling };

    fn print(
        value: &IdentifierOrString<'a>,
        out: &mut String,
        layout: &mut Layout,
    ) -> Result<(), PrintError> {
        print_identifier_or_string(value, out, layout)
    }
}

impl<'a> Print for Held<IdentifierList<'a>> {
    type Value = IdentifierList<'a>;

    ghost spelling = { identifier_list_spelling };

    fn print(
        value: &IdentifierList<'a>,
        out: &mut String,
        layout: &mut Layout,
    ) -> Result<(), PrintError> {
        print_identifier_list(value, out, layout)
    }
}

impl<'a> Print for Held<ExtendedAttributeNoArgs<'a>> {
    type Value = ExtendedAttributeNoArgs<'a>;

    ghost spelling = { extended_attribute_no_args_spelling };

    fn print(
        value: &ExtendedAttributeNoArgs<'a>,
        out: &mut String,
        layout: &mut Layout,
    ) -> Result<(), PrintError> {
        Identifier::print(&value.0, out, layout)
    }
}

/// Extended attributes in front of a definition or a member. Behind more than 40 characters of them
/// a line begins.
impl<'a> Print for Held<ExtendedAttributeList<'a>> {
    type Value = ExtendedAttributeList<'a>;

    ghost spelling = { extended_attribute_list_spelling };

    fn print(
        value: &ExtendedAttributeList<'a>,
        out: &mut String,
        layout: &mut Layout,
    ) -> Result<(), PrintError> {
        print_attribute_list(value, out, layout)?;
        layout.end_attributes();
        Ok(())
    }
}
