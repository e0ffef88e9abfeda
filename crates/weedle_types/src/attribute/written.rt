//! What follows from the declarations of the module above.
//!
//! Written by tools/impls.py, and not edited by hand.

ghost use Rattle.std.specs.Prelude.{◌≡◌};

use super::{
    ExtendedAttribute, ExtendedAttributeArgList, ExtendedAttributeIdent,
    ExtendedAttributeIdentList, ExtendedAttributeNamedArgList, ExtendedAttributeNoArgs,
    IdentifierOrString,
};
use weedle_parts::common::Identifier;
use weedle_parts::literal::StringLit;

impl<'a> From<ExtendedAttributeArgList<'a>> for ExtendedAttribute<'a> {
    ghost use Rattle.weedle_types.specs.declared.attribute.ExtendedAttribute.TheVariants.{ArgList};

    ghost from_gives = { λ v e. e ≡ ArgList v };

    fn from(value: ExtendedAttributeArgList<'a>) -> Self {
        ExtendedAttribute::ArgList(value)
    }
}

impl<'a> From<ExtendedAttributeNamedArgList<'a>> for ExtendedAttribute<'a> {
    ghost use Rattle.weedle_types.specs.declared.attribute.ExtendedAttribute.TheVariants.{
      NamedArgList,
    };

    ghost from_gives = { λ v e. e ≡ NamedArgList v };

    fn from(value: ExtendedAttributeNamedArgList<'a>) -> Self {
        ExtendedAttribute::NamedArgList(value)
    }
}

impl<'a> From<ExtendedAttributeIdentList<'a>> for ExtendedAttribute<'a> {
    ghost use Rattle.weedle_types.specs.declared.attribute.ExtendedAttribute.TheVariants.{
      IdentList,
    };

    ghost from_gives = { λ v e. e ≡ IdentList v };

    fn from(value: ExtendedAttributeIdentList<'a>) -> Self {
        ExtendedAttribute::IdentList(value)
    }
}

impl<'a> From<ExtendedAttributeIdent<'a>> for ExtendedAttribute<'a> {
    ghost use Rattle.weedle_types.specs.declared.attribute.ExtendedAttribute.TheVariants.{Ident};

    ghost from_gives = { λ v e. e ≡ Ident v };

    fn from(value: ExtendedAttributeIdent<'a>) -> Self {
        ExtendedAttribute::Ident(value)
    }
}

impl<'a> From<ExtendedAttributeNoArgs<'a>> for ExtendedAttribute<'a> {
    ghost use Rattle.weedle_types.specs.declared.attribute.ExtendedAttribute.TheVariants.{NoArgs};

    ghost from_gives = { λ v e. e ≡ NoArgs v };

    fn from(value: ExtendedAttributeNoArgs<'a>) -> Self {
        ExtendedAttribute::NoArgs(value)
    }
}

impl<'a> From<Identifier<'a>> for IdentifierOrString<'a> {
    ghost use Rattle.weedle_types.specs.declared.attribute.IdentifierOrString.TheVariants.{
      Identifier,
    };

    ghost from_gives = { λ v e. e ≡ Identifier v };

    fn from(value: Identifier<'a>) -> Self {
        IdentifierOrString::Identifier(value)
    }
}

impl<'a> From<StringLit<'a>> for IdentifierOrString<'a> {
    ghost use Rattle.weedle_types.specs.declared.attribute.IdentifierOrString.TheVariants.{String};

    ghost from_gives = { λ v e. e ≡ String v };

    fn from(value: StringLit<'a>) -> Self {
        IdentifierOrString::String(value)
    }
}
