//! Orders of extended attributes and arguments.
//!
//! Written by tools/orders.py, and not edited by hand.

ghost use Rattle.std.specs.Prelude.{◌≡◌, ◌<◌};
ghost use Rattle.std.specs.Ordering.{ordering_then};
ghost use Rattle.weedle_comparisons.specs.written.Places.{
  argument_place,
  extended_attribute_place,
  identifier_or_string_place,
};

use std::cmp::Ordering;
use weedle_base::term::{Assign, CloseParen, Ellipsis, OpenParen, Optional};
use weedle_parts::common::{Identifier, Parenthesized};
use weedle_parts::literal::{Default, StringLit};
use weedle_types::argument::{
    Argument, ArgumentList, ParenthesizedArgumentList, SingleArgument, VariadicArgument,
};
use weedle_types::attribute::{
    ExtendedAttribute, ExtendedAttributeArgList, ExtendedAttributeIdent,
    ExtendedAttributeIdentList, ExtendedAttributeList, ExtendedAttributeNamedArgList,
    ExtendedAttributeNoArgs, IdentifierList, IdentifierOrString,
};
use weedle_types::types::{AttributedType, Type};

/// A law, which does nothing: `cmp` of `ParenthesizedArgumentList` goes by its fields, in order.
pub fn parenthesized_argument_list<'a>()
    ensures { (a b : ParenthesizedArgumentList)
        → ⟦<ParenthesizedArgumentList<'a> as Ord>⟧.cmp a b
        ≡ ordering_then (⟦<OpenParen as Ord>⟧.cmp a.open_paren b.open_paren)
        (ordering_then (⟦<ArgumentList<'a> as Ord>⟧.cmp a.body b.body)
        (⟦<CloseParen as Ord>⟧.cmp a.close_paren b.close_paren)) }
{}

/// A law, which does nothing: `cmp` of `Argument` goes by its variants, and of one variant by what
/// it holds.
pub fn argument<'a>()
    ensures earlier { (a b : Argument)
        → argument_place a < argument_place b
        → ⟦<Argument<'a> as Ord>⟧.cmp a b ≡ Ordering.Less }
    ensures later { (a b : Argument)
        → argument_place b < argument_place a
        → ⟦<Argument<'a> as Ord>⟧.cmp a b ≡ Ordering.Greater }
    ensures single { (a b : SingleArgument)
        → ⟦<Argument<'a> as Ord>⟧.cmp (Argument.Single a) (Argument.Single b)
        ≡ ⟦<SingleArgument<'a> as Ord>⟧.cmp a b }
    ensures variadic { (a b : VariadicArgument)
        → ⟦<Argument<'a> as Ord>⟧.cmp (Argument.Variadic a) (Argument.Variadic b)
        ≡ ⟦<VariadicArgument<'a> as Ord>⟧.cmp a b }
{}

/// A law, which does nothing: `cmp` of `SingleArgument` goes by its fields, in order.
pub fn single_argument<'a>()
    ensures { (a b : SingleArgument)
        → ⟦<SingleArgument<'a> as Ord>⟧.cmp a b
        ≡ ordering_then (⟦<Option<ExtendedAttributeList<'a>> as Ord>⟧.cmp a.attributes b.attributes)
        (ordering_then (⟦<Option<Optional> as Ord>⟧.cmp a.optional b.optional)
        (ordering_then (⟦<AttributedType<'a> as Ord>⟧.cmp a.type_ b.type_)
        (ordering_then (⟦<Identifier<'a> as Ord>⟧.cmp a.identifier b.identifier)
        (⟦<Option<Default<'a>> as Ord>⟧.cmp a.default b.default)))) }
{}

/// A law, which does nothing: `cmp` of `VariadicArgument` goes by its fields, in order.
pub fn variadic_argument<'a>()
    ensures { (a b : VariadicArgument)
        → ⟦<VariadicArgument<'a> as Ord>⟧.cmp a b
        ≡ ordering_then (⟦<Option<ExtendedAttributeList<'a>> as Ord>⟧.cmp a.attributes b.attributes)
        (ordering_then (⟦<Type<'a> as Ord>⟧.cmp a.type_ b.type_)
        (ordering_then (⟦<Ellipsis as Ord>⟧.cmp a.ellipsis b.ellipsis)
        (⟦<Identifier<'a> as Ord>⟧.cmp a.identifier b.identifier))) }
{}

/// A law, which does nothing: `cmp` of `ExtendedAttribute` goes by its variants, and of one variant
/// by what it holds.
pub fn extended_attribute<'a>()
    ensures earlier { (a b : ExtendedAttribute)
        → extended_attribute_place a < extended_attribute_place b
        → ⟦<ExtendedAttribute<'a> as Ord>⟧.cmp a b ≡ Ordering.Less }
    ensures later { (a b : ExtendedAttribute)
        → extended_attribute_place b < extended_attribute_place a
        → ⟦<ExtendedAttribute<'a> as Ord>⟧.cmp a b ≡ Ordering.Greater }
    ensures arg_list { (a b : ExtendedAttributeArgList)
        → ⟦<ExtendedAttribute<'a> as Ord>⟧.cmp (ExtendedAttribute.ArgList a)
        (ExtendedAttribute.ArgList b)
        ≡ ⟦<ExtendedAttributeArgList<'a> as Ord>⟧.cmp a b }
    ensures named_arg_list { (a b : ExtendedAttributeNamedArgList)
        → ⟦<ExtendedAttribute<'a> as Ord>⟧.cmp (ExtendedAttribute.NamedArgList a)
        (ExtendedAttribute.NamedArgList b)
        ≡ ⟦<ExtendedAttributeNamedArgList<'a> as Ord>⟧.cmp a b }
    ensures ident_list { (a b : ExtendedAttributeIdentList)
        → ⟦<ExtendedAttribute<'a> as Ord>⟧.cmp (ExtendedAttribute.IdentList a)
        (ExtendedAttribute.IdentList b)
        ≡ ⟦<ExtendedAttributeIdentList<'a> as Ord>⟧.cmp a b }
    ensures ident { (a b : ExtendedAttributeIdent)
        → ⟦<ExtendedAttribute<'a> as Ord>⟧.cmp (ExtendedAttribute.Ident a)
        (ExtendedAttribute.Ident b)
        ≡ ⟦<ExtendedAttributeIdent<'a> as Ord>⟧.cmp a b }
    ensures no_args { (a b : ExtendedAttributeNoArgs)
        → ⟦<ExtendedAttribute<'a> as Ord>⟧.cmp (ExtendedAttribute.NoArgs a)
        (ExtendedAttribute.NoArgs b)
        ≡ ⟦<ExtendedAttributeNoArgs<'a> as Ord>⟧.cmp a b }
{}

/// A law, which does nothing: `cmp` of `ExtendedAttributeArgList` goes by its fields, in order.
pub fn extended_attribute_arg_list<'a>()
    ensures { (a b : ExtendedAttributeArgList)
        → ⟦<ExtendedAttributeArgList<'a> as Ord>⟧.cmp a b
        ≡ ordering_then (⟦<Identifier<'a> as Ord>⟧.cmp a.identifier b.identifier)
        (⟦<ParenthesizedArgumentList<'a> as Ord>⟧.cmp a.args b.args) }
{}

/// A law, which does nothing: `cmp` of `ExtendedAttributeNamedArgList` goes by its fields, in
/// order.
pub fn extended_attribute_named_arg_list<'a>()
    ensures { (a b : ExtendedAttributeNamedArgList)
        → ⟦<ExtendedAttributeNamedArgList<'a> as Ord>⟧.cmp a b
        ≡ ordering_then (⟦<Identifier<'a> as Ord>⟧.cmp a.lhs_identifier b.lhs_identifier)
        (ordering_then (⟦<Assign as Ord>⟧.cmp a.assign b.assign)
        (ordering_then (⟦<Identifier<'a> as Ord>⟧.cmp a.rhs_identifier b.rhs_identifier)
        (⟦<ParenthesizedArgumentList<'a> as Ord>⟧.cmp a.args b.args))) }
{}

/// A law, which does nothing: `cmp` of `ExtendedAttributeIdentList` goes by its fields, in order.
pub fn extended_attribute_ident_list<'a>()
    ensures { (a b : ExtendedAttributeIdentList)
        → ⟦<ExtendedAttributeIdentList<'a> as Ord>⟧.cmp a b
        ≡ ordering_then (⟦<Identifier<'a> as Ord>⟧.cmp a.identifier b.identifier)
        (ordering_then (⟦<Assign as Ord>⟧.cmp a.assign b.assign)
        (⟦<Parenthesized<IdentifierList<'a>> as Ord>⟧.cmp a.list b.list)) }
{}

/// A law, which does nothing: `cmp` of `ExtendedAttributeIdent` goes by its fields, in order.
pub fn extended_attribute_ident<'a>()
    ensures { (a b : ExtendedAttributeIdent)
        → ⟦<ExtendedAttributeIdent<'a> as Ord>⟧.cmp a b
        ≡ ordering_then (⟦<Identifier<'a> as Ord>⟧.cmp a.lhs_identifier b.lhs_identifier)
        (ordering_then (⟦<Assign as Ord>⟧.cmp a.assign b.assign)
        (⟦<IdentifierOrString<'a> as Ord>⟧.cmp a.rhs b.rhs)) }
{}

/// A law, which does nothing: `cmp` of `ExtendedAttributeNoArgs` goes by its fields, in order.
pub fn extended_attribute_no_args<'a>()
    ensures { (a b : ExtendedAttributeNoArgs)
        → ⟦<ExtendedAttributeNoArgs<'a> as Ord>⟧.cmp a b
        ≡ ⟦<Identifier<'a> as Ord>⟧.cmp a.0 b.0 }
{}

/// A law, which does nothing: `cmp` of `IdentifierOrString` goes by its variants, and of one
/// variant by what it holds.
pub fn identifier_or_string<'a>()
    ensures earlier { (a b : IdentifierOrString)
        → identifier_or_string_place a < identifier_or_string_place b
        → ⟦<IdentifierOrString<'a> as Ord>⟧.cmp a b ≡ Ordering.Less }
    ensures later { (a b : IdentifierOrString)
        → identifier_or_string_place b < identifier_or_string_place a
        → ⟦<IdentifierOrString<'a> as Ord>⟧.cmp a b ≡ Ordering.Greater }
    ensures identifier { (a b : Identifier)
        → ⟦<IdentifierOrString<'a> as Ord>⟧.cmp (IdentifierOrString.Identifier a)
        (IdentifierOrString.Identifier b)
        ≡ ⟦<Identifier<'a> as Ord>⟧.cmp a b }
    ensures string { (a b : StringLit)
        → ⟦<IdentifierOrString<'a> as Ord>⟧.cmp (IdentifierOrString.String a)
        (IdentifierOrString.String b)
        ≡ ⟦<StringLit<'a> as Ord>⟧.cmp a b }
{}
