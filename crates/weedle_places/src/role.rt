//! What names stand for.

ghost use Rattle.std.specs.Prelude.{◌≡◌, ◌↔◌, IsTrue};
ghost use Rattle.weedle_places.specs.Roles.{
  of_definition as the_of_definition,
  of_member as the_of_member,
  of_part as the_of_part,
  of_today_definition as the_of_today_definition,
  of_today_part as the_of_today_part,
  of_later as the_of_later,
  role_of as the_role_of,
  is_reference as the_is_reference,
};

use weedle_grammar::Rule;
use weedle_grammar::grammar::definitions::{
    CALLBACK_DEFINITION, CALLBACK_INTERFACE_DEFINITION, DICTIONARY_DEFINITION, ENUM_DEFINITION,
    IMPLEMENTS_DEFINITION, INCLUDES_STATEMENT_DEFINITION, INTERFACE_DEFINITION,
    INTERFACE_MIXIN_DEFINITION, NAMESPACE_DEFINITION, PARTIAL_DICTIONARY_DEFINITION,
    PARTIAL_INTERFACE_DEFINITION, PARTIAL_INTERFACE_MIXIN_DEFINITION, PARTIAL_NAMESPACE_DEFINITION,
    TYPEDEF_DEFINITION,
};
use weedle_grammar::grammar::interface_members::{
    ATTRIBUTE_INTERFACE_MEMBER, CONST_MEMBER, INHERITANCE, OPT_IDENTIFIER,
};
use weedle_grammar::grammar::other_members::{
    ATTRIBUTE_MIXIN_MEMBER, ATTRIBUTE_NAMESPACE_MEMBER, DICTIONARY_MEMBER,
};
use weedle_grammar::grammar::simple_types::{
    IDENTIFIER_LIST, MAY_BE_NULL_IDENTIFIER, TAIL_IDENTIFIER_COMMA,
};
use weedle_grammar::grammar::today_definitions::{
    TODAY_CALLBACK, TODAY_CALLBACK_INTERFACE, TODAY_DICTIONARY, TODAY_ENUM, TODAY_IMPLEMENTS,
    TODAY_INCLUDES, TODAY_INTERFACE, TODAY_MIXIN, TODAY_NAMESPACE, TODAY_PARTIAL_DICTIONARY,
    TODAY_PARTIAL_INTERFACE, TODAY_PARTIAL_MIXIN, TODAY_PARTIAL_NAMESPACE, TODAY_TYPEDEF,
};
use weedle_grammar::grammar::today_members::{
    TODAY_ATTRIBUTE_MEMBER, TODAY_CONST, TODAY_DICTIONARY_MEMBER, TODAY_MIXIN_ATTRIBUTE,
    TODAY_NAMESPACE_ATTRIBUTE,
};
use weedle_grammar::grammar::today_types::{
    TODAY_ATTRIBUTE_ARG_LIST, TODAY_ATTRIBUTE_NAMED_ARG_LIST, TODAY_ATTRIBUTE_NUMBER,
    TODAY_ATTRIBUTE_NUMBERS, TODAY_ATTRIBUTE_STRINGS, TODAY_ATTRIBUTE_WILDCARD,
    TODAY_OPTIONAL_ARGUMENT, TODAY_REQUIRED_ARGUMENT,
};
use weedle_grammar::grammar::types::{
    EXTENDED_ATTRIBUTE_ARG_LIST, EXTENDED_ATTRIBUTE_IDENT, EXTENDED_ATTRIBUTE_IDENT_LIST,
    EXTENDED_ATTRIBUTE_NAMED_ARG_LIST, EXTENDED_ATTRIBUTE_NO_ARGS, IDENTIFIER_OR_STRING,
    SINGLE_ARGUMENT, VARIADIC_ARGUMENT,
};

/// What a name stands for in a text.
#[derive(Clone, Copy, Debug, PartialEq, Eq)]
pub enum Role {
    /// A callback, as `F` in `callback F = undefined ();`.
    Callback,
    /// A callback interface, as `A` in `callback interface A {};`.
    CallbackInterface,
    /// An interface, as `A` in `interface A {};`.
    Interface,
    /// A mixin, as `M` in `interface mixin M {};`.
    Mixin,
    /// A namespace, as `N` in `namespace N {};`.
    Namespace,
    /// A dictionary, as `D` in `dictionary D {};`.
    Dictionary,
    /// The interface of a part, as `A` in `partial interface A {};`.
    PartialInterface,
    /// The mixin of a part, as `M` in `partial interface mixin M {};`.
    PartialMixin,
    /// The dictionary of a part, as `D` in `partial dictionary D {};`.
    PartialDictionary,
    /// The namespace of a part, as `N` in `partial namespace N {};`.
    PartialNamespace,
    /// An enum, as `E` in `enum E { "a" };`.
    Enum,
    /// A name for a type, as `T` in `typedef long T;`.
    Typedef,
    /// What includes a mixin, as `A` in `A includes M;`.
    Includer,
    /// The mixin that is included, as `M` in `A includes M;`.
    Included,
    /// What implements an interface, as `A` in `A implements B;`.
    Implementer,
    /// The interface that is implemented, as `B` in `A implements B;`.
    Implemented,
    /// A constant, as `X` in `const long X = 1;`.
    Const,
    /// An attribute of an interface, a mixin or a namespace, as `x` in `attribute long x;`.
    Attribute,
    /// An operation, as `f` in `undefined f();`.
    Operation,
    /// A member of a dictionary, as `x` in `required long x;`.
    DictionaryMember,
    /// An argument, as `x` in `undefined f(long x);`.
    Argument,
    /// A type, as `T` in `attribute sequence<T?> x;`.
    Type,
    /// What is inherited from, as `B` in `interface A : B {};`.
    Inherited,
    /// An extended attribute, as `Exposed` in `[Exposed=Window]`.
    ExtendedAttribute,
    /// What follows the `=` of an extended attribute, as `Window` in `[Exposed=Window]` and in
    /// `[Exposed=(Window,Worker)]`, and `Image` in `[NamedConstructor=Image(long x)]`.
    ExtendedAttributeValue,
}

impl Role {
    /// Whether a name with this role speaks of a definition and isn't where that has its name: as a
    /// type, as what is inherited from, in a statement, or in a part, as the `A` of `attribute A
    /// x;`, of `interface B : A {};`, of `A includes M;` and of `partial interface A {};`.
    ///
    /// Members, arguments and extended attributes aren't definitions, nor is what follows the `=`
    /// of an extended attribute taken for one.
    pub fn is_reference(self) -> bool
        ensures { result ≡ the_is_reference self }
    {
        match self {
            Role::PartialInterface
            | Role::PartialMixin
            | Role::PartialDictionary
            | Role::PartialNamespace
            | Role::Includer
            | Role::Included
            | Role::Implementer
            | Role::Implemented
            | Role::Inherited
            | Role::Type => true,
            _ => false,
        }
    }
}

/// The role of the first name that a definition's own rule reads; None of another rule.
fn of_definition(rule: u16) -> Option<Role>
    ensures { result ≡ the_of_definition rule }
{
    match rule {
        CALLBACK_DEFINITION => Some(Role::Callback),
        CALLBACK_INTERFACE_DEFINITION => Some(Role::CallbackInterface),
        INTERFACE_DEFINITION => Some(Role::Interface),
        INTERFACE_MIXIN_DEFINITION => Some(Role::Mixin),
        NAMESPACE_DEFINITION => Some(Role::Namespace),
        DICTIONARY_DEFINITION => Some(Role::Dictionary),
        PARTIAL_INTERFACE_DEFINITION => Some(Role::PartialInterface),
        PARTIAL_INTERFACE_MIXIN_DEFINITION => Some(Role::PartialMixin),
        PARTIAL_DICTIONARY_DEFINITION => Some(Role::PartialDictionary),
        PARTIAL_NAMESPACE_DEFINITION => Some(Role::PartialNamespace),
        ENUM_DEFINITION => Some(Role::Enum),
        TYPEDEF_DEFINITION => Some(Role::Typedef),
        INCLUDES_STATEMENT_DEFINITION => Some(Role::Includer),
        IMPLEMENTS_DEFINITION => Some(Role::Implementer),
        _ => None,
    }
}

/// The role of the name that a member's own rule reads; None of another rule.
fn of_member(rule: u16) -> Option<Role>
    ensures { result ≡ the_of_member rule }
{
    match rule {
        CONST_MEMBER => Some(Role::Const),
        ATTRIBUTE_INTERFACE_MEMBER => Some(Role::Attribute),
        ATTRIBUTE_MIXIN_MEMBER => Some(Role::Attribute),
        ATTRIBUTE_NAMESPACE_MEMBER => Some(Role::Attribute),
        OPT_IDENTIFIER => Some(Role::Operation),
        DICTIONARY_MEMBER => Some(Role::DictionaryMember),
        _ => None,
    }
}

/// The role of the first name that a part of a definition or of a member reads; None of another
/// rule.
fn of_part(rule: u16) -> Option<Role>
    ensures { result ≡ the_of_part rule }
{
    match rule {
        SINGLE_ARGUMENT => Some(Role::Argument),
        VARIADIC_ARGUMENT => Some(Role::Argument),
        MAY_BE_NULL_IDENTIFIER => Some(Role::Type),
        INHERITANCE => Some(Role::Inherited),
        EXTENDED_ATTRIBUTE_ARG_LIST => Some(Role::ExtendedAttribute),
        EXTENDED_ATTRIBUTE_NAMED_ARG_LIST => Some(Role::ExtendedAttribute),
        EXTENDED_ATTRIBUTE_IDENT_LIST => Some(Role::ExtendedAttribute),
        EXTENDED_ATTRIBUTE_IDENT => Some(Role::ExtendedAttribute),
        EXTENDED_ATTRIBUTE_NO_ARGS => Some(Role::ExtendedAttribute),
        IDENTIFIER_LIST => Some(Role::ExtendedAttributeValue),
        TAIL_IDENTIFIER_COMMA => Some(Role::ExtendedAttributeValue),
        IDENTIFIER_OR_STRING => Some(Role::ExtendedAttributeValue),
        _ => None,
    }
}

/// The role of the first name that a rule of today's definitions reads; None of another rule.
fn of_today_definition(rule: u16) -> Option<Role>
    ensures { result ≡ the_of_today_definition rule }
{
    match rule {
        TODAY_CALLBACK => Some(Role::Callback),
        TODAY_CALLBACK_INTERFACE => Some(Role::CallbackInterface),
        TODAY_INTERFACE => Some(Role::Interface),
        TODAY_MIXIN => Some(Role::Mixin),
        TODAY_NAMESPACE => Some(Role::Namespace),
        TODAY_DICTIONARY => Some(Role::Dictionary),
        TODAY_PARTIAL_INTERFACE => Some(Role::PartialInterface),
        TODAY_PARTIAL_MIXIN => Some(Role::PartialMixin),
        TODAY_PARTIAL_DICTIONARY => Some(Role::PartialDictionary),
        TODAY_PARTIAL_NAMESPACE => Some(Role::PartialNamespace),
        TODAY_ENUM => Some(Role::Enum),
        TODAY_TYPEDEF => Some(Role::Typedef),
        TODAY_INCLUDES => Some(Role::Includer),
        TODAY_IMPLEMENTS => Some(Role::Implementer),
        _ => None,
    }
}

/// The role of the name that a rule of today's members reads, or of the first name that a rule of
/// their parts reads; None of another rule.
fn of_today_part(rule: u16) -> Option<Role>
    ensures { result ≡ the_of_today_part rule }
{
    match rule {
        TODAY_CONST => Some(Role::Const),
        TODAY_ATTRIBUTE_MEMBER => Some(Role::Attribute),
        TODAY_MIXIN_ATTRIBUTE => Some(Role::Attribute),
        TODAY_NAMESPACE_ATTRIBUTE => Some(Role::Attribute),
        TODAY_DICTIONARY_MEMBER => Some(Role::DictionaryMember),
        TODAY_OPTIONAL_ARGUMENT => Some(Role::Argument),
        TODAY_REQUIRED_ARGUMENT => Some(Role::Argument),
        TODAY_ATTRIBUTE_ARG_LIST => Some(Role::ExtendedAttribute),
        TODAY_ATTRIBUTE_NAMED_ARG_LIST => Some(Role::ExtendedAttribute),
        TODAY_ATTRIBUTE_WILDCARD => Some(Role::ExtendedAttribute),
        TODAY_ATTRIBUTE_NUMBER => Some(Role::ExtendedAttribute),
        TODAY_ATTRIBUTE_STRINGS => Some(Role::ExtendedAttribute),
        TODAY_ATTRIBUTE_NUMBERS => Some(Role::ExtendedAttribute),
        _ => None,
    }
}

/// The role of a name before which another is that the same rule reads; None of a rule of which
/// that has the role of the first.
fn of_later(rule: u16) -> Option<Role>
    ensures { result ≡ the_of_later rule }
{
    match rule {
        EXTENDED_ATTRIBUTE_NAMED_ARG_LIST => Some(Role::ExtendedAttributeValue),
        INCLUDES_STATEMENT_DEFINITION => Some(Role::Included),
        IMPLEMENTS_DEFINITION => Some(Role::Implemented),
        TODAY_ATTRIBUTE_NAMED_ARG_LIST => Some(Role::ExtendedAttributeValue),
        TODAY_INCLUDES => Some(Role::Included),
        TODAY_IMPLEMENTS => Some(Role::Implemented),
        _ => None,
    }
}

/// The role of a name by the rule that reads it, and by whether that has read a name before; None
/// of a rule that reads none.
pub(crate) fn role_of(rule: Rule, later: bool) -> Option<Role>
    ensures { result ≡ the_role_of rule later }
{
    let number = rule.number();
    if later {
        if let Some(role) = of_later(number) {
            return Some(role);
        }
    }
    if let Some(role) = of_definition(number) {
        return Some(role);
    }
    if let Some(role) = of_member(number) {
        return Some(role);
    }
    if let Some(role) = of_part(number) {
        return Some(role);
    }
    if let Some(role) = of_today_definition(number) {
        return Some(role);
    }
    of_today_part(number)
}
