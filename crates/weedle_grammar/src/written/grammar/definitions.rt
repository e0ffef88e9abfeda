//! Definitions.
//!
//! Written by tools/grammar.py, and not edited by hand.

ghost use Rattle.std.specs.Prelude.{◌≡◌, ◌<◌, ◌≤◌};
ghost use Rattle.weedle_grammar.specs.written.Names.{name_of};
ghost use Rattle.weedle_grammar.specs.written.Table.{row_of};
ghost use Rattle.weedle_grammar.specs.View.{row_view};

use crate::grammar::interface_members::{BRACED_INTERFACE_MEMBERS, OPT_DOCSTRING, OPT_INHERITANCE};
use crate::grammar::keywords::{
    CALLBACK, DICTIONARY, ENUM, IMPLEMENTS, INCLUDES, INTERFACE, MIXIN, NAMESPACE, PARTIAL, TYPEDEF,
};
use crate::grammar::leaves::IDENTIFIER;
use crate::grammar::other_members::{
    BRACED_DICTIONARY_MEMBERS, BRACED_ENUM_VALUE_LIST, BRACED_MIXIN_MEMBERS,
    BRACED_NAMESPACE_MEMBERS,
};
use crate::grammar::symbols::{ASSIGN, SEMI_COLON};
use crate::grammar::types::{
    ATTRIBUTED_TYPE, OPT_EXTENDED_ATTRIBUTE_LIST, PARENTHESIZED_ARGUMENT_LIST, RETURN_TYPE,
};
use crate::row::{Row, parts_of};
use crate::rule::Rule;

pub const CALLBACK_DEFINITION: u16 = 370;

pub const CALLBACK_INTERFACE_DEFINITION: u16 = 371;

pub const INTERFACE_DEFINITION: u16 = 372;

pub const INTERFACE_MIXIN_DEFINITION: u16 = 373;

pub const NAMESPACE_DEFINITION: u16 = 374;

pub const DICTIONARY_DEFINITION: u16 = 375;

pub const PARTIAL_INTERFACE_DEFINITION: u16 = 376;

pub const PARTIAL_INTERFACE_MIXIN_DEFINITION: u16 = 377;

pub const PARTIAL_DICTIONARY_DEFINITION: u16 = 378;

pub const PARTIAL_NAMESPACE_DEFINITION: u16 = 379;

pub const ENUM_DEFINITION: u16 = 380;

pub const TYPEDEF_DEFINITION: u16 = 381;

pub const INCLUDES_STATEMENT_DEFINITION: u16 = 382;

pub const IMPLEMENTS_DEFINITION: u16 = 383;

pub const DEFINITION: u16 = 384;

pub const DEFINITIONS: u16 = 385;

impl Rule {
    /// A callback, as `callback F = undefined (long x);`.
    pub const CALLBACK_DEFINITION: Rule = Rule(CALLBACK_DEFINITION);
    /// A callback interface, as `callback interface A {};`.
    pub const CALLBACK_INTERFACE_DEFINITION: Rule = Rule(CALLBACK_INTERFACE_DEFINITION);
    /// An interface, as `interface A : B {};`.
    pub const INTERFACE_DEFINITION: Rule = Rule(INTERFACE_DEFINITION);
    /// A mixin, as `interface mixin A {};`.
    pub const INTERFACE_MIXIN_DEFINITION: Rule = Rule(INTERFACE_MIXIN_DEFINITION);
    /// A namespace, as `namespace A {};`.
    pub const NAMESPACE_DEFINITION: Rule = Rule(NAMESPACE_DEFINITION);
    /// A dictionary, as `dictionary A : B {};`.
    pub const DICTIONARY_DEFINITION: Rule = Rule(DICTIONARY_DEFINITION);
    /// A part of an interface, as `partial interface A {};`.
    pub const PARTIAL_INTERFACE_DEFINITION: Rule = Rule(PARTIAL_INTERFACE_DEFINITION);
    /// A part of a mixin, as `partial interface mixin A {};`.
    pub const PARTIAL_INTERFACE_MIXIN_DEFINITION: Rule = Rule(PARTIAL_INTERFACE_MIXIN_DEFINITION);
    /// A part of a dictionary, as `partial dictionary A {};`.
    pub const PARTIAL_DICTIONARY_DEFINITION: Rule = Rule(PARTIAL_DICTIONARY_DEFINITION);
    /// A part of a namespace, as `partial namespace A {};`.
    pub const PARTIAL_NAMESPACE_DEFINITION: Rule = Rule(PARTIAL_NAMESPACE_DEFINITION);
    /// An enum, as `enum A {"a"};`.
    pub const ENUM_DEFINITION: Rule = Rule(ENUM_DEFINITION);
    /// A name for a type, as `typedef long A;`.
    pub const TYPEDEF_DEFINITION: Rule = Rule(TYPEDEF_DEFINITION);
    /// The use of a mixin, as `A includes B;`.
    pub const INCLUDES_STATEMENT_DEFINITION: Rule = Rule(INCLUDES_STATEMENT_DEFINITION);
    /// The older form of it, as `A implements B;`.
    pub const IMPLEMENTS_DEFINITION: Rule = Rule(IMPLEMENTS_DEFINITION);
    /// A definition.
    pub const DEFINITION: Rule = Rule(DEFINITION);
    /// Definitions, none included: the whole of a text.
    pub const DEFINITIONS: Rule = Rule(DEFINITIONS);
}

/// The row of a rule from 370 to 385.
#[inline(always)]
pub(super) fn row(number: u16) -> Row
    requires low { 370 ≤ number }
    requires high { number < 386 }
    ensures { row_view result ≡ row_of number }
{
    match number {
        CALLBACK_DEFINITION => Row::Seq(parts_of(&[
            OPT_EXTENDED_ATTRIBUTE_LIST,
            CALLBACK,
            IDENTIFIER,
            ASSIGN,
            RETURN_TYPE,
            PARENTHESIZED_ARGUMENT_LIST,
            SEMI_COLON,
        ])),
        CALLBACK_INTERFACE_DEFINITION => Row::Seq(parts_of(&[
            OPT_DOCSTRING,
            OPT_EXTENDED_ATTRIBUTE_LIST,
            CALLBACK,
            INTERFACE,
            IDENTIFIER,
            OPT_INHERITANCE,
            BRACED_INTERFACE_MEMBERS,
            SEMI_COLON,
        ])),
        INTERFACE_DEFINITION => Row::Seq(parts_of(&[
            OPT_DOCSTRING,
            OPT_EXTENDED_ATTRIBUTE_LIST,
            INTERFACE,
            IDENTIFIER,
            OPT_INHERITANCE,
            BRACED_INTERFACE_MEMBERS,
            SEMI_COLON,
        ])),
        INTERFACE_MIXIN_DEFINITION => Row::Seq(parts_of(&[
            OPT_EXTENDED_ATTRIBUTE_LIST,
            INTERFACE,
            MIXIN,
            IDENTIFIER,
            BRACED_MIXIN_MEMBERS,
            SEMI_COLON,
        ])),
        NAMESPACE_DEFINITION => Row::Seq(parts_of(&[
            OPT_DOCSTRING,
            OPT_EXTENDED_ATTRIBUTE_LIST,
            NAMESPACE,
            IDENTIFIER,
            BRACED_NAMESPACE_MEMBERS,
            SEMI_COLON,
        ])),
        DICTIONARY_DEFINITION => Row::Seq(parts_of(&[
            OPT_DOCSTRING,
            OPT_EXTENDED_ATTRIBUTE_LIST,
            DICTIONARY,
            IDENTIFIER,
            OPT_INHERITANCE,
            BRACED_DICTIONARY_MEMBERS,
            SEMI_COLON,
        ])),
        PARTIAL_INTERFACE_DEFINITION => Row::Seq(parts_of(&[
            OPT_EXTENDED_ATTRIBUTE_LIST,
            PARTIAL,
            INTERFACE,
            IDENTIFIER,
            BRACED_INTERFACE_MEMBERS,
            SEMI_COLON,
        ])),
        PARTIAL_INTERFACE_MIXIN_DEFINITION => Row::Seq(parts_of(&[
            OPT_EXTENDED_ATTRIBUTE_LIST,
            PARTIAL,
            INTERFACE,
            MIXIN,
            IDENTIFIER,
            BRACED_MIXIN_MEMBERS,
            SEMI_COLON,
        ])),
        PARTIAL_DICTIONARY_DEFINITION => Row::Seq(parts_of(&[
            OPT_EXTENDED_ATTRIBUTE_LIST,
            PARTIAL,
            DICTIONARY,
            IDENTIFIER,
            BRACED_DICTIONARY_MEMBERS,
            SEMI_COLON,
        ])),
        PARTIAL_NAMESPACE_DEFINITION => Row::Seq(parts_of(&[
            OPT_EXTENDED_ATTRIBUTE_LIST,
            PARTIAL,
            NAMESPACE,
            IDENTIFIER,
            BRACED_NAMESPACE_MEMBERS,
            SEMI_COLON,
        ])),
        ENUM_DEFINITION => Row::Seq(parts_of(&[
            OPT_DOCSTRING,
            OPT_EXTENDED_ATTRIBUTE_LIST,
            ENUM,
            IDENTIFIER,
            BRACED_ENUM_VALUE_LIST,
            SEMI_COLON,
        ])),
        TYPEDEF_DEFINITION => Row::Seq(parts_of(&[
            OPT_EXTENDED_ATTRIBUTE_LIST,
            TYPEDEF,
            ATTRIBUTED_TYPE,
            IDENTIFIER,
            SEMI_COLON,
        ])),
        INCLUDES_STATEMENT_DEFINITION => Row::Seq(parts_of(&[
            OPT_EXTENDED_ATTRIBUTE_LIST,
            IDENTIFIER,
            INCLUDES,
            IDENTIFIER,
            SEMI_COLON,
        ])),
        IMPLEMENTS_DEFINITION => Row::Seq(parts_of(&[
            OPT_EXTENDED_ATTRIBUTE_LIST,
            IDENTIFIER,
            IMPLEMENTS,
            IDENTIFIER,
            SEMI_COLON,
        ])),
        DEFINITION => Row::First(parts_of(&[
            CALLBACK_DEFINITION,
            CALLBACK_INTERFACE_DEFINITION,
            INTERFACE_DEFINITION,
            INTERFACE_MIXIN_DEFINITION,
            NAMESPACE_DEFINITION,
            DICTIONARY_DEFINITION,
            PARTIAL_INTERFACE_DEFINITION,
            PARTIAL_INTERFACE_MIXIN_DEFINITION,
            PARTIAL_DICTIONARY_DEFINITION,
            PARTIAL_NAMESPACE_DEFINITION,
            ENUM_DEFINITION,
            TYPEDEF_DEFINITION,
            INCLUDES_STATEMENT_DEFINITION,
            IMPLEMENTS_DEFINITION,
        ])),
        _ => Row::Many(Rule(DEFINITION)),
    }
}

/// The name of a rule from 370 to 385.
pub(super) fn name(number: u16) -> &'static str
    requires low { 370 ≤ number }
    requires high { number < 386 }
    ensures { result.now ≡ name_of number }
{
    match number {
        CALLBACK_DEFINITION => "callback_definition",
        CALLBACK_INTERFACE_DEFINITION => "callback_interface_definition",
        INTERFACE_DEFINITION => "interface_definition",
        INTERFACE_MIXIN_DEFINITION => "interface_mixin_definition",
        NAMESPACE_DEFINITION => "namespace_definition",
        DICTIONARY_DEFINITION => "dictionary_definition",
        PARTIAL_INTERFACE_DEFINITION => "partial_interface_definition",
        PARTIAL_INTERFACE_MIXIN_DEFINITION => "partial_interface_mixin_definition",
        PARTIAL_DICTIONARY_DEFINITION => "partial_dictionary_definition",
        PARTIAL_NAMESPACE_DEFINITION => "partial_namespace_definition",
        ENUM_DEFINITION => "enum_definition",
        TYPEDEF_DEFINITION => "typedef_definition",
        INCLUDES_STATEMENT_DEFINITION => "includes_statement_definition",
        IMPLEMENTS_DEFINITION => "implements_definition",
        DEFINITION => "definition",
        _ => "definitions",
    }
}
