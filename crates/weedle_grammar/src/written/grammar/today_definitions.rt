//! Today's definitions.
//!
//! Written by tools/grammar.py, and not edited by hand.

ghost use Rattle.std.specs.Prelude.{◌≡◌, ◌<◌, ◌≤◌};
ghost use Rattle.weedle_grammar.specs.written.Names.{name_of};
ghost use Rattle.weedle_grammar.specs.written.Table.{row_of};
ghost use Rattle.weedle_grammar.specs.View.{row_view};

use crate::grammar::interface_members::OPT_INHERITANCE;
use crate::grammar::keywords::{
    CALLBACK, DICTIONARY, ENUM, IMPLEMENTS, INCLUDES, INTERFACE, MIXIN, NAMESPACE, PARTIAL, TYPEDEF,
};
use crate::grammar::leaves::IDENTIFIER;
use crate::grammar::symbols::{ASSIGN, SEMI_COLON};
use crate::grammar::today_members::{
    BRACED_TODAY_DICTIONARY_MEMBERS, BRACED_TODAY_ENUM_VALUES, BRACED_TODAY_INTERFACE_MEMBERS,
    BRACED_TODAY_MIXIN_MEMBERS, BRACED_TODAY_NAMESPACE_MEMBERS,
};
use crate::grammar::today_types::{
    TODAY_ARGUMENTS, TODAY_ATTRIBUTE_LISTS, TODAY_ATTRIBUTED_TYPE, TODAY_TYPE,
};
use crate::grammar::today_words::{TODAY_DOC, TODAY_DOCS, TODAY_LAST_DOC, TODAY_TRIVIA};
use crate::row::{Row, parts_of};
use crate::rule::Rule;

pub const TODAY_CALLBACK: u16 = 502;

pub const TODAY_CALLBACK_INTERFACE: u16 = 503;

pub const TODAY_INTERFACE: u16 = 504;

pub const TODAY_MIXIN: u16 = 505;

pub const TODAY_NAMESPACE: u16 = 506;

pub const TODAY_DICTIONARY: u16 = 507;

pub const TODAY_PARTIAL_INTERFACE: u16 = 508;

pub const TODAY_PARTIAL_MIXIN: u16 = 509;

pub const TODAY_PARTIAL_DICTIONARY: u16 = 510;

pub const TODAY_PARTIAL_NAMESPACE: u16 = 511;

pub const TODAY_ENUM: u16 = 512;

pub const TODAY_TYPEDEF: u16 = 513;

pub const TODAY_INCLUDES: u16 = 514;

pub const TODAY_IMPLEMENTS: u16 = 515;

pub const TODAY_DEFINITION_KIND: u16 = 516;

pub const TODAY_DEFINITION: u16 = 517;

pub const TODAY_PIECE: u16 = 518;

pub const TODAY_DEFINITIONS: u16 = 519;

impl Rule {
    /// A callback, as `callback F = undefined (long x);`.
    pub const TODAY_CALLBACK: Rule = Rule(TODAY_CALLBACK);
    /// A callback interface, as `callback interface A {};`.
    pub const TODAY_CALLBACK_INTERFACE: Rule = Rule(TODAY_CALLBACK_INTERFACE);
    /// An interface, as `interface A : B {};`.
    pub const TODAY_INTERFACE: Rule = Rule(TODAY_INTERFACE);
    /// A mixin, as `interface mixin A {};`.
    pub const TODAY_MIXIN: Rule = Rule(TODAY_MIXIN);
    /// A namespace, as `namespace A {};`.
    pub const TODAY_NAMESPACE: Rule = Rule(TODAY_NAMESPACE);
    /// A dictionary, as `dictionary A : B {};`.
    pub const TODAY_DICTIONARY: Rule = Rule(TODAY_DICTIONARY);
    /// A part of an interface.
    pub const TODAY_PARTIAL_INTERFACE: Rule = Rule(TODAY_PARTIAL_INTERFACE);
    /// A part of a mixin.
    pub const TODAY_PARTIAL_MIXIN: Rule = Rule(TODAY_PARTIAL_MIXIN);
    /// A part of a dictionary.
    pub const TODAY_PARTIAL_DICTIONARY: Rule = Rule(TODAY_PARTIAL_DICTIONARY);
    /// A part of a namespace.
    pub const TODAY_PARTIAL_NAMESPACE: Rule = Rule(TODAY_PARTIAL_NAMESPACE);
    /// An enum, as `enum A {"a"};`.
    pub const TODAY_ENUM: Rule = Rule(TODAY_ENUM);
    /// A name for a type, as `typedef long A;`.
    pub const TODAY_TYPEDEF: Rule = Rule(TODAY_TYPEDEF);
    /// The use of a mixin, as `A includes B;`.
    pub const TODAY_INCLUDES: Rule = Rule(TODAY_INCLUDES);
    /// The older form of it, as `A implements B;`.
    pub const TODAY_IMPLEMENTS: Rule = Rule(TODAY_IMPLEMENTS);
    /// A definition, behind its docstrings and attributes.
    pub const TODAY_DEFINITION_KIND: Rule = Rule(TODAY_DEFINITION_KIND);
    /// A definition.
    pub const TODAY_DEFINITION: Rule = Rule(TODAY_DEFINITION);
    /// A definition, or what none follows.
    pub const TODAY_PIECE: Rule = Rule(TODAY_PIECE);
    /// The whole of a text by today's grammar.
    pub const TODAY_DEFINITIONS: Rule = Rule(TODAY_DEFINITIONS);
}

/// The row of a rule from 502 to 519.
#[inline(always)]
pub(super) fn row(number: u16) -> Row
    requires low { 502 ≤ number }
    requires high { number < 520 }
    ensures { row_view result ≡ row_of number }
{
    match number {
        TODAY_CALLBACK => Row::Seq(parts_of(&[
            CALLBACK,
            IDENTIFIER,
            ASSIGN,
            TODAY_TYPE,
            TODAY_ARGUMENTS,
            SEMI_COLON,
        ])),
        TODAY_CALLBACK_INTERFACE => Row::Seq(parts_of(&[
            CALLBACK,
            INTERFACE,
            IDENTIFIER,
            OPT_INHERITANCE,
            BRACED_TODAY_INTERFACE_MEMBERS,
            SEMI_COLON,
        ])),
        TODAY_INTERFACE => Row::Seq(parts_of(&[
            INTERFACE,
            IDENTIFIER,
            OPT_INHERITANCE,
            BRACED_TODAY_INTERFACE_MEMBERS,
            SEMI_COLON,
        ])),
        TODAY_MIXIN => Row::Seq(parts_of(&[
            INTERFACE,
            MIXIN,
            IDENTIFIER,
            BRACED_TODAY_MIXIN_MEMBERS,
            SEMI_COLON,
        ])),
        TODAY_NAMESPACE => Row::Seq(parts_of(&[
            NAMESPACE,
            IDENTIFIER,
            BRACED_TODAY_NAMESPACE_MEMBERS,
            SEMI_COLON,
        ])),
        TODAY_DICTIONARY => Row::Seq(parts_of(&[
            DICTIONARY,
            IDENTIFIER,
            OPT_INHERITANCE,
            BRACED_TODAY_DICTIONARY_MEMBERS,
            SEMI_COLON,
        ])),
        TODAY_PARTIAL_INTERFACE => Row::Seq(parts_of(&[
            PARTIAL,
            INTERFACE,
            IDENTIFIER,
            BRACED_TODAY_INTERFACE_MEMBERS,
            SEMI_COLON,
        ])),
        TODAY_PARTIAL_MIXIN => Row::Seq(parts_of(&[
            PARTIAL,
            INTERFACE,
            MIXIN,
            IDENTIFIER,
            BRACED_TODAY_MIXIN_MEMBERS,
            SEMI_COLON,
        ])),
        TODAY_PARTIAL_DICTIONARY => Row::Seq(parts_of(&[
            PARTIAL,
            DICTIONARY,
            IDENTIFIER,
            BRACED_TODAY_DICTIONARY_MEMBERS,
            SEMI_COLON,
        ])),
        TODAY_PARTIAL_NAMESPACE => Row::Seq(parts_of(&[
            PARTIAL,
            NAMESPACE,
            IDENTIFIER,
            BRACED_TODAY_NAMESPACE_MEMBERS,
            SEMI_COLON,
        ])),
        TODAY_ENUM => Row::Seq(parts_of(&[ENUM, IDENTIFIER, BRACED_TODAY_ENUM_VALUES, SEMI_COLON])),
        TODAY_TYPEDEF => Row::Seq(parts_of(&[
            TYPEDEF,
            TODAY_ATTRIBUTED_TYPE,
            IDENTIFIER,
            SEMI_COLON,
        ])),
        TODAY_INCLUDES => Row::Seq(parts_of(&[IDENTIFIER, INCLUDES, IDENTIFIER, SEMI_COLON])),
        TODAY_IMPLEMENTS => Row::Seq(parts_of(&[IDENTIFIER, IMPLEMENTS, IDENTIFIER, SEMI_COLON])),
        TODAY_DEFINITION_KIND => Row::First(parts_of(&[
            TODAY_CALLBACK,
            TODAY_CALLBACK_INTERFACE,
            TODAY_INTERFACE,
            TODAY_MIXIN,
            TODAY_NAMESPACE,
            TODAY_DICTIONARY,
            TODAY_PARTIAL_INTERFACE,
            TODAY_PARTIAL_MIXIN,
            TODAY_PARTIAL_DICTIONARY,
            TODAY_PARTIAL_NAMESPACE,
            TODAY_ENUM,
            TODAY_TYPEDEF,
            TODAY_INCLUDES,
            TODAY_IMPLEMENTS,
        ])),
        TODAY_DEFINITION => Row::Seq(parts_of(&[
            TODAY_DOCS,
            TODAY_ATTRIBUTE_LISTS,
            TODAY_DEFINITION_KIND,
        ])),
        TODAY_PIECE => Row::First(parts_of(&[
            TODAY_DEFINITION,
            TODAY_DOC,
            TODAY_LAST_DOC,
            TODAY_TRIVIA,
        ])),
        _ => Row::Many(Rule(TODAY_PIECE)),
    }
}

/// The name of a rule from 502 to 519.
pub(super) fn name(number: u16) -> &'static str
    requires low { 502 ≤ number }
    requires high { number < 520 }
    ensures { result.now ≡ name_of number }
{
    match number {
        TODAY_CALLBACK => "today_callback",
        TODAY_CALLBACK_INTERFACE => "today_callback_interface",
        TODAY_INTERFACE => "today_interface",
        TODAY_MIXIN => "today_mixin",
        TODAY_NAMESPACE => "today_namespace",
        TODAY_DICTIONARY => "today_dictionary",
        TODAY_PARTIAL_INTERFACE => "today_partial_interface",
        TODAY_PARTIAL_MIXIN => "today_partial_mixin",
        TODAY_PARTIAL_DICTIONARY => "today_partial_dictionary",
        TODAY_PARTIAL_NAMESPACE => "today_partial_namespace",
        TODAY_ENUM => "today_enum",
        TODAY_TYPEDEF => "today_typedef",
        TODAY_INCLUDES => "today_includes",
        TODAY_IMPLEMENTS => "today_implements",
        TODAY_DEFINITION_KIND => "today_definition_kind",
        TODAY_DEFINITION => "today_definition",
        TODAY_PIECE => "today_piece",
        _ => "today_definitions",
    }
}
