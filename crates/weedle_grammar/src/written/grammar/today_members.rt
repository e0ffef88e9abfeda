//! Today's members: docstrings and extended attributes, and then of which kind it is.
//!
//! Written by tools/grammar.py, and not edited by hand.

ghost use Rattle.std.specs.Prelude.{◌≡◌, ◌<◌, ◌≤◌};
ghost use Rattle.weedle_grammar.specs.written.Names.{name_of};
ghost use Rattle.weedle_grammar.specs.written.Table.{row_of};
ghost use Rattle.weedle_grammar.specs.View.{row_view};

use crate::grammar::interface_members::{
    ASYNC_ITERABLE, OPT_IDENTIFIER, OPT_READ_ONLY, OPT_SPECIAL,
    OPT_STRINGIFIER_OR_INHERIT_OR_STATIC, OPT_STRINGIFIER_OR_STATIC,
};
use crate::grammar::keywords::{
    ATTRIBUTE, CONST, CONSTRUCTOR, ITERABLE, MAPLIKE, READ_ONLY, SETLIKE, STRINGIFIER,
};
use crate::grammar::leaves::{IDENTIFIER, STRING_LIT};
use crate::grammar::literals::CONST_VALUE;
use crate::grammar::other_members::{OPT_COMMA, OPT_REQUIRED, OPT_STRINGIFIER};
use crate::grammar::symbols::{
    ASSIGN, CLOSE_BRACE, COMMA, GREATER_THAN, LESS_THAN, OPEN_BRACE, SEMI_COLON,
};
use crate::grammar::today_types::{
    GENERICS_TODAY_ATTRIBUTED_TYPE, TODAY_ARGUMENTS, TODAY_ATTRIBUTE_LISTS, TODAY_ATTRIBUTED_TYPE,
    TODAY_TYPE,
};
use crate::grammar::today_words::{
    ASYNC_ITERABLE_WORD, OPT_TODAY_DEFAULT, TODAY_CONST_TYPE, TODAY_DOCS,
};
use crate::row::{Row, parts_of};
use crate::rule::Rule;

pub const TODAY_KEY_AND_VALUE_TYPES: u16 = 463;

pub const GENERICS_TODAY_KEY_AND_VALUE_TYPES: u16 = 464;

pub const TODAY_SECOND_TYPE: u16 = 465;

pub const OPT_TODAY_SECOND_TYPE: u16 = 466;

pub const TODAY_ITERATED: u16 = 467;

pub const TODAY_CONST: u16 = 468;

pub const TODAY_ATTRIBUTE_MEMBER: u16 = 469;

pub const TODAY_CONSTRUCTOR: u16 = 470;

pub const TODAY_OPERATION: u16 = 471;

pub const TODAY_ITERABLE: u16 = 472;

pub const TODAY_ASYNC_WORDS: u16 = 473;

pub const OPT_TODAY_ARGUMENTS: u16 = 474;

pub const TODAY_ASYNC_ITERABLE: u16 = 475;

pub const TODAY_MAPLIKE: u16 = 476;

pub const TODAY_SETLIKE: u16 = 477;

pub const TODAY_STRINGIFIER: u16 = 478;

pub const TODAY_INTERFACE_MEMBER_KIND: u16 = 479;

pub const TODAY_INTERFACE_MEMBER: u16 = 480;

pub const TODAY_MIXIN_OPERATION: u16 = 481;

pub const TODAY_MIXIN_ATTRIBUTE: u16 = 482;

pub const TODAY_MIXIN_MEMBER_KIND: u16 = 483;

pub const TODAY_MIXIN_MEMBER: u16 = 484;

pub const TODAY_NAMESPACE_OPERATION: u16 = 485;

pub const TODAY_NAMESPACE_ATTRIBUTE: u16 = 486;

pub const TODAY_NAMESPACE_MEMBER_KIND: u16 = 487;

pub const TODAY_NAMESPACE_MEMBER: u16 = 488;

pub const TODAY_DICTIONARY_MEMBER: u16 = 489;

pub const TODAY_ENUM_VALUE: u16 = 490;

pub const TAIL_TODAY_ENUM_VALUE_COMMA: u16 = 491;

pub const LIST1_TODAY_ENUM_VALUE_COMMA: u16 = 492;

pub const TODAY_INTERFACE_MEMBERS: u16 = 493;

pub const BRACED_TODAY_INTERFACE_MEMBERS: u16 = 494;

pub const TODAY_MIXIN_MEMBERS: u16 = 495;

pub const BRACED_TODAY_MIXIN_MEMBERS: u16 = 496;

pub const TODAY_NAMESPACE_MEMBERS: u16 = 497;

pub const BRACED_TODAY_NAMESPACE_MEMBERS: u16 = 498;

pub const TODAY_DICTIONARY_MEMBERS: u16 = 499;

pub const BRACED_TODAY_DICTIONARY_MEMBERS: u16 = 500;

pub const BRACED_TODAY_ENUM_VALUES: u16 = 501;

impl Rule {
    /// The second type of what is iterated.
    pub const TODAY_SECOND_TYPE: Rule = Rule(TODAY_SECOND_TYPE);
    /// What is iterated: one type, or two, as `<DOMString, long>`.
    pub const TODAY_ITERATED: Rule = Rule(TODAY_ITERATED);
    /// A constant, as `const long X = 5;`.
    pub const TODAY_CONST: Rule = Rule(TODAY_CONST);
    /// An attribute, as `readonly attribute long x;`.
    pub const TODAY_ATTRIBUTE_MEMBER: Rule = Rule(TODAY_ATTRIBUTE_MEMBER);
    /// A constructor, as `constructor(long x);`.
    pub const TODAY_CONSTRUCTOR: Rule = Rule(TODAY_CONSTRUCTOR);
    /// An operation, as `undefined f(long x);`.
    pub const TODAY_OPERATION: Rule = Rule(TODAY_OPERATION);
    /// As `iterable<long>;`.
    pub const TODAY_ITERABLE: Rule = Rule(TODAY_ITERABLE);
    /// `async_iterable`, or the older `async iterable`.
    pub const TODAY_ASYNC_WORDS: Rule = Rule(TODAY_ASYNC_WORDS);
    /// As `async_iterable<long>;`.
    pub const TODAY_ASYNC_ITERABLE: Rule = Rule(TODAY_ASYNC_ITERABLE);
    /// As `maplike<DOMString, long>;`.
    pub const TODAY_MAPLIKE: Rule = Rule(TODAY_MAPLIKE);
    /// As `setlike<long>;`.
    pub const TODAY_SETLIKE: Rule = Rule(TODAY_SETLIKE);
    /// `stringifier;`.
    pub const TODAY_STRINGIFIER: Rule = Rule(TODAY_STRINGIFIER);
    /// A member of an interface, behind its docstrings and attributes.
    pub const TODAY_INTERFACE_MEMBER_KIND: Rule = Rule(TODAY_INTERFACE_MEMBER_KIND);
    /// A member of an interface.
    pub const TODAY_INTERFACE_MEMBER: Rule = Rule(TODAY_INTERFACE_MEMBER);
    /// An operation of a mixin.
    pub const TODAY_MIXIN_OPERATION: Rule = Rule(TODAY_MIXIN_OPERATION);
    /// An attribute of a mixin.
    pub const TODAY_MIXIN_ATTRIBUTE: Rule = Rule(TODAY_MIXIN_ATTRIBUTE);
    /// A member of a mixin, behind its docstrings and attributes.
    pub const TODAY_MIXIN_MEMBER_KIND: Rule = Rule(TODAY_MIXIN_MEMBER_KIND);
    /// A member of a mixin.
    pub const TODAY_MIXIN_MEMBER: Rule = Rule(TODAY_MIXIN_MEMBER);
    /// An operation of a namespace.
    pub const TODAY_NAMESPACE_OPERATION: Rule = Rule(TODAY_NAMESPACE_OPERATION);
    /// An attribute of a namespace.
    pub const TODAY_NAMESPACE_ATTRIBUTE: Rule = Rule(TODAY_NAMESPACE_ATTRIBUTE);
    /// A member of a namespace, behind its docstrings and attributes.
    pub const TODAY_NAMESPACE_MEMBER_KIND: Rule = Rule(TODAY_NAMESPACE_MEMBER_KIND);
    /// A member of a namespace.
    pub const TODAY_NAMESPACE_MEMBER: Rule = Rule(TODAY_NAMESPACE_MEMBER);
    /// A member of a dictionary, as `required [Clamp] long x;`.
    pub const TODAY_DICTIONARY_MEMBER: Rule = Rule(TODAY_DICTIONARY_MEMBER);
    /// A value of an enum, as `"a"`.
    pub const TODAY_ENUM_VALUE: Rule = Rule(TODAY_ENUM_VALUE);
    /// The members of an interface, none included.
    pub const TODAY_INTERFACE_MEMBERS: Rule = Rule(TODAY_INTERFACE_MEMBERS);
    /// The members of a mixin, none included.
    pub const TODAY_MIXIN_MEMBERS: Rule = Rule(TODAY_MIXIN_MEMBERS);
    /// The members of a namespace, none included.
    pub const TODAY_NAMESPACE_MEMBERS: Rule = Rule(TODAY_NAMESPACE_MEMBERS);
    /// The members of a dictionary, none included.
    pub const TODAY_DICTIONARY_MEMBERS: Rule = Rule(TODAY_DICTIONARY_MEMBERS);
}

/// The row of a rule from 463 to 501.
#[inline(always)]
pub(super) fn row(number: u16) -> Row
    requires low { 463 ≤ number }
    requires high { number < 502 }
    ensures { row_view result ≡ row_of number }
{
    match number {
        TODAY_KEY_AND_VALUE_TYPES => Row::Seq(parts_of(&[
            TODAY_ATTRIBUTED_TYPE,
            COMMA,
            TODAY_ATTRIBUTED_TYPE,
        ])),
        GENERICS_TODAY_KEY_AND_VALUE_TYPES => Row::Seq(parts_of(&[
            LESS_THAN,
            TODAY_KEY_AND_VALUE_TYPES,
            GREATER_THAN,
        ])),
        TODAY_SECOND_TYPE => Row::Seq(parts_of(&[COMMA, TODAY_ATTRIBUTED_TYPE])),
        OPT_TODAY_SECOND_TYPE => Row::Opt(Rule(TODAY_SECOND_TYPE)),
        TODAY_ITERATED => Row::Seq(parts_of(&[
            LESS_THAN,
            TODAY_ATTRIBUTED_TYPE,
            OPT_TODAY_SECOND_TYPE,
            GREATER_THAN,
        ])),
        TODAY_CONST => Row::Seq(parts_of(&[
            CONST,
            TODAY_CONST_TYPE,
            IDENTIFIER,
            ASSIGN,
            CONST_VALUE,
            SEMI_COLON,
        ])),
        TODAY_ATTRIBUTE_MEMBER => Row::Seq(parts_of(&[
            OPT_STRINGIFIER_OR_INHERIT_OR_STATIC,
            OPT_READ_ONLY,
            ATTRIBUTE,
            TODAY_ATTRIBUTED_TYPE,
            IDENTIFIER,
            SEMI_COLON,
        ])),
        TODAY_CONSTRUCTOR => Row::Seq(parts_of(&[CONSTRUCTOR, TODAY_ARGUMENTS, SEMI_COLON])),
        TODAY_OPERATION => Row::Seq(parts_of(&[
            OPT_STRINGIFIER_OR_STATIC,
            OPT_SPECIAL,
            TODAY_TYPE,
            OPT_IDENTIFIER,
            TODAY_ARGUMENTS,
            SEMI_COLON,
        ])),
        TODAY_ITERABLE => Row::Seq(parts_of(&[ITERABLE, TODAY_ITERATED, SEMI_COLON])),
        TODAY_ASYNC_WORDS => Row::First(parts_of(&[ASYNC_ITERABLE_WORD, ASYNC_ITERABLE])),
        OPT_TODAY_ARGUMENTS => Row::Opt(Rule(TODAY_ARGUMENTS)),
        TODAY_ASYNC_ITERABLE => Row::Seq(parts_of(&[
            TODAY_ASYNC_WORDS,
            TODAY_ITERATED,
            OPT_TODAY_ARGUMENTS,
            SEMI_COLON,
        ])),
        TODAY_MAPLIKE => Row::Seq(parts_of(&[
            OPT_READ_ONLY,
            MAPLIKE,
            GENERICS_TODAY_KEY_AND_VALUE_TYPES,
            SEMI_COLON,
        ])),
        TODAY_SETLIKE => Row::Seq(parts_of(&[
            OPT_READ_ONLY,
            SETLIKE,
            GENERICS_TODAY_ATTRIBUTED_TYPE,
            SEMI_COLON,
        ])),
        TODAY_STRINGIFIER => Row::Seq(parts_of(&[STRINGIFIER, SEMI_COLON])),
        TODAY_INTERFACE_MEMBER_KIND => Row::First(parts_of(&[
            TODAY_CONST,
            TODAY_ATTRIBUTE_MEMBER,
            TODAY_CONSTRUCTOR,
            TODAY_OPERATION,
            TODAY_ITERABLE,
            TODAY_ASYNC_ITERABLE,
            TODAY_MAPLIKE,
            TODAY_SETLIKE,
            TODAY_STRINGIFIER,
        ])),
        TODAY_INTERFACE_MEMBER => Row::Seq(parts_of(&[
            TODAY_DOCS,
            TODAY_ATTRIBUTE_LISTS,
            TODAY_INTERFACE_MEMBER_KIND,
        ])),
        TODAY_MIXIN_OPERATION => Row::Seq(parts_of(&[
            OPT_STRINGIFIER,
            TODAY_TYPE,
            OPT_IDENTIFIER,
            TODAY_ARGUMENTS,
            SEMI_COLON,
        ])),
        TODAY_MIXIN_ATTRIBUTE => Row::Seq(parts_of(&[
            OPT_STRINGIFIER,
            OPT_READ_ONLY,
            ATTRIBUTE,
            TODAY_ATTRIBUTED_TYPE,
            IDENTIFIER,
            SEMI_COLON,
        ])),
        TODAY_MIXIN_MEMBER_KIND => Row::First(parts_of(&[
            TODAY_CONST,
            TODAY_MIXIN_OPERATION,
            TODAY_MIXIN_ATTRIBUTE,
            TODAY_STRINGIFIER,
        ])),
        TODAY_MIXIN_MEMBER => Row::Seq(parts_of(&[
            TODAY_DOCS,
            TODAY_ATTRIBUTE_LISTS,
            TODAY_MIXIN_MEMBER_KIND,
        ])),
        TODAY_NAMESPACE_OPERATION => Row::Seq(parts_of(&[
            TODAY_TYPE,
            OPT_IDENTIFIER,
            TODAY_ARGUMENTS,
            SEMI_COLON,
        ])),
        TODAY_NAMESPACE_ATTRIBUTE => Row::Seq(parts_of(&[
            READ_ONLY,
            ATTRIBUTE,
            TODAY_ATTRIBUTED_TYPE,
            IDENTIFIER,
            SEMI_COLON,
        ])),
        TODAY_NAMESPACE_MEMBER_KIND => Row::First(parts_of(&[
            TODAY_CONST,
            TODAY_NAMESPACE_OPERATION,
            TODAY_NAMESPACE_ATTRIBUTE,
        ])),
        TODAY_NAMESPACE_MEMBER => Row::Seq(parts_of(&[
            TODAY_DOCS,
            TODAY_ATTRIBUTE_LISTS,
            TODAY_NAMESPACE_MEMBER_KIND,
        ])),
        TODAY_DICTIONARY_MEMBER => Row::Seq(parts_of(&[
            TODAY_DOCS,
            TODAY_ATTRIBUTE_LISTS,
            OPT_REQUIRED,
            TODAY_ATTRIBUTED_TYPE,
            IDENTIFIER,
            OPT_TODAY_DEFAULT,
            SEMI_COLON,
        ])),
        TODAY_ENUM_VALUE => Row::Seq(parts_of(&[TODAY_DOCS, STRING_LIT])),
        TAIL_TODAY_ENUM_VALUE_COMMA => Row::Tail(Rule(TODAY_ENUM_VALUE), Rule(COMMA)),
        LIST1_TODAY_ENUM_VALUE_COMMA => Row::List1(
            Rule(TODAY_ENUM_VALUE),
            Rule(TAIL_TODAY_ENUM_VALUE_COMMA),
        ),
        TODAY_INTERFACE_MEMBERS => Row::Many(Rule(TODAY_INTERFACE_MEMBER)),
        BRACED_TODAY_INTERFACE_MEMBERS => Row::Seq(parts_of(&[
            OPEN_BRACE,
            TODAY_INTERFACE_MEMBERS,
            TODAY_DOCS,
            CLOSE_BRACE,
        ])),
        TODAY_MIXIN_MEMBERS => Row::Many(Rule(TODAY_MIXIN_MEMBER)),
        BRACED_TODAY_MIXIN_MEMBERS => Row::Seq(parts_of(&[
            OPEN_BRACE,
            TODAY_MIXIN_MEMBERS,
            TODAY_DOCS,
            CLOSE_BRACE,
        ])),
        TODAY_NAMESPACE_MEMBERS => Row::Many(Rule(TODAY_NAMESPACE_MEMBER)),
        BRACED_TODAY_NAMESPACE_MEMBERS => Row::Seq(parts_of(&[
            OPEN_BRACE,
            TODAY_NAMESPACE_MEMBERS,
            TODAY_DOCS,
            CLOSE_BRACE,
        ])),
        TODAY_DICTIONARY_MEMBERS => Row::Many(Rule(TODAY_DICTIONARY_MEMBER)),
        BRACED_TODAY_DICTIONARY_MEMBERS => Row::Seq(parts_of(&[
            OPEN_BRACE,
            TODAY_DICTIONARY_MEMBERS,
            TODAY_DOCS,
            CLOSE_BRACE,
        ])),
        _ => Row::Seq(parts_of(&[
            OPEN_BRACE,
            LIST1_TODAY_ENUM_VALUE_COMMA,
            OPT_COMMA,
            TODAY_DOCS,
            CLOSE_BRACE,
        ])),
    }
}

/// The name of a rule from 463 to 501.
pub(super) fn name(number: u16) -> &'static str
    requires low { 463 ≤ number }
    requires high { number < 502 }
    ensures { result.now ≡ name_of number }
{
    match number {
        TODAY_KEY_AND_VALUE_TYPES => "today_key_and_value_types",
        GENERICS_TODAY_KEY_AND_VALUE_TYPES => "generics_today_key_and_value_types",
        TODAY_SECOND_TYPE => "today_second_type",
        OPT_TODAY_SECOND_TYPE => "opt_today_second_type",
        TODAY_ITERATED => "today_iterated",
        TODAY_CONST => "today_const",
        TODAY_ATTRIBUTE_MEMBER => "today_attribute_member",
        TODAY_CONSTRUCTOR => "today_constructor",
        TODAY_OPERATION => "today_operation",
        TODAY_ITERABLE => "today_iterable",
        TODAY_ASYNC_WORDS => "today_async_words",
        OPT_TODAY_ARGUMENTS => "opt_today_arguments",
        TODAY_ASYNC_ITERABLE => "today_async_iterable",
        TODAY_MAPLIKE => "today_maplike",
        TODAY_SETLIKE => "today_setlike",
        TODAY_STRINGIFIER => "today_stringifier",
        TODAY_INTERFACE_MEMBER_KIND => "today_interface_member_kind",
        TODAY_INTERFACE_MEMBER => "today_interface_member",
        TODAY_MIXIN_OPERATION => "today_mixin_operation",
        TODAY_MIXIN_ATTRIBUTE => "today_mixin_attribute",
        TODAY_MIXIN_MEMBER_KIND => "today_mixin_member_kind",
        TODAY_MIXIN_MEMBER => "today_mixin_member",
        TODAY_NAMESPACE_OPERATION => "today_namespace_operation",
        TODAY_NAMESPACE_ATTRIBUTE => "today_namespace_attribute",
        TODAY_NAMESPACE_MEMBER_KIND => "today_namespace_member_kind",
        TODAY_NAMESPACE_MEMBER => "today_namespace_member",
        TODAY_DICTIONARY_MEMBER => "today_dictionary_member",
        TODAY_ENUM_VALUE => "today_enum_value",
        TAIL_TODAY_ENUM_VALUE_COMMA => "tail_today_enum_value_comma",
        LIST1_TODAY_ENUM_VALUE_COMMA => "list1_today_enum_value_comma",
        TODAY_INTERFACE_MEMBERS => "today_interface_members",
        BRACED_TODAY_INTERFACE_MEMBERS => "braced_today_interface_members",
        TODAY_MIXIN_MEMBERS => "today_mixin_members",
        BRACED_TODAY_MIXIN_MEMBERS => "braced_today_mixin_members",
        TODAY_NAMESPACE_MEMBERS => "today_namespace_members",
        BRACED_TODAY_NAMESPACE_MEMBERS => "braced_today_namespace_members",
        TODAY_DICTIONARY_MEMBERS => "today_dictionary_members",
        BRACED_TODAY_DICTIONARY_MEMBERS => "braced_today_dictionary_members",
        _ => "braced_today_enum_values",
    }
}
