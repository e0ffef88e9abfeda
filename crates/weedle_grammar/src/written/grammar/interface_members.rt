//! Members of interfaces.
//!
//! Written by tools/grammar.py, and not edited by hand.

ghost use Rattle.std.specs.Prelude.{◌≡◌, ◌<◌, ◌≤◌};
ghost use Rattle.weedle_grammar.specs.written.Names.{name_of};
ghost use Rattle.weedle_grammar.specs.written.Table.{row_of};
ghost use Rattle.weedle_grammar.specs.View.{row_view};

use crate::grammar::keywords::{
    ASYNC, ATTRIBUTE, CONST, CONSTRUCTOR, DELETER, GETTER, INHERIT, ITERABLE, LEGACY_CALLER,
    MAPLIKE, READ_ONLY, SETLIKE, SETTER, STATIC, STRINGIFIER,
};
use crate::grammar::leaves::{DOCSTRING, IDENTIFIER};
use crate::grammar::literals::CONST_VALUE;
use crate::grammar::simple_types::CONST_TYPE;
use crate::grammar::symbols::{
    ASSIGN, CLOSE_BRACE, COLON, COMMA, GREATER_THAN, LESS_THAN, OPEN_BRACE, SEMI_COLON,
};
use crate::grammar::types::{
    ATTRIBUTED_TYPE, OPT_EXTENDED_ATTRIBUTE_LIST, PARENTHESIZED_ARGUMENT_LIST, RETURN_TYPE,
};
use crate::row::{Row, parts_of};
use crate::rule::Rule;

pub const OPT_DOCSTRING: u16 = 317;

pub const OPT_IDENTIFIER: u16 = 318;

pub const OPT_READ_ONLY: u16 = 319;

pub const KEY_AND_VALUE_TYPES: u16 = 320;

pub const GENERICS_ATTRIBUTED_TYPE: u16 = 321;

pub const GENERICS_KEY_AND_VALUE_TYPES: u16 = 322;

pub const INHERITANCE: u16 = 323;

pub const OPT_INHERITANCE: u16 = 324;

pub const SPECIAL: u16 = 325;

pub const OPT_SPECIAL: u16 = 326;

pub const STRINGIFIER_OR_INHERIT_OR_STATIC: u16 = 327;

pub const OPT_STRINGIFIER_OR_INHERIT_OR_STATIC: u16 = 328;

pub const STRINGIFIER_OR_STATIC: u16 = 329;

pub const OPT_STRINGIFIER_OR_STATIC: u16 = 330;

pub const CONST_MEMBER: u16 = 331;

pub const ATTRIBUTE_INTERFACE_MEMBER: u16 = 332;

pub const CONSTRUCTOR_INTERFACE_MEMBER: u16 = 333;

pub const OPERATION_INTERFACE_MEMBER: u16 = 334;

pub const SINGLE_TYPED_ITERABLE: u16 = 335;

pub const DOUBLE_TYPED_ITERABLE: u16 = 336;

pub const ITERABLE_INTERFACE_MEMBER: u16 = 337;

pub const ASYNC_ITERABLE: u16 = 338;

pub const OPT_PARENTHESIZED_ARGUMENT_LIST: u16 = 339;

pub const SINGLE_TYPED_ASYNC_ITERABLE: u16 = 340;

pub const DOUBLE_TYPED_ASYNC_ITERABLE: u16 = 341;

pub const ASYNC_ITERABLE_INTERFACE_MEMBER: u16 = 342;

pub const MAPLIKE_INTERFACE_MEMBER: u16 = 343;

pub const SETLIKE_INTERFACE_MEMBER: u16 = 344;

pub const STRINGIFIER_MEMBER: u16 = 345;

pub const INTERFACE_MEMBER: u16 = 346;

pub const INTERFACE_MEMBERS: u16 = 347;

pub const BRACED_INTERFACE_MEMBERS: u16 = 348;

impl Rule {
    /// What an interface or a dictionary inherits from, as `: Node`.
    pub const INHERITANCE: Rule = Rule(INHERITANCE);
    /// `getter`, `setter`, `deleter` or `legacycaller`.
    pub const SPECIAL: Rule = Rule(SPECIAL);
    /// `stringifier`, `inherit` or `static`.
    pub const STRINGIFIER_OR_INHERIT_OR_STATIC: Rule = Rule(STRINGIFIER_OR_INHERIT_OR_STATIC);
    /// `stringifier` or `static`.
    pub const STRINGIFIER_OR_STATIC: Rule = Rule(STRINGIFIER_OR_STATIC);
    /// A constant, as `const long X = 5;`.
    pub const CONST_MEMBER: Rule = Rule(CONST_MEMBER);
    /// An attribute of an interface, as `readonly attribute long x;`.
    pub const ATTRIBUTE_INTERFACE_MEMBER: Rule = Rule(ATTRIBUTE_INTERFACE_MEMBER);
    /// A constructor, as `constructor(long x);`.
    pub const CONSTRUCTOR_INTERFACE_MEMBER: Rule = Rule(CONSTRUCTOR_INTERFACE_MEMBER);
    /// An operation of an interface, as `undefined f(long x);`.
    pub const OPERATION_INTERFACE_MEMBER: Rule = Rule(OPERATION_INTERFACE_MEMBER);
    /// `iterable<long>;`.
    pub const SINGLE_TYPED_ITERABLE: Rule = Rule(SINGLE_TYPED_ITERABLE);
    /// `iterable<DOMString, long>;`.
    pub const DOUBLE_TYPED_ITERABLE: Rule = Rule(DOUBLE_TYPED_ITERABLE);
    /// An iteration, over one type or two.
    pub const ITERABLE_INTERFACE_MEMBER: Rule = Rule(ITERABLE_INTERFACE_MEMBER);
    /// `async iterable<long>;`.
    pub const SINGLE_TYPED_ASYNC_ITERABLE: Rule = Rule(SINGLE_TYPED_ASYNC_ITERABLE);
    /// `async iterable<DOMString, long>;`.
    pub const DOUBLE_TYPED_ASYNC_ITERABLE: Rule = Rule(DOUBLE_TYPED_ASYNC_ITERABLE);
    /// An asynchronous iteration, over one type or two.
    pub const ASYNC_ITERABLE_INTERFACE_MEMBER: Rule = Rule(ASYNC_ITERABLE_INTERFACE_MEMBER);
    /// `maplike<DOMString, long>;`.
    pub const MAPLIKE_INTERFACE_MEMBER: Rule = Rule(MAPLIKE_INTERFACE_MEMBER);
    /// `setlike<long>;`.
    pub const SETLIKE_INTERFACE_MEMBER: Rule = Rule(SETLIKE_INTERFACE_MEMBER);
    /// `stringifier;`.
    pub const STRINGIFIER_MEMBER: Rule = Rule(STRINGIFIER_MEMBER);
    /// A member of an interface.
    pub const INTERFACE_MEMBER: Rule = Rule(INTERFACE_MEMBER);
    /// The members of an interface, none included.
    pub const INTERFACE_MEMBERS: Rule = Rule(INTERFACE_MEMBERS);
}

/// The row of a rule from 317 to 348.
#[inline(always)]
pub(super) fn row(number: u16) -> Row
    requires low { 317 ≤ number }
    requires high { number < 349 }
    ensures { row_view result ≡ row_of number }
{
    match number {
        OPT_DOCSTRING => Row::Opt(Rule(DOCSTRING)),
        OPT_IDENTIFIER => Row::Opt(Rule(IDENTIFIER)),
        OPT_READ_ONLY => Row::Opt(Rule(READ_ONLY)),
        KEY_AND_VALUE_TYPES => Row::Seq(parts_of(&[ATTRIBUTED_TYPE, COMMA, ATTRIBUTED_TYPE])),
        GENERICS_ATTRIBUTED_TYPE => Row::Seq(parts_of(&[LESS_THAN, ATTRIBUTED_TYPE, GREATER_THAN])),
        GENERICS_KEY_AND_VALUE_TYPES => Row::Seq(parts_of(&[
            LESS_THAN,
            KEY_AND_VALUE_TYPES,
            GREATER_THAN,
        ])),
        INHERITANCE => Row::Seq(parts_of(&[COLON, IDENTIFIER])),
        OPT_INHERITANCE => Row::Opt(Rule(INHERITANCE)),
        SPECIAL => Row::First(parts_of(&[GETTER, SETTER, DELETER, LEGACY_CALLER])),
        OPT_SPECIAL => Row::Opt(Rule(SPECIAL)),
        STRINGIFIER_OR_INHERIT_OR_STATIC => Row::First(parts_of(&[STRINGIFIER, INHERIT, STATIC])),
        OPT_STRINGIFIER_OR_INHERIT_OR_STATIC => Row::Opt(Rule(STRINGIFIER_OR_INHERIT_OR_STATIC)),
        STRINGIFIER_OR_STATIC => Row::First(parts_of(&[STRINGIFIER, STATIC])),
        OPT_STRINGIFIER_OR_STATIC => Row::Opt(Rule(STRINGIFIER_OR_STATIC)),
        CONST_MEMBER => Row::Seq(parts_of(&[
            OPT_EXTENDED_ATTRIBUTE_LIST,
            CONST,
            CONST_TYPE,
            IDENTIFIER,
            ASSIGN,
            CONST_VALUE,
            SEMI_COLON,
        ])),
        ATTRIBUTE_INTERFACE_MEMBER => Row::Seq(parts_of(&[
            OPT_EXTENDED_ATTRIBUTE_LIST,
            OPT_STRINGIFIER_OR_INHERIT_OR_STATIC,
            OPT_READ_ONLY,
            ATTRIBUTE,
            ATTRIBUTED_TYPE,
            IDENTIFIER,
            SEMI_COLON,
        ])),
        CONSTRUCTOR_INTERFACE_MEMBER => Row::Seq(parts_of(&[
            OPT_DOCSTRING,
            OPT_EXTENDED_ATTRIBUTE_LIST,
            CONSTRUCTOR,
            PARENTHESIZED_ARGUMENT_LIST,
            SEMI_COLON,
        ])),
        OPERATION_INTERFACE_MEMBER => Row::Seq(parts_of(&[
            OPT_DOCSTRING,
            OPT_EXTENDED_ATTRIBUTE_LIST,
            OPT_STRINGIFIER_OR_STATIC,
            OPT_SPECIAL,
            RETURN_TYPE,
            OPT_IDENTIFIER,
            PARENTHESIZED_ARGUMENT_LIST,
            SEMI_COLON,
        ])),
        SINGLE_TYPED_ITERABLE => Row::Seq(parts_of(&[
            OPT_EXTENDED_ATTRIBUTE_LIST,
            ITERABLE,
            GENERICS_ATTRIBUTED_TYPE,
            SEMI_COLON,
        ])),
        DOUBLE_TYPED_ITERABLE => Row::Seq(parts_of(&[
            OPT_EXTENDED_ATTRIBUTE_LIST,
            ITERABLE,
            GENERICS_KEY_AND_VALUE_TYPES,
            SEMI_COLON,
        ])),
        ITERABLE_INTERFACE_MEMBER => Row::First(parts_of(&[
            SINGLE_TYPED_ITERABLE,
            DOUBLE_TYPED_ITERABLE,
        ])),
        ASYNC_ITERABLE => Row::Seq(parts_of(&[ASYNC, ITERABLE])),
        OPT_PARENTHESIZED_ARGUMENT_LIST => Row::Opt(Rule(PARENTHESIZED_ARGUMENT_LIST)),
        SINGLE_TYPED_ASYNC_ITERABLE => Row::Seq(parts_of(&[
            OPT_EXTENDED_ATTRIBUTE_LIST,
            ASYNC_ITERABLE,
            GENERICS_ATTRIBUTED_TYPE,
            OPT_PARENTHESIZED_ARGUMENT_LIST,
            SEMI_COLON,
        ])),
        DOUBLE_TYPED_ASYNC_ITERABLE => Row::Seq(parts_of(&[
            OPT_EXTENDED_ATTRIBUTE_LIST,
            ASYNC_ITERABLE,
            GENERICS_KEY_AND_VALUE_TYPES,
            OPT_PARENTHESIZED_ARGUMENT_LIST,
            SEMI_COLON,
        ])),
        ASYNC_ITERABLE_INTERFACE_MEMBER => Row::First(parts_of(&[
            SINGLE_TYPED_ASYNC_ITERABLE,
            DOUBLE_TYPED_ASYNC_ITERABLE,
        ])),
        MAPLIKE_INTERFACE_MEMBER => Row::Seq(parts_of(&[
            OPT_EXTENDED_ATTRIBUTE_LIST,
            OPT_READ_ONLY,
            MAPLIKE,
            GENERICS_KEY_AND_VALUE_TYPES,
            SEMI_COLON,
        ])),
        SETLIKE_INTERFACE_MEMBER => Row::Seq(parts_of(&[
            OPT_EXTENDED_ATTRIBUTE_LIST,
            OPT_READ_ONLY,
            SETLIKE,
            GENERICS_ATTRIBUTED_TYPE,
            SEMI_COLON,
        ])),
        STRINGIFIER_MEMBER => Row::Seq(parts_of(&[
            OPT_EXTENDED_ATTRIBUTE_LIST,
            STRINGIFIER,
            SEMI_COLON,
        ])),
        INTERFACE_MEMBER => Row::First(parts_of(&[
            CONST_MEMBER,
            ATTRIBUTE_INTERFACE_MEMBER,
            CONSTRUCTOR_INTERFACE_MEMBER,
            OPERATION_INTERFACE_MEMBER,
            ITERABLE_INTERFACE_MEMBER,
            ASYNC_ITERABLE_INTERFACE_MEMBER,
            MAPLIKE_INTERFACE_MEMBER,
            SETLIKE_INTERFACE_MEMBER,
            STRINGIFIER_MEMBER,
        ])),
        INTERFACE_MEMBERS => Row::Many(Rule(INTERFACE_MEMBER)),
        _ => Row::Seq(parts_of(&[OPEN_BRACE, INTERFACE_MEMBERS, CLOSE_BRACE])),
    }
}

/// The name of a rule from 317 to 348.
pub(super) fn name(number: u16) -> &'static str
    requires low { 317 ≤ number }
    requires high { number < 349 }
    ensures { result.now ≡ name_of number }
{
    match number {
        OPT_DOCSTRING => "opt_docstring",
        OPT_IDENTIFIER => "opt_identifier",
        OPT_READ_ONLY => "opt_read_only",
        KEY_AND_VALUE_TYPES => "key_and_value_types",
        GENERICS_ATTRIBUTED_TYPE => "generics_attributed_type",
        GENERICS_KEY_AND_VALUE_TYPES => "generics_key_and_value_types",
        INHERITANCE => "inheritance",
        OPT_INHERITANCE => "opt_inheritance",
        SPECIAL => "special",
        OPT_SPECIAL => "opt_special",
        STRINGIFIER_OR_INHERIT_OR_STATIC => "stringifier_or_inherit_or_static",
        OPT_STRINGIFIER_OR_INHERIT_OR_STATIC => "opt_stringifier_or_inherit_or_static",
        STRINGIFIER_OR_STATIC => "stringifier_or_static",
        OPT_STRINGIFIER_OR_STATIC => "opt_stringifier_or_static",
        CONST_MEMBER => "const_member",
        ATTRIBUTE_INTERFACE_MEMBER => "attribute_interface_member",
        CONSTRUCTOR_INTERFACE_MEMBER => "constructor_interface_member",
        OPERATION_INTERFACE_MEMBER => "operation_interface_member",
        SINGLE_TYPED_ITERABLE => "single_typed_iterable",
        DOUBLE_TYPED_ITERABLE => "double_typed_iterable",
        ITERABLE_INTERFACE_MEMBER => "iterable_interface_member",
        ASYNC_ITERABLE => "async_iterable",
        OPT_PARENTHESIZED_ARGUMENT_LIST => "opt_parenthesized_argument_list",
        SINGLE_TYPED_ASYNC_ITERABLE => "single_typed_async_iterable",
        DOUBLE_TYPED_ASYNC_ITERABLE => "double_typed_async_iterable",
        ASYNC_ITERABLE_INTERFACE_MEMBER => "async_iterable_interface_member",
        MAPLIKE_INTERFACE_MEMBER => "maplike_interface_member",
        SETLIKE_INTERFACE_MEMBER => "setlike_interface_member",
        STRINGIFIER_MEMBER => "stringifier_member",
        INTERFACE_MEMBER => "interface_member",
        INTERFACE_MEMBERS => "interface_members",
        _ => "braced_interface_members",
    }
}
