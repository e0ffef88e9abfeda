//! Members of mixins, namespaces and dictionaries, and the values of an enum.
//!
//! Written by tools/grammar.py, and not edited by hand.

ghost use Rattle.std.specs.Prelude.{◌≡◌, ◌<◌, ◌≤◌};
ghost use Rattle.weedle_grammar.specs.written.Names.{name_of};
ghost use Rattle.weedle_grammar.specs.written.Table.{row_of};
ghost use Rattle.weedle_grammar.specs.View.{row_view};

use crate::grammar::interface_members::{
    CONST_MEMBER, OPT_DOCSTRING, OPT_IDENTIFIER, OPT_READ_ONLY, STRINGIFIER_MEMBER,
};
use crate::grammar::keywords::{ATTRIBUTE, READ_ONLY, REQUIRED, STRINGIFIER};
use crate::grammar::leaves::{IDENTIFIER, STRING_LIT};
use crate::grammar::symbols::{CLOSE_BRACE, COMMA, OPEN_BRACE, SEMI_COLON};
use crate::grammar::types::{
    ATTRIBUTED_TYPE, OPT_DEFAULT, OPT_EXTENDED_ATTRIBUTE_LIST, PARENTHESIZED_ARGUMENT_LIST,
    RETURN_TYPE, TYPE,
};
use crate::row::{Row, parts_of};
use crate::rule::Rule;

pub const OPT_STRINGIFIER: u16 = 349;

pub const OPERATION_MIXIN_MEMBER: u16 = 350;

pub const ATTRIBUTE_MIXIN_MEMBER: u16 = 351;

pub const MIXIN_MEMBER: u16 = 352;

pub const MIXIN_MEMBERS: u16 = 353;

pub const BRACED_MIXIN_MEMBERS: u16 = 354;

pub const OPERATION_NAMESPACE_MEMBER: u16 = 355;

pub const ATTRIBUTE_NAMESPACE_MEMBER: u16 = 356;

pub const NAMESPACE_MEMBER: u16 = 357;

pub const NAMESPACE_MEMBERS: u16 = 358;

pub const BRACED_NAMESPACE_MEMBERS: u16 = 359;

pub const OPT_REQUIRED: u16 = 360;

pub const DICTIONARY_MEMBER: u16 = 361;

pub const DICTIONARY_MEMBERS: u16 = 362;

pub const BRACED_DICTIONARY_MEMBERS: u16 = 363;

pub const ENUM_VARIANT: u16 = 364;

pub const TAIL_ENUM_VARIANT_COMMA: u16 = 365;

pub const LIST1_ENUM_VARIANT_COMMA: u16 = 366;

pub const OPT_COMMA: u16 = 367;

pub const ENUM_VALUE_LIST: u16 = 368;

pub const BRACED_ENUM_VALUE_LIST: u16 = 369;

impl Rule {
    /// An operation of a mixin, as `undefined f(long x);`.
    pub const OPERATION_MIXIN_MEMBER: Rule = Rule(OPERATION_MIXIN_MEMBER);
    /// An attribute of a mixin, as `readonly attribute long x;`.
    pub const ATTRIBUTE_MIXIN_MEMBER: Rule = Rule(ATTRIBUTE_MIXIN_MEMBER);
    /// A member of a mixin.
    pub const MIXIN_MEMBER: Rule = Rule(MIXIN_MEMBER);
    /// The members of a mixin, none included.
    pub const MIXIN_MEMBERS: Rule = Rule(MIXIN_MEMBERS);
    /// An operation of a namespace, as `undefined f(long x);`.
    pub const OPERATION_NAMESPACE_MEMBER: Rule = Rule(OPERATION_NAMESPACE_MEMBER);
    /// An attribute of a namespace, as `readonly attribute long x;`.
    pub const ATTRIBUTE_NAMESPACE_MEMBER: Rule = Rule(ATTRIBUTE_NAMESPACE_MEMBER);
    /// A member of a namespace.
    pub const NAMESPACE_MEMBER: Rule = Rule(NAMESPACE_MEMBER);
    /// The members of a namespace, none included.
    pub const NAMESPACE_MEMBERS: Rule = Rule(NAMESPACE_MEMBERS);
    /// A member of a dictionary, as `required long x;`.
    pub const DICTIONARY_MEMBER: Rule = Rule(DICTIONARY_MEMBER);
    /// The members of a dictionary, none included.
    pub const DICTIONARY_MEMBERS: Rule = Rule(DICTIONARY_MEMBERS);
    /// A value of an enum, as `"a"`.
    pub const ENUM_VARIANT: Rule = Rule(ENUM_VARIANT);
    /// The values of an enum, one at least, as `"a", "b",`.
    pub const ENUM_VALUE_LIST: Rule = Rule(ENUM_VALUE_LIST);
}

/// The row of a rule from 349 to 369.
#[inline(always)]
pub(super) fn row(number: u16) -> Row
    requires low { 349 ≤ number }
    requires high { number < 370 }
    ensures { row_view result ≡ row_of number }
{
    match number {
        OPT_STRINGIFIER => Row::Opt(Rule(STRINGIFIER)),
        OPERATION_MIXIN_MEMBER => Row::Seq(parts_of(&[
            OPT_EXTENDED_ATTRIBUTE_LIST,
            OPT_STRINGIFIER,
            RETURN_TYPE,
            OPT_IDENTIFIER,
            PARENTHESIZED_ARGUMENT_LIST,
            SEMI_COLON,
        ])),
        ATTRIBUTE_MIXIN_MEMBER => Row::Seq(parts_of(&[
            OPT_EXTENDED_ATTRIBUTE_LIST,
            OPT_STRINGIFIER,
            OPT_READ_ONLY,
            ATTRIBUTE,
            ATTRIBUTED_TYPE,
            IDENTIFIER,
            SEMI_COLON,
        ])),
        MIXIN_MEMBER => Row::First(parts_of(&[
            CONST_MEMBER,
            OPERATION_MIXIN_MEMBER,
            ATTRIBUTE_MIXIN_MEMBER,
            STRINGIFIER_MEMBER,
        ])),
        MIXIN_MEMBERS => Row::Many(Rule(MIXIN_MEMBER)),
        BRACED_MIXIN_MEMBERS => Row::Seq(parts_of(&[OPEN_BRACE, MIXIN_MEMBERS, CLOSE_BRACE])),
        OPERATION_NAMESPACE_MEMBER => Row::Seq(parts_of(&[
            OPT_DOCSTRING,
            OPT_EXTENDED_ATTRIBUTE_LIST,
            RETURN_TYPE,
            OPT_IDENTIFIER,
            PARENTHESIZED_ARGUMENT_LIST,
            SEMI_COLON,
        ])),
        ATTRIBUTE_NAMESPACE_MEMBER => Row::Seq(parts_of(&[
            OPT_DOCSTRING,
            OPT_EXTENDED_ATTRIBUTE_LIST,
            READ_ONLY,
            ATTRIBUTE,
            ATTRIBUTED_TYPE,
            IDENTIFIER,
            SEMI_COLON,
        ])),
        NAMESPACE_MEMBER => Row::First(parts_of(&[
            OPERATION_NAMESPACE_MEMBER,
            ATTRIBUTE_NAMESPACE_MEMBER,
        ])),
        NAMESPACE_MEMBERS => Row::Many(Rule(NAMESPACE_MEMBER)),
        BRACED_NAMESPACE_MEMBERS => Row::Seq(parts_of(&[
            OPEN_BRACE,
            NAMESPACE_MEMBERS,
            CLOSE_BRACE,
        ])),
        OPT_REQUIRED => Row::Opt(Rule(REQUIRED)),
        DICTIONARY_MEMBER => Row::Seq(parts_of(&[
            OPT_DOCSTRING,
            OPT_EXTENDED_ATTRIBUTE_LIST,
            OPT_REQUIRED,
            TYPE,
            IDENTIFIER,
            OPT_DEFAULT,
            SEMI_COLON,
        ])),
        DICTIONARY_MEMBERS => Row::Many(Rule(DICTIONARY_MEMBER)),
        BRACED_DICTIONARY_MEMBERS => Row::Seq(parts_of(&[
            OPEN_BRACE,
            DICTIONARY_MEMBERS,
            CLOSE_BRACE,
        ])),
        ENUM_VARIANT => Row::Seq(parts_of(&[OPT_DOCSTRING, STRING_LIT])),
        TAIL_ENUM_VARIANT_COMMA => Row::Tail(Rule(ENUM_VARIANT), Rule(COMMA)),
        LIST1_ENUM_VARIANT_COMMA => Row::List1(Rule(ENUM_VARIANT), Rule(TAIL_ENUM_VARIANT_COMMA)),
        OPT_COMMA => Row::Opt(Rule(COMMA)),
        ENUM_VALUE_LIST => Row::Seq(parts_of(&[LIST1_ENUM_VARIANT_COMMA, OPT_COMMA])),
        _ => Row::Seq(parts_of(&[OPEN_BRACE, ENUM_VALUE_LIST, CLOSE_BRACE])),
    }
}

/// The name of a rule from 349 to 369.
pub(super) fn name(number: u16) -> &'static str
    requires low { 349 ≤ number }
    requires high { number < 370 }
    ensures { result.now ≡ name_of number }
{
    match number {
        OPT_STRINGIFIER => "opt_stringifier",
        OPERATION_MIXIN_MEMBER => "operation_mixin_member",
        ATTRIBUTE_MIXIN_MEMBER => "attribute_mixin_member",
        MIXIN_MEMBER => "mixin_member",
        MIXIN_MEMBERS => "mixin_members",
        BRACED_MIXIN_MEMBERS => "braced_mixin_members",
        OPERATION_NAMESPACE_MEMBER => "operation_namespace_member",
        ATTRIBUTE_NAMESPACE_MEMBER => "attribute_namespace_member",
        NAMESPACE_MEMBER => "namespace_member",
        NAMESPACE_MEMBERS => "namespace_members",
        BRACED_NAMESPACE_MEMBERS => "braced_namespace_members",
        OPT_REQUIRED => "opt_required",
        DICTIONARY_MEMBER => "dictionary_member",
        DICTIONARY_MEMBERS => "dictionary_members",
        BRACED_DICTIONARY_MEMBERS => "braced_dictionary_members",
        ENUM_VARIANT => "enum_variant",
        TAIL_ENUM_VARIANT_COMMA => "tail_enum_variant_comma",
        LIST1_ENUM_VARIANT_COMMA => "list1_enum_variant_comma",
        OPT_COMMA => "opt_comma",
        ENUM_VALUE_LIST => "enum_value_list",
        _ => "braced_enum_value_list",
    }
}
