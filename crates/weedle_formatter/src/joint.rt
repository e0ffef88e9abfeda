//! How tokens relate to one another, by their rules.

use crate::piece::{Joint, Role};
use weedle_grammar::grammar::interface_members::BRACED_INTERFACE_MEMBERS;
use weedle_grammar::grammar::keywords::OR;
use weedle_grammar::grammar::literals::EMPTY_DICTIONARY_LIT;
use weedle_grammar::grammar::other_members::{
    BRACED_DICTIONARY_MEMBERS, BRACED_ENUM_VALUE_LIST, BRACED_MIXIN_MEMBERS,
    BRACED_NAMESPACE_MEMBERS, OPT_COMMA, TAIL_ENUM_VARIANT_COMMA,
};
use weedle_grammar::grammar::simple_types::TAIL_IDENTIFIER_COMMA;
use weedle_grammar::grammar::symbols::{
    ASSIGN, CLOSE_BRACE, COMMA, LESS_THAN, OPEN_BRACE, OPEN_BRACKET, OPEN_PAREN,
};
use weedle_grammar::grammar::today_members::{
    BRACED_TODAY_DICTIONARY_MEMBERS, BRACED_TODAY_ENUM_VALUES, BRACED_TODAY_INTERFACE_MEMBERS,
    BRACED_TODAY_MIXIN_MEMBERS, BRACED_TODAY_NAMESPACE_MEMBERS, TAIL_TODAY_ENUM_VALUE_COMMA,
};
use weedle_grammar::grammar::today_types::{
    TAIL_TODAY_ARGUMENT_COMMA, TAIL_TODAY_ATTRIBUTE_COMMA, TAIL_TODAY_UNION_MEMBER_TYPE_OR,
    TODAY_ARGUMENTS, TODAY_ATTRIBUTE_NAMED_ARG_LIST, TODAY_ATTRIBUTE_NUMBER,
    TODAY_ATTRIBUTE_NUMBERS, TODAY_ATTRIBUTE_STRINGS, TODAY_ATTRIBUTE_WILDCARD, TODAY_ATTRIBUTES,
    TODAY_UNION_TYPE,
};
use weedle_grammar::grammar::types::{
    EXTENDED_ATTRIBUTE_IDENT, EXTENDED_ATTRIBUTE_IDENT_LIST, EXTENDED_ATTRIBUTE_LIST,
    EXTENDED_ATTRIBUTE_NAMED_ARG_LIST, PARENTHESIZED_ARGUMENT_LIST, TAIL_ARGUMENT_COMMA,
    TAIL_EXTENDED_ATTRIBUTE_COMMA, TAIL_UNION_MEMBER_TYPE_OR, UNION_TYPE,
};
use weedle_layout::{is_tight_behind, is_tight_in_front};

/// A token: the numbers of its rule and of the rule that reads it.
#[derive(Clone, Copy)]
pub(crate) struct Token {
    pub(crate) rule: u16,
    pub(crate) parent: u16,
    /// Nothing stands in front of it on its line, wherever it stands.
    is_tight_in_front: bool,
    /// Nothing stands behind it on its line, whatever follows.
    is_tight_behind: bool,
}

impl Token {
    /// The token of these bytes.
    pub(crate) fn new(rule: u16, parent: u16, bytes: &[u8]) -> Token {
        Token {
            rule,
            parent,
            is_tight_in_front: is_tight_in_front(bytes),
            is_tight_behind: is_tight_behind(bytes),
        }
    }

    /// What stands for a token where there is none.
    pub(crate) fn none() -> Token {
        Token::new(0, 0, &[])
    }
}

/// What a token does to the lines behind it.
pub(crate) fn role_of(token: Token) -> Role {
    match token.parent {
        BRACED_INTERFACE_MEMBERS
        | BRACED_MIXIN_MEMBERS
        | BRACED_NAMESPACE_MEMBERS
        | BRACED_DICTIONARY_MEMBERS
        | BRACED_TODAY_INTERFACE_MEMBERS
        | BRACED_TODAY_MIXIN_MEMBERS
        | BRACED_TODAY_NAMESPACE_MEMBERS
        | BRACED_TODAY_DICTIONARY_MEMBERS => {
            if token.rule == OPEN_BRACE {
                Role::OpensBody
            } else {
                Role::ClosesBody
            }
        }
        PARENTHESIZED_ARGUMENT_LIST
        | EXTENDED_ATTRIBUTE_LIST
        | BRACED_ENUM_VALUE_LIST
        | TODAY_ARGUMENTS
        | TODAY_ATTRIBUTES
        | BRACED_TODAY_ENUM_VALUES => {
            if opens(token.rule) {
                Role::OpensList
            } else {
                Role::ClosesList
            }
        }
        UNION_TYPE | TODAY_UNION_TYPE => {
            if opens(token.rule) {
                Role::OpensUnion
            } else {
                Role::ClosesList
            }
        }
        _ => Role::Plain,
    }
}

/// Whether the rule is of a bracket that opens.
fn opens(rule: u16) -> bool {
    match rule {
        OPEN_PAREN | OPEN_BRACKET | OPEN_BRACE | LESS_THAN => true,
        _ => false,
    }
}

/// Whether an item of a list begins behind the token, which may be broken there.
pub(crate) fn ends_item(token: Token) -> bool {
    match token.parent {
        TAIL_ARGUMENT_COMMA
        | TAIL_EXTENDED_ATTRIBUTE_COMMA
        | TAIL_ENUM_VARIANT_COMMA
        | OPT_COMMA
        | TAIL_TODAY_ARGUMENT_COMMA
        | TAIL_TODAY_ATTRIBUTE_COMMA
        | TAIL_TODAY_ENUM_VALUE_COMMA => token.rule == COMMA,
        TAIL_UNION_MEMBER_TYPE_OR | TAIL_TODAY_UNION_MEMBER_TYPE_OR => token.rule == OR,
        _ => role_of(token).opens_list(),
    }
}

/// Whether a token is the `=` of an extended attribute, as in `Exposed=Window`.
fn is_assign_of_attribute(token: Token) -> bool {
    match token.parent {
        EXTENDED_ATTRIBUTE_IDENT
        | EXTENDED_ATTRIBUTE_IDENT_LIST
        | EXTENDED_ATTRIBUTE_NAMED_ARG_LIST
        | TODAY_ATTRIBUTE_NAMED_ARG_LIST
        | TODAY_ATTRIBUTE_WILDCARD
        | TODAY_ATTRIBUTE_NUMBER
        | TODAY_ATTRIBUTE_NUMBERS
        | TODAY_ATTRIBUTE_STRINGS => token.rule == ASSIGN,
        _ => false,
    }
}

/// Whether nothing is between two tokens. Arguments are apart from a type in front of them.
fn is_tight(before: Token, token: Token, are_apart: bool) -> bool {
    if token.is_tight_in_front || before.is_tight_behind {
        return true;
    }
    if is_assign_of_attribute(before) || is_assign_of_attribute(token) {
        return true;
    }
    match token.parent {
        EMPTY_DICTIONARY_LIT => token.rule == CLOSE_BRACE,
        PARENTHESIZED_ARGUMENT_LIST | TODAY_ARGUMENTS => !are_apart && token.rule == OPEN_PAREN,
        _ => before.parent == TAIL_IDENTIFIER_COMMA && before.rule == COMMA,
    }
}

/// How a token relates to the one before it.
pub(crate) fn joint_of(before: Token, token: Token, are_apart: bool) -> Joint {
    if role_of(token) == Role::ClosesBody {
        return Joint::EndOfBody;
    }
    if is_tight(before, token, are_apart) {
        Joint::Tight
    } else {
        Joint::Space
    }
}
