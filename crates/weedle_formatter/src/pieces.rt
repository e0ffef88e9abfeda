//! The pieces of a text, from the nodes of its syntax tree.

use crate::joint::{Token, ends_item, joint_of, role_of};
use crate::piece::{Gap, Joint, Kind, Piece, Role, width_of};
use crate::words::between;
use std::alloc::{AllocError, Global};
use weedle_grammar::grammar::definitions::{CALLBACK_DEFINITION, DEFINITION};
use weedle_grammar::grammar::interface_members::{INTERFACE_MEMBER, OPT_IDENTIFIER};
use weedle_grammar::grammar::leaves::{BYTES_THREE_SLASHES, DOC_LINE, PAST_LF};
use weedle_grammar::grammar::other_members::{DICTIONARY_MEMBER, MIXIN_MEMBER, NAMESPACE_MEMBER};
use weedle_grammar::grammar::symbols::CLOSE_BRACKET;
use weedle_grammar::grammar::today_definitions::{
    TODAY_CALLBACK, TODAY_DEFINITION, TODAY_DEFINITION_KIND,
};
use weedle_grammar::grammar::today_members::{
    TODAY_DICTIONARY_MEMBER, TODAY_INTERFACE_MEMBER, TODAY_MIXIN_MEMBER, TODAY_NAMESPACE_MEMBER,
};
use weedle_grammar::grammar::today_types::{
    TODAY_ARGUMENT, TODAY_ARGUMENTS, TODAY_ATTRIBUTED_NON_ANY_TYPE, TODAY_ATTRIBUTED_TYPE,
    TODAY_ATTRIBUTES,
};
use weedle_grammar::grammar::today_words::{TODAY_LAST_DOC, TODAY_TRIVIA};
use weedle_grammar::grammar::trivia::{
    BLANKS, BLOCK_COMMENT, LINE_COMMENT, LINE_END, RUN_BLANK, RUN_NOT_LINE_FEED, TRIVIA,
};
use weedle_grammar::grammar::types::{
    ATTRIBUTED_NON_ANY_TYPE, ATTRIBUTED_TYPE, EXTENDED_ATTRIBUTE_LIST, PARENTHESIZED_ARGUMENT_LIST,
    SINGLE_ARGUMENT, VARIADIC_ARGUMENT,
};
use weedle_layout::line_feeds;
use weedle_syntax::Node;

/// A walk over the nodes of a text.
#[derive(Drop)]
struct Walk<'a> {
    text: &'a [u8],
    /// The numbers of the rules of the nodes in which the last one is, and of that one.
    rules: Vec<u16>,
    pieces: Vec<Piece>,
    /// Where the token begins that is being read.
    token: usize,
    /// Where the comment or the docstring's line begins that is being read.
    start: usize,
    /// How many lines ended since the last piece.
    lines: usize,
    /// What begins with the next token, if something does.
    begins: Option<Joint>,
    /// The rule of the definition that begins with it.
    definition: u16,
    /// The number of the first piece of the last definition that has one.
    first: usize,
    /// The last token.
    before: Token,
    /// The next parenthesis is apart from what is in front of it.
    is_apart: bool,
}

/// Sets of which rule the definition is whose first piece has this number.
fn set_definition(pieces: &mut [Piece], first: usize, rule: u16) {
    if let Some(piece) = pieces.get_mut(first) {
        piece.definition = rule;
    }
}

/// Whether the rule is of a callback.
fn is_callback(rule: u16) -> bool {
    match rule {
        CALLBACK_DEFINITION | TODAY_CALLBACK => true,
        _ => false,
    }
}

/// How many pieces the text of these nodes has: a token has trivia on both sides.
fn count_of(nodes: &[Node]) -> usize {
    let mut trivia: usize = 0;
    let mut others: usize = 0;
    for node in nodes {
        match node.rule.number() {
            TRIVIA => trivia = trivia.saturating_add(1),
            LINE_END | BLOCK_COMMENT | PAST_LF => others = others.saturating_add(1),
            _ => {}
        }
    }
    others.saturating_add(trivia / 2)
}

/// The pieces of the text of these nodes, in their order.
///
/// Comments and whitespace that today's rules read behind the last definition and the docstrings
/// there are one piece, up to the end of the text: each is a node that gives something, so none may
/// come or go.
pub(crate) fn pieces_of(
    alloc: Global,
    text: &[u8],
    nodes: &[Node],
) -> Result<Vec<Piece>, AllocError> {
    let mut walk = Walk {
        text,
        rules: Vec::new(alloc),
        pieces: Vec::with_capacity(alloc, count_of(nodes))?,
        token: 0,
        start: 0,
        lines: 0,
        begins: None,
        definition: 0,
        first: 0,
        before: Token::none(),
        is_apart: false,
    };
    for node in nodes {
        if node.rule.number() == TODAY_TRIVIA {
            walk.push_rest(node.start)?;
            break;
        }
        walk.enter(node)?;
    }
    Ok(walk.pieces)
}

impl<'a> Walk<'a> {
    /// The rule of the last node, or of the one so many levels above it.
    fn above(&self, levels: usize) -> u16 {
        let many = self.rules.len();
        if levels < many {
            return self.rules[many - 1 - levels];
        }
        0
    }

    /// Goes on to the next node.
    fn enter(&mut self, node: &Node) -> Result<(), AllocError> {
        let number = node.rule.number();
        let last = self.above(0);
        let is_first = self.rules.len() == node.depth;
        self.rules.truncate(node.depth);
        self.rules.push(number)?;
        match number {
            TRIVIA if is_first => self.token = node.end,
            TRIVIA => self.push_token(node.start)?,
            BLANKS => self.skip(node),
            RUN_BLANK if self.above(1) == DOC_LINE => self.skip(node),
            LINE_COMMENT | BYTES_THREE_SLASHES => self.start = node.start,
            LINE_END => self.push_line_comment(node.start)?,
            BLOCK_COMMENT => self.push_comment(Kind::BlockComment, node.start, node.end)?,
            PAST_LF => self.push_doc_line(node.end)?,
            RUN_NOT_LINE_FEED if self.above(1) == TODAY_LAST_DOC => self.push_doc_line(node.end)?,
            _ => self.begin(number, last),
        }
        Ok(())
    }

    /// Counts the lines that end in whitespace.
    fn skip(&mut self, node: &Node) {
        let ended = line_feeds(between(self.text, node.start, node.end));
        self.lines = self.lines.saturating_add(ended);
    }

    /// Keeps what begins with a node that reads tokens, where the last node is of this rule.
    fn begin(&mut self, number: u16, last: u16) {
        match last {
            DEFINITION | TODAY_DEFINITION_KIND => self.define(number),
            _ => {}
        }
        match number {
            DEFINITION | TODAY_DEFINITION => self.begins = Some(Joint::Definition),
            INTERFACE_MEMBER
            | MIXIN_MEMBER
            | NAMESPACE_MEMBER
            | DICTIONARY_MEMBER
            | TODAY_INTERFACE_MEMBER
            | TODAY_MIXIN_MEMBER
            | TODAY_NAMESPACE_MEMBER
            | TODAY_DICTIONARY_MEMBER => self.begins = Some(Joint::Member),
            PARENTHESIZED_ARGUMENT_LIST | TODAY_ARGUMENTS => {
                self.is_apart = last == OPT_IDENTIFIER || is_callback(self.above(1))
            }
            _ => {}
        }
    }

    /// Keeps of which rule a definition is: for its first piece, or in that where it is read, as a
    /// docstring or extended attributes, before today's rules know what they belong to.
    fn define(&mut self, number: u16) {
        self.definition = number;
        let first = self.first;
        match self.begins {
            Some(Joint::Definition) => {}
            _ => set_definition(&mut self.pieces, first, number),
        }
    }

    /// Adds the token that ends there, of whose nodes the last one is the second.
    fn push_token(&mut self, end: usize) -> Result<(), AllocError> {
        let bytes = between(self.text, self.token, end);
        let token = Token::new(self.above(1), self.above(2), bytes);
        let piece = self.token_piece(token, end);
        self.push(piece)?;
        self.before = token;
        self.is_apart = false;
        self.begins = None;
        if token.rule == CLOSE_BRACKET {
            match token.parent {
                EXTENDED_ATTRIBUTE_LIST | TODAY_ATTRIBUTES => self.end_attributes(),
                _ => {}
            }
        }
        Ok(())
    }

    /// The piece of the token that ends there.
    fn token_piece(&self, token: Token, end: usize) -> Piece {
        let start = self.token;
        let before = self.before;
        let is_apart = self.is_apart;
        let mut piece = self.piece(start, end);
        piece.rule = token.rule;
        piece.role = role_of(token);
        piece.is_item = ends_item(before) != (piece.role == Role::ClosesList);
        piece.joint = match self.begins {
            Some(joint) => joint,
            None => joint_of(before, token, is_apart),
        };
        piece
    }

    /// Keeps that extended attributes ended, where they are those of a definition or a member.
    fn end_attributes(&mut self) {
        match self.above(4) {
            SINGLE_ARGUMENT
            | VARIADIC_ARGUMENT
            | ATTRIBUTED_TYPE
            | ATTRIBUTED_NON_ANY_TYPE
            | TODAY_ARGUMENT
            | TODAY_ATTRIBUTED_TYPE
            | TODAY_ATTRIBUTED_NON_ANY_TYPE => {}
            _ => self.begins = Some(Joint::BehindAttributes),
        }
    }

    /// Adds the line comment that ends there.
    fn push_line_comment(&mut self, end: usize) -> Result<(), AllocError> {
        let start = self.start;
        self.push_comment(Kind::LineComment, start, end)
    }

    /// Adds a comment.
    fn push_comment(&mut self, kind: Kind, start: usize, end: usize) -> Result<(), AllocError> {
        let mut piece = self.piece(start, end);
        piece.kind = kind;
        piece.definition = 0;
        self.push(piece)?;
        if kind == Kind::LineComment {
            self.lines = 1;
        }
        Ok(())
    }

    /// Adds a docstring's line, which ends there.
    fn push_doc_line(&mut self, end: usize) -> Result<(), AllocError> {
        let start = self.start;
        let mut piece = self.piece(start, end);
        piece.kind = Kind::DocLine;
        piece.joint = match self.begins {
            Some(joint) => joint,
            None => Joint::Member,
        };
        self.push(piece)?;
        self.lines = 1;
        self.begins = None;
        self.before = Token::none();
        Ok(())
    }

    /// Adds all of the text from a place on, as it is.
    fn push_rest(&mut self, start: usize) -> Result<(), AllocError> {
        let mut piece = self.piece(start, self.text.len());
        piece.kind = Kind::Rest;
        piece.joint = Joint::Tight;
        self.push(piece)
    }

    /// A piece of these bytes.
    fn piece(&self, start: usize, end: usize) -> Piece {
        Piece {
            kind: Kind::Token,
            rule: 0,
            definition: match self.begins {
                Some(Joint::Definition) => self.definition,
                _ => 0,
            },
            start,
            end,
            width: width_of(between(self.text, start, end)),
            lines: self.lines,
            joint: Joint::Space,
            role: Role::Plain,
            is_item: false,
            gap: Gap::Space,
        }
    }

    /// Adds a piece.
    fn push(&mut self, piece: Piece) -> Result<(), AllocError> {
        self.lines = 0;
        if piece.joint == Joint::Definition {
            self.first = self.pieces.len();
        }
        self.pieces.push(piece)?;
        Ok(())
    }
}
