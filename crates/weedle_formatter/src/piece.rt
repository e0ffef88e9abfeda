//! What a text has between its whitespace.

use weedle_layout::{characters, line_feeds};

/// How a piece is read.
#[derive(Clone, Copy, Debug, PartialEq, Eq)]
pub(crate) enum Kind {
    /// A sign, a word, a number or a string.
    Token,
    /// A line comment, as `// c`, without the LF behind it.
    LineComment,
    /// A block comment, as `/* c */`.
    BlockComment,
    /// A docstring's line, as `/// c`, with its LF; the last one of a text may lack it.
    DocLine,
    /// Comments and whitespace that end the text, as they are.
    Rest,
}

/// How a token relates to the token before it, where no comment is in between. A docstring's line
/// counts as a token.
#[derive(Clone, Copy, Debug, PartialEq, Eq)]
pub(crate) enum Joint {
    /// It follows with nothing in between, as `;`.
    Tight,
    /// It follows with a space in between.
    Space,
    /// It is on the next line: it begins a member, or is a docstring's line.
    Member,
    /// It is on the next line, as `}` behind members.
    EndOfBody,
    /// It follows the extended attributes of a definition or of a member.
    BehindAttributes,
    /// It begins a definition.
    Definition,
}

/// What a token does to the lines behind it.
#[derive(Clone, Copy, Debug, PartialEq, Eq)]
pub(crate) enum Role {
    /// Nothing.
    Plain,
    /// It opens the braces of members, which are a level deeper.
    OpensBody,
    /// It closes the braces of members.
    ClosesBody,
    /// It opens a list, which may be broken: of arguments, of extended attributes, or of an enum's
    /// values.
    OpensList,
    /// It opens a union, which is a list of types that may be broken.
    OpensUnion,
    /// It closes a list that may be broken.
    ClosesList,
}

impl Role {
    /// Whether it opens a list that may be broken.
    pub(crate) fn opens_list(self) -> bool {
        match self {
            Role::OpensList | Role::OpensUnion => true,
            Role::Plain | Role::OpensBody | Role::ClosesBody | Role::ClosesList => false,
        }
    }
}

/// What is written in front of a piece.
#[derive(Clone, Copy, Debug, PartialEq, Eq)]
pub(crate) enum Gap {
    /// Nothing.
    Nothing,
    /// A space.
    Space,
    /// A line end.
    Line,
    /// A line end and an empty line.
    EmptyLine,
    /// A line end in the midst of a statement: what follows is a level deeper.
    Continued,
}

impl Gap {
    /// Whether a line ends there.
    pub(crate) fn is_line(self) -> bool {
        match self {
            Gap::Nothing | Gap::Space => false,
            Gap::Line | Gap::EmptyLine | Gap::Continued => true,
        }
    }

    /// How many characters it takes on its line.
    pub(crate) fn width(self) -> usize {
        match self {
            Gap::Space => 1,
            _ => 0,
        }
    }
}

/// A token, a comment or a docstring's line.
#[derive(Clone, Copy, Debug)]
pub(crate) struct Piece {
    pub(crate) kind: Kind,
    /// The number of a token's rule.
    pub(crate) rule: u16,
    /// The number of the rule that a definition is of which it is the first piece, else 0.
    pub(crate) definition: u16,
    /// Where it begins, in bytes from the text's front.
    pub(crate) start: usize,
    /// The place behind its last byte.
    pub(crate) end: usize,
    /// How many characters it has; None where a line ends in it.
    pub(crate) width: Option<usize>,
    /// How many lines end in the text between the piece before and this one.
    pub(crate) lines: usize,
    pub(crate) joint: Joint,
    pub(crate) role: Role,
    /// Whether a line begins here where the list that it is in is broken.
    pub(crate) is_item: bool,
    /// What is written in front of it, where the list that it is in isn't broken.
    pub(crate) gap: Gap,
}

impl Piece {
    /// Whether it is a comment.
    pub(crate) fn is_comment(&self) -> bool {
        match self.kind {
            Kind::LineComment | Kind::BlockComment => true,
            Kind::Token | Kind::DocLine | Kind::Rest => false,
        }
    }
}

/// How many characters the bytes have; None where a line ends in them.
pub(crate) fn width_of(bytes: &[u8]) -> Option<usize> {
    if line_feeds(bytes) > 0 {
        return None;
    }
    Some(characters(bytes))
}
