//! Extended attributes, as `[Exposed=(Window, Worker), SecureContext]`.
//!
//! A list without its closing bracket, or with a comma at its end, is a mismatch. Lists ask for
//! memory: where it is refused, the call ends at once with a failure of code `Memory`. What each
//! type reads is in words in docs/GRAMMAR.md.

ghost use Rattle.weedle_base.specs.Own.{own};
ghost use Rattle.weedle_base.specs.OwnLaws.{own_lawful};
ghost use Rattle.weedle_grammar.specs.written.Table.Types.{
  EXTENDED_ATTRIBUTE_IDENT,
  EXTENDED_ATTRIBUTE_IDENT_LIST,
  EXTENDED_ATTRIBUTE_NO_ARGS,
  IDENTIFIER_OR_STRING,
};
ghost use Rattle.weedle_types.specs.Trees.{
  extended_attribute_ident_list_tree,
  extended_attribute_ident_tree,
  extended_attribute_no_args_tree,
  identifier_or_string_tree,
};

mod written;

use crate::argument::ParenthesizedArgumentList;
use std::alloc::Global;
use weedle_base::term::{Assign, Comma};
use weedle_base::{IResult, Parse};
use weedle_parts::common::{Bracketed, Identifier, Parenthesized, Punctuated};
use weedle_parts::literal::StringLit;

/// Extended attributes in brackets, as `[Exposed=Window, SecureContext]`; `[]` too.
pub type ExtendedAttributeList<'a> = Bracketed<Punctuated<ExtendedAttribute<'a>, Comma>>;

/// Names, as `Window, Worker`, none included.
pub type IdentifierList<'a> = Punctuated<Identifier<'a>, Comma>;

/// An extended attribute, as `Exposed=Window` or `Constructor(long x)`.
#[cycle(types)]
#[derive(Debug, PartialEq, Eq, PartialOrd, Ord, Hash)]
pub enum ExtendedAttribute<'a> {
    /// `name(arguments)`.
    ArgList(ExtendedAttributeArgList<'a>),
    /// `name=name(arguments)`.
    NamedArgList(ExtendedAttributeNamedArgList<'a>),
    /// `name=(names)`.
    IdentList(ExtendedAttributeIdentList<'a>),
    /// `name=name` or `name="text"`.
    Ident(ExtendedAttributeIdent<'a>),
    /// `name`.
    NoArgs(ExtendedAttributeNoArgs<'a>),
}

impl Drop for ExtendedAttribute<'_> {
    #[cycle(drops)]
    fn drop(self) {
        match self {
            ExtendedAttribute::ArgList(_)
            | ExtendedAttribute::NamedArgList(_)
            | ExtendedAttribute::IdentList(_)
            | ExtendedAttribute::Ident(_)
            | ExtendedAttribute::NoArgs(_) => {}
        }
    }
}

/// An extended attribute with arguments, as `Constructor(long x)`.
#[cycle(types)]
#[derive(Debug, PartialEq, Eq, PartialOrd, Ord, Hash)]
pub struct ExtendedAttributeArgList<'a> {
    /// Its name.
    pub identifier: Identifier<'a>,
    /// Its arguments, between parentheses: `body.list` is their list.
    pub args: ParenthesizedArgumentList<'a>,
}

impl Drop for ExtendedAttributeArgList<'_> {
    #[cycle(drops)]
    fn drop(self) {
        let ExtendedAttributeArgList {
            identifier: _,
            args: _,
        } = self;
    }
}

/// An extended attribute with a name and arguments, as `NamedConstructor=Image(long x)`.
#[cycle(types)]
#[derive(Debug, PartialEq, Eq, PartialOrd, Ord, Hash)]
pub struct ExtendedAttributeNamedArgList<'a> {
    /// Its name, before the `=`.
    pub lhs_identifier: Identifier<'a>,
    /// The `=`.
    pub assign: Assign,
    /// The name behind the `=`.
    pub rhs_identifier: Identifier<'a>,
    /// Its arguments, between parentheses: `body.list` is their list.
    pub args: ParenthesizedArgumentList<'a>,
}

impl Drop for ExtendedAttributeNamedArgList<'_> {
    #[cycle(drops)]
    fn drop(self) {
        let ExtendedAttributeNamedArgList {
            lhs_identifier: _,
            assign: _,
            rhs_identifier: _,
            args: _,
        } = self;
    }
}

/// An extended attribute with names, as `Exposed=(Window, Worker)`.
#[derive(Debug, PartialEq, Eq, PartialOrd, Ord, Hash, Drop)]
pub struct ExtendedAttributeIdentList<'a> {
    /// Its name.
    pub identifier: Identifier<'a>,
    /// The `=`.
    pub assign: Assign,
    /// The names behind the `=`, between parentheses: `body.list` is their list.
    pub list: Parenthesized<IdentifierList<'a>>,
}

/// An extended attribute with a name or a string, as `PutForwards=name`. It takes no memory.
#[derive(Clone, Copy, Debug, PartialEq, Eq, PartialOrd, Ord, Hash)]
pub struct ExtendedAttributeIdent<'a> {
    /// Its name, before the `=`.
    pub lhs_identifier: Identifier<'a>,
    /// The `=`.
    pub assign: Assign,
    /// The name or the string behind the `=`.
    pub rhs: IdentifierOrString<'a>,
}

/// An extended attribute that is a name alone, as `Replaceable`. It takes no memory.
#[derive(Clone, Copy, Debug, PartialEq, Eq, PartialOrd, Ord, Hash)]
pub struct ExtendedAttributeNoArgs<'a>(pub Identifier<'a>);

/// A name or a string, as `name` or `"name"`. It takes no memory.
#[derive(Clone, Copy, Debug, PartialEq, Eq, PartialOrd, Ord, Hash)]
pub enum IdentifierOrString<'a> {
    /// A name, as `name`.
    Identifier(Identifier<'a>),
    /// A text in quotes, as `"name"`.
    String(StringLit<'a>),
}

#[tactic(auto, using(crate::proofs::PlainAttributeRules::extended_attribute_ident_list_steps))]
impl<'a> Parse<'a> for ExtendedAttributeIdentList<'a> {
    ghost reading = { own EXTENDED_ATTRIBUTE_IDENT_LIST extended_attribute_ident_list_tree
        (Unit {0}) };

    fn parse(alloc: Global, input: &'a str) -> IResult<&'a str, Self> {
        let (rest, identifier) = Parse::parse(alloc, input)?;
        let (rest, assign) = Parse::parse(alloc, rest)?;
        let (rest, list) = Parse::parse(alloc, rest)?;
        Ok((
            rest,
            ExtendedAttributeIdentList {
                identifier,
                assign,
                list,
            },
        ))
    }

    ghost lawful = { own_lawful EXTENDED_ATTRIBUTE_IDENT_LIST extended_attribute_ident_list_tree
        (Unit {0}) };
}

#[tactic(auto, using(crate::proofs::PlainAttributeRules::extended_attribute_ident_steps))]
impl<'a> Parse<'a> for ExtendedAttributeIdent<'a> {
    ghost reading = { own EXTENDED_ATTRIBUTE_IDENT extended_attribute_ident_tree ⊥ };

    fn parse(alloc: Global, input: &'a str) -> IResult<&'a str, Self> {
        let (rest, lhs_identifier) = Parse::parse(alloc, input)?;
        let (rest, assign) = Parse::parse(alloc, rest)?;
        let (rest, rhs) = Parse::parse(alloc, rest)?;
        Ok((
            rest,
            ExtendedAttributeIdent {
                lhs_identifier,
                assign,
                rhs,
            },
        ))
    }

    ghost lawful = { own_lawful EXTENDED_ATTRIBUTE_IDENT extended_attribute_ident_tree ⊥ };
}

#[tactic(auto, using(crate::proofs::PlainAttributeRules::extended_attribute_no_args_steps))]
impl<'a> Parse<'a> for ExtendedAttributeNoArgs<'a> {
    ghost reading = { own EXTENDED_ATTRIBUTE_NO_ARGS extended_attribute_no_args_tree ⊥ };

    fn parse(alloc: Global, input: &'a str) -> IResult<&'a str, Self> {
        let (rest, identifier) = Parse::parse(alloc, input)?;
        Ok((rest, ExtendedAttributeNoArgs(identifier)))
    }

    ghost lawful = { own_lawful EXTENDED_ATTRIBUTE_NO_ARGS extended_attribute_no_args_tree ⊥ };
}

#[tactic(auto, using(crate::proofs::PlainAttributeRules::identifier_or_string_steps))]
impl<'a> Parse<'a> for IdentifierOrString<'a> {
    ghost reading = { own IDENTIFIER_OR_STRING identifier_or_string_tree ⊥ };

    fn parse(alloc: Global, input: &'a str) -> IResult<&'a str, Self> {
        if let (rest, Some(member)) = Option::parse(alloc, input)? {
            return Ok((rest, IdentifierOrString::Identifier(member)));
        }
        let (rest, member) = Parse::parse(alloc, input)?;
        Ok((rest, IdentifierOrString::String(member)))
    }

    ghost lawful = { own_lawful IDENTIFIER_OR_STRING identifier_or_string_tree ⊥ };
}
