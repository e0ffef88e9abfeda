//! Whose rules a text is read by: weedle2's or today's.

ghost use Rattle.std.specs.Prelude.{◌≡◌, ◌↔◌, All, IsSome, IfOk, IfSome};
ghost use Rattle.weedle_syntax.specs.Dialects.{
  start_of,
  item_of,
  definition_of,
  IsWholeIn,
  IsFrontIn,
  IsSyntaxIn,
};
ghost use Rattle.weedle_syntax.specs.Syntax.{IsRead, leaves_of, rest_of};

use crate::node::Node;
use crate::quick::syntax_of_rule;
use std::alloc::{AllocError, Global};
use weedle_grammar::Rule;

/// The rules that a text is read by.
#[derive(Clone, Copy, Debug, PartialEq, Eq)]
pub enum Dialect {
    /// weedle2's, which read `interface A {};`.
    Weedle2,
    /// Today's, which read what weedle2's read, and more, as `[Exposed=*] interface A {};`.
    Today,
}

impl Dialect {
    /// The rule of a whole text: `DEFINITIONS` or `TODAY_DEFINITIONS`. It takes no memory.
    pub fn start(self) -> Rule
        ensures { result ≡ start_of self }
    {
        match self {
            Dialect::Weedle2 => Rule::DEFINITIONS,
            Dialect::Today => Rule::TODAY_DEFINITIONS,
        }
    }

    /// The rule of which that of a whole text reads one after another: `DEFINITION`, or
    /// `TODAY_PIECE`, which also reads a docstring, a comment or whitespace that no definition
    /// follows. It takes no memory.
    pub fn item(self) -> Rule
        ensures { result ≡ item_of self }
    {
        match self {
            Dialect::Weedle2 => Rule::DEFINITION,
            Dialect::Today => Rule::TODAY_PIECE,
        }
    }

    /// The rule of a definition, with the docstrings and extended attributes in front of it:
    /// `DEFINITION` or `TODAY_DEFINITION`. It takes no memory.
    pub fn definition(self) -> Rule
        ensures { result ≡ definition_of self }
    {
        match self {
            Dialect::Weedle2 => Rule::DEFINITION,
            Dialect::Today => Rule::TODAY_DEFINITION,
        }
    }
}

/// Where the first node ends, or 0 where there is none.
fn first_end(nodes: &[Node]) -> usize
    ensures { result ≡ rest_of nodes.now }
{
    match nodes.first() {
        Some(node) => node.end,
        None => 0,
    }
}

/// Every rule that was read of what the dialect's rules read at the front of a text, in preorder,
/// whatever follows it.
pub(crate) fn front_in(alloc: Global, raw: &str, dialect: Dialect) -> Result<Vec<Node>, AllocError>
    ensures are { IfOk result (λ nodes. IsFrontIn dialect raw.now nodes.items) }
    ensures read { IfOk result (λ nodes. All (IsRead raw.now) nodes.items) }
{
    let found = syntax_of_rule(alloc, raw, dialect.start())?;
    let Some(nodes) = found else {
        unreachable!();
    };
    Ok(nodes)
}

/// Every rule that was read of a text that the dialect's rules read whole, in preorder; None where
/// they don't: of `[Exposed=*] interface A {};` there are nodes by today's rules alone.
///
/// The first node is that of the whole text, of the rule that [`Dialect::start`] gives. It reads as
/// [`syntax_quick`](crate::syntax_quick) does, and costs the same. Where memory is refused, the
/// answer is an error.
pub fn syntax_quick_in(
    alloc: Global,
    raw: &str,
    dialect: Dialect,
) -> Result<Option<Vec<Node>>, AllocError>
    ensures whole { IfOk result (λ found. IsSome found ↔ IsWholeIn dialect raw.now) }
    ensures are { IfOk result
        (λ found. IfSome found (λ nodes. IsSyntaxIn dialect raw.now nodes.items)) }
    ensures lossless { IfOk result
        (λ found. IfSome found (λ nodes. leaves_of raw.now nodes.items ≡ raw.now)) }
    ensures read { IfOk result
        (λ found. IfSome found (λ nodes. All (IsRead raw.now) nodes.items)) }
{
    match syntax_of_rule(alloc, raw, dialect.start())? {
        Some(nodes) => {
            let end = first_end(&nodes);
            if end == raw.len() {
                return Ok(Some(nodes));
            }
            Ok(None)
        }
        None => Ok(None),
    }
}
