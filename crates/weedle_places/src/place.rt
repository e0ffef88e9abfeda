//! The places of definitions.

ghost use Rattle.std.specs.Prelude.{◌≡◌, ◌<◌, ◌↔◌, length, IsSome, IfOk, IfSome};
ghost use Rattle.weedle_places.specs.Placed.{AddsPlace};
ghost use Rattle.weedle_places.specs.Places.{IsWhole, ArePlaces, ArePlacesIn};
ghost use Rattle.weedle_rules.specs.Outcomes.{EndsAt};
ghost use Rattle.weedle_syntax.specs.Dialects.{item_of, IsWholeIn, IsSyntaxIn};
ghost use Rattle.weedle_syntax.specs.Tree.{node_at};

use crate::members::{MemberPlace, member_at, members_at, values_at};
use crate::parts::definition_at;
use crate::span::Span;
use std::alloc::{AllocError, Global};
use weedle_rules::Ends;
use weedle_syntax::{Dialect, Syntax};

/// Where a definition is, and each of its members.
///
/// In `interface A { attribute long x; };` the definition has the span from 0 to 34, and its one
/// member that from 14 to 32.
#[derive(Debug, Drop)]
pub struct Place {
    /// The definition, as the grammar has it: with the whitespace and comments behind it. The first
    /// definition has those in front of it too.
    pub span: Span,
    /// The definition without whitespace and comments at either end.
    pub core: Span,
    /// The whitespace and comments in front of the core, up to what precedes them.
    pub front: Span,
    /// Where its name is, with an underscore in front: of `A includes B;` that of `A`.
    pub name: Option<Span>,
    /// The members between its braces, in their order. A definition without members has none; the
    /// values of an enum aren't members.
    pub members: Vec<MemberPlace>,
    /// The values of an enum, in their order. They have no name.
    pub values: Vec<MemberPlace>,
}

/// Adds the place of the definition that a node below the root is or holds, if there is one.
fn add_place(
    alloc: Global,
    found: &mut Vec<Place>,
    syntax: &Syntax<'_>,
    piece: usize,
) -> Result<(), AllocError>
    requires within { piece < length syntax.now.nodes }
    requires rule { (node_at syntax.now.nodes piece).rule ≡ item_of syntax.now.dialect }
    requires reads { EndsAt syntax.now.text (item_of syntax.now.dialect)
        (node_at syntax.now.nodes piece).start (node_at syntax.now.nodes piece).end }
    ensures { IfOk result (λ _. AddsPlace syntax.now.dialect
        syntax.now.text syntax.now.nodes piece found.old.items found.new.items) }
{
    let Some(definition) = definition_at(syntax, piece) else {
        return Ok(());
    };
    let members = members_at(alloc, syntax, definition)?;
    let values = values_at(alloc, syntax, definition)?;
    let own = member_at(syntax, definition);
    found.push(Place {
        span: own.span,
        core: own.core,
        front: own.front,
        name: own.name,
        members,
        values,
    })?;
    Ok(())
}

/// Where each definition and each of its members are in a text that is read whole, by its syntax
/// tree, as [`Syntax::new`] and [`Syntax::new_in`] give it.
///
/// So one tree serves this, [`names_of`](crate::names_of) and [`comments_in`](crate::comments_in),
/// by whichever rules the text is read. By today's rules no definition has what a text ends with,
/// as a comment that is alone or a docstring that nothing follows. It asks for memory for the
/// answer, and where it is refused, the answer is an error.
pub fn places_in(alloc: Global, syntax: &Syntax<'_>) -> Result<Vec<Place>, AllocError>
    requires { IsSyntaxIn syntax.now.dialect syntax.now.text syntax.now.nodes }
    ensures { IfOk result
        (λ found. ArePlacesIn syntax.now.dialect syntax.now.text 0 found.items) }
{
    let _ = syntax.nodes();
    let mut found = Vec::new(alloc);
    for piece in syntax.children(syntax.root()) {
        add_place(alloc, &mut found, syntax, piece)?;
    }
    Ok(found)
}

/// Where each definition and each of its members are in a text that is read whole, over its packrat
/// table; None of one that isn't.
///
/// It asks for memory for the nodes of the text and for the answer.
pub fn places_of(alloc: Global, ends: &Ends<'_>) -> Result<Option<Vec<Place>>, AllocError>
    ensures whole { IfOk result (λ found. IsSome found ↔ IsWhole ends.now.text) }
    ensures are { IfOk result
        (λ found. IfSome found (λ places. ArePlaces ends.now.text 0 places.items)) }
{
    match Syntax::of_table(alloc, ends)? {
        Some(syntax) => {
            let found = places_in(alloc, &syntax)?;
            Ok(Some(found))
        }
        None => Ok(None),
    }
}

/// Where each definition of the text and each of its members are, or None where the text isn't read
/// whole.
///
/// In `enum E { "a" }; interface A {};` one definition is from 0 to 16, and one from 16 to 31: the
/// space between them belongs to what precedes it. The empty text has none; of `interface A {` the
/// answer is None.
///
/// It reads as [`Syntax::new`] does: by descent within limits, and else over a memo. It asks for
/// memory for that and for the answer, and where it is refused, the answer is an error.
pub fn places(alloc: Global, raw: &str) -> Result<Option<Vec<Place>>, AllocError>
    ensures whole { IfOk result (λ found. IsSome found ↔ IsWhole raw.now) }
    ensures are { IfOk result
        (λ found. IfSome found (λ places. ArePlaces raw.now 0 places.items)) }
{
    match Syntax::new(alloc, raw)? {
        Some(syntax) => {
            let found = places_in(alloc, &syntax)?;
            Ok(Some(found))
        }
        None => Ok(None),
    }
}

/// Where each definition of a text and each of its members are, by the dialect's rules; None where
/// they don't read the text whole.
///
/// In `interface A { async_iterable<long>; }; // end` today's rules read one definition, from 0 to
/// 45, with one member, and weedle2's nothing. By today's rules the text `// end` has none.
///
/// It reads as [`Syntax::new_in`] does. It asks for memory for that and for the answer, and where
/// it is refused, the answer is an error.
pub fn places_by(
    alloc: Global,
    raw: &str,
    dialect: Dialect,
) -> Result<Option<Vec<Place>>, AllocError>
    ensures whole { IfOk result (λ found. IsSome found ↔ IsWholeIn dialect raw.now) }
    ensures are { IfOk result
        (λ found. IfSome found (λ places. ArePlacesIn dialect raw.now 0 places.items)) }
{
    match Syntax::new_in(alloc, raw, dialect)? {
        Some(syntax) => {
            let found = places_in(alloc, &syntax)?;
            Ok(Some(found))
        }
        None => Ok(None),
    }
}
