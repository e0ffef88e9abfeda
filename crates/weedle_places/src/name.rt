//! The names of a text.

ghost use Rattle.std.specs.Prelude.{◌≡◌, ◌↔◌, ◌<◌, true, length, IsSome, IfOk, IfSome};
ghost use Rattle.weedle_places.specs.Names.{
  AreNames,
  HasNames,
  HasNamesIn,
  HasRole,
  IsName,
  IsNamed,
  is_name,
};
ghost use Rattle.weedle_places.specs.Places.{IsWhole};
ghost use Rattle.weedle_syntax.specs.Dialects.{IsWholeIn};
ghost use Rattle.weedle_syntax.specs.Tree.{node_at};

use crate::above::role_at;
use crate::role::Role;
use crate::span::Span;
use std::alloc::{AllocError, Global};
use weedle_syntax::{Dialect, Syntax};

/// A name in a text, and what it stands for.
///
/// In `interface _A {};` the name is `A`, an interface; its span from 10 to 12 has the underscore
/// in it.
#[derive(Clone, Copy, Debug, PartialEq, Eq)]
pub struct Name<'a> {
    /// Its letters, without an underscore in front: what the typed tree has.
    pub text: &'a str,
    /// Where it is, with an underscore in front and without whitespace and comments.
    pub span: Span,
    /// What it stands for.
    pub role: Role,
}

/// Where a node of the rule of names has its name, and the letters.
pub(crate) fn word_at<'a>(syntax: &Syntax<'a>, i: usize) -> (Span, &'a str)
    requires within { i < length syntax.now.nodes }
    requires name { is_name syntax.now.nodes i ≡ true }
    ensures { IsNamed syntax.now.text (node_at syntax.now.nodes i).start
        (node_at syntax.now.nodes i).end result.0 result.1.now }
{
    let nodes = syntax.nodes();
    let mut parts = syntax.children(i);
    let Some(_) = parts.next() else {
        unreachable!();
    };
    let Some(underscore) = parts.next() else {
        unreachable!();
    };
    let Some(letters) = parts.next() else {
        unreachable!();
    };
    let span = Span {
        start: nodes[underscore].start,
        end: nodes[letters].end,
    };
    (span, syntax.text_of(letters))
}

/// What is said of a node of the rule of names.
pub(crate) fn name_at<'a>(syntax: &Syntax<'a>, i: usize, role: Role) -> Name<'a>
    requires within { i < length syntax.now.nodes }
    requires name { is_name syntax.now.nodes i ≡ true }
    requires role { HasRole syntax.now.nodes i role }
    ensures { IsName syntax.now.text syntax.now.nodes i result }
{
    let (span, text) = word_at(syntax, i);
    Name { text, span, role }
}

/// The names of a syntax tree, in their order: of the definitions at the front of its text, where
/// it is a front's.
///
/// It goes through the nodes once, and asks for memory for the answer, and for 16 bytes for each
/// level of the tree.
pub fn names_of<'a>(alloc: Global, syntax: &Syntax<'a>) -> Result<Vec<Name<'a>>, AllocError>
    ensures { IfOk result (λ names. AreNames syntax.now.text syntax.now.nodes names.items) }
{
    let mut names = Vec::new(alloc);
    let mut above = Vec::new(alloc);
    for i in 0..syntax.nodes().len() {
        if let Some(role) = role_at(&mut above, syntax, i)? {
            names.push(name_at(syntax, i, role))?;
        }
    }
    Ok(names)
}

/// Every name of a text and what it stands for, in the order of the text; None where the text isn't
/// read whole.
///
/// In `interface A : B { attribute C x; };` these are `A`, an interface, `B`, which is inherited
/// from, `C`, a type, and `x`, an attribute. Keywords are no names, nor are strings.
///
/// It reads as [`Syntax::new`] does, and costs the same; besides, it goes once through the nodes.
/// Where memory is refused, the answer is an error.
pub fn names<'a>(alloc: Global, raw: &'a str) -> Result<Option<Vec<Name<'a>>>, AllocError>
    ensures whole { IfOk result (λ found. IsSome found ↔ IsWhole raw.entry.now) }
    ensures are { IfOk result
        (λ found. IfSome found (λ names. HasNames raw.entry.now names.items)) }
{
    match Syntax::new(alloc, raw)? {
        Some(syntax) => {
            let found = names_of(alloc, &syntax)?;
            Ok(Some(found))
        }
        None => Ok(None),
    }
}

/// Every name of a text and what it stands for, by the dialect's rules, in the order of the text;
/// None where they don't read the text whole.
///
/// In `[Exposed=*] interface A { attribute ObservableArray<B> x; };` today's rules read `Exposed`,
/// an extended attribute, `A`, `B`, a type, and `x`; weedle2's read nothing. Neither `*` nor
/// `ObservableArray` is a name.
///
/// It reads as [`Syntax::new_in`] does, and costs the same; besides, it goes once through the
/// nodes. Where memory is refused, the answer is an error.
pub fn names_in<'a>(
    alloc: Global,
    raw: &'a str,
    dialect: Dialect,
) -> Result<Option<Vec<Name<'a>>>, AllocError>
    ensures whole { IfOk result (λ found. IsSome found ↔ IsWholeIn dialect raw.entry.now) }
    ensures are { IfOk result
        (λ found. IfSome found (λ names. HasNamesIn dialect raw.entry.now names.items)) }
{
    match Syntax::new_in(alloc, raw, dialect)? {
        Some(syntax) => {
            let found = names_of(alloc, &syntax)?;
            Ok(Some(found))
        }
        None => Ok(None),
    }
}
