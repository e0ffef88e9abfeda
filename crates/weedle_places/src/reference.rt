//! The names of a text that speak of a definition.

ghost use Rattle.std.specs.Prelude.{◌≡◌, ◌↔◌, IsSome, IfOk, IfSome};
ghost use Rattle.weedle_places.specs.Places.{IsWhole};
ghost use Rattle.weedle_places.specs.References.{
  refers_to as the_refers_to,
  AreReferences,
  HasReferences,
  HasReferencesIn,
};
ghost use Rattle.weedle_syntax.specs.Dialects.{IsWholeIn};

use crate::above::role_at;
use crate::name::{Name, name_at};
use std::alloc::{AllocError, Global};
use weedle_syntax::{Dialect, Syntax};

/// Whether a name speaks of the definition that has this name.
fn refers_to(found: &Name<'_>, name: &str) -> bool
    ensures { result ≡ the_refers_to name.now found.now }
{
    found.role.is_reference() && found.text == name
}

/// Where a syntax tree speaks of the definition that has this name, in the order of the text, as
/// [`references`] says.
///
/// It goes through the nodes once, and asks for memory for the answer, and for 16 bytes for each
/// level of the tree. Where many names are looked for, [`names_of`](crate::names_of) and
/// [`Role::is_reference`](crate::Role::is_reference) give the references to all of them at once.
pub fn references_of<'a>(
    alloc: Global,
    syntax: &Syntax<'a>,
    name: &str,
) -> Result<Vec<Name<'a>>, AllocError>
    ensures { IfOk result
        (λ found. AreReferences syntax.now.text syntax.now.nodes name.now found.items) }
{
    let mut found = Vec::new(alloc);
    let mut above = Vec::new(alloc);
    for i in 0..syntax.nodes().len() {
        if let Some(role) = role_at(&mut above, syntax, i)? {
            let one = name_at(syntax, i, role);
            if refers_to(&one, name) {
                found.push(one)?;
            }
        }
    }
    Ok(found)
}

/// Where a text speaks of the definition that has this name, in the order of the text; None where
/// the text isn't read whole.
///
/// For `interface A {}; interface B : A { attribute A? x; };` the name `A` has two: what is
/// inherited from, from 30 to 31, and a type, from 44 to 45. Where a definition has its name isn't
/// among them, but the name of a part is, and those of a statement. The name is given without an
/// underscore in front, and `_A` in the text is `A` too; upper and lower case differ.
///
/// It reads as [`Syntax::new`] does, and costs the same; besides, it goes once through the nodes.
/// Where memory is refused, the answer is an error.
pub fn references<'a>(
    alloc: Global,
    raw: &'a str,
    name: &str,
) -> Result<Option<Vec<Name<'a>>>, AllocError>
    ensures whole { IfOk result (λ found. IsSome found ↔ IsWhole raw.entry.now) }
    ensures are { IfOk result
        (λ found. IfSome found (λ names. HasReferences raw.entry.now name.now names.items)) }
{
    match Syntax::new(alloc, raw)? {
        Some(syntax) => {
            let found = references_of(alloc, &syntax, name)?;
            Ok(Some(found))
        }
        None => Ok(None),
    }
}

/// Where a text speaks of the definition that has this name, by the dialect's rules, in the order
/// of the text; None where they don't read the text whole.
///
/// For `interface A {}; interface B { async_iterable<A>; };` today's rules read one of `A`, from 45
/// to 46, and weedle2's nothing. What counts is what [`references`] says.
///
/// It reads as [`Syntax::new_in`] does, and costs the same; besides, it goes once through the
/// nodes. Where memory is refused, the answer is an error.
pub fn references_in<'a>(
    alloc: Global,
    raw: &'a str,
    name: &str,
    dialect: Dialect,
) -> Result<Option<Vec<Name<'a>>>, AllocError>
    ensures whole { IfOk result (λ found. IsSome found ↔ IsWholeIn dialect raw.entry.now) }
    ensures are { IfOk result (λ found.
        IfSome found (λ names. HasReferencesIn dialect raw.entry.now name.now names.items)) }
{
    match Syntax::new_in(alloc, raw, dialect)? {
        Some(tree) => {
            let found = references_of(alloc, &tree, name)?;
            Ok(Some(found))
        }
        None => Ok(None),
    }
}
