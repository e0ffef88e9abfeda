//! What a name inherits from.

ghost use Rattle.std.specs.Prelude.{◌≡◌, IfOk, map, option_copied};
ghost use Rattle.weedle_view.specs.Ancestry.{
  inherited as the_inherited,
  is_met as the_is_met,
  HasAncestors,
};
ghost use Rattle.weedle_view.specs.Definitions.{inheritance_of_definition};

use crate::definition::inheritance_of;
use crate::name_of;
use crate::parts::definition_named;
use std::alloc::{AllocError, Global};
use weedle_idl::Definition;

/// What a name inherits from, the nearest first, as `B` and then `C` for `A` of `interface A : B
/// {}; interface B : C {}; interface C {};`.
///
/// Each is the first definition of what the one before inherits from, whatever its kind, so a part
/// is none of them. It ends where nothing is inherited, where nothing in the list defines that, and
/// where its name was met before, so that a circle ends too. What the list doesn't define has no
/// ancestors.
///
/// It looks through the definitions once for each ancestor, and through the names before it. It
/// takes memory for the list, and for the names of those in it, and fails where that is refused.
///
/// ```rust
/// use weedle_base::Parse;
/// use weedle_idl::Definitions;
/// use weedle_view::{lend, name_of};
/// use weedle_view::ancestors;
///
/// let text = "interface A : B {}; interface B : C {}; interface C : A {};";
/// let alloc = rt.alloc();
/// let (_, definitions) = Definitions::parse(alloc, text).expect(rt, "definitions");
/// let are_two = lend(definitions, move |definitions: &Definitions<'_>| {
///     ancestors(alloc, definitions, "A")
///         .map(|above| above.len() == 2 && name_of(above[0]) == "B" && name_of(above[1]) == "C")
/// })?;
/// assert!(rt; are_two);
/// ```
pub fn ancestors<'d, 'a>(
    alloc: Global,
    definitions: &'d [Definition<'a>],
    name: &str,
) -> Result<Vec<&'d Definition<'a>>, AllocError>
    ensures { IfOk result
        (λ above. HasAncestors definitions.entry.now name.now (map (λ d. d.now) above.items)) }
{
    let mut above = Vec::new(alloc);
    let Some(mut last) = definition_named(definitions, name) else {
        return Ok(above);
    };
    let mut met = Vec::new(alloc);
    met.push(name)?;
    while let Some(next) = inherited(definitions, &met, last) {
        met.push(name_of(next))?;
        above.push(next)?;
        last = next;
    }
    Ok(above)
}

/// The first definition of what a definition inherits from, unless its name was met before.
fn inherited<'d, 'a>(
    definitions: &'d [Definition<'a>],
    met: &[&str],
    definition: &Definition<'a>,
) -> Option<&'d Definition<'a>>
    ensures { option_copied result
        ≡ the_inherited definitions.entry.now (map (λ m. m.now) met.now)
        (inheritance_of_definition definition.now) }
{
    let Some(inheritance) = inheritance_of(definition) else {
        return None;
    };
    let parent = inheritance.identifier.0;
    if is_met(met, parent) {
        return None;
    }
    definition_named(definitions, parent)
}

/// Whether a name is among those that were met.
fn is_met(met: &[&str], name: &str) -> bool
    ensures { result ≡ the_is_met (map (λ m. m.now) met.now) name.now }
{
    for before in met {
        if *before == name {
            return true;
        }
    }
    false
}
