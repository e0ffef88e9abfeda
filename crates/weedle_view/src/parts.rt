//! What belongs to a name: its definition, its parts, and what is included into it.

ghost use Rattle.std.specs.List.{list_any};
ghost use Rattle.std.specs.Prelude.{◌≡◌, IfOk, filter, find, map, option_copied};
ghost use Rattle.weedle_view.specs.Parts.{
  includes,
  is_included_in,
  is_mixin,
  is_part,
  is_part_of,
  is_whole,
  is_whole_of,
};

use crate::name_of;
use std::alloc::{AllocError, Global};
use weedle_idl::Definition;

/// The first definition of a name that is neither a part nor a statement, as the interface of `A
/// includes M; interface A {};` for `A`. It takes no memory, and looks through the definitions
/// once.
///
/// ```rust
/// use weedle_base::Parse;
/// use weedle_idl::Definitions;
/// use weedle_view::{kind_of, lend};
/// use weedle_view::definition_named;
///
/// let text = "A includes M; partial interface A {}; enum A { \"a\" };";
/// let (_, definitions) = Definitions::parse(rt.alloc(), text).expect(rt, "definitions");
/// let kind = lend(definitions, |definitions: &Definitions<'_>| {
///     definition_named(definitions, "A").map(|definition| kind_of(definition))
/// });
/// assert!(rt; kind == Some("enum"));
/// ```
#[tactic(auto, using(crate::proofs::Finds::found, crate::proofs::Finds::still_none))]
pub fn definition_named<'d, 'a>(
    definitions: &'d [Definition<'a>],
    name: &str,
) -> Option<&'d Definition<'a>>
    ensures { option_copied result ≡ find (is_whole_of name.now) definitions.entry.now }
{
    for definition in definitions {
        if is_whole_of(definition, name) {
            return Some(definition);
        }
    }
    None
}

/// The parts of a name, as `partial interface A {};` for `A`, in the order of the definitions.
/// Whatever has the name is returned, also where that makes no sense, as a part of a dictionary
/// beside an interface. It takes memory for the list, and fails where that is refused.
///
/// ```rust
/// use weedle_base::Parse;
/// use weedle_idl::Definitions;
/// use weedle_view::lend;
/// use weedle_view::parts_named;
///
/// let text = "partial interface A {}; A includes M; interface A {}; partial dictionary A {};";
/// let alloc = rt.alloc();
/// let (_, definitions) = Definitions::parse(alloc, text).expect(rt, "definitions");
/// let count = lend(definitions, move |definitions: &Definitions<'_>| {
///     parts_named(alloc, definitions, "A").map(|parts| parts.len())
/// })?;
/// assert!(rt; count == 2);
/// ```
#[tactic(auto, using(crate::proofs::Finds::kept, crate::proofs::Finds::passed_over))]
pub fn parts_named<'d, 'a>(
    alloc: Global,
    definitions: &'d [Definition<'a>],
    name: &str,
) -> Result<Vec<&'d Definition<'a>>, AllocError>
    ensures { IfOk result
        (λ parts. map (λ d. d.now) parts.items
        ≡ filter (is_part_of name.now) definitions.entry.now) }
{
    let mut parts = Vec::new(alloc);
    for definition in definitions {
        if !is_part_of(definition, name) {
            continue;
        }
        parts.push(definition)?;
    }
    Ok(parts)
}

/// The mixins that are included into a name, as `M` by `A includes M;` into `A`, and their parts,
/// in the order of the definitions. It takes memory for the list, and fails where that is refused.
/// It looks through the definitions once, and once more for each mixin and each part of one.
///
/// ```rust
/// use weedle_base::Parse;
/// use weedle_idl::Definitions;
/// use weedle_view::{lend, name_of};
/// use weedle_view::included_into;
///
/// let text = "A includes M; B includes N; interface mixin N {}; interface mixin M {};";
/// let alloc = rt.alloc();
/// let (_, definitions) = Definitions::parse(alloc, text).expect(rt, "definitions");
/// let is_mixin = lend(definitions, move |definitions: &Definitions<'_>| {
///     included_into(alloc, definitions, "A")
///         .map(|included| included.len() == 1 && name_of(included[0]) == "M")
/// })?;
/// assert!(rt; is_mixin);
/// ```
#[tactic(auto, using(crate::proofs::Finds::kept, crate::proofs::Finds::passed_over))]
pub fn included_into<'d, 'a>(
    alloc: Global,
    definitions: &'d [Definition<'a>],
    name: &str,
) -> Result<Vec<&'d Definition<'a>>, AllocError>
    ensures { IfOk result
        (λ included. map (λ d. d.now) included.items
        ≡ filter (is_included_in definitions.entry.now name.now) definitions.entry.now) }
{
    let mut included = Vec::new(alloc);
    for definition in definitions {
        if !is_included_in(definitions, name, definition) {
            continue;
        }
        included.push(definition)?;
    }
    Ok(included)
}

/// Whether it is the definition of a name.
#[tactic(auto, unfolding(crate::specs::Parts::is_whole_of))]
fn is_whole_of(definition: &Definition<'_>, name: &str) -> bool
    ensures { result ≡ is_whole_of name.now definition.now }
{
    is_whole(definition) && name_of(definition) == name
}

/// Whether it is a part of a name.
#[tactic(auto, unfolding(crate::specs::Parts::is_part_of))]
fn is_part_of(definition: &Definition<'_>, name: &str) -> bool
    ensures { result ≡ is_part_of name.now definition.now }
{
    is_part(definition) && name_of(definition) == name
}

/// Whether it is a mixin that is included into a name, or a part of one.
#[tactic(auto, unfolding(crate::specs::Parts::is_included_in))]
fn is_included_in(definitions: &[Definition<'_>], name: &str, definition: &Definition<'_>) -> bool
    ensures { result ≡ is_included_in definitions.now name.now definition.now }
{
    is_mixin(definition) && is_included(definitions, name, name_of(definition))
}

/// Whether a statement includes a mixin into a name.
fn is_included(definitions: &[Definition<'_>], name: &str, mixin: &str) -> bool
    ensures { result ≡ list_any (includes name.now mixin.now) definitions.now }
{
    for definition in definitions {
        if includes(definition, name, mixin) {
            return true;
        }
    }
    false
}

/// Whether a definition is the statement that includes the mixin into the name.
fn includes(definition: &Definition<'_>, name: &str, mixin: &str) -> bool
    ensures { result ≡ includes name.now mixin.now definition.now }
{
    match definition {
        Definition::IncludesStatement(statement) => {
            statement.lhs_identifier.0 == name && statement.rhs_identifier.0 == mixin
        }
        _ => false,
    }
}

/// Whether a definition is neither a part nor a statement.
fn is_whole(definition: &Definition<'_>) -> bool
    ensures { result ≡ is_whole definition.now }
{
    match definition {
        Definition::Callback(_)
        | Definition::CallbackInterface(_)
        | Definition::Interface(_)
        | Definition::InterfaceMixin(_)
        | Definition::Namespace(_)
        | Definition::Dictionary(_)
        | Definition::Enum(_)
        | Definition::Typedef(_) => true,
        _ => false,
    }
}

/// Whether a definition is a part.
fn is_part(definition: &Definition<'_>) -> bool
    ensures { result ≡ is_part definition.now }
{
    match definition {
        Definition::PartialInterface(_)
        | Definition::PartialInterfaceMixin(_)
        | Definition::PartialDictionary(_)
        | Definition::PartialNamespace(_) => true,
        _ => false,
    }
}

/// Whether a definition is a mixin or a part of one.
fn is_mixin(definition: &Definition<'_>) -> bool
    ensures { result ≡ is_mixin definition.now }
{
    match definition {
        Definition::InterfaceMixin(_) | Definition::PartialInterfaceMixin(_) => true,
        _ => false,
    }
}
