//! What names inherit from. The names are found by hand, and `weedle.Index` in Python has the same.

use std::alloc::{AllocError, Global};
use std::process::Abort;
use std::test::Fail;
use weedle::{Definitions, Err, Parse, ancestors, kind_of, lend, name_of};
use weedle_testing::Wanted;

/// A chain over each kind that can inherit, with a second definition and a part that are passed
/// over; circles of one and of two; and parents that nothing defines.
const TEXT: &str = "\
partial interface A {}; interface A : B {}; interface A : Z {};
dictionary B : C {}; enum B { \"b\" };
callback interface C : E {}; interface E : _C {}; interface F : A {}; interface G : G {};
interface H : Y {}; partial interface Y {}; interface Z : a {}; interface J : T {}; typedef long T;
";

/// Names in `TEXT`, of which it is known what they inherit from.
#[derive(Clone, Copy, Debug)]
enum Example {
    /// An interface, with one of each kind above it.
    Interface,
    /// A dictionary that an enum of its name follows.
    Dictionary,
    /// A callback interface, above which a circle closes.
    CallbackInterface,
    /// An interface in a circle of two.
    Circle,
    /// An interface that inherits from the name of a type.
    TypeName,
    /// An interface that inherits from itself.
    Itself,
    /// An interface above which there is a part alone.
    Part,
    /// An interface above which a name differs in its case.
    Case,
    /// A name for a type.
    Typedef,
    /// No name.
    Nothing,
    /// A name that nothing defines.
    Unknown,
}

impl Example {
    fn name(self) -> &'static str {
        match self {
            Example::Interface => "F",
            Example::Dictionary => "A",
            Example::CallbackInterface => "C",
            Example::Circle => "E",
            Example::TypeName => "J",
            Example::Itself => "G",
            Example::Part => "H",
            Example::Case => "Z",
            Example::Typedef => "T",
            Example::Nothing => "",
            Example::Unknown => "Unknown",
        }
    }

    /// The kind and the name of each ancestor.
    fn ancestors(self) -> &'static str {
        match self {
            Example::Interface => "interface A;dictionary B;callback interface C;interface E;",
            Example::Dictionary => "dictionary B;callback interface C;interface E;",
            Example::CallbackInterface => "interface E;",
            Example::Circle => "callback interface C;",
            Example::TypeName => "typedef T;",
            _ => "",
        }
    }
}

/// The ancestors of a name, with the kind of each in front.
fn listing_of(
    alloc: Global,
    definitions: &Definitions<'_>,
    name: &str,
) -> Result<String, AllocError> {
    let mut listing = String::new(alloc);
    for definition in ancestors(alloc, definitions, name)? {
        write!(listing, "{} {};", kind_of(definition), name_of(definition))?;
    }
    Ok(listing)
}

/// Whether a list says so of an example.
fn is_said(alloc: Global, list: &Definitions<'_>, of: Example) -> Result<bool, AllocError> {
    let listing = listing_of(alloc, list, of.name())?;
    Ok(listing.as_str() == of.ancestors())
}

/// Whether these are the ancestors in `TEXT`.
fn has_ancestors(alloc: Global, of: Example) -> Result<bool, AllocError> {
    match Definitions::parse(alloc, TEXT) {
        Ok((_, list)) => lend(list, move |list: &Definitions<'_>| is_said(alloc, list, of)),
        Err(Err::Failure(_)) => Err(AllocError),
        Err(Err::Error(_)) => Ok(false),
    }
}

/// Asserts that these are the ancestors, or that memory is wanted.
fn assert_ancestors(rt: &impl Abort, alloc: Global, wanted: &mut Wanted, of: Example) {
    if let Some(is_said) = wanted.given(has_ancestors(alloc, of)) {
        assert!(rt; is_said, "of {}", of.name());
    }
}

#[test]
fn ancestors_are_the_nearest_first(rt: HostRuntime) -> Result<(), Fail> {
    let alloc = rt.alloc();
    let mut wanted = Wanted::new();
    assert_ancestors(&rt, alloc, &mut wanted, Example::Interface);
    assert_ancestors(&rt, alloc, &mut wanted, Example::Dictionary);
    assert_ancestors(&rt, alloc, &mut wanted, Example::CallbackInterface);
    assert_ancestors(&rt, alloc, &mut wanted, Example::Circle);
    assert_ancestors(&rt, alloc, &mut wanted, Example::TypeName);
    assert!(rt; wanted.tell(&rt, alloc));
    Ok(())
}

#[test]
fn what_inherits_from_nothing_has_none(rt: HostRuntime) -> Result<(), Fail> {
    let alloc = rt.alloc();
    let mut wanted = Wanted::new();
    assert_ancestors(&rt, alloc, &mut wanted, Example::Itself);
    assert_ancestors(&rt, alloc, &mut wanted, Example::Part);
    assert_ancestors(&rt, alloc, &mut wanted, Example::Case);
    assert_ancestors(&rt, alloc, &mut wanted, Example::Typedef);
    assert_ancestors(&rt, alloc, &mut wanted, Example::Nothing);
    assert_ancestors(&rt, alloc, &mut wanted, Example::Unknown);
    assert!(rt; wanted.tell(&rt, alloc));
    Ok(())
}
