//! Where texts speak of definitions. The places are counted by hand, and `weedle.Index` in Python
//! has the same.

use std::test::Fail;
use weedle_places::{Name, Role, names, references, references_of};
use weedle_syntax::Syntax;
use weedle_testing::Wanted;

/// A reference of each role, and names that are none: of definitions, of members, of extended
/// attributes and what these have as values.
const TEXT: &str = "\
interface A {};
partial interface A { attribute sequence<A?> A; };
dictionary D : _A { [A=A] a x; };
A includes M; M includes A; A implements A;
interface mixin M {}; partial interface mixin M {};
typedef (A or M) T; partial dictionary D {}; partial namespace N {};
";

/// Where a reference begins and ends, and its role.
type Said = (usize, usize, Role);

/// Whether the names are in these places, and have these roles.
fn are_said(found: &[Name<'_>], said: &[Said]) -> bool {
    found.len() == said.len()
        && found.iter().zip(said).all(|(name, said)| (name.span.start, name.span.end, name.role)
            == *said)
}

#[test]
fn references_of_each_role_stand_where_they_are(rt: HostRuntime) -> Result<(), Fail> {
    let alloc = rt.alloc();
    let a = [
        (34, 35, Role::PartialInterface),
        (57, 58, Role::Type),
        (82, 84, Role::Inherited),
        (101, 102, Role::Includer),
        (126, 127, Role::Included),
        (129, 130, Role::Implementer),
        (142, 143, Role::Implemented),
        (206, 207, Role::Type),
    ];
    let m = [
        (112, 113, Role::Included),
        (115, 116, Role::Includer),
        (191, 192, Role::PartialMixin),
        (211, 212, Role::Type),
    ];
    assert!(rt; references(alloc, TEXT, "A")?.is_some_and(|found| are_said(&found, &a)));
    assert!(rt; references(alloc, TEXT, "M")?.is_some_and(|found| are_said(&found, &m)));
    for (name, said) in [
        ("a", (93, 94, Role::Type)),
        ("D", (236, 237, Role::PartialDictionary)),
        ("N", (260, 261, Role::PartialNamespace)),
    ] {
        let found = references(alloc, TEXT, name)?;
        assert!(rt;
            found.is_some_and(|found| are_said(&found, &[said])),
            "of {name}"
        );
    }
    Ok(())
}

/// `T` is defined alone, `_A` is no name's letters, and nothing speaks of `Z`.
#[test]
fn what_nothing_speaks_of_has_none(rt: HostRuntime) -> Result<(), Fail> {
    let alloc = rt.alloc();
    for name in ["T", "_A", "Z", ""] {
        let found = references(alloc, TEXT, name)?;
        assert!(rt; found.is_some_and(|found| found.is_empty()), "of {name}");
    }
    assert!(rt; references(alloc, "interface A : B {", "B")?.is_none());
    let roles = names(alloc, TEXT)?.map(|found| found
        .iter()
        .filter(|name| name.role.is_reference())
        .count());
    assert!(rt; roles == Some(15));
    Ok(())
}

#[test]
fn references_are_found_or_want_memory(rt: HostRuntime) -> Result<(), Fail> {
    let alloc = rt.alloc();
    let mut wanted = Wanted::new();
    if let Some(Some(found)) = wanted.given(references(alloc, "A includes B; B includes A;", "A")) {
        assert_eq!(rt; found.len(), 2);
    }
    if let Some(front) = wanted.given(Syntax::of_front(alloc, "A includes B; interface A {")) {
        if let Some(found) = wanted.given(references_of(alloc, &front, "A")) {
            assert_eq!(rt; found.len(), 1);
        }
    }
    assert!(rt; wanted.tell(&rt, alloc));
    Ok(())
}
