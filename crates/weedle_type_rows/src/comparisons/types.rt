//! Extended attributes, and types that are read, which lead back to themselves.

use super::{EQUAL, GREATER, LESS, name_list};
use std::alloc::{AllocError, Global};
use std::cmp::Ordering;
use std::hash::Hash;
use std::test::Fail;
use weedle_base::term::{Assign, CloseParen, OpenParen};
use weedle_base::{Parse, TryClone};
use weedle_comparisons::laws::{compare, hash_alike};
use weedle_comparisons::types::*;
use weedle_parts::common::{Identifier, Parenthesized};
use weedle_parts::literal::StringLit;
use weedle_types::attribute::{
    ExtendedAttributeIdent, ExtendedAttributeIdentList, IdentifierOrString,
};
use weedle_types::types::Type;

fn listing<'a>(
    alloc: Global,
    name: &'a str,
    names: &[&'a str],
) -> Result<ExtendedAttributeIdentList<'a>, AllocError> {
    Ok(ExtendedAttributeIdentList {
        identifier: Identifier(name),
        assign: Assign,
        list: Parenthesized {
            open_paren: OpenParen,
            body: name_list(alloc, names)?,
            close_paren: CloseParen,
        },
    })
}

/// What tells two values apart: whether they are equal, their order, and whether they hash alike.
type Told = ((bool, Ordering), bool);

/// What tells the values apart that these texts are, and a copy of the first from it; nothing where
/// one isn't read whole.
///
/// A function that holds types is dear to prove, and one that holds what is read of any type isn't.
fn told_apart<'a, T: Parse<'a> + TryClone + Ord + Hash>(
    alloc: Global,
    a: &'a str,
    b: &'a str,
) -> Result<Option<(Told, Told)>, AllocError> {
    match (T::parse(alloc, a), T::parse(alloc, b)) {
        (Ok(("", a)), Ok(("", b))) => {
            let copy = a.try_clone(alloc)?;
            Ok(Some((told(&a, &b), told(&copy, &a))))
        }
        _ => Ok(None),
    }
}

/// What tells one value from another.
fn told<T: Ord + Hash>(a: &T, b: &T) -> Told {
    (compare(a, b), hash_alike(a, b))
}

#[test]
fn names_stand_before_strings(rt: HostRuntime) -> Result<(), Fail> {
    let string = IdentifierOrString::String(StringLit("b"));
    for (a, answer) in [
        (IdentifierOrString::Identifier(Identifier("c")), LESS),
        (IdentifierOrString::String(StringLit("a")), LESS),
        (string, EQUAL),
        (IdentifierOrString::String(StringLit("c")), GREATER),
    ] {
        assert_eq!(rt; compare_names_or_strings(a, string), answer);
        assert_eq!(rt; names_or_strings_hash_alike(a, string), answer.0);
        assert_eq!(rt; clone_name_or_string(&a)?, (a, true));
    }
    Ok(())
}

#[test]
fn values_decide_after_names(rt: HostRuntime) -> Result<(), Fail> {
    let valued = |name, rhs| ExtendedAttributeIdent {
        lhs_identifier: Identifier(name),
        assign: Assign,
        rhs,
    };
    let name = IdentifierOrString::Identifier(Identifier("b"));
    let string = IdentifierOrString::String(StringLit("b"));
    let attribute = valued("B", string);
    for (a, answer) in [
        (valued("A", string), LESS),
        (valued("B", name), LESS),
        (attribute, EQUAL),
        (valued("C", name), GREATER),
    ] {
        assert_eq!(rt; compare_valued_attributes(a, attribute), answer);
        assert_eq!(rt; valued_attributes_hash_alike(a, attribute), answer.0);
        assert_eq!(rt; clone_valued_attribute(&a)?, (a, true));
    }
    Ok(())
}

#[test]
fn lists_decide_after_names(rt: HostRuntime) -> Result<(), Fail> {
    let alloc = rt.alloc();
    let attribute = listing(alloc, "B", &["a", "b"])?;
    for (name, names, answer) in [
        ("A", ["b"].as_slice(), LESS),
        ("B", ["a"].as_slice(), LESS),
        ("B", ["a", "b"].as_slice(), EQUAL),
        ("B", ["b"].as_slice(), GREATER),
        ("C", [].as_slice(), GREATER),
    ] {
        let a = listing(alloc, name, names)?;
        assert_eq!(rt; compare_listing_attributes(&a, &attribute), answer);
        assert_eq!(rt; listing_attributes_hash_alike(&a, &attribute), answer.0);
        assert_eq!(rt; copy_listing_attribute(&a, alloc)?, (a, true));
    }
    Ok(())
}

#[test]
fn types_go_by_their_variants(rt: HostRuntime) -> Result<(), Fail> {
    let alloc = rt.alloc();
    let ordered = [
        "any",
        "Promise<undefined>",
        "Promise<any>",
        "long long",
        "long",
        "long?",
        "unsigned long",
        "double",
        "DOMString",
        "sequence<long>",
        "sequence<long?>",
        "sequence<sequence<any>>",
        "sequence<(long)>",
        "FrozenArray<any>",
        "record<DOMString, long>",
        "record<DOMString, Node>",
        "record<USVString, long>",
        "Node",
        "()",
        "(long)",
        "(long or DOMString)",
        "(long or DOMString)?",
        "(long or (DOMString))",
        "([Clamp] octet)",
    ];
    for (i, a) in ordered.iter().enumerate() {
        for (j, b) in ordered.iter().enumerate() {
            let wanted = ((i == j, i.cmp(&j)), i == j);
            assert!(rt;
                told_apart::<Type<'_>>(alloc, a, b)? == Some((wanted, (EQUAL, true))),
                "of {a:?} and {b:?}"
            );
        }
    }
    Ok(())
}
