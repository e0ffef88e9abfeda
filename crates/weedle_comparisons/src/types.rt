//! Extended attributes: a name or a string, a name with one of these, and a name with a list of
//! names. Tests show the same of types that lead back to themselves, as `Type`.

ghost use Rattle.std.specs.Prelude.{◌≡◌, ◌↔◌, IsTrue, IfOk, IsOkAnd};
ghost use Rattle.std.specs.Cmp.Lexicographic.{slice_cmp};
ghost use Rattle.std.specs.Ordering.{nat_cmp, ordering_then};
ghost use Rattle.weedle_comparisons.specs.Hashes.{SameHash};
ghost use Rattle.weedle_comparisons.specs.Keys.{identifier_or_string_key, texts_of};

use crate::laws::{compare, hash_alike};
use std::alloc::{AllocError, Global};
use std::cmp::Ordering;
use std::hash::Hash;
use weedle_base::TryClone;
use weedle_types::attribute::{
    ExtendedAttributeIdent, ExtendedAttributeIdentList, IdentifierOrString,
};

/// Names and strings are compared by their variants first, and then by their texts: the name `b`
/// comes before the string `"a"`.
pub fn compare_names_or_strings(
    a: IdentifierOrString<'_>,
    b: IdentifierOrString<'_>,
) -> (bool, Ordering)
    ensures equal { IsTrue result.0
        ↔ (identifier_or_string_key a.entry ≡ identifier_or_string_key b.entry) }
    ensures order { result.1
        ≡ slice_cmp nat_cmp (identifier_or_string_key a.entry) (identifier_or_string_key b.entry) }
    ensures agree { IsTrue result.0 ↔ (result.1 ≡ Ordering.Equal) }
{
    compare(&a, &b)
}

/// Names of the same text hash alike, and so do strings: true of `"a"` and `"a"`.
pub fn names_or_strings_hash_alike(a: IdentifierOrString<'_>, b: IdentifierOrString<'_>) -> bool
    ensures hashes { IsTrue result
        ↔ SameHash ⟦<IdentifierOrString<'static> as Hash>⟧.hash_input a.entry b.entry }
    ensures equal { identifier_or_string_key a.entry ≡ identifier_or_string_key b.entry
        → IsTrue result }
{
    hash_alike(&a, &b)
}

/// A clone of a name or a string, which takes no memory and never fails, and whether it equals
/// that: `Ok((value, true))`.
pub fn clone_name_or_string<'a>(
    value: &IdentifierOrString<'a>,
) -> Result<(IdentifierOrString<'a>, bool), AllocError>
    ensures { IsOkAnd result (λ made. (made.0 ≡ value.now) × IsTrue made.1) }
{
    let copy = value.clone()?;
    Ok((copy, copy == *value))
}

/// Extended attributes with a value are compared by their names first, and then by their values:
/// `A=b`, then `A="a"`, then `B=a`.
pub fn compare_valued_attributes(
    a: ExtendedAttributeIdent<'_>,
    b: ExtendedAttributeIdent<'_>,
) -> (bool, Ordering)
    ensures equal { IsTrue result.0
        ↔ ((a.entry.lhs_identifier.0.now ≡ b.entry.lhs_identifier.0.now)
        × (identifier_or_string_key a.entry.rhs ≡ identifier_or_string_key b.entry.rhs)) }
    ensures order { result.1
        ≡ ordering_then
        (slice_cmp nat_cmp a.entry.lhs_identifier.0.now b.entry.lhs_identifier.0.now)
        (slice_cmp nat_cmp (identifier_or_string_key a.entry.rhs)
        (identifier_or_string_key b.entry.rhs)) }
    ensures agree { IsTrue result.0 ↔ (result.1 ≡ Ordering.Equal) }
{
    compare(&a, &b)
}

/// Extended attributes of the same name and value hash alike: true of `A=b` and `A=b`.
pub fn valued_attributes_hash_alike(
    a: ExtendedAttributeIdent<'_>,
    b: ExtendedAttributeIdent<'_>,
) -> bool
    ensures hashes { IsTrue result
        ↔ SameHash ⟦<ExtendedAttributeIdent<'static> as Hash>⟧.hash_input a.entry b.entry }
    ensures equal { (a.entry.lhs_identifier.0.now ≡ b.entry.lhs_identifier.0.now)
        × (identifier_or_string_key a.entry.rhs ≡ identifier_or_string_key b.entry.rhs)
        → IsTrue result }
{
    hash_alike(&a, &b)
}

/// A clone of an extended attribute with a value, which takes no memory and never fails, and
/// whether it equals that: `Ok((attribute, true))`.
pub fn clone_valued_attribute<'a>(
    attribute: &ExtendedAttributeIdent<'a>,
) -> Result<(ExtendedAttributeIdent<'a>, bool), AllocError>
    ensures { IsOkAnd result (λ made. (made.0 ≡ attribute.now) × IsTrue made.1) }
{
    let copy = attribute.clone()?;
    Ok((copy, copy == *attribute))
}

/// Extended attributes with a list of names are compared by their own names first, and then name by
/// name: `A=(a)`, then `A=(a, b)`, then `A=(b)`, then `B=()`.
#[tactic(auto, using(crate::proofs::NameLists::names_order))]
pub fn compare_listing_attributes(
    a: &ExtendedAttributeIdentList<'_>,
    b: &ExtendedAttributeIdentList<'_>,
) -> (bool, Ordering)
    ensures equal { IsTrue result.0
        ↔ ((a.now.identifier.0.now ≡ b.now.identifier.0.now)
        × (texts_of a.now.list.body.list.items ≡ texts_of b.now.list.body.list.items)) }
    ensures order { result.1
        ≡ ordering_then (slice_cmp nat_cmp a.now.identifier.0.now b.now.identifier.0.now)
        (slice_cmp (slice_cmp nat_cmp) (texts_of a.now.list.body.list.items)
        (texts_of b.now.list.body.list.items)) }
    ensures agree { IsTrue result.0 ↔ (result.1 ≡ Ordering.Equal) }
{
    compare(a, b)
}

/// Extended attributes of the same name and list of names hash alike: true of `A=(a, b)` and
/// `A=(a, b)`.
pub fn listing_attributes_hash_alike(
    a: &ExtendedAttributeIdentList<'_>,
    b: &ExtendedAttributeIdentList<'_>,
) -> bool
    ensures hashes { IsTrue result
        ↔ SameHash ⟦<ExtendedAttributeIdentList<'static> as Hash>⟧.hash_input a.now b.now }
    ensures equal { (a.now.identifier.0.now ≡ b.now.identifier.0.now)
        × (texts_of a.now.list.body.list.items ≡ texts_of b.now.list.body.list.items)
        → IsTrue result }
{
    hash_alike(a, b)
}

/// A copy of an extended attribute with a list of names, and whether it equals that, unless memory
/// is refused: `Ok((copy, true))`.
pub fn copy_listing_attribute<'a>(
    attribute: &ExtendedAttributeIdentList<'a>,
    alloc: Global,
) -> Result<(ExtendedAttributeIdentList<'a>, bool), AllocError>
    ensures { IfOk result
        (λ made. (made.0.identifier.0.now ≡ attribute.now.identifier.0.now)
        × (texts_of made.0.list.body.list.items ≡ texts_of attribute.now.list.body.list.items)
        × IsTrue made.1) }
{
    let copy = attribute.try_clone(alloc)?;
    let equal = copy == *attribute;
    Ok((copy, equal))
}
