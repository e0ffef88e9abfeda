//! What may be before a member, and what is inherited from.

ghost use Rattle.std.specs.Prelude.{◌≡◌, ◌↔◌, IsTrue, IsOkAnd};
ghost use Rattle.std.specs.Cmp.Lexicographic.{slice_cmp};
ghost use Rattle.std.specs.Hash.{str};
ghost use Rattle.std.specs.Ordering.{nat_cmp};
ghost use Rattle.weedle_comparisons.specs.Hashes.{SameHash};
ghost use Rattle.weedle_comparisons.specs.Keys.{special_key};

use crate::laws::{compare, hash_alike};
use std::alloc::AllocError;
use std::cmp::Ordering;
use std::hash::Hash;
use weedle_parts::inheritance::Inheritance;
use weedle_parts::modifier::Special;

/// What is inherited from is compared by its name, since there is but one colon: of `: Event` and
/// `: Node` `(false, Less)`.
pub fn compare_inheritances(a: Inheritance<'_>, b: Inheritance<'_>) -> (bool, Ordering)
    ensures equal { IsTrue result.0 ↔ (a.entry.identifier.0.now ≡ b.entry.identifier.0.now) }
    ensures order { result.1
        ≡ slice_cmp nat_cmp a.entry.identifier.0.now b.entry.identifier.0.now }
    ensures agree { IsTrue result.0 ↔ (result.1 ≡ Ordering.Equal) }
{
    compare(&a, &b)
}

/// What is inherited from hashes as its name does: true of `: Node` and `: Node`.
pub fn inheritances_hash_alike(a: Inheritance<'_>, b: Inheritance<'_>) -> bool
    ensures hashes { IsTrue result
        ↔ SameHash str a.entry.identifier.0.now b.entry.identifier.0.now }
    ensures equal { a.entry.identifier.0.now ≡ b.entry.identifier.0.now → IsTrue result }
{
    hash_alike(&a, &b)
}

/// A clone of what is inherited from, which takes no memory and never fails, and whether it equals
/// that: `Ok((inheritance, true))`.
pub fn clone_inheritance<'a>(
    inheritance: &Inheritance<'a>,
) -> Result<(Inheritance<'a>, bool), AllocError>
    ensures { IsOkAnd result (λ made. (made.0 ≡ inheritance.now) × IsTrue made.1) }
{
    let copy = inheritance.clone()?;
    Ok((copy, copy == *inheritance))
}

/// Words of special operations are compared by their variants: `getter`, then `setter`, then
/// `deleter`, then `legacycaller`.
pub fn compare_specials(a: Special, b: Special) -> (bool, Ordering)
    ensures equal { IsTrue result.0 ↔ (a ≡ b) }
    ensures order { result.1 ≡ nat_cmp (special_key a) (special_key b) }
    ensures agree { IsTrue result.0 ↔ (result.1 ≡ Ordering.Equal) }
{
    compare(&a, &b)
}

/// The same words of special operations hash alike: true of `getter` and `getter`.
pub fn specials_hash_alike(a: Special, b: Special) -> bool
    ensures hashes { IsTrue result ↔ SameHash ⟦<Special as Hash>⟧.hash_input a b }
    ensures equal { a ≡ b → IsTrue result }
{
    hash_alike(&a, &b)
}

/// A clone of the word of a special operation, which takes no memory and never fails, and whether
/// it equals the word: `Ok((word, true))`.
pub fn clone_special(special: &Special) -> Result<(Special, bool), AllocError>
    ensures { IsOkAnd result (λ made. (made.0 ≡ special.now) × IsTrue made.1) }
{
    let copy = special.clone()?;
    Ok((copy, copy == *special))
}
