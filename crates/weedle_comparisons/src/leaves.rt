//! Terminals, faults and the parts that the types and definitions of the grammar share.

ghost use Rattle.std.specs.Prelude.{◌≡◌, ◌↔◌, IsTrue, IfOk, IsOkAnd, string_bytes};
ghost use Rattle.std.specs.Cmp.Lexicographic.{slice_cmp};
ghost use Rattle.std.specs.Hash.{str};
ghost use Rattle.std.specs.Ordering.{nat_cmp, ordering_then};
ghost use Rattle.weedle_comparisons.specs.Hashes.{SameHash};
ghost use Rattle.weedle_comparisons.specs.Keys.{option_key, is_failure, fault_of, texts_of};
ghost use Rattle.weedle_comparisons.specs.Keys.{integer_type_key};

use crate::laws::{compare, hash_alike};
use std::alloc::{AllocError, Global};
use std::cmp::Ordering;
use std::hash::Hash;
use weedle_base::term::Comma;
use weedle_base::{Err, Error, ErrorKind, TryClone};
use weedle_parts::common::{
    Braced, Bracketed, Docstring, Generics, Identifier, Parenthesized, Punctuated,
};
use weedle_parts::types::{IntegerType, MayBeNull};

/// Two commas are equal, and neither comes before the other: `(true, Equal)`.
pub fn compare_commas(a: Comma, b: Comma) -> (bool, Ordering)
    ensures equal { IsTrue result.0 }
    ensures order { result.1 ≡ Ordering.Equal }
{
    compare(&a, &b)
}

/// Two commas hash alike: true.
pub fn commas_hash_alike(a: Comma, b: Comma) -> bool
    ensures { IsTrue result }
{
    hash_alike(&a, &b)
}

/// A clone of a comma, which takes no memory, and whether it equals the comma: `Ok((Comma, true))`.
pub fn clone_comma(comma: &Comma) -> Result<(Comma, bool), AllocError>
    ensures { IsOkAnd result (λ made. (made.0 ≡ comma.now) × IsTrue made.1) }
{
    let copy = comma.clone()?;
    Ok((copy, copy == *comma))
}

/// The default of a terminal is its one value: `Comma`.
pub fn default_comma() -> Comma
    ensures { result ≡ record {} }
{
    Comma::default()
}

/// Two kinds of fault are equal where they are the same variant: not `Mismatch` and `Memory`.
pub fn equal_kinds(a: ErrorKind, b: ErrorKind) -> bool
    ensures { IsTrue result ↔ (a ≡ b) }
{
    a == b
}

/// Two faults are equal where they have the same text and kind: not a mismatch at `a` and one at
/// `b`.
pub fn equal_errors(a: Error<&str>, b: Error<&str>) -> bool
    ensures { IsTrue result
        ↔ ((a.entry.input.now ≡ b.entry.input.now) × (a.entry.code ≡ b.entry.code)) }
{
    a == b
}

/// What ended two calls is equal where it is the same variant and an equal fault: an `Error` is not
/// the `Failure` of its fault.
pub fn equal_ends(a: Err<Error<&str>>, b: Err<Error<&str>>) -> bool
    ensures { IsTrue result
        ↔ ((is_failure a.entry ≡ is_failure b.entry)
        × ((fault_of a.entry).input.now ≡ (fault_of b.entry).input.now)
        × ((fault_of a.entry).code ≡ (fault_of b.entry).code)) }
{
    a == b
}

/// A clone of a fault, which takes no memory, and whether it equals the fault: `Ok((fault, true))`.
pub fn clone_error<'a>(error: &Error<&'a str>) -> Result<(Error<&'a str>, bool), AllocError>
    ensures { IsOkAnd result (λ made. (made.0 ≡ error.now) × IsTrue made.1) }
{
    let copy = error.clone()?;
    Ok((copy, copy == *error))
}

/// Names are compared by the bytes of their texts: of `Node` and `Window` `(false, Less)`.
pub fn compare_identifiers(a: Identifier<'_>, b: Identifier<'_>) -> (bool, Ordering)
    ensures equal { IsTrue result.0 ↔ (a.entry.0.now ≡ b.entry.0.now) }
    ensures order { result.1 ≡ slice_cmp nat_cmp a.entry.0.now b.entry.0.now }
    ensures agree { IsTrue result.0 ↔ (result.1 ≡ Ordering.Equal) }
{
    compare(&a, &b)
}

/// Names hash as their texts do: true of `Node` and `Node`.
pub fn identifiers_hash_alike(a: Identifier<'_>, b: Identifier<'_>) -> bool
    ensures hashes { IsTrue result ↔ SameHash str a.entry.0.now b.entry.0.now }
    ensures equal { a.entry.0.now ≡ b.entry.0.now → IsTrue result }
{
    hash_alike(&a, &b)
}

/// A clone of a name, which takes no memory, and whether it equals the name: `Ok((name, true))`.
pub fn clone_identifier<'a>(name: &Identifier<'a>) -> Result<(Identifier<'a>, bool), AllocError>
    ensures { IsOkAnd result (λ made. (made.0 ≡ name.now) × IsTrue made.1) }
{
    let copy = name.clone()?;
    Ok((copy, copy == *name))
}

/// Names that may be null are compared by the name first, and where it is the same one without `?`
/// comes first: `a`, then `a?`, then `b`.
pub fn compare_nullable_names(
    a: MayBeNull<Identifier<'_>>,
    b: MayBeNull<Identifier<'_>>,
) -> (bool, Ordering)
    ensures equal { IsTrue result.0
        ↔ ((a.entry.type_.0.now ≡ b.entry.type_.0.now) × (a.entry.q_mark ≡ b.entry.q_mark)) }
    ensures order { result.1
        ≡ ordering_then (slice_cmp nat_cmp a.entry.type_.0.now b.entry.type_.0.now)
        (nat_cmp (option_key a.entry.q_mark) (option_key b.entry.q_mark)) }
    ensures agree { IsTrue result.0 ↔ (result.1 ≡ Ordering.Equal) }
{
    compare(&a, &b)
}

/// The same names, both with `?` or both without, hash alike: true of `a?` and `a?`.
pub fn nullable_names_hash_alike(a: MayBeNull<Identifier<'_>>, b: MayBeNull<Identifier<'_>>) -> bool
    ensures hashes { IsTrue result
        ↔ SameHash ⟦<MayBeNull<Identifier<'static>> as Hash>⟧.hash_input a.entry b.entry }
    ensures equal { (a.entry.type_.0.now ≡ b.entry.type_.0.now) × (a.entry.q_mark ≡ b.entry.q_mark)
        → IsTrue result }
{
    hash_alike(&a, &b)
}

/// A clone of a name that may be null, which takes no memory and never fails, and whether it equals
/// that: `Ok((name, true))`.
pub fn clone_nullable_name<'a>(
    name: &MayBeNull<Identifier<'a>>,
) -> Result<(MayBeNull<Identifier<'a>>, bool), AllocError>
    ensures { IsOkAnd result (λ made. (made.0 ≡ name.now) × IsTrue made.1) }
{
    let copy = name.clone()?;
    Ok((copy, copy == *name))
}

/// Types of integers are compared by their variants first, and then one without `unsigned` comes
/// first: `unsigned long long`, then `long`, then `unsigned long`.
pub fn compare_integer_types(a: IntegerType, b: IntegerType) -> (bool, Ordering)
    ensures equal { IsTrue result.0 ↔ (a ≡ b) }
    ensures order { result.1 ≡ slice_cmp nat_cmp (integer_type_key a) (integer_type_key b) }
    ensures agree { IsTrue result.0 ↔ (result.1 ≡ Ordering.Equal) }
{
    compare(&a, &b)
}

/// The same types of integers hash alike: true of `long` and `long`.
pub fn integer_types_hash_alike(a: IntegerType, b: IntegerType) -> bool
    ensures hashes { IsTrue result ↔ SameHash ⟦<IntegerType as Hash>⟧.hash_input a b }
    ensures equal { a ≡ b → IsTrue result }
{
    hash_alike(&a, &b)
}

/// A clone of a type of integers, which takes no memory and never fails, and whether it equals the
/// type: `Ok((type, true))`.
pub fn clone_integer_type(integer: &IntegerType) -> Result<(IntegerType, bool), AllocError>
    ensures { IsOkAnd result (λ made. (made.0 ≡ integer.now) × IsTrue made.1) }
{
    let copy = integer.clone()?;
    Ok((copy, copy == *integer))
}

/// Docstrings are compared by the bytes of their texts, not by their memory: of ` a` and ` b`
/// `(false, Less)`.
pub fn compare_docstrings(a: &Docstring, b: &Docstring) -> (bool, Ordering)
    ensures equal { IsTrue result.0 ↔ (string_bytes a.now.0 ≡ string_bytes b.now.0) }
    ensures order { result.1 ≡ slice_cmp nat_cmp (string_bytes a.now.0) (string_bytes b.now.0) }
    ensures agree { IsTrue result.0 ↔ (result.1 ≡ Ordering.Equal) }
{
    compare(a, b)
}

/// Docstrings hash as their texts do: true of ` a` and ` a`.
pub fn docstrings_hash_alike(a: &Docstring, b: &Docstring) -> bool
    ensures hashes { IsTrue result ↔ SameHash str (string_bytes a.now.0) (string_bytes b.now.0) }
    ensures equal { string_bytes a.now.0 ≡ string_bytes b.now.0 → IsTrue result }
{
    hash_alike(a, b)
}

/// A copy of a docstring, and whether it equals the docstring, unless memory is refused:
/// `Ok((copy, true))`.
pub fn copy_docstring(text: &Docstring, alloc: Global) -> Result<(Docstring, bool), AllocError>
    ensures { IfOk result
        (λ made. (string_bytes made.0.0 ≡ string_bytes text.now.0) × IsTrue made.1) }
{
    let copy = text.try_clone(alloc)?;
    let equal = copy == *text;
    Ok((copy, equal))
}

/// Lists of names are compared name by name, and a list comes before one that goes on: `a`, then
/// `a, b`, then `b`.
#[tactic(auto, using(crate::proofs::NameLists::names_equal, crate::proofs::NameLists::names_order))]
pub fn compare_name_lists(
    a: &Punctuated<Identifier<'_>, Comma>,
    b: &Punctuated<Identifier<'_>, Comma>,
) -> (bool, Ordering)
    ensures equal { IsTrue result.0 ↔ (texts_of a.now.list.items ≡ texts_of b.now.list.items) }
    ensures order { result.1
        ≡ slice_cmp (slice_cmp nat_cmp) (texts_of a.now.list.items) (texts_of b.now.list.items) }
    ensures agree { IsTrue result.0 ↔ (result.1 ≡ Ordering.Equal) }
{
    compare(a, b)
}

/// Lists of the same names hash alike: true of `a, b` and `a, b`.
#[tactic(auto, using(crate::proofs::NameLists::names_equal))]
pub fn name_lists_hash_alike(
    a: &Punctuated<Identifier<'_>, Comma>,
    b: &Punctuated<Identifier<'_>, Comma>,
) -> bool
    ensures hashes { IsTrue result
        ↔ SameHash ⟦<Punctuated<Identifier<'static>, Comma> as Hash>⟧.hash_input a.now b.now }
    ensures equal { texts_of a.now.list.items ≡ texts_of b.now.list.items → IsTrue result }
{
    hash_alike(a, b)
}

/// A copy of a list of names, and whether it equals the list, unless memory is refused:
/// `Ok((copy, true))`.
#[tactic(auto, using(crate::proofs::NameLists::alike_texts, crate::proofs::NameLists::names_equal))]
pub fn copy_name_list<'a>(
    list: &Punctuated<Identifier<'a>, Comma>,
    alloc: Global,
) -> Result<(Punctuated<Identifier<'a>, Comma>, bool), AllocError>
    ensures { IfOk result
        (λ made. (texts_of made.0.list.items ≡ texts_of list.now.list.items) × IsTrue made.1) }
{
    let copy = list.try_clone(alloc)?;
    let equal = copy == *list;
    Ok((copy, equal))
}

/// The default of parentheses has the default of their body: of commas a `Comma`.
pub fn default_parenthesized<T: Default>() -> Parenthesized<T>
    ensures { T.is_default result.body }
{
    Parenthesized::default()
}

/// The default of square brackets has the default of their body: of commas a `Comma`.
pub fn default_bracketed<T: Default>() -> Bracketed<T>
    ensures { T.is_default result.body }
{
    Bracketed::default()
}

/// The default of braces has the default of their body: of commas a `Comma`.
pub fn default_braced<T: Default>() -> Braced<T>
    ensures { T.is_default result.body }
{
    Braced::default()
}

/// The default of angle brackets has the default of their body: of commas a `Comma`.
pub fn default_generics<T: Default>() -> Generics<T>
    ensures { T.is_default result.body }
{
    Generics::default()
}

/// The default of brackets round what may be absent has nothing in it: `body` is `None`.
pub fn default_of_absent_name() -> Parenthesized<Option<Identifier<'static>>>
    ensures { result ≡ record { open_paren = record {}; body = None; close_paren = record {} } }
{
    Parenthesized::default()
}
