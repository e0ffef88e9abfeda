//! Literals and defaults.

ghost use Rattle.std.specs.Prelude.{◌≡◌, ◌↔◌, IsTrue, IsOkAnd};
ghost use Rattle.std.specs.Cmp.Lexicographic.{slice_cmp};
ghost use Rattle.std.specs.Hash.{str};
ghost use Rattle.std.specs.Ordering.{nat_cmp};
ghost use Rattle.weedle_comparisons.specs.Hashes.{SameHash};
ghost use Rattle.weedle_comparisons.specs.Keys.{integer_key, const_value_key, default_value_key};

use crate::laws::{compare, hash_alike};
use std::alloc::AllocError;
use std::cmp::Ordering;
use std::hash::Hash;
use weedle_parts::literal::{
    ConstValue, DecLit, Default, EmptyArrayLit, EmptyDictionaryLit, IntegerLit,
};

/// Decimal numbers are compared by the bytes of their texts, not by their values: of `12` and `5`
/// `(false, Less)`.
pub fn compare_decimals(a: DecLit<'_>, b: DecLit<'_>) -> (bool, Ordering)
    ensures equal { IsTrue result.0 ↔ (a.entry.0.now ≡ b.entry.0.now) }
    ensures order { result.1 ≡ slice_cmp nat_cmp a.entry.0.now b.entry.0.now }
    ensures agree { IsTrue result.0 ↔ (result.1 ≡ Ordering.Equal) }
{
    compare(&a, &b)
}

/// Decimal numbers hash as their texts do: true of `12` and `12`.
pub fn decimals_hash_alike(a: DecLit<'_>, b: DecLit<'_>) -> bool
    ensures hashes { IsTrue result ↔ SameHash str a.entry.0.now b.entry.0.now }
    ensures equal { a.entry.0.now ≡ b.entry.0.now → IsTrue result }
{
    hash_alike(&a, &b)
}

/// A clone of a decimal number, which takes no memory and never fails, and whether it equals the
/// number: `Ok((number, true))`.
pub fn clone_decimal<'a>(number: &DecLit<'a>) -> Result<(DecLit<'a>, bool), AllocError>
    ensures { IsOkAnd result (λ made. (made.0 ≡ number.now) × IsTrue made.1) }
{
    let copy = number.clone()?;
    Ok((copy, copy == *number))
}

/// Whole numbers are compared by their variants first, and then by their texts: the decimal `9`
/// comes before the hexadecimal `0x1`.
pub fn compare_integers(a: IntegerLit<'_>, b: IntegerLit<'_>) -> (bool, Ordering)
    ensures equal { IsTrue result.0 ↔ (integer_key a.entry ≡ integer_key b.entry) }
    ensures order { result.1 ≡ slice_cmp nat_cmp (integer_key a.entry) (integer_key b.entry) }
    ensures agree { IsTrue result.0 ↔ (result.1 ≡ Ordering.Equal) }
{
    compare(&a, &b)
}

/// Whole numbers of the same form and text hash alike: true of `0x1` and `0x1`.
pub fn integers_hash_alike(a: IntegerLit<'_>, b: IntegerLit<'_>) -> bool
    ensures hashes { IsTrue result
        ↔ SameHash ⟦<IntegerLit<'static> as Hash>⟧.hash_input a.entry b.entry }
    ensures equal { integer_key a.entry ≡ integer_key b.entry → IsTrue result }
{
    hash_alike(&a, &b)
}

/// A clone of a whole number, which takes no memory and never fails, and whether it equals the
/// number: `Ok((number, true))`.
pub fn clone_integer<'a>(number: &IntegerLit<'a>) -> Result<(IntegerLit<'a>, bool), AllocError>
    ensures { IsOkAnd result (λ made. (made.0 ≡ number.now) × IsTrue made.1) }
{
    let copy = number.clone()?;
    Ok((copy, copy == *number))
}

/// Values of constants are compared by their variants first, and then by what they hold: `false`,
/// then `true`, then `0.5`, then `null`.
pub fn compare_const_values(a: ConstValue<'_>, b: ConstValue<'_>) -> (bool, Ordering)
    ensures equal { IsTrue result.0 ↔ (const_value_key a.entry ≡ const_value_key b.entry) }
    ensures order { result.1
        ≡ slice_cmp nat_cmp (const_value_key a.entry) (const_value_key b.entry) }
    ensures agree { IsTrue result.0 ↔ (result.1 ≡ Ordering.Equal) }
{
    compare(&a, &b)
}

/// The same values of constants hash alike: true of `null` and `null`.
pub fn const_values_hash_alike(a: ConstValue<'_>, b: ConstValue<'_>) -> bool
    ensures hashes { IsTrue result
        ↔ SameHash ⟦<ConstValue<'static> as Hash>⟧.hash_input a.entry b.entry }
    ensures equal { const_value_key a.entry ≡ const_value_key b.entry → IsTrue result }
{
    hash_alike(&a, &b)
}

/// A clone of the value of a constant, which takes no memory and never fails, and whether it equals
/// the value: `Ok((value, true))`.
pub fn clone_const_value<'a>(value: &ConstValue<'a>) -> Result<(ConstValue<'a>, bool), AllocError>
    ensures { IsOkAnd result (λ made. (made.0 ≡ value.now) × IsTrue made.1) }
{
    let copy = value.clone()?;
    Ok((copy, copy == *value))
}

/// Defaults are compared by their values, since there is but one `=`: of `= []` and `= {}`
/// `(false, Less)`.
pub fn compare_defaults(a: Default<'_>, b: Default<'_>) -> (bool, Ordering)
    ensures equal { IsTrue result.0
        ↔ (default_value_key a.entry.value ≡ default_value_key b.entry.value) }
    ensures order { result.1
        ≡ slice_cmp nat_cmp (default_value_key a.entry.value) (default_value_key b.entry.value) }
    ensures agree { IsTrue result.0 ↔ (result.1 ≡ Ordering.Equal) }
{
    compare(&a, &b)
}

/// Defaults of the same value hash alike: true of `= []` and `= []`.
pub fn defaults_hash_alike(a: Default<'_>, b: Default<'_>) -> bool
    ensures hashes { IsTrue result
        ↔ SameHash ⟦<Default<'static> as Hash>⟧.hash_input a.entry b.entry }
    ensures equal { default_value_key a.entry.value ≡ default_value_key b.entry.value
        → IsTrue result }
{
    hash_alike(&a, &b)
}

/// A clone of a default, which takes no memory and never fails, and whether it equals the default:
/// `Ok((default, true))`.
pub fn clone_default<'a>(default: &Default<'a>) -> Result<(Default<'a>, bool), AllocError>
    ensures { IsOkAnd result (λ made. (made.0 ≡ default.now) × IsTrue made.1) }
{
    let copy = default.clone()?;
    Ok((copy, copy == *default))
}

/// The default of an empty list has its two brackets: `[]`.
pub fn default_empty_array() -> EmptyArrayLit
    ensures { result ≡ record { open_bracket = record {}; close_bracket = record {} } }
{
    EmptyArrayLit::default()
}

/// The default of an empty dictionary has its two braces: `{}`.
pub fn default_empty_dictionary() -> EmptyDictionaryLit
    ensures { result ≡ record { open_brace = record {}; close_brace = record {} } }
{
    EmptyDictionaryLit::default()
}
