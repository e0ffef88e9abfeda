//! What holds of comparisons, hashes and copies at any type.

ghost use Rattle.std.specs.Prelude.{◌≡◌, ◌↔◌, IsTrue};
ghost use Rattle.weedle_comparisons.specs.Hashes.{default_hash, SameHash};

use std::cmp::Ordering;
use std::hash::{DefaultHasher, Hash, Hasher};

/// Whether two values are equal, and their order, which is `Equal` exactly where they are: of two
/// commas `(true, Equal)`.
pub fn compare<T: Ord>(a: &T, b: &T) -> (bool, Ordering)
    ensures equal { result.0 ≡ T.eq a.now b.now }
    ensures order { result.1 ≡ T.cmp a.now b.now }
    ensures agree { IsTrue result.0 ↔ (result.1 ≡ Ordering.Equal) }
{
    (*a == *b, a.cmp(b))
}

/// Whether `a < b`, and what `partial_cmp` says, both as `cmp` does: of the names `a` and `b`
/// `(true, Some(Less))`.
pub fn compare_partially<T: Ord>(a: &T, b: &T) -> (bool, Option<Ordering>)
    ensures less { IsTrue result.0 ↔ (T.cmp a.now b.now ≡ Ordering.Less) }
    ensures order { result.1 ≡ Some (T.cmp a.now b.now) }
{
    (*a < *b, a.partial_cmp(b))
}

/// The hash of a value, by what its type writes of it: of the name `a` the byte of `a`, then 255.
pub fn hash_of<T: Hash>(value: &T) -> u64
    ensures { result ≡ default_hash (T.hash_input value.now) }
{
    let mut state = DefaultHasher::new();
    value.hash(&mut state);
    state.finish()
}

/// Whether two values have the same hash, as equal values have: true of two commas.
pub fn hash_alike<T: Hash>(a: &T, b: &T) -> bool
    ensures hashes { IsTrue result ↔ SameHash T.hash_input a.now b.now }
    ensures equal { IsTrue (T.eq a.now b.now) → IsTrue result }
{
    hash_of(a) == hash_of(b)
}

/// A copy, and whether it equals its original, as it does: of a comma `(Comma, true)`.
pub fn copy<T: Copy + Eq>(value: &T) -> (T, bool)
    ensures same { result.0 ≡ value.now }
    ensures equal { IsTrue result.1 }
{
    let copy = *value;
    (copy, copy == *value)
}
