//! Copies that may run out of memory.

ghost use Rattle.std.specs.Prelude.{◌≡◌, IfOk, string_bytes};
ghost use Rattle.weedle_base.specs.Alike.{IsEquivalence, option_alike, all_alike};
ghost use Rattle.weedle_base.specs.AlikeLaws.{
  equal_equivalence,
  seen_equivalence,
  option_equivalence,
  pair_equivalence,
  all_equivalence,
};

use std::alloc::{AllocError, Global};

/// A type whose values can be copied, where a copy may run out of memory.
///
/// `alike` says when two values are equal, capacities aside; `equivalence` is the proof that it is
/// an equivalence.
pub trait TryClone: Sized + Drop {
    ghost alike: { Self → Self → Type 0 };

    /// A copy that equals the original. It fails only because memory runs out, and the original
    /// stays as it was.
    fn try_clone(&self, alloc: Global) -> Result<Self, AllocError>
        ensures { IfOk result (λ copy. alike copy self.now) };

    ghost equivalence: { IsEquivalence alike };
}

impl TryClone for String {
    ghost alike = { λ a b. string_bytes a ≡ string_bytes b };

    fn try_clone(&self, alloc: Global) -> Result<String, AllocError> {
        String::from_str(alloc, self.as_str())
    }

    ghost equivalence = { seen_equivalence string_bytes equal_equivalence };
}

impl<T: TryClone> TryClone for Option<T> {
    ghost alike = { option_alike T.alike };

    fn try_clone(&self, alloc: Global) -> Result<Option<T>, AllocError> {
        match self {
            None => Ok(None),
            Some(value) => Ok(Some(value.try_clone(alloc)?)),
        }
    }

    ghost equivalence = { option_equivalence T.equivalence };
}

impl<T: TryClone> TryClone for Box<T> {
    ghost alike = { λ a b. T.alike a.value b.value };

    fn try_clone(&self, alloc: Global) -> Result<Box<T>, AllocError> {
        let value = (**self).try_clone(alloc)?;
        Ok(Box::new(alloc, value)?)
    }

    ghost equivalence = { seen_equivalence (λ b. b.value) T.equivalence };
}

impl<T: TryClone> TryClone for Vec<T> {
    ghost alike = { λ a b. all_alike T.alike a.items b.items };

    #[tactic(auto, using(crate::proofs::AlikeFacts::one_more_alike))]
    fn try_clone(&self, alloc: Global) -> Result<Vec<T>, AllocError> {
        let mut copy = Vec::new(alloc);
        for item in self {
            copy.push(item.try_clone(alloc)?)?;
        }
        Ok(copy)
    }

    ghost equivalence = { seen_equivalence (λ v. v.items) (all_equivalence T.equivalence) };
}

impl<T: TryClone, U: TryClone> TryClone for (T, U) {
    ghost alike = { λ a b. T.alike a.0 b.0 × U.alike a.1 b.1 };

    fn try_clone(&self, alloc: Global) -> Result<(T, U), AllocError> {
        let first = self.0.try_clone(alloc)?;
        let second = self.1.try_clone(alloc)?;
        Ok((first, second))
    }

    ghost equivalence = { pair_equivalence T.equivalence U.equivalence };
}

impl<T: TryClone, U: TryClone, V: TryClone> TryClone for (T, U, V) {
    ghost alike = { λ a b. T.alike a.0 b.0 × (U.alike a.1 b.1 × V.alike a.2 b.2) };

    fn try_clone(&self, alloc: Global) -> Result<(T, U, V), AllocError> {
        let first = self.0.try_clone(alloc)?;
        let second = self.1.try_clone(alloc)?;
        let third = self.2.try_clone(alloc)?;
        Ok((first, second, third))
    }

    ghost equivalence = { seen_equivalence (λ x. (x.0, (x.1, x.2)))
        (pair_equivalence T.equivalence (pair_equivalence U.equivalence V.equivalence)) };
}
