//! Copies of the terminals that are between the items of a list, so that a list can be copied.

ghost use Rattle.std.specs.Prelude.{◌≡◌};
ghost use Rattle.weedle_base.specs.AlikeLaws.{equal_equivalence};

use super::{Comma, Or};
use crate::TryClone;
use std::alloc::{AllocError, Global};

impl TryClone for Comma {
    ghost alike = { λ a b. a ≡ b };

    fn try_clone(&self, _alloc: Global) -> Result<Comma, AllocError> {
        Ok(*self)
    }

    ghost equivalence = { equal_equivalence };
}

impl TryClone for Or {
    ghost alike = { λ a b. a ≡ b };

    fn try_clone(&self, _alloc: Global) -> Result<Or, AllocError> {
        Ok(*self)
    }

    ghost equivalence = { equal_equivalence };
}
