//! A type that may be null.

ghost use Rattle.std.specs.Prelude.{◌≡◌};
ghost use Rattle.weedle_base.specs.AlikeLaws.{
  equal_equivalence,
  seen_equivalence,
  pair_equivalence,
};
ghost use Rattle.weedle_parts.specs.MayBeNull.{may_be_null_reading};
ghost use Rattle.weedle_parts.specs.PartLaws.{may_be_null_lawful};

use std::alloc::{AllocError, Global};
use weedle_base::term::QMark;
use weedle_base::{IResult, Parse, TryClone};

/// A type, and `?` where it may be null, as `long?`.
#[derive(Clone, Copy, Debug, Drop, PartialEq, Eq, PartialOrd, Ord, Hash)]
pub struct MayBeNull<T> {
    /// The type, as `long`.
    pub type_: T,
    /// The `?`, where present.
    pub q_mark: Option<QMark>,
}

#[tactic(auto, using(weedle_base::proofs::Steps::seen_steps))]
impl<'a, T: Parse<'a>> Parse<'a> for MayBeNull<T> {
    ghost reading = { may_be_null_reading T.reading };

    fn parse(alloc: Global, input: &'a str) -> IResult<&'a str, Self> {
        let (rest, type_) = T::parse(alloc, input)?;
        let (rest, q_mark) = Option::parse(alloc, rest)?;
        Ok((rest, MayBeNull { type_, q_mark }))
    }

    ghost lawful = { may_be_null_lawful T.reading T.lawful };
}

impl<T: TryClone> TryClone for MayBeNull<T> {
    ghost alike = { λ a b. T.alike a.type_ b.type_ × (a.q_mark ≡ b.q_mark) };

    fn try_clone(&self, alloc: Global) -> Result<Self, AllocError> {
        let type_ = self.type_.try_clone(alloc)?;
        let q_mark = self.q_mark;
        Ok(MayBeNull { type_, q_mark })
    }

    ghost equivalence = { seen_equivalence (λ m. (m.type_, m.q_mark))
        (pair_equivalence T.equivalence equal_equivalence) };
}
