//! Lists whose items are between separators.

ghost use Rattle.weedle_base.specs.Alike.{all_alike};
ghost use Rattle.weedle_base.specs.AlikeLaws.{all_equivalence, pair_equivalence, seen_equivalence};
ghost use Rattle.weedle_base.specs.Reading.{Answers};
ghost use Rattle.weedle_parts.specs.Lists.{
  after_first,
  punctuated_reading,
  punctuated_non_empty_reading,
};
ghost use Rattle.weedle_parts.specs.ListLaws.{punctuated_lawful, punctuated_non_empty_lawful};

use std::alloc::{AllocError, Global};
use weedle_base::{Err, IResult, Parse, TryClone, mismatch, out_of_memory};

/// Items with a separator between each two, as `a, b`; none included. `separator` is the default,
/// not what was read.
#[derive(Debug, Drop, PartialEq, Eq, PartialOrd, Ord, Hash)]
pub struct Punctuated<T, S> {
    /// The items, one after another; none included.
    pub list: Vec<T>,
    /// The separator's default, not what was read.
    pub separator: S,
}

#[tactic(auto, unfolding(weedle_base::specs::Generic::pair_reading, weedle_base::specs::Generic::option_reading, crate::specs::Lists::punctuated_reading))]
impl<'a, T: Parse<'a>, S: Parse<'a> + Default> Parse<'a> for Punctuated<T, S> {
    ghost reading = { punctuated_reading T.reading S.reading (λ p. p.list.items)
        (λ p. S.is_default p.separator) };

    fn parse(alloc: Global, input: &'a str) -> IResult<&'a str, Self> {
        match T::parse(alloc, input) {
            Ok((rest, first)) => {
                let (rest, mut list) = following::<T, S>(alloc, first, rest)?;
                list.shrink_to_fit();
                let separator = S::default();
                Ok((rest, Punctuated { list, separator }))
            }
            Err(Err::Error(_)) => {
                let list = Vec::new(alloc);
                let separator = S::default();
                Ok((input, Punctuated { list, separator }))
            }
            Err(fault) => Err(fault),
        }
    }

    ghost lawful = { punctuated_lawful T.reading S.reading T.lawful S.lawful (λ p. p.list.items)
        (λ p. S.is_default p.separator) };
}

impl<T: TryClone, S: TryClone> TryClone for Punctuated<T, S> {
    ghost alike = { λ a b. all_alike T.alike a.list.items b.list.items
        × S.alike a.separator b.separator };

    fn try_clone(&self, alloc: Global) -> Result<Self, AllocError> {
        let list = self.list.try_clone(alloc)?;
        let separator = self.separator.try_clone(alloc)?;
        Ok(Punctuated { list, separator })
    }

    ghost equivalence = { seen_equivalence (λ p. (p.list.items, p.separator))
        (pair_equivalence (all_equivalence T.equivalence) S.equivalence) };
}

/// Items with a separator between each two, one item at least, and one further separator where
/// present, as `a, b,`. `separator` is the default, not what was read.
#[derive(Debug, Drop, PartialEq, Eq, PartialOrd, Ord, Hash)]
pub struct PunctuatedNonEmpty<T, S> {
    /// The items, one after another; one at least.
    pub list: Vec<T>,
    /// The separator's default, not what was read.
    pub separator: S,
}

#[tactic(auto, unfolding(weedle_base::specs::Generic::pair_reading, weedle_base::specs::Generic::option_reading, crate::specs::Lists::punctuated_non_empty_reading))]
impl<'a, T: Parse<'a>, S: Parse<'a> + Default> Parse<'a> for PunctuatedNonEmpty<T, S> {
    ghost reading = { punctuated_non_empty_reading T.reading S.reading (λ p. p.list.items)
        (λ p. S.is_default p.separator) };

    fn parse(alloc: Global, input: &'a str) -> IResult<&'a str, Self> {
        let (rest, first) = T::parse(alloc, input)?;
        let (rest, mut list) = following::<T, S>(alloc, first, rest)?;
        list.shrink_to_fit();
        let (rest, _) = Option::<S>::parse(alloc, rest)?;
        let separator = S::default();
        Ok((rest, PunctuatedNonEmpty { list, separator }))
    }

    ghost lawful = { punctuated_non_empty_lawful T.reading S.reading T.lawful S.lawful
        (λ p. p.list.items) (λ p. S.is_default p.separator) };
}

impl<T: TryClone, S: TryClone> TryClone for PunctuatedNonEmpty<T, S> {
    ghost alike = { λ a b. all_alike T.alike a.list.items b.list.items
        × S.alike a.separator b.separator };

    fn try_clone(&self, alloc: Global) -> Result<Self, AllocError> {
        let list = self.list.try_clone(alloc)?;
        let separator = self.separator.try_clone(alloc)?;
        Ok(PunctuatedNonEmpty { list, separator })
    }

    ghost equivalence = { seen_equivalence (λ p. (p.list.items, p.separator))
        (pair_equivalence (all_equivalence T.equivalence) S.equivalence) };
}

/// Reads the items after the first, each behind its separator.
fn following<'a, T: Parse<'a>, S: Parse<'a>>(
    alloc: Global,
    first: T,
    input: &'a str,
) -> IResult<&'a str, Vec<T>>
    ensures { Answers (after_first T.reading S.reading (λ l. l.items) first) input.now result }
{
    let mut list = Vec::new(alloc);
    if list.push(first).is_err() {
        return Err(out_of_memory(input));
    }
    let mut rest = input;
    loop {
        let (after, separator) = Option::<S>::parse(alloc, rest)?;
        let Some(_) = separator else {
            return Ok((rest, list));
        };
        if after.len() == rest.len() {
            return Err(mismatch(rest));
        }
        let (next, read) = Option::<T>::parse(alloc, after)?;
        let Some(item) = read else {
            return Ok((rest, list));
        };
        if list.push(item).is_err() {
            return Err(out_of_memory(rest));
        }
        rest = next;
    }
}
