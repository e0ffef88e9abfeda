//! What follows from the declarations of the module above.
//!
//! Written by tools/impls.py, and not edited by hand.

ghost use Rattle.std.specs.Prelude.{◌≡◌};
ghost use Rattle.weedle_base.specs.Own.{own};
ghost use Rattle.weedle_base.specs.OwnLaws.{own_lawful};
ghost use Rattle.weedle_grammar.specs.written.Table.InterfaceMembers.{
  SPECIAL,
  STRINGIFIER_OR_INHERIT_OR_STATIC,
  STRINGIFIER_OR_STATIC,
};
ghost use Rattle.weedle_parts.specs.ModifierTrees.{
  special_tree,
  stringifier_or_inherit_or_static_tree,
  stringifier_or_static_tree,
};

use super::{Special, StringifierOrInheritOrStatic, StringifierOrStatic};
use std::alloc::Global;
use weedle_base::Choice::{self, First, Second};
use weedle_base::term::{Deleter, Getter, Inherit, LegacyCaller, Setter, Static, Stringifier};
use weedle_base::{IResult, Parse};

#[tactic(auto, using(crate::proofs::written::ModifierRules::special_steps))]
impl<'a> Parse<'a> for Special {
    ghost reading = { own SPECIAL special_tree ⊥ };

    fn parse(alloc: Global, input: &'a str) -> IResult<&'a str, Self> {
        let (rest, read) = Choice::parse(alloc, input)?;
        let member = match read {
            First(member) => Special::Getter(member),
            Second(First(member)) => Special::Setter(member),
            Second(Second(First(member))) => Special::Deleter(member),
            Second(Second(Second(member))) => Special::LegacyCaller(member),
        };
        Ok((rest, member))
    }

    ghost lawful = { own_lawful SPECIAL special_tree ⊥ };
}

impl From<Getter> for Special {
    ghost use Rattle.weedle_parts.specs.declared.modifier.Special.TheVariants.{Getter};

    ghost from_gives = { λ value made. made ≡ Getter value };

    fn from(value: Getter) -> Self {
        Special::Getter(value)
    }
}

impl From<Setter> for Special {
    ghost use Rattle.weedle_parts.specs.declared.modifier.Special.TheVariants.{Setter};

    ghost from_gives = { λ value made. made ≡ Setter value };

    fn from(value: Setter) -> Self {
        Special::Setter(value)
    }
}

impl From<Deleter> for Special {
    ghost use Rattle.weedle_parts.specs.declared.modifier.Special.TheVariants.{Deleter};

    ghost from_gives = { λ value made. made ≡ Deleter value };

    fn from(value: Deleter) -> Self {
        Special::Deleter(value)
    }
}

impl From<LegacyCaller> for Special {
    ghost use Rattle.weedle_parts.specs.declared.modifier.Special.TheVariants.{LegacyCaller};

    ghost from_gives = { λ value made. made ≡ LegacyCaller value };

    fn from(value: LegacyCaller) -> Self {
        Special::LegacyCaller(value)
    }
}

#[tactic(auto, using(crate::proofs::written::ModifierRules::stringifier_or_inherit_or_static_steps))]
impl<'a> Parse<'a> for StringifierOrInheritOrStatic {
    ghost reading = { own STRINGIFIER_OR_INHERIT_OR_STATIC stringifier_or_inherit_or_static_tree
        ⊥ };

    fn parse(alloc: Global, input: &'a str) -> IResult<&'a str, Self> {
        let (rest, read) = Choice::parse(alloc, input)?;
        let member = match read {
            First(member) => StringifierOrInheritOrStatic::Stringifier(member),
            Second(First(member)) => StringifierOrInheritOrStatic::Inherit(member),
            Second(Second(member)) => StringifierOrInheritOrStatic::Static(member),
        };
        Ok((rest, member))
    }

    ghost lawful = { own_lawful STRINGIFIER_OR_INHERIT_OR_STATIC
        stringifier_or_inherit_or_static_tree ⊥ };
}

impl From<Stringifier> for StringifierOrInheritOrStatic {
    ghost use Rattle.weedle_parts.specs.declared.modifier.StringifierOrInheritOrStatic.TheVariants.{
      Stringifier,
    };

    ghost from_gives = { λ value made. made ≡ Stringifier value };

    fn from(value: Stringifier) -> Self {
        StringifierOrInheritOrStatic::Stringifier(value)
    }
}

impl From<Inherit> for StringifierOrInheritOrStatic {
    ghost use Rattle.weedle_parts.specs.declared.modifier.StringifierOrInheritOrStatic.TheVariants.{
      Inherit,
    };

    ghost from_gives = { λ value made. made ≡ Inherit value };

    fn from(value: Inherit) -> Self {
        StringifierOrInheritOrStatic::Inherit(value)
    }
}

impl From<Static> for StringifierOrInheritOrStatic {
    ghost use Rattle.weedle_parts.specs.declared.modifier.StringifierOrInheritOrStatic.TheVariants.{
      Static,
    };

    ghost from_gives = { λ value made. made ≡ Static value };

    fn from(value: Static) -> Self {
        StringifierOrInheritOrStatic::Static(value)
    }
}

#[tactic(auto, using(crate::proofs::written::ModifierRules::stringifier_or_static_steps))]
impl<'a> Parse<'a> for StringifierOrStatic {
    ghost reading = { own STRINGIFIER_OR_STATIC stringifier_or_static_tree ⊥ };

    fn parse(alloc: Global, input: &'a str) -> IResult<&'a str, Self> {
        let (rest, read) = Choice::parse(alloc, input)?;
        let member = match read {
            First(member) => StringifierOrStatic::Stringifier(member),
            Second(member) => StringifierOrStatic::Static(member),
        };
        Ok((rest, member))
    }

    ghost lawful = { own_lawful STRINGIFIER_OR_STATIC stringifier_or_static_tree ⊥ };
}

impl From<Stringifier> for StringifierOrStatic {
    ghost use Rattle.weedle_parts.specs.declared.modifier.StringifierOrStatic.TheVariants.{
      Stringifier,
    };

    ghost from_gives = { λ value made. made ≡ Stringifier value };

    fn from(value: Stringifier) -> Self {
        StringifierOrStatic::Stringifier(value)
    }
}

impl From<Static> for StringifierOrStatic {
    ghost use Rattle.weedle_parts.specs.declared.modifier.StringifierOrStatic.TheVariants.{Static};

    ghost from_gives = { λ value made. made ≡ Static value };

    fn from(value: Static) -> Self {
        StringifierOrStatic::Static(value)
    }
}
