//! Orders of words before a member, and of what is inherited from.
//!
//! Written by tools/orders.py, and not edited by hand.

ghost use Rattle.std.specs.Prelude.{◌≡◌, ◌<◌};
ghost use Rattle.std.specs.Ordering.{ordering_then};
ghost use Rattle.weedle_comparisons.specs.written.Places.{
  special_place,
  stringifier_or_inherit_or_static_place,
  stringifier_or_static_place,
};

use std::cmp::Ordering;
use weedle_base::term::{
    Colon, Deleter, Getter, Inherit, LegacyCaller, Setter, Static, Stringifier,
};
use weedle_parts::common::Identifier;
use weedle_parts::inheritance::Inheritance;
use weedle_parts::modifier::{Special, StringifierOrInheritOrStatic, StringifierOrStatic};

/// A law, which does nothing: `cmp` of `Inheritance` goes by its fields, in order.
pub fn inheritance<'a>()
    ensures { (a b : Inheritance)
        → ⟦<Inheritance<'a> as Ord>⟧.cmp a b
        ≡ ordering_then (⟦<Colon as Ord>⟧.cmp a.colon b.colon)
        (⟦<Identifier<'a> as Ord>⟧.cmp a.identifier b.identifier) }
{}

/// A law, which does nothing: `cmp` of `Special` goes by its variants, and of one variant by what
/// it holds.
pub fn special()
    ensures earlier { (a b : Special)
        → special_place a < special_place b
        → ⟦<Special as Ord>⟧.cmp a b ≡ Ordering.Less }
    ensures later { (a b : Special)
        → special_place b < special_place a
        → ⟦<Special as Ord>⟧.cmp a b ≡ Ordering.Greater }
    ensures getter { (a b : Getter)
        → ⟦<Special as Ord>⟧.cmp (Special.Getter a) (Special.Getter b)
        ≡ ⟦<Getter as Ord>⟧.cmp a b }
    ensures setter { (a b : Setter)
        → ⟦<Special as Ord>⟧.cmp (Special.Setter a) (Special.Setter b)
        ≡ ⟦<Setter as Ord>⟧.cmp a b }
    ensures deleter { (a b : Deleter)
        → ⟦<Special as Ord>⟧.cmp (Special.Deleter a) (Special.Deleter b)
        ≡ ⟦<Deleter as Ord>⟧.cmp a b }
    ensures legacy_caller { (a b : LegacyCaller)
        → ⟦<Special as Ord>⟧.cmp (Special.LegacyCaller a) (Special.LegacyCaller b)
        ≡ ⟦<LegacyCaller as Ord>⟧.cmp a b }
{}

/// A law, which does nothing: `cmp` of `StringifierOrInheritOrStatic` goes by its variants, and of
/// one variant by what it holds.
pub fn stringifier_or_inherit_or_static()
    ensures earlier { (a b : StringifierOrInheritOrStatic)
        → stringifier_or_inherit_or_static_place a < stringifier_or_inherit_or_static_place b
        → ⟦<StringifierOrInheritOrStatic as Ord>⟧.cmp a b ≡ Ordering.Less }
    ensures later { (a b : StringifierOrInheritOrStatic)
        → stringifier_or_inherit_or_static_place b < stringifier_or_inherit_or_static_place a
        → ⟦<StringifierOrInheritOrStatic as Ord>⟧.cmp a b ≡ Ordering.Greater }
    ensures stringifier { (a b : Stringifier)
        → ⟦<StringifierOrInheritOrStatic as Ord>⟧.cmp (StringifierOrInheritOrStatic.Stringifier a)
        (StringifierOrInheritOrStatic.Stringifier b)
        ≡ ⟦<Stringifier as Ord>⟧.cmp a b }
    ensures inherit { (a b : Inherit)
        → ⟦<StringifierOrInheritOrStatic as Ord>⟧.cmp (StringifierOrInheritOrStatic.Inherit a)
        (StringifierOrInheritOrStatic.Inherit b)
        ≡ ⟦<Inherit as Ord>⟧.cmp a b }
    ensures static_ { (a b : Static)
        → ⟦<StringifierOrInheritOrStatic as Ord>⟧.cmp (StringifierOrInheritOrStatic.Static a)
        (StringifierOrInheritOrStatic.Static b)
        ≡ ⟦<Static as Ord>⟧.cmp a b }
{}

/// A law, which does nothing: `cmp` of `StringifierOrStatic` goes by its variants, and of one
/// variant by what it holds.
pub fn stringifier_or_static()
    ensures earlier { (a b : StringifierOrStatic)
        → stringifier_or_static_place a < stringifier_or_static_place b
        → ⟦<StringifierOrStatic as Ord>⟧.cmp a b ≡ Ordering.Less }
    ensures later { (a b : StringifierOrStatic)
        → stringifier_or_static_place b < stringifier_or_static_place a
        → ⟦<StringifierOrStatic as Ord>⟧.cmp a b ≡ Ordering.Greater }
    ensures stringifier { (a b : Stringifier)
        → ⟦<StringifierOrStatic as Ord>⟧.cmp (StringifierOrStatic.Stringifier a)
        (StringifierOrStatic.Stringifier b)
        ≡ ⟦<Stringifier as Ord>⟧.cmp a b }
    ensures static_ { (a b : Static)
        → ⟦<StringifierOrStatic as Ord>⟧.cmp (StringifierOrStatic.Static a)
        (StringifierOrStatic.Static b)
        ≡ ⟦<Static as Ord>⟧.cmp a b }
{}
