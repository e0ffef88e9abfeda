//! What is inherited from, and the words before a member.
//!
//! Written by tools/builds.py, and not edited by hand.
#![tactic(auto, using(crate::proofs::Finding::own_steps))]

ghost use Rattle.std.specs.Prelude.{◌≡◌};
ghost use Rattle.weedle_grammar.specs.written.Table.InterfaceMembers.{
  INHERITANCE,
  SPECIAL,
  STRINGIFIER_OR_INHERIT_OR_STATIC,
  STRINGIFIER_OR_STATIC,
};
ghost use Rattle.weedle_parts.specs.ModifierTrees.{
  inheritance_tree,
  special_tree,
  stringifier_or_inherit_or_static_tree,
  stringifier_or_static_tree,
};

use crate::alternatives::{alternative, choice};
use crate::at::At;
use crate::build::{Build, BuildResult};
use crate::structs::two_fields;
use crate::table::Table;
use std::alloc::Global;
use weedle_base::term::{
    Colon, Deleter, Getter, Inherit, LegacyCaller, Setter, Static, Stringifier,
};
use weedle_parts::common::Identifier;
use weedle_parts::inheritance::Inheritance;
use weedle_parts::modifier::{Special, StringifierOrInheritOrStatic, StringifierOrStatic};
use weedle_rules::Rule;

impl<'a> Build<'a> for Inheritance<'a> {
    type Value = Self;

    ghost fits = { λ r. r ≡ INHERITANCE };

    ghost tree = { inheritance_tree };

    fn build(alloc: Global, table: Table<'_, 'a>, _rule: Rule, at: At) -> BuildResult<Self> {
        let ((colon, identifier), at) = two_fields::<Colon, Identifier>(
            alloc,
            table,
            Rule::INHERITANCE,
            at,
        )?;
        Ok((Inheritance { colon, identifier }, at))
    }
}

impl<'a> Build<'a> for Special {
    type Value = Self;

    ghost fits = { λ r. r ≡ SPECIAL };

    ghost tree = { special_tree };

    fn build(alloc: Global, table: Table<'_, 'a>, _rule: Rule, at: At) -> BuildResult<Self> {
        let rule = Rule::SPECIAL;
        match choice(table, rule, at.place) {
            0 => {
                let (member, at) = alternative::<Getter>(alloc, table, rule, 0, at)?;
                Ok((Special::Getter(member), at))
            }
            1 => {
                let (member, at) = alternative::<Setter>(alloc, table, rule, 1, at)?;
                Ok((Special::Setter(member), at))
            }
            2 => {
                let (member, at) = alternative::<Deleter>(alloc, table, rule, 2, at)?;
                Ok((Special::Deleter(member), at))
            }
            3 => {
                let (member, at) = alternative::<LegacyCaller>(alloc, table, rule, 3, at)?;
                Ok((Special::LegacyCaller(member), at))
            }
            _ => unreachable!(),
        }
    }
}

impl<'a> Build<'a> for StringifierOrInheritOrStatic {
    type Value = Self;

    ghost fits = { λ r. r ≡ STRINGIFIER_OR_INHERIT_OR_STATIC };

    ghost tree = { stringifier_or_inherit_or_static_tree };

    fn build(alloc: Global, table: Table<'_, 'a>, _rule: Rule, at: At) -> BuildResult<Self> {
        let rule = Rule::STRINGIFIER_OR_INHERIT_OR_STATIC;
        match choice(table, rule, at.place) {
            0 => {
                let (member, at) = alternative::<Stringifier>(alloc, table, rule, 0, at)?;
                Ok((StringifierOrInheritOrStatic::Stringifier(member), at))
            }
            1 => {
                let (member, at) = alternative::<Inherit>(alloc, table, rule, 1, at)?;
                Ok((StringifierOrInheritOrStatic::Inherit(member), at))
            }
            2 => {
                let (member, at) = alternative::<Static>(alloc, table, rule, 2, at)?;
                Ok((StringifierOrInheritOrStatic::Static(member), at))
            }
            _ => unreachable!(),
        }
    }
}

impl<'a> Build<'a> for StringifierOrStatic {
    type Value = Self;

    ghost fits = { λ r. r ≡ STRINGIFIER_OR_STATIC };

    ghost tree = { stringifier_or_static_tree };

    fn build(alloc: Global, table: Table<'_, 'a>, _rule: Rule, at: At) -> BuildResult<Self> {
        let rule = Rule::STRINGIFIER_OR_STATIC;
        match choice(table, rule, at.place) {
            0 => {
                let (member, at) = alternative::<Stringifier>(alloc, table, rule, 0, at)?;
                Ok((StringifierOrStatic::Stringifier(member), at))
            }
            1 => {
                let (member, at) = alternative::<Static>(alloc, table, rule, 1, at)?;
                Ok((StringifierOrStatic::Static(member), at))
            }
            _ => unreachable!(),
        }
    }
}
