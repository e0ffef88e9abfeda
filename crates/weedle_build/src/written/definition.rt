//! A definition of any kind.
//!
//! Written by tools/builds.py, and not edited by hand.
#![tactic(auto, using(weedle_build_base::proofs::Finding::own_steps))]

ghost use Rattle.std.specs.Prelude.{◌≡◌};
ghost use Rattle.weedle_grammar.specs.written.Table.Definitions.{DEFINITION};
ghost use Rattle.weedle_idl.specs.written.DefinitionTrees.{definition_tree};

use crate::part::IdlPart;
use std::alloc::Global;
use weedle_build_base::{At, Build, BuildResult, Table, alternative, choice};
use weedle_idl::Definition;
use weedle_interfaces::{
    CallbackInterfaceDefinition, InterfaceDefinition, PartialInterfaceDefinition,
};
use weedle_mixins::{InterfaceMixinDefinition, PartialInterfaceMixinDefinition};
use weedle_namespaces::{
    DictionaryDefinition, NamespaceDefinition, PartialDictionaryDefinition,
    PartialNamespaceDefinition,
};
use weedle_rules::Rule;
use weedle_statements::{
    CallbackDefinition, EnumDefinition, ImplementsDefinition, IncludesStatementDefinition,
    TypedefDefinition,
};

impl<'a> Build<'a> for IdlPart<Definition<'a>> {
    type Value = Definition<'a>;

    ghost fits = { λ r. r ≡ DEFINITION };

    ghost tree = { definition_tree };

    fn build(
        alloc: Global,
        table: Table<'_, 'a>,
        _rule: Rule,
        at: At,
    ) -> BuildResult<Definition<'a>> {
        let rule = Rule::DEFINITION;
        match choice(table, rule, at.place) {
            0 => {
                let (member, at) = alternative::<IdlPart<CallbackDefinition<'a>>>(
                    alloc, table, rule, 0, at,
                )?;
                Ok((Definition::Callback(member), at))
            }
            1 => {
                let (member, at) = alternative::<IdlPart<CallbackInterfaceDefinition<'a>>>(
                    alloc, table, rule, 1, at,
                )?;
                Ok((Definition::CallbackInterface(member), at))
            }
            2 => {
                let (member, at) = alternative::<IdlPart<InterfaceDefinition<'a>>>(
                    alloc, table, rule, 2, at,
                )?;
                Ok((Definition::Interface(member), at))
            }
            3 => {
                let (member, at) = alternative::<IdlPart<InterfaceMixinDefinition<'a>>>(
                    alloc, table, rule, 3, at,
                )?;
                Ok((Definition::InterfaceMixin(member), at))
            }
            4 => {
                let (member, at) = alternative::<IdlPart<NamespaceDefinition<'a>>>(
                    alloc, table, rule, 4, at,
                )?;
                Ok((Definition::Namespace(member), at))
            }
            5 => {
                let (member, at) = alternative::<IdlPart<DictionaryDefinition<'a>>>(
                    alloc, table, rule, 5, at,
                )?;
                Ok((Definition::Dictionary(member), at))
            }
            6 => {
                let (member, at) = alternative::<IdlPart<PartialInterfaceDefinition<'a>>>(
                    alloc, table, rule, 6, at,
                )?;
                Ok((Definition::PartialInterface(member), at))
            }
            7 => {
                let (member, at) = alternative::<IdlPart<PartialInterfaceMixinDefinition<'a>>>(
                    alloc, table, rule, 7, at,
                )?;
                Ok((Definition::PartialInterfaceMixin(member), at))
            }
            8 => {
                let (member, at) = alternative::<IdlPart<PartialDictionaryDefinition<'a>>>(
                    alloc, table, rule, 8, at,
                )?;
                Ok((Definition::PartialDictionary(member), at))
            }
            9 => {
                let (member, at) = alternative::<IdlPart<PartialNamespaceDefinition<'a>>>(
                    alloc, table, rule, 9, at,
                )?;
                Ok((Definition::PartialNamespace(member), at))
            }
            10 => {
                let (member, at) = alternative::<IdlPart<EnumDefinition<'a>>>(
                    alloc, table, rule, 10, at,
                )?;
                Ok((Definition::Enum(member), at))
            }
            11 => {
                let (member, at) = alternative::<IdlPart<TypedefDefinition<'a>>>(
                    alloc, table, rule, 11, at,
                )?;
                Ok((Definition::Typedef(member), at))
            }
            12 => {
                let (member, at) = alternative::<IdlPart<IncludesStatementDefinition<'a>>>(
                    alloc, table, rule, 12, at,
                )?;
                Ok((Definition::IncludesStatement(member), at))
            }
            13 => {
                let (member, at) = alternative::<IdlPart<ImplementsDefinition<'a>>>(
                    alloc, table, rule, 13, at,
                )?;
                Ok((Definition::Implements(member), at))
            }
            _ => unreachable!(),
        }
    }
}
