//! Definitions.

ghost use Rattle.weedle_base.specs.Own.{own};
ghost use Rattle.weedle_base.specs.OwnLaws.{own_lawful};
ghost use Rattle.weedle_base.specs.Reading.{Answers};
ghost use Rattle.weedle_idl.specs.written.DefinitionTrees.{definition_tree};
ghost use Rattle.weedle_idl.specs.Pieces.{
  callback_or_interface_rules,
  main_definition_rules,
  other_definition_rules,
  partial_definition_rules,
};
ghost use Rattle.weedle_grammar.specs.written.Table.Definitions.{DEFINITION};
ghost use Rattle.weedle_types.specs.Steps.{members};

mod written;

use std::alloc::Global;
use weedle_base::Choice::{self, First, Second};
use weedle_base::{Err, IResult, Parse};
use weedle_interfaces::{
    CallbackInterfaceDefinition, InterfaceDefinition, PartialInterfaceDefinition,
};
use weedle_mixins::{InterfaceMixinDefinition, PartialInterfaceMixinDefinition};
use weedle_namespaces::{
    DictionaryDefinition, NamespaceDefinition, PartialDictionaryDefinition,
    PartialNamespaceDefinition,
};
use weedle_statements::{
    CallbackDefinition, EnumDefinition, ImplementsDefinition, IncludesStatementDefinition,
    TypedefDefinition,
};

/// Definitions one after another, as `interface A {}; interface B {};`.
pub type Definitions<'a> = Vec<Definition<'a>>;

/// A definition, as `interface A {};`: the first of the fourteen kinds that fits. Of what its
/// variants read, `docstring`, `[extended attributes]` and `: parent` may be absent.
#[derive(Debug, PartialEq, Eq, PartialOrd, Ord, Hash)]
pub enum Definition<'a> {
    /// `[extended attributes] callback name = type (arguments);`.
    Callback(CallbackDefinition<'a>),
    /// `docstring [extended attributes] callback interface name : parent { members };`.
    CallbackInterface(CallbackInterfaceDefinition<'a>),
    /// `docstring [extended attributes] interface name : parent { members };`.
    Interface(InterfaceDefinition<'a>),
    /// `[extended attributes] interface mixin name { members };`.
    InterfaceMixin(InterfaceMixinDefinition<'a>),
    /// `docstring [extended attributes] namespace name { members };`.
    Namespace(NamespaceDefinition<'a>),
    /// `docstring [extended attributes] dictionary name : parent { members };`.
    Dictionary(DictionaryDefinition<'a>),
    /// `[extended attributes] partial interface name { members };`.
    PartialInterface(PartialInterfaceDefinition<'a>),
    /// `[extended attributes] partial interface mixin name { members };`.
    PartialInterfaceMixin(PartialInterfaceMixinDefinition<'a>),
    /// `[extended attributes] partial dictionary name { members };`.
    PartialDictionary(PartialDictionaryDefinition<'a>),
    /// `[extended attributes] partial namespace name { members };`.
    PartialNamespace(PartialNamespaceDefinition<'a>),
    /// `docstring [extended attributes] enum name { "value", "value" };`.
    Enum(EnumDefinition<'a>),
    /// `[extended attributes] typedef type name;`.
    Typedef(TypedefDefinition<'a>),
    /// `[extended attributes] name includes name;`.
    IncludesStatement(IncludesStatementDefinition<'a>),
    /// `[extended attributes] name implements name;`.
    Implements(ImplementsDefinition<'a>),
}

impl Drop for Definition<'_> {
    fn drop(self) {
        match self {
            Definition::Callback(_)
            | Definition::CallbackInterface(_)
            | Definition::Interface(_)
            | Definition::InterfaceMixin(_)
            | Definition::Namespace(_)
            | Definition::Dictionary(_)
            | Definition::PartialInterface(_)
            | Definition::PartialInterfaceMixin(_)
            | Definition::PartialDictionary(_)
            | Definition::PartialNamespace(_)
            | Definition::Enum(_)
            | Definition::Typedef(_)
            | Definition::IncludesStatement(_)
            | Definition::Implements(_) => {}
        }
    }
}

#[tactic(auto, using(crate::proofs::written::DefinitionRules::definition_steps))]
impl<'a> Parse<'a> for Definition<'a> {
    ghost reading = { own DEFINITION definition_tree (Unit {0}) };

    fn parse(alloc: Global, input: &'a str) -> IResult<&'a str, Self> {
        match callback_or_interface(alloc, input) {
            Ok((rest, read)) => return Ok((rest, read)),
            Err(Err::Error(_)) => {}
            Err(Err::Failure(fault)) => return Err(Err::Failure(fault)),
        }
        match main_definition(alloc, input) {
            Ok((rest, read)) => return Ok((rest, read)),
            Err(Err::Error(_)) => {}
            Err(Err::Failure(fault)) => return Err(Err::Failure(fault)),
        }
        match partial_definition(alloc, input) {
            Ok((rest, read)) => return Ok((rest, read)),
            Err(Err::Error(_)) => {}
            Err(Err::Failure(fault)) => return Err(Err::Failure(fault)),
        }
        other_definition(alloc, input)
    }

    ghost lawful = { own_lawful DEFINITION definition_tree (Unit {0}) };
}

/// Reads a callback or an interface.
#[tactic(auto, using(crate::proofs::written::DefinitionRules::callback_or_interface_steps))]
fn callback_or_interface<'a>(alloc: Global, input: &'a str) -> IResult<&'a str, Definition<'a>>
    ensures { Answers (members callback_or_interface_rules 0 definition_tree (Unit {0})) input.now
        result }
{
    let (rest, read) = Choice::parse(alloc, input)?;
    let member = match read {
        First(member) => Definition::Callback(member),
        Second(First(member)) => Definition::CallbackInterface(member),
        Second(Second(member)) => Definition::Interface(member),
    };
    Ok((rest, member))
}

/// Reads a mixin, a namespace or a dictionary.
#[tactic(auto, using(crate::proofs::written::DefinitionRules::main_definition_steps))]
fn main_definition<'a>(alloc: Global, input: &'a str) -> IResult<&'a str, Definition<'a>>
    ensures { Answers (members main_definition_rules 3 definition_tree (Unit {0})) input.now
        result }
{
    let (rest, read) = Choice::parse(alloc, input)?;
    let member = match read {
        First(member) => Definition::InterfaceMixin(member),
        Second(First(member)) => Definition::Namespace(member),
        Second(Second(member)) => Definition::Dictionary(member),
    };
    Ok((rest, member))
}

/// Reads a part of an interface, of a mixin, of a dictionary or of a namespace.
#[tactic(auto, using(crate::proofs::written::DefinitionRules::partial_definition_steps))]
fn partial_definition<'a>(alloc: Global, input: &'a str) -> IResult<&'a str, Definition<'a>>
    ensures { Answers (members partial_definition_rules 6 definition_tree (Unit {0})) input.now
        result }
{
    let (rest, read) = Choice::parse(alloc, input)?;
    let member = match read {
        First(member) => Definition::PartialInterface(member),
        Second(First(member)) => Definition::PartialInterfaceMixin(member),
        Second(Second(First(member))) => Definition::PartialDictionary(member),
        Second(Second(Second(member))) => Definition::PartialNamespace(member),
    };
    Ok((rest, member))
}

/// Reads an enum, a name for a type or a statement.
#[tactic(auto, using(crate::proofs::written::DefinitionRules::other_definition_steps))]
fn other_definition<'a>(alloc: Global, input: &'a str) -> IResult<&'a str, Definition<'a>>
    ensures { Answers (members other_definition_rules 10 definition_tree (Unit {0})) input.now
        result }
{
    let (rest, read) = Choice::parse(alloc, input)?;
    let member = match read {
        First(member) => Definition::Enum(member),
        Second(First(member)) => Definition::Typedef(member),
        Second(Second(First(member))) => Definition::IncludesStatement(member),
        Second(Second(Second(member))) => Definition::Implements(member),
    };
    Ok((rest, member))
}
