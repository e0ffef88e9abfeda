//! What follows from the declarations of the module above.
//!
//! Written by tools/impls.py, and not edited by hand.

ghost use Rattle.std.specs.Prelude.{◌↔◌, ◌≡◌};
ghost use Rattle.weedle_base.specs.AlikeLaws.{equal_equivalence, seen_equivalence};
ghost use Rattle.weedle_idl.specs.written.DefinitionTrees.{definition_tree};

use super::Definition;
use std::alloc::{AllocError, Global};
use weedle_base::TryClone;
use weedle_interfaces::{
    CallbackInterfaceDefinition, InterfaceDefinition, PartialInterfaceDefinition,
};
use weedle_mixins::{InterfaceMixinDefinition, PartialInterfaceMixinDefinition};
use weedle_namespaces::{
    DictionaryDefinition, NamespaceDefinition, PartialDictionaryDefinition,
    PartialNamespaceDefinition,
};
use weedle_statements::{
    CallbackDefinition, EnumDefinition, ImplementsDefinition, IncludesStatementDefinition,
    TypedefDefinition,
};

impl TryClone for Definition<'_> {
    ghost alike = { λ a b. definition_tree a ≡ definition_tree b };

    fn try_clone(&self, alloc: Global) -> Result<Self, AllocError> {
        match self {
            Definition::Callback(member) => Ok(Definition::Callback(member.try_clone(alloc)?)),
            Definition::CallbackInterface(member) => Ok(Definition::CallbackInterface(
                member.try_clone(alloc)?,
            )),
            Definition::Interface(member) => Ok(Definition::Interface(member.try_clone(alloc)?)),
            Definition::InterfaceMixin(member) => Ok(Definition::InterfaceMixin(member.try_clone(
                alloc,
            )?)),
            Definition::Namespace(member) => Ok(Definition::Namespace(member.try_clone(alloc)?)),
            Definition::Dictionary(member) => Ok(Definition::Dictionary(member.try_clone(alloc)?)),
            Definition::PartialInterface(member) => Ok(Definition::PartialInterface(
                member.try_clone(alloc)?,
            )),
            Definition::PartialInterfaceMixin(member) => Ok(Definition::PartialInterfaceMixin(
                member.try_clone(alloc)?,
            )),
            Definition::PartialDictionary(member) => Ok(Definition::PartialDictionary(
                member.try_clone(alloc)?,
            )),
            Definition::PartialNamespace(member) => Ok(Definition::PartialNamespace(
                member.try_clone(alloc)?,
            )),
            Definition::Enum(member) => Ok(Definition::Enum(member.try_clone(alloc)?)),
            Definition::Typedef(member) => Ok(Definition::Typedef(member.try_clone(alloc)?)),
            Definition::IncludesStatement(member) => Ok(Definition::IncludesStatement(
                member.try_clone(alloc)?,
            )),
            Definition::Implements(member) => Ok(Definition::Implements(member.try_clone(alloc)?)),
        }
    }

    ghost equivalence = { seen_equivalence definition_tree equal_equivalence };
}

impl<'a> From<CallbackDefinition<'a>> for Definition<'a> {
    ghost use Rattle.weedle_idl.specs.declared.definition.Definition.TheVariants.{Callback};

    ghost from_gives = { λ value made. made ≡ Callback value };

    fn from(value: CallbackDefinition<'a>) -> Self {
        Definition::Callback(value)
    }
}

impl<'a> From<CallbackInterfaceDefinition<'a>> for Definition<'a> {
    ghost use Rattle.weedle_idl.specs.declared.definition.Definition.TheVariants.{
      CallbackInterface,
    };

    ghost from_gives = { λ value made. made ≡ CallbackInterface value };

    fn from(value: CallbackInterfaceDefinition<'a>) -> Self {
        Definition::CallbackInterface(value)
    }
}

impl<'a> From<InterfaceDefinition<'a>> for Definition<'a> {
    ghost use Rattle.weedle_idl.specs.declared.definition.Definition.TheVariants.{Interface};

    ghost from_gives = { λ value made. made ≡ Interface value };

    fn from(value: InterfaceDefinition<'a>) -> Self {
        Definition::Interface(value)
    }
}

impl<'a> From<InterfaceMixinDefinition<'a>> for Definition<'a> {
    ghost use Rattle.weedle_idl.specs.declared.definition.Definition.TheVariants.{InterfaceMixin};

    ghost from_gives = { λ value made. made ≡ InterfaceMixin value };

    fn from(value: InterfaceMixinDefinition<'a>) -> Self {
        Definition::InterfaceMixin(value)
    }
}

impl<'a> From<NamespaceDefinition<'a>> for Definition<'a> {
    ghost use Rattle.weedle_idl.specs.declared.definition.Definition.TheVariants.{Namespace};

    ghost from_gives = { λ value made. made ≡ Namespace value };

    fn from(value: NamespaceDefinition<'a>) -> Self {
        Definition::Namespace(value)
    }
}

impl<'a> From<DictionaryDefinition<'a>> for Definition<'a> {
    ghost use Rattle.weedle_idl.specs.declared.definition.Definition.TheVariants.{Dictionary};

    ghost from_gives = { λ value made. made ≡ Dictionary value };

    fn from(value: DictionaryDefinition<'a>) -> Self {
        Definition::Dictionary(value)
    }
}

impl<'a> From<PartialInterfaceDefinition<'a>> for Definition<'a> {
    ghost use Rattle.weedle_idl.specs.declared.definition.Definition.TheVariants.{PartialInterface};

    ghost from_gives = { λ value made. made ≡ PartialInterface value };

    fn from(value: PartialInterfaceDefinition<'a>) -> Self {
        Definition::PartialInterface(value)
    }
}

impl<'a> From<PartialInterfaceMixinDefinition<'a>> for Definition<'a> {
    ghost use Rattle.weedle_idl.specs.declared.definition.Definition.TheVariants.{
      PartialInterfaceMixin,
    };

    ghost from_gives = { λ value made. made ≡ PartialInterfaceMixin value };

    fn from(value: PartialInterfaceMixinDefinition<'a>) -> Self {
        Definition::PartialInterfaceMixin(value)
    }
}

impl<'a> From<PartialDictionaryDefinition<'a>> for Definition<'a> {
    ghost use Rattle.weedle_idl.specs.declared.definition.Definition.TheVariants.{
      PartialDictionary,
    };

    ghost from_gives = { λ value made. made ≡ PartialDictionary value };

    fn from(value: PartialDictionaryDefinition<'a>) -> Self {
        Definition::PartialDictionary(value)
    }
}

impl<'a> From<PartialNamespaceDefinition<'a>> for Definition<'a> {
    ghost use Rattle.weedle_idl.specs.declared.definition.Definition.TheVariants.{PartialNamespace};

    ghost from_gives = { λ value made. made ≡ PartialNamespace value };

    fn from(value: PartialNamespaceDefinition<'a>) -> Self {
        Definition::PartialNamespace(value)
    }
}

impl<'a> From<EnumDefinition<'a>> for Definition<'a> {
    ghost use Rattle.weedle_idl.specs.declared.definition.Definition.TheVariants.{Enum};

    ghost from_gives = { λ value made. made ≡ Enum value };

    fn from(value: EnumDefinition<'a>) -> Self {
        Definition::Enum(value)
    }
}

impl<'a> From<TypedefDefinition<'a>> for Definition<'a> {
    ghost use Rattle.weedle_idl.specs.declared.definition.Definition.TheVariants.{Typedef};

    ghost from_gives = { λ value made. made ≡ Typedef value };

    fn from(value: TypedefDefinition<'a>) -> Self {
        Definition::Typedef(value)
    }
}

impl<'a> From<IncludesStatementDefinition<'a>> for Definition<'a> {
    ghost use Rattle.weedle_idl.specs.declared.definition.Definition.TheVariants.{
      IncludesStatement,
    };

    ghost from_gives = { λ value made. made ≡ IncludesStatement value };

    fn from(value: IncludesStatementDefinition<'a>) -> Self {
        Definition::IncludesStatement(value)
    }
}

impl<'a> From<ImplementsDefinition<'a>> for Definition<'a> {
    ghost use Rattle.weedle_idl.specs.declared.definition.Definition.TheVariants.{Implements};

    ghost from_gives = { λ value made. made ≡ Implements value };

    fn from(value: ImplementsDefinition<'a>) -> Self {
        Definition::Implements(value)
    }
}

impl<'a> Definition<'a> {
    /// What it holds where it is `Definition::Callback`, and else None.
    pub fn into_callback(self) -> Option<CallbackDefinition<'a>>
        ensures { (held : CallbackDefinition)
            → result ≡ Some held ↔ self.entry ≡ Definition.Callback held }
    {
        match self {
            Definition::Callback(held) => Some(held),
            _ => None,
        }
    }

    /// What it holds where it is `Definition::CallbackInterface`, and else None.
    pub fn into_callback_interface(self) -> Option<CallbackInterfaceDefinition<'a>>
        ensures { (held : CallbackInterfaceDefinition)
            → result ≡ Some held ↔ self.entry ≡ Definition.CallbackInterface held }
    {
        match self {
            Definition::CallbackInterface(held) => Some(held),
            _ => None,
        }
    }

    /// What it holds where it is `Definition::Interface`, and else None.
    pub fn into_interface(self) -> Option<InterfaceDefinition<'a>>
        ensures { (held : InterfaceDefinition)
            → result ≡ Some held ↔ self.entry ≡ Definition.Interface held }
    {
        match self {
            Definition::Interface(held) => Some(held),
            _ => None,
        }
    }

    /// What it holds where it is `Definition::InterfaceMixin`, and else None.
    pub fn into_interface_mixin(self) -> Option<InterfaceMixinDefinition<'a>>
        ensures { (held : InterfaceMixinDefinition)
            → result ≡ Some held ↔ self.entry ≡ Definition.InterfaceMixin held }
    {
        match self {
            Definition::InterfaceMixin(held) => Some(held),
            _ => None,
        }
    }

    /// What it holds where it is `Definition::Namespace`, and else None.
    pub fn into_namespace(self) -> Option<NamespaceDefinition<'a>>
        ensures { (held : NamespaceDefinition)
            → result ≡ Some held ↔ self.entry ≡ Definition.Namespace held }
    {
        match self {
            Definition::Namespace(held) => Some(held),
            _ => None,
        }
    }

    /// What it holds where it is `Definition::Dictionary`, and else None.
    pub fn into_dictionary(self) -> Option<DictionaryDefinition<'a>>
        ensures { (held : DictionaryDefinition)
            → result ≡ Some held ↔ self.entry ≡ Definition.Dictionary held }
    {
        match self {
            Definition::Dictionary(held) => Some(held),
            _ => None,
        }
    }

    /// What it holds where it is `Definition::PartialInterface`, and else None.
    pub fn into_partial_interface(self) -> Option<PartialInterfaceDefinition<'a>>
        ensures { (held : PartialInterfaceDefinition)
            → result ≡ Some held ↔ self.entry ≡ Definition.PartialInterface held }
    {
        match self {
            Definition::PartialInterface(held) => Some(held),
            _ => None,
        }
    }

    /// What it holds where it is `Definition::PartialInterfaceMixin`, and else None.
    pub fn into_partial_interface_mixin(self) -> Option<PartialInterfaceMixinDefinition<'a>>
        ensures { (held : PartialInterfaceMixinDefinition)
            → result ≡ Some held ↔ self.entry ≡ Definition.PartialInterfaceMixin held }
    {
        match self {
            Definition::PartialInterfaceMixin(held) => Some(held),
            _ => None,
        }
    }

    /// What it holds where it is `Definition::PartialDictionary`, and else None.
    pub fn into_partial_dictionary(self) -> Option<PartialDictionaryDefinition<'a>>
        ensures { (held : PartialDictionaryDefinition)
            → result ≡ Some held ↔ self.entry ≡ Definition.PartialDictionary held }
    {
        match self {
            Definition::PartialDictionary(held) => Some(held),
            _ => None,
        }
    }

    /// What it holds where it is `Definition::PartialNamespace`, and else None.
    pub fn into_partial_namespace(self) -> Option<PartialNamespaceDefinition<'a>>
        ensures { (held : PartialNamespaceDefinition)
            → result ≡ Some held ↔ self.entry ≡ Definition.PartialNamespace held }
    {
        match self {
            Definition::PartialNamespace(held) => Some(held),
            _ => None,
        }
    }

    /// What it holds where it is `Definition::Enum`, and else None.
    pub fn into_enum(self) -> Option<EnumDefinition<'a>>
        ensures { (held : EnumDefinition)
            → result ≡ Some held ↔ self.entry ≡ Definition.Enum held }
    {
        match self {
            Definition::Enum(held) => Some(held),
            _ => None,
        }
    }

    /// What it holds where it is `Definition::Typedef`, and else None.
    pub fn into_typedef(self) -> Option<TypedefDefinition<'a>>
        ensures { (held : TypedefDefinition)
            → result ≡ Some held ↔ self.entry ≡ Definition.Typedef held }
    {
        match self {
            Definition::Typedef(held) => Some(held),
            _ => None,
        }
    }

    /// What it holds where it is `Definition::IncludesStatement`, and else None.
    pub fn into_includes_statement(self) -> Option<IncludesStatementDefinition<'a>>
        ensures { (held : IncludesStatementDefinition)
            → result ≡ Some held ↔ self.entry ≡ Definition.IncludesStatement held }
    {
        match self {
            Definition::IncludesStatement(held) => Some(held),
            _ => None,
        }
    }

    /// What it holds where it is `Definition::Implements`, and else None.
    pub fn into_implements(self) -> Option<ImplementsDefinition<'a>>
        ensures { (held : ImplementsDefinition)
            → result ≡ Some held ↔ self.entry ≡ Definition.Implements held }
    {
        match self {
            Definition::Implements(held) => Some(held),
            _ => None,
        }
    }
}
