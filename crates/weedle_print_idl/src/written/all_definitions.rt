//! How definitions are rendered.
//!
//! Written by tools/prints.py, and not edited by hand.

ghost use Rattle.weedle_spell_idl.specs.written.Definitions.{definition_spelling};

use crate::part::IdlPart;
use crate::write::WriteIdl;
use weedle_idl::Definition;
use weedle_interfaces::{
    CallbackInterfaceDefinition, InterfaceDefinition, PartialInterfaceDefinition,
};
use weedle_mixins::{InterfaceMixinDefinition, PartialInterfaceMixinDefinition};
use weedle_namespaces::{
    DictionaryDefinition, NamespaceDefinition, PartialDictionaryDefinition,
    PartialNamespaceDefinition,
};
use weedle_print::{Layout, PrintError, Statement, print_statement};
use weedle_statements::{
    CallbackDefinition, EnumDefinition, ImplementsDefinition, IncludesStatementDefinition,
    TypedefDefinition,
};

impl<'a> WriteIdl for Definition<'a> {
    ghost spelling = { definition_spelling };

    fn write_part(&self, out: &mut String, layout: &mut Layout) -> Result<(), PrintError> {
        match self {
            Definition::Callback(value) => print_statement::<IdlPart<CallbackDefinition<'a>>>(
                value,
                Statement::Callback,
                out,
                layout,
            ),
            Definition::CallbackInterface(value) => print_statement::<
                IdlPart<CallbackInterfaceDefinition<'a>>,
            >(value, Statement::Other, out, layout),
            Definition::Interface(value) => print_statement::<IdlPart<InterfaceDefinition<'a>>>(
                value,
                Statement::Other,
                out,
                layout,
            ),
            Definition::InterfaceMixin(value) => print_statement::<
                IdlPart<InterfaceMixinDefinition<'a>>,
            >(value, Statement::Other, out, layout),
            Definition::Namespace(value) => print_statement::<IdlPart<NamespaceDefinition<'a>>>(
                value,
                Statement::Other,
                out,
                layout,
            ),
            Definition::Dictionary(value) => print_statement::<IdlPart<DictionaryDefinition<'a>>>(
                value,
                Statement::Other,
                out,
                layout,
            ),
            Definition::PartialInterface(value) => print_statement::<
                IdlPart<PartialInterfaceDefinition<'a>>,
            >(value, Statement::Other, out, layout),
            Definition::PartialInterfaceMixin(value) => print_statement::<
                IdlPart<PartialInterfaceMixinDefinition<'a>>,
            >(value, Statement::Other, out, layout),
            Definition::PartialDictionary(value) => print_statement::<
                IdlPart<PartialDictionaryDefinition<'a>>,
            >(value, Statement::Other, out, layout),
            Definition::PartialNamespace(value) => print_statement::<
                IdlPart<PartialNamespaceDefinition<'a>>,
            >(value, Statement::Other, out, layout),
            Definition::Enum(value) => print_statement::<IdlPart<EnumDefinition<'a>>>(
                value,
                Statement::Other,
                out,
                layout,
            ),
            Definition::Typedef(value) => print_statement::<IdlPart<TypedefDefinition<'a>>>(
                value,
                Statement::Typedef,
                out,
                layout,
            ),
            Definition::IncludesStatement(value) => print_statement::<
                IdlPart<IncludesStatementDefinition<'a>>,
            >(value, Statement::Includes, out, layout),
            Definition::Implements(value) => print_statement::<IdlPart<ImplementsDefinition<'a>>>(
                value,
                Statement::Implements,
                out,
                layout,
            ),
        }
    }
}
