//! Members and definitions: what is in a file of WebIDL, from the members of interfaces, mixins,
//! namespaces and dictionaries to the list of all definitions.
//!
//! A definition is the first of the fourteen kinds that fits; where none does it is a mismatch.
//! Memory is taken for extended attributes, types, arguments, docstrings and lists; where it is
//! refused that is a failure, and no other alternative is tried. What each type reads is in words
//! in docs/GRAMMAR.md.
//!
//! ```rust
//! use weedle_base::Parse;
//! use weedle_idl::{Definition, Definitions};
//!
//! let text =
//!     "interface Window { readonly attribute Storage sessionStorage; }; Window includes Timers;";
//! let (rest, definitions) = Definitions::parse(rt.alloc(), text).expect(rt, "definitions");
//! assert!(rt; rest == "" && definitions.len() == 2);
//! ```
#![tactic(auto)]

mod definition;
pub mod interface;
pub mod laws;

pub use definition::{Definition, Definitions};
pub use weedle_interfaces::{
    CallbackInterfaceDefinition, InterfaceDefinition, PartialInterfaceDefinition,
};
pub use weedle_mixins::{InterfaceMixinDefinition, PartialInterfaceMixinDefinition, mixin};
pub use weedle_namespaces::{
    DictionaryDefinition, NamespaceDefinition, PartialDictionaryDefinition,
    PartialNamespaceDefinition, dictionary, namespace,
};
pub use weedle_statements::{
    CallbackDefinition, EnumDefinition, EnumValueList, EnumVariant, ImplementsDefinition,
    IncludesStatementDefinition, TypedefDefinition,
};
