//! A parser of WebIDL.
//!
//! [`parse`] reads a text as a list of definitions, or says from where on it is none;
//! [`parse_counted`] counts what that takes. [`parse_bounded`] answers the same with the same
//! bounds, in less time. [`parse_by_descent`] answers it with little memory, and [`parse_quick`]
//! takes it where the text suits it; [`nesting`] says how deep a text nests. [`outline`] gives
//! kinds, names and docstrings, and [`lend`] lends it a list that a function owns. [`members_of`],
//! [`type_names`] and [`parts_named`] say of definitions what many kinds have, and [`WriteIdl`]
//! writes values as WebIDL. [`run`] is the program: it reads its input to the end, and writes what
//! the text defines; [`run_outline`] writes an outline of it.
//!
//! ```rust
//! use weedle::{name_of, parse};
//!
//! let text = "interface Window { readonly attribute Storage sessionStorage; };";
//! for definition in parse(rt.alloc(), text)? {
//!     assert_eq!(rt; name_of(&definition), "Window");
//! }
//! ```
//!
//! Values are written anew, in one layout:
//!
//! ```rust
//! use std::alloc::Global;
//! use weedle::{PrintError, WriteIdl, parse};
//!
//! /// The text of definitions.
//! fn text_of<T: WriteIdl + Drop>(
//!     alloc: Global,
//!     definitions: Vec<T>,
//! ) -> Result<String, PrintError> {
//!     let mut out = String::new(alloc);
//!     definitions.write_idl(&mut out)?;
//!     Ok(out)
//! }
//!
//! let alloc = rt.alloc();
//! let definitions = parse(alloc, "interface A{attribute long x;}; // of A")?;
//! let text = text_of(alloc, definitions)?;
//! assert_eq!(rt; text.as_str(), "interface A {\n  attribute long x;\n};\n");
//! ```
//!
//! A whole text is written anew by one call, which reads what it wrote and compares:
//!
//! ```rust
//! use weedle::write_whole;
//!
//! let written = write_whole(rt.alloc(), "interface A{attribute long x;}; // of A")?;
//! assert_eq!(rt; written.as_deref(), Some("interface A {\n  attribute long x;\n};\n"));
//! ```
//!
//! Members and definitions are taken apart by move. These are all members of an interface, those of
//! its parts too, with no copy:
//!
//! ```rust
//! use std::alloc::{AllocError, Global};
//! use weedle::common::Braced;
//! use weedle::interface::InterfaceMembers;
//! use weedle::{Definition, Definitions, name_of, parse};
//!
//! /// All members of the interface of this name and of its parts, in the order of the definitions.
//! fn members_of<'a>(
//!     alloc: Global,
//!     definitions: Definitions<'a>,
//!     name: &str,
//! ) -> Result<InterfaceMembers<'a>, AllocError> {
//!     let mut all = Vec::new(alloc);
//!     for definition in definitions {
//!         if name_of(&definition) == name
//!             && let Some(members) = members_in(definition)
//!         {
//!             let mut body = members.body;
//!             all.append(&mut body)?;
//!         }
//!     }
//!     Ok(all)
//! }
//!
//! /// The members of a definition that is an interface or a part of one.
//! fn members_in(definition: Definition<'_>) -> Option<Braced<InterfaceMembers<'_>>> {
//!     if let Definition::PartialInterface(_) = &definition {
//!         let (_, _, _, _, members, _) = definition.into_partial_interface()?.into_fields();
//!         return Some(members);
//!     }
//!     let (_, _, _, _, _, members, _) = definition.into_interface()?.into_fields();
//!     Some(members)
//! }
//!
//! let text = "interface A { void f(); }; interface B {}; \
//!             partial interface A { const long x = 5; };";
//! let definitions = parse(rt.alloc(), text)?;
//! let members = members_of(rt.alloc(), definitions, "A")?;
//! assert_eq!(rt; members.len(), 2);
//! ```
//!
//! The calls and the types are in the crates below, and have one path each here. What the grammar
//! reads of a text is defined in the crate `weedle_grammar`, and in each crate's `specs/` which of
//! its trees a value stands for.
#![tactic(auto)]

pub mod common;
pub mod literal;
pub mod types;

pub use weedle_base::{Err, Error, ErrorKind, IResult, Parse, TryClone, at_byte, term};
pub use weedle_front::{
    Counted, Depths, Entry, RunFault, Status, explain, explain_in, kind_of, lend, name_of, nesting,
    outline, parse, parse_bounded, parse_by_descent, parse_counted, parse_quick, run, run_outline,
};
pub use weedle_idl::{
    CallbackDefinition, CallbackInterfaceDefinition, Definition, Definitions, DictionaryDefinition,
    EnumDefinition, EnumValueList, EnumVariant, ImplementsDefinition, IncludesStatementDefinition,
    InterfaceDefinition, InterfaceMixinDefinition, NamespaceDefinition,
    PartialDictionaryDefinition, PartialInterfaceDefinition, PartialInterfaceMixinDefinition,
    PartialNamespaceDefinition, TypedefDefinition, dictionary, interface, mixin, namespace,
};
pub use weedle_places::{
    MemberPlace, Name, Place, Role, Span, names, names_in, places, places_by, references,
    references_in,
};
pub use weedle_print_idl::{Nullable, PrintError, Reserved, Words, WriteIdl, write_list};
pub use weedle_refusal::{
    Class, Dialect, DialectError, Expected, Hint, Lines, Position, Refusal, position_of, write_hint,
};
pub use weedle_types::{argument, attribute};
pub use weedle_view::{
    MemberKind, MemberView, ancestors, definition_named, docstring_of, extended_attributes_of,
    included_into, inheritance_of, members_of, parts_named, type_names, type_names_of_arguments,
    type_names_of_attributes, type_names_of_return,
};
pub use weedle_whole::{WholeError, write_whole};
