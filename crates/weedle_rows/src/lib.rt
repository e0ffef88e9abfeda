//! Tests of whole texts and of definitions, of what can't be seen from outside the programs: that
//! both widths of cells answer alike, and what a text costs at most, hostile ones too; definitions
//! that are outlined, copied and taken apart; runs over inputs and outputs that fail; the examples
//! of README.md and docs/USING.md; and what is answered where memory is refused. What whole texts
//! are read as is tested over the built programs.
//!
//! What a value is taken apart by gives what it holds, each of these calls once:
//!
//! ```rust
//! use weedle::{Definition, Parse};
//!
//! let alloc = rt.alloc();
//! let (_, it) = Definition::parse(alloc, "callback A = undefined ();")?;
//! assert_eq!(rt; it.into_callback().expect(rt, "callback").identifier.0, "A");
//! let (_, it) = Definition::parse(alloc, "callback interface A {};")?;
//! assert_eq!(rt; it.into_callback_interface().expect(rt, "callback interface").identifier.0, "A");
//! let (_, it) = Definition::parse(alloc, "interface A {};")?;
//! assert_eq!(rt; it.into_interface().expect(rt, "interface").identifier.0, "A");
//! let (_, it) = Definition::parse(alloc, "interface mixin A {};")?;
//! assert_eq!(rt; it.into_interface_mixin().expect(rt, "interface mixin").identifier.0, "A");
//! let (_, it) = Definition::parse(alloc, "namespace A {};")?;
//! assert_eq!(rt; it.into_namespace().expect(rt, "namespace").identifier.0, "A");
//! let (_, it) = Definition::parse(alloc, "dictionary A {};")?;
//! assert_eq!(rt; it.into_dictionary().expect(rt, "dictionary").identifier.0, "A");
//! let (_, it) = Definition::parse(alloc, "partial interface A {};")?;
//! assert_eq!(rt; it.into_partial_interface().expect(rt, "partial interface").identifier.0, "A");
//! let (_, it) = Definition::parse(alloc, "partial interface mixin A {};")?;
//! let mixin = it.into_partial_interface_mixin().expect(rt, "partial interface mixin");
//! assert_eq!(rt; mixin.identifier.0, "A");
//! let (_, it) = Definition::parse(alloc, "partial dictionary A {};")?;
//! assert_eq!(rt; it.into_partial_dictionary().expect(rt, "partial dictionary").identifier.0, "A");
//! let (_, it) = Definition::parse(alloc, "partial namespace A {};")?;
//! assert_eq!(rt; it.into_partial_namespace().expect(rt, "partial namespace").identifier.0, "A");
//! let (_, it) = Definition::parse(alloc, "enum A { \"a\" };")?;
//! assert_eq!(rt; it.into_enum().expect(rt, "enum").identifier.0, "A");
//! let (_, it) = Definition::parse(alloc, "typedef long A;")?;
//! assert_eq!(rt; it.into_typedef().expect(rt, "typedef").identifier.0, "A");
//! let (_, it) = Definition::parse(alloc, "A includes B;")?;
//! assert_eq!(rt; it.into_includes_statement().expect(rt, "a statement").lhs_identifier.0, "A");
//! let (_, it) = Definition::parse(alloc, "A implements B;")?;
//! assert_eq!(rt; it.into_implements().expect(rt, "a statement").lhs_identifier.0, "A");
//! ```
//!
//! and of members:
//!
//! ```rust
//! use weedle::interface::InterfaceMember;
//! use weedle::Parse;
//!
//! let alloc = rt.alloc();
//! let (_, it) = InterfaceMember::parse(alloc, "const long x = 5;")?;
//! assert!(rt; it.into_const().is_some());
//! let (_, it) = InterfaceMember::parse(alloc, "attribute long x;")?;
//! assert!(rt; it.into_attribute().is_some());
//! let (_, it) = InterfaceMember::parse(alloc, "constructor();")?;
//! assert!(rt; it.into_constructor().is_some());
//! let (_, it) = InterfaceMember::parse(alloc, "undefined x();")?;
//! assert!(rt; it.into_operation().is_some());
//! let (_, it) = InterfaceMember::parse(alloc, "maplike<long, any>;")?;
//! assert!(rt; it.into_maplike().is_some());
//! let (_, it) = InterfaceMember::parse(alloc, "setlike<long>;")?;
//! assert!(rt; it.into_setlike().is_some());
//! let (_, it) = InterfaceMember::parse(alloc, "stringifier;")?;
//! assert!(rt; it.into_stringifier().is_some());
//! let (_, it) = InterfaceMember::parse(alloc, "iterable<long>;")?;
//! assert!(rt; it.into_iterable().expect(rt, "iterable").into_single().is_some());
//! let (_, it) = InterfaceMember::parse(alloc, "iterable<long, any>;")?;
//! assert!(rt; it.into_iterable().expect(rt, "iterable").into_double().is_some());
//! let (_, it) = InterfaceMember::parse(alloc, "async iterable<long>;")?;
//! assert!(rt; it.into_async_iterable().expect(rt, "async iterable").into_single().is_some());
//! let (_, it) = InterfaceMember::parse(alloc, "async iterable<long, any>;")?;
//! assert!(rt; it.into_async_iterable().expect(rt, "async iterable").into_double().is_some());
//! ```
#![tactic(auto)]

#[cfg(test)]
mod ancestors;
#[cfg(test)]
mod anew;
#[cfg(test)]
mod lists;
#[cfg(test)]
mod outcomes;
#[cfg(test)]
mod readers;
#[cfg(test)]
mod readme;
#[cfg(test)]
mod requests;
#[cfg(test)]
mod runs;
