//! The members that make an interface a collection: iterations, also asynchronous ones, maps and
//! sets.
//!
//! Each struct reads its fields in order, with whitespace and comments between them. Where one of
//! them isn't there it is a mismatch. Memory is taken for extended attributes, types and arguments;
//! where it is refused that is a failure, and no other alternative is tried.
//!
//! ```rust
//! use weedle_base::Parse;
//! use weedle_iterables::MaplikeInterfaceMember;
//!
//! let text = "readonly maplike<DOMString, long>; void f();";
//! let (rest, member) = MaplikeInterfaceMember::parse(rt.alloc(), text).expect(rt, "member");
//! assert!(rt; rest == "void f();" && member.readonly.is_some());
//! ```
#![tactic(auto)]

mod async_iterable;
mod collection;
mod copies;
mod iterable;
mod parts;

pub use async_iterable::{
    AsyncIterableInterfaceMember, DoubleTypedAsyncIterable, SingleTypedAsyncIterable,
};
pub use collection::{MaplikeInterfaceMember, SetlikeInterfaceMember};
pub use iterable::{DoubleTypedIterable, IterableInterfaceMember, SingleTypedIterable};
