//! Asynchronous iterations.
//!
//! ```rust
//! use weedle_base::Parse;
//! use weedle_iterables::AsyncIterableInterfaceMember;
//!
//! let text = "async iterable<DOMString, long>; void f();";
//! let (rest, member) = AsyncIterableInterfaceMember::parse(rt.alloc(), text).expect(rt, "member");
//! assert!(rt; rest == "void f();");
//! ```

ghost use Rattle.weedle_base.specs.Own.{own};
ghost use Rattle.weedle_base.specs.OwnLaws.{own_lawful};
ghost use Rattle.weedle_iterables.specs.written.Trees.{
  double_typed_async_iterable_tree,
  single_typed_async_iterable_tree,
};
ghost use Rattle.weedle_grammar.specs.written.Table.InterfaceMembers.{
  DOUBLE_TYPED_ASYNC_ITERABLE,
  SINGLE_TYPED_ASYNC_ITERABLE,
};

mod written;

use crate::parts::{async_iterable, optional_arguments};
use std::alloc::Global;
use weedle_base::term::{Async, Comma, Iterable, SemiColon};
use weedle_base::{IResult, Parse};
use weedle_parts::common::Generics;
use weedle_types::argument::ParenthesizedArgumentList;
use weedle_types::attribute::ExtendedAttributeList;
use weedle_types::parts::attributes;
use weedle_types::types::AttributedType;

/// An asynchronous iteration over values, as `async iterable<long>;`. Arguments may follow the
/// types.
#[derive(Debug, PartialEq, Eq, PartialOrd, Ord, Hash)]
pub struct SingleTypedAsyncIterable<'a> {
    /// The extended attributes in brackets, as `[Exposed=Window]`, where present.
    pub attributes: Option<ExtendedAttributeList<'a>>,
    /// The words `async` and `iterable`.
    pub async_iterable: (Async, Iterable),
    /// The type of its values in angle brackets, as `<long>`.
    pub generics: Generics<AttributedType<'a>>,
    /// The arguments between parentheses, as `(long x)`, where present.
    pub args: Option<ParenthesizedArgumentList<'a>>,
    /// The `;` at the end.
    pub semi_colon: SemiColon,
}

impl Drop for SingleTypedAsyncIterable<'_> {
    fn drop(self) {
        let SingleTypedAsyncIterable {
            attributes: _,
            async_iterable: _,
            generics: _,
            args: _,
            semi_colon: _,
        } = self;
    }
}

#[tactic(auto, using(crate::proofs::written::AsyncIterableRules::single_typed_async_iterable_steps))]
impl<'a> Parse<'a> for SingleTypedAsyncIterable<'a> {
    ghost reading = { own SINGLE_TYPED_ASYNC_ITERABLE single_typed_async_iterable_tree (Unit {0}) };

    fn parse(alloc: Global, input: &'a str) -> IResult<&'a str, Self> {
        let (rest, attributes) = attributes(alloc, input)?;
        let (rest, async_iterable) = async_iterable(alloc, rest)?;
        let (rest, generics) = Generics::parse(alloc, rest)?;
        let (rest, args) = optional_arguments(alloc, rest)?;
        let (rest, semi_colon) = SemiColon::parse(alloc, rest)?;
        Ok((
            rest,
            SingleTypedAsyncIterable {
                attributes,
                async_iterable,
                generics,
                args,
                semi_colon,
            },
        ))
    }

    ghost lawful = { own_lawful SINGLE_TYPED_ASYNC_ITERABLE single_typed_async_iterable_tree
        (Unit {0}) };
}

/// An asynchronous iteration over pairs, as `async iterable<DOMString, long>(long x);`. Arguments
/// may follow the types.
#[derive(Debug, PartialEq, Eq, PartialOrd, Ord, Hash)]
pub struct DoubleTypedAsyncIterable<'a> {
    /// The extended attributes in brackets, as `[Exposed=Window]`, where present.
    pub attributes: Option<ExtendedAttributeList<'a>>,
    /// The words `async` and `iterable`.
    pub async_iterable: (Async, Iterable),
    /// The types of its keys and values in angle brackets, as `<DOMString, long>`: `body.0` is
    /// that of the keys, `body.2` that of the values.
    pub generics: Generics<(AttributedType<'a>, Comma, AttributedType<'a>)>,
    /// The arguments between parentheses, as `(long x)`, where present.
    pub args: Option<ParenthesizedArgumentList<'a>>,
    /// The `;` at the end.
    pub semi_colon: SemiColon,
}

impl Drop for DoubleTypedAsyncIterable<'_> {
    fn drop(self) {
        let DoubleTypedAsyncIterable {
            attributes: _,
            async_iterable: _,
            generics: _,
            args: _,
            semi_colon: _,
        } = self;
    }
}

#[tactic(auto, using(crate::proofs::written::AsyncIterableRules::double_typed_async_iterable_steps))]
impl<'a> Parse<'a> for DoubleTypedAsyncIterable<'a> {
    ghost reading = { own DOUBLE_TYPED_ASYNC_ITERABLE double_typed_async_iterable_tree (Unit {0}) };

    fn parse(alloc: Global, input: &'a str) -> IResult<&'a str, Self> {
        let (rest, attributes) = attributes(alloc, input)?;
        let (rest, async_iterable) = async_iterable(alloc, rest)?;
        let (rest, generics) = Generics::parse(alloc, rest)?;
        let (rest, args) = optional_arguments(alloc, rest)?;
        let (rest, semi_colon) = SemiColon::parse(alloc, rest)?;
        Ok((
            rest,
            DoubleTypedAsyncIterable {
                attributes,
                async_iterable,
                generics,
                args,
                semi_colon,
            },
        ))
    }

    ghost lawful = { own_lawful DOUBLE_TYPED_ASYNC_ITERABLE double_typed_async_iterable_tree
        (Unit {0}) };
}

/// An asynchronous iteration over values or pairs, as `async iterable<long>;`: the first of the
/// two that fits. Of what its variants read, `[extended attributes]` may be absent.
#[derive(Debug, PartialEq, Eq, PartialOrd, Ord, Hash)]
pub enum AsyncIterableInterfaceMember<'a> {
    /// `[extended attributes] async iterable<type>(arguments);`, also without `(arguments)`.
    Single(SingleTypedAsyncIterable<'a>),
    /// `[extended attributes] async iterable<type, type>(arguments);`, also without `(arguments)`.
    Double(DoubleTypedAsyncIterable<'a>),
}

impl Drop for AsyncIterableInterfaceMember<'_> {
    fn drop(self) {
        match self {
            AsyncIterableInterfaceMember::Single(_) | AsyncIterableInterfaceMember::Double(_) => {}
        }
    }
}
