//! The parts of the recursive types that lead back to one type alone: each is made over that type,
//! and its public name is an alias of it, as `SequenceType<'a>` is
//! `formers::SequenceType<Type<'a>>`.

use weedle_base::term::{
    Any, ByteString, DOMString, FrozenArray, Promise, Record, Sequence, USVString, Undefined,
};
use weedle_parts::common::Generics;

/// A type that is no union, as `any` or `long?`.
#[derive(Debug, PartialEq, Eq, PartialOrd, Ord, Hash, Drop)]
pub enum SingleType<T> {
    /// The word `any`.
    Any(Any),
    /// Any other type that is no union, as `long?`.
    NonAny(T),
}

/// A sequence, as `sequence<long>`.
#[derive(Debug, PartialEq, Eq, PartialOrd, Ord, Hash, Drop)]
pub struct SequenceType<T> {
    /// The word `sequence`.
    pub sequence: Sequence,
    /// The type of its items in angle brackets, as `<long>`.
    pub generics: Generics<Box<T>>,
}

/// An array that can't change, as `FrozenArray<long>`.
#[derive(Debug, PartialEq, Eq, PartialOrd, Ord, Hash, Drop)]
pub struct FrozenArrayType<T> {
    /// The word `FrozenArray`.
    pub frozen_array: FrozenArray,
    /// The type of its items in angle brackets, as `<long>`.
    pub generics: Generics<Box<T>>,
}

/// A promise, as `Promise<undefined>`.
#[derive(Debug, PartialEq, Eq, PartialOrd, Ord, Hash, Drop)]
pub struct PromiseType<T> {
    /// The word `Promise`.
    pub promise: Promise,
    /// The type of its result in angle brackets, as `<undefined>`.
    pub generics: Generics<Box<T>>,
}

/// A record, as `record<DOMString, long>`.
#[derive(Debug, PartialEq, Eq, PartialOrd, Ord, Hash, Drop)]
pub struct RecordType<T> {
    /// The word `record`.
    pub record_: Record,
    /// The types of its keys and values in angle brackets, as `<DOMString, long>`: `body.0` is
    /// that of the keys, `body.2` that of the values.
    pub generics: Generics<T>,
}

/// The type of a record's keys, as `DOMString`.
#[derive(Debug, PartialEq, Eq, PartialOrd, Ord, Hash, Drop)]
pub enum RecordKeyType<T> {
    /// The word `ByteString`.
    Byte(ByteString),
    /// The word `DOMString`.
    DOM(DOMString),
    /// The word `USVString`.
    USV(USVString),
    /// Any other type that is neither `any` nor a union, as `long?`.
    NonAny(T),
}

/// The type of a result, as `undefined` or `long`.
#[derive(Debug, PartialEq, Eq, PartialOrd, Ord, Hash, Drop)]
pub enum ReturnType<T> {
    /// The word `undefined`.
    Undefined(Undefined),
    /// A type, as `long`.
    Type_(T),
}
