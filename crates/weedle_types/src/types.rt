//! Types, as `sequence<(long or DOMString)>?`.
//!
//! A type is read whole, with no limit on how deep types nest. What follows it is the rest:
//! `Promise<long>?` is a promise and `?`, since a promise is never null. A text that begins with no
//! type is a mismatch. Boxes, unions and extended attributes ask for memory: where it is refused,
//! the call ends at once with a failure of code `Memory`. What each type reads is in words in
//! docs/GRAMMAR.md.

mod written;

use crate::attribute::ExtendedAttributeList;
use crate::formers;
use weedle_base::term::{
    ArrayBuffer, ArrayBufferView, Boolean, BufferSource, Byte, ByteString, Comma, DOMString,
    DataView, Error, Float32Array, Float64Array, Int8Array, Int16Array, Int32Array, Object, Octet,
    Or, Symbol, USVString, Uint8Array, Uint8ClampedArray, Uint16Array, Uint32Array,
};
use weedle_parts::common::{Identifier, Parenthesized, Punctuated};
use weedle_parts::types::{FloatingPointType, IntegerType, MayBeNull};

/// A type that is no union, as `any` or `long?`.
pub type SingleType<'a> = formers::SingleType<NonAnyType<'a>>;

/// A sequence, as `sequence<long>`.
pub type SequenceType<'a> = formers::SequenceType<Type<'a>>;

/// An array that can't change, as `FrozenArray<long>`.
pub type FrozenArrayType<'a> = formers::FrozenArrayType<Type<'a>>;

/// A promise, as `Promise<undefined>`.
pub type PromiseType<'a> = formers::PromiseType<ReturnType<'a>>;

/// A record, as `record<DOMString, long>`. Its types are a tuple struct, [`RecordTypes`].
pub type RecordType<'a> = formers::RecordType<RecordTypes<'a>>;

/// The type of a record's keys: `ByteString`, `DOMString`, `USVString` or any type except for `any`
/// and unions.
pub type RecordKeyType<'a> = formers::RecordKeyType<NonAnyType<'a>>;

/// The type of a result: `undefined`, or a type.
pub type ReturnType<'a> = formers::ReturnType<Type<'a>>;

/// A union, as `(long or [Clamp] octet)`; `()` too.
pub type UnionType<'a> = Parenthesized<Punctuated<UnionMemberType<'a>, Or>>;

/// A type, as `long`, `any` or `(long or DOMString)?`.
#[cycle(types)]
#[derive(Debug, PartialEq, Eq, PartialOrd, Ord, Hash)]
pub enum Type<'a> {
    /// `any`, or another type that is no union, as `long?`.
    Single(SingleType<'a>),
    /// `(type or type)?`, also without `?`.
    Union(MayBeNull<UnionType<'a>>),
}

impl Drop for Type<'_> {
    #[cycle(drops)]
    fn drop(self) {
        match self {
            Type::Single(_) | Type::Union(_) => {}
        }
    }
}

/// A type that is neither `any` nor a union, as `long?`. A name that is no type of the grammar is
/// an identifier. Of what its variants read, `?` may be absent.
#[cycle(types)]
#[derive(Debug, PartialEq, Eq, PartialOrd, Ord, Hash)]
pub enum NonAnyType<'a> {
    /// `Promise<type>`, also with `undefined` for the type.
    Promise(PromiseType<'a>),
    /// `short?`, `long?` or `long long?`, each also with `unsigned` in front.
    Integer(MayBeNull<IntegerType>),
    /// `float?` or `double?`, each also with `unrestricted` in front.
    FloatingPoint(MayBeNull<FloatingPointType>),
    /// `boolean?`.
    Boolean(MayBeNull<Boolean>),
    /// `byte?`.
    Byte(MayBeNull<Byte>),
    /// `octet?`.
    Octet(MayBeNull<Octet>),
    /// `ByteString?`.
    ByteString(MayBeNull<ByteString>),
    /// `DOMString?`.
    DOMString(MayBeNull<DOMString>),
    /// `USVString?`.
    USVString(MayBeNull<USVString>),
    /// `sequence<type>?`.
    Sequence(MayBeNull<SequenceType<'a>>),
    /// `object?`.
    Object(MayBeNull<Object>),
    /// `symbol?`.
    Symbol(MayBeNull<Symbol>),
    /// `Error?`.
    Error(MayBeNull<Error>),
    /// `ArrayBuffer?`.
    ArrayBuffer(MayBeNull<ArrayBuffer>),
    /// `DataView?`.
    DataView(MayBeNull<DataView>),
    /// `Int8Array?`.
    Int8Array(MayBeNull<Int8Array>),
    /// `Int16Array?`.
    Int16Array(MayBeNull<Int16Array>),
    /// `Int32Array?`.
    Int32Array(MayBeNull<Int32Array>),
    /// `Uint8Array?`.
    Uint8Array(MayBeNull<Uint8Array>),
    /// `Uint16Array?`.
    Uint16Array(MayBeNull<Uint16Array>),
    /// `Uint32Array?`.
    Uint32Array(MayBeNull<Uint32Array>),
    /// `Uint8ClampedArray?`.
    Uint8ClampedArray(MayBeNull<Uint8ClampedArray>),
    /// `Float32Array?`.
    Float32Array(MayBeNull<Float32Array>),
    /// `Float64Array?`.
    Float64Array(MayBeNull<Float64Array>),
    /// `ArrayBufferView?`.
    ArrayBufferView(MayBeNull<ArrayBufferView>),
    /// `BufferSource?`.
    BufferSource(MayBeNull<BufferSource>),
    /// `FrozenArray<type>?`.
    FrozenArrayType(MayBeNull<FrozenArrayType<'a>>),
    /// `record<type, type>?`.
    RecordType(MayBeNull<RecordType<'a>>),
    /// `name?`.
    Identifier(MayBeNull<Identifier<'a>>),
}

impl Drop for NonAnyType<'_> {
    #[cycle(drops)]
    fn drop(self) {
        match self {
            NonAnyType::Promise(_)
            | NonAnyType::Integer(_)
            | NonAnyType::FloatingPoint(_)
            | NonAnyType::Boolean(_)
            | NonAnyType::Byte(_)
            | NonAnyType::Octet(_)
            | NonAnyType::ByteString(_)
            | NonAnyType::DOMString(_)
            | NonAnyType::USVString(_)
            | NonAnyType::Sequence(_)
            | NonAnyType::Object(_)
            | NonAnyType::Symbol(_)
            | NonAnyType::Error(_)
            | NonAnyType::ArrayBuffer(_)
            | NonAnyType::DataView(_)
            | NonAnyType::Int8Array(_)
            | NonAnyType::Int16Array(_)
            | NonAnyType::Int32Array(_)
            | NonAnyType::Uint8Array(_)
            | NonAnyType::Uint16Array(_)
            | NonAnyType::Uint32Array(_)
            | NonAnyType::Uint8ClampedArray(_)
            | NonAnyType::Float32Array(_)
            | NonAnyType::Float64Array(_)
            | NonAnyType::ArrayBufferView(_)
            | NonAnyType::BufferSource(_)
            | NonAnyType::FrozenArrayType(_)
            | NonAnyType::RecordType(_)
            | NonAnyType::Identifier(_) => {}
        }
    }
}

/// The types of a record, as `DOMString, long`: that of its keys, the comma, and that of its
/// values.
#[cycle(types)]
#[derive(Debug, PartialEq, Eq, PartialOrd, Ord, Hash)]
pub struct RecordTypes<'a>(pub Box<RecordKeyType<'a>>, pub Comma, pub Box<Type<'a>>);

impl Drop for RecordTypes<'_> {
    #[cycle(drops)]
    fn drop(self) {
        let RecordTypes(_, _, _) = self;
    }
}

/// A member of a union, as `[Clamp] octet` or `(long or DOMString)`.
#[cycle(types)]
#[derive(Debug, PartialEq, Eq, PartialOrd, Ord, Hash)]
pub enum UnionMemberType<'a> {
    /// `[extended attributes] type`, also without `[extended attributes]`, where the type is
    /// neither `any` nor a union.
    Single(AttributedNonAnyType<'a>),
    /// `(type or type)?`, also without `?`.
    Union(MayBeNull<UnionType<'a>>),
}

impl Drop for UnionMemberType<'_> {
    #[cycle(drops)]
    fn drop(self) {
        match self {
            UnionMemberType::Single(_) | UnionMemberType::Union(_) => {}
        }
    }
}

/// A type with the extended attributes before it, as `[Clamp] octet`.
#[cycle(types)]
#[derive(Debug, PartialEq, Eq, PartialOrd, Ord, Hash)]
pub struct AttributedType<'a> {
    /// The extended attributes in brackets, as `[Clamp]`, where present.
    pub attributes: Option<ExtendedAttributeList<'a>>,
    /// The type, as `octet`.
    pub type_: Type<'a>,
}

impl Drop for AttributedType<'_> {
    #[cycle(drops)]
    fn drop(self) {
        let AttributedType {
            attributes: _,
            type_: _,
        } = self;
    }
}

/// A type that is neither `any` nor a union, with the extended attributes before it, as
/// `[Clamp] octet`.
#[cycle(types)]
#[derive(Debug, PartialEq, Eq, PartialOrd, Ord, Hash)]
pub struct AttributedNonAnyType<'a> {
    /// The extended attributes in brackets, as `[Clamp]`, where present.
    pub attributes: Option<ExtendedAttributeList<'a>>,
    /// The type, as `octet`.
    pub type_: NonAnyType<'a>,
}

impl Drop for AttributedNonAnyType<'_> {
    #[cycle(drops)]
    fn drop(self) {
        let AttributedNonAnyType {
            attributes: _,
            type_: _,
        } = self;
    }
}
