//! Orders of types.
//!
//! Written by tools/orders.py, and not edited by hand.

ghost use Rattle.std.specs.Prelude.{◌≡◌, ◌<◌};
ghost use Rattle.std.specs.Ordering.{ordering_then};
ghost use Rattle.weedle_comparisons.specs.written.Places.{
  single_type_place,
  record_key_type_place,
  return_type_place,
  type_place,
  non_any_type_place,
  union_member_type_place,
};
ghost use Rattle.weedle_types.specs.declared.formers.SingleType.{SingleType as SingleTypeOf};
ghost use Rattle.weedle_types.specs.declared.formers.SingleType.TheVariants.{
  Any as SingleType-Any,
  NonAny as SingleType-NonAny,
};
ghost use Rattle.weedle_types.specs.declared.formers.SequenceType.{SequenceType as SequenceTypeOf};
ghost use Rattle.weedle_types.specs.declared.formers.FrozenArrayType.{
  FrozenArrayType as FrozenArrayTypeOf,
};
ghost use Rattle.weedle_types.specs.declared.formers.PromiseType.{PromiseType as PromiseTypeOf};
ghost use Rattle.weedle_types.specs.declared.formers.RecordType.{RecordType as RecordTypeOf};
ghost use Rattle.weedle_types.specs.declared.formers.RecordKeyType.{
  RecordKeyType as RecordKeyTypeOf,
};
ghost use Rattle.weedle_types.specs.declared.formers.RecordKeyType.TheVariants.{
  Byte as RecordKeyType-Byte,
  DOM as RecordKeyType-DOM,
  USV as RecordKeyType-USV,
  NonAny as RecordKeyType-NonAny,
};
ghost use Rattle.weedle_types.specs.declared.formers.ReturnType.{ReturnType as ReturnTypeOf};
ghost use Rattle.weedle_types.specs.declared.formers.ReturnType.TheVariants.{
  Undefined as ReturnType-Undefined,
  Type_ as ReturnType-Type_,
};

use std::cmp::Ordering;
use weedle_base::term::{
    Any, ArrayBuffer, ArrayBufferView, Boolean, BufferSource, Byte, ByteString, Comma, DOMString,
    DataView, Error, Float32Array, Float64Array, FrozenArray, Int8Array, Int16Array, Int32Array,
    Object, Octet, Or, Promise, Record, Sequence, Symbol, USVString, Uint8Array, Uint8ClampedArray,
    Uint16Array, Uint32Array, Undefined,
};
use weedle_parts::common::{Generics, Identifier, Parenthesized, Punctuated};
use weedle_parts::types::{FloatingPointType, IntegerType, MayBeNull};
use weedle_types::attribute::ExtendedAttributeList;
use weedle_types::types::{
    AttributedNonAnyType, AttributedType, FrozenArrayType, NonAnyType, PromiseType, RecordKeyType,
    RecordType, RecordTypes, ReturnType, SequenceType, SingleType, Type, UnionMemberType,
    UnionType,
};

/// A law, which does nothing: `cmp` of `SingleType` goes by its variants, and of one variant by
/// what it holds.
pub fn single_type<'a>()
    ensures earlier { (a b : SingleTypeOf NonAnyType)
        → single_type_place a < single_type_place b
        → ⟦<SingleType<'a> as Ord>⟧.cmp a b ≡ Ordering.Less }
    ensures later { (a b : SingleTypeOf NonAnyType)
        → single_type_place b < single_type_place a
        → ⟦<SingleType<'a> as Ord>⟧.cmp a b ≡ Ordering.Greater }
    ensures any { (a b : Any)
        → ⟦<SingleType<'a> as Ord>⟧.cmp (SingleType-Any a) (SingleType-Any b)
        ≡ ⟦<Any as Ord>⟧.cmp a b }
    ensures non_any { (a b : NonAnyType)
        → ⟦<SingleType<'a> as Ord>⟧.cmp (SingleType-NonAny a) (SingleType-NonAny b)
        ≡ ⟦<NonAnyType<'a> as Ord>⟧.cmp a b }
{}

/// A law, which does nothing: `cmp` of `SequenceType` goes by its fields, in order.
pub fn sequence_type<'a>()
    ensures { (a b : SequenceTypeOf «Type»)
        → ⟦<SequenceType<'a> as Ord>⟧.cmp a b
        ≡ ordering_then (⟦<Sequence as Ord>⟧.cmp a.sequence b.sequence)
        (⟦<Generics<Box<Type<'a>>> as Ord>⟧.cmp a.generics b.generics) }
{}

/// A law, which does nothing: `cmp` of `FrozenArrayType` goes by its fields, in order.
pub fn frozen_array_type<'a>()
    ensures { (a b : FrozenArrayTypeOf «Type»)
        → ⟦<FrozenArrayType<'a> as Ord>⟧.cmp a b
        ≡ ordering_then (⟦<FrozenArray as Ord>⟧.cmp a.frozen_array b.frozen_array)
        (⟦<Generics<Box<Type<'a>>> as Ord>⟧.cmp a.generics b.generics) }
{}

/// A law, which does nothing: `cmp` of `PromiseType` goes by its fields, in order.
pub fn promise_type<'a>()
    ensures { (a b : PromiseTypeOf (ReturnTypeOf «Type»))
        → ⟦<PromiseType<'a> as Ord>⟧.cmp a b
        ≡ ordering_then (⟦<Promise as Ord>⟧.cmp a.promise b.promise)
        (⟦<Generics<Box<ReturnType<'a>>> as Ord>⟧.cmp a.generics b.generics) }
{}

/// A law, which does nothing: `cmp` of `RecordType` goes by its fields, in order.
pub fn record_type<'a>()
    ensures { (a b : RecordTypeOf RecordTypes)
        → ⟦<RecordType<'a> as Ord>⟧.cmp a b
        ≡ ordering_then (⟦<Record as Ord>⟧.cmp a.record_ b.record_)
        (⟦<Generics<RecordTypes<'a>> as Ord>⟧.cmp a.generics b.generics) }
{}

/// A law, which does nothing: `cmp` of `RecordKeyType` goes by its variants, and of one variant by
/// what it holds.
pub fn record_key_type<'a>()
    ensures earlier { (a b : RecordKeyTypeOf NonAnyType)
        → record_key_type_place a < record_key_type_place b
        → ⟦<RecordKeyType<'a> as Ord>⟧.cmp a b ≡ Ordering.Less }
    ensures later { (a b : RecordKeyTypeOf NonAnyType)
        → record_key_type_place b < record_key_type_place a
        → ⟦<RecordKeyType<'a> as Ord>⟧.cmp a b ≡ Ordering.Greater }
    ensures byte { (a b : ByteString)
        → ⟦<RecordKeyType<'a> as Ord>⟧.cmp (RecordKeyType-Byte a) (RecordKeyType-Byte b)
        ≡ ⟦<ByteString as Ord>⟧.cmp a b }
    ensures dom { (a b : DOMString)
        → ⟦<RecordKeyType<'a> as Ord>⟧.cmp (RecordKeyType-DOM a) (RecordKeyType-DOM b)
        ≡ ⟦<DOMString as Ord>⟧.cmp a b }
    ensures usv { (a b : USVString)
        → ⟦<RecordKeyType<'a> as Ord>⟧.cmp (RecordKeyType-USV a) (RecordKeyType-USV b)
        ≡ ⟦<USVString as Ord>⟧.cmp a b }
    ensures non_any { (a b : NonAnyType)
        → ⟦<RecordKeyType<'a> as Ord>⟧.cmp (RecordKeyType-NonAny a) (RecordKeyType-NonAny b)
        ≡ ⟦<NonAnyType<'a> as Ord>⟧.cmp a b }
{}

/// A law, which does nothing: `cmp` of `ReturnType` goes by its variants, and of one variant by
/// what it holds.
pub fn return_type<'a>()
    ensures earlier { (a b : ReturnTypeOf «Type»)
        → return_type_place a < return_type_place b
        → ⟦<ReturnType<'a> as Ord>⟧.cmp a b ≡ Ordering.Less }
    ensures later { (a b : ReturnTypeOf «Type»)
        → return_type_place b < return_type_place a
        → ⟦<ReturnType<'a> as Ord>⟧.cmp a b ≡ Ordering.Greater }
    ensures undefined { (a b : Undefined)
        → ⟦<ReturnType<'a> as Ord>⟧.cmp (ReturnType-Undefined a) (ReturnType-Undefined b)
        ≡ ⟦<Undefined as Ord>⟧.cmp a b }
    ensures type_ { (a b : «Type»)
        → ⟦<ReturnType<'a> as Ord>⟧.cmp (ReturnType-Type_ a) (ReturnType-Type_ b)
        ≡ ⟦<Type<'a> as Ord>⟧.cmp a b }
{}

/// A law, which does nothing: `cmp` of `Type` goes by its variants, and of one variant by what it
/// holds.
pub fn type_<'a>()
    ensures earlier { (a b : «Type»)
        → type_place a < type_place b
        → ⟦<Type<'a> as Ord>⟧.cmp a b ≡ Ordering.Less }
    ensures later { (a b : «Type»)
        → type_place b < type_place a
        → ⟦<Type<'a> as Ord>⟧.cmp a b ≡ Ordering.Greater }
    ensures single { (a b : SingleTypeOf NonAnyType)
        → ⟦<Type<'a> as Ord>⟧.cmp (Type.Single a) (Type.Single b)
        ≡ ⟦<SingleType<'a> as Ord>⟧.cmp a b }
    ensures union { (a b : MayBeNull (Parenthesized (Punctuated UnionMemberType Or)))
        → ⟦<Type<'a> as Ord>⟧.cmp (Type.Union a) (Type.Union b)
        ≡ ⟦<MayBeNull<UnionType<'a>> as Ord>⟧.cmp a b }
{}

/// A law, which does nothing: `cmp` of `NonAnyType` goes by its variants, and of one variant by
/// what it holds.
pub fn non_any_type<'a>()
    ensures earlier { (a b : NonAnyType)
        → non_any_type_place a < non_any_type_place b
        → ⟦<NonAnyType<'a> as Ord>⟧.cmp a b ≡ Ordering.Less }
    ensures later { (a b : NonAnyType)
        → non_any_type_place b < non_any_type_place a
        → ⟦<NonAnyType<'a> as Ord>⟧.cmp a b ≡ Ordering.Greater }
    ensures promise { (a b : PromiseTypeOf (ReturnTypeOf «Type»))
        → ⟦<NonAnyType<'a> as Ord>⟧.cmp (NonAnyType.Promise a) (NonAnyType.Promise b)
        ≡ ⟦<PromiseType<'a> as Ord>⟧.cmp a b }
    ensures integer { (a b : MayBeNull IntegerType)
        → ⟦<NonAnyType<'a> as Ord>⟧.cmp (NonAnyType.Integer a) (NonAnyType.Integer b)
        ≡ ⟦<MayBeNull<IntegerType> as Ord>⟧.cmp a b }
    ensures floating_point { (a b : MayBeNull FloatingPointType)
        → ⟦<NonAnyType<'a> as Ord>⟧.cmp (NonAnyType.FloatingPoint a) (NonAnyType.FloatingPoint b)
        ≡ ⟦<MayBeNull<FloatingPointType> as Ord>⟧.cmp a b }
    ensures boolean { (a b : MayBeNull Boolean)
        → ⟦<NonAnyType<'a> as Ord>⟧.cmp (NonAnyType.Boolean a) (NonAnyType.Boolean b)
        ≡ ⟦<MayBeNull<Boolean> as Ord>⟧.cmp a b }
    ensures byte { (a b : MayBeNull Byte)
        → ⟦<NonAnyType<'a> as Ord>⟧.cmp (NonAnyType.Byte a) (NonAnyType.Byte b)
        ≡ ⟦<MayBeNull<Byte> as Ord>⟧.cmp a b }
    ensures octet { (a b : MayBeNull Octet)
        → ⟦<NonAnyType<'a> as Ord>⟧.cmp (NonAnyType.Octet a) (NonAnyType.Octet b)
        ≡ ⟦<MayBeNull<Octet> as Ord>⟧.cmp a b }
    ensures byte_string { (a b : MayBeNull ByteString)
        → ⟦<NonAnyType<'a> as Ord>⟧.cmp (NonAnyType.ByteString a) (NonAnyType.ByteString b)
        ≡ ⟦<MayBeNull<ByteString> as Ord>⟧.cmp a b }
    ensures dom_string { (a b : MayBeNull DOMString)
        → ⟦<NonAnyType<'a> as Ord>⟧.cmp (NonAnyType.DOMString a) (NonAnyType.DOMString b)
        ≡ ⟦<MayBeNull<DOMString> as Ord>⟧.cmp a b }
    ensures usv_string { (a b : MayBeNull USVString)
        → ⟦<NonAnyType<'a> as Ord>⟧.cmp (NonAnyType.USVString a) (NonAnyType.USVString b)
        ≡ ⟦<MayBeNull<USVString> as Ord>⟧.cmp a b }
    ensures sequence { (a b : MayBeNull (SequenceTypeOf «Type»))
        → ⟦<NonAnyType<'a> as Ord>⟧.cmp (NonAnyType.Sequence a) (NonAnyType.Sequence b)
        ≡ ⟦<MayBeNull<SequenceType<'a>> as Ord>⟧.cmp a b }
    ensures object { (a b : MayBeNull Object)
        → ⟦<NonAnyType<'a> as Ord>⟧.cmp (NonAnyType.Object a) (NonAnyType.Object b)
        ≡ ⟦<MayBeNull<Object> as Ord>⟧.cmp a b }
    ensures symbol { (a b : MayBeNull Symbol)
        → ⟦<NonAnyType<'a> as Ord>⟧.cmp (NonAnyType.Symbol a) (NonAnyType.Symbol b)
        ≡ ⟦<MayBeNull<Symbol> as Ord>⟧.cmp a b }
    ensures error { (a b : MayBeNull Error)
        → ⟦<NonAnyType<'a> as Ord>⟧.cmp (NonAnyType.Error a) (NonAnyType.Error b)
        ≡ ⟦<MayBeNull<Error> as Ord>⟧.cmp a b }
    ensures array_buffer { (a b : MayBeNull ArrayBuffer)
        → ⟦<NonAnyType<'a> as Ord>⟧.cmp (NonAnyType.ArrayBuffer a) (NonAnyType.ArrayBuffer b)
        ≡ ⟦<MayBeNull<ArrayBuffer> as Ord>⟧.cmp a b }
    ensures data_view { (a b : MayBeNull DataView)
        → ⟦<NonAnyType<'a> as Ord>⟧.cmp (NonAnyType.DataView a) (NonAnyType.DataView b)
        ≡ ⟦<MayBeNull<DataView> as Ord>⟧.cmp a b }
    ensures int8_array { (a b : MayBeNull Int8Array)
        → ⟦<NonAnyType<'a> as Ord>⟧.cmp (NonAnyType.Int8Array a) (NonAnyType.Int8Array b)
        ≡ ⟦<MayBeNull<Int8Array> as Ord>⟧.cmp a b }
    ensures int16_array { (a b : MayBeNull Int16Array)
        → ⟦<NonAnyType<'a> as Ord>⟧.cmp (NonAnyType.Int16Array a) (NonAnyType.Int16Array b)
        ≡ ⟦<MayBeNull<Int16Array> as Ord>⟧.cmp a b }
    ensures int32_array { (a b : MayBeNull Int32Array)
        → ⟦<NonAnyType<'a> as Ord>⟧.cmp (NonAnyType.Int32Array a) (NonAnyType.Int32Array b)
        ≡ ⟦<MayBeNull<Int32Array> as Ord>⟧.cmp a b }
    ensures uint8_array { (a b : MayBeNull Uint8Array)
        → ⟦<NonAnyType<'a> as Ord>⟧.cmp (NonAnyType.Uint8Array a) (NonAnyType.Uint8Array b)
        ≡ ⟦<MayBeNull<Uint8Array> as Ord>⟧.cmp a b }
    ensures uint16_array { (a b : MayBeNull Uint16Array)
        → ⟦<NonAnyType<'a> as Ord>⟧.cmp (NonAnyType.Uint16Array a) (NonAnyType.Uint16Array b)
        ≡ ⟦<MayBeNull<Uint16Array> as Ord>⟧.cmp a b }
    ensures uint32_array { (a b : MayBeNull Uint32Array)
        → ⟦<NonAnyType<'a> as Ord>⟧.cmp (NonAnyType.Uint32Array a) (NonAnyType.Uint32Array b)
        ≡ ⟦<MayBeNull<Uint32Array> as Ord>⟧.cmp a b }
    ensures uint8_clamped_array { (a b : MayBeNull Uint8ClampedArray)
        → ⟦<NonAnyType<'a> as Ord>⟧.cmp (NonAnyType.Uint8ClampedArray a)
        (NonAnyType.Uint8ClampedArray b)
        ≡ ⟦<MayBeNull<Uint8ClampedArray> as Ord>⟧.cmp a b }
    ensures float32_array { (a b : MayBeNull Float32Array)
        → ⟦<NonAnyType<'a> as Ord>⟧.cmp (NonAnyType.Float32Array a) (NonAnyType.Float32Array b)
        ≡ ⟦<MayBeNull<Float32Array> as Ord>⟧.cmp a b }
    ensures float64_array { (a b : MayBeNull Float64Array)
        → ⟦<NonAnyType<'a> as Ord>⟧.cmp (NonAnyType.Float64Array a) (NonAnyType.Float64Array b)
        ≡ ⟦<MayBeNull<Float64Array> as Ord>⟧.cmp a b }
    ensures array_buffer_view { (a b : MayBeNull ArrayBufferView)
        → ⟦<NonAnyType<'a> as Ord>⟧.cmp (NonAnyType.ArrayBufferView a)
        (NonAnyType.ArrayBufferView b)
        ≡ ⟦<MayBeNull<ArrayBufferView> as Ord>⟧.cmp a b }
    ensures buffer_source { (a b : MayBeNull BufferSource)
        → ⟦<NonAnyType<'a> as Ord>⟧.cmp (NonAnyType.BufferSource a) (NonAnyType.BufferSource b)
        ≡ ⟦<MayBeNull<BufferSource> as Ord>⟧.cmp a b }
    ensures frozen_array_type { (a b : MayBeNull (FrozenArrayTypeOf «Type»))
        → ⟦<NonAnyType<'a> as Ord>⟧.cmp (NonAnyType.FrozenArrayType a)
        (NonAnyType.FrozenArrayType b)
        ≡ ⟦<MayBeNull<FrozenArrayType<'a>> as Ord>⟧.cmp a b }
    ensures record_type { (a b : MayBeNull (RecordTypeOf RecordTypes))
        → ⟦<NonAnyType<'a> as Ord>⟧.cmp (NonAnyType.RecordType a) (NonAnyType.RecordType b)
        ≡ ⟦<MayBeNull<RecordType<'a>> as Ord>⟧.cmp a b }
    ensures identifier { (a b : MayBeNull Identifier)
        → ⟦<NonAnyType<'a> as Ord>⟧.cmp (NonAnyType.Identifier a) (NonAnyType.Identifier b)
        ≡ ⟦<MayBeNull<Identifier<'a>> as Ord>⟧.cmp a b }
{}

/// A law, which does nothing: `cmp` of `RecordTypes` goes by its fields, in order.
pub fn record_types<'a>()
    ensures { (a b : RecordTypes)
        → ⟦<RecordTypes<'a> as Ord>⟧.cmp a b
        ≡ ordering_then (⟦<Box<RecordKeyType<'a>> as Ord>⟧.cmp a.0 b.0)
        (ordering_then (⟦<Comma as Ord>⟧.cmp a.1 b.1)
        (⟦<Box<Type<'a>> as Ord>⟧.cmp a.2 b.2)) }
{}

/// A law, which does nothing: `cmp` of `UnionMemberType` goes by its variants, and of one variant
/// by what it holds.
pub fn union_member_type<'a>()
    ensures earlier { (a b : UnionMemberType)
        → union_member_type_place a < union_member_type_place b
        → ⟦<UnionMemberType<'a> as Ord>⟧.cmp a b ≡ Ordering.Less }
    ensures later { (a b : UnionMemberType)
        → union_member_type_place b < union_member_type_place a
        → ⟦<UnionMemberType<'a> as Ord>⟧.cmp a b ≡ Ordering.Greater }
    ensures single { (a b : AttributedNonAnyType)
        → ⟦<UnionMemberType<'a> as Ord>⟧.cmp (UnionMemberType.Single a) (UnionMemberType.Single b)
        ≡ ⟦<AttributedNonAnyType<'a> as Ord>⟧.cmp a b }
    ensures union { (a b : MayBeNull (Parenthesized (Punctuated UnionMemberType Or)))
        → ⟦<UnionMemberType<'a> as Ord>⟧.cmp (UnionMemberType.Union a) (UnionMemberType.Union b)
        ≡ ⟦<MayBeNull<UnionType<'a>> as Ord>⟧.cmp a b }
{}

/// A law, which does nothing: `cmp` of `AttributedType` goes by its fields, in order.
pub fn attributed_type<'a>()
    ensures { (a b : AttributedType)
        → ⟦<AttributedType<'a> as Ord>⟧.cmp a b
        ≡ ordering_then (⟦<Option<ExtendedAttributeList<'a>> as Ord>⟧.cmp a.attributes b.attributes)
        (⟦<Type<'a> as Ord>⟧.cmp a.type_ b.type_) }
{}

/// A law, which does nothing: `cmp` of `AttributedNonAnyType` goes by its fields, in order.
pub fn attributed_non_any_type<'a>()
    ensures { (a b : AttributedNonAnyType)
        → ⟦<AttributedNonAnyType<'a> as Ord>⟧.cmp a b
        ≡ ordering_then (⟦<Option<ExtendedAttributeList<'a>> as Ord>⟧.cmp a.attributes b.attributes)
        (⟦<NonAnyType<'a> as Ord>⟧.cmp a.type_ b.type_) }
{}
