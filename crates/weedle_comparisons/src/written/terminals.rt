//! The defaults and the orders of the terminals: each has one value.
//!
//! Written by tools/terminals.py, and not edited by hand.

ghost use Rattle.std.specs.Prelude.{◌≡◌, ◌↔◌};

use std::cmp::Ordering;
use weedle_base::term::{
    Any, ArrayBuffer, ArrayBufferView, Assign, Async, Attribute, Boolean, BufferSource, Byte,
    ByteString, Callback, CloseBrace, CloseBracket, CloseParen, Colon, Comma, Const, Constructor,
    DOMString, DataView, Deleter, Dictionary, Dot, Double, Ellipsis, Enum, Error, False, Float,
    Float32Array, Float64Array, FrozenArray, Getter, GreaterThan, Implements, Includes, Infinity,
    Inherit, Int8Array, Int16Array, Int32Array, Interface, Iterable, LegacyCaller, LessThan, Long,
    Maplike, Minus, Mixin, NaN, Namespace, NegInfinity, Null, Object, Octet, OpenBrace,
    OpenBracket, OpenParen, Optional, Or, Partial, Promise, QMark, ReadOnly, Record, Required,
    SemiColon, Sequence, Setlike, Setter, Short, Static, Stringifier, Symbol, True, Typedef,
    USVString, Uint8Array, Uint8ClampedArray, Uint16Array, Uint32Array, Undefined, Unrestricted,
    Unsigned,
};

/// A law, which does nothing: the default of each of the symbols is its one value.
pub fn defaults_of_symbols()
    ensures open_paren { (v : OpenParen) → ⟦<OpenParen as Default>⟧.is_default v ↔ v ≡ record {} }
    ensures close_paren { (v : CloseParen) → ⟦<CloseParen as Default>⟧.is_default v
        ↔ v ≡ record {} }
    ensures open_bracket { (v : OpenBracket) → ⟦<OpenBracket as Default>⟧.is_default v
        ↔ v ≡ record {} }
    ensures close_bracket { (v : CloseBracket) → ⟦<CloseBracket as Default>⟧.is_default v
        ↔ v ≡ record {} }
    ensures open_brace { (v : OpenBrace) → ⟦<OpenBrace as Default>⟧.is_default v ↔ v ≡ record {} }
    ensures close_brace { (v : CloseBrace) → ⟦<CloseBrace as Default>⟧.is_default v
        ↔ v ≡ record {} }
    ensures comma { (v : Comma) → ⟦<Comma as Default>⟧.is_default v ↔ v ≡ record {} }
    ensures minus { (v : Minus) → ⟦<Minus as Default>⟧.is_default v ↔ v ≡ record {} }
    ensures dot { (v : Dot) → ⟦<Dot as Default>⟧.is_default v ↔ v ≡ record {} }
    ensures ellipsis { (v : Ellipsis) → ⟦<Ellipsis as Default>⟧.is_default v ↔ v ≡ record {} }
    ensures colon { (v : Colon) → ⟦<Colon as Default>⟧.is_default v ↔ v ≡ record {} }
    ensures semi_colon { (v : SemiColon) → ⟦<SemiColon as Default>⟧.is_default v ↔ v ≡ record {} }
    ensures less_than { (v : LessThan) → ⟦<LessThan as Default>⟧.is_default v ↔ v ≡ record {} }
    ensures assign { (v : Assign) → ⟦<Assign as Default>⟧.is_default v ↔ v ≡ record {} }
    ensures greater_than { (v : GreaterThan) → ⟦<GreaterThan as Default>⟧.is_default v
        ↔ v ≡ record {} }
    ensures q_mark { (v : QMark) → ⟦<QMark as Default>⟧.is_default v ↔ v ≡ record {} }
{}

/// A law, which does nothing: of two values of one of the symbols neither comes before the other.
pub fn orders_of_symbols()
    ensures open_paren { (a b : OpenParen) → ⟦<OpenParen as Ord>⟧.cmp a b ≡ Ordering.Equal }
    ensures close_paren { (a b : CloseParen) → ⟦<CloseParen as Ord>⟧.cmp a b ≡ Ordering.Equal }
    ensures open_bracket { (a b : OpenBracket) → ⟦<OpenBracket as Ord>⟧.cmp a b ≡ Ordering.Equal }
    ensures close_bracket { (a b : CloseBracket)
        → ⟦<CloseBracket as Ord>⟧.cmp a b ≡ Ordering.Equal }
    ensures open_brace { (a b : OpenBrace) → ⟦<OpenBrace as Ord>⟧.cmp a b ≡ Ordering.Equal }
    ensures close_brace { (a b : CloseBrace) → ⟦<CloseBrace as Ord>⟧.cmp a b ≡ Ordering.Equal }
    ensures comma { (a b : Comma) → ⟦<Comma as Ord>⟧.cmp a b ≡ Ordering.Equal }
    ensures minus { (a b : Minus) → ⟦<Minus as Ord>⟧.cmp a b ≡ Ordering.Equal }
    ensures dot { (a b : Dot) → ⟦<Dot as Ord>⟧.cmp a b ≡ Ordering.Equal }
    ensures ellipsis { (a b : Ellipsis) → ⟦<Ellipsis as Ord>⟧.cmp a b ≡ Ordering.Equal }
    ensures colon { (a b : Colon) → ⟦<Colon as Ord>⟧.cmp a b ≡ Ordering.Equal }
    ensures semi_colon { (a b : SemiColon) → ⟦<SemiColon as Ord>⟧.cmp a b ≡ Ordering.Equal }
    ensures less_than { (a b : LessThan) → ⟦<LessThan as Ord>⟧.cmp a b ≡ Ordering.Equal }
    ensures assign { (a b : Assign) → ⟦<Assign as Ord>⟧.cmp a b ≡ Ordering.Equal }
    ensures greater_than { (a b : GreaterThan) → ⟦<GreaterThan as Ord>⟧.cmp a b ≡ Ordering.Equal }
    ensures q_mark { (a b : QMark) → ⟦<QMark as Ord>⟧.cmp a b ≡ Ordering.Equal }
{}

/// A law, which does nothing: the default of each of the keywords of definitions and their members
/// is its one value.
pub fn defaults_of_definition_keywords()
    ensures async_ { (v : Async) → ⟦<Async as Default>⟧.is_default v ↔ v ≡ record {} }
    ensures attribute { (v : Attribute) → ⟦<Attribute as Default>⟧.is_default v ↔ v ≡ record {} }
    ensures callback { (v : Callback) → ⟦<Callback as Default>⟧.is_default v ↔ v ≡ record {} }
    ensures const_ { (v : Const) → ⟦<Const as Default>⟧.is_default v ↔ v ≡ record {} }
    ensures deleter { (v : Deleter) → ⟦<Deleter as Default>⟧.is_default v ↔ v ≡ record {} }
    ensures dictionary { (v : Dictionary) → ⟦<Dictionary as Default>⟧.is_default v ↔ v ≡ record {} }
    ensures enum_ { (v : Enum) → ⟦<Enum as Default>⟧.is_default v ↔ v ≡ record {} }
    ensures getter { (v : Getter) → ⟦<Getter as Default>⟧.is_default v ↔ v ≡ record {} }
    ensures includes { (v : Includes) → ⟦<Includes as Default>⟧.is_default v ↔ v ≡ record {} }
    ensures inherit { (v : Inherit) → ⟦<Inherit as Default>⟧.is_default v ↔ v ≡ record {} }
    ensures interface { (v : Interface) → ⟦<Interface as Default>⟧.is_default v ↔ v ≡ record {} }
    ensures iterable { (v : Iterable) → ⟦<Iterable as Default>⟧.is_default v ↔ v ≡ record {} }
    ensures maplike { (v : Maplike) → ⟦<Maplike as Default>⟧.is_default v ↔ v ≡ record {} }
    ensures namespace { (v : Namespace) → ⟦<Namespace as Default>⟧.is_default v ↔ v ≡ record {} }
    ensures partial { (v : Partial) → ⟦<Partial as Default>⟧.is_default v ↔ v ≡ record {} }
    ensures required { (v : Required) → ⟦<Required as Default>⟧.is_default v ↔ v ≡ record {} }
    ensures setlike { (v : Setlike) → ⟦<Setlike as Default>⟧.is_default v ↔ v ≡ record {} }
    ensures setter { (v : Setter) → ⟦<Setter as Default>⟧.is_default v ↔ v ≡ record {} }
    ensures static_ { (v : Static) → ⟦<Static as Default>⟧.is_default v ↔ v ≡ record {} }
    ensures stringifier { (v : Stringifier) → ⟦<Stringifier as Default>⟧.is_default v
        ↔ v ≡ record {} }
    ensures typedef { (v : Typedef) → ⟦<Typedef as Default>⟧.is_default v ↔ v ≡ record {} }
    ensures read_only { (v : ReadOnly) → ⟦<ReadOnly as Default>⟧.is_default v ↔ v ≡ record {} }
    ensures mixin { (v : Mixin) → ⟦<Mixin as Default>⟧.is_default v ↔ v ≡ record {} }
    ensures implements { (v : Implements) → ⟦<Implements as Default>⟧.is_default v ↔ v ≡ record {} }
    ensures legacy_caller { (v : LegacyCaller) → ⟦<LegacyCaller as Default>⟧.is_default v
        ↔ v ≡ record {} }
    ensures constructor { (v : Constructor) → ⟦<Constructor as Default>⟧.is_default v
        ↔ v ≡ record {} }
{}

/// A law, which does nothing: of two values of one of the keywords of definitions and their members
/// neither comes before the other.
pub fn orders_of_definition_keywords()
    ensures async_ { (a b : Async) → ⟦<Async as Ord>⟧.cmp a b ≡ Ordering.Equal }
    ensures attribute { (a b : Attribute) → ⟦<Attribute as Ord>⟧.cmp a b ≡ Ordering.Equal }
    ensures callback { (a b : Callback) → ⟦<Callback as Ord>⟧.cmp a b ≡ Ordering.Equal }
    ensures const_ { (a b : Const) → ⟦<Const as Ord>⟧.cmp a b ≡ Ordering.Equal }
    ensures deleter { (a b : Deleter) → ⟦<Deleter as Ord>⟧.cmp a b ≡ Ordering.Equal }
    ensures dictionary { (a b : Dictionary) → ⟦<Dictionary as Ord>⟧.cmp a b ≡ Ordering.Equal }
    ensures enum_ { (a b : Enum) → ⟦<Enum as Ord>⟧.cmp a b ≡ Ordering.Equal }
    ensures getter { (a b : Getter) → ⟦<Getter as Ord>⟧.cmp a b ≡ Ordering.Equal }
    ensures includes { (a b : Includes) → ⟦<Includes as Ord>⟧.cmp a b ≡ Ordering.Equal }
    ensures inherit { (a b : Inherit) → ⟦<Inherit as Ord>⟧.cmp a b ≡ Ordering.Equal }
    ensures interface { (a b : Interface) → ⟦<Interface as Ord>⟧.cmp a b ≡ Ordering.Equal }
    ensures iterable { (a b : Iterable) → ⟦<Iterable as Ord>⟧.cmp a b ≡ Ordering.Equal }
    ensures maplike { (a b : Maplike) → ⟦<Maplike as Ord>⟧.cmp a b ≡ Ordering.Equal }
    ensures namespace { (a b : Namespace) → ⟦<Namespace as Ord>⟧.cmp a b ≡ Ordering.Equal }
    ensures partial { (a b : Partial) → ⟦<Partial as Ord>⟧.cmp a b ≡ Ordering.Equal }
    ensures required { (a b : Required) → ⟦<Required as Ord>⟧.cmp a b ≡ Ordering.Equal }
    ensures setlike { (a b : Setlike) → ⟦<Setlike as Ord>⟧.cmp a b ≡ Ordering.Equal }
    ensures setter { (a b : Setter) → ⟦<Setter as Ord>⟧.cmp a b ≡ Ordering.Equal }
    ensures static_ { (a b : Static) → ⟦<Static as Ord>⟧.cmp a b ≡ Ordering.Equal }
    ensures stringifier { (a b : Stringifier) → ⟦<Stringifier as Ord>⟧.cmp a b ≡ Ordering.Equal }
    ensures typedef { (a b : Typedef) → ⟦<Typedef as Ord>⟧.cmp a b ≡ Ordering.Equal }
    ensures read_only { (a b : ReadOnly) → ⟦<ReadOnly as Ord>⟧.cmp a b ≡ Ordering.Equal }
    ensures mixin { (a b : Mixin) → ⟦<Mixin as Ord>⟧.cmp a b ≡ Ordering.Equal }
    ensures implements { (a b : Implements) → ⟦<Implements as Ord>⟧.cmp a b ≡ Ordering.Equal }
    ensures legacy_caller { (a b : LegacyCaller)
        → ⟦<LegacyCaller as Ord>⟧.cmp a b ≡ Ordering.Equal }
    ensures constructor { (a b : Constructor) → ⟦<Constructor as Ord>⟧.cmp a b ≡ Ordering.Equal }
{}

/// A law, which does nothing: the default of each of the keywords of types, arguments and values is
/// its one value.
pub fn defaults_of_type_keywords()
    ensures or { (v : Or) → ⟦<Or as Default>⟧.is_default v ↔ v ≡ record {} }
    ensures optional { (v : Optional) → ⟦<Optional as Default>⟧.is_default v ↔ v ≡ record {} }
    ensures unrestricted { (v : Unrestricted) → ⟦<Unrestricted as Default>⟧.is_default v
        ↔ v ≡ record {} }
    ensures symbol { (v : Symbol) → ⟦<Symbol as Default>⟧.is_default v ↔ v ≡ record {} }
    ensures any { (v : Any) → ⟦<Any as Default>⟧.is_default v ↔ v ≡ record {} }
    ensures boolean { (v : Boolean) → ⟦<Boolean as Default>⟧.is_default v ↔ v ≡ record {} }
    ensures byte { (v : Byte) → ⟦<Byte as Default>⟧.is_default v ↔ v ≡ record {} }
    ensures double { (v : Double) → ⟦<Double as Default>⟧.is_default v ↔ v ≡ record {} }
    ensures false_ { (v : False) → ⟦<False as Default>⟧.is_default v ↔ v ≡ record {} }
    ensures float { (v : Float) → ⟦<Float as Default>⟧.is_default v ↔ v ≡ record {} }
    ensures long { (v : Long) → ⟦<Long as Default>⟧.is_default v ↔ v ≡ record {} }
    ensures null { (v : Null) → ⟦<Null as Default>⟧.is_default v ↔ v ≡ record {} }
    ensures object { (v : Object) → ⟦<Object as Default>⟧.is_default v ↔ v ≡ record {} }
    ensures octet { (v : Octet) → ⟦<Octet as Default>⟧.is_default v ↔ v ≡ record {} }
    ensures sequence { (v : Sequence) → ⟦<Sequence as Default>⟧.is_default v ↔ v ≡ record {} }
    ensures short { (v : Short) → ⟦<Short as Default>⟧.is_default v ↔ v ≡ record {} }
    ensures true_ { (v : True) → ⟦<True as Default>⟧.is_default v ↔ v ≡ record {} }
    ensures unsigned { (v : Unsigned) → ⟦<Unsigned as Default>⟧.is_default v ↔ v ≡ record {} }
    ensures undefined { (v : Undefined) → ⟦<Undefined as Default>⟧.is_default v ↔ v ≡ record {} }
    ensures record { (v : Record) → ⟦<Record as Default>⟧.is_default v ↔ v ≡ record {} }
{}

/// A law, which does nothing: of two values of one of the keywords of types, arguments and values
/// neither comes before the other.
pub fn orders_of_type_keywords()
    ensures or { (a b : Or) → ⟦<Or as Ord>⟧.cmp a b ≡ Ordering.Equal }
    ensures optional { (a b : Optional) → ⟦<Optional as Ord>⟧.cmp a b ≡ Ordering.Equal }
    ensures unrestricted { (a b : Unrestricted) → ⟦<Unrestricted as Ord>⟧.cmp a b ≡ Ordering.Equal }
    ensures symbol { (a b : Symbol) → ⟦<Symbol as Ord>⟧.cmp a b ≡ Ordering.Equal }
    ensures any { (a b : Any) → ⟦<Any as Ord>⟧.cmp a b ≡ Ordering.Equal }
    ensures boolean { (a b : Boolean) → ⟦<Boolean as Ord>⟧.cmp a b ≡ Ordering.Equal }
    ensures byte { (a b : Byte) → ⟦<Byte as Ord>⟧.cmp a b ≡ Ordering.Equal }
    ensures double { (a b : Double) → ⟦<Double as Ord>⟧.cmp a b ≡ Ordering.Equal }
    ensures false_ { (a b : False) → ⟦<False as Ord>⟧.cmp a b ≡ Ordering.Equal }
    ensures float { (a b : Float) → ⟦<Float as Ord>⟧.cmp a b ≡ Ordering.Equal }
    ensures long { (a b : Long) → ⟦<Long as Ord>⟧.cmp a b ≡ Ordering.Equal }
    ensures null { (a b : Null) → ⟦<Null as Ord>⟧.cmp a b ≡ Ordering.Equal }
    ensures object { (a b : Object) → ⟦<Object as Ord>⟧.cmp a b ≡ Ordering.Equal }
    ensures octet { (a b : Octet) → ⟦<Octet as Ord>⟧.cmp a b ≡ Ordering.Equal }
    ensures sequence { (a b : Sequence) → ⟦<Sequence as Ord>⟧.cmp a b ≡ Ordering.Equal }
    ensures short { (a b : Short) → ⟦<Short as Ord>⟧.cmp a b ≡ Ordering.Equal }
    ensures true_ { (a b : True) → ⟦<True as Ord>⟧.cmp a b ≡ Ordering.Equal }
    ensures unsigned { (a b : Unsigned) → ⟦<Unsigned as Ord>⟧.cmp a b ≡ Ordering.Equal }
    ensures undefined { (a b : Undefined) → ⟦<Undefined as Ord>⟧.cmp a b ≡ Ordering.Equal }
    ensures record { (a b : Record) → ⟦<Record as Ord>⟧.cmp a b ≡ Ordering.Equal }
{}

/// A law, which does nothing: the default of each of the keywords with capitals is its one value.
pub fn defaults_of_capitalized_keywords()
    ensures byte_string { (v : ByteString) → ⟦<ByteString as Default>⟧.is_default v
        ↔ v ≡ record {} }
    ensures dom_string { (v : DOMString) → ⟦<DOMString as Default>⟧.is_default v ↔ v ≡ record {} }
    ensures frozen_array { (v : FrozenArray) → ⟦<FrozenArray as Default>⟧.is_default v
        ↔ v ≡ record {} }
    ensures infinity { (v : Infinity) → ⟦<Infinity as Default>⟧.is_default v ↔ v ≡ record {} }
    ensures nan { (v : NaN) → ⟦<NaN as Default>⟧.is_default v ↔ v ≡ record {} }
    ensures usv_string { (v : USVString) → ⟦<USVString as Default>⟧.is_default v ↔ v ≡ record {} }
    ensures array_buffer { (v : ArrayBuffer) → ⟦<ArrayBuffer as Default>⟧.is_default v
        ↔ v ≡ record {} }
    ensures data_view { (v : DataView) → ⟦<DataView as Default>⟧.is_default v ↔ v ≡ record {} }
    ensures int8_array { (v : Int8Array) → ⟦<Int8Array as Default>⟧.is_default v ↔ v ≡ record {} }
    ensures int16_array { (v : Int16Array) → ⟦<Int16Array as Default>⟧.is_default v
        ↔ v ≡ record {} }
    ensures int32_array { (v : Int32Array) → ⟦<Int32Array as Default>⟧.is_default v
        ↔ v ≡ record {} }
    ensures uint8_array { (v : Uint8Array) → ⟦<Uint8Array as Default>⟧.is_default v
        ↔ v ≡ record {} }
    ensures uint16_array { (v : Uint16Array) → ⟦<Uint16Array as Default>⟧.is_default v
        ↔ v ≡ record {} }
    ensures uint32_array { (v : Uint32Array) → ⟦<Uint32Array as Default>⟧.is_default v
        ↔ v ≡ record {} }
    ensures uint8_clamped_array { (v : Uint8ClampedArray)
        → ⟦<Uint8ClampedArray as Default>⟧.is_default v ↔ v ≡ record {} }
    ensures float32_array { (v : Float32Array) → ⟦<Float32Array as Default>⟧.is_default v
        ↔ v ≡ record {} }
    ensures float64_array { (v : Float64Array) → ⟦<Float64Array as Default>⟧.is_default v
        ↔ v ≡ record {} }
    ensures array_buffer_view { (v : ArrayBufferView) → ⟦<ArrayBufferView as Default>⟧.is_default v
        ↔ v ≡ record {} }
    ensures buffer_source { (v : BufferSource) → ⟦<BufferSource as Default>⟧.is_default v
        ↔ v ≡ record {} }
    ensures promise { (v : Promise) → ⟦<Promise as Default>⟧.is_default v ↔ v ≡ record {} }
    ensures error { (v : Error) → ⟦<Error as Default>⟧.is_default v ↔ v ≡ record {} }
    ensures neg_infinity { (v : NegInfinity) → ⟦<NegInfinity as Default>⟧.is_default v
        ↔ v ≡ record {} }
{}

/// A law, which does nothing: of two values of one of the keywords with capitals neither comes
/// before the other.
pub fn orders_of_capitalized_keywords()
    ensures byte_string { (a b : ByteString) → ⟦<ByteString as Ord>⟧.cmp a b ≡ Ordering.Equal }
    ensures dom_string { (a b : DOMString) → ⟦<DOMString as Ord>⟧.cmp a b ≡ Ordering.Equal }
    ensures frozen_array { (a b : FrozenArray) → ⟦<FrozenArray as Ord>⟧.cmp a b ≡ Ordering.Equal }
    ensures infinity { (a b : Infinity) → ⟦<Infinity as Ord>⟧.cmp a b ≡ Ordering.Equal }
    ensures nan { (a b : NaN) → ⟦<NaN as Ord>⟧.cmp a b ≡ Ordering.Equal }
    ensures usv_string { (a b : USVString) → ⟦<USVString as Ord>⟧.cmp a b ≡ Ordering.Equal }
    ensures array_buffer { (a b : ArrayBuffer) → ⟦<ArrayBuffer as Ord>⟧.cmp a b ≡ Ordering.Equal }
    ensures data_view { (a b : DataView) → ⟦<DataView as Ord>⟧.cmp a b ≡ Ordering.Equal }
    ensures int8_array { (a b : Int8Array) → ⟦<Int8Array as Ord>⟧.cmp a b ≡ Ordering.Equal }
    ensures int16_array { (a b : Int16Array) → ⟦<Int16Array as Ord>⟧.cmp a b ≡ Ordering.Equal }
    ensures int32_array { (a b : Int32Array) → ⟦<Int32Array as Ord>⟧.cmp a b ≡ Ordering.Equal }
    ensures uint8_array { (a b : Uint8Array) → ⟦<Uint8Array as Ord>⟧.cmp a b ≡ Ordering.Equal }
    ensures uint16_array { (a b : Uint16Array) → ⟦<Uint16Array as Ord>⟧.cmp a b ≡ Ordering.Equal }
    ensures uint32_array { (a b : Uint32Array) → ⟦<Uint32Array as Ord>⟧.cmp a b ≡ Ordering.Equal }
    ensures uint8_clamped_array { (a b : Uint8ClampedArray)
        → ⟦<Uint8ClampedArray as Ord>⟧.cmp a b ≡ Ordering.Equal }
    ensures float32_array { (a b : Float32Array)
        → ⟦<Float32Array as Ord>⟧.cmp a b ≡ Ordering.Equal }
    ensures float64_array { (a b : Float64Array)
        → ⟦<Float64Array as Ord>⟧.cmp a b ≡ Ordering.Equal }
    ensures array_buffer_view { (a b : ArrayBufferView)
        → ⟦<ArrayBufferView as Ord>⟧.cmp a b ≡ Ordering.Equal }
    ensures buffer_source { (a b : BufferSource)
        → ⟦<BufferSource as Ord>⟧.cmp a b ≡ Ordering.Equal }
    ensures promise { (a b : Promise) → ⟦<Promise as Ord>⟧.cmp a b ≡ Ordering.Equal }
    ensures error { (a b : Error) → ⟦<Error as Ord>⟧.cmp a b ≡ Ordering.Equal }
    ensures neg_infinity { (a b : NegInfinity) → ⟦<NegInfinity as Ord>⟧.cmp a b ≡ Ordering.Equal }
{}
