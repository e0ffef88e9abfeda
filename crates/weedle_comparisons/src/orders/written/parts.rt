//! Orders of generic parts, names, docstrings and plain types.
//!
//! Written by tools/orders.py, and not edited by hand.

ghost use Rattle.std.specs.Prelude.{◌≡◌, ◌<◌};
ghost use Rattle.std.specs.Ordering.{ordering_then};
ghost use Rattle.weedle_comparisons.specs.written.Places.{
  const_type_place,
  floating_point_type_place,
  integer_type_place,
};

use std::cmp::Ordering;
use weedle_base::term::{
    Boolean, Byte, CloseBrace, CloseBracket, CloseParen, Double, Float, GreaterThan, LessThan,
    Long, Octet, OpenBrace, OpenBracket, OpenParen, QMark, Short, Unrestricted, Unsigned,
};
use weedle_parts::common::{
    Braced, Bracketed, Docstring, Generics, Identifier, Parenthesized, Punctuated,
    PunctuatedNonEmpty,
};
use weedle_parts::types::{
    ConstType, DoubleType, FloatType, FloatingPointType, IntegerType, LongLongType, LongType,
    MayBeNull, ShortType,
};

/// A law, which does nothing: `cmp` of `Parenthesized` goes by its fields, in order.
pub fn parenthesized<T: Ord>()
    ensures { (a b : Parenthesized T)
        → ⟦<Parenthesized<T> as Ord>⟧.cmp a b
        ≡ ordering_then (⟦<OpenParen as Ord>⟧.cmp a.open_paren b.open_paren)
        (ordering_then (T.cmp a.body b.body)
        (⟦<CloseParen as Ord>⟧.cmp a.close_paren b.close_paren)) }
{}

/// A law, which does nothing: `cmp` of `Bracketed` goes by its fields, in order.
pub fn bracketed<T: Ord>()
    ensures { (a b : Bracketed T)
        → ⟦<Bracketed<T> as Ord>⟧.cmp a b
        ≡ ordering_then (⟦<OpenBracket as Ord>⟧.cmp a.open_bracket b.open_bracket)
        (ordering_then (T.cmp a.body b.body)
        (⟦<CloseBracket as Ord>⟧.cmp a.close_bracket b.close_bracket)) }
{}

/// A law, which does nothing: `cmp` of `Braced` goes by its fields, in order.
pub fn braced<T: Ord>()
    ensures { (a b : Braced T)
        → ⟦<Braced<T> as Ord>⟧.cmp a b
        ≡ ordering_then (⟦<OpenBrace as Ord>⟧.cmp a.open_brace b.open_brace)
        (ordering_then (T.cmp a.body b.body)
        (⟦<CloseBrace as Ord>⟧.cmp a.close_brace b.close_brace)) }
{}

/// A law, which does nothing: `cmp` of `Generics` goes by its fields, in order.
pub fn generics<T: Ord>()
    ensures { (a b : Generics T)
        → ⟦<Generics<T> as Ord>⟧.cmp a b
        ≡ ordering_then (⟦<LessThan as Ord>⟧.cmp a.open_angle b.open_angle)
        (ordering_then (T.cmp a.body b.body)
        (⟦<GreaterThan as Ord>⟧.cmp a.close_angle b.close_angle)) }
{}

/// A law, which does nothing: `cmp` of `Docstring` goes by its fields, in order.
pub fn docstring()
    ensures { (a b : Docstring)
        → ⟦<Docstring as Ord>⟧.cmp a b
        ≡ ⟦<String as Ord>⟧.cmp a.0 b.0 }
{}

/// A law, which does nothing: `cmp` of `Identifier` goes by its fields, in order.
pub fn identifier<'a>()
    ensures { (a b : Identifier)
        → ⟦<Identifier<'a> as Ord>⟧.cmp a b
        ≡ ⟦<&'a str as Ord>⟧.cmp a.0 b.0 }
{}

/// A law, which does nothing: `cmp` of `Punctuated` goes by its fields, in order.
pub fn punctuated<T: Ord, S: Ord>()
    ensures { (a b : Punctuated T S)
        → ⟦<Punctuated<T, S> as Ord>⟧.cmp a b
        ≡ ordering_then (⟦<Vec<T> as Ord>⟧.cmp a.list b.list)
        (S.cmp a.separator b.separator) }
{}

/// A law, which does nothing: `cmp` of `PunctuatedNonEmpty` goes by its fields, in order.
pub fn punctuated_non_empty<T: Ord, S: Ord>()
    ensures { (a b : PunctuatedNonEmpty T S)
        → ⟦<PunctuatedNonEmpty<T, S> as Ord>⟧.cmp a b
        ≡ ordering_then (⟦<Vec<T> as Ord>⟧.cmp a.list b.list)
        (S.cmp a.separator b.separator) }
{}

/// A law, which does nothing: `cmp` of `ConstType` goes by its variants, and of one variant by what
/// it holds.
pub fn const_type<'a>()
    ensures earlier { (a b : ConstType)
        → const_type_place a < const_type_place b
        → ⟦<ConstType<'a> as Ord>⟧.cmp a b ≡ Ordering.Less }
    ensures later { (a b : ConstType)
        → const_type_place b < const_type_place a
        → ⟦<ConstType<'a> as Ord>⟧.cmp a b ≡ Ordering.Greater }
    ensures integer { (a b : MayBeNull IntegerType)
        → ⟦<ConstType<'a> as Ord>⟧.cmp (ConstType.Integer a) (ConstType.Integer b)
        ≡ ⟦<MayBeNull<IntegerType> as Ord>⟧.cmp a b }
    ensures floating_point { (a b : MayBeNull FloatingPointType)
        → ⟦<ConstType<'a> as Ord>⟧.cmp (ConstType.FloatingPoint a) (ConstType.FloatingPoint b)
        ≡ ⟦<MayBeNull<FloatingPointType> as Ord>⟧.cmp a b }
    ensures boolean { (a b : MayBeNull Boolean)
        → ⟦<ConstType<'a> as Ord>⟧.cmp (ConstType.Boolean a) (ConstType.Boolean b)
        ≡ ⟦<MayBeNull<Boolean> as Ord>⟧.cmp a b }
    ensures byte { (a b : MayBeNull Byte)
        → ⟦<ConstType<'a> as Ord>⟧.cmp (ConstType.Byte a) (ConstType.Byte b)
        ≡ ⟦<MayBeNull<Byte> as Ord>⟧.cmp a b }
    ensures octet { (a b : MayBeNull Octet)
        → ⟦<ConstType<'a> as Ord>⟧.cmp (ConstType.Octet a) (ConstType.Octet b)
        ≡ ⟦<MayBeNull<Octet> as Ord>⟧.cmp a b }
    ensures identifier { (a b : MayBeNull Identifier)
        → ⟦<ConstType<'a> as Ord>⟧.cmp (ConstType.Identifier a) (ConstType.Identifier b)
        ≡ ⟦<MayBeNull<Identifier<'a>> as Ord>⟧.cmp a b }
{}

/// A law, which does nothing: `cmp` of `FloatType` goes by its fields, in order.
pub fn float_type()
    ensures { (a b : FloatType)
        → ⟦<FloatType as Ord>⟧.cmp a b
        ≡ ordering_then (⟦<Option<Unrestricted> as Ord>⟧.cmp a.unrestricted b.unrestricted)
        (⟦<Float as Ord>⟧.cmp a.float b.float) }
{}

/// A law, which does nothing: `cmp` of `DoubleType` goes by its fields, in order.
pub fn double_type()
    ensures { (a b : DoubleType)
        → ⟦<DoubleType as Ord>⟧.cmp a b
        ≡ ordering_then (⟦<Option<Unrestricted> as Ord>⟧.cmp a.unrestricted b.unrestricted)
        (⟦<Double as Ord>⟧.cmp a.double b.double) }
{}

/// A law, which does nothing: `cmp` of `FloatingPointType` goes by its variants, and of one variant
/// by what it holds.
pub fn floating_point_type()
    ensures earlier { (a b : FloatingPointType)
        → floating_point_type_place a < floating_point_type_place b
        → ⟦<FloatingPointType as Ord>⟧.cmp a b ≡ Ordering.Less }
    ensures later { (a b : FloatingPointType)
        → floating_point_type_place b < floating_point_type_place a
        → ⟦<FloatingPointType as Ord>⟧.cmp a b ≡ Ordering.Greater }
    ensures float { (a b : FloatType)
        → ⟦<FloatingPointType as Ord>⟧.cmp (FloatingPointType.Float a) (FloatingPointType.Float b)
        ≡ ⟦<FloatType as Ord>⟧.cmp a b }
    ensures double { (a b : DoubleType)
        → ⟦<FloatingPointType as Ord>⟧.cmp (FloatingPointType.Double a)
        (FloatingPointType.Double b)
        ≡ ⟦<DoubleType as Ord>⟧.cmp a b }
{}

/// A law, which does nothing: `cmp` of `LongLongType` goes by its fields, in order.
pub fn long_long_type()
    ensures { (a b : LongLongType)
        → ⟦<LongLongType as Ord>⟧.cmp a b
        ≡ ordering_then (⟦<Option<Unsigned> as Ord>⟧.cmp a.unsigned b.unsigned)
        (⟦<(Long, Long) as Ord>⟧.cmp a.long_long b.long_long) }
{}

/// A law, which does nothing: `cmp` of `LongType` goes by its fields, in order.
pub fn long_type()
    ensures { (a b : LongType)
        → ⟦<LongType as Ord>⟧.cmp a b
        ≡ ordering_then (⟦<Option<Unsigned> as Ord>⟧.cmp a.unsigned b.unsigned)
        (⟦<Long as Ord>⟧.cmp a.long b.long) }
{}

/// A law, which does nothing: `cmp` of `ShortType` goes by its fields, in order.
pub fn short_type()
    ensures { (a b : ShortType)
        → ⟦<ShortType as Ord>⟧.cmp a b
        ≡ ordering_then (⟦<Option<Unsigned> as Ord>⟧.cmp a.unsigned b.unsigned)
        (⟦<Short as Ord>⟧.cmp a.short b.short) }
{}

/// A law, which does nothing: `cmp` of `IntegerType` goes by its variants, and of one variant by
/// what it holds.
pub fn integer_type()
    ensures earlier { (a b : IntegerType)
        → integer_type_place a < integer_type_place b
        → ⟦<IntegerType as Ord>⟧.cmp a b ≡ Ordering.Less }
    ensures later { (a b : IntegerType)
        → integer_type_place b < integer_type_place a
        → ⟦<IntegerType as Ord>⟧.cmp a b ≡ Ordering.Greater }
    ensures long_long { (a b : LongLongType)
        → ⟦<IntegerType as Ord>⟧.cmp (IntegerType.LongLong a) (IntegerType.LongLong b)
        ≡ ⟦<LongLongType as Ord>⟧.cmp a b }
    ensures long { (a b : LongType)
        → ⟦<IntegerType as Ord>⟧.cmp (IntegerType.Long a) (IntegerType.Long b)
        ≡ ⟦<LongType as Ord>⟧.cmp a b }
    ensures short { (a b : ShortType)
        → ⟦<IntegerType as Ord>⟧.cmp (IntegerType.Short a) (IntegerType.Short b)
        ≡ ⟦<ShortType as Ord>⟧.cmp a b }
{}

/// A law, which does nothing: `cmp` of `MayBeNull` goes by its fields, in order.
pub fn may_be_null<T: Ord>()
    ensures { (a b : MayBeNull T)
        → ⟦<MayBeNull<T> as Ord>⟧.cmp a b
        ≡ ordering_then (T.cmp a.type_ b.type_)
        (⟦<Option<QMark> as Ord>⟧.cmp a.q_mark b.q_mark) }
{}
