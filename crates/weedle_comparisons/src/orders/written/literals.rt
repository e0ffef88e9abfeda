//! Orders of literals and defaults.
//!
//! Written by tools/orders.py, and not edited by hand.

ghost use Rattle.std.specs.Prelude.{◌≡◌, ◌<◌};
ghost use Rattle.std.specs.Ordering.{ordering_then};
ghost use Rattle.weedle_comparisons.specs.written.Places.{
  float_lit_place,
  integer_lit_place,
  default_value_place,
  const_value_place,
};

use std::cmp::Ordering;
use weedle_base::term::{
    Assign, CloseBrace, CloseBracket, Infinity, NaN, NegInfinity, Null, OpenBrace, OpenBracket,
};
use weedle_parts::literal::{
    BooleanLit, ConstValue, DecLit, Default, DefaultValue, EmptyArrayLit, EmptyDictionaryLit,
    FloatLit, FloatValueLit, HexLit, IntegerLit, OctLit, StringLit,
};

/// A law, which does nothing: `cmp` of `BooleanLit` goes by its fields, in order.
pub fn boolean_lit()
    ensures { (a b : BooleanLit)
        → ⟦<BooleanLit as Ord>⟧.cmp a b
        ≡ ⟦<bool as Ord>⟧.cmp a.0 b.0 }
{}

/// A law, which does nothing: `cmp` of `Default` goes by its fields, in order.
pub fn default<'a>()
    ensures { (a b : Default)
        → ⟦<Default<'a> as Ord>⟧.cmp a b
        ≡ ordering_then (⟦<Assign as Ord>⟧.cmp a.assign b.assign)
        (⟦<DefaultValue<'a> as Ord>⟧.cmp a.value b.value) }
{}

/// A law, which does nothing: `cmp` of `EmptyArrayLit` goes by its fields, in order.
pub fn empty_array_lit()
    ensures { (a b : EmptyArrayLit)
        → ⟦<EmptyArrayLit as Ord>⟧.cmp a b
        ≡ ordering_then (⟦<OpenBracket as Ord>⟧.cmp a.open_bracket b.open_bracket)
        (⟦<CloseBracket as Ord>⟧.cmp a.close_bracket b.close_bracket) }
{}

/// A law, which does nothing: `cmp` of `EmptyDictionaryLit` goes by its fields, in order.
pub fn empty_dictionary_lit()
    ensures { (a b : EmptyDictionaryLit)
        → ⟦<EmptyDictionaryLit as Ord>⟧.cmp a b
        ≡ ordering_then (⟦<OpenBrace as Ord>⟧.cmp a.open_brace b.open_brace)
        (⟦<CloseBrace as Ord>⟧.cmp a.close_brace b.close_brace) }
{}

/// A law, which does nothing: `cmp` of `FloatValueLit` goes by its fields, in order.
pub fn float_value_lit<'a>()
    ensures { (a b : FloatValueLit)
        → ⟦<FloatValueLit<'a> as Ord>⟧.cmp a b
        ≡ ⟦<&'a str as Ord>⟧.cmp a.0 b.0 }
{}

/// A law, which does nothing: `cmp` of `FloatLit` goes by its variants, and of one variant by what
/// it holds.
pub fn float_lit<'a>()
    ensures earlier { (a b : FloatLit)
        → float_lit_place a < float_lit_place b
        → ⟦<FloatLit<'a> as Ord>⟧.cmp a b ≡ Ordering.Less }
    ensures later { (a b : FloatLit)
        → float_lit_place b < float_lit_place a
        → ⟦<FloatLit<'a> as Ord>⟧.cmp a b ≡ Ordering.Greater }
    ensures value { (a b : FloatValueLit)
        → ⟦<FloatLit<'a> as Ord>⟧.cmp (FloatLit.Value a) (FloatLit.Value b)
        ≡ ⟦<FloatValueLit<'a> as Ord>⟧.cmp a b }
    ensures neg_infinity { (a b : NegInfinity)
        → ⟦<FloatLit<'a> as Ord>⟧.cmp (FloatLit.NegInfinity a) (FloatLit.NegInfinity b)
        ≡ ⟦<NegInfinity as Ord>⟧.cmp a b }
    ensures infinity { (a b : Infinity)
        → ⟦<FloatLit<'a> as Ord>⟧.cmp (FloatLit.Infinity a) (FloatLit.Infinity b)
        ≡ ⟦<Infinity as Ord>⟧.cmp a b }
    ensures nan { (a b : NaN)
        → ⟦<FloatLit<'a> as Ord>⟧.cmp (FloatLit.NaN a) (FloatLit.NaN b)
        ≡ ⟦<NaN as Ord>⟧.cmp a b }
{}

/// A law, which does nothing: `cmp` of `DecLit` goes by its fields, in order.
pub fn dec_lit<'a>()
    ensures { (a b : DecLit)
        → ⟦<DecLit<'a> as Ord>⟧.cmp a b
        ≡ ⟦<&'a str as Ord>⟧.cmp a.0 b.0 }
{}

/// A law, which does nothing: `cmp` of `HexLit` goes by its fields, in order.
pub fn hex_lit<'a>()
    ensures { (a b : HexLit)
        → ⟦<HexLit<'a> as Ord>⟧.cmp a b
        ≡ ⟦<&'a str as Ord>⟧.cmp a.0 b.0 }
{}

/// A law, which does nothing: `cmp` of `OctLit` goes by its fields, in order.
pub fn oct_lit<'a>()
    ensures { (a b : OctLit)
        → ⟦<OctLit<'a> as Ord>⟧.cmp a b
        ≡ ⟦<&'a str as Ord>⟧.cmp a.0 b.0 }
{}

/// A law, which does nothing: `cmp` of `IntegerLit` goes by its variants, and of one variant by
/// what it holds.
pub fn integer_lit<'a>()
    ensures earlier { (a b : IntegerLit)
        → integer_lit_place a < integer_lit_place b
        → ⟦<IntegerLit<'a> as Ord>⟧.cmp a b ≡ Ordering.Less }
    ensures later { (a b : IntegerLit)
        → integer_lit_place b < integer_lit_place a
        → ⟦<IntegerLit<'a> as Ord>⟧.cmp a b ≡ Ordering.Greater }
    ensures dec { (a b : DecLit)
        → ⟦<IntegerLit<'a> as Ord>⟧.cmp (IntegerLit.Dec a) (IntegerLit.Dec b)
        ≡ ⟦<DecLit<'a> as Ord>⟧.cmp a b }
    ensures hex { (a b : HexLit)
        → ⟦<IntegerLit<'a> as Ord>⟧.cmp (IntegerLit.Hex a) (IntegerLit.Hex b)
        ≡ ⟦<HexLit<'a> as Ord>⟧.cmp a b }
    ensures oct { (a b : OctLit)
        → ⟦<IntegerLit<'a> as Ord>⟧.cmp (IntegerLit.Oct a) (IntegerLit.Oct b)
        ≡ ⟦<OctLit<'a> as Ord>⟧.cmp a b }
{}

/// A law, which does nothing: `cmp` of `StringLit` goes by its fields, in order.
pub fn string_lit<'a>()
    ensures { (a b : StringLit)
        → ⟦<StringLit<'a> as Ord>⟧.cmp a b
        ≡ ⟦<&'a str as Ord>⟧.cmp a.0 b.0 }
{}

/// A law, which does nothing: `cmp` of `DefaultValue` goes by its variants, and of one variant by
/// what it holds.
pub fn default_value<'a>()
    ensures earlier { (a b : DefaultValue)
        → default_value_place a < default_value_place b
        → ⟦<DefaultValue<'a> as Ord>⟧.cmp a b ≡ Ordering.Less }
    ensures later { (a b : DefaultValue)
        → default_value_place b < default_value_place a
        → ⟦<DefaultValue<'a> as Ord>⟧.cmp a b ≡ Ordering.Greater }
    ensures boolean { (a b : BooleanLit)
        → ⟦<DefaultValue<'a> as Ord>⟧.cmp (DefaultValue.Boolean a) (DefaultValue.Boolean b)
        ≡ ⟦<BooleanLit as Ord>⟧.cmp a b }
    ensures empty_array { (a b : EmptyArrayLit)
        → ⟦<DefaultValue<'a> as Ord>⟧.cmp (DefaultValue.EmptyArray a) (DefaultValue.EmptyArray b)
        ≡ ⟦<EmptyArrayLit as Ord>⟧.cmp a b }
    ensures empty_dictionary { (a b : EmptyDictionaryLit)
        → ⟦<DefaultValue<'a> as Ord>⟧.cmp (DefaultValue.EmptyDictionary a)
        (DefaultValue.EmptyDictionary b)
        ≡ ⟦<EmptyDictionaryLit as Ord>⟧.cmp a b }
    ensures float { (a b : FloatLit)
        → ⟦<DefaultValue<'a> as Ord>⟧.cmp (DefaultValue.Float a) (DefaultValue.Float b)
        ≡ ⟦<FloatLit<'a> as Ord>⟧.cmp a b }
    ensures integer { (a b : IntegerLit)
        → ⟦<DefaultValue<'a> as Ord>⟧.cmp (DefaultValue.Integer a) (DefaultValue.Integer b)
        ≡ ⟦<IntegerLit<'a> as Ord>⟧.cmp a b }
    ensures null { (a b : Null)
        → ⟦<DefaultValue<'a> as Ord>⟧.cmp (DefaultValue.Null a) (DefaultValue.Null b)
        ≡ ⟦<Null as Ord>⟧.cmp a b }
    ensures string { (a b : StringLit)
        → ⟦<DefaultValue<'a> as Ord>⟧.cmp (DefaultValue.String a) (DefaultValue.String b)
        ≡ ⟦<StringLit<'a> as Ord>⟧.cmp a b }
{}

/// A law, which does nothing: `cmp` of `ConstValue` goes by its variants, and of one variant by
/// what it holds.
pub fn const_value<'a>()
    ensures earlier { (a b : ConstValue)
        → const_value_place a < const_value_place b
        → ⟦<ConstValue<'a> as Ord>⟧.cmp a b ≡ Ordering.Less }
    ensures later { (a b : ConstValue)
        → const_value_place b < const_value_place a
        → ⟦<ConstValue<'a> as Ord>⟧.cmp a b ≡ Ordering.Greater }
    ensures boolean { (a b : BooleanLit)
        → ⟦<ConstValue<'a> as Ord>⟧.cmp (ConstValue.Boolean a) (ConstValue.Boolean b)
        ≡ ⟦<BooleanLit as Ord>⟧.cmp a b }
    ensures float { (a b : FloatLit)
        → ⟦<ConstValue<'a> as Ord>⟧.cmp (ConstValue.Float a) (ConstValue.Float b)
        ≡ ⟦<FloatLit<'a> as Ord>⟧.cmp a b }
    ensures integer { (a b : IntegerLit)
        → ⟦<ConstValue<'a> as Ord>⟧.cmp (ConstValue.Integer a) (ConstValue.Integer b)
        ≡ ⟦<IntegerLit<'a> as Ord>⟧.cmp a b }
    ensures null { (a b : Null)
        → ⟦<ConstValue<'a> as Ord>⟧.cmp (ConstValue.Null a) (ConstValue.Null b)
        ≡ ⟦<Null as Ord>⟧.cmp a b }
{}
