//! What follows from the declarations of the module above.
//!
//! Written by tools/impls.py, and not edited by hand.

ghost use Rattle.std.specs.Prelude.{◌≡◌};

mod from_non_any_type;

use super::{
    AttributedNonAnyType, NonAnyType, RecordKeyType, ReturnType, SingleType, Type, UnionMemberType,
    UnionType,
};
use weedle_base::term::{Any, ByteString, DOMString, USVString, Undefined};
use weedle_parts::types::MayBeNull;

impl From<Any> for SingleType<'_> {
    ghost use Rattle.weedle_types.specs.declared.formers.SingleType.TheVariants.{Any};

    ghost from_gives = { λ v e. e ≡ Any v };

    fn from(value: Any) -> Self {
        SingleType::Any(value)
    }
}

impl<'a> From<NonAnyType<'a>> for SingleType<'a> {
    ghost use Rattle.weedle_types.specs.declared.formers.SingleType.TheVariants.{NonAny};

    ghost from_gives = { λ v e. e ≡ NonAny v };

    fn from(value: NonAnyType<'a>) -> Self {
        SingleType::NonAny(value)
    }
}

impl From<ByteString> for RecordKeyType<'_> {
    ghost use Rattle.weedle_types.specs.declared.formers.RecordKeyType.TheVariants.{Byte};

    ghost from_gives = { λ v e. e ≡ Byte v };

    fn from(value: ByteString) -> Self {
        RecordKeyType::Byte(value)
    }
}

impl From<DOMString> for RecordKeyType<'_> {
    ghost use Rattle.weedle_types.specs.declared.formers.RecordKeyType.TheVariants.{DOM};

    ghost from_gives = { λ v e. e ≡ DOM v };

    fn from(value: DOMString) -> Self {
        RecordKeyType::DOM(value)
    }
}

impl From<USVString> for RecordKeyType<'_> {
    ghost use Rattle.weedle_types.specs.declared.formers.RecordKeyType.TheVariants.{USV};

    ghost from_gives = { λ v e. e ≡ USV v };

    fn from(value: USVString) -> Self {
        RecordKeyType::USV(value)
    }
}

impl<'a> From<NonAnyType<'a>> for RecordKeyType<'a> {
    ghost use Rattle.weedle_types.specs.declared.formers.RecordKeyType.TheVariants.{NonAny};

    ghost from_gives = { λ v e. e ≡ NonAny v };

    fn from(value: NonAnyType<'a>) -> Self {
        RecordKeyType::NonAny(value)
    }
}

impl From<Undefined> for ReturnType<'_> {
    ghost use Rattle.weedle_types.specs.declared.formers.ReturnType.TheVariants.{Undefined};

    ghost from_gives = { λ v e. e ≡ Undefined v };

    fn from(value: Undefined) -> Self {
        ReturnType::Undefined(value)
    }
}

impl<'a> From<Type<'a>> for ReturnType<'a> {
    ghost use Rattle.weedle_types.specs.declared.formers.ReturnType.TheVariants.{Type_};

    ghost from_gives = { λ v e. e ≡ Type_ v };

    fn from(value: Type<'a>) -> Self {
        ReturnType::Type_(value)
    }
}

impl<'a> From<SingleType<'a>> for Type<'a> {
    ghost use Rattle.weedle_types.specs.declared.types.«Type».TheVariants.{Single};

    ghost from_gives = { λ v e. e ≡ Single v };

    fn from(value: SingleType<'a>) -> Self {
        Type::Single(value)
    }
}

impl<'a> From<MayBeNull<UnionType<'a>>> for Type<'a> {
    ghost use Rattle.weedle_types.specs.declared.types.«Type».TheVariants.{Union};

    ghost from_gives = { λ v e. e ≡ Union v };

    fn from(value: MayBeNull<UnionType<'a>>) -> Self {
        Type::Union(value)
    }
}

impl<'a> From<AttributedNonAnyType<'a>> for UnionMemberType<'a> {
    ghost use Rattle.weedle_types.specs.declared.types.UnionMemberType.TheVariants.{Single};

    ghost from_gives = { λ v e. e ≡ Single v };

    fn from(value: AttributedNonAnyType<'a>) -> Self {
        UnionMemberType::Single(value)
    }
}

impl<'a> From<MayBeNull<UnionType<'a>>> for UnionMemberType<'a> {
    ghost use Rattle.weedle_types.specs.declared.types.UnionMemberType.TheVariants.{Union};

    ghost from_gives = { λ v e. e ≡ Union v };

    fn from(value: MayBeNull<UnionType<'a>>) -> Self {
        UnionMemberType::Union(value)
    }
}
