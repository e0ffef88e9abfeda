//! Types: those that hold no other type, and those that do.

pub use weedle_parts::types::{
    ConstType, DoubleType, FloatType, FloatingPointType, IntegerType, LongLongType, LongType,
    MayBeNull, ShortType,
};
pub use weedle_types::types::{
    AttributedNonAnyType, AttributedType, FrozenArrayType, NonAnyType, PromiseType, RecordKeyType,
    RecordType, RecordTypes, ReturnType, SequenceType, SingleType, Type, UnionMemberType,
    UnionType,
};
