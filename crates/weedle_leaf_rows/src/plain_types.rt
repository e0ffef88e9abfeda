//! Types of numbers and of constants, each by its own `parse`, which takes no memory.
//!
//! The values are those that weedle2 prints, in the port's names.

use std::test::Fail;
use weedle_base::term::Long;
use weedle_parts::types::{
    ConstType, DoubleType, FloatType, FloatingPointType, IntegerType, LongLongType, LongType,
    MayBeNull, ShortType,
};
use weedle_testing::{Wanted, reads_with_no_memory};

#[test]
fn no_type_of_integers_takes_memory(rt: HostRuntime) -> Result<(), Fail> {
    let alloc = rt.alloc();
    reads_with_no_memory::<LongLongType>(
        alloc,
        &[
            // An integer type is read alone.
            (
                "long long",
                "",
                "LongLongType { unsigned: None, long_long: (Long, Long) }",
            ),
        ],
        &[],
    )?;
    reads_with_no_memory::<LongType>(
        alloc,
        &[
            // An integer type is read alone.
            ("long", "", "LongType { unsigned: None, long: Long }"),
        ],
        &[],
    )?;
    reads_with_no_memory::<ShortType>(
        alloc,
        &[
            // An integer type is read alone.
            ("short", "", "ShortType { unsigned: None, short: Short }"),
            (
                "unsigned short",
                "",
                "ShortType { unsigned: Some(Unsigned), short: Short }",
            ),
        ],
        &[],
    )?;
    reads_with_no_memory::<IntegerType>(
        alloc,
        &[
            // An integer type is the first that fits.
            (
                "long longx",
                "longx",
                "Long(LongType { unsigned: None, long: Long })",
            ),
            (
                "short",
                "",
                "Short(ShortType { unsigned: None, short: Short })",
            ),
            // A number has its type.
            (
                "long long",
                "",
                "LongLong(LongLongType { unsigned: None, long_long: (Long, Long) })",
            ),
            ("long", "", "Long(LongType { unsigned: None, long: Long })"),
        ],
        &["unsigned x"],
    )?;
    reads_with_no_memory::<MayBeNull<IntegerType>>(
        alloc,
        &[
            // An integer type is the first that fits.
            (
                "unsigned long long ?x",
                "x",
                "MayBeNull { type_: LongLong(LongLongType { unsigned: Some(Unsigned), \
                 long_long: (Long, Long) }), q_mark: Some(QMark) }",
            ),
            // A plain type may be null.
            (
                "short",
                "",
                "MayBeNull { type_: Short(ShortType { unsigned: None, short: Short }), q_mark: \
                 None }",
            ),
            (
                "short?",
                "",
                "MayBeNull { type_: Short(ShortType { unsigned: None, short: Short }), q_mark: \
                 Some(QMark) }",
            ),
        ],
        &[],
    )?;
    assert!(rt; Wanted::new().tell(&rt, alloc));
    Ok(())
}

#[test]
fn no_other_plain_type_takes_memory(rt: HostRuntime) -> Result<(), Fail> {
    let alloc = rt.alloc();
    reads_with_no_memory::<FloatType>(
        alloc,
        &[
            // A floating point type is read alone.
            (
                "float",
                "",
                "FloatType { unrestricted: None, float: Float }",
            ),
        ],
        &[],
    )?;
    reads_with_no_memory::<DoubleType>(
        alloc,
        &[
            // A floating point type is read alone.
            (
                "double",
                "",
                "DoubleType { unrestricted: None, double: Double }",
            ),
        ],
        &[],
    )?;
    reads_with_no_memory::<FloatingPointType>(
        alloc,
        &[
            // A floating point type may be unrestricted.
            (
                "float",
                "",
                "Float(FloatType { unrestricted: None, float: Float })",
            ),
            (
                "unrestricted double",
                "",
                "Double(DoubleType { unrestricted: Some(Unrestricted), double: Double })",
            ),
            // A number has its type.
            (
                "double",
                "",
                "Double(DoubleType { unrestricted: None, double: Double })",
            ),
        ],
        &[],
    )?;
    reads_with_no_memory::<ConstType<'_>>(
        alloc,
        &[
            // A constant has a type that may be null.
            (
                "boolean?",
                "",
                "Boolean(MayBeNull { type_: Boolean, q_mark: Some(QMark) })",
            ),
            (
                "name",
                "",
                r#"Identifier(MayBeNull { type_: Identifier("name"), q_mark: None })"#,
            ),
            (
                "octet",
                "",
                "Octet(MayBeNull { type_: Octet, q_mark: None })",
            ),
            ("byte", "", "Byte(MayBeNull { type_: Byte, q_mark: None })"),
            (
                "short",
                "",
                "Integer(MayBeNull { type_: Short(ShortType { unsigned: None, short: Short }), \
                 q_mark: None })",
            ),
            (
                "float",
                "",
                "FloatingPoint(MayBeNull { type_: Float(FloatType { unrestricted: None, float: \
                 Float }), q_mark: None })",
            ),
            // A constant has one of six types.
            (
                "boolean",
                "",
                "Boolean(MayBeNull { type_: Boolean, q_mark: None })",
            ),
        ],
        &[],
    )?;
    assert!(rt; Wanted::new().tell(&rt, alloc));
    Ok(())
}

#[test]
fn a_member_turns_into_its_variant(rt: HostRuntime) {
    let long = LongType {
        unsigned: None,
        long: Long,
    };
    assert!(rt; IntegerType::from(long) == IntegerType::Long(long));
    let integer = MayBeNull {
        type_: IntegerType::Long(long),
        q_mark: None,
    };
    assert!(rt; ConstType::from(integer) == ConstType::Integer(integer));
}
