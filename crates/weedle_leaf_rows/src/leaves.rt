//! Names, numbers, strings, docstrings and values, each by its own `parse`, which takes no memory
//! except for docstrings.
//!
//! The values are those that weedle2 prints, in the port's names. Names that begin with a digit and
//! `0x`, which it reads, are refused here, by hand from the grammar.

use std::test::Fail;
use weedle_base::term::{Comma, NegInfinity, Null, Or};
use weedle_parts::common::{Docstring, Generics, Identifier, Parenthesized};
use weedle_parts::literal::{
    BooleanLit, ConstValue, DecLit, Default, DefaultValue, EmptyArrayLit, EmptyDictionaryLit,
    FloatLit, FloatValueLit, HexLit, IntegerLit, OctLit, StringLit,
};
use weedle_testing::{Wanted, reads_with_no_memory};

#[test]
fn no_number_takes_memory(rt: HostRuntime) -> Result<(), Fail> {
    let alloc = rt.alloc();
    reads_with_no_memory::<DecLit<'_>>(
        alloc,
        &[
            // Integers are decimal hexadecimal or octal.
            (" -12 x", "x", r#"DecLit("-12")"#),
            ("-12", "", r#"DecLit("-12")"#),
        ],
        &[],
    )?;
    reads_with_no_memory::<HexLit<'_>>(
        alloc,
        &[
            // Integers are decimal hexadecimal or octal.
            ("0x1;", ";", r#"HexLit("0x1")"#),
            ("0x1", "", r#"HexLit("0x1")"#),
        ],
        &["0x;"],
    )?;
    reads_with_no_memory::<OctLit<'_>>(
        alloc,
        &[
            // Integers are decimal hexadecimal or octal.
            ("017", "", r#"OctLit("017")"#),
        ],
        &[],
    )?;
    reads_with_no_memory::<IntegerLit<'_>>(
        alloc,
        &[
            // Integers are decimal hexadecimal or octal.
            ("45", "", r#"Dec(DecLit("45"))"#),
            ("08", "8", r#"Oct(OctLit("0"))"#),
            ("-0", "", r#"Oct(OctLit("-0"))"#),
            ("0Xff", "", r#"Hex(HexLit("0Xff"))"#),
            // A hexadecimal number has a digit.
            ("0x;", "x;", r#"Oct(OctLit("0"))"#),
            ("-0x", "x", r#"Oct(OctLit("-0"))"#),
        ],
        &[],
    )?;
    reads_with_no_memory::<FloatValueLit<'_>>(
        alloc,
        &[
            // A float has a point or an exponent.
            ("-.5E+3x", "x", r#"FloatValueLit("-.5E+3")"#),
            ("1e3", "", r#"FloatValueLit("1e3")"#),
            ("5.", "", r#"FloatValueLit("5.")"#),
            ("1.5e", "e", r#"FloatValueLit("1.5")"#),
        ],
        &["5", "."],
    )?;
    reads_with_no_memory::<FloatLit<'_>>(
        alloc,
        &[
            // A float has a point or an exponent.
            ("1.5e", "e", r#"Value(FloatValueLit("1.5"))"#),
            ("1.5", "", r#"Value(FloatValueLit("1.5"))"#),
            ("NaN", "", "NaN(NaN)"),
        ],
        &[],
    )?;
    assert!(rt; Wanted::new().tell(&rt, alloc));
    Ok(())
}

#[test]
fn no_name_and_no_value_takes_memory(rt: HostRuntime) -> Result<(), Fail> {
    let alloc = rt.alloc();
    reads_with_no_memory::<Identifier<'_>>(
        alloc,
        &[
            // A name is kept without its underscore.
            ("_a9-b c", "c", r#"Identifier("a9-b")"#),
            // A name is kept without its underscore.
            ("_interface", "", r#"Identifier("interface")"#),
            // A copy of a part equals it.
            ("a", "", r#"Identifier("a")"#),
            ("_a", "", r#"Identifier("a")"#),
        ],
        &["__x", "_9a-b c", "9", "-a", "é"],
    )?;
    reads_with_no_memory::<StringLit<'_>>(
        alloc,
        &[
            // A string is kept without its quotes.
            ("\"a\nb\" c", "c", "StringLit(\"a\\nb\")"),
            (r#""a""#, "", r#"StringLit("a")"#),
        ],
        &[r#""a"#],
    )?;
    reads_with_no_memory::<BooleanLit>(
        alloc,
        &[
            // Values are tried in order.
            ("false x", "x", "BooleanLit(false)"),
            ("true", "", "BooleanLit(true)"),
        ],
        &[],
    )?;
    reads_with_no_memory::<EmptyArrayLit>(
        alloc,
        &[(
            "[ ]",
            "",
            "EmptyArrayLit { open_bracket: OpenBracket, close_bracket: CloseBracket }",
        )],
        &[],
    )?;
    reads_with_no_memory::<EmptyDictionaryLit>(
        alloc,
        &[
            // Values are tried in order.
            (
                "{ }x",
                "x",
                "EmptyDictionaryLit { open_brace: OpenBrace, close_brace: CloseBrace }",
            ),
            (
                "{ }",
                "",
                "EmptyDictionaryLit { open_brace: OpenBrace, close_brace: CloseBrace }",
            ),
        ],
        &[],
    )?;
    reads_with_no_memory::<DefaultValue<'_>>(
        alloc,
        &[
            // Values are tried in order.
            ("-0x1F", "", r#"Integer(Hex(HexLit("-0x1F")))"#),
            (
                "[ ]",
                "",
                "EmptyArray(EmptyArrayLit { open_bracket: OpenBracket, close_bracket: \
                 CloseBracket })",
            ),
            (r#""a""#, "", r#"String(StringLit("a"))"#),
            ("null", "", "Null(Null)"),
        ],
        &["truex"],
    )?;
    reads_with_no_memory::<ConstValue<'_>>(
        alloc,
        &[
            // Constants have no plus infinity.
            ("-Infinity", "", "Float(NegInfinity(NegInfinity))"),
            ("1e3", "", r#"Float(Value(FloatValueLit("1e3")))"#),
        ],
        &["+Infinity"],
    )?;
    reads_with_no_memory::<Default<'_>>(
        alloc,
        &[
            // Values are tried in order.
            (
                "= true",
                "",
                "Default { assign: Assign, value: Boolean(BooleanLit(true)) }",
            ),
        ],
        &[],
    )?;
    assert!(rt; Wanted::new().tell(&rt, alloc));
    Ok(())
}

#[test]
fn docstrings_are_read_and_copied_or_want_memory(rt: HostRuntime) -> Result<(), Fail> {
    let alloc = rt.alloc();
    let mut wanted = Wanted::new();
    wanted.reads::<Docstring>(
        alloc,
        &[
            // A docstring holds its lines.
            ("///a\n ///b\nx", "x", "Docstring(\"a\\nb\")"),
            ("///a\r\nx", "x", "Docstring(\"a\\r\")"),
            ("///a\n y", " y", r#"Docstring("a")"#),
            ("///a\n ///b\n", "", "Docstring(\"a\\nb\")"),
            ("///\n", "", r#"Docstring("")"#),
        ],
        &["///a"],
    )?;
    assert!(rt; wanted.tell(&rt, alloc));
    Ok(())
}

#[test]
fn no_default_and_no_conversion_takes_memory(rt: HostRuntime) {
    assert_eq!(rt; <Comma as std::default::Default>::default(), Comma);
    assert_eq!(rt;
        <Parenthesized<Or> as std::default::Default>::default().body,
        Or
    );
    assert_eq!(rt; <Generics<Or> as std::default::Default>::default().body, Or);
    assert!(rt; IntegerLit::from(OctLit("0")) == IntegerLit::Oct(OctLit("0")));
    assert!(rt; FloatLit::from(NegInfinity) == FloatLit::NegInfinity(NegInfinity));
    assert!(rt; DefaultValue::from(StringLit("a")) == DefaultValue::String(StringLit("a")));
    assert!(rt; DefaultValue::from(Null) == DefaultValue::Null(Null));
    assert!(rt; ConstValue::from(BooleanLit(true)) == ConstValue::Boolean(BooleanLit(true)));
    assert!(rt; Wanted::new().tell(&rt, rt.alloc()));
}
