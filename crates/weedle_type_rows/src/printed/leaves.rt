//! Leaves, literals and generic parts as they are written, with memory that may be refused. The
//! texts are written by hand, from the layout of docs/LAYOUT.md; which names have an underscore
//! follows from the grammar.

use std::alloc::{AllocError, Global};
use std::process::Abort;
use weedle_base::term::{
    Assign, CloseBrace, CloseBracket, Comma, GreaterThan, Interface, LessThan, Long, NegInfinity,
    OpenBrace, OpenBracket, QMark, SemiColon, Unsigned,
};
use weedle_parts::common::{Braced, Docstring, Generics, Identifier, PunctuatedNonEmpty};
use weedle_parts::literal::{
    BooleanLit, DecLit, Default, DefaultValue, EmptyArrayLit, EmptyDictionaryLit, FloatLit,
    FloatValueLit, HexLit, OctLit, StringLit,
};
use weedle_parts::types::{ConstType, IntegerType, LongLongType, LongType, MayBeNull};
use weedle_print::{Nullable, Print, PrintError, Reserved, Words, printed};
use weedle_testing::Wanted;

/// Asserts that a value is written as this text behind what is there, or that memory for it is
/// refused and nothing is written.
fn writes<P: Print>(
    rt: &impl Abort,
    alloc: Global,
    wanted: &mut Wanted,
    value: &P::Value,
    text: &str,
) {
    let Some(mut out) = wanted.given(String::from_str(alloc, "a ")) else {
        return;
    };
    match printed::<P>(value, &mut out) {
        Ok(()) => assert!(rt;
            out.as_str().strip_prefix("a ") == Some(text),
            "{out} is {text}"
        ),
        Err(PrintError::Memory) => {
            wanted.count();
            assert!(rt; out.as_str() == "a ");
        }
        Err(PrintError::NoText) => assert!(rt; false, "{text} is not written"),
    }
}

/// Asserts that a value has no text, and that nothing is written.
fn has_no_text<P: Print>(rt: &impl Abort, alloc: Global, wanted: &mut Wanted, value: &P::Value) {
    let Some(mut out) = wanted.given(String::from_str(alloc, "a")) else {
        return;
    };
    match printed::<P>(value, &mut out) {
        Ok(()) => assert!(rt; false, "{out}"),
        Err(PrintError::Memory) => wanted.count(),
        Err(PrintError::NoText) => {}
    }
    assert!(rt; out.as_str() == "a");
}

/// Asserts that each name is written as the text beside it.
fn writes_names(rt: &impl Abort, alloc: Global, wanted: &mut Wanted, names: &[(&str, &str)]) {
    for &(name, text) in names {
        writes::<Identifier<'_>>(rt, alloc, wanted, &Identifier(name), text);
    }
}

#[test]
fn names_have_an_underscore_where_a_word_would_be_read(rt: HostRuntime) {
    let alloc = rt.alloc();
    let mut wanted = Wanted::new();
    writes_names(
        &rt,
        alloc,
        &mut wanted,
        &[
            ("width", "width"),
            ("a-b", "a-b"),
            ("x_1-", "x_1-"),
            ("interface", "_interface"),
            ("DOMString", "_DOMString"),
            ("Interface", "Interface"),
            ("or", "_or"),
        ],
    );
    for name in ["", "a b", "_a", "1a", "-a", "a.", "\u{e9}", " a", "a "] {
        has_no_text::<Identifier<'_>>(&rt, alloc, &mut wanted, &Identifier(name));
    }
    // Behind `long` another `long` would be read as one type with it, and nothing else.
    for (name, text) in [("long", "long _long"), ("interface", "long interface")] {
        writes::<(Long, Identifier<'_>)>(&rt, alloc, &mut wanted, &(Long, Identifier(name)), text);
    }
    // No keyword except for `mixin` follows `interface`.
    for (name, text) in [("mixin", "interface _mixin"), ("enum", "interface enum")] {
        let value = (Interface, Identifier(name));
        writes::<(Interface, Identifier<'_>)>(&rt, alloc, &mut wanted, &value, text);
    }
    assert!(rt; wanted.tell(&rt, alloc));
}

#[test]
fn numbers_are_written_as_they_are_kept(rt: HostRuntime) {
    let alloc = rt.alloc();
    let mut wanted = Wanted::new();
    for text in ["1", "-12", "90"] {
        writes::<DecLit<'_>>(&rt, alloc, &mut wanted, &DecLit(text), text);
    }
    for text in ["0x1F", "-0X0"] {
        writes::<HexLit<'_>>(&rt, alloc, &mut wanted, &HexLit(text), text);
    }
    for text in ["0", "-017"] {
        writes::<OctLit<'_>>(&rt, alloc, &mut wanted, &OctLit(text), text);
    }
    for text in ["1.", ".5", "-1.5e3", "1e-3", "0.0E+1"] {
        writes::<FloatValueLit<'_>>(&rt, alloc, &mut wanted, &FloatValueLit(text), text);
    }
    for text in ["", "-", "0", "1.5", "0x1", "1 ", "a"] {
        has_no_text::<DecLit<'_>>(&rt, alloc, &mut wanted, &DecLit(text));
    }
    for text in ["0x", "1F", "x1", "0xG"] {
        has_no_text::<HexLit<'_>>(&rt, alloc, &mut wanted, &HexLit(text));
    }
    for text in ["1", "08", ""] {
        has_no_text::<OctLit<'_>>(&rt, alloc, &mut wanted, &OctLit(text));
    }
    for text in ["1", ".", "1e", "NaN"] {
        has_no_text::<FloatValueLit<'_>>(&rt, alloc, &mut wanted, &FloatValueLit(text));
    }
    let number = FloatLit::NegInfinity(NegInfinity);
    writes::<FloatLit<'_>>(&rt, alloc, &mut wanted, &number, "-Infinity");
    assert!(rt; wanted.tell(&rt, alloc));
}

#[test]
fn strings_hold_anything_but_a_quote(rt: HostRuntime) {
    let alloc = rt.alloc();
    let mut wanted = Wanted::new();
    for (text, written) in [
        ("", "\"\""),
        ("a b", "\"a b\""),
        ("\\n // /* ;", "\"\\n // /* ;\""),
        ("a\nb\t\u{1F600}", "\"a\nb\t\u{1F600}\""),
    ] {
        writes::<StringLit<'_>>(&rt, alloc, &mut wanted, &StringLit(text), written);
    }
    for text in ["\"", "a\"b"] {
        has_no_text::<StringLit<'_>>(&rt, alloc, &mut wanted, &StringLit(text));
    }
    assert!(rt; wanted.tell(&rt, alloc));
}

#[test]
fn docstrings_have_a_line_for_each_line(rt: HostRuntime) {
    let alloc = rt.alloc();
    let mut wanted = Wanted::new();
    for (text, written) in [
        ("", "///\n"),
        (" Shows.", "/// Shows.\n"),
        (" a\n\n b\r\n", "/// a\n///\n/// b\r\n///\n"),
    ] {
        if let Some(text) = wanted.given(String::from_str(alloc, text)) {
            writes::<Docstring>(&rt, alloc, &mut wanted, &Docstring(text), written);
        }
    }
    assert!(rt; wanted.tell(&rt, alloc));
}

/// A default of this value.
fn default_of<'a>(value: DefaultValue<'a>) -> Default<'a> {
    Default {
        assign: Assign,
        value,
    }
}

#[test]
fn literals_are_one_word_or_two_brackets(rt: HostRuntime) {
    let alloc = rt.alloc();
    let mut wanted = Wanted::new();
    let array = EmptyArrayLit {
        open_bracket: OpenBracket,
        close_bracket: CloseBracket,
    };
    let dictionary = EmptyDictionaryLit {
        open_brace: OpenBrace,
        close_brace: CloseBrace,
    };
    for (value, text) in [
        (DefaultValue::EmptyArray(array), "= []"),
        (DefaultValue::EmptyDictionary(dictionary), "= {}"),
        (DefaultValue::Boolean(BooleanLit(true)), "= true"),
        (DefaultValue::String(StringLit("a")), "= \"a\""),
    ] {
        writes::<Default<'_>>(&rt, alloc, &mut wanted, &default_of(value), text);
    }
    let value = default_of(DefaultValue::String(StringLit("\"")));
    has_no_text::<Default<'_>>(&rt, alloc, &mut wanted, &value);
    assert!(rt; wanted.tell(&rt, alloc));
}

/// `unsigned long long`, which may be null where this is true.
fn unsigned_long_long(may_be_null: bool) -> MayBeNull<IntegerType> {
    MayBeNull {
        type_: IntegerType::LongLong(LongLongType {
            unsigned: Some(Unsigned),
            long_long: (Long, Long),
        }),
        q_mark: if may_be_null { Some(QMark) } else { None },
    }
}

#[test]
fn types_and_brackets_stand_close(rt: HostRuntime) {
    let alloc = rt.alloc();
    let mut wanted = Wanted::new();
    let type_ = ConstType::Integer(unsigned_long_long(true));
    writes::<ConstType<'_>>(&rt, alloc, &mut wanted, &type_, "unsigned long long?");
    let generics = Generics {
        open_angle: LessThan,
        body: unsigned_long_long(false),
        close_angle: GreaterThan,
    };
    let text = "<unsigned long long>";
    writes::<Generics<MayBeNull<IntegerType>>>(&rt, alloc, &mut wanted, &generics, text);
    assert!(rt; wanted.tell(&rt, alloc));
}

/// A list of as many values `"0123456789"`, in braces.
fn values(
    alloc: Global,
    many: usize,
) -> Result<Braced<PunctuatedNonEmpty<StringLit<'static>, Comma>>, AllocError> {
    let mut list = Vec::new(alloc);
    for _ in 0..many {
        list.push(StringLit("0123456789"))?;
    }
    Ok(Braced {
        open_brace: OpenBrace,
        body: PunctuatedNonEmpty {
            list,
            separator: Comma,
        },
        close_brace: CloseBrace,
    })
}

#[test]
fn values_take_lines_where_one_is_too_short(rt: HostRuntime) {
    let alloc = rt.alloc();
    let mut wanted = Wanted::new();
    for (many, text) in [
        (1, "{ \"0123456789\" }"),
        (2, "{ \"0123456789\", \"0123456789\" }"),
        (
            6,
            "{\n  \"0123456789\",\n  \"0123456789\",\n  \"0123456789\",\n  \"0123456789\",\n  \
            \"0123456789\",\n  \"0123456789\"\n}",
        ),
    ] {
        if let Some(value) = wanted.given(values(alloc, many)) {
            writes::<Braced<PunctuatedNonEmpty<StringLit<'_>, Comma>>>(
                &rt,
                alloc,
                &mut wanted,
                &value,
                text,
            );
        }
    }
    if let Some(value) = wanted.given(values(alloc, 0)) {
        has_no_text::<Braced<PunctuatedNonEmpty<StringLit<'_>, Comma>>>(
            &rt,
            alloc,
            &mut wanted,
            &value,
        );
    }
    assert!(rt; wanted.tell(&rt, alloc));
}

/// As many members `long;`, in braces.
fn members(alloc: Global, many: usize) -> Result<Braced<Vec<(Long, SemiColon)>>, AllocError> {
    let mut body = Vec::new(alloc);
    for _ in 0..many {
        body.push((Long, SemiColon))?;
    }
    Ok(Braced {
        open_brace: OpenBrace,
        body,
        close_brace: CloseBrace,
    })
}

#[test]
fn members_have_a_line_each(rt: HostRuntime) {
    let alloc = rt.alloc();
    let mut wanted = Wanted::new();
    for (many, text) in [
        (0, "{}"),
        (1, "{\n  long;\n}"),
        (2, "{\n  long;\n  long;\n}"),
    ] {
        if let Some(value) = wanted.given(members(alloc, many)) {
            writes::<Braced<Vec<(Long, SemiColon)>>>(&rt, alloc, &mut wanted, &value, text);
        }
    }
    assert!(rt; wanted.tell(&rt, alloc));
}

#[test]
fn words_are_told(rt: HostRuntime) {
    assert!(rt; Interface.as_str() == "interface" && SemiColon.as_str() == ";");
    assert!(rt; NegInfinity.as_str() == "-Infinity");
    let type_ = LongType {
        unsigned: None,
        long: Long,
    };
    assert!(rt; type_.as_str() == "long");
    let type_ = unsigned_long_long(true);
    assert!(rt; type_.type_.as_str() == "unsigned long long" && type_.is_nullable());
    assert!(rt; !unsigned_long_long(false).is_nullable());
    for name in ["interface", "or", "DOMString", "long", "NaN"] {
        assert!(rt; Identifier(name).is_reserved(), "{name}");
    }
    for name in ["Interface", "", "long long", "a"] {
        assert!(rt; !Identifier(name).is_reserved(), "{name}");
    }
}
