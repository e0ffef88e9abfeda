//! Keywords in lower case: trivia, the keyword's bytes with no name character next, trivia.
//!
//! Written by tools/grammar.py, and not edited by hand.

ghost use Rattle.std.specs.Prelude.{◌≡◌, ◌<◌, ◌≤◌};
ghost use Rattle.weedle_grammar.specs.written.Names.{name_of};
ghost use Rattle.weedle_grammar.specs.written.Table.{row_of};
ghost use Rattle.weedle_grammar.specs.View.{row_view};

use crate::class::Class;
use crate::grammar::trivia::TRIVIA;
use crate::row::{Row, parts_of};
use crate::rule::Rule;

pub const BYTES_OR: u16 = 47;

pub const NOT_NEXT_NAME: u16 = 48;

pub const OR: u16 = 49;

pub const BYTES_OPTIONAL: u16 = 50;

pub const OPTIONAL: u16 = 51;

pub const BYTES_ASYNC: u16 = 52;

pub const ASYNC: u16 = 53;

pub const BYTES_ATTRIBUTE: u16 = 54;

pub const ATTRIBUTE: u16 = 55;

pub const BYTES_CALLBACK: u16 = 56;

pub const CALLBACK: u16 = 57;

pub const BYTES_CONST: u16 = 58;

pub const CONST: u16 = 59;

pub const BYTES_DELETER: u16 = 60;

pub const DELETER: u16 = 61;

pub const BYTES_DICTIONARY: u16 = 62;

pub const DICTIONARY: u16 = 63;

pub const BYTES_ENUM: u16 = 64;

pub const ENUM: u16 = 65;

pub const BYTES_GETTER: u16 = 66;

pub const GETTER: u16 = 67;

pub const BYTES_INCLUDES: u16 = 68;

pub const INCLUDES: u16 = 69;

pub const BYTES_INHERIT: u16 = 70;

pub const INHERIT: u16 = 71;

pub const BYTES_INTERFACE: u16 = 72;

pub const INTERFACE: u16 = 73;

pub const BYTES_ITERABLE: u16 = 74;

pub const ITERABLE: u16 = 75;

pub const BYTES_MAPLIKE: u16 = 76;

pub const MAPLIKE: u16 = 77;

pub const BYTES_NAMESPACE: u16 = 78;

pub const NAMESPACE: u16 = 79;

pub const BYTES_PARTIAL: u16 = 80;

pub const PARTIAL: u16 = 81;

pub const BYTES_REQUIRED: u16 = 82;

pub const REQUIRED: u16 = 83;

pub const BYTES_SETLIKE: u16 = 84;

pub const SETLIKE: u16 = 85;

pub const BYTES_SETTER: u16 = 86;

pub const SETTER: u16 = 87;

pub const BYTES_STATIC: u16 = 88;

pub const STATIC: u16 = 89;

pub const BYTES_STRINGIFIER: u16 = 90;

pub const STRINGIFIER: u16 = 91;

pub const BYTES_TYPEDEF: u16 = 92;

pub const TYPEDEF: u16 = 93;

pub const BYTES_UNRESTRICTED: u16 = 94;

pub const UNRESTRICTED: u16 = 95;

pub const BYTES_SYMBOL: u16 = 96;

pub const SYMBOL: u16 = 97;

pub const BYTES_ANY: u16 = 98;

pub const ANY: u16 = 99;

pub const BYTES_BOOLEAN: u16 = 100;

pub const BOOLEAN: u16 = 101;

pub const BYTES_BYTE: u16 = 102;

pub const BYTE: u16 = 103;

pub const BYTES_DOUBLE: u16 = 104;

pub const DOUBLE: u16 = 105;

pub const BYTES_FALSE: u16 = 106;

pub const FALSE: u16 = 107;

pub const BYTES_FLOAT: u16 = 108;

pub const FLOAT: u16 = 109;

pub const BYTES_LONG: u16 = 110;

pub const LONG: u16 = 111;

pub const BYTES_NULL: u16 = 112;

pub const NULL: u16 = 113;

pub const BYTES_OBJECT: u16 = 114;

pub const OBJECT: u16 = 115;

pub const BYTES_OCTET: u16 = 116;

pub const OCTET: u16 = 117;

pub const BYTES_SEQUENCE: u16 = 118;

pub const SEQUENCE: u16 = 119;

pub const BYTES_SHORT: u16 = 120;

pub const SHORT: u16 = 121;

pub const BYTES_TRUE: u16 = 122;

pub const TRUE: u16 = 123;

pub const BYTES_UNSIGNED: u16 = 124;

pub const UNSIGNED: u16 = 125;

pub const BYTES_UNDEFINED: u16 = 126;

pub const UNDEFINED: u16 = 127;

pub const BYTES_RECORD: u16 = 128;

pub const RECORD: u16 = 129;

pub const BYTES_READ_ONLY: u16 = 130;

pub const READ_ONLY: u16 = 131;

pub const BYTES_MIXIN: u16 = 132;

pub const MIXIN: u16 = 133;

pub const BYTES_IMPLEMENTS: u16 = 134;

pub const IMPLEMENTS: u16 = 135;

pub const BYTES_LEGACY_CALLER: u16 = 136;

pub const LEGACY_CALLER: u16 = 137;

pub const BYTES_CONSTRUCTOR: u16 = 138;

pub const CONSTRUCTOR: u16 = 139;

impl Rule {
    /// The keyword `or`.
    pub const OR: Rule = Rule(OR);
    /// The keyword `optional`.
    pub const OPTIONAL: Rule = Rule(OPTIONAL);
    /// The keyword `async`.
    pub const ASYNC: Rule = Rule(ASYNC);
    /// The keyword `attribute`.
    pub const ATTRIBUTE: Rule = Rule(ATTRIBUTE);
    /// The keyword `callback`.
    pub const CALLBACK: Rule = Rule(CALLBACK);
    /// The keyword `const`.
    pub const CONST: Rule = Rule(CONST);
    /// The keyword `deleter`.
    pub const DELETER: Rule = Rule(DELETER);
    /// The keyword `dictionary`.
    pub const DICTIONARY: Rule = Rule(DICTIONARY);
    /// The keyword `enum`.
    pub const ENUM: Rule = Rule(ENUM);
    /// The keyword `getter`.
    pub const GETTER: Rule = Rule(GETTER);
    /// The keyword `includes`.
    pub const INCLUDES: Rule = Rule(INCLUDES);
    /// The keyword `inherit`.
    pub const INHERIT: Rule = Rule(INHERIT);
    /// The keyword `interface`.
    pub const INTERFACE: Rule = Rule(INTERFACE);
    /// The keyword `iterable`.
    pub const ITERABLE: Rule = Rule(ITERABLE);
    /// The keyword `maplike`.
    pub const MAPLIKE: Rule = Rule(MAPLIKE);
    /// The keyword `namespace`.
    pub const NAMESPACE: Rule = Rule(NAMESPACE);
    /// The keyword `partial`.
    pub const PARTIAL: Rule = Rule(PARTIAL);
    /// The keyword `required`.
    pub const REQUIRED: Rule = Rule(REQUIRED);
    /// The keyword `setlike`.
    pub const SETLIKE: Rule = Rule(SETLIKE);
    /// The keyword `setter`.
    pub const SETTER: Rule = Rule(SETTER);
    /// The keyword `static`.
    pub const STATIC: Rule = Rule(STATIC);
    /// The keyword `stringifier`.
    pub const STRINGIFIER: Rule = Rule(STRINGIFIER);
    /// The keyword `typedef`.
    pub const TYPEDEF: Rule = Rule(TYPEDEF);
    /// The keyword `unrestricted`.
    pub const UNRESTRICTED: Rule = Rule(UNRESTRICTED);
    /// The keyword `symbol`.
    pub const SYMBOL: Rule = Rule(SYMBOL);
    /// The keyword `any`.
    pub const ANY: Rule = Rule(ANY);
    /// The keyword `boolean`.
    pub const BOOLEAN: Rule = Rule(BOOLEAN);
    /// The keyword `byte`.
    pub const BYTE: Rule = Rule(BYTE);
    /// The keyword `double`.
    pub const DOUBLE: Rule = Rule(DOUBLE);
    /// The keyword `false`.
    pub const FALSE: Rule = Rule(FALSE);
    /// The keyword `float`.
    pub const FLOAT: Rule = Rule(FLOAT);
    /// The keyword `long`.
    pub const LONG: Rule = Rule(LONG);
    /// The keyword `null`.
    pub const NULL: Rule = Rule(NULL);
    /// The keyword `object`.
    pub const OBJECT: Rule = Rule(OBJECT);
    /// The keyword `octet`.
    pub const OCTET: Rule = Rule(OCTET);
    /// The keyword `sequence`.
    pub const SEQUENCE: Rule = Rule(SEQUENCE);
    /// The keyword `short`.
    pub const SHORT: Rule = Rule(SHORT);
    /// The keyword `true`.
    pub const TRUE: Rule = Rule(TRUE);
    /// The keyword `unsigned`.
    pub const UNSIGNED: Rule = Rule(UNSIGNED);
    /// The keyword `undefined`.
    pub const UNDEFINED: Rule = Rule(UNDEFINED);
    /// The keyword `record`.
    pub const RECORD: Rule = Rule(RECORD);
    /// The keyword `readonly`.
    pub const READ_ONLY: Rule = Rule(READ_ONLY);
    /// The keyword `mixin`.
    pub const MIXIN: Rule = Rule(MIXIN);
    /// The keyword `implements`.
    pub const IMPLEMENTS: Rule = Rule(IMPLEMENTS);
    /// The keyword `legacycaller`.
    pub const LEGACY_CALLER: Rule = Rule(LEGACY_CALLER);
    /// The keyword `constructor`.
    pub const CONSTRUCTOR: Rule = Rule(CONSTRUCTOR);
}

/// The row of a rule from 47 to 139.
#[inline(always)]
pub(super) fn row(number: u16) -> Row
    requires low { 47 ≤ number }
    requires high { number < 140 }
    ensures { row_view result ≡ row_of number }
{
    match number {
        BYTES_OR => Row::Bytes(b"or"),
        NOT_NEXT_NAME => Row::NotNext(Class::Name),
        OR => Row::Seq(parts_of(&[TRIVIA, BYTES_OR, NOT_NEXT_NAME, TRIVIA])),
        BYTES_OPTIONAL => Row::Bytes(b"optional"),
        OPTIONAL => Row::Seq(parts_of(&[TRIVIA, BYTES_OPTIONAL, NOT_NEXT_NAME, TRIVIA])),
        BYTES_ASYNC => Row::Bytes(b"async"),
        ASYNC => Row::Seq(parts_of(&[TRIVIA, BYTES_ASYNC, NOT_NEXT_NAME, TRIVIA])),
        BYTES_ATTRIBUTE => Row::Bytes(b"attribute"),
        ATTRIBUTE => Row::Seq(parts_of(&[TRIVIA, BYTES_ATTRIBUTE, NOT_NEXT_NAME, TRIVIA])),
        BYTES_CALLBACK => Row::Bytes(b"callback"),
        CALLBACK => Row::Seq(parts_of(&[TRIVIA, BYTES_CALLBACK, NOT_NEXT_NAME, TRIVIA])),
        BYTES_CONST => Row::Bytes(b"const"),
        CONST => Row::Seq(parts_of(&[TRIVIA, BYTES_CONST, NOT_NEXT_NAME, TRIVIA])),
        BYTES_DELETER => Row::Bytes(b"deleter"),
        DELETER => Row::Seq(parts_of(&[TRIVIA, BYTES_DELETER, NOT_NEXT_NAME, TRIVIA])),
        BYTES_DICTIONARY => Row::Bytes(b"dictionary"),
        DICTIONARY => Row::Seq(parts_of(&[TRIVIA, BYTES_DICTIONARY, NOT_NEXT_NAME, TRIVIA])),
        BYTES_ENUM => Row::Bytes(b"enum"),
        ENUM => Row::Seq(parts_of(&[TRIVIA, BYTES_ENUM, NOT_NEXT_NAME, TRIVIA])),
        BYTES_GETTER => Row::Bytes(b"getter"),
        GETTER => Row::Seq(parts_of(&[TRIVIA, BYTES_GETTER, NOT_NEXT_NAME, TRIVIA])),
        BYTES_INCLUDES => Row::Bytes(b"includes"),
        INCLUDES => Row::Seq(parts_of(&[TRIVIA, BYTES_INCLUDES, NOT_NEXT_NAME, TRIVIA])),
        BYTES_INHERIT => Row::Bytes(b"inherit"),
        INHERIT => Row::Seq(parts_of(&[TRIVIA, BYTES_INHERIT, NOT_NEXT_NAME, TRIVIA])),
        BYTES_INTERFACE => Row::Bytes(b"interface"),
        INTERFACE => Row::Seq(parts_of(&[TRIVIA, BYTES_INTERFACE, NOT_NEXT_NAME, TRIVIA])),
        BYTES_ITERABLE => Row::Bytes(b"iterable"),
        ITERABLE => Row::Seq(parts_of(&[TRIVIA, BYTES_ITERABLE, NOT_NEXT_NAME, TRIVIA])),
        BYTES_MAPLIKE => Row::Bytes(b"maplike"),
        MAPLIKE => Row::Seq(parts_of(&[TRIVIA, BYTES_MAPLIKE, NOT_NEXT_NAME, TRIVIA])),
        BYTES_NAMESPACE => Row::Bytes(b"namespace"),
        NAMESPACE => Row::Seq(parts_of(&[TRIVIA, BYTES_NAMESPACE, NOT_NEXT_NAME, TRIVIA])),
        BYTES_PARTIAL => Row::Bytes(b"partial"),
        PARTIAL => Row::Seq(parts_of(&[TRIVIA, BYTES_PARTIAL, NOT_NEXT_NAME, TRIVIA])),
        BYTES_REQUIRED => Row::Bytes(b"required"),
        REQUIRED => Row::Seq(parts_of(&[TRIVIA, BYTES_REQUIRED, NOT_NEXT_NAME, TRIVIA])),
        BYTES_SETLIKE => Row::Bytes(b"setlike"),
        SETLIKE => Row::Seq(parts_of(&[TRIVIA, BYTES_SETLIKE, NOT_NEXT_NAME, TRIVIA])),
        BYTES_SETTER => Row::Bytes(b"setter"),
        SETTER => Row::Seq(parts_of(&[TRIVIA, BYTES_SETTER, NOT_NEXT_NAME, TRIVIA])),
        BYTES_STATIC => Row::Bytes(b"static"),
        STATIC => Row::Seq(parts_of(&[TRIVIA, BYTES_STATIC, NOT_NEXT_NAME, TRIVIA])),
        BYTES_STRINGIFIER => Row::Bytes(b"stringifier"),
        STRINGIFIER => Row::Seq(parts_of(&[TRIVIA, BYTES_STRINGIFIER, NOT_NEXT_NAME, TRIVIA])),
        BYTES_TYPEDEF => Row::Bytes(b"typedef"),
        TYPEDEF => Row::Seq(parts_of(&[TRIVIA, BYTES_TYPEDEF, NOT_NEXT_NAME, TRIVIA])),
        BYTES_UNRESTRICTED => Row::Bytes(b"unrestricted"),
        UNRESTRICTED => Row::Seq(parts_of(&[TRIVIA, BYTES_UNRESTRICTED, NOT_NEXT_NAME, TRIVIA])),
        BYTES_SYMBOL => Row::Bytes(b"symbol"),
        SYMBOL => Row::Seq(parts_of(&[TRIVIA, BYTES_SYMBOL, NOT_NEXT_NAME, TRIVIA])),
        BYTES_ANY => Row::Bytes(b"any"),
        ANY => Row::Seq(parts_of(&[TRIVIA, BYTES_ANY, NOT_NEXT_NAME, TRIVIA])),
        BYTES_BOOLEAN => Row::Bytes(b"boolean"),
        BOOLEAN => Row::Seq(parts_of(&[TRIVIA, BYTES_BOOLEAN, NOT_NEXT_NAME, TRIVIA])),
        BYTES_BYTE => Row::Bytes(b"byte"),
        BYTE => Row::Seq(parts_of(&[TRIVIA, BYTES_BYTE, NOT_NEXT_NAME, TRIVIA])),
        BYTES_DOUBLE => Row::Bytes(b"double"),
        DOUBLE => Row::Seq(parts_of(&[TRIVIA, BYTES_DOUBLE, NOT_NEXT_NAME, TRIVIA])),
        BYTES_FALSE => Row::Bytes(b"false"),
        FALSE => Row::Seq(parts_of(&[TRIVIA, BYTES_FALSE, NOT_NEXT_NAME, TRIVIA])),
        BYTES_FLOAT => Row::Bytes(b"float"),
        FLOAT => Row::Seq(parts_of(&[TRIVIA, BYTES_FLOAT, NOT_NEXT_NAME, TRIVIA])),
        BYTES_LONG => Row::Bytes(b"long"),
        LONG => Row::Seq(parts_of(&[TRIVIA, BYTES_LONG, NOT_NEXT_NAME, TRIVIA])),
        BYTES_NULL => Row::Bytes(b"null"),
        NULL => Row::Seq(parts_of(&[TRIVIA, BYTES_NULL, NOT_NEXT_NAME, TRIVIA])),
        BYTES_OBJECT => Row::Bytes(b"object"),
        OBJECT => Row::Seq(parts_of(&[TRIVIA, BYTES_OBJECT, NOT_NEXT_NAME, TRIVIA])),
        BYTES_OCTET => Row::Bytes(b"octet"),
        OCTET => Row::Seq(parts_of(&[TRIVIA, BYTES_OCTET, NOT_NEXT_NAME, TRIVIA])),
        BYTES_SEQUENCE => Row::Bytes(b"sequence"),
        SEQUENCE => Row::Seq(parts_of(&[TRIVIA, BYTES_SEQUENCE, NOT_NEXT_NAME, TRIVIA])),
        BYTES_SHORT => Row::Bytes(b"short"),
        SHORT => Row::Seq(parts_of(&[TRIVIA, BYTES_SHORT, NOT_NEXT_NAME, TRIVIA])),
        BYTES_TRUE => Row::Bytes(b"true"),
        TRUE => Row::Seq(parts_of(&[TRIVIA, BYTES_TRUE, NOT_NEXT_NAME, TRIVIA])),
        BYTES_UNSIGNED => Row::Bytes(b"unsigned"),
        UNSIGNED => Row::Seq(parts_of(&[TRIVIA, BYTES_UNSIGNED, NOT_NEXT_NAME, TRIVIA])),
        BYTES_UNDEFINED => Row::Bytes(b"undefined"),
        UNDEFINED => Row::Seq(parts_of(&[TRIVIA, BYTES_UNDEFINED, NOT_NEXT_NAME, TRIVIA])),
        BYTES_RECORD => Row::Bytes(b"record"),
        RECORD => Row::Seq(parts_of(&[TRIVIA, BYTES_RECORD, NOT_NEXT_NAME, TRIVIA])),
        BYTES_READ_ONLY => Row::Bytes(b"readonly"),
        READ_ONLY => Row::Seq(parts_of(&[TRIVIA, BYTES_READ_ONLY, NOT_NEXT_NAME, TRIVIA])),
        BYTES_MIXIN => Row::Bytes(b"mixin"),
        MIXIN => Row::Seq(parts_of(&[TRIVIA, BYTES_MIXIN, NOT_NEXT_NAME, TRIVIA])),
        BYTES_IMPLEMENTS => Row::Bytes(b"implements"),
        IMPLEMENTS => Row::Seq(parts_of(&[TRIVIA, BYTES_IMPLEMENTS, NOT_NEXT_NAME, TRIVIA])),
        BYTES_LEGACY_CALLER => Row::Bytes(b"legacycaller"),
        LEGACY_CALLER => Row::Seq(parts_of(&[TRIVIA, BYTES_LEGACY_CALLER, NOT_NEXT_NAME, TRIVIA])),
        BYTES_CONSTRUCTOR => Row::Bytes(b"constructor"),
        _ => Row::Seq(parts_of(&[TRIVIA, BYTES_CONSTRUCTOR, NOT_NEXT_NAME, TRIVIA])),
    }
}

/// The name of a rule from 47 to 139.
pub(super) fn name(number: u16) -> &'static str
    requires low { 47 ≤ number }
    requires high { number < 140 }
    ensures { result.now ≡ name_of number }
{
    match number {
        BYTES_OR => "bytes_or",
        NOT_NEXT_NAME => "not_next_name",
        OR => "or",
        BYTES_OPTIONAL => "bytes_optional",
        OPTIONAL => "optional",
        BYTES_ASYNC => "bytes_async",
        ASYNC => "async",
        BYTES_ATTRIBUTE => "bytes_attribute",
        ATTRIBUTE => "attribute",
        BYTES_CALLBACK => "bytes_callback",
        CALLBACK => "callback",
        BYTES_CONST => "bytes_const",
        CONST => "const",
        BYTES_DELETER => "bytes_deleter",
        DELETER => "deleter",
        BYTES_DICTIONARY => "bytes_dictionary",
        DICTIONARY => "dictionary",
        BYTES_ENUM => "bytes_enum",
        ENUM => "enum",
        BYTES_GETTER => "bytes_getter",
        GETTER => "getter",
        BYTES_INCLUDES => "bytes_includes",
        INCLUDES => "includes",
        BYTES_INHERIT => "bytes_inherit",
        INHERIT => "inherit",
        BYTES_INTERFACE => "bytes_interface",
        INTERFACE => "interface",
        BYTES_ITERABLE => "bytes_iterable",
        ITERABLE => "iterable",
        BYTES_MAPLIKE => "bytes_maplike",
        MAPLIKE => "maplike",
        BYTES_NAMESPACE => "bytes_namespace",
        NAMESPACE => "namespace",
        BYTES_PARTIAL => "bytes_partial",
        PARTIAL => "partial",
        BYTES_REQUIRED => "bytes_required",
        REQUIRED => "required",
        BYTES_SETLIKE => "bytes_setlike",
        SETLIKE => "setlike",
        BYTES_SETTER => "bytes_setter",
        SETTER => "setter",
        BYTES_STATIC => "bytes_static",
        STATIC => "static",
        BYTES_STRINGIFIER => "bytes_stringifier",
        STRINGIFIER => "stringifier",
        BYTES_TYPEDEF => "bytes_typedef",
        TYPEDEF => "typedef",
        BYTES_UNRESTRICTED => "bytes_unrestricted",
        UNRESTRICTED => "unrestricted",
        BYTES_SYMBOL => "bytes_symbol",
        SYMBOL => "symbol",
        BYTES_ANY => "bytes_any",
        ANY => "any",
        BYTES_BOOLEAN => "bytes_boolean",
        BOOLEAN => "boolean",
        BYTES_BYTE => "bytes_byte",
        BYTE => "byte",
        BYTES_DOUBLE => "bytes_double",
        DOUBLE => "double",
        BYTES_FALSE => "bytes_false",
        FALSE => "false",
        BYTES_FLOAT => "bytes_float",
        FLOAT => "float",
        BYTES_LONG => "bytes_long",
        LONG => "long",
        BYTES_NULL => "bytes_null",
        NULL => "null",
        BYTES_OBJECT => "bytes_object",
        OBJECT => "object",
        BYTES_OCTET => "bytes_octet",
        OCTET => "octet",
        BYTES_SEQUENCE => "bytes_sequence",
        SEQUENCE => "sequence",
        BYTES_SHORT => "bytes_short",
        SHORT => "short",
        BYTES_TRUE => "bytes_true",
        TRUE => "true",
        BYTES_UNSIGNED => "bytes_unsigned",
        UNSIGNED => "unsigned",
        BYTES_UNDEFINED => "bytes_undefined",
        UNDEFINED => "undefined",
        BYTES_RECORD => "bytes_record",
        RECORD => "record",
        BYTES_READ_ONLY => "bytes_read_only",
        READ_ONLY => "read_only",
        BYTES_MIXIN => "bytes_mixin",
        MIXIN => "mixin",
        BYTES_IMPLEMENTS => "bytes_implements",
        IMPLEMENTS => "implements",
        BYTES_LEGACY_CALLER => "bytes_legacy_caller",
        LEGACY_CALLER => "legacy_caller",
        BYTES_CONSTRUCTOR => "bytes_constructor",
        _ => "constructor",
    }
}
