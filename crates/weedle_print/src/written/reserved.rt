//! Which names are read as words of the grammar, by the word before them.

use crate::reserved::is_word;

/// What is read behind `(` and its like.
const BEHIND_OPEN_PAREN: &str =
    "ArrayBuffer ArrayBufferView BufferSource ByteString DOMString DataView Error Float32Array \
    Float64Array FrozenArray Int16Array Int32Array Int8Array Promise USVString Uint16Array \
    Uint32Array Uint8Array Uint8ClampedArray any boolean byte double float long object octet \
    optional record sequence short symbol unrestricted unsigned";

/// Behind what the same is read as behind `(`.
const AS_OPEN_PAREN: &str = "( ,";

/// What is read behind `)` and its like.
const BEHIND_CLOSE_PAREN: &str = "or";

/// Behind what the same is read as behind `)`.
const AS_CLOSE_PAREN: &str =
    ") > ? symbol boolean byte double float object octet short ByteString DOMString USVString \
    ArrayBuffer DataView Int8Array Int16Array Int32Array Uint8Array Uint16Array Uint32Array \
    Uint8ClampedArray Float32Array Float64Array ArrayBufferView BufferSource Error";

/// What is read behind `]`.
const BEHIND_CLOSE_BRACKET: &str =
    "ArrayBuffer ArrayBufferView BufferSource ByteString DOMString DataView Error Float32Array \
    Float64Array FrozenArray Int16Array Int32Array Int8Array Promise USVString Uint16Array \
    Uint32Array Uint8Array Uint8ClampedArray any async attribute boolean byte callback const \
    constructor deleter dictionary double enum float getter inherit interface iterable \
    legacycaller long maplike namespace object octet optional partial readonly record required \
    sequence setlike setter short static stringifier symbol typedef undefined unrestricted \
    unsigned";

/// What is read behind `{`.
const BEHIND_OPEN_BRACE: &str =
    "ArrayBuffer ArrayBufferView BufferSource ByteString DOMString DataView Error Float32Array \
    Float64Array FrozenArray Int16Array Int32Array Int8Array Promise USVString Uint16Array \
    Uint32Array Uint8Array Uint8ClampedArray any async attribute boolean byte const constructor \
    deleter double float getter inherit iterable legacycaller long maplike object octet readonly \
    record required sequence setlike setter short static stringifier symbol undefined unrestricted \
    unsigned";

/// What is read behind `;`.
const BEHIND_SEMI_COLON: &str =
    "ArrayBuffer ArrayBufferView BufferSource ByteString DOMString DataView Error Float32Array \
    Float64Array FrozenArray Int16Array Int32Array Int8Array Promise USVString Uint16Array \
    Uint32Array Uint8Array Uint8ClampedArray any async attribute boolean byte callback const \
    constructor deleter dictionary double enum float getter inherit interface iterable \
    legacycaller long maplike namespace object octet partial readonly record required sequence \
    setlike setter short static stringifier symbol typedef undefined unrestricted unsigned";

/// What is read behind `<` and its like.
const BEHIND_LESS_THAN: &str =
    "ArrayBuffer ArrayBufferView BufferSource ByteString DOMString DataView Error Float32Array \
    Float64Array FrozenArray Int16Array Int32Array Int8Array Promise USVString Uint16Array \
    Uint32Array Uint8Array Uint8ClampedArray any boolean byte double float long object octet \
    record sequence short symbol undefined unrestricted unsigned";

/// Behind what the same is read as behind `<`.
const AS_LESS_THAN: &str = "< deleter getter setter legacycaller";

/// What is read behind `=`.
const BEHIND_ASSIGN: &str =
    "ArrayBuffer ArrayBufferView BufferSource ByteString DOMString DataView Error Float32Array \
    Float64Array FrozenArray Infinity Int16Array Int32Array Int8Array NaN Promise USVString \
    Uint16Array Uint32Array Uint8Array Uint8ClampedArray any boolean byte double false float long \
    null object octet record sequence short symbol true undefined unrestricted unsigned";

/// What is read behind `or`.
const BEHIND_OR: &str =
    "ArrayBuffer ArrayBufferView BufferSource ByteString DOMString DataView Error Float32Array \
    Float64Array FrozenArray Int16Array Int32Array Int8Array Promise USVString Uint16Array \
    Uint32Array Uint8Array Uint8ClampedArray boolean byte double float long object octet record \
    sequence short symbol unrestricted unsigned";

/// What is read behind `optional` and its like.
const BEHIND_OPTIONAL: &str =
    "ArrayBuffer ArrayBufferView BufferSource ByteString DOMString DataView Error Float32Array \
    Float64Array FrozenArray Int16Array Int32Array Int8Array Promise USVString Uint16Array \
    Uint32Array Uint8Array Uint8ClampedArray any boolean byte double float long object octet \
    record sequence short symbol unrestricted unsigned";

/// Behind what the same is read as behind `optional`.
const AS_OPTIONAL: &str = "optional attribute required typedef";

/// What is read behind `callback`.
const BEHIND_CALLBACK: &str = "interface";

/// What is read behind `const`.
const BEHIND_CONST: &str = "boolean byte double float long octet short unrestricted unsigned";

/// What is read behind `interface`.
const BEHIND_INTERFACE: &str = "mixin";

/// What is read behind `static` and its like.
const BEHIND_STATIC: &str =
    "ArrayBuffer ArrayBufferView BufferSource ByteString DOMString DataView Error Float32Array \
    Float64Array FrozenArray Int16Array Int32Array Int8Array Promise USVString Uint16Array \
    Uint32Array Uint8Array Uint8ClampedArray any attribute boolean byte deleter double float \
    getter legacycaller long object octet readonly record sequence setter short symbol undefined \
    unrestricted unsigned";

/// Behind what the same is read as behind `static`.
const AS_STATIC: &str = "static stringifier";

/// What is read behind `long`.
const BEHIND_LONG: &str = "long or";

/// What is read behind a name.
const BEHIND_NAME: &str = "implements includes or";

/// Whether a text is one of these.
fn is_among(text: &str, texts: &str) -> bool {
    for one in texts.split(' ') {
        if one == text {
            return true;
        }
    }
    false
}

/// Whether a name is read as a word of the grammar behind this word. What is there is `a` for any
/// name, and nothing for the front of a text, a docstring, a string and a number.
pub(crate) fn is_read_behind(before: &str, name: &str) -> bool {
    if before.is_empty() {
        return is_word(name);
    }
    (is_among(before, AS_OPEN_PAREN) && is_among(name, BEHIND_OPEN_PAREN))
        || (is_among(before, AS_CLOSE_PAREN) && is_among(name, BEHIND_CLOSE_PAREN))
        || (is_among(before, "]") && is_among(name, BEHIND_CLOSE_BRACKET))
        || (is_among(before, "{") && is_among(name, BEHIND_OPEN_BRACE))
        || (is_among(before, ";") && is_among(name, BEHIND_SEMI_COLON))
        || (is_among(before, AS_LESS_THAN) && is_among(name, BEHIND_LESS_THAN))
        || (is_among(before, "=") && is_among(name, BEHIND_ASSIGN))
        || (is_among(before, "or") && is_among(name, BEHIND_OR))
        || (is_among(before, AS_OPTIONAL) && is_among(name, BEHIND_OPTIONAL))
        || (is_among(before, "callback") && is_among(name, BEHIND_CALLBACK))
        || (is_among(before, "const") && is_among(name, BEHIND_CONST))
        || (is_among(before, "interface") && is_among(name, BEHIND_INTERFACE))
        || (is_among(before, AS_STATIC) && is_among(name, BEHIND_STATIC))
        || (is_among(before, "long") && is_among(name, BEHIND_LONG))
        || (is_among(before, "a") && is_among(name, BEHIND_NAME))
}
