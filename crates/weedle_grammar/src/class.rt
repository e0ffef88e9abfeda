//! Classes of bytes.

ghost use Rattle.std.specs.Prelude.{◌≡◌};
ghost use Rattle.weedle_grammar.specs.Rows.{is_in};

/// A class of bytes.
#[derive(Clone, Copy, Debug, PartialEq, Eq)]
pub enum Class {
    /// A space, a tab, a CR or an LF.
    Blank,
    /// `0` to `9`.
    Digit,
    /// `1` to `9`.
    OneToNine,
    /// `0` to `7`.
    Octal,
    /// `0` to `9`, `a` to `f`, `A` to `F`.
    Hex,
    /// An ASCII letter or digit.
    Alnum,
    /// An ASCII letter or digit, `_` or `-`.
    Name,
    /// `/`.
    Slash,
    /// `x` or `X`.
    XLetter,
    /// `e` or `E`.
    ELetter,
    /// `+` or `-`.
    Sign,
    /// Every byte except for `"`.
    NotQuote,
    /// An ASCII letter.
    Letter,
    /// Every byte except for LF.
    NotLineFeed,
    /// Every byte.
    Any,
}

/// Whether the byte is in the class. It takes no memory.
#[inline(always)]
pub fn holds(class: Class, byte: u8) -> bool
    ensures { result ≡ is_in class byte }
{
    match class {
        Class::Blank => matches!(byte, b' ' | b'\t' | b'\r' | b'\n'),
        Class::Digit => matches!(byte, b'0'..=b'9'),
        Class::OneToNine => matches!(byte, b'1'..=b'9'),
        Class::Octal => matches!(byte, b'0'..=b'7'),
        Class::Hex => matches!(byte, b'0'..=b'9' | b'a'..=b'f' | b'A'..=b'F'),
        Class::Alnum => matches!(byte, b'0'..=b'9' | b'A'..=b'Z' | b'a'..=b'z'),
        Class::Name => matches!(byte, b'0'..=b'9' | b'A'..=b'Z' | b'a'..=b'z' | b'_' | b'-'),
        Class::Slash => byte == b'/',
        Class::XLetter => matches!(byte, b'x' | b'X'),
        Class::ELetter => matches!(byte, b'e' | b'E'),
        Class::Sign => matches!(byte, b'+' | b'-'),
        Class::NotQuote => byte != b'"',
        Class::Letter => matches!(byte, b'A'..=b'Z' | b'a'..=b'z'),
        Class::NotLineFeed => byte != b'\n',
        Class::Any => true,
    }
}
