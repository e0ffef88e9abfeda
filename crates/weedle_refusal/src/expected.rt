//! Words for what would have been read.

ghost use Rattle.std.specs.Prelude.{◌≡◌, Some};
ghost use Rattle.weedle_refusal.specs.Texts.{class_text, word_text};

use std::fmt::{self, Display, Formatter, Write};
use weedle_grammar::Class;

/// What would have been read at a place.
#[derive(Clone, Copy, Debug, PartialEq, Eq)]
pub enum Expected {
    /// A type. Every start of one is expected; where only some types are read, as behind `const`,
    /// every start of those.
    Type,
    /// A value. Every start of a default's value is expected, or of a constant's.
    Value,
    /// A name. Every start of one is expected, an underscore among them.
    Name,
    /// This text: `;` or `interface`, or the `"` at either end of a string.
    Text(&'static str),
    /// A byte of this class.
    OneOf(Class),
    /// The end of a keyword, where a letter, a digit, `_` or `-` follows its letters.
    EndOfWord,
    /// No third slash: a docstring isn't read there, though a comment is.
    NoDocstring,
    /// The end of a block comment, `*/`.
    EndOfComment,
    /// The end of a docstring's line, which is an LF.
    EndOfLine,
    /// The end of the text.
    EndOfText,
}

/// Says it in words, as `a name` or ``the end of the word``; a text is in backticks.
impl Display for Expected {
    ghost output = { λ word. Some (word_text word) };

    fn fmt<W: Write>(&self, f: &mut Formatter<W>) -> fmt::Result {
        match self {
            Expected::Text(text) => write!(f, "`{text}`"),
            Expected::OneOf(class) => f.write_str(member_of(*class)),
            Expected::Type => f.write_str("a type"),
            Expected::Value => f.write_str("a value"),
            Expected::Name => f.write_str("a name"),
            Expected::EndOfWord => f.write_str("the end of the word"),
            Expected::NoDocstring => f.write_str("no docstring here"),
            Expected::EndOfComment => f.write_str("the end of the comment"),
            Expected::EndOfLine => f.write_str("the end of the line"),
            Expected::EndOfText => f.write_str("the end of the text"),
        }
    }
}

/// What a byte of the class is called.
fn member_of(class: Class) -> &'static str
    ensures { result.now ≡ class_text class }
{
    match class {
        Class::Blank => "a blank",
        Class::Digit => "a digit",
        Class::OneToNine => "a digit from 1 to 9",
        Class::Octal => "an octal digit",
        Class::Hex => "a hex digit",
        Class::Alnum => "a letter or digit",
        Class::Name => "a letter, a digit, `_` or `-`",
        Class::Slash => "`/`",
        Class::XLetter => "`x` or `X`",
        Class::ELetter => "`e` or `E`",
        Class::Sign => "a sign",
        Class::NotQuote => "a character but `\"`",
        Class::Letter => "a letter",
        Class::NotLineFeed => "a character of the line",
        Class::Any => "a character",
    }
}
