//! Arguments, as `optional long x = 5`.
//!
//! A list of arguments ends behind its last argument: of `long x, long` the remaining input is
//! `, long`. Extended attributes and types ask for memory: where it is refused, the call ends at
//! once with a failure of code `Memory`. What each type reads is in words in docs/GRAMMAR.md.

mod written;

use crate::attribute::ExtendedAttributeList;
use crate::types::{AttributedType, Type};
use weedle_base::term::{CloseParen, Comma, Ellipsis, OpenParen, Optional};
use weedle_parts::common::{Identifier, Punctuated};
use weedle_parts::literal::Default;

/// Arguments, as `long x, long y`, none included.
pub type ArgumentList<'a> = Punctuated<Argument<'a>, Comma>;

/// Arguments in parentheses, as `(long x, long y)`.
#[cycle(types)]
#[derive(Debug, PartialEq, Eq, PartialOrd, Ord, Hash)]
pub struct ParenthesizedArgumentList<'a> {
    /// The `(`.
    pub open_paren: OpenParen,
    /// The arguments, none included: `list` is their list.
    pub body: ArgumentList<'a>,
    /// The `)`.
    pub close_paren: CloseParen,
}

impl Drop for ParenthesizedArgumentList<'_> {
    #[cycle(drops)]
    fn drop(self) {
        let ParenthesizedArgumentList {
            open_paren: _,
            body: _,
            close_paren: _,
        } = self;
    }
}

/// An argument, as `long x`, or `long... xs` for any number of them. Of what its variants read,
/// `[extended attributes]` may be absent.
#[cycle(types)]
#[derive(Debug, PartialEq, Eq, PartialOrd, Ord, Hash)]
pub enum Argument<'a> {
    /// `[extended attributes] type name` or `[extended attributes] optional type name = value`, the
    /// latter also without `= value`.
    Single(SingleArgument<'a>),
    /// `[extended attributes] type... name`.
    Variadic(VariadicArgument<'a>),
}

impl Drop for Argument<'_> {
    #[cycle(drops)]
    fn drop(self) {
        match self {
            Argument::Single(_) | Argument::Variadic(_) => {}
        }
    }
}

/// An argument, as `optional long x = 5`. A default is read only behind `optional`: of `long x = 5`
/// the remaining input is `= 5`. The extended attributes that come first are the argument's, and
/// those behind them its type's.
#[cycle(types)]
#[derive(Debug, PartialEq, Eq, PartialOrd, Ord, Hash)]
pub struct SingleArgument<'a> {
    /// The extended attributes in brackets, as `[Exposed=Window]`, where present.
    pub attributes: Option<ExtendedAttributeList<'a>>,
    /// The word `optional`, where present.
    pub optional: Option<Optional>,
    /// Its type, as `long`, with extended attributes of its own, as in `optional [Clamp] long x`.
    pub type_: AttributedType<'a>,
    /// Its name.
    pub identifier: Identifier<'a>,
    /// Its default, as `= 5`, where present behind `optional`.
    pub default: Option<Default<'a>>,
}

impl Drop for SingleArgument<'_> {
    #[cycle(drops)]
    fn drop(self) {
        let SingleArgument {
            attributes: _,
            optional: _,
            type_: _,
            identifier: _,
            default: _,
        } = self;
    }
}

/// Any number of arguments, as `long... xs`.
#[cycle(types)]
#[derive(Debug, PartialEq, Eq, PartialOrd, Ord, Hash)]
pub struct VariadicArgument<'a> {
    /// The extended attributes in brackets, as `[Exposed=Window]`, where present.
    pub attributes: Option<ExtendedAttributeList<'a>>,
    /// Their type, as `long`, with no extended attributes of its own.
    pub type_: Type<'a>,
    /// The `...`.
    pub ellipsis: Ellipsis,
    /// Their name.
    pub identifier: Identifier<'a>,
}

impl Drop for VariadicArgument<'_> {
    #[cycle(drops)]
    fn drop(self) {
        let VariadicArgument {
            attributes: _,
            type_: _,
            ellipsis: _,
            identifier: _,
        } = self;
    }
}
