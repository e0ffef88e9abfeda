//! A body between two brackets.

ghost use Rattle.weedle_grammar.specs.written.Table.Symbols.{
  OPEN_PAREN,
  CLOSE_PAREN,
  OPEN_BRACKET,
  CLOSE_BRACKET,
  OPEN_BRACE,
  CLOSE_BRACE,
  LESS_THAN,
  GREATER_THAN,
};
ghost use Rattle.weedle_base.specs.AlikeLaws.{seen_equivalence};
ghost use Rattle.weedle_parts.specs.PartLaws.{bracket_lawful};
ghost use Rattle.weedle_parts.specs.Brackets.{
  parenthesized_view,
  parenthesized_reading,
  bracketed_view,
  bracketed_reading,
  braced_view,
  braced_reading,
  generics_view,
  generics_reading,
};

use std::alloc::{AllocError, Global};
use weedle_base::term::{
    CloseBrace, CloseBracket, CloseParen, GreaterThan, LessThan, OpenBrace, OpenBracket, OpenParen,
};
use weedle_base::{IResult, Parse, TryClone};

/// A body in parentheses, as `(a, b)`: `(`, what the body reads, `)`. Where one of the three isn't
/// there it is a mismatch. It takes the memory that the body takes.
#[derive(Clone, Copy, Debug, Default, Drop, PartialEq, Eq, PartialOrd, Ord, Hash)]
pub struct Parenthesized<T> {
    /// The `(`.
    pub open_paren: OpenParen,
    /// What is between the parentheses.
    pub body: T,
    /// The `)`.
    pub close_paren: CloseParen,
}

#[tactic(auto, using(weedle_base::proofs::Steps::seen_steps))]
impl<'a, T: Parse<'a>> Parse<'a> for Parenthesized<T> {
    ghost reading = { parenthesized_reading T.reading };

    fn parse(alloc: Global, input: &'a str) -> IResult<&'a str, Self> {
        let (rest, open_paren) = OpenParen::parse(alloc, input)?;
        let (rest, body) = T::parse(alloc, rest)?;
        let (rest, close_paren) = CloseParen::parse(alloc, rest)?;
        Ok((
            rest,
            Parenthesized {
                open_paren,
                body,
                close_paren,
            },
        ))
    }

    ghost lawful = { bracket_lawful OPEN_PAREN CLOSE_PAREN parenthesized_view T.reading T.lawful };
}

impl<T: TryClone> TryClone for Parenthesized<T> {
    ghost alike = { λ a b. T.alike a.body b.body };

    fn try_clone(&self, alloc: Global) -> Result<Self, AllocError> {
        let body = self.body.try_clone(alloc)?;
        Ok(Parenthesized {
            open_paren: self.open_paren,
            body,
            close_paren: self.close_paren,
        })
    }

    ghost equivalence = { seen_equivalence (λ v. v.body) T.equivalence };
}

/// A body in square brackets, as `[Exposed]`.
#[derive(Clone, Copy, Debug, Default, Drop, PartialEq, Eq, PartialOrd, Ord, Hash)]
pub struct Bracketed<T> {
    /// The `[`.
    pub open_bracket: OpenBracket,
    /// What is between the square brackets.
    pub body: T,
    /// The `]`.
    pub close_bracket: CloseBracket,
}

#[tactic(auto, using(weedle_base::proofs::Steps::seen_steps))]
impl<'a, T: Parse<'a>> Parse<'a> for Bracketed<T> {
    ghost reading = { bracketed_reading T.reading };

    fn parse(alloc: Global, input: &'a str) -> IResult<&'a str, Self> {
        let (rest, open_bracket) = OpenBracket::parse(alloc, input)?;
        let (rest, body) = T::parse(alloc, rest)?;
        let (rest, close_bracket) = CloseBracket::parse(alloc, rest)?;
        Ok((
            rest,
            Bracketed {
                open_bracket,
                body,
                close_bracket,
            },
        ))
    }

    ghost lawful = { bracket_lawful OPEN_BRACKET CLOSE_BRACKET bracketed_view T.reading T.lawful };
}

impl<T: TryClone> TryClone for Bracketed<T> {
    ghost alike = { λ a b. T.alike a.body b.body };

    fn try_clone(&self, alloc: Global) -> Result<Self, AllocError> {
        let body = self.body.try_clone(alloc)?;
        Ok(Bracketed {
            open_bracket: self.open_bracket,
            body,
            close_bracket: self.close_bracket,
        })
    }

    ghost equivalence = { seen_equivalence (λ v. v.body) T.equivalence };
}

/// A body in braces, as `{ .. }`.
#[derive(Clone, Copy, Debug, Default, Drop, PartialEq, Eq, PartialOrd, Ord, Hash)]
pub struct Braced<T> {
    /// The `{`.
    pub open_brace: OpenBrace,
    /// What is between the braces.
    pub body: T,
    /// The `}`.
    pub close_brace: CloseBrace,
}

#[tactic(auto, using(weedle_base::proofs::Steps::seen_steps))]
impl<'a, T: Parse<'a>> Parse<'a> for Braced<T> {
    ghost reading = { braced_reading T.reading };

    fn parse(alloc: Global, input: &'a str) -> IResult<&'a str, Self> {
        let (rest, open_brace) = OpenBrace::parse(alloc, input)?;
        let (rest, body) = T::parse(alloc, rest)?;
        let (rest, close_brace) = CloseBrace::parse(alloc, rest)?;
        Ok((
            rest,
            Braced {
                open_brace,
                body,
                close_brace,
            },
        ))
    }

    ghost lawful = { bracket_lawful OPEN_BRACE CLOSE_BRACE braced_view T.reading T.lawful };
}

impl<T: TryClone> TryClone for Braced<T> {
    ghost alike = { λ a b. T.alike a.body b.body };

    fn try_clone(&self, alloc: Global) -> Result<Self, AllocError> {
        let body = self.body.try_clone(alloc)?;
        Ok(Braced {
            open_brace: self.open_brace,
            body,
            close_brace: self.close_brace,
        })
    }

    ghost equivalence = { seen_equivalence (λ v. v.body) T.equivalence };
}

/// A body in angle brackets, as `<long>`.
#[derive(Clone, Copy, Debug, Default, Drop, PartialEq, Eq, PartialOrd, Ord, Hash)]
pub struct Generics<T> {
    /// The `<`.
    pub open_angle: LessThan,
    /// What is between the angle brackets.
    pub body: T,
    /// The `>`.
    pub close_angle: GreaterThan,
}

#[tactic(auto, using(weedle_base::proofs::Steps::seen_steps))]
impl<'a, T: Parse<'a>> Parse<'a> for Generics<T> {
    ghost reading = { generics_reading T.reading };

    fn parse(alloc: Global, input: &'a str) -> IResult<&'a str, Self> {
        let (rest, open_angle) = LessThan::parse(alloc, input)?;
        let (rest, body) = T::parse(alloc, rest)?;
        let (rest, close_angle) = GreaterThan::parse(alloc, rest)?;
        Ok((
            rest,
            Generics {
                open_angle,
                body,
                close_angle,
            },
        ))
    }

    ghost lawful = { bracket_lawful LESS_THAN GREATER_THAN generics_view T.reading T.lawful };
}

impl<T: TryClone> TryClone for Generics<T> {
    ghost alike = { λ a b. T.alike a.body b.body };

    fn try_clone(&self, alloc: Global) -> Result<Self, AllocError> {
        let body = self.body.try_clone(alloc)?;
        Ok(Generics {
            open_angle: self.open_angle,
            body,
            close_angle: self.close_angle,
        })
    }

    ghost equivalence = { seen_equivalence (λ v. v.body) T.equivalence };
}
