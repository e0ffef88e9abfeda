//! A formatted text.

ghost use Rattle.std.specs.Prelude.{
  ◌≡◌,
  ◌≤◌,
  ◌↔◌,
  length,
  false,
  IsTrue,
  IsSome,
  IfOk,
  IfSome,
  string_bytes,
};
ghost use Rattle.weedle_syntax.specs.Dialects.{IsWholeIn, IsSyntaxIn};
ghost use Rattle.weedle_syntax.specs.Syntax.{IsWhole, IsSyntax};
ghost use Rattle.weedle_formatter.specs.Bound.{most_laid_out};
ghost use Rattle.weedle_formatter.specs.Words.{
  SaysTheSame,
  SaysTheSameIn,
  IsReadAlike,
  IsReadAlikeIn,
};

use crate::page::short_layout;
use crate::words::same_words;
use std::alloc::{AllocError, Global};
use weedle_syntax::{Dialect, Node, syntax_quick, syntax_quick_in};

/// What [`format`] makes of a text that is read whole.
#[derive(Debug, Drop)]
pub struct Formatted {
    /// The formatted text, or as it was.
    pub text: String,
    /// Whether it was formatted. Else it is as it was, since its layout would have changed what it
    /// says, of which no text is known, or would have been too long, as that of thousands of
    /// attributes of a letter each in seven others.
    pub is_laid_out: bool,
}

/// The formatted text, where it is read whole; None where it isn't, as `interface A {`.
///
/// Whitespace is moved, and nothing else changes. What was formatted is read again and compared: so
/// an error in the layout never comes out.
///
/// It reads as [`syntax_quick`] does, and costs a quarter more than that; where the layout isn't
/// the text itself, it is read too and compared, and all costs two and a half times as much. It
/// asks for memory for the nodes of both texts, for what is between their whitespace, and for the
/// answer.
#[tactic(auto, using(crate::proofs::ReadingFacts::same_reading))]
pub fn format(alloc: Global, raw: &str) -> Result<Option<Formatted>, AllocError>
    ensures whole { IfOk result (λ found. IsSome found ↔ IsWhole raw.now) }

    // The same rules are read, each as deep, and all bytes except for those of whitespace and of
    // the ends of line comments are the same.
    ensures same { IfOk result
        (λ found. IfSome found (λ answer. SaysTheSame raw.now (string_bytes answer.text))) }

    // So whatever trees the grammar reads of the text, it reads of the answer's, and no others.
    ensures trees { IfOk result
        (λ found. IfSome found (λ answer. IsReadAlike raw.now (string_bytes answer.text))) }
    // It is at most eight times as long, and 1,024 bytes more.
    ensures short { IfOk result
        (λ found. IfSome found
        (λ answer. length (string_bytes answer.text) ≤ most_laid_out (length raw.now))) }
    ensures as_it_stood { IfOk result
        (λ found. IfSome found
        (λ answer. answer.is_laid_out ≡ false → string_bytes answer.text ≡ raw.now)) }
{
    let Some(nodes) = syntax_quick(alloc, raw)? else {
        return Ok(None);
    };
    if let Some(text) = short_layout(alloc, raw, &nodes)? {
        if says_the_same(alloc, raw, &nodes, text.as_str())? {
            return Ok(Some(Formatted {
                text,
                is_laid_out: true,
            }));
        }
    }
    let text = String::from_str(alloc, raw)?;
    Ok(Some(Formatted {
        text,
        is_laid_out: false,
    }))
}

/// The formatted text, where it is read whole by the rules of a dialect; None where it isn't.
///
/// `[Exposed=*]interface A{};` becomes `[Exposed=*] interface A {};` by today's rules, and
/// weedle2's don't read it. A text that both read has one layout. A text of whitespace and comments
/// alone, which today's rules read, stays as it is; so does what they read behind a docstring that
/// no definition follows.
///
/// It costs what [`format`] costs.
#[tactic(auto, using(crate::proofs::ReadingFacts::same_reading))]
pub fn format_in(
    alloc: Global,
    raw: &str,
    dialect: Dialect,
) -> Result<Option<Formatted>, AllocError>
    ensures whole { IfOk result (λ found. IsSome found ↔ IsWholeIn dialect raw.now) }

    // The same rules are read, each as deep, and all bytes except for those of whitespace and of
    // the ends of line comments are the same.
    ensures same { IfOk result
        (λ found. IfSome found
        (λ answer. SaysTheSameIn dialect raw.now (string_bytes answer.text))) }

    // So whatever trees the dialect's rules read of the text, they read of the answer's, and no
    // others.
    ensures trees { IfOk result
        (λ found. IfSome found
        (λ answer. IsReadAlikeIn dialect raw.now (string_bytes answer.text))) }
    // It is at most eight times as long, and 1,024 bytes more.
    ensures short { IfOk result
        (λ found. IfSome found
        (λ answer. length (string_bytes answer.text) ≤ most_laid_out (length raw.now))) }
    ensures as_it_stood { IfOk result
        (λ found. IfSome found
        (λ answer. answer.is_laid_out ≡ false → string_bytes answer.text ≡ raw.now)) }
{
    let Some(nodes) = syntax_quick_in(alloc, raw, dialect)? else {
        return Ok(None);
    };
    if let Some(layout) = short_layout(alloc, raw, &nodes)? {
        if says_the_same_in(alloc, raw, &nodes, layout.as_str(), dialect)? {
            return Ok(Some(Formatted {
                text: layout,
                is_laid_out: true,
            }));
        }
    }
    let text = String::from_str(alloc, raw)?;
    Ok(Some(Formatted {
        text,
        is_laid_out: false,
    }))
}

/// Whether another text is read whole and says the same as the text of these nodes.
fn says_the_same(alloc: Global, raw: &str, nodes: &[Node], out: &str) -> Result<bool, AllocError>
    requires whole { IsWhole raw.now }
    requires are { IsSyntax raw.now nodes.now }
    ensures { IfOk result (λ same. IsTrue same → SaysTheSame raw.now out.now) }
{
    if out == raw {
        return Ok(true);
    }
    let Some(others) = syntax_quick(alloc, out)? else {
        return Ok(false);
    };
    Ok(same_words(raw.as_bytes(), nodes, out.as_bytes(), &others))
}

/// The same by the rules of a dialect.
fn says_the_same_in(
    alloc: Global,
    raw: &str,
    nodes: &[Node],
    out: &str,
    dialect: Dialect,
) -> Result<bool, AllocError>
    requires whole { IsWholeIn dialect raw.now }
    requires are { IsSyntaxIn dialect raw.now nodes.now }
    ensures { IfOk result (λ same. IsTrue same → SaysTheSameIn dialect raw.now out.now) }
{
    if out == raw {
        return Ok(true);
    }
    let Some(others) = syntax_quick_in(alloc, out, dialect)? else {
        return Ok(false);
    };
    let is_same = same_words(raw.as_bytes(), nodes, out.as_bytes(), &others);
    Ok(is_same)
}
