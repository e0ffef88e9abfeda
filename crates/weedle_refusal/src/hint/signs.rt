//! Changes of signs.

use crate::hint::Hint;
use crate::hint::tokens::{Kind, Token};
use crate::hint::unread::Unread;
use std::alloc::AllocError;

/// The signs that may be missing, in the order in which they are tried.
const SIGNS: &[&str] = &[";", "=", "{", ",", ")", ">", "]", "(", ":", "};", "}"];

/// Adds the changes of a sign at which the reading stops: without it, where it is a `;` or a `,` or
/// occurs twice, and `,` in place of `;` or the other way round; and without a `,` before that.
pub(crate) fn add_other_signs(
    hints: &mut Vec<Hint>,
    unread: &Unread<'_>,
) -> Result<(), AllocError> {
    if let Some(sign) = sign_at_place(unread) {
        add_at_place(hints, unread, sign)?;
    }
    if let Some(last) = unread.read().last() {
        if last.of(unread.raw) == b",".as_slice() {
            hints.push(Hint::Extra {
                place: last.start,
                sign: ",",
            })?;
        }
    }
    Ok(())
}

/// The sign at which the reading stops, if it is one of those that may be missing.
fn sign_at_place(unread: &Unread<'_>) -> Option<&'static str> {
    let last = unread.tokens.last()?;
    if last.kind != Kind::Sign || last.start != unread.place {
        return None;
    }
    sign_of(last.of(unread.raw))
}

/// Adds the changes of the sign at which the reading stops.
fn add_at_place(
    hints: &mut Vec<Hint>,
    unread: &Unread<'_>,
    sign: &'static str,
) -> Result<(), AllocError> {
    let place = unread.place;
    if matches!(sign, ";" | ",") || is_doubled(unread) {
        hints.push(Hint::Extra { place, sign })?;
    }
    match other_of(sign) {
        Some(other) if unread.expects(other) => hints.push(Hint::WrongSign {
            place,
            found: sign,
            sign: other,
        })?,
        _ => {}
    }
    Ok(())
}

/// The sign that these bytes are, if it is one of those that may be missing.
fn sign_of(bytes: &[u8]) -> Option<&'static str> {
    SIGNS.iter().find(|sign| sign.as_bytes() == bytes).copied()
}

/// The sign that may be meant by one.
fn other_of(sign: &str) -> Option<&'static str> {
    match sign {
        ";" => Some(","),
        "," => Some(";"),
        _ => None,
    }
}

/// Whether the last two tokens are the same.
fn is_doubled(unread: &Unread<'_>) -> bool {
    let mut last = unread.tokens.iter().rev();
    match (last.next(), last.next()) {
        (Some(one), Some(two)) => one.of(unread.raw) == two.of(unread.raw),
        _ => false,
    }
}

/// Adds the signs that may be missing: behind the last token that is read, and in front of what
/// looks like another definition.
pub(crate) fn add_missing(hints: &mut Vec<Hint>, unread: &Unread<'_>) -> Result<(), AllocError> {
    let Unread { raw, tokens, .. } = *unread;
    let read = unread.read();
    let Some(last) = read.last() else {
        return Ok(());
    };
    // `long or DOMString` lacks its brackets, and no `;`.
    if last.of(raw) == b"or".as_slice() {
        return Ok(());
    }
    let place = last.end;
    let behind = tokens.get(read.len()).map(|token| token.of(raw));
    for sign in SIGNS {
        if may_be_missing(unread, sign, behind) {
            hints.push(Hint::Missing { place, sign })?;
        }
    }
    match end_before_definition(raw, read) {
        Some(end) if end != place => hints.push(Hint::Missing {
            place: end,
            sign: "};",
        })?,
        _ => {}
    }
    Ok(())
}

/// Whether a sign would go on, and one that ends a definition also is where one may end.
fn may_be_missing(unread: &Unread<'_>, sign: &str, behind: Option<&[u8]>) -> bool {
    match sign {
        "}" => unread.expects("}") && behind == Some(b";".as_slice()),
        "};" => unread.expects("}") && may_end_before(behind),
        _ => unread.expects(sign),
    }
}

/// Whether a definition may end in front of a token, or of the end of the text.
fn may_end_before(token: Option<&[u8]>) -> bool {
    match token {
        Some(bytes) => bytes == b"[".as_slice()
            || bytes.starts_with(b"///")
            || begins_definition(bytes),
        None => true,
    }
}

/// Where the last `;`, `{` or `}` ends, where a word behind it begins a definition.
fn end_before_definition(raw: &str, tokens: &[Token]) -> Option<usize> {
    let mut begins = false;
    for token in tokens.iter().rev() {
        match token.of(raw) {
            b";" | b"{" | b"}" => return if begins { Some(token.end) } else { None },
            b"includes" | b"implements" => begins = true,
            word => begins = begins || begins_definition(word),
        }
    }
    None
}

/// Whether a definition may begin with the word, past extended attributes and a docstring.
fn begins_definition(word: &[u8]) -> bool {
    matches!(
        word,
        b"callback"
            | b"dictionary"
            | b"enum"
            | b"interface"
            | b"namespace"
            | b"partial"
            | b"typedef"
    )
}
