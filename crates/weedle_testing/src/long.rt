//! Longer texts, made of parts.

use crate::requests::Wanted;
use std::alloc::{AllocError, Global};

/// Extended attributes within extended attributes, to so many levels, before an interface:
/// `[A([A(a... b)] a... b)] interface I {};` has one. It fails where memory is refused.
pub fn nested_attributes(alloc: Global, levels: usize) -> Result<String, AllocError> {
    let mut text = String::new(alloc);
    for _ in 0..levels {
        text.push_str("[A(")?;
    }
    text.push_str("[A(a... b")?;
    for _ in 0..levels {
        text.push_str(")] a... b")?;
    }
    text.push_str(")] interface I {};")?;
    Ok(text)
}

/// The 495 bytes of nested extended attributes to 39 levels, with ample memory unless a request is
/// refused again.
pub fn nested_text(alloc: Global, wanted: &mut Wanted) -> Result<String, AllocError> {
    match wanted.given(nested_attributes(alloc, 39)) {
        Some(text) => Ok(text),
        None => nested_attributes(alloc, 39),
    }
}

/// A text with a part of it so many times. It fails where memory is refused.
pub fn repeated(
    alloc: Global,
    front: &str,
    part: &str,
    times: usize,
    back: &str,
) -> Result<String, AllocError> {
    let mut text = String::from_str(alloc, front)?;
    for _ in 0..times {
        text.push_str(part)?;
    }
    text.push_str(back)?;
    Ok(text)
}
