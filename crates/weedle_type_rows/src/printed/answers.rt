//! What is asked of an answer.

use std::alloc::{AllocError, Global};
use std::process::Abort;
use weedle_print_idl::{PrintError, WriteIdl};
use weedle_testing::Wanted;

/// What is in a text before a value is written there.
const BEFORE: &str = "// before\n";

/// Asserts that this is written of a value, behind what was there before, or that the call runs out
/// of memory and leaves the text as it was.
pub fn assert_written<T: WriteIdl>(
    rt: &impl Abort,
    alloc: Global,
    wanted: &mut Wanted,
    value: &T,
    text: &str,
) {
    let Some(mut out) = wanted.given(String::from_str(alloc, BEFORE)) else {
        return;
    };
    match value.write_idl(&mut out) {
        Ok(()) => assert!(rt; out.as_str().strip_prefix(BEFORE) == Some(text)),
        Err(PrintError::Memory) => {
            wanted.count();
            assert_eq!(rt; out.as_str(), BEFORE);
        }
        Err(PrintError::NoText) => assert!(rt; false),
    }
}

/// Asserts that a value has no text, and that nothing is written.
pub fn assert_no_text<T: WriteIdl>(
    rt: &impl Abort,
    alloc: Global,
    value: &T,
) -> Result<(), AllocError> {
    let mut out = String::from_str(alloc, BEFORE)?;
    assert!(rt; value.write_idl(&mut out) == Err(PrintError::NoText));
    assert_eq!(rt; out.as_str(), BEFORE);
    Ok(())
}
