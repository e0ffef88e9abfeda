//! What is read of texts, value for value. A value is given as it is printed by `{:?}`, which names
//! each of its fields.

use crate::printed::is_printed;
use crate::refused::refuses;
use std::alloc::Global;
use std::fmt::Debug;
use weedle_base::Parse;

/// An example: a text, the remaining input, and its value.
pub type Row<'a> = (&'a str, &'a str, &'a str);

/// Why a text isn't read as is expected: what a test says that fails.
#[derive(Debug, Drop)]
pub enum Unlike<'a> {
    /// The text is refused.
    Refused(&'a str),
    /// The text isn't refused.
    NoMismatch(&'a str),
    /// The text doesn't end the call, or elsewhere.
    NoFailure(&'a str),
    /// Other input remains than is expected.
    Rest {
        text: &'a str,
        wanted: &'a str,
        left: &'a str,
    },
    /// Another value is read than is expected; where what was read is printed so, a copy doesn't
    /// equal it. There may be no memory to print it.
    Value {
        text: &'a str,
        wanted: &'a str,
        read: Option<String>,
    },
    /// The call ends by a fault that isn't 'out of memory'.
    Fault(&'a str),
}

/// Whether each example is read so with no memory, and a copy by assignment equals what is read;
/// and whether the other texts, and `#`, are refused. An error says of which text it isn't so, and
/// how.
pub fn reads_with_no_memory<'a, T: Parse<'a> + Copy + PartialEq + Debug>(
    alloc: Global,
    rows: &[Row<'a>],
    refused: &[&'a str],
) -> Result<(), Unlike<'a>> {
    for row in rows {
        copied::<T>(alloc, *row)?;
    }
    refuses::<T>(alloc, refused)?;
    refuses::<T>(alloc, &["#"])
}

// One example.
fn copied<'a, T: Parse<'a> + Copy + PartialEq + Debug>(
    alloc: Global,
    (text, rest, value): Row<'a>,
) -> Result<(), Unlike<'a>> {
    match T::parse(alloc, text) {
        Ok((left, read)) => {
            let copy = read;
            same_rest(text, left, rest)?;
            if copy == read && is_printed(&read, value) {
                Ok(())
            } else {
                Err(other_value(alloc, text, value, &read))
            }
        }
        Err(_) => Err(Unlike::Refused(text)),
    }
}

/// Whether the rest of a text is the one that is wanted.
pub(crate) fn same_rest<'a>(
    text: &'a str,
    left: &'a str,
    wanted: &'a str,
) -> Result<(), Unlike<'a>> {
    if left == wanted {
        Ok(())
    } else {
        Err(Unlike::Rest { text, wanted, left })
    }
}

/// What a test says of another value than the one that is wanted of a text.
pub fn other_value<'a, T: Debug>(
    alloc: Global,
    text: &'a str,
    wanted: &'a str,
    read: &T,
) -> Unlike<'a> {
    let read = format!(in alloc; "{read:?}").ok();
    Unlike::Value { text, wanted, read }
}
