//! The definitions of a text, written anew as Web IDL.

use std::alloc::Global;
use std::io::Write;
use weedle_base::Err;
use weedle_front::parse_quick;
use weedle_print_idl::{PrintError, WriteIdl};
use weedle_program::Fault;

/// Writes the definitions of a text that is read whole, in the layout that there is. Comments and
/// whitespace of the text are in no value, so they are not in what is written.
///
/// It reads the text as [`parse_quick`] does, and asks for memory for what is written too. It fails
/// where memory is refused, where no text is a rendering of a value, and where the output can't be
/// written.
pub fn write_idl<W: Write>(alloc: Global, text: &str, out: &mut W) -> Result<(), Fault> {
    let definitions = match parse_quick(alloc, text) {
        Ok(definitions) => definitions,
        Err(Err::Error(_)) => return Ok(()),
        Err(Err::Failure(_)) => return Err(Fault::Memory),
    };
    let written = match idl_of(alloc, definitions) {
        Ok(written) => written,
        Err(PrintError::Memory) => return Err(Fault::Memory),
        Err(PrintError::NoText) => return Err(Fault::NoText),
    };
    write!(out, "{written}")?;
    Ok(())
}

/// The text of values one after another.
fn idl_of<T: WriteIdl + Drop>(alloc: Global, list: Vec<T>) -> Result<String, PrintError> {
    let mut written = String::new(alloc);
    list.write_idl(&mut written)?;
    Ok(written)
}
