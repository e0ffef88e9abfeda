//! The text of an input.

use crate::fault::Fault;
use std::alloc::Global;
use std::fs;
use std::io::{self, Read};
use std::rt::Runtime;

/// What the standard input is called in what is said of it.
const STANDARD_INPUT: &str = "<stdin>";

/// What a file is called in what is said of it: by its name, and `-`, the standard input,
/// `<stdin>`.
pub fn name_of(file: &str) -> &str {
    if file == "-" { STANDARD_INPUT } else { file }
}

/// The text of the file of this name, or of the standard input where the name is `-`. It fails
/// where the file can't be opened or read or isn't UTF-8, and where memory is refused.
pub fn text_in<R: Runtime + AllocGlobal>(rt: &R, file: &str) -> Result<String, Fault> {
    if file == "-" {
        text_of(rt.alloc(), Ok(rt.reader()))
    } else {
        text_of(rt.alloc(), fs::open(rt, file))
    }
}

/// What an input gives up to its end, as a text. It fails where the input can't be opened or read
/// or isn't UTF-8, and where memory is refused.
pub fn text_of<R: Read + Drop>(alloc: Global, opened: io::Result<R>) -> Result<String, Fault> {
    let mut bytes = Vec::new(alloc);
    match opened {
        Ok(mut reader) => match reader.read_to_end(&mut bytes) {
            Ok(_) => {}
            Err(error) => return Err(Fault::of_input(error)),
        },
        Err(error) => return Err(Fault::of_input(error)),
    }
    match String::from_utf8(bytes) {
        Ok(text) => Ok(text),
        Err(_) => Err(Fault::NotUtf8),
    }
}
