//! What a value is printed as, compared with no memory.

use std::fmt::{self, Debug, Write};

/// What is left to be printed.
#[derive(Drop)]
struct Left<'a>(&'a str);

impl Write for Left<'_> {
    fn write_str(&mut self, s: &str) -> fmt::Result {
        match self.0.strip_prefix(s) {
            Some(left) => {
                self.0 = left;
                Ok(())
            }
            None => Err(fmt::Error),
        }
    }
}

/// Whether `{:?}` prints this text of the value. It takes no memory.
pub fn is_printed<T: Debug>(value: &T, text: &str) -> bool {
    let mut left = Left(text);
    write!(left, "{value:?}").is_ok() && left.0.is_empty()
}
