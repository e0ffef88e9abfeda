//! What an interface or a dictionary inherits from.

mod written;

use crate::common::Identifier;
use weedle_base::term::Colon;

/// What an interface or a dictionary inherits from, as `: Node`. It takes no memory and never gives
/// a failure.
#[derive(Clone, Copy, Debug, PartialEq, Eq, PartialOrd, Ord, Hash)]
pub struct Inheritance<'a> {
    /// The `:`.
    pub colon: Colon,
    /// The name of what is inherited from.
    pub identifier: Identifier<'a>,
}
