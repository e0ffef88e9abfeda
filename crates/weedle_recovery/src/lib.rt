//! Error recovery: all definitions of a text that can be read, and what is between them.
//!
//! [`recover`] divides a text into parts, one behind another. At a part a rule is read, as that of
//! a definition, and its nodes are written; or it is unread, and its rule fails where it begins.
//! This is panic mode: behind an unread part the reading goes on at the next synchronisation point,
//! a token that is the first of its line or follows a `;` or a `}`, at which a definition begins.
//! In the body of a definition the members are parts too.
//!
//! ```rust
//! use weedle_recovery::recover;
//!
//! let found = recover(rt.alloc(), "typedef long;\nenum E { \"a\" };")?;
//! assert!(rt; !found.parts[0].is_read);
//! assert!(rt; found.parts[1].is_read);
//! ```
#![tactic(auto)]

mod bodies;
mod counted;
mod definitions;
mod dialects;
mod division;
mod moved;
mod part;
mod pieces;
mod reading;
mod recovered;
mod recovery;
mod refusal;
mod sign;
mod stops;
mod today;
mod token;

pub use counted::{Counted, recover_counted};
pub use part::Part;
pub use recovered::{Recovered, recover, recover_in};
pub use refusal::{refusal_of_part, refusal_of_part_in};
pub use weedle_refusal::{Dialect, DialectError};
