//! Whole texts written anew, in one layout, and read again before they are given.
//!
//! ```rust
//! use weedle_whole::write_whole;
//!
//! let text = "interface A{attribute long x;}; // of A";
//! let written = write_whole(rt.alloc(), text)?;
//! assert_eq!(rt; written.as_deref(), Some("interface A {\n  attribute long x;\n};\n"));
//! assert!(rt; write_whole(rt.alloc(), "interface A {")?.is_none());
//! ```
#![tactic(auto)]

mod error;
mod whole;

pub use error::WholeError;
pub use whole::write_whole;
