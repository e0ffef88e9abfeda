//! A formatted text, which says the same as before.
//!
//! ```rust
//! use weedle_formatter::format;
//!
//! if let Some(answer) = format(rt.alloc(), "interface A{attribute long x;};")? {
//!     assert_eq!(rt; answer.text.as_str(), "interface A {\n  attribute long x;\n};\n");
//! }
//! ```
//!
//! [`format_in`] reads by the rules of a dialect:
//!
//! ```rust
//! use weedle_formatter::format_in;
//! use weedle_syntax::Dialect;
//!
//! if let Some(answer) = format_in(rt.alloc(), "[Exposed=*]interface A{};", Dialect::Today)? {
//!     assert_eq!(rt; answer.text.as_str(), "[Exposed=*] interface A {};\n");
//! }
//! ```
#![tactic(auto)]

mod apart;
mod fits;
mod formatter;
mod gaps;
mod in_front;
mod joint;
pub mod laws;
mod line_end;
mod page;
mod piece;
mod pieces;
mod words;

pub use formatter::{Formatted, format, format_in};
pub use page::lay_out;
pub use words::same_words;
