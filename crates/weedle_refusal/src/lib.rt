//! Why a text is refused: where, at which line and column, in words what would have been read
//! there, and what would fix it. It depends on the grammar and the packrat table, and on no type of
//! the tree.
//!
//! ```rust
//! use weedle_refusal::{position_of, refusal_of};
//!
//! let text = "interface A {\n  readonly attribute long x\n};";
//! if let Some(refusal) = refusal_of(rt.alloc(), text)? {
//!     let position = position_of(text, refusal.place);
//!     println!(rt; "a.webidl:{position}: {refusal}")?;
//! }
//! ```
//!
//! It prints ``a.webidl:3:1: expected `;` ``.
#![tactic(auto)]

mod behind;
pub mod diagnose;
mod display;
mod error;
mod excerpt;
mod expected;
mod furthest;
mod hint;
pub mod laws;
mod lines;
mod message;
mod position;
mod refusal;
mod starts;
mod today_starts;
mod words;

pub use behind::{refusal_at, refusal_at_in, refusal_behind, refusal_behind_in};
pub use error::DialectError;
pub use excerpt::write_excerpt;
pub use expected::Expected;
pub use furthest::{furthest_by, furthest_in};
pub use hint::{Hint, hint_of, write_hint};
pub use lines::Lines;
pub use message::write_message;
pub use position::{Position, position_of};
pub use refusal::{Refusal, refusal_from, refusal_in, refusal_of, rest_of};
pub use weedle_grammar::Class;
pub use weedle_syntax::Dialect;
