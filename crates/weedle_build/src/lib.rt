//! The second pass over a text: the list of its definitions, built along its packrat table or along
//! a memo of them.
//!
//! ```rust
//! use weedle_build::build_definitions;
//! use weedle_rules::Ends;
//!
//! let text = "interface Window {}; Window includes Timers; x";
//! let ends = Ends::new(rt.alloc(), text)?;
//! let built = build_definitions(rt.alloc(), &ends, text)?;
//! assert!(rt; built.list.len() == 2 && built.rest == "x");
//! ```
//!
//! How the values of members and definitions are built stands here too. Of other types it stands in
//! the crates below: in `weedle_build_base` for what holds no other type, in `weedle_build_types`
//! for the types that hold one another.
#![tactic(auto)]

mod built;
mod part;
mod written;

pub use built::{Built, build_by_memo, build_definitions};
