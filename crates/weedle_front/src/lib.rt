//! Whole texts: the list of their definitions, and the programs over it.
//!
//! [`parse`] reads a text as a list of definitions, or says from where on it is none.
//! [`parse_bounded`], [`parse_by_descent`] and [`parse_quick`] answer the same, and need less time
//! and memory for what people write. [`explain`] says why a text is refused. [`run`] is the
//! program: it reads its input to the end, and writes what the text defines.
//!
//! ```rust
//! use weedle_front::{name_of, parse};
//!
//! let text = "interface Window { readonly attribute Storage sessionStorage; };";
//! for definition in parse(rt.alloc(), text)? {
//!     assert_eq!(rt; name_of(&definition), "Window");
//! }
//! ```
//!
//! The port's name for this is `weedle`, which has all types under one path too.
#![tactic(auto)]

mod bounded;
mod descent;
mod fault_text;
mod program;
mod reader;
mod refusal;

pub use bounded::parse_bounded;
pub use descent::{parse_by_descent, parse_quick};
pub use program::{RunFault, Status, run, run_outline};
pub use reader::{Counted, parse, parse_counted};
pub use refusal::{explain, explain_in};
pub use weedle_idl::{Definition, Definitions};
pub use weedle_nesting::{Depths, nesting};
pub use weedle_view::{Entry, kind_of, lend, name_of, outline};
