//! Where and why a text is refused: the furthest place at which something that was tried fails, and
//! what fails there.
//!
//! ```rust
//! use weedle_refusal::diagnose::diagnose_quick;
//!
//! let text = "interface A { readonly attribute long x };";
//! let diagnosis = diagnose_quick(rt.alloc(), text, 0)?;
//! assert_eq!(rt; diagnosis.place, 40);
//! ```
//!
//! At 40 is the `}`, where the text lacks a `;`. So the rule of that sign is one of `expected`,
//! beside those that begin a comment or whitespace, which may be there too. [`diagnose_from`] says
//! the same over a packrat table.
#![tactic(auto)]

mod descent;
mod diagnosis;
mod marking;
mod marks;
mod noted;
mod opened;
mod quick;
mod tries;
mod unmet;
mod ways;

pub use diagnosis::{Diagnosis, diagnose_from};
pub(crate) use quick::diagnose_within_in;
pub use quick::{diagnose_by_descent, diagnose_in, diagnose_quick, diagnose_within};
