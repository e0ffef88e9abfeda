//! What the programs have in common: their command line, the texts that they read, what is said
//! where today's rules read a refused one, and what a run comes to, with its exit status.
//!
//! A program is a function from the runtime to a `Result<Outcome, Fault>`, and [`ended`] makes the
//! exit status of it:
//!
//! ```rust
//! use weedle_program::{Fault, Outcome, Request, ended, text_in};
//!
//! fn main(rt: HostRuntime) -> ExitCode {
//!     ExitCode::from(ended(&rt, read_all(&rt)).status())
//! }
//!
//! fn read_all<R: Runtime + AllocGlobal>(rt: &R) -> Result<Outcome, Fault> {
//!     for file in &Request::new(rt, "usage: read_all FILE..")?.files {
//!         text_in(rt, file.as_str())?;
//!     }
//!     Ok(Outcome::Success)
//! }
//! ```
#![tactic(auto)]

mod arguments;
mod fault;
mod input;
mod outcome;
mod run;
mod tally;
mod today;

pub use arguments::{Beside, Request};
pub use fault::Fault;
pub use input::{name_of, text_in, text_of};
pub use outcome::Outcome;
pub use run::{ended, failed};
pub use tally::Tally;
pub use today::{is_todays, write_todays};
