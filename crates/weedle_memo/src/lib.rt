//! A lazy packrat parser: of a text only what the reading of its definitions needs, each rule at
//! each place at most once, with no recursion.
//!
//! ```rust
//! use weedle_memo::{Memo, Tables};
//!
//! let tables = Tables::new();
//! let memo = Memo::new(rt.alloc(), "interface A {}; // end", &tables)?;
//! assert_eq!(rt; memo.definitions_end(), Some(22));
//! assert!(rt; memo.workings() < 100);
//! ```
//!
//! The packrat table of `weedle_rules` fills a cell for each of weedle2's 386 rules at each place,
//! 23 times 386 of this text. Both say where a rule ends at a place, or that it fails; the memo
//! only of what is read, and of what that tries.
#![tactic(auto)]

mod entries;
mod frame;
mod leaves;
mod machine;
mod memo;
mod memo_table;
mod read;
mod reader;
mod rule_memo;
mod tables;

pub use memo::Memo;
pub use rule_memo::RuleMemo;
pub use tables::Tables;
pub use weedle_rules::READS;
