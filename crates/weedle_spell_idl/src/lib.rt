//! The laws of renderings of members and definitions, as `weedle_spell` has them of what these are
//! made of.
//!
//! ```rust
//! use weedle_base::Parse;
//! use weedle_idl::Definitions;
//!
//! // What `parse` took is what the rule of definitions takes, so it spells the list.
//! let (rest, _) = Definitions::parse(rt.alloc(), "enum E { \"a\" }; x").expect(rt, "a list");
//! weedle_spell_idl::laws::definitions();
//! assert!(rt; rest == "x");
//! ```
#![tactic(auto)]

pub mod laws;
