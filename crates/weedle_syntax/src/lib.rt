//! The concrete syntax tree of a text: every rule that was read, with its bytes.
//!
//! A [`Node`] says of a rule from which byte to which it was read. The nodes of a text are in
//! preorder, and no byte is lost: the leaves, one after another, are the text, with its whitespace
//! and comments. [`Syntax`] holds a text with its nodes, to go from node to node.
//!
//! ```rust
//! use weedle_grammar::Rule;
//! use weedle_syntax::Syntax;
//!
//! let text = "interface A { attribute long x; }; // end";
//! if let Some(syntax) = Syntax::new(rt.alloc(), text)? {
//!     if let Some(member) = syntax.find(Rule::ATTRIBUTE_INTERFACE_MEMBER, 0) {
//!         assert_eq!(rt; syntax.text_of(member), "attribute long x; ");
//!     }
//! }
//! ```
//!
//! A [`Dialect`] says by whose rules a text is read, weedle2's or today's:
//!
//! ```rust
//! use weedle_syntax::{Dialect, Syntax};
//!
//! let text = "[Exposed=*] interface A {};";
//! if let Some(syntax) = Syntax::new_in(rt.alloc(), text, Dialect::Today)? {
//!     assert!(rt; syntax.dialect() == Dialect::Today);
//!     assert_eq!(rt; syntax.rest(), 27);
//! }
//! assert!(rt; Syntax::new(rt.alloc(), text)?.is_none());
//! ```
#![tactic(auto)]

mod below;
mod compact;
mod descent;
mod dialect;
mod empty;
mod fill;
mod front;
mod iter;
mod kinds;
pub mod laws;
mod lay;
mod limits;
mod narrow;
mod node;
mod on_demand;
mod quick;
mod readers;
mod runs;
mod table;
mod token;
mod tree;
mod trivia;
mod walk;

pub use compact::Compact;
pub use dialect::{Dialect, syntax_quick_in};
pub use fill::FromNode;
pub use front::{compact_of_front, compact_of_rule};
pub use iter::{Children, Leaves};
pub use lay::lay_by_descent;
pub use limits::Limits;
pub use node::Node;
pub use on_demand::syntax;
pub use quick::{Counted, syntax_counted, syntax_of_front, syntax_of_rule, syntax_quick};
pub use readers::{front_of, rule_of_table, syntax_by_descent, syntax_of};
pub use tree::Syntax;
pub use walk::lay_over_table;
