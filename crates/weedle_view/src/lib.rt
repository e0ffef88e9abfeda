//! What is said of definitions. What many kinds of definitions and members have is said by
//! reference: so a caller writes no match over their kinds, and no recursion over types. Kinds and
//! names are said too, in outlines and in reports of lines.
//!
//! [`extended_attributes_of`], [`docstring_of`] and [`inheritance_of`] are of a definition,
//! [`MemberView`] of a member of any list, and [`members_of`] gives the views of all members of a
//! definition. [`type_names`] and its like give the names that types speak of.
//! [`definition_named`], [`parts_named`], [`included_into`] and [`ancestors`] say what belongs to a
//! name. [`kind_of`] and [`name_of`] are of a definition too, [`outline`] of a list with its
//! docstrings. By [`lend`] a function lends the list that it owns.
//!
//! ```rust
//! use weedle_base::Parse;
//! use weedle_idl::InterfaceDefinition;
//! use weedle_view::{MemberView, type_names};
//!
//! let text = "interface Window { readonly attribute sequence<Storage?> stores; };";
//! let (_, window) = InterfaceDefinition::parse(rt.alloc(), text).expect(rt, "interface");
//! for member in &window.members.body {
//!     if let Some(type_) = MemberView::of_interface(member).type_ {
//!         assert_eq!(rt; type_names(rt.alloc(), type_)?.len(), 1);
//!     }
//! }
//! ```
#![tactic(auto)]

mod ancestry;
mod definition;
mod entries;
mod kind;
mod lending;
mod member;
mod members;
mod names;
mod parts;
mod report;
mod titles;

pub use ancestry::ancestors;
pub use definition::{docstring_of, extended_attributes_of, inheritance_of};
pub use entries::{Entry, outline};
pub use kind::MemberKind;
pub use lending::lend;
pub use member::MemberView;
pub use members::members_of;
pub use names::{
    type_names, type_names_of_arguments, type_names_of_attributes, type_names_of_return,
};
pub use parts::{definition_named, included_into, parts_named};
pub use report::{Outlines, Report, Titles, lines_of};
pub use titles::{kind_of, name_of};
