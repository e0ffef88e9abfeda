//! Where definitions, their members and names are in a text.
//!
//! ```rust
//! use weedle_places::{Role, names, places};
//!
//! let text = "interface A { attribute B x; };";
//! if let Some(found) = places(rt.alloc(), text)? {
//!     for place in &found {
//!         assert_eq!(rt; place.span.end, 31);
//!         assert_eq!(rt; place.members.len(), 1);
//!     }
//! }
//! if let Some(found) = names(rt.alloc(), text)? {
//!     assert_eq!(rt; found.len(), 3);
//!     assert_eq!(rt; found[1].text, "B");
//!     assert_eq!(rt; found[1].role, Role::Type);
//! }
//! ```
//!
//! By today's rules a text is read where a dialect is named:
//!
//! ```rust
//! use weedle_places::{names_in, places_by, references_in};
//! use weedle_syntax::Dialect;
//!
//! let text = "[Exposed=*] interface A {}; interface B { async_iterable<A>; }; // end";
//! if let Some(found) = places_by(rt.alloc(), text, Dialect::Today)? {
//!     assert_eq!(rt; found.len(), 2);
//!     assert_eq!(rt; found[1].members.len(), 1);
//! }
//! if let Some(found) = names_in(rt.alloc(), text, Dialect::Today)? {
//!     assert_eq!(rt; found.len(), 4);
//! }
//! if let Some(found) = references_in(rt.alloc(), text, "A", Dialect::Today)? {
//!     assert_eq!(rt; found.len(), 1);
//!     assert_eq!(rt; found[0].span.start, 57);
//! }
//! ```
#![tactic(auto)]

mod above;
mod around;
mod comments;
mod members;
mod name;
mod own;
mod parts;
mod place;
mod reference;
mod role;
mod span;

pub use comments::comments_in;
pub use members::MemberPlace;
pub use name::{Name, names, names_in, names_of};
pub use place::{Place, places, places_by, places_in, places_of};
pub use reference::{references, references_in, references_of};
pub use role::Role;
pub use span::Span;
