//! The members that interfaces have: constants, attributes, operations, constructors and
//! stringifiers.
//!
//! Each struct reads its fields in order, with whitespace and comments between them. Where one of
//! them isn't there it is a mismatch. Memory is taken for extended attributes, types, arguments and
//! docstrings; where it is refused that is a failure, and no other alternative is tried.
//!
//! ```rust
//! use weedle_base::Parse;
//! use weedle_members::AttributeInterfaceMember;
//!
//! let text = "readonly attribute Storage sessionStorage; void f();";
//! let (rest, member) = AttributeInterfaceMember::parse(rt.alloc(), text).expect(rt, "member");
//! assert!(rt; rest == "void f();" && member.identifier.0 == "sessionStorage");
//! ```
#![tactic(auto)]

mod attribute;
mod constant;
mod operation;
mod stringifier;

pub use attribute::AttributeInterfaceMember;
pub use constant::ConstMember;
pub use operation::{ConstructorInterfaceMember, OperationInterfaceMember};
pub use stringifier::StringifierMember;
