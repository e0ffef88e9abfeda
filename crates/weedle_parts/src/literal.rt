//! Literals and defaults, with the trivia around them. None of them takes memory, and none ever
//! gives a failure: what a literal keeps of the text it borrows. Where a type has several forms
//! they are tried in turn, and each of them reads the trivia before the literal again.
//!
//! ```rust
//! use weedle_base::Parse;
//! use weedle_parts::literal::{HexLit, IntegerLit};
//!
//! let read = IntegerLit::parse(rt.alloc(), "0x1F;");
//! assert!(rt; read == Ok((";", IntegerLit::Hex(HexLit("0x1F")))));
//! ```

mod boolean;
mod default;
mod empty;
mod float;
mod integer;
mod string;
mod value;

pub use boolean::BooleanLit;
pub use default::Default;
pub use empty::{EmptyArrayLit, EmptyDictionaryLit};
pub use float::{FloatLit, FloatValueLit};
pub use integer::{DecLit, HexLit, IntegerLit, OctLit};
pub use string::StringLit;
pub use value::{ConstValue, DefaultValue};
