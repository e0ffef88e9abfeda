//! What is read is a rendering of its value: a formatter, a validator or a diff can be on the value
//! alone.
//!
//! The crate has laws and no call; those of members and definitions are in `weedle_spell_idl`. A
//! law is a function of [`laws`] that does nothing when it runs. It says of one type: where the
//! type's rule gives the tree of a value, the text that the rule took is a rendering of the value,
//! and the texts that the value keeps are in it in their order.
//!
//! - A rendering is a set of texts, by cases on the value (`specs/`). It knows of no places, rules
//!   or order of choices; only the classes of bytes are the grammar's.
//! - `Spells` holds of a text also where it would hold with an LF behind it: a line comment at the
//!   end of a text needs no LF. Inside a value nothing is so widened, and a docstring never is.
//! - A value has many renderings: nothing is said of which of them are read.
//! - Types, extended attributes and arguments hold one another. The logic holds a value of such a
//!   type flat, with the parts of what is in it, and its rendering is written so.
//!   [`laws::variants`] says that it is the rendering of what is in it all the same, and
//!   [`laws::variant_trees`] that its tree is.
//!
//! ```rust
//! use weedle_base::Parse;
//! use weedle_parts::literal::StringLit;
//!
//! // What `parse` took is what the rule of strings takes, so it is trivia, a quote, the value's
//! // text, a quote, trivia.
//! let (rest, value) = StringLit::parse(rt.alloc(), " \"a\" // b").expect(rt, "a text");
//! weedle_spell::laws::string();
//! assert!(rt; rest == "" && value.0 == "a");
//! ```
//!
//! ```rust
//! use weedle_base::Parse;
//! use weedle_types::types::Type;
//!
//! // So it spells the type: `sequence`, `<`, what spells `long`, and `>`, with blanks and comments
//! // between them.
//! let (rest, _) = Type::parse(rt.alloc(), "sequence < long /* l */ > x").expect(rt, "a type");
//! weedle_spell::laws::type_();
//! assert!(rt; rest == "x");
//! ```
#![tactic(auto)]

pub mod laws;
