//! The terminals: 16 symbols and 68 keywords.
//!
//! Written by tools/terminals.py, and not edited by hand.

mod capitalized_keywords;
mod definition_keywords;
mod symbols;
mod type_keywords;
