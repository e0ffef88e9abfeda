//! Each function on examples. Where two values differ, so do their hashes here.
//!
//! Those of which one call says all, each once:
//!
//! ```rust
//! use std::cmp::Ordering;
//! use weedle_base::term::{CloseBrace, CloseBracket, Comma, OpenBrace, OpenBracket};
//! use weedle_base::{Err, Error, ErrorKind};
//! use weedle_comparisons::leaves::{clone_comma, commas_hash_alike, compare_commas, default_comma};
//! use weedle_comparisons::leaves::{clone_error, equal_ends, equal_errors, equal_kinds};
//! use weedle_comparisons::literals::{default_empty_array, default_empty_dictionary};
//! use weedle_comparisons::members::default_stringifier;
//!
//! assert!(rt; compare_commas(Comma, default_comma()) == (true, Ordering::Equal));
//! assert!(rt; commas_hash_alike(Comma, default_comma()));
//! assert!(rt; clone_comma(&Comma)? == (Comma, true));
//!
//! let code = ErrorKind::Mismatch;
//! let (a, b) = (Error { input: "a", code }, Error { input: "b", code });
//! assert!(rt; equal_kinds(code, code) && !equal_kinds(code, ErrorKind::Memory));
//! assert!(rt; equal_errors(a, a) && !equal_errors(a, b));
//! assert!(rt; equal_ends(Err::Error(a), Err::Error(a)));
//! assert!(rt; !equal_ends(Err::Error(a), Err::Error(b)));
//! assert!(rt; !equal_ends(Err::Error(a), Err::Failure(a)));
//! assert!(rt; clone_error(&a)? == (a, true));
//!
//! let array = default_empty_array();
//! assert!(rt; (array.open_bracket, array.close_bracket) == (OpenBracket, CloseBracket));
//! let dictionary = default_empty_dictionary();
//! assert!(rt; (dictionary.open_brace, dictionary.close_brace) == (OpenBrace, CloseBrace));
//! assert!(rt; default_stringifier().attributes.is_none());
//! ```

mod laws;
mod leaves;
mod literals;
mod modifiers;
mod types;

use std::alloc::{AllocError, Global};
use std::cmp::Ordering;
use weedle_base::term::{Colon, Comma, Long, Short, Unsigned};
use weedle_parts::common::{Docstring, Identifier, Punctuated};
use weedle_parts::inheritance::Inheritance;
use weedle_parts::types::{IntegerType, LongType, ShortType};

const LESS: (bool, Ordering) = (false, Ordering::Less);

const EQUAL: (bool, Ordering) = (true, Ordering::Equal);

const GREATER: (bool, Ordering) = (false, Ordering::Greater);

const LONG: IntegerType = IntegerType::Long(LongType {
    unsigned: None,
    long: Long,
});

const UNSIGNED_LONG: IntegerType = IntegerType::Long(LongType {
    unsigned: Some(Unsigned),
    long: Long,
});

const UNSIGNED_SHORT: IntegerType = IntegerType::Short(ShortType {
    unsigned: Some(Unsigned),
    short: Short,
});

fn docstring(alloc: Global, text: &str) -> Result<Docstring, AllocError> {
    Ok(Docstring(String::from_str(alloc, text)?))
}

fn name_list<'a>(
    alloc: Global,
    names: &[&'a str],
) -> Result<Punctuated<Identifier<'a>, Comma>, AllocError> {
    let mut list = Vec::new(alloc);
    for name in names {
        list.push(Identifier(name))?;
    }
    Ok(Punctuated {
        list,
        separator: Comma,
    })
}

fn inherited(name: &str) -> Inheritance<'_> {
    Inheritance {
        colon: Colon,
        identifier: Identifier(name),
    }
}
