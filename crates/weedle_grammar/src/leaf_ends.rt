//! Rows without parts: where they end at a place of a text, as bytes. None of these calls takes
//! memory.

ghost use Rattle.std.specs.Prelude.{◌≡◌, ◌≤◌, ◌+◌, length, drop, option_map, IfSome};
ghost use Rattle.weedle_grammar.specs.Rows.{
  begins as begins_with,
  take_bytes as the_take_bytes,
  take_one as the_take_one,
  take_not_next as the_take_not_next,
  run_length as the_run_length,
  take_past as the_take_past,
};

use crate::{Class, holds};

/// Where these bytes end at a place: of `enum` at the front of `enum E {};` 4, and None where
/// others are there. It is what a row `Bytes` reads.
#[inline(always)]
pub fn end_of_bytes(bytes: &[u8], text: &[u8], place: usize) -> Option<usize>
    requires { place ≤ length text.now }
    ensures { result
        ≡ option_map (λ k. place + k) (the_take_bytes bytes.now (drop place text.now)) }
{
    match take_bytes(bytes, &text[place..]) {
        Some(taken) => Some(place + taken),
        None => None,
    }
}

/// Where one byte of the class ends at a place; None where another byte is there, or the text ends.
/// It is what a row `OneOf` reads.
#[inline(always)]
pub fn end_of_one(class: Class, text: &[u8], place: usize) -> Option<usize>
    requires { place ≤ length text.now }
    ensures { result ≡ option_map (λ k. place + k) (the_take_one class (drop place text.now)) }
{
    match take_one(class, &text[place..]) {
        Some(taken) => Some(place + taken),
        None => None,
    }
}

/// The place itself, where no byte of the class is there, as at the end of the text; else None. It
/// is what a row `NotNext` reads.
#[inline(always)]
pub fn end_of_not_next(class: Class, text: &[u8], place: usize) -> Option<usize>
    requires { place ≤ length text.now }
    ensures { result ≡ option_map (λ k. place + k) (the_take_not_next class (drop place text.now)) }
{
    match take_not_next(class, &text[place..]) {
        Some(taken) => Some(place + taken),
        None => None,
    }
}

/// Where the bytes of the class end at a place: the place itself where there are none. It is what a
/// row `Run` reads.
#[inline(always)]
pub fn end_of_run(class: Class, text: &[u8], place: usize) -> usize
    requires { place ≤ length text.now }
    ensures { result ≡ place + the_run_length class (drop place text.now) }
{
    place + run_length(class, &text[place..])
}

/// Where the first of these bytes end at a place or behind it, as `*/` of a comment; None where
/// they aren't there. It is what a row `Past` reads.
#[inline(always)]
pub fn end_past(bytes: &[u8], text: &[u8], place: usize) -> Option<usize>
    requires { place ≤ length text.now }
    ensures { result ≡ option_map (λ k. place + k) (the_take_past bytes.now (drop place text.now)) }
{
    match take_past(bytes, &text[place..]) {
        Some(taken) => Some(place + taken),
        None => None,
    }
}

/// Whether what is left begins with the bytes.
fn begins(bytes: &[u8], left: &[u8]) -> bool
    ensures { result ≡ begins_with bytes.now left.now }
{
    for i in 0..bytes.len() {
        if i >= left.len() {
            return false;
        }
        if bytes[i] != left[i] {
            return false;
        }
    }
    true
}

/// These bytes.
fn take_bytes(bytes: &[u8], left: &[u8]) -> Option<usize>
    ensures value { result ≡ the_take_bytes bytes.now left.now }
    ensures within { IfSome result (λ taken. taken ≤ length left.now) }
{
    if begins(bytes, left) {
        Some(bytes.len())
    } else {
        None
    }
}

/// One byte of the class.
fn take_one(class: Class, left: &[u8]) -> Option<usize>
    ensures value { result ≡ the_take_one class left.now }
    ensures within { IfSome result (λ taken. taken ≤ length left.now) }
{
    if left.is_empty() {
        return None;
    }
    if holds(class, left[0]) { Some(1) } else { None }
}

/// Nothing, where no byte of the class is next.
fn take_not_next(class: Class, left: &[u8]) -> Option<usize>
    ensures value { result ≡ the_take_not_next class left.now }
    ensures within { IfSome result (λ taken. taken ≤ length left.now) }
{
    if left.is_empty() {
        return Some(0);
    }
    if holds(class, left[0]) { None } else { Some(0) }
}

/// How many bytes are in the class.
fn run_length(class: Class, left: &[u8]) -> usize
    ensures value { result ≡ the_run_length class left.now }
    ensures within { result ≤ length left.now }
{
    let mut taken = 0;
    while taken < left.len() {
        if !holds(class, left[taken]) {
            return taken;
        }
        taken += 1;
    }
    taken
}

/// Everything up to the bytes, and these.
fn take_past(bytes: &[u8], left: &[u8]) -> Option<usize>
    ensures value { result ≡ the_take_past bytes.now left.now }
    ensures within { IfSome result (λ taken. taken ≤ length left.now) }
{
    let mut passed = 0;
    loop {
        if begins(bytes, &left[passed..]) {
            return Some(passed + bytes.len());
        }
        if passed == left.len() {
            return None;
        }
        passed += 1;
    }
}
