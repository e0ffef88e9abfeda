//! What calls answer where a request for memory may be refused.
//!
//! Nothing inside a test can have memory refused. So a test of such calls can be run with one
//! request refused, the Nth of all that it makes, as tools/refused_requests.py does for each N. It
//! makes each call twice: of all its calls one at most may run out of memory, and each else has to
//! answer as with ample memory. What it does besides takes no memory, up to the end, where it asks
//! for memory itself: so it tells whether the refused request was a call's.

use crate::printed::is_printed;
use crate::rows::{Row, Unlike, other_value, same_rest};
use std::alloc::{AllocError, Global};
use std::fmt::Debug;
use weedle_base::{Err, Error, ErrorKind, Parse, TryClone};

/// How many calls of a test ran out of memory.
#[derive(Clone, Copy, Debug, Default, PartialEq, Eq)]
pub struct Wanted {
    calls: usize,
}

impl Wanted {
    /// The count of no call.
    pub fn new() -> Wanted {
        Wanted { calls: 0 }
    }

    /// Counts a call that ran out of memory.
    pub fn count(&mut self) {
        self.calls = self.calls.saturating_add(1);
    }

    /// What a call gave, or nothing where it ran out of memory, which is counted.
    pub fn given<T>(&mut self, answer: Result<T, AllocError>) -> Option<T> {
        match answer {
            Ok(value) => Some(value),
            Err(_) => {
                self.count();
                None
            }
        }
    }

    /// Counts the fault of a call with the text where it is 'out of memory', at what ends the text.
    pub fn fault<'a>(
        &mut self,
        text: &'a str,
        fault: Err<Error<&'a str>>,
    ) -> Result<(), Unlike<'a>> {
        match fault {
            Err::Failure(
                Error {
                    input,
                    code: ErrorKind::Memory,
                },
            ) if text.ends_with(input) => {
                self.count();
                Ok(())
            }
            _ => Err(Unlike::Fault(text)),
        }
    }

    /// Reads each example, which is to be read so or to run out of memory, and copies what it
    /// reads; the other texts are to be refused or to run out of memory. A copy equals its
    /// original, which stays as it is where the copy runs out of memory. An error says of which
    /// text it isn't so, and how.
    pub fn reads<'a, T: Parse<'a> + TryClone + PartialEq + Debug>(
        &mut self,
        alloc: Global,
        rows: &[Row<'a>],
        refused: &[&'a str],
    ) -> Result<(), Unlike<'a>> {
        for _ in 0..2 {
            for row in rows {
                self.reads_one::<T>(alloc, *row)?;
            }
            for text in refused {
                self.refuses_one::<T>(alloc, text)?;
            }
        }
        Ok(())
    }

    fn reads_one<'a, T: Parse<'a> + TryClone + PartialEq + Debug>(
        &mut self,
        alloc: Global,
        (text, rest, value): Row<'a>,
    ) -> Result<(), Unlike<'a>> {
        match T::parse(alloc, text) {
            Ok((left, read)) => {
                same_rest(text, left, rest)?;
                if self.copies(alloc, &read, value) {
                    Ok(())
                } else {
                    Err(other_value(alloc, text, value, &read))
                }
            }
            Err(fault) => self.fault(text, fault),
        }
    }

    fn refuses_one<'a, T: Parse<'a>>(
        &mut self,
        alloc: Global,
        text: &'a str,
    ) -> Result<(), Unlike<'a>> {
        match T::parse(alloc, text) {
            Ok(_) => Err(Unlike::NoMismatch(text)),
            Err(
                Err::Error(
                    Error {
                        code: ErrorKind::Mismatch,
                        ..
                    },
                ),
            ) => Ok(()),
            Err(fault) => self.fault(text, fault),
        }
    }

    /// Copies what is printed as the value, twice, and says whether each copy equals it or runs out
    /// of memory, and it is printed so still.
    pub fn copies<T: TryClone + PartialEq + Debug>(
        &mut self,
        alloc: Global,
        original: &T,
        value: &str,
    ) -> bool {
        let mut alike = is_printed(original, value);
        for _ in 0..2 {
            if let Some(copy) = self.given(original.try_clone(alloc)) {
                alike = alike && copy == *original && is_printed(&copy, value);
            }
            alike = alike && is_printed(original, value);
        }
        alike
    }

    /// Prints where a request was refused, and says whether no more than one was.
    pub fn tell(&self, rt: &impl Print, alloc: Global) -> bool {
        let (place, is_one) = match (self.calls, is_refused(alloc)) {
            (0, false) => ("no request was refused", true),
            (0, true) => ("a request behind the calls was refused", true),
            (1, false) => ("a call wanted memory", true),
            _ => ("more than one request was refused", false),
        };
        println!(rt; "{place}").is_ok() && is_one
    }
}

/// Whether one of many small requests is refused.
fn is_refused(alloc: Global) -> bool {
    for number in 0..10_000u32 {
        if Box::new(alloc, number).is_err() {
            return true;
        }
    }
    false
}
