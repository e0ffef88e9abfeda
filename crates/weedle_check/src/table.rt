//! The packrat table of a text, timed.

ghost use Rattle.std.specs.Prelude.{◌≡◌};

use crate::timing::since;
use std::alloc::{AllocError, Global};
use std::rt::Clock;
use std::time::Instant;
use weedle_build::build_definitions;
use weedle_program::Fault;
use weedle_rules::{Cell, Ends, Narrow, TABLE_RULES};

/// How many nanoseconds the parts of a reading over the table take.
#[derive(Clone, Copy)]
pub struct TableTimes {
    /// The filling of the table.
    pub filling: u128,
    /// The writing of as many cells that nothing is worked out for.
    pub laying: u128,
    /// The second pass, which builds the list along the table.
    pub second: u128,
    /// How many cells the table has.
    pub cells: u128,
}

/// Times the parts of a reading over the table, once. No time includes that of dropping what a part
/// made. It fails where memory is refused, and where the clock can't be read.
pub fn time_table<C: Clock + AllocGlobal>(rt: &C, text: &str) -> Result<TableTimes, Fault> {
    let laying = time_laying(rt, text)?;
    let start = Instant::now(rt).map_err(Fault::of_input)?;
    let ends = Ends::new(rt.alloc(), text)?;
    let filling = since(rt, start)?;
    let second = time_second(rt, &ends, text)?;
    Ok(TableTimes {
        filling,
        laying,
        second,
        cells: ends.workings(),
    })
}

/// How many nanoseconds it takes to write as many cells as the table has.
fn time_laying<C: Clock + AllocGlobal>(rt: &C, text: &str) -> Result<u128, Fault> {
    let start = Instant::now(rt).map_err(Fault::of_input)?;
    let rows = lay(rt.alloc(), text)?;
    let laying = since(rt, start)?;
    drop(rows);
    Ok(laying)
}

/// How many nanoseconds the second pass takes along the text's table.
fn time_second<'a, C: Clock + AllocGlobal>(
    rt: &C,
    ends: &Ends<'a>,
    text: &'a str,
) -> Result<u128, Fault>
    requires table { ends.now.text ≡ text.now }
{
    let start = Instant::now(rt).map_err(Fault::of_input)?;
    build(rt.alloc(), ends, text)?;
    since(rt, start)
}

/// Builds the definitions along the table, and drops them.
fn build<'a>(alloc: Global, ends: &Ends<'a>, text: &'a str) -> Result<(), AllocError>
    requires table { ends.now.text ≡ text.now }
{
    build_definitions(alloc, ends, text)?;
    Ok(())
}

/// A row of cells for each place of the text, none of them worked out.
fn lay(alloc: Global, text: &str) -> Result<Vec<[Narrow; TABLE_RULES]>, AllocError> {
    let places = text.len() + 1;
    let mut rows = Vec::with_capacity(alloc, places)?;
    for _ in 0..places {
        rows.push([Narrow::pack(None); TABLE_RULES])?;
    }
    Ok(rows)
}
