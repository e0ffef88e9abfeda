//! How long a text takes to read.

use crate::table::{TableTimes, time_table};
use std::alloc::{AllocError, Global};
use std::fmt::{self, Display, Formatter};
use std::io::Write;
use std::rt::Clock;
use std::time::Instant;
use weedle_base::{Err, Error};
use weedle_front::{parse, parse_bounded, parse_by_descent, parse_quick};
use weedle_nesting::suits_descent;
use weedle_program::Fault;
use weedle_rules::Narrow;

/// How often each is timed.
const ROUNDS: usize = 5;

/// A reader of whole texts.
#[derive(Clone, Copy)]
enum Reader {
    ByDescent,
    Quick,
    OverMemo,
    OverTable,
}

/// Times a text that is read whole, and writes the times, of five each the median.
///
/// Descent is left out for a text that nests so that descent takes long. The table takes 1,544
/// bytes for each byte of the text: where that is refused, the other readers are timed all the
/// same.
///
/// It fails where memory for the list is refused, where the clock can't be read, and where the
/// output can't be written.
pub fn write_times<C: Clock + AllocGlobal, W: Write>(
    rt: &C,
    name: &str,
    text: &str,
    out: &mut W,
) -> Result<(), Fault> {
    let bytes = text.len() as u128;
    writeln!(out, "{name}: {bytes} bytes, in nanoseconds:")?;
    if suits_descent(text) {
        let time = time_reader(rt, Reader::ByDescent, text)?;
        writeln!(out, "parse_by_descent {} a byte", Ratio(time, bytes))?;
    }
    let time = time_reader(rt, Reader::Quick, text)?;
    writeln!(out, "parse_quick {} a byte", Ratio(time, bytes))?;
    let time = time_reader(rt, Reader::OverMemo, text)?;
    writeln!(out, "parse_bounded {} a byte", Ratio(time, bytes))?;
    let time = time_reader(rt, Reader::OverTable, text)?;
    writeln!(out, "parse {} a byte", Ratio(time, bytes))?;
    write_table(rt, text, out)
}

/// Times the parts of a reading over the table, and writes the times.
fn write_table<C: Clock + AllocGlobal, W: Write>(
    rt: &C,
    text: &str,
    out: &mut W,
) -> Result<(), Fault> {
    let bytes = text.len() as u128;
    let TableTimes {
        filling,
        laying,
        second,
        cells,
    } = time_parts(rt, text)?;
    writeln!(
        out,
        "filling {} a byte, {} a cell; laying the same cells down {} a cell",
        Ratio(filling, bytes),
        Ratio(filling, cells),
        Ratio(laying, cells)
    )?;
    writeln!(out, "second pass {} a byte", Ratio(second, bytes))?;
    let width = std::mem::size_of::<Narrow>();
    writeln!(out, "table of {cells} cells of {width} bytes")?;
    Ok(())
}

/// How many nanoseconds a reader takes, with the freeing of the list.
fn time_reader<C: Clock + AllocGlobal>(rt: &C, reader: Reader, text: &str) -> Result<u128, Fault> {
    let mut times = [0; ROUNDS];
    for time in &mut times {
        let start = Instant::now(rt).map_err(Fault::of_input)?;
        read(rt.alloc(), reader, text)?;
        *time = since(rt, start)?;
    }
    Ok(median(times))
}

/// How many nanoseconds each part of a reading over the table takes.
fn time_parts<C: Clock + AllocGlobal>(rt: &C, text: &str) -> Result<TableTimes, Fault> {
    let (mut filling, mut laying, mut second) = ([0; ROUNDS], [0; ROUNDS], [0; ROUNDS]);
    let mut cells = 0;
    for round in 0..ROUNDS {
        let times = time_table(rt, text)?;
        filling[round] = times.filling;
        laying[round] = times.laying;
        second[round] = times.second;
        cells = times.cells;
    }
    Ok(TableTimes {
        filling: median(filling),
        laying: median(laying),
        second: median(second),
        cells,
    })
}

/// Reads a text, and drops its list.
fn read(alloc: Global, reader: Reader, text: &str) -> Result<(), AllocError> {
    match reader {
        Reader::ByDescent => answered(parse_by_descent(alloc, text)),
        Reader::Quick => answered(parse_quick(alloc, text)),
        Reader::OverMemo => answered(parse_bounded(alloc, text).answer),
        Reader::OverTable => answered(parse(alloc, text)),
    }
}

/// Drops an answer that isn't 'out of memory'.
fn answered<T: Drop>(answer: Result<T, Err<Error<&str>>>) -> Result<(), AllocError> {
    match answer {
        Err(Err::Failure(_)) => Err(AllocError),
        _ => Ok(()),
    }
}

/// How many nanoseconds have gone by since then. It fails where the clock can't be read.
pub fn since<C: Clock>(rt: &C, start: Instant) -> Result<u128, Fault> {
    match start.elapsed(rt) {
        Ok(time) => Ok(time.as_nanos()),
        Err(error) => Err(Fault::of_input(error)),
    }
}

/// The median of the times.
fn median(mut times: [u128; ROUNDS]) -> u128 {
    times.sort_unstable();
    times[ROUNDS / 2]
}

/// The ratio of the first to the second. It is printed with two digits behind the point.
#[derive(Clone, Copy)]
struct Ratio(u128, u128);

impl Display for Ratio {
    fn fmt<W: fmt::Write>(&self, f: &mut Formatter<W>) -> fmt::Result {
        let hundredths = self.0.saturating_mul(100) / self.1.max(1);
        write!(f, "{}.{:02}", hundredths / 100, hundredths % 100)
    }
}
