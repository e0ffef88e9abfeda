//! A run of the program: it reads a text, and writes a report of it.
ghost use Rattle.std.specs.Prelude.{◌≡◌, ◌≢◌, IfOk, IfErr, OnOk, OnErr, IsErrOf, string_bytes};
ghost use Rattle.std.specs.Io.KnownBytes.{Keeps, Appends};
ghost use Rattle.std.specs.IoError.{error_kind};
ghost use Rattle.weedle_front.specs.declared.program.RunFault.TheVariants.{Memory};
ghost use Rattle.weedle_front.specs.Run.{IsReport, Reports, ReportsPart, ReadsNoText, AppendsPart};
ghost use Rattle.weedle_view.specs.Outline.{outline_report};
ghost use Rattle.weedle_view.specs.Report.{list_report, whole_report};

use crate::descent::parse_quick;
use std::alloc::{AllocError, Global};
use std::io;
use std::io::{ErrorKind, Read, Write};
use weedle_idl::Definitions;
use weedle_view::{Outlines, Report, Titles, lend, lines_of};

/// Whether the grammar read the whole text.
#[derive(Clone, Copy, Debug, PartialEq, Eq)]
pub enum Status {
    /// The report has the definitions of the text.
    Read,
    /// The report says where the remaining input begins.
    Unread,
}

/// Why a run ended with no report, or with a part of one.
#[derive(Clone, Copy, Debug, PartialEq, Eq)]
pub enum RunFault {
    /// What was read is no text.
    NotUtf8,
    /// Memory was refused.
    Memory,
    /// The input failed.
    Input,
    /// The output failed, or took no byte.
    Output,
}

impl From<AllocError> for RunFault {
    ghost from_gives = { λ _ fault. fault ≡ Memory };

    fn from(_error: AllocError) -> RunFault {
        RunFault::Memory
    }
}

/// Reads the input to its end, and writes the report of the text that it gave.
///
/// For `interface A {}; // end` the lines are `interface A` and `definitions 1`. For
/// `interface A {}; ///d`, which isn't read whole, the one line is `unread at byte 16`.
///
/// It fails where the input can't be read or isn't UTF-8, and where memory is refused, with nothing
/// written: the report is in memory, beside the text and its definitions, before the first write.
/// And it fails at a write that fails or takes no byte, and no write is tried again. The output is
/// not flushed.
pub fn run<R: Read, W: Write>(
    alloc: Global,
    reader: &mut R,
    writer: &mut W,
) -> Result<Status, RunFault>
    // All that was read is a text, and its report is written.
    ensures ok { IfOk result (Reports whole_report
        (R.remaining reader.old) (R.remaining reader.new)
        (W.contents writer.old) (W.contents writer.new)) }

    // All that was read is no text.
    ensures not_utf8 { IsErrOf result RunFault.NotUtf8
        → ReadsNoText (R.remaining reader.old) (R.remaining reader.new) }

    // All that was read is a text, and a part of its report is written.
    ensures output { IsErrOf result RunFault.Output → ReportsPart whole_report
        (R.remaining reader.old) (R.remaining reader.new)
        (W.contents writer.old) (W.contents writer.new) }

    // No other fault writes anything.
    ensures unwritten { IfErr result (λ fault. fault ≢ RunFault.Output
        → Keeps (W.contents writer.old) (W.contents writer.new)) }
{
    run_with::<Titles, R, W>(alloc, reader, writer)
}

/// Reads the input to its end, and writes the outline of the text that it gave: below the line of
/// each definition those of its docstring, each behind two spaces.
///
/// For the lines `/// Shows pages.` and `interface Window {};` it writes `interface Window`,
/// `   Shows pages.` and `definitions 1`. All else, and where it fails, is as with [`run`].
pub fn run_outline<R: Read, W: Write>(
    alloc: Global,
    reader: &mut R,
    writer: &mut W,
) -> Result<Status, RunFault>
    // All that was read is a text, and its report is written.
    ensures ok { IfOk result (Reports outline_report
        (R.remaining reader.old) (R.remaining reader.new)
        (W.contents writer.old) (W.contents writer.new)) }

    // All that was read is no text.
    ensures not_utf8 { IsErrOf result RunFault.NotUtf8
        → ReadsNoText (R.remaining reader.old) (R.remaining reader.new) }

    // All that was read is a text, and a part of its report is written.
    ensures output { IsErrOf result RunFault.Output → ReportsPart outline_report
        (R.remaining reader.old) (R.remaining reader.new)
        (W.contents writer.old) (W.contents writer.new) }

    // No other fault writes anything.
    ensures unwritten { IfErr result (λ fault. fault ≢ RunFault.Output
        → Keeps (W.contents writer.old) (W.contents writer.new)) }
{
    run_with::<Outlines, R, W>(alloc, reader, writer)
}

/// Reads the input to its end, and writes such a report of the text that it gave.
fn run_with<P: Report, R: Read, W: Write>(
    alloc: Global,
    reader: &mut R,
    writer: &mut W,
) -> Result<Status, RunFault>
    ensures ok { IfOk result (Reports (list_report P.lines)
        (R.remaining reader.old) (R.remaining reader.new)
        (W.contents writer.old) (W.contents writer.new)) }
    ensures not_utf8 { IsErrOf result RunFault.NotUtf8
        → ReadsNoText (R.remaining reader.old) (R.remaining reader.new) }
    ensures output { IsErrOf result RunFault.Output → ReportsPart (list_report P.lines)
        (R.remaining reader.old) (R.remaining reader.new)
        (W.contents writer.old) (W.contents writer.new) }
    ensures unwritten { IfErr result (λ fault. fault ≢ RunFault.Output
        → Keeps (W.contents writer.old) (W.contents writer.new)) }
{
    let mut bytes = Vec::new(alloc);
    reader.read_to_end(&mut bytes).map_err(input_fault)?;
    let text = str::from_utf8(&bytes).map_err(|_| RunFault::NotUtf8)?;
    let (report, status) = report_of::<P>(alloc, text)?;
    write_through(writer, report.as_bytes())?;
    Ok(status)
}

/// Tells a refused growth apart from an input that fails.
fn input_fault(error: io::Error) -> RunFault
    ensures memory { error_kind error ≡ ErrorKind.OutOfMemory → result ≡ RunFault.Memory }
    ensures input { error_kind error ≢ ErrorKind.OutOfMemory → result ≡ RunFault.Input }
{
    if error.kind() == ErrorKind::OutOfMemory {
        RunFault::Memory
    } else {
        RunFault::Input
    }
}

/// The report of a text, and whether the text was read whole.
fn report_of<P: Report>(alloc: Global, text: &str) -> Result<(String, Status), RunFault>
    ensures ok { IfOk result (λ r. IsReport (list_report P.lines) text.now (string_bytes r.0) r.1) }
    ensures err { IfErr result (λ fault. fault ≡ RunFault.Memory) }
{
    match parse_quick(alloc, text) {
        Ok(definitions) => Ok((report_lent::<P>(alloc, definitions)?, Status::Read)),
        Err(weedle_base::Err::Error(error)) => {
            let at = text.len() - error.input.len();
            Ok((format!(in alloc; "unread at byte {at}\n")?, Status::Unread))
        }
        Err(weedle_base::Err::Failure(_)) => Err(RunFault::Memory),
    }
}

/// The report of a list that it lends.
fn report_lent<P: Report>(alloc: Global, definitions: Definitions<'_>) -> Result<String, AllocError>
    ensures { IfOk result
        (λ report. string_bytes report ≡ list_report P.lines definitions.entry.items) }
{
    lend(definitions, move |definitions: &Definitions<'_>| {
        lines_of::<P>(alloc, definitions)
    })
}

/// Writes all the bytes, in as many writes as the writer needs.
fn write_through<W: Write>(writer: &mut W, bytes: &[u8]) -> Result<(), RunFault>
    ensures ok { OnOk result (Appends (W.contents writer.old) (W.contents writer.new) bytes.now) }
    ensures part { OnErr result
        (AppendsPart (W.contents writer.old) (W.contents writer.new) bytes.now) }
    ensures fault { IfErr result (λ fault. fault ≡ RunFault.Output) }
{
    let mut sent = 0;
    'writes: while sent < bytes.len() {
        match writer.write(&bytes[sent..]) {
            Ok(n) if n > 0 => sent += n,
            _ => return Err(RunFault::Output),
        }
    }
    Ok(())
}
