//! A run of the program.

use std::alloc::{AllocError, Global};
use std::env::{self, Args};
use std::io::{self, BufWriter, Write};
use std::rt::Runtime;
use weedle_places::{MemberPlace, Place, Span, names_of, places_in, places_of};
use weedle_program::{Fault, Outcome, ended, text_of};
use weedle_refusal::DialectError;
use weedle_refusal::diagnose::{Diagnosis, diagnose_from, diagnose_in};
use weedle_rules::Ends;
use weedle_syntax::{Dialect, Syntax};

/// What is said on standard error where the arguments ask for nothing that the program does.
const USAGE: &str = "usage: weedle_table [--today] places | names | diagnosis";

/// What is asked of a text.
#[derive(Clone, Copy, Debug, PartialEq, Eq)]
enum Task {
    /// Where its definitions and their members are.
    Places,
    /// Its names, and what they stand for.
    Names,
    /// How far its reading comes.
    Diagnosis,
}

/// What is asked of a text, and by whose rules.
#[derive(Clone, Copy)]
struct Wish {
    task: Task,
    dialect: Dialect,
}

/// Does what the arguments ask for, and says what it came to. What went wrong it says in a line on
/// standard error.
pub fn run<R: Runtime + AllocGlobal>(rt: &R) -> Outcome {
    match answer(rt) {
        // There is only one input, and the line says no more of it.
        Err(Fault::Input(_)) => {
            let _ = rt.eprintln("cannot read input");
            Outcome::Unreadable
        }
        answered => ended(rt, answered),
    }
}

/// Reads the text, and writes what is asked of it.
fn answer<R: Runtime + AllocGlobal>(rt: &R) -> Result<Outcome, Fault> {
    let wish = wish_of(env::args(rt)?)?;
    let text = text_of(rt.alloc(), Ok(rt.reader()))?;
    let text = text.as_str();
    let mut out = BufWriter::new(rt.alloc(), io::writer(rt))?;
    let outcome = match wish.task {
        Task::Places => write_places(rt.alloc(), wish.dialect, text, &mut out)?,
        Task::Names => write_names(rt.alloc(), wish.dialect, text, &mut out)?,
        Task::Diagnosis => write_diagnosis(rt.alloc(), wish.dialect, text, &mut out)?,
    };
    out.flush()?;
    Ok(outcome)
}

/// What the arguments ask for, behind the program's name: one task, and today's rules where
/// `--today` is among them.
fn wish_of(arguments: Args) -> Result<Wish, Fault> {
    let mut dialect = Dialect::Weedle2;
    let mut found: Option<Task> = None;
    for word in arguments.skip(1) {
        if word.as_str() == "--today" {
            dialect = Dialect::Today;
        } else if found.is_some() {
            return Err(Fault::Usage(USAGE));
        } else {
            found = Some(task_of(word.as_str())?);
        }
    }
    match found {
        Some(task) => Ok(Wish { task, dialect }),
        None => Err(Fault::Usage(USAGE)),
    }
}

/// The task of a word.
fn task_of(word: &str) -> Result<Task, Fault> {
    match word {
        "places" => Ok(Task::Places),
        "names" => Ok(Task::Names),
        "diagnosis" => Ok(Task::Diagnosis),
        _ => Err(Fault::Usage(USAGE)),
    }
}

/// Writes where each definition, its members and its values are.
fn write_places<W: Write>(
    alloc: Global,
    dialect: Dialect,
    text: &str,
    out: &mut W,
) -> Result<Outcome, Fault> {
    let Some(found) = found_places(alloc, dialect, text)? else {
        return refuse(out);
    };
    for place in &found {
        write_place(place, out)?;
    }
    write_count(found.len(), "definition", out)?;
    Ok(Outcome::Success)
}

/// The places in a text that the dialect's rules read whole: over a table by weedle2's, which
/// today's don't have.
fn found_places(
    alloc: Global,
    dialect: Dialect,
    text: &str,
) -> Result<Option<Vec<Place>>, AllocError> {
    match dialect {
        Dialect::Weedle2 => {
            let table = Ends::new(alloc, text)?;
            places_of(alloc, &table)
        }
        Dialect::Today => {
            let Some(syntax) = Syntax::new_in(alloc, text, dialect)? else {
                return Ok(None);
            };
            let found = places_in(alloc, &syntax)?;
            Ok(Some(found))
        }
    }
}

/// Says that the text isn't read whole.
fn refuse<W: Write>(out: &mut W) -> Result<Outcome, Fault> {
    writeln!(out, "refused")?;
    Ok(Outcome::Refused)
}

/// Writes how many there are of what has this name.
fn write_count<W: Write>(many: usize, name: &str, out: &mut W) -> io::Result<()> {
    let ending = if many == 1 { "" } else { "s" };
    writeln!(out, "{many} {name}{ending}")
}

/// Writes where a definition is, and below that its members and its values.
fn write_place<W: Write>(place: &Place, out: &mut W) -> io::Result<()> {
    let own = MemberPlace {
        span: place.span,
        core: place.core,
        front: place.front,
        name: place.name,
    };
    write_part("definition", &own, out)?;
    for member in &place.members {
        write_part("  member", member, out)?;
    }
    for value in &place.values {
        write_part("  value", value, out)?;
    }
    Ok(())
}

/// Writes where a part is: the whole of it, its core, what is in front of that, and its name.
fn write_part<W: Write>(kind: &str, part: &MemberPlace, out: &mut W) -> io::Result<()> {
    write!(out, "{kind}")?;
    for span in [part.span, part.core, part.front] {
        write_span(span, out)?;
    }
    match part.name {
        Some(name) => write_span(name, out)?,
        None => write!(out, " -")?,
    }
    writeln!(out)
}

/// Writes the first byte of a part, and the place behind its last one.
fn write_span<W: Write>(span: Span, out: &mut W) -> io::Result<()> {
    write!(out, " {}..{}", span.start, span.end)
}

/// The tree of a text that the dialect's rules read whole, over a table by weedle2's.
fn tree_of<'a>(
    alloc: Global,
    dialect: Dialect,
    text: &'a str,
) -> Result<Option<Syntax<'a>>, AllocError> {
    match dialect {
        Dialect::Weedle2 => {
            let ends = Ends::new(alloc, text)?;
            Syntax::of_table(alloc, &ends)
        }
        Dialect::Today => Syntax::new_in(alloc, text, dialect),
    }
}

/// Writes where each name is, what it stands for, and its letters.
fn write_names<W: Write>(
    alloc: Global,
    dialect: Dialect,
    text: &str,
    out: &mut W,
) -> Result<Outcome, Fault> {
    let Some(syntax) = tree_of(alloc, dialect, text)? else {
        return refuse(out);
    };
    let found = names_of(alloc, &syntax)?;
    for name in &found {
        write!(out, "{:?}", name.role)?;
        write_span(name.span, out)?;
        writeln!(out, " {}", name.text)?;
    }
    write_count(found.len(), "name", out)?;
    Ok(Outcome::Success)
}

/// How far the reading of the text comes by the dialect's rules, over a table by weedle2's.
fn diagnosed(alloc: Global, dialect: Dialect, text: &str) -> Result<Diagnosis, Fault> {
    match dialect {
        Dialect::Weedle2 => {
            let ends = Ends::new(alloc, text)?;
            Ok(diagnose_from(alloc, &ends, 0)?)
        }
        Dialect::Today => match diagnose_in(alloc, text, 0, dialect) {
            Ok(diagnosis) => Ok(diagnosis),
            Err(DialectError::Memory) => Err(Fault::Memory),
            Err(DialectError::TooDeep) => Err(Fault::TooDeep),
        },
    }
}

/// Writes how far the reading of the text comes, and what fails there.
fn write_diagnosis<W: Write>(
    alloc: Global,
    dialect: Dialect,
    text: &str,
    out: &mut W,
) -> Result<Outcome, Fault> {
    let diagnosis = diagnosed(alloc, dialect, text)?;
    write!(out, "{}", diagnosis.place)?;
    for rule in &diagnosis.expected {
        write!(out, " {}", rule.name())?;
    }
    writeln!(out)?;
    Ok(Outcome::Success)
}
