//! What the arguments ask for.

use weedle_program::Request;

/// What is said on standard error where the arguments ask for nothing that the program does.
pub const USAGE: &str = "usage: weedle_format [--check | --write] [--partial] [--today] [FILE..]";

/// What is said on standard output where help is asked for.
pub const HELP: &str = "\
usage: weedle_format [--check | --write] [--partial] [--today] [FILE..]

Lays out files of Web IDL: moves blanks, and changes nothing else.
Without a file, or for `-`, it reads the standard input.

  --check    prints the names of the files that would change, and how many
  --write    replaces each file by what was laid out
  --partial  lays out what is read of a file that is refused, too, and leaves the rest as it is
  --today    reads by the rules of today's Web IDL
  --help     prints this

Without an option it prints what was laid out.

Status: 0 all is well, 1 something is refused or would change, 2 a file can't be read or isn't
UTF-8, 3 out of memory, 4 a file or the output can't be written, 5 other arguments than these.";

/// The word that may be beside an option: what is read of a refused text is formatted, too.
pub const PARTIAL: &str = "--partial";

/// What is done with what was formatted.
#[derive(Clone, Copy, Debug, PartialEq, Eq)]
pub enum Task {
    /// The layout is printed.
    Print,
    /// The layout is compared with the text.
    Check,
    /// The layout replaces the file.
    Write,
}

/// The task that is asked for, or None where there is no such option, and where the standard input
/// is to be replaced.
pub fn task_of(request: &Request) -> Option<Task> {
    let task = match &request.option {
        None => Task::Print,
        Some(word) => of_option(word.as_str())?,
    };
    let reads_input = request.has_input || request.files.is_empty();
    if task == Task::Write && reads_input && !request.is_help {
        return None;
    }
    Some(task)
}

/// The task of an option, or None where there is no such option.
fn of_option(word: &str) -> Option<Task> {
    match word {
        "--check" => Some(Task::Check),
        "--write" => Some(Task::Write),
        _ => None,
    }
}
