//! What the arguments ask for.

use weedle_program::Request;

/// What is said on standard error where the arguments ask for nothing that the program does.
pub const USAGE: &str =
    "usage: weedle_check [--tree | --syntax | --print | --time] [--errors N] [--today] [FILE..]";

/// What is said on standard output where help is asked for.
pub const HELP: &str = "\
usage: weedle_check [--tree | --syntax | --print | --time] [--errors N] [--today] [FILE..]

Says of each file of Web IDL whether it is read whole, and if not, each error, where and why.
Without a file, or for `-`, it reads the standard input.

  --tree      prints the definitions of what is read, as values
  --syntax    prints the syntax tree of what is read, a node on a line
  --print     writes what is read anew, as Web IDL, and counts no files
  --time      prints how long each reader takes
  --errors N  says so many errors of each file at most, 20 without it; with 1 it looks for no others
  --today     reads by the rules of today's Web IDL, which give no values: alone or with --syntax
  --help      prints this

Status: 0 all is read, 1 something is refused, 2 a file can't be read or isn't UTF-8,
3 out of memory, 4 the output can't be written, 5 other arguments than these.";

/// The word behind which is how many errors of a file are reported.
pub const ERRORS: &str = "--errors";

/// How many errors of a file are reported where no number is given.
const MOST_ERRORS: usize = 20;

/// How many errors of a file are reported.
pub fn most_errors(request: &Request) -> usize {
    request.number.unwrap_or(MOST_ERRORS)
}

/// What is done with each text.
#[derive(Clone, Copy, Debug, PartialEq, Eq)]
pub enum Task {
    /// Each text is checked.
    Check,
    /// Each text is checked, and its definitions are printed.
    Tree,
    /// Each text is checked, and its syntax tree is printed.
    Syntax,
    /// Each text is checked, and its definitions are written as Web IDL.
    Print,
    /// Each text is checked, and the readers are timed with it.
    Time,
}

impl Task {
    /// Whether it is done with the values of a text.
    fn is_over_values(self) -> bool {
        match self {
            Task::Tree | Task::Print | Task::Time => true,
            Task::Check | Task::Syntax => false,
        }
    }
}

/// The task that is asked for, or None where there is no such option, and where it is one over
/// values and today's rules are asked for, which give none.
pub fn task_of(request: &Request) -> Option<Task> {
    let task = match &request.option {
        None => Task::Check,
        Some(word) => of_option(word.as_str())?,
    };
    if request.is_today && task.is_over_values() {
        return None;
    }
    Some(task)
}

/// The task of an option, or None where there is no such option.
fn of_option(word: &str) -> Option<Task> {
    match word {
        "--tree" => Some(Task::Tree),
        "--syntax" => Some(Task::Syntax),
        "--print" => Some(Task::Print),
        "--time" => Some(Task::Time),
        _ => None,
    }
}
