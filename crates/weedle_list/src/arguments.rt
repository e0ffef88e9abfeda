//! What the arguments ask for.

use std::env::Args;

/// What is said on standard error where the arguments ask for neither list.
pub const USAGE: &str = "usage: weedle_list [outline]";

/// What the program does with a text.
#[derive(Clone, Copy, Debug, PartialEq, Eq)]
pub enum Task {
    /// Lists the definitions by kind and name.
    List,
    /// Lists them with their docstrings.
    Outline,
}

/// What the arguments ask for, of which the first is the program's name: `outline` for an outline,
/// nothing for a list; None where they ask for neither.
pub fn task_of(mut arguments: Args) -> Option<Task> {
    let Some(word) = arguments.nth(1) else {
        return Some(Task::List);
    };
    if word.as_str() == "outline" && arguments.next().is_none() {
        return Some(Task::Outline);
    }
    None
}
