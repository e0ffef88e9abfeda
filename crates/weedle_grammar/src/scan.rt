//! Rules without parts at the front of a text: what follows them. None of these calls takes memory.

ghost use Rattle.std.specs.Prelude.{◌≡◌, []};
ghost use Rattle.weedle_grammar.specs.Rows.{run_length};
ghost use Rattle.weedle_grammar.specs.Scans.{IsWord, IsOne, IsRun};
ghost use Rattle.weedle_grammar.specs.Trivia.{Trial, Took, TookText, is_next};

use crate::{Class, Rule, holds};

/// Whether the text has a next byte and it is in the class. It takes no memory.
pub fn next_is(class: Class, input: &str) -> bool
    ensures { result ≡ is_next class input.now }
{
    match input.as_bytes().first() {
        Some(byte) => holds(class, *byte),
        None => false,
    }
}

/// How many bytes at the front are in the class. It takes no memory.
#[tactic(auto, using(crate::proofs::TriviaFacts::run_is))]
pub fn run(class: Class, bytes: &[u8]) -> usize
    ensures { result ≡ run_length class bytes.now }
{
    for (i, byte) in bytes.iter().enumerate() {
        if !holds(class, *byte) {
            return i;
        }
    }
    bytes.len()
}

/// What follows the word, where the input begins with it.
pub fn after_word<'a>(rule: Rule, word: &'static str, input: &'a str) -> Option<&'a str>
    requires { IsWord rule word.now }
    ensures { Trial rule input.now result }
{
    input.strip_prefix(word)
}

/// What follows the first byte, where it is in the class.
pub fn after_one(rule: Rule, class: Class, input: &str) -> Option<&str>
    requires { IsOne rule class }
    ensures { Trial rule input.now result }
{
    if next_is(class, input) {
        Some(&input[1..])
    } else {
        None
    }
}

/// What follows the bytes of the class at the front.
pub fn after_run(rule: Rule, class: Class, input: &str) -> &str
    requires { IsRun rule class }
    ensures { Took rule input.now [] result.now }
{
    let end = run(class, input.as_bytes());
    &input[end..]
}

/// The text that the rule took, where it left the rest.
pub fn taken<'a>(rule: Rule, start: &'a str, rest: &str) -> &'a str
    requires { Took rule start.now [] rest.now }
    ensures { TookText rule start.now result.now rest.now }
{
    &start[..start.len() - rest.len()]
}
