//! What the arguments ask for.

use crate::fault::Fault;
use std::alloc::{AllocError, Global};
use std::env::{self, Args};
use std::rt::Runtime;
use weedle_syntax::Dialect;

/// A word that may be beside any option of a program.
#[derive(Clone, Copy, Debug, PartialEq, Eq)]
pub enum Beside {
    /// No such word.
    Nothing,
    /// This word alone, as `--partial`.
    Flag(&'static str),
    /// This word and a number from 1 on behind it, as `--errors 20`.
    Number(&'static str),
}

/// What the arguments ask for: `--help` and `--today`, one option at most beside them, a word that
/// may be beside that, and names of files.
#[derive(Debug, Drop)]
pub struct Request {
    /// How the program is used is asked for, by `--help`.
    pub is_help: bool,
    /// Today's rules are asked for, by `--today`.
    pub is_today: bool,
    /// The option, as `--check`; whether there is such an option is the program's to say.
    pub option: Option<String>,
    /// The word that may be beside it is given.
    pub has_flag: bool,
    /// The number behind that word, of several the last.
    pub number: Option<usize>,
    /// The standard input is among the files, by its name `-`.
    pub has_input: bool,
    /// The names of the files, in their order.
    pub files: Vec<String>,
    /// A number is to come.
    awaits: bool,
}

impl Request {
    /// What the arguments ask for, of which the first is the program's name. It fails with the
    /// usage where two options are given that differ, and where memory for the names is refused.
    pub fn new<R: Runtime + AllocGlobal>(rt: &R, usage: &'static str) -> Result<Request, Fault> {
        Request::with(rt, usage, Beside::Nothing)
    }

    /// What the arguments ask for, as [`Request::new`] says it, of a program that knows a word
    /// beside its options. It fails with the usage too where that word lacks its number.
    pub fn with<R: Runtime + AllocGlobal>(
        rt: &R,
        usage: &'static str,
        beside: Beside,
    ) -> Result<Request, Fault> {
        let Ok(words) = env::args(rt) else {
            return Err(Fault::Memory);
        };
        match request_of(rt.alloc(), words, beside)? {
            Some(request) => Ok(request),
            None => Err(Fault::Usage(usage)),
        }
    }

    /// Whose rules the files are read by: weedle2's, or today's where `--today` asks for them.
    pub fn dialect(&self) -> Dialect {
        if self.is_today {
            Dialect::Today
        } else {
            Dialect::Weedle2
        }
    }

    /// Takes an option, a number or a file's name, and says whether there is use for it.
    fn take(&mut self, word: String, beside: Beside) -> Result<bool, AllocError> {
        if self.awaits {
            return Ok(self.set_number(word.as_str()));
        }
        if self.is_common(word.as_str()) {
            return Ok(true);
        }
        if self.is_beside(word.as_str(), beside) {
            return Ok(true);
        }
        if word.as_str() == "-" {
            self.has_input = true;
        } else if word.as_str().starts_with('-') {
            return Ok(self.set(word));
        }
        self.files.push(word)?;
        Ok(true)
    }

    /// Takes a word that each program knows, and says whether it is one.
    fn is_common(&mut self, word: &str) -> bool {
        match word {
            "--help" => self.is_help = true,
            "--today" => self.is_today = true,
            _ => return false,
        }
        true
    }

    /// Takes the word that may be beside the option, and says whether it is that one.
    fn is_beside(&mut self, word: &str, beside: Beside) -> bool {
        match beside {
            Beside::Flag(flag) if word == flag => self.has_flag = true,
            Beside::Number(flag) if word == flag => {
                self.has_flag = true;
                self.awaits = true;
            }
            _ => return false,
        }
        true
    }

    /// Sets the number, where the word is one from 1 on.
    fn set_number(&mut self, word: &str) -> bool {
        self.awaits = false;
        match word.parse::<usize>() {
            Ok(number) if number > 0 => {
                self.number = Some(number);
                true
            }
            _ => false,
        }
    }

    /// Sets the option, where no other one is set.
    fn set(&mut self, word: String) -> bool {
        let is_free = match &self.option {
            None => true,
            Some(other) => other.as_str() == word.as_str(),
        };
        self.option = Some(word);
        is_free
    }
}

/// What is asked for by the words behind the first, or None where two options are given that
/// differ, or a number is missing.
fn request_of(alloc: Global, words: Args, beside: Beside) -> Result<Option<Request>, AllocError> {
    let mut request = Request {
        is_help: false,
        is_today: false,
        option: None,
        has_flag: false,
        number: None,
        has_input: false,
        files: Vec::new(alloc),
        awaits: false,
    };
    for word in words.skip(1) {
        if !request.take(word, beside)? {
            return Ok(None);
        }
    }
    if request.awaits {
        return Ok(None);
    }
    Ok(Some(request))
}
