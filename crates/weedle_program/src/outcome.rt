//! What a run comes to.

ghost use Rattle.std.specs.Prelude.{◌≡◌, max};
ghost use Rattle.weedle_program.specs.Statuses.{status_of};

/// What the work on a file comes to, or that on all files: the worst of theirs.
#[derive(Clone, Copy, Debug, PartialEq, Eq)]
pub enum Outcome {
    /// All is well.
    Success,
    /// A text is read whole, and isn't as it should be.
    Different,
    /// The grammar doesn't read a text whole.
    Refused,
    /// A file can't be read, or isn't UTF-8.
    Unreadable,
    /// Memory ran out.
    NoMemory,
    /// A file or the output can't be written.
    Unwritten,
    /// The arguments ask for nothing that the program does.
    Misused,
}

impl Outcome {
    /// The exit status, which is greater the worse it is: 0 for success, 1 where a text is refused
    /// or isn't as it should be, 2 to 5 for the others in their order.
    pub fn status(self) -> u8
        ensures { result ≡ status_of self }
    {
        match self {
            Outcome::Success => 0,
            Outcome::Different | Outcome::Refused => 1,
            Outcome::Unreadable => 2,
            Outcome::NoMemory => 3,
            Outcome::Unwritten => 4,
            Outcome::Misused => 5,
        }
    }

    /// The worse of two outcomes, the first where neither is.
    pub fn or_worse(self, other: Outcome) -> Outcome
        ensures { status_of result ≡ max (status_of self) (status_of other) }
    {
        if other.status() > self.status() {
            other
        } else {
            self
        }
    }
}
