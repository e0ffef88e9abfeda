//! What the byte at a place says of a rule.

/// What the byte at a place says of a rule.
#[derive(Clone, Copy, Debug, PartialEq, Eq)]
pub enum Ahead {
    /// The rule fails.
    Fails,
    /// The rule takes nothing: it is an option, a repetition or a list of what can't begin there.
    Empty,
    /// The byte says nothing.
    Open,
}
