//! Whether a byte of a definition is in a string or a comment.

ghost use Rattle.std.specs.Prelude.{◌≡◌, IsTrue};
ghost use Rattle.weedle_refusal.specs.Inside.{
  IsOutside,
  behind as the_behind,
  in_block as the_in_block,
  in_code as the_in_code,
  step as the_step,
};

/// What a byte is in, and what has been read of what opens or closes it.
#[derive(Clone, Copy, Debug, PartialEq, Eq)]
pub(crate) enum Inside {
    /// Neither a string nor a comment.
    Code,
    /// The same, behind a `/`.
    Slash,
    /// A line comment, or a line of a docstring.
    Line,
    /// A block comment.
    Block,
    /// The same, behind a `*`.
    Star,
    /// A string.
    Text,
}

/// Whether a place is in no string and no comment, where what is read begins at `start`.
pub(crate) fn is_outside(raw: &[u8], start: usize, at: usize) -> bool
    ensures { IsTrue result → IsOutside raw.now start at }
{
    match raw.get(start..at) {
        Some(bytes) => matches!(inside_behind(bytes), Inside::Code | Inside::Slash),
        None => false,
    }
}

/// What follows some bytes is in this.
#[tactic(auto, using(crate::proofs::InsideFacts::one_more, crate::proofs::InsideFacts::all_read))]
fn inside_behind(bytes: &[u8]) -> Inside
    ensures { result ≡ the_behind Inside.Code bytes.now }
{
    let mut inside = Inside::Code;
    for byte in bytes {
        inside = step(inside, *byte);
    }
    inside
}

/// What the byte behind this one is in.
fn step(inside: Inside, byte: u8) -> Inside
    ensures { result ≡ the_step inside byte }
{
    match inside {
        Inside::Code => in_code(byte, Inside::Slash),
        Inside::Slash if byte == b'/' => Inside::Line,
        Inside::Slash if byte == b'*' => Inside::Block,
        Inside::Slash => in_code(byte, Inside::Code),
        Inside::Line if byte == b'\n' => Inside::Code,
        Inside::Line => Inside::Line,
        Inside::Block => in_block(byte, Inside::Block),
        Inside::Star => in_block(byte, Inside::Code),
        Inside::Text if byte == b'"' => Inside::Code,
        Inside::Text => Inside::Text,
    }
}

/// What follows a byte in neither a string nor a comment, where a `/` brings this.
fn in_code(byte: u8, slash: Inside) -> Inside
    ensures { result ≡ the_in_code byte slash }
{
    if byte == b'"' {
        Inside::Text
    } else if byte == b'/' {
        slash
    } else {
        Inside::Code
    }
}

/// What follows a byte in a block comment, where a `/` brings this.
fn in_block(byte: u8, slash: Inside) -> Inside
    ensures { result ≡ the_in_block byte slash }
{
    if byte == b'*' {
        Inside::Star
    } else if byte == b'/' {
        slash
    } else {
        Inside::Block
    }
}
