//! How wide texts are.

ghost use Rattle.std.specs.Prelude.{◌≡◌, ◌==◌, count_by};
ghost use Rattle.weedle_layout.specs.Widths.{
  begins_character as the_begins_character,
  last_line,
};

/// Whether a character begins with the byte: it is none of those that continue one.
fn begins_character(byte: u8) -> bool
    ensures { result ≡ the_begins_character byte }
{
    byte < 0x80 || byte >= 0xC0
}

/// How many characters begin in the bytes of a text.
pub fn characters(bytes: &[u8]) -> usize
    ensures { result ≡ count_by the_begins_character bytes.now }
{
    bytes.iter().filter(|byte| begins_character(**byte)).count()
}

/// How many characters begin behind the last LF, or in all bytes where there is none.
pub fn characters_of_last_line(bytes: &[u8]) -> usize
    ensures { result ≡ count_by the_begins_character (last_line bytes.now) }
{
    bytes
        .iter()
        .rev()
        .take_while(|byte| **byte != b'\n')
        .filter(|byte| begins_character(**byte))
        .count()
}

/// How many bytes are LFs.
pub fn line_feeds(bytes: &[u8]) -> usize
    ensures { result ≡ count_by (λ byte. byte == 10) bytes.now }
{
    bytes.iter().filter(|byte| **byte == b'\n').count()
}
