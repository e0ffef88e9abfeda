//! Which names are words of the grammar, by its rows.

ghost use Rattle.std.specs.Prelude.{◌≡◌, ◌↔◌, IsTrue, Some};
ghost use Rattle.weedle_grammar.specs.Rows.{take_one};
ghost use Rattle.weedle_grammar.specs.declared.class.Class.TheVariants.{Letter};
ghost use Rattle.weedle_print.specs.Reserved.{IsRead, IsWord};

use weedle_grammar::{Class, Row, TABLE_RULES, holds, row_of, rule_of};

/// Whether a text begins with a letter.
fn begins_with_letter(text: &str) -> bool
    ensures { IsTrue result ↔ (take_one Letter text.now ≡ Some 1) }
{
    match text.as_bytes().first() {
        Some(&byte) => holds(Class::Letter, byte),
        None => false,
    }
}

/// Whether a rule of weedle2's reads just this text.
fn is_read(text: &str) -> bool
    ensures { IsTrue result ↔ IsRead text.now }
{
    'rules: for number in 0..TABLE_RULES as u16 {
        if let Row::Bytes(bytes) = row_of(rule_of(number)) {
            if bytes == text.as_bytes() {
                return true;
            }
        }
    }
    false
}

/// Whether a name is a word of the grammar. It takes no memory.
pub(crate) fn is_word(name: &str) -> bool
    ensures { IsTrue result ↔ IsWord name.now }
{
    begins_with_letter(name) && is_read(name)
}
