//! Definitions that are read, written, and read again.

ghost use Rattle.std.specs.Cmp.Lexicographic.{pointwise};
ghost use Rattle.std.specs.Prelude.{◌≡◌, IfOk, string_bytes};
ghost use Rattle.weedle_spell.specs.Forms.{each};
ghost use Rattle.weedle_whole.specs.Anew.{IsReadAgain, WritesAnew};

use crate::error::WholeError;
use std::alloc::{AllocError, Global};
use std::cell::OnceCell;
use weedle_base::Err;
use weedle_front::parse_quick;
use weedle_idl::{Definition, Definitions};
use weedle_print_idl::WriteIdl;

/// The definitions of a whole text, written anew in one layout: of `interface A{};interface B{};`
/// it is `interface A {};`, an empty line, and `interface B {};`. None where the text isn't read
/// whole; [`parse_quick`] says where it stops, and `explain` why. Comments are not kept.
///
/// What is written is read again, and given only where that gives equal definitions; else the
/// answer is [`WholeError::Differs`]. No text is known for which that happens. Where memory is
/// refused it is [`WholeError::Memory`].
///
/// It takes [`parse_quick`] twice, `write_idl` once, and a copy of what is written; both lists are
/// in memory when they are compared.
pub fn write_whole(alloc: Global, raw: &str) -> Result<Option<String>, WholeError>
    ensures { IfOk result (WritesAnew ⟦<Definition<'static> as PartialEq>⟧.eq raw.now) }
{
    let room = OnceCell::new();
    write_in(alloc, &room, raw)
}

/// The same, with room for the copy that is read again. Definitions are compared where they live
/// equally long, and the copy in the room lives as long as the text.
fn write_in<'a>(
    alloc: Global,
    room: &'a OnceCell<String>,
    raw: &'a str,
) -> Result<Option<String>, WholeError>
    ensures { IfOk result (WritesAnew ⟦<Definition<'static> as PartialEq>⟧.eq raw.entry.now) }
{
    match parse_quick(alloc, raw) {
        Ok(definitions) => {
            let (definitions, written, copy) = write(alloc, room, definitions)?;
            read_again(alloc, copy, definitions)?;
            Ok(Some(written))
        }
        Err(Err::Error(_)) => Ok(None),
        Err(Err::Failure(_)) => Err(WholeError::Memory),
    }
}

/// Reads a text again, and compares what it gives with these definitions.
fn read_again<'a>(
    alloc: Global,
    text: &'a str,
    definitions: Definitions<'a>,
) -> Result<(), WholeError>
    ensures { IfOk result (λ _.
        IsReadAgain ⟦<Definition<'static> as PartialEq>⟧.eq definitions.entry.items text.entry.now) }
{
    match parse_quick(alloc, text) {
        Ok(again) => {
            if are_equal(definitions, again) {
                Ok(())
            } else {
                Err(WholeError::Differs)
            }
        }
        Err(Err::Error(_)) => Err(WholeError::Differs),
        Err(Err::Failure(_)) => Err(WholeError::Memory),
    }
}

/// Whether two lists are equal.
fn are_equal<T: PartialEq + Drop>(ones: Vec<T>, others: Vec<T>) -> bool
    ensures { result ≡ pointwise T.eq ones.items others.items }
{
    ones == others
}

/// What a list is written as, and a copy of that in the room. The list is given back.
fn write<'a, T: WriteIdl + Drop>(
    alloc: Global,
    room: &'a OnceCell<String>,
    list: Vec<T>,
) -> Result<(Vec<T>, String, &'a str), WholeError>
    ensures same { IfOk result (λ r. r.0.items ≡ list.items) }
    ensures spells { IfOk result (λ r. each T.spelling list.items (string_bytes r.1)) }
    ensures copy { IfOk result (λ r. r.2.now ≡ string_bytes r.1) }
{
    let mut written = String::new(alloc);
    list.write_idl(&mut written)?;
    let copy = copied(alloc, room, &written)?;
    Ok((list, written, copy))
}

/// A copy of a text in the room, which is empty before.
fn copied<'a>(alloc: Global, room: &'a OnceCell<String>, text: &str) -> Result<&'a str, WholeError>
    ensures { IfOk result (λ copy. copy.now ≡ text.now) }
{
    let copy = room.get_or_try_init(|| copy_of(alloc, text))?;
    if copy.as_str() == text {
        Ok(copy.as_str())
    } else {
        Err(WholeError::Differs)
    }
}

/// A text of its own.
fn copy_of(alloc: Global, text: &str) -> Result<String, AllocError> {
    let mut copy = String::with_capacity(alloc, text.len())?;
    copy.push_str(text)?;
    Ok(copy)
}
