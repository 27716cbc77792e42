// Lines that the answers of several commands have.
ghost use Rattle.std.specs.Prelude.{◌≡◌, ◌++◌, IfOk, OnOk};
ghost use Rattle.mk_found.specs.declared.effect.Found.TheVariants as found;
ghost use Rattle.mk_found.specs.Lines.{named_line, no_query_text, numbered_line};

use crate::Found;
use mk_outside::{Bytes, Memory};
use mk_text::put_number;
use std::alloc::Global;

/// A word, a number, and the end of the line.
pub fn put_numbered(
    alloc: Global,
    text: &mut Vec<u8>,
    word: &[u8],
    number: u64,
) -> Result<(), Memory>
    ensures { OnOk result (text.new.items ≡ text.old.items ++ numbered_line word.now number) }
{
    text.extend_from_slice(word)?;
    put_number(alloc, text, number)?;
    text.extend_from_slice(b"\n")
}

/// A word, a name, and the end of the line.
pub fn named(alloc: Global, word: &[u8], name: &str) -> Result<Bytes, Memory>
    ensures { IfOk result (λ text. text ≡ named_line word.now name.now) }
{
    let mut text = Vec::from_slice(alloc, word)?;
    text.extend_from_slice(name.as_bytes())?;
    text.extend_from_slice(b"\n")?;
    Ok(Bytes::of(text))
}

/// The refusal of a name that isn't held.
pub fn no_query(alloc: Global, name: &str) -> Result<Found, Memory>
    ensures { IfOk result (λ f. f ≡ found.Refused (no_query_text name.now)) }
{
    Ok(Found::Refused(named(alloc, b"refused 8 query ", name)?))
}
