// Structures from a place on.
ghost use Rattle.std.specs.Prelude.{◌≡◌, ◌≤◌, IfOk};
ghost use Rattle.mk_text.specs.Rising.{place_behind};
ghost use Rattle.mk_model.specs.Codes.{IsCode};
ghost use Rattle.mk_model.specs.Logic.{IsValid};
ghost use Rattle.mk_enum.specs.Enumerations.{IsEnumeration};
ghost use Rattle.mk_enum.specs.Steps.{IsNextStructure, PutsStructure};

use crate::limits::writable;
use crate::listed::Structures;
use crate::tables::table_of;
use crate::texts::put_text;
use mk_choice::Codes;
use mk_expand::expand;
use mk_model::{Bytes, Code, Key, Keys, Memory, Place, Query};
use std::alloc::Global;

/// The first structures from the place on, at most so many: their codes, their texts and the place
/// behind them. Codes of which the expansion isn't writable are passed over. It holds one expansion
/// at a time.
pub fn structures(
    alloc: Global,
    query: &Query,
    place: &[u32],
    limit: usize,
) -> Result<Structures, Memory>
    requires least { 1 ≤ limit }
    requires most { limit ≤ 1000 }
    ensures { IfOk result (IsEnumeration query.now place.now limit) }
{
    let mut left = Codes::from_place(alloc, query, place)?;
    let mut codes = Vec::new(alloc);
    let mut text = Vec::new(alloc);
    while codes.len() < limit {
        let Some(code) = next_structure(alloc, query, &mut left, &mut text)? else {
            return Ok(Structures {
                place: behind(alloc, place, &codes)?,
                codes: Keys::of(codes),
                text: Bytes::of(text),
                ended: true,
            });
        };
        codes.push(code)?;
    }
    Ok(Structures {
        place: behind(alloc, place, &codes)?,
        codes: Keys::of(codes),
        text: Bytes::of(text),
        ended: false,
    })
}

// The next code that has a structure, whose text is appended. None where none is left.
fn next_structure(
    alloc: Global,
    query: &Query,
    left: &mut Codes<'_>,
    text: &mut Vec<u8>,
) -> Result<Option<Code>, Memory>
    requires { left.old.query ≡ query.now }
    ensures query { IfOk result (λ _. left.new.query ≡ query.now) }
    ensures next { IfOk result (IsNextStructure query.now left.old left.new text.old.items text.new.items) }
{
    // The reader's clause says what every query keeps.
    let _kept = query.templates();
    while let Some(code) = left.next() {
        if put_structure(alloc, query, code, text)? {
            return Ok(Some(Code::of(Vec::from_slice(alloc, code)?)));
        }
    }
    Ok(None)
}

// Appends the text of the structure of a code, and tells whether it has one.
fn put_structure(
    alloc: Global,
    query: &Query,
    code: &[u32],
    text: &mut Vec<u8>,
) -> Result<bool, Memory>
    requires { IsValid query.now code.now }
    ensures { IfOk result (λ yes. PutsStructure query.now code.now yes text.old.items text.new.items) }
{
    let graph = expand(alloc, query, code)?;
    if !writable(&graph) {
        return Ok(false);
    }
    let table = table_of(alloc, &graph)?;
    put_text(alloc, text, code, &table)?;
    Ok(true)
}

// The place behind the last of some codes, or the place before them where there is none.
fn behind(alloc: Global, place: &[u32], codes: &[Key]) -> Result<Place, Memory>
    ensures { IfOk result (λ behind. behind ≡ place_behind place.now codes.now) }
{
    let mut behind = Vec::new(alloc);
    let Some(last) = codes.last() else {
        behind.extend_from_slice(place)?;
        return Ok(Place::of(behind));
    };
    behind.extend_from_slice(last.as_slice())?;
    behind.push(0)?;
    Ok(Place::of(behind))
}
