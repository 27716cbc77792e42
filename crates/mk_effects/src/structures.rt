// The command `enum`.
ghost use Rattle.std.specs.Prelude.{◌≡◌, ◌++◌, IfOk, OnOk};
ghost use Rattle.mk_library.specs.Library.{LibraryView};
ghost use Rattle.mk_found.specs.Findings.{FoundFits, effect_of};
ghost use Rattle.mk_kept.specs.Asked.{IsStructureLimit};
ghost use Rattle.mk_effects.specs.Structures.{IsEnum, behind_commas, comma_numbers, place_line};

use mk_enum::structures;
use mk_found::{Found, SessionEdit, no_query};
use mk_kept::Saved;
use mk_outside::{Bytes, Memory};
use mk_text::put_number;
use std::alloc::Global;

/// What `enum` comes to.
pub fn enum_found(
    alloc: Global,
    saved: &Saved,
    name: &str,
    limit: u32,
    from: &[u32],
) -> Result<Found, Memory>
    requires { IsStructureLimit limit }
    ensures comes { IfOk result (λ found. IsEnum saved.now.queries name.now limit from.now (effect_of found)) }
    ensures fits { (library : LibraryView) → IfOk result (FoundFits library saved.now) }
{
    let Some(query) = saved.query_named(name.as_bytes()) else {
        return no_query(alloc, name);
    };
    let found = structures(alloc, query, from, limit as usize)?;
    let mut text = found.text.into_vec();
    put_place(alloc, &mut text, found.ended, found.place.as_slice())?;
    Ok(Found::Answered(SessionEdit::Unchanged, Bytes::of(text)))
}

// The last line.
fn put_place(alloc: Global, text: &mut Vec<u8>, ended: bool, place: &[u32]) -> Result<(), Memory>
    ensures { OnOk result (text.new.items ≡ text.old.items ++ place_line ended place.now) }
{
    if ended {
        return text.extend_from_slice(b"end\n");
    }
    text.extend_from_slice(b"more ")?;
    put_between_commas(alloc, text, place)?;
    text.extend_from_slice(b"\n")
}

// The numbers, with a comma between each two.
fn put_between_commas(alloc: Global, text: &mut Vec<u8>, numbers: &[u32]) -> Result<(), Memory>
    ensures { OnOk result (text.new.items ≡ text.old.items ++ comma_numbers numbers.now) }
{
    match numbers {
        [] => Ok(()),
        [first, others @ ..] => {
            put_number(alloc, text, u64::from(*first))?;
            put_behind_commas(alloc, text, others)
        }
    }
}

// Each number behind a comma.
fn put_behind_commas(alloc: Global, text: &mut Vec<u8>, numbers: &[u32]) -> Result<(), Memory>
    ensures { OnOk result (text.new.items ≡ text.old.items ++ behind_commas numbers.now) }
{
    for number in numbers {
        text.push(b',')?;
        put_number(alloc, text, u64::from(*number))?;
    }
    Ok(())
}
