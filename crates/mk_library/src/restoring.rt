// A library from stored rows.
ghost use Rattle.std.specs.Prelude.{◌≡◌, IfOk, OnOk};
ghost use Rattle.mk_library.specs.StoredRows.{AllRead, IfBad, IsFirstBad};

use crate::molecules::molecule_of_text;
use crate::{Library, RestoreFault};
use mk_outside::{Bytes, Memory, RecordRow};
use std::alloc::Global;

// The same text, in memory of its own.
pub fn copied(alloc: Global, text: &[u8]) -> Result<Bytes, Memory>
    ensures { IfOk result (λ copy. copy ≡ text.now) }
{
    Ok(Bytes::of(Vec::from_slice(alloc, text)?))
}

impl Library {
    /// The library of stored rows and their next number, or the first row that doesn't read.
    pub fn restore(alloc: Global, rows: &[RecordRow], next: u32) -> Result<Library, RestoreFault>
        ensures records { IfOk result (λ l. l.records ≡ rows.now) }
        ensures next { IfOk result (λ l. l.next_record ≡ next) }
        ensures read { OnOk result (AllRead next rows.now) }

        ensures bad { IfBad result (IsFirstBad next rows.now) }
    {
        let mut library = Library::with_next(alloc, next);
        for row in rows {
            if !library.has_place(row) {
                return Err(RestoreFault::Bad { number: row.number });
            }
            let Some(mol) = molecule_of_text(alloc, row.text.as_slice())? else {
                return Err(RestoreFault::Bad { number: row.number });
            };
            let text = copied(alloc, row.text.as_slice())?;
            library.reserve(1)?;
            library.put_stored(row.number, text, mol);
        }
        Ok(library)
    }
}
