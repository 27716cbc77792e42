// Each call of a library that may answer want of memory, and what it leaves on the shelf.
ghost use Rattle.std.specs.Prelude.{◌<◌};

use mk_library::{Library, RecordRow, RestoreFault};
use mk_outside::Bytes;
use std::alloc::{AllocError, Global};
use std::test::Fail;

const EMPTY: &str = "\n\n\n  0\nM  END\n";

const CARBON: &str = "\n\n\n  1  0\n                               C\nM  END\n";

const OXYGEN: &str = "\n\n\n  1  0\n                               O\nM  END\n";

const THREE: &str =
    "\n\n\n  1  0\n                               C\nM  END\n$$$$\n\n\n\n  1  0\n                               C\nM  END\n$$$$\n\n\n\n  1  0\n                               C\nM  END\n";

fn load(library: &mut Library, alloc: Global, text: &str) -> bool {
    match library.load(alloc, text.as_bytes()) {
        Ok(pending) => {
            library.install(pending);
            true
        }
        Err(_) => false,
    }
}

fn replace(library: &mut Library, alloc: Global, number: u32, text: &str) -> bool {
    match library.replace(alloc, number, text.as_bytes()) {
        Ok(pending) => {
            library.install(pending);
            true
        }
        Err(_) => false,
    }
}

fn remove(library: &mut Library, alloc: Global, number: u32) -> bool {
    match library.remove(alloc, number) {
        Ok(pending) => {
            library.install(pending);
            true
        }
        Err(_) => false,
    }
}

// Whether of three carbons the second becomes an oxygen and the first goes.
fn is_edited(library: &mut Library, alloc: Global) -> bool {
    load(library, alloc, THREE) && replace(library, alloc, 2, OXYGEN) && remove(library, alloc, 1)
}

// Whether the record has this text, and its molecule so many atoms.
fn has_record(library: &Library, number: u32, text: &str, atoms: u32) -> bool {
    match (library.text(number), library.shelf().get(number)) {
        (Some(found), Some(mol)) => found == text.as_bytes() && mol.atom_count() == atoms,
        _ => false,
    }
}

// Whether an oxygen 2 and a carbon 3 are held, with their hydrogens, and no record 1.
fn has_both(library: &Library) -> bool {
    library.text(1).is_none()
        && has_record(library, 2, OXYGEN, 3)
        && has_record(library, 3, CARBON, 5)
        && library.next_number() == 4
}

fn is_made(alloc: Global) -> bool {
    let mut library = Library::new(alloc);
    is_edited(&mut library, alloc) && has_both(&library)
}

#[test]
fn edits_are_made(rt: HostRuntime) -> Result<(), Fail> {
    assert!(rt; is_made(rt.alloc()));
    Ok(())
}

// The numbers of the records that have this bit.
fn posting(library: &Library, alloc: Global, bit: u32) -> Result<Vec<u32>, AllocError>
    requires { bit < 512 }
{
    Ok(library.shelf().posting(alloc, bit)?)
}

// Whether 3 is the one record with a carbon, and 2 the one with an oxygen.
fn has_postings(library: &Library, alloc: Global) -> Result<bool, AllocError> {
    let carbons = posting(library, alloc, 137)?;
    let oxygens = posting(library, alloc, 139)?;
    Ok(carbons.as_slice() == [3u32].as_slice() && oxygens.as_slice() == [2u32].as_slice())
}

// Whether the edited library and one that is built anew have these records and postings.
fn is_same_anew(alloc: Global) -> Result<bool, AllocError> {
    let mut library = Library::new(alloc);
    if !is_edited(&mut library, alloc) {
        return Ok(false);
    }
    let Ok(other) = library.rebuilt(alloc) else {
        return Ok(false);
    };
    Ok(has_postings(&library, alloc)? && has_both(&other) && has_postings(&other, alloc)?)
}

#[test]
fn postings_follow_edits(rt: HostRuntime) -> Result<(), Fail> {
    assert!(rt; is_same_anew(rt.alloc())?);
    Ok(())
}

fn record_row(alloc: Global, number: u32) -> Result<RecordRow, AllocError> {
    Ok(RecordRow {
        number,
        text: Bytes::of(Vec::from_slice(alloc, EMPTY.as_bytes())?),
    })
}

// The first row that doesn't read of one of number 2 and one behind it, or 0.
fn first_bad(alloc: Global, number: u32) -> Result<u32, AllocError> {
    let mut rows = Vec::new(alloc);
    rows.push(record_row(alloc, 2)?)?;
    rows.push(record_row(alloc, number)?)?;
    match Library::restore(alloc, rows.as_slice(), 4) {
        Ok(_library) => Ok(0),
        Err(RestoreFault::Bad { number }) => Ok(number),
        Err(RestoreFault::Memory) => Err(AllocError),
    }
}

// The rows of a file rise, so that none stands below the one before.
fn is_read(alloc: Global) -> Result<bool, AllocError> {
    Ok(first_bad(alloc, 3)? == 0 && first_bad(alloc, 1)? == 1)
}

#[test]
fn stored_rows_read_or_are_named(rt: HostRuntime) -> Result<(), Fail> {
    assert!(rt; is_read(rt.alloc())?);
    Ok(())
}
