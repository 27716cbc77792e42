// The library of the drill's molecules: the text of each is loaded as a record.
ghost use Rattle.std.specs.Prelude.{◌≡◌, ◌∷◌, ◌++◌, ◌*◌, ◌+◌, ◌/◌, ◌<◌, ◌≤◌, [], true, IfOk, OnOk, length};
ghost use Rattle.mk_library.specs.declared.refusal.LoadRefusal.TheVariants as refusal;
ghost use Rattle.mk_library.specs.Records.{is_held};
ghost use Rattle.mk_outside.specs.Rows.{without};
ghost use Rattle.mk_outside.specs.Tables.{record_number};
ghost use Rattle.mk_drill.specs.Drill.{HoldsDrilled, IsLeft};
ghost use Rattle.mk_drill.specs.DrilledRecords.{HoldsExactly, IsCounted, IsLoadable, drilled_records, drilled_text, left_below, next_record};

use crate::draws::Draws;
use crate::drilled_tables::drilled_table;
use mk_library::{Library, LoadRefusal};
use mk_mol::one_filled_molecule;
use mk_spelling::write_table;
use mk_tables::RawTable;
use mk_text::Memory;
use std::alloc::Global;

/// Makes so many molecules by draws, and loads each as a record, under the numbers from 1 on.
pub fn drilled_library(alloc: Global, start: u32, count: u32) -> Result<Library, Memory>
    requires { count ≤ 10000 }
    ensures records { IfOk result (λ library. library.records ≡ drilled_records start count) }
    ensures held { IfOk result (λ library. HoldsExactly library.rows (HoldsDrilled start count)) }
{
    one_filled_molecule();
    let mut library = Library::new(alloc);
    let mut draws = Draws { state: start };
    for n in 0..count {
        let table = drilled_table(alloc, &mut draws)?;
        load_table(alloc, &mut library, &table)?;
    }
    // For the proof alone: what the shelf holds is known by it.
    let _ = library.shelf();
    Ok(library)
}

/// Removes the records whose number is a multiple of 5.
pub fn remove_multiples(
    alloc: Global,
    library: &mut Library,
    start: u32,
    count: u32,
) -> Result<(), Memory>
    requires { library.old.records ≡ drilled_records start count }
    ensures { OnOk result (HoldsExactly library.new.rows (IsLeft start count)) }
{
    one_filled_molecule();
    for k in 0..count / 5 {
        remove_record(alloc, library, 5 * k + 5)?;
    }
    // For the proof alone, as above.
    let _ = library.shelf();
    Ok(())
}

// Loads the text of a table as the next record.
fn load_table(alloc: Global, library: &mut Library, table: &RawTable) -> Result<(), Memory>
    requires loadable { IsLoadable table.now }
    requires counted { IsCounted library.old }
    requires few { length library.old.records < 10000 }
    ensures records { OnOk result (library.new.records ≡ library.old.records ++ next_record library.old table.now ∷ []) }
    ensures counted { OnOk result (IsCounted library.new) }
{
    let text = text_of(alloc, table)?;
    match library.load(alloc, &text) {
        Ok(pending) => {
            library.install(pending);
            Ok(())
        }
        Err(said) => Err(want_of_memory(said)),
    }
}

// Three empty header lines, and the spelling of the table.
#[tactic(auto, unfolding(crate::specs::DrilledRecords::drilled_text))]
fn text_of(alloc: Global, table: &RawTable) -> Result<Vec<u8>, Memory>
    requires { IsLoadable table.now }
    ensures { IfOk result (λ text. text.items ≡ drilled_text table.now) }
{
    let mut text = Vec::from_slice(alloc, b"\n\n\n")?;
    write_table(alloc, &mut text, table)?;
    Ok(text)
}

// Takes out a record that is held.
fn remove_record(alloc: Global, library: &mut Library, number: u32) -> Result<(), Memory>
    requires { is_held number library.old.records ≡ true }
    ensures { OnOk result (library.new.records ≡ without record_number number library.old.records) }
{
    match library.remove(alloc, number) {
        Ok(pending) => {
            library.install(pending);
            Ok(())
        }
        Err(said) => Err(want_of_memory(said)),
    }
}

// No other refusal comes.
fn want_of_memory(said: LoadRefusal) -> Memory
    requires { said ≡ refusal.Memory }
{
    match said {
        LoadRefusal::Memory => Memory,
        _ => unreachable!(),
    }
}
