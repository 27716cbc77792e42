//! The library: the texts of records beside their molecules, and how both change.
//!
//! Callers use three promises. A `Library` stands for the record rows of tables and their next
//! number, and the molecules on its shelf are the filled molecules of its texts (`IsLibrary` in
//! `specs/Library.antt`). `load`, `replace` and `remove` change no record: they make the pending
//! change of an edit, or name the first demand that the edit doesn't meet (`specs/Edits.antt`,
//! `specs/FirstRefusal.antt`). `one_molecule` judges a file of one record by the same demands.
//! `install` makes a pending change that fits (`PendingFits` in `specs/Pending.antt`), takes no
//! memory, and leaves the rows that `after_batch` of mk_outside gives.
//!
//! `restore` takes stored rows over, or names the first that doesn't read
//! (`specs/StoredRows.antt`). How files are read is left to mk_sdfile, what a molecule is to
//! mk_mol, and who keeps the rows to mk_outside.
#![tactic(auto)]

mod editing;
mod installing;
mod laws;
mod library;
mod molecules;
mod pending;
mod rebuilding;
mod refusal;
mod restoring;

pub use laws::{edits_keep_reading, records_change_alone};
pub use library::Library;
pub use mk_index::Shelf;
pub use mk_outside::{Bytes, Change, Memory, RecordRow};
pub use molecules::{FILE_BYTES, OneRecord, one_molecule};
pub use pending::Pending;
pub use refusal::{LoadRefusal, RestoreFault};
