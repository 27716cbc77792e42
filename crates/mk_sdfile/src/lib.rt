//! SDfiles: `read_sdfile` reads the records of a text, each with its table and its own text.
//!
//! Callers use one promise. `read_sdfile` gives exactly the records of an SDfile, or names exactly
//! the first line with which no SDfile can go on (`IsSdfile` and `IsBadSdfileLine` in
//! `specs/Sdfile.antt`; the layout in docs/FORMAT.md, "SDfiles"). A record's text are its lines
//! before the separator, as `kept_lines` of mk_text keeps them.
//!
//! The lines of a table are those of `mk_tables`, or those of `mk_v3000` where the counts line says
//! V3000; then the record's table is its twin. What data lines say isn't read, and whether a table
//! is a molecule is known in `mk_mol`.
#![tactic(auto)]

mod molecule_file;
mod raw_record;
mod sdfile;
mod sdfile_laws;

pub use mk_tables::{RawTable, TableFault};
pub use mk_text::{Bytes, Memory};
pub use raw_record::{RawRecord, RawRecords};
pub use sdfile::read_sdfile;
pub use sdfile_laws::{sdfile_is_exact, text_is_its_record};
