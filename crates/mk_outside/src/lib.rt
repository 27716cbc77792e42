//! The outside: what input, files, output and a store are to the program, in memory and for real.
//!
//! Callers use one promise, which each of the traits `Source`, `Files`, `Sink` and `Keeper` states
//! of its calls. What an object holds is told or not told, and clauses on content hold where it is
//! told (`specs/Told.antt`). Each object counts its faults: a call answers `Failed` only where the
//! count rose in that call, and any other answer leaves the count as it was (`specs/Counts.antt`).
//! What a batch of changes makes of tables stands in `specs/Tables.antt`.
//!
//! The Mem kinds fail at the calls that they are given, and the Sure kinds never do. The adapters
//! tell what their std parts tell, and so nothing of a real file, input or output. `SqlKeeper` of
//! mk_sqlite is the keeper of a file. What bytes mean isn't known here.
#![tactic(auto)]

mod adapters;
mod answers;
mod calls;
mod causes;
mod files;
mod keepers;
mod laws;
mod rows;
mod sinks;
mod sources;
mod store;
pub mod streams;
mod tables;
mod traits;

pub use adapters::{DiskFiles, StdSink, StdSource};
pub use answers::{Failed, FileFail, KeepFail, PutFail, ReadEnd};
pub use calls::CallNumbers;
pub use causes::{Cause, cause_of};
pub use files::{FileRow, FileRows, MemFiles, SureFiles};
pub use keepers::{MemKeeper, SureKeeper};
pub use laws::rising_tables_stay_rising;
pub use mk_text::{Bytes, Listed, Memory, Place, Text};
pub use sinks::{MemSink, SureSink};
pub use sources::{MemSource, SureSource};
pub use tables::{
    Change, CursorRow, CursorRows, QueryRow, QueryRows, RecordRow, RecordRows, Tables,
};
pub use traits::{Files, Keeper, Sink, Source};
