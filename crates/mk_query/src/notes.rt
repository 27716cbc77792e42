// A table with what is noted of its atoms, worked out once, and lent to the checks and to the
// template.
ghost use Rattle.std.specs.Prelude.{◌≡◌, ◌≤◌, IfOk, length};
ghost use Rattle.mk_query.specs.AtomMarks.{AreStanding, note_props};

use crate::atom_marks::{Standing, standing_of};
use mk_tables::RawTable;
use mk_text::Memory;
use std::alloc::Global;

/// A table of at most 999 atoms, and what stands at them.
#[derive(Drop)]
pub struct Notes<'a> {
    pub table: &'a RawTable,
    pub standing: Standing,
    ghost few: { length table.now.atoms ≤ 999 },
    ghost are: { AreStanding table.now standing } by { Prim.hlevel note_props },
}

impl<'a> Notes<'a> {
    pub fn of(alloc: Global, table: &'a RawTable) -> Result<Notes<'a>, Memory>
        requires { length table.now.atoms ≤ 999 }
        ensures { IfOk result (λ notes. notes.table.now ≡ table.now) }
    {
        let standing = standing_of(alloc, table)?;
        Ok(Notes { table, standing })
    }
}
