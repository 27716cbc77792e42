// The drill.
ghost use Rattle.std.specs.Prelude.{◌≡◌, ◌≤◌, OnErr, OnOk};
ghost use Rattle.mk_drill.specs.Drill.{AppendsDrill};

use crate::drill_query::drill_query;
use crate::hits::listed_hits;
use crate::line::put_drill_line;
use mk_text::Memory;
use std::alloc::Global;
use std::marker::Brand;
use std::sync::ledger::Blank;

/// Appends the line of the drill of so many molecules, made from the start on. It has a library of
/// its own. Where memory doesn't suffice, nothing is appended.
pub fn drill(alloc: Global, start: u32, count: u32, answer: &mut Vec<u8>) -> Result<(), Memory>
    requires some { 1 ≤ count }
    requires few { count ≤ 10000 }
    ensures line { OnOk result (AppendsDrill start count answer.old.items answer.new.items) }
    ensures err { OnErr result (answer.new.items ≡ answer.old.items) }
{
    let query = drill_query(alloc)?;
    let hits = listed_hits::<Brand>(alloc, start, count, &query, Blank::new(1))?;
    put_drill_line(alloc, answer, count, &hits)
}
