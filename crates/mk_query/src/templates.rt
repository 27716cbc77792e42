// The template of a table.
ghost use Rattle.std.specs.Prelude.{IfOk};
ghost use Rattle.mk_query.specs.Compiled.{IsTemplateOf};
ghost use Rattle.mk_query.specs.Passed.{HasPassed};

use crate::atom_tests::tests_of;
use crate::drawn_bonds::query_bonds_of;
use crate::notes::Notes;
use crate::template_points::points_of;
use crate::template_slots::table_slots;
use mk_model::Template;
use mk_text::Memory;
use std::alloc::Global;

/// The template of a table that passed its checks.
pub fn template_of(alloc: Global, notes: &Notes<'_>) -> Result<Template, Memory>
    requires { HasPassed notes.now.table.now }
    ensures { IfOk result (IsTemplateOf notes.now.table.now) }
{
    let atoms = tests_of(alloc, notes.table)?;
    let bonds = query_bonds_of(alloc, notes.table.bonds.as_slice())?;
    let slots = table_slots(alloc, notes)?;
    let points = points_of(alloc, notes)?;
    Ok(Template::of(atoms, bonds, slots, points))
}
