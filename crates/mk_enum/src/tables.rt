// The table of a graph.
ghost use Rattle.std.specs.Prelude.{IfOk};
ghost use Rattle.mk_enum.specs.StructureTables.{IsTableOf};
ghost use Rattle.mk_enum.specs.Writable.{IsWritable};

use crate::atoms::{atom_lines, bond_lines};
use crate::entries::entries_of;
use mk_model::{Graph, Memory};
use mk_tables::{RawAtoms, RawBonds, RawLists, RawTable};
use std::alloc::Global;

/// The table of a graph that is writable: atoms and bonds as the graph has them, and what is asked
/// of its atoms. Nothing else of what makes it an expansion is needed.
pub fn table_of(alloc: Global, graph: &Graph) -> Result<RawTable, Memory>
    requires { IsWritable graph.now }
    ensures { IfOk result (IsTableOf graph.now) }
{
    let atoms = graph.atoms();
    let lines = atom_lines(alloc, atoms)?;
    let bonds = bond_lines(alloc, graph.bonds())?;
    let props = entries_of(alloc, atoms)?;
    Ok(RawTable {
        atoms: RawAtoms::of(lines),
        bonds: RawBonds::of(bonds),
        lists: RawLists::new(alloc),
        props,
    })
}
