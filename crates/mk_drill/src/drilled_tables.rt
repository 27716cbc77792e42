// The tables of the drill's molecules.
ghost use Rattle.std.specs.Prelude.{◌≡◌, ◌<◌, ◌≤◌, ◌+◌, ◌++◌, ◌∷◌, [], length, replicate, codes, IfOk, OnOk};
ghost use Rattle.mk_drill.specs.Draws.{benzene, drilled_table, plain_atom, plain_bond, state_behind, substituted, with_atom, with_methoxy};

use crate::draws::{Draws, draw_below};
use mk_tables::{
    Bytes, Memory, Properties, RawAtom, RawAtoms, RawBond, RawBonds, RawLists, RawTable,
};
use std::alloc::Global;

/// The table of the next molecule: six draws, one for each atom of benzene.
pub fn drilled_table(alloc: Global, draws: &mut Draws) -> Result<RawTable, Memory>
    ensures table { IfOk result (λ table. table ≡ drilled_table draws.old.state) }
    ensures state { OnOk result (draws.new.state ≡ state_behind 6 draws.old.state) }
{
    let mut table = benzene(alloc)?;
    for x in 1..7 {
        let draw = draw_below(draws, 8);
        substitute(alloc, &mut table, x, draw)?;
    }
    Ok(table)
}

// ---- benzene

// Six carbons in a ring, with double bonds at every second place.
#[tactic(auto, unfolding(crate::specs::Draws::benzene))]
fn benzene(alloc: Global) -> Result<RawTable, Memory>
    ensures { IfOk result (λ table. table ≡ benzene) }
{
    let atoms = carbons(alloc, 6)?;
    let bonds = RawBonds::of(Vec::from_slice(
        alloc,
        &[
            plain_bond(1, 2, 2),
            plain_bond(2, 3, 1),
            plain_bond(3, 4, 2),
            plain_bond(4, 5, 1),
            plain_bond(5, 6, 2),
            plain_bond(1, 6, 1),
        ],
    )?);
    Ok(RawTable {
        atoms,
        bonds,
        lists: RawLists::new(alloc),
        props: Properties::new(alloc),
    })
}

// So many carbons.
fn carbons(alloc: Global, count: usize) -> Result<RawAtoms, Memory>
    ensures { IfOk result (λ atoms. atoms ≡ replicate count (plain_atom (codes "C"))) }
{
    let mut atoms = RawAtoms::new(alloc);
    for i in 0..count {
        atoms.push(plain_atom(alloc, b"C")?)?;
    }
    Ok(atoms)
}

// An atom with nothing in its columns.
fn plain_atom(alloc: Global, symbol: &[u8]) -> Result<RawAtom, Memory>
    ensures { IfOk result (λ atom. atom ≡ plain_atom symbol.now) }
{
    Ok(RawAtom {
        symbol: Bytes::of(Vec::from_slice(alloc, symbol)?),
        charge: 0,
        hydrogens: 0,
        valence: 0,
    })
}

// A bond of this type.
fn plain_bond(first: u32, second: u32, kind: u32) -> RawBond
    requires first { first < 1000 }
    requires second { second < 1000 }
    requires kind { kind < 1000 }
    ensures { result ≡ plain_bond first second kind }
{
    RawBond {
        first: first as i32,
        second: second as i32,
        kind: kind as i32,
        topology: 0,
    }
}

// ---- what a draw puts on an atom

// Puts on an atom what the draw says.
fn substitute(alloc: Global, table: &mut RawTable, x: u32, draw: u32) -> Result<(), Memory>
    requires atom { x < 1000 }
    requires few { length table.old.atoms < 998 }
    ensures table { OnOk result (table.new ≡ substituted x draw table.old) }
{
    match draw {
        0 => put_atom(alloc, table, b"Cl", x),
        1 => put_atom(alloc, table, b"Br", x),
        2 => put_methoxy(alloc, table, x),
        _ => Ok(()),
    }
}

// An oxygen more, and a carbon bonded to it.
fn put_methoxy(alloc: Global, table: &mut RawTable, x: u32) -> Result<(), Memory>
    requires atom { x < 1000 }
    requires few { length table.old.atoms < 998 }
    ensures { OnOk result (table.new ≡ with_methoxy x table.old) }
{
    let oxygen = table.atoms.as_slice().len() as u32 + 1;
    put_atom(alloc, table, b"O", x)?;
    put_atom(alloc, table, b"C", oxygen)
}

// One atom more, and a bond of type 1 to it.
#[tactic(auto, unfolding(crate::specs::Draws::with_atom))]
fn put_atom(alloc: Global, table: &mut RawTable, symbol: &[u8], x: u32) -> Result<(), Memory>
    requires atom { x < 1000 }
    requires few { length table.old.atoms < 999 }
    ensures table { OnOk result (table.new ≡ with_atom symbol.now x table.old) }
    ensures more { OnOk result (length table.new.atoms ≡ length table.old.atoms + 1) }
{
    let number = table.atoms.as_slice().len() as u32 + 1;
    let atom = plain_atom(alloc, symbol)?;
    table.atoms.push(atom)?;
    table.bonds.push(plain_bond(x, number, 1))
}
