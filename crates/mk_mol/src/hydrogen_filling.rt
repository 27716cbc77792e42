// The hydrogens that the written atoms gain, and their bonds.
ghost use Rattle.std.specs.Prelude.{◌≡◌, ◌≤◌, ◌<◌, ◌+◌, ◌++◌, ◌^◌, All, IfOk, OnOk, Some, length, map, replicate, slice_get, sum, take};
ghost use Rattle.mk_tables.specs.declared.raw.RawAtom.{RawAtom as Line};
ghost use Rattle.mk_demands.specs.Numbers.{natural};
ghost use Rattle.mk_valence.specs.Hydrogens.{added_hydrogens};
ghost use Rattle.mk_mol.specs.Filled.{AreGains, gained_by, hydrogen_atom, hydrogen_bonds, owners};
ghost use Rattle.mk_mol.specs.Checks.{IsKnownAtom};
ghost use Rattle.mk_mol.specs.FirstFault.{MeetsAllChecks};
ghost use Rattle.mk_mol.specs.Putting.{IsSound, kinds_of, unmarked};
ghost use Rattle.mk_mol.specs.Search.{IsDrawn};

use crate::bond_checks::Drawn;
use mk_demands::byte;
use mk_model::{Atom, Edge, Memory, MolBond};
use mk_tables::{RawAtom, RawTable};
use mk_valence::hydrogens;
use std::alloc::Global;

// What is added.
const HYDROGEN: Atom = Atom {
    element: 1,
    charge: 0,
    radical: 0,
};

/// How many hydrogens each of the written atoms gains.
pub fn gains_of(
    alloc: Global,
    table: &RawTable,
    atoms: &[Atom],
    drawn: &Drawn,
) -> Result<Vec<u8>, Memory>
    requires few { length table.now.atoms ≤ 999 }
    requires passes { MeetsAllChecks table.now }
    requires size { length atoms.now ≡ length table.now.atoms }
    requires sound { All IsSound atoms.now }
    requires drawn { IsDrawn table.now drawn.now }
    ensures { IfOk result (λ gains. AreGains table.now atoms.now gains.items) }
{
    let mut gains = Vec::with_capacity(alloc, atoms.len())?;
    for i in 0..atoms.len() {
        gains.push(gained_at(table, atoms[i], drawn, i))?;
    }
    Ok(gains)
}

// How many hydrogens the atom of the atom line at place i gains.
fn gained_at(table: &RawTable, atom: Atom, drawn: &Drawn, i: usize) -> u8
    requires few { length table.now.atoms ≤ 999 }
    requires within { i < length table.now.atoms }
    requires passes { MeetsAllChecks table.now }
    requires sound { IsSound atom }
    requires drawn { IsDrawn table.now drawn.now }
    ensures { (line : Line) → slice_get table.now.atoms i ≡ Some line → result ≡ gained_by table.now (i + 1) line atom }
{
    let mark = mark_of(&table.atoms.as_slice()[i]);
    let numbers = drawn.near.at(i as u32 + 1);
    gained(mark, atom, drawn.edges.as_slice(), numbers)
}

// The valence mark of an atom line.
fn mark_of(line: &RawAtom) -> u8
    requires { IsKnownAtom line.now }
    ensures mark { result ≡ natural line.now.valence }
    ensures small { result ≤ 15 }
{
    byte(line.valence)
}

// How many hydrogens an atom gains whose bonds have these numbers.
fn gained(mark: u8, atom: Atom, edges: &[Edge], numbers: &[u32]) -> u8
    requires mark { mark ≤ 15 }
    requires sound { IsSound atom }
    requires few { length numbers.now ≤ 20 }
    requires kinds { All (λ edge. (1 ≤ edge.kind) × (edge.kind ≤ 4)) edges.now }
    requires within { All (λ number. (1 ≤ number) × (number ≤ length edges.now)) numbers.now }
    ensures { result ≡ added_hydrogens atom.element atom.charge atom.radical mark (kinds_of edges.now numbers.now) }
{
    let mut kinds = [0; 20];
    put_kinds(&mut kinds, edges, numbers);
    hydrogens(
        atom.element,
        atom.charge,
        atom.radical,
        mark,
        &kinds[..numbers.len()],
    )
}

// Puts the types of the numbered bonds.
fn put_kinds(kinds: &mut [u8], edges: &[Edge], numbers: &[u32])
    requires room { length numbers.now ≤ length kinds.old }
    requires within { All (λ number. (1 ≤ number) × (number ≤ length edges.now)) numbers.now }
    ensures { take (length numbers.now) kinds.new ≡ kinds_of edges.now numbers.now }
{
    for j in 0..numbers.len() {
        kinds[j] = edges[numbers[j] as usize - 1].kind;
    }
}

/// Adds the hydrogens of all written atoms, and a bond for each. All memory for them is taken
/// first.
pub fn add_hydrogens(
    atoms: &mut Vec<Atom>,
    edges: &mut Vec<Edge>,
    gains: &[u8],
) -> Result<(), Memory>
    requires few { length gains.now ≤ 999 }
    requires few_atoms { length atoms.old.items ≤ 999 }
    ensures atoms { OnOk result (atoms.new.items ≡ atoms.old.items ++ replicate (length (owners 1 gains.now)) hydrogen_atom) }
    ensures edges { OnOk result (edges.new.items ≡ edges.old.items ++ hydrogen_bonds (length atoms.old.items + 1) (owners 1 gains.now)) }
    ensures few { OnOk result (length atoms.new.items < 2 ^ 20) }
{
    let more = sum_of(gains);
    atoms.reserve_exact(more)?;
    edges.reserve_exact(more)?;
    add_each(atoms, edges, gains)
}

// How many hydrogens there are.
fn sum_of(gains: &[u8]) -> usize
    requires { length gains.now ≤ 999 }
    ensures { result ≡ sum gains.now }
{
    let mut total = 0usize;
    for gained in gains {
        total += *gained as usize;
    }
    total
}

// Adds the hydrogens atom by atom.
fn add_each(atoms: &mut Vec<Atom>, edges: &mut Vec<Edge>, gains: &[u8]) -> Result<(), Memory>
    requires few { length gains.now ≤ 999 }
    requires few_atoms { length atoms.old.items ≤ 999 }
    ensures atoms { OnOk result (atoms.new.items ≡ atoms.old.items ++ replicate (length (owners 1 gains.now)) hydrogen_atom) }
    ensures edges { OnOk result (edges.new.items ≡ edges.old.items ++ hydrogen_bonds (length atoms.old.items + 1) (owners 1 gains.now)) }
    ensures few { OnOk result (length atoms.new.items < 2 ^ 20) }
{
    for (i, gained) in gains.iter().enumerate() {
        add_to(atoms, edges, i as u32 + 1, *gained)?;
    }
    Ok(())
}

// Adds the hydrogens of one atom.
fn add_to(
    atoms: &mut Vec<Atom>,
    edges: &mut Vec<Edge>,
    owner: u32,
    gained: u8,
) -> Result<(), Memory>
    requires { length atoms.old.items + 256 < 2 ^ 32 }
    ensures atoms { OnOk result (atoms.new.items ≡ atoms.old.items ++ replicate gained hydrogen_atom) }
    ensures edges { OnOk result (edges.new.items ≡ edges.old.items ++ hydrogen_bonds (length atoms.old.items + 1) (replicate gained owner)) }
{
    for _ in 0..gained {
        atoms.push(HYDROGEN)?;
        edges.push(Edge {
            first: owner,
            second: atoms.len() as u32,
            kind: 1,
        })?;
    }
    Ok(())
}

/// Adds bonds that have neither mark. All memory for them is taken first.
pub fn add_unmarked(bonds: &mut Vec<MolBond>, more: &[Edge]) -> Result<(), Memory>
    ensures { OnOk result (bonds.new.items ≡ bonds.old.items ++ map unmarked more.now) }
{
    bonds.reserve_exact(more.len())?;
    for i in 0..more.len() {
        bonds.push(without_marks(more[i]))?;
    }
    Ok(())
}

fn without_marks(edge: Edge) -> MolBond
    ensures { result ≡ unmarked edge }
{
    MolBond {
        first: edge.first,
        second: edge.second,
        kind: edge.kind,
        ring: false,
        aromatic: false,
    }
}
