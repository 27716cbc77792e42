// The lines of atoms and of bonds.
ghost use Rattle.std.specs.Prelude.{◌≡◌, ◌≤◌, All, IfOk, map};
ghost use Rattle.mk_model.specs.Tests.{IsKindInRange, IsTestInRange};
ghost use Rattle.mk_enum.specs.StructureTables.{atom_drawn, bond_drawn, kind_symbol};

use mk_elements::symbol_of;
use mk_model::{Bytes, GraphAtom, GraphBond, Kind, Memory};
use mk_tables::{RawAtom, RawBond};
use std::alloc::Global;

/// The lines of atoms, in order.
pub fn atom_lines(alloc: Global, atoms: &[GraphAtom]) -> Result<Vec<RawAtom>, Memory>
    requires { All (λ atom. IsTestInRange atom.test) atoms.now }
    ensures { IfOk result (λ lines. lines.items ≡ map atom_drawn atoms.now) }
{
    let mut lines = Vec::with_capacity(alloc, atoms.len())?;
    for atom in atoms {
        lines.push(atom_line(alloc, atom)?)?;
    }
    Ok(lines)
}

fn atom_line(alloc: Global, atom: &GraphAtom) -> Result<RawAtom, Memory>
    requires { IsTestInRange atom.now.test }
    ensures { IfOk result (λ line. line ≡ atom_drawn atom.now) }
{
    let symbol = Vec::from_slice(alloc, kind_symbol(&atom.test.kind))?;
    Ok(RawAtom {
        symbol: Bytes::of(symbol),
        charge: 0,
        hydrogens: i32::from(atom.test.hydrogens),
        valence: 0,
    })
}

// The word for a kind.
#[tactic(auto, using(crate::proofs::SymbolLemmas::symbol_is))]
fn kind_symbol(kind: &Kind) -> &'static [u8]
    requires { IsKindInRange kind.now }
    ensures { result.now ≡ kind_symbol kind.now }
{
    match kind {
        Kind::Element(z) => symbol_of(*z),
        Kind::OneOf(_) | Kind::NoneOf(_) => b"L",
        Kind::NotHydrogen => b"A",
        Kind::Hetero => b"Q",
        Kind::Anything => b"*",
    }
}

/// The lines of bonds, in order.
pub fn bond_lines(alloc: Global, bonds: &[GraphBond]) -> Result<Vec<RawBond>, Memory>
    requires { All (λ bond. (bond.first ≤ 512) × (bond.second ≤ 512)) bonds.now }
    ensures { IfOk result (λ lines. lines.items ≡ map bond_drawn bonds.now) }
{
    let mut lines = Vec::with_capacity(alloc, bonds.len())?;
    for bond in bonds {
        lines.push(bond_line(*bond))?;
    }
    Ok(lines)
}

fn bond_line(bond: GraphBond) -> RawBond
    requires { (bond.first ≤ 512) × (bond.second ≤ 512) }
    ensures { result ≡ bond_drawn bond }
{
    RawBond {
        first: bond.first as i32,
        second: bond.second as i32,
        kind: i32::from(bond.kind),
        topology: i32::from(bond.topology),
    }
}
