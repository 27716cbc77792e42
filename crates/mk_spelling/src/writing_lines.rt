// The lines of a table that stand before its properties, written one by one.
ghost use Rattle.std.specs.Prelude.{◌≡◌, ◌++◌, ◌≤◌, length, All, OnOk};
ghost use Rattle.std.specs.List.{flat_map};
ghost use Rattle.mk_text.specs.Lines.{ended};
ghost use Rattle.mk_spelling.specs.TableSpelling.{spaced, counts_line, atom_line, bond_line, numbers_line, FitsThree, AtomFits, BondFits, ListFits};

use crate::writing_columns::{put_count, put_flag, put_left, put_spaced, put_three};
use mk_tables::{RawAtom, RawBond, RawList, RawTable};
use mk_text::{Memory, put_number};
use std::alloc::Global;

// aaabbblll  0  0  0            999 V2000   columns 1-3 atoms, 4-6 bonds, 7-9 atom lists
#[tactic(auto, unfolding(crate::specs::TableSpelling::counts_line))]
pub fn put_counts(alloc: Global, out: &mut Vec<u8>, table: &RawTable) -> Result<(), Memory>
    requires few_atoms { length table.now.atoms ≤ 999 }
    requires few_bonds { length table.now.bonds ≤ 999 }
    requires few_lists { length table.now.lists ≤ 999 }
    ensures { OnOk result (out.new.items ≡ out.old.items ++ ended (counts_line table.now)) }
{
    put_count(alloc, out, table.atoms.as_slice())?;
    put_count(alloc, out, table.bonds.as_slice())?;
    put_count(alloc, out, table.lists.as_slice())?;
    out.extend_from_slice(b"  0  0  0            999 V2000")?;
    out.extend_from_slice(b"\n")
}

//     0.0000    0.0000    0.0000 aaa 0ccc  0hhh  0vvv   columns 32-34 the symbol, 37-39 the charge,
//                                                       43-45 the hydrogens, 49-51 the valence
#[tactic(auto, unfolding(crate::specs::TableSpelling::atom_line))]
pub fn put_atom(alloc: Global, out: &mut Vec<u8>, atom: &RawAtom) -> Result<(), Memory>
    requires { AtomFits atom.now }
    ensures { OnOk result (out.new.items ≡ out.old.items ++ ended (atom_line atom.now)) }
{
    out.extend_from_slice(b"    0.0000    0.0000    0.0000 ")?;
    put_left(out, 3, atom.symbol.as_slice())?;
    out.extend_from_slice(b" 0")?;
    put_three(alloc, out, atom.charge)?;
    out.extend_from_slice(b"  0")?;
    put_three(alloc, out, atom.hydrogens)?;
    out.extend_from_slice(b"  0")?;
    put_three(alloc, out, atom.valence)?;
    out.extend_from_slice(b"\n")
}

// 111222ttt  0  0rrr   columns 1-3 and 4-6 the atoms, 7-9 the type, 16-18 the topology
#[tactic(auto, unfolding(crate::specs::TableSpelling::bond_line))]
pub fn put_bond(alloc: Global, out: &mut Vec<u8>, bond: &RawBond) -> Result<(), Memory>
    requires { BondFits bond.now }
    ensures { OnOk result (out.new.items ≡ out.old.items ++ ended (bond_line bond.now)) }
{
    put_three(alloc, out, bond.first)?;
    put_three(alloc, out, bond.second)?;
    put_three(alloc, out, bond.kind)?;
    out.extend_from_slice(b"  0  0")?;
    put_three(alloc, out, bond.topology)?;
    out.extend_from_slice(b"\n")
}

// Each number behind a blank.
fn put_numbers(alloc: Global, out: &mut Vec<u8>, numbers: &[i32]) -> Result<(), Memory>
    requires { All FitsThree numbers.now }
    ensures { OnOk result (out.new.items ≡ out.old.items ++ flat_map spaced numbers.now) }
{
    for number in numbers {
        put_spaced(alloc, out, *number)?;
    }
    Ok(())
}

// aaa k    n 111 222 ..   columns 1-3 the atom, 5 T or F, 10 the count, and from 11 on a blank and
//                         three for each number
#[tactic(auto, unfolding(crate::specs::TableSpelling::numbers_line))]
pub fn put_list(alloc: Global, out: &mut Vec<u8>, list: &RawList) -> Result<(), Memory>
    requires { ListFits list.now }
    ensures { OnOk result (out.new.items ≡ out.old.items ++ ended (numbers_line list.now)) }
{
    let numbers = list.numbers.as_slice();
    put_three(alloc, out, list.atom)?;
    out.extend_from_slice(b" ")?;
    put_flag(out, list.not)?;
    out.extend_from_slice(b"    ")?;
    put_number(alloc, out, numbers.len() as u64)?;
    put_numbers(alloc, out, numbers)?;
    out.extend_from_slice(b"\n")
}
