// What a line of a block is: an atom, a bond or an atom list. The blocks of all three are read
// alike.
ghost use Rattle.std.specs.Prelude.{List, ℕ, Option};
ghost use Rattle.mk_props.specs.Reading.{Gives};
ghost use Rattle.mk_tables.specs.TableLines.{raw_atom_of, raw_bond_of, list_of};

use crate::raw::{RawAtom, RawBond, RawList};
use crate::table_lines::{read_atom, read_bond, read_list};
use mk_props::LineFault;
use std::alloc::Global;

pub trait Row: Sized {
    // What a line says.
    ghost row_of: { List ℕ → Option Self };

    fn read(alloc: Global, line: &[u8]) -> Result<Self, LineFault>
        ensures { Gives result (row_of line.now) };
}

impl Row for RawAtom {
    ghost row_of = { raw_atom_of };

    fn read(alloc: Global, line: &[u8]) -> Result<RawAtom, LineFault> {
        read_atom(alloc, line)
    }
}

impl Row for RawBond {
    ghost row_of = { raw_bond_of };

    fn read(_alloc: Global, line: &[u8]) -> Result<RawBond, LineFault> {
        match read_bond(line) {
            Some(bond) => Ok(bond),
            None => Err(LineFault::Bad),
        }
    }
}

impl Row for RawList {
    ghost row_of = { list_of };

    fn read(alloc: Global, line: &[u8]) -> Result<RawList, LineFault> {
        read_list(alloc, line)
    }
}
