// The lines of a table before its properties, one by one.
ghost use Rattle.std.specs.Prelude.{◌≡◌, ◌≤◌, IfSome};
ghost use Rattle.std.specs.List.{list_all};
ghost use Rattle.mk_text.specs.Columns.{standing};
ghost use Rattle.mk_props.specs.Reading.{Gives};
ghost use Rattle.mk_tables.specs.TableLines.{natural_of, is_v3000, is_v2000_or_none, counts_of, is_coordinate, atom_numbers_of, raw_atom_of, raw_bond_of, list_flag_of, list_count_of, list_numbers_of, list_of};

use crate::raw::{RawAtom, RawBond, RawList, Signed};
use mk_props::LineFault;
use mk_text::{Listed, column, field, trimmed_column};
use std::alloc::Global;

/// The numbers of a counts line.
#[derive(Clone, Copy)]
pub struct CountsLine {
    pub atoms: u32,
    pub bonds: u32,
    pub lists: u32,
    pub stext: u32,
}

// A field that holds a number from 0 on.
#[tactic(auto, unfolding(crate::specs::TableLines::natural_of))]
fn natural(line: &[u8], from: usize, to: usize) -> Option<u32>
    requires first { 1 ≤ from }
    requires order { from ≤ to }
    ensures { result ≡ natural_of line.now from to }
{
    let number = field(line, from, to)?;
    if number < 0 {
        return None;
    }
    Some(number as u32)
}

/// Whether columns 34 to 39 say V3000.
pub fn says_v3000(line: &[u8]) -> bool
    ensures { result ≡ is_v3000 line.now }
{
    trimmed_column(line, 34, 39) == b"V3000".as_slice()
}

fn has_version(line: &[u8]) -> bool
    ensures { result ≡ is_v2000_or_none line.now }
{
    let version = trimmed_column(line, 34, 39);
    version.is_empty() || version == b"V2000".as_slice()
}

// aaabbblll   cccsss               vvvvvv   columns 1-3 atoms, 4-6 bonds, 7-9 atom lists, 13-15
//                                           chiral flag, 16-18 stext entries, 34-39 the version
#[tactic(auto, unfolding(crate::specs::TableLines::counts_of))]
pub fn read_counts(line: &[u8]) -> Option<CountsLine>
    ensures { result ≡ counts_of line.now }
{
    if trimmed_column(line, 1, 3).is_empty() || !has_version(line) {
        return None;
    }
    let atoms = natural(line, 1, 3)?;
    let bonds = natural(line, 4, 6)?;
    let lists = natural(line, 7, 9)?;
    field(line, 13, 15)?;
    let stext = natural(line, 16, 18)?;
    Some(CountsLine {
        atoms,
        bonds,
        lists,
        stext,
    })
}

fn is_coordinate_byte(byte: u8) -> bool
    ensures { result ≡ is_coordinate byte }
{
    byte.is_ascii_digit() || byte == b'+' || byte == b'-' || byte == b'.' || byte == b' '
}

fn has_coordinates(line: &[u8]) -> bool
    ensures { result ≡ list_all is_coordinate (standing line.now 1 30) }
{
    column(line, 1, 30)
        .iter()
        .all(|byte| is_coordinate_byte(*byte))
}

/// The numbers of an atom line.
#[derive(Clone, Copy)]
pub struct AtomNumbers {
    pub charge: i32,
    pub hydrogens: i32,
    pub valence: i32,
}

// xxxxx.xxxxyyyyy.yyyyzzzzz.zzzz aaaddcccssshhhbbbvvv   columns 35-36 mass difference, 37-39
//                                                       charge, 40-42 parity, 43-45 hydrogens,
//                                                       46-48 stereo care, 49-51 valence
#[tactic(auto, unfolding(crate::specs::TableLines::atom_numbers_of))]
fn atom_numbers(line: &[u8]) -> Option<AtomNumbers>
    ensures { result ≡ atom_numbers_of line.now }
{
    field(line, 35, 36)?;
    let charge = field(line, 37, 39)?;
    field(line, 40, 42)?;
    let hydrogens = field(line, 43, 45)?;
    field(line, 46, 48)?;
    let valence = field(line, 49, 51)?;
    Some(AtomNumbers {
        charge,
        hydrogens,
        valence,
    })
}

// xxxxx.xxxxyyyyy.yyyyzzzzz.zzzz aaadd..   columns 1-30 the coordinates, 32-34 the symbol, from 35
//                                          on the numbers
#[tactic(auto, unfolding(crate::specs::TableLines::raw_atom_of))]
pub fn read_atom(alloc: Global, line: &[u8]) -> Result<RawAtom, LineFault>
    ensures { Gives result (raw_atom_of line.now) }
{
    if !has_coordinates(line) {
        return Err(LineFault::Bad);
    }
    let Some(numbers) = atom_numbers(line) else {
        return Err(LineFault::Bad);
    };
    let symbol = Vec::from_slice(alloc, trimmed_column(line, 32, 34))?;
    Ok(RawAtom {
        symbol: Listed::of(symbol),
        charge: numbers.charge,
        hydrogens: numbers.hydrogens,
        valence: numbers.valence,
    })
}

// 111222tttsss   rrr   columns 1-3 and 4-6 the atoms, 7-9 the type, 10-12 the stereo, 16-18 the
//                      topology
#[tactic(auto, unfolding(crate::specs::TableLines::raw_bond_of))]
pub fn read_bond(line: &[u8]) -> Option<RawBond>
    ensures { result ≡ raw_bond_of line.now }
{
    let first = field(line, 1, 3)?;
    let second = field(line, 4, 6)?;
    let kind = field(line, 7, 9)?;
    field(line, 10, 12)?;
    let topology = field(line, 16, 18)?;
    Some(RawBond {
        first,
        second,
        kind,
        topology,
    })
}

// Column 5: T where the atom has none of the numbers, F where it has one of them.
#[tactic(auto, unfolding(crate::specs::TableLines::list_flag_of))]
fn list_flag(line: &[u8]) -> Option<bool>
    ensures { result ≡ list_flag_of line.now }
{
    let flag = trimmed_column(line, 5, 5);
    if flag == b"T".as_slice() {
        return Some(true);
    }
    if flag == b"F".as_slice() {
        return Some(false);
    }
    None
}

// Column 10: a digit from 1 to 5.
#[tactic(auto, unfolding(crate::specs::TableLines::list_count_of))]
fn list_count(line: &[u8]) -> Option<usize>
    ensures value { result ≡ list_count_of line.now }
    ensures few { IfSome result (λ count. count ≤ 5) }
{
    let count = field(line, 10, 10)?;
    if count < 1 || count > 5 {
        return None;
    }
    Some(count as usize)
}

// Columns 12-14, 16-18, .. 28-30: so many atomic numbers.
#[tactic(auto, unfolding(crate::specs::TableLines::list_numbers_of))]
fn list_numbers(alloc: Global, line: &[u8]) -> Result<Signed, LineFault>
    ensures { Gives result (list_numbers_of line.now) }
{
    let Some(count) = list_count(line) else {
        return Err(LineFault::Bad);
    };
    let mut numbers = Vec::with_capacity(alloc, count)?;
    for i in 0..count {
        let Some(number) = field(line, 12 + 4 * i, 14 + 4 * i) else {
            return Err(LineFault::Bad);
        };
        numbers.push(number)?;
    }
    Ok(Listed::of(numbers))
}

// aaa k    n 111 222 333 444 555   columns 1-3 the atom, 5 T or F, 10 the count, from 12 on the
//                                  atomic numbers
#[tactic(auto, unfolding(crate::specs::TableLines::list_of))]
pub fn read_list(alloc: Global, line: &[u8]) -> Result<RawList, LineFault>
    ensures { Gives result (list_of line.now) }
{
    let Some(atom) = field(line, 1, 3) else {
        return Err(LineFault::Bad);
    };
    let Some(not) = list_flag(line) else {
        return Err(LineFault::Bad);
    };
    let numbers = list_numbers(alloc, line)?;
    Ok(RawList { atom, not, numbers })
}
