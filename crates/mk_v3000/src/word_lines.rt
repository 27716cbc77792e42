// Logical lines one by one, by their words.
ghost use Rattle.std.specs.Prelude.{◌≡◌, ◌≤◌, ◌<◌, ◌∷◌, ◌&&◌, ◌||◌, [], IfNone, IfSome, length, not, pos, nat_eq};
ghost use Rattle.mk_text.specs.Lines.{words_of};
ghost use Rattle.mk_props.specs.Reading.{Gives};
ghost use Rattle.mk_v3000.specs.WordLines.{is_pair, number_of, count_of, is_valence, value_under, counts_of_words, atom_with, atom_of, bond_of};

use crate::next_word::next_word;
use mk_props::LineFault;
use mk_text::{Bytes, Listed, field};
use std::alloc::Global;

/// How many atoms and bonds a table has.
#[derive(Clone, Copy)]
pub struct PartCounts {
    pub atoms: usize,
    pub bonds: usize,
}

/// What an atom line says: 0 where an option isn't given.
#[derive(Drop)]
pub struct AtomLine {
    pub index: i32,
    pub symbol: Bytes,
    pub charge: i32,
    pub radical: i32,
    pub mass: i32,
    pub valence: i32,
}

/// What a bond line says; the ends are indexes of atoms.
#[derive(Clone, Copy)]
pub struct BondLine {
    pub kind: i32,
    pub first: i32,
    pub second: i32,
}

/// Whether the words of the text are these two.
pub fn is_pair(text: &[u8], first: &[u8], second: &[u8]) -> bool
    ensures { result ≡ is_pair (words_of text.now) first.now second.now }
{
    let Some((x, rest)) = next_word(text) else {
        return false;
    };
    let Some((y, rest)) = next_word(rest) else {
        return false;
    };
    if let Some(_more) = next_word(rest) {
        return false;
    }
    x == first && y == second
}

#[tactic(auto, unfolding(crate::specs::WordLines::number_of))]
fn number(word: &[u8]) -> Option<i32>
    ensures { result ≡ number_of word.now }
{
    if word.is_empty() {
        return None;
    }
    field(word, 1, word.len())
}

#[tactic(auto, unfolding(crate::specs::WordLines::count_of))]
fn count(word: &[u8]) -> Option<usize>
    ensures value { result ≡ count_of word.now }
    ensures few { IfSome result (λ n. n ≤ 999) }
{
    let number = number(word)?;
    if number < 0 || number > 999 {
        return None;
    }
    Some(number as usize)
}

fn fits(number: i32, valence: bool) -> bool
    ensures { result ≡ (not valence || is_valence number) }
{
    !valence || (number >= -1 && number <= 14)
}

// The number that the words give under this name, the last one where there are several.
fn value_under(options: &[u8], name: &[u8], valence: bool) -> Option<i32>
    ensures { result ≡ value_under name.now valence (pos 0) (words_of options.now) }
{
    let mut held = 0i32;
    let mut rest = options;
    while let Some((word, behind)) = next_word(rest) {
        if word.starts_with(name) {
            let number = number(&word[name.len()..])?;
            if !fits(number, valence) {
                return None;
            }
            held = number;
        }
        rest = behind;
    }
    Some(held)
}

// COUNTS aaa bbb ..   the numbers of atoms and of bonds
#[tactic(auto, unfolding(crate::specs::WordLines::counts_of_words))]
pub fn read_counts(text: &[u8]) -> Option<PartCounts>
    ensures value { result ≡ counts_of_words (words_of text.now) }
    ensures few { IfSome result (λ n. (n.atoms ≤ 999) × (n.bonds ≤ 999)) }
{
    let (name, rest) = next_word(text)?;
    if name != b"COUNTS".as_slice() {
        return None;
    }
    let (atom_word, rest) = next_word(rest)?;
    let (bond_word, _rest) = next_word(rest)?;
    let atoms = count(atom_word)?;
    let bonds = count(bond_word)?;
    Some(PartCounts { atoms, bonds })
}

#[tactic(auto, unfolding(crate::specs::WordLines::atom_with))]
fn read_atom_with(
    alloc: Global,
    index_word: &[u8],
    symbol: &[u8],
    options: &[u8],
) -> Result<AtomLine, LineFault>
    ensures { Gives result (atom_with index_word.now symbol.now (words_of options.now)) }
{
    let Some(index) = number(index_word) else {
        return Err(LineFault::Bad);
    };
    if index < 1 {
        return Err(LineFault::Bad);
    }
    let Some(charge) = value_under(options, b"CHG=", false) else {
        return Err(LineFault::Bad);
    };
    let Some(radical) = value_under(options, b"RAD=", false) else {
        return Err(LineFault::Bad);
    };
    let Some(mass) = value_under(options, b"MASS=", false) else {
        return Err(LineFault::Bad);
    };
    let Some(valence) = value_under(options, b"VAL=", true) else {
        return Err(LineFault::Bad);
    };
    let symbol = Vec::from_slice(alloc, symbol)?;
    Ok(AtomLine {
        index,
        symbol: Listed::of(symbol),
        charge,
        radical,
        mass,
        valence,
    })
}

// iii symbol x y z mapping ..   the index, the symbol, coordinates and a mapping, which aren't read,
//                               and options
#[tactic(auto, unfolding(crate::specs::WordLines::atom_of))]
pub fn read_atom(alloc: Global, text: &[u8]) -> Result<AtomLine, LineFault>
    ensures { Gives result (atom_of (words_of text.now)) }
{
    let Some((index, rest)) = next_word(text) else {
        return Err(LineFault::Bad);
    };
    let Some((symbol, rest)) = next_word(rest) else {
        return Err(LineFault::Bad);
    };
    let Some((_x, rest)) = next_word(rest) else {
        return Err(LineFault::Bad);
    };
    let Some((_y, rest)) = next_word(rest) else {
        return Err(LineFault::Bad);
    };
    let Some((_z, rest)) = next_word(rest) else {
        return Err(LineFault::Bad);
    };
    let Some((_mapping, options)) = next_word(rest) else {
        return Err(LineFault::Bad);
    };
    read_atom_with(alloc, index, symbol, options)
}

// iii ttt aaa bbb ..   the index, the type and the two atoms
#[tactic(auto, unfolding(crate::specs::WordLines::bond_of))]
pub fn read_bond(text: &[u8]) -> Option<BondLine>
    ensures { result ≡ bond_of (words_of text.now) }
{
    let (index_word, rest) = next_word(text)?;
    let (kind_word, rest) = next_word(rest)?;
    let (first_word, rest) = next_word(rest)?;
    let (second_word, _rest) = next_word(rest)?;
    number(index_word)?;
    let kind = number(kind_word)?;
    let first = number(first_word)?;
    let second = number(second_word)?;
    Some(BondLine {
        kind,
        first,
        second,
    })
}
