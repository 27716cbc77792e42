// A table as far as it has been read, logical line by logical line.
ghost use Rattle.std.specs.Prelude.{◌≡◌, ◌≤◌, ◌++◌, ◌∷◌, [], false, Some, IfOk, OnOk, length};
ghost use Rattle.mk_text.specs.Lines.{words_of};
ghost use Rattle.mk_props.specs.Reading.{Gives};
ghost use Rattle.mk_props.specs.declared.property.Property.TheVariants as kinds;
ghost use Rattle.mk_text.specs.Options.{when};
ghost use Rattle.mk_v3000.specs.Twin.{has_index, valence_column, twin_bond, value_prop, props_of};
ghost use Rattle.mk_v3000.specs.Walk.{first_walk, moved, counted, with_atom, with_bond, behind_atoms, step_at, step, is_done, IsFew};
ghost use Rattle.mk_v3000.specs.declared.walk.Phase.TheVariants as phase;

use crate::indexes::Indexes;
use crate::word_lines::{
    AtomLine, BondLine, PartCounts, is_pair, read_atom, read_bond, read_counts,
};
use mk_props::{LineFault, Pair, Pairs, Property};
use mk_tables::{Properties, RawAtom, RawBond, RawTable};
use mk_text::{Listed, Memory};
use std::alloc::Global;

/// Which logical line is due.
#[derive(Clone, Copy, PartialEq, Eq)]
pub enum Phase {
    AtTable,
    AtCounts,
    AtAtoms,
    InAtoms,
    AtBonds,
    InBonds,
    InRest,
    Done,
}

/// What has been read of a table: the atoms and bonds still to come, the indexes of the atoms, and
/// the twin so far.
#[derive(Drop)]
pub struct Walk {
    pub phase: Phase,
    pub atoms: usize,
    pub bonds: usize,
    pub indexes: Indexes,
    pub table: RawTable,
}

/// Nothing has been read.
pub fn first_walk(alloc: Global) -> Walk
    ensures { result ≡ first_walk }
{
    Walk {
        phase: Phase::AtTable,
        atoms: 0,
        bonds: 0,
        indexes: Indexes::new(alloc),
        table: RawTable {
            atoms: Listed::new(alloc),
            bonds: Listed::new(alloc),
            lists: Listed::new(alloc),
            props: Listed::new(alloc),
        },
    }
}

// The counts have been read; there is room for so many atoms and bonds.
fn counted(alloc: Global, counts: PartCounts) -> Result<Walk, Memory>
    ensures { IfOk result (λ w. w ≡ counted counts) }
{
    let atoms = Vec::with_capacity(alloc, counts.atoms)?;
    let bonds = Vec::with_capacity(alloc, counts.bonds)?;
    Ok(Walk {
        phase: Phase::AtAtoms,
        atoms: counts.atoms,
        bonds: counts.bonds,
        indexes: Indexes::new(alloc),
        table: RawTable {
            atoms: Listed::of(atoms),
            bonds: Listed::of(bonds),
            lists: Listed::new(alloc),
            props: Listed::new(alloc),
        },
    })
}

/// Whether the end has been read.
pub fn is_done(walk: &Walk) -> bool
    ensures { result ≡ is_done walk.now.phase }
{
    match walk.phase {
        Phase::Done => true,
        _ => false,
    }
}

fn moved(walk: Walk, phase: Phase) -> Walk
    ensures { result ≡ moved phase walk }
{
    let mut walk = walk;
    walk.phase = phase;
    walk
}

// The same at another place, where the line that is due there is the one that was read.
fn moved_if(walk: Walk, is_due: bool, phase: Phase) -> Result<Walk, LineFault>
    ensures { Gives result (when is_due (Some (moved phase walk))) }
{
    if !is_due {
        return Err(LineFault::Bad);
    }
    Ok(moved(walk, phase))
}

fn valence_column(valence: i32) -> i32
    ensures { result ≡ valence_column valence }
{
    if valence == -1 {
        return 15;
    }
    valence
}

fn one_pair(alloc: Global, place: i32, value: i32) -> Result<Pairs, Memory>
    ensures { IfOk result (λ pairs. pairs ≡ (record { atom = place; value = value }) ∷ []) }
{
    let mut pairs = Pairs::new(alloc);
    pairs.push(Pair { atom: place, value })?;
    Ok(pairs)
}

fn push_charge(
    alloc: Global,
    props: &mut Properties,
    place: usize,
    value: i32,
) -> Result<(), Memory>
    requires { place ≤ 1000 }
    ensures { OnOk result (props.new ≡ props.old ++ value_prop kinds.Charge place value) }
{
    if value == 0 {
        return Ok(());
    }
    let pairs = one_pair(alloc, place as i32, value)?;
    props.push(Property::Charge(pairs))?;
    Ok(())
}

fn push_radical(
    alloc: Global,
    props: &mut Properties,
    place: usize,
    value: i32,
) -> Result<(), Memory>
    requires { place ≤ 1000 }
    ensures { OnOk result (props.new ≡ props.old ++ value_prop kinds.Radical place value) }
{
    if value == 0 {
        return Ok(());
    }
    let pairs = one_pair(alloc, place as i32, value)?;
    props.push(Property::Radical(pairs))?;
    Ok(())
}

fn push_isotope(
    alloc: Global,
    props: &mut Properties,
    place: usize,
    value: i32,
) -> Result<(), Memory>
    requires { place ≤ 1000 }
    ensures { OnOk result (props.new ≡ props.old ++ value_prop kinds.Isotope place value) }
{
    if value == 0 {
        return Ok(());
    }
    let pairs = one_pair(alloc, place as i32, value)?;
    props.push(Property::Isotope(pairs))?;
    Ok(())
}

// The properties of the atom at this place.
fn push_props(
    alloc: Global,
    props: &mut Properties,
    place: usize,
    atom: &AtomLine,
) -> Result<(), Memory>
    requires { place ≤ 1000 }
    ensures { OnOk result (props.new ≡ props.old ++ props_of place atom.now) }
{
    push_charge(alloc, props, place, atom.charge)?;
    push_radical(alloc, props, place, atom.radical)?;
    push_isotope(alloc, props, place, atom.mass)?;
    Ok(())
}

fn add_atom(alloc: Global, walk: Walk, atom: AtomLine) -> Result<Walk, Memory>
    requires few { length walk.indexes ≤ 999 }
    requires more { 1 ≤ walk.atoms }
    requires new { has_index walk.indexes atom.index ≡ false }
    ensures { IfOk result (λ w. w ≡ with_atom walk atom) }
{
    let mut walk = walk;
    let place = walk.indexes.size() + 1;
    push_props(alloc, &mut walk.table.props, place, &atom)?;
    walk.indexes.push(atom.index)?;
    walk.table.atoms.push(RawAtom {
        symbol: atom.symbol,
        charge: 0,
        hydrogens: 0,
        valence: valence_column(atom.valence),
    })?;
    walk.atoms -= 1;
    walk.phase = Phase::InAtoms;
    Ok(walk)
}

fn twin_bond(indexes: &Indexes, bond: BondLine) -> RawBond
    requires { length indexes.now ≤ 999 }
    ensures { result ≡ twin_bond indexes.now bond }
{
    RawBond {
        first: indexes.place_of(bond.first),
        second: indexes.place_of(bond.second),
        kind: bond.kind,
        topology: 0,
    }
}

fn add_bond(walk: Walk, bond: BondLine) -> Result<Walk, Memory>
    requires few { length walk.indexes ≤ 999 }
    requires more { 1 ≤ walk.bonds }
    ensures { IfOk result (λ w. w ≡ with_bond walk bond) }
{
    let mut walk = walk;
    let twin = twin_bond(&walk.indexes, bond);
    walk.table.bonds.push(twin)?;
    walk.bonds -= 1;
    walk.phase = Phase::InBonds;
    Ok(walk)
}

fn behind_atoms(walk: Walk) -> Walk
    ensures { result ≡ behind_atoms walk }
{
    if walk.bonds == 0 {
        return moved(walk, Phase::InRest);
    }
    moved(walk, Phase::AtBonds)
}

#[tactic(auto, unfolding(crate::specs::Walk::step_at))]
fn take_counts(alloc: Global, walk: Walk, text: &[u8]) -> Result<Walk, LineFault>
    ensures { Gives result (step_at phase.AtCounts walk (words_of text.now)) }
{
    let Some(counts) = read_counts(text) else {
        return Err(LineFault::Bad);
    };
    Ok(counted(alloc, counts)?)
}

#[tactic(auto, unfolding(crate::specs::Walk::step_at))]
fn take_atom(alloc: Global, walk: Walk, text: &[u8]) -> Result<Walk, LineFault>
    requires few { IsFew walk }
    ensures { Gives result (step_at phase.InAtoms walk (words_of text.now)) }
{
    if walk.atoms == 0 {
        if !is_pair(text, b"END", b"ATOM") {
            return Err(LineFault::Bad);
        }
        return Ok(behind_atoms(walk));
    }
    let atom = read_atom(alloc, text)?;
    if walk.indexes.has(atom.index) {
        return Err(LineFault::Bad);
    }
    Ok(add_atom(alloc, walk, atom)?)
}

#[tactic(auto, unfolding(crate::specs::Walk::step_at))]
fn take_bond(walk: Walk, text: &[u8]) -> Result<Walk, LineFault>
    requires few { IsFew walk }
    ensures { Gives result (step_at phase.InBonds walk (words_of text.now)) }
{
    if walk.bonds == 0 {
        return moved_if(walk, is_pair(text, b"END", b"BOND"), Phase::InRest);
    }
    let Some(bond) = read_bond(text) else {
        return Err(LineFault::Bad);
    };
    Ok(add_bond(walk, bond)?)
}

#[tactic(auto, unfolding(crate::specs::Walk::step_at))]
fn take_other(walk: Walk, text: &[u8]) -> Walk
    ensures { step_at phase.InRest walk (words_of text.now) ≡ Some result }
{
    if is_pair(text, b"END", b"CTAB") {
        return moved(walk, Phase::Done);
    }
    moved(walk, Phase::InRest)
}

/// What one more logical line makes of it. `Bad` where the line isn't due there.
#[tactic(auto, unfolding(crate::specs::Walk::step_at))]
pub fn take(alloc: Global, walk: Walk, text: &[u8]) -> Result<Walk, LineFault>
    requires few { IsFew walk }
    ensures { Gives result (step walk (words_of text.now)) }
{
    match walk.phase {
        Phase::AtTable => { moved_if(walk, is_pair(text, b"BEGIN", b"CTAB"), Phase::AtCounts) }
        Phase::AtCounts => take_counts(alloc, walk, text),
        Phase::AtAtoms => { moved_if(walk, is_pair(text, b"BEGIN", b"ATOM"), Phase::InAtoms) }
        Phase::InAtoms => take_atom(alloc, walk, text),
        Phase::AtBonds => { moved_if(walk, is_pair(text, b"BEGIN", b"BOND"), Phase::InBonds) }
        Phase::InBonds => take_bond(walk, text),
        Phase::InRest => Ok(take_other(walk, text)),
        Phase::Done => Err(LineFault::Bad),
    }
}
