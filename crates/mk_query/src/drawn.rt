// What is drawn at each atom of a table, each in one pass.
ghost use Rattle.std.specs.Prelude.{◌≡◌, ◌≢◌, ◌≤◌, ◌↔◌, ◌==◌, ◌&&◌, ◌∷◌, [], ℕ, not, true, IfOk, IsTrue, bytes_eq, length, map, if◌then◌else◌};
ghost use Rattle.mk_demands.specs.Charges.{values_for};
ghost use Rattle.mk_demands.specs.Numbers.{natural};
ghost use Rattle.mk_query.specs.Drawn.{is_site, label_pairs, neighbours_at, pairs_by, query_bond, query_bonds};
ghost use Rattle.mk_query.specs.Marks.{AreMarks, AreMore, HasMore, IsKnownLabel, IsLabels, IsNear, has_group};

use crate::bond_checks::{first_end, second_end};
use mk_demands::{is_within, natural};
use mk_props::{Pair, Property};
use mk_tables::{RawAtom, RawBond};
use mk_text::Memory;
use std::alloc::Global;

/// The atoms bonded to an atom in the order of the bonds, told apart up to two.
#[derive(Clone, Copy)]
pub enum Near {
    Nothing,
    One(u32),
    Two(u32, u32),
    More,
}

/// The labels of an atom: whether there are any, whether they are from 1 to 32 and none stands
/// twice, and a bit for the group of each, the lowest for group 1.
#[derive(Clone, Copy)]
pub struct Labels {
    pub some: bool,
    pub once: bool,
    pub groups: u32,
}

// What is noted of an atom without labels.
const NO_LABELS: Labels = Labels {
    some: false,
    once: true,
    groups: 0,
};

/// Whether each atom is a site.
pub fn sites_of(alloc: Global, atoms: &[RawAtom]) -> Result<Vec<bool>, Memory>
    ensures { IfOk result (λ sites. sites.items ≡ map is_site atoms.now) }
{
    let mut sites = Vec::with_capacity(alloc, atoms.len())?;
    for atom in atoms {
        sites.push(is_site(atom))?;
    }
    Ok(sites)
}

/// Whether the atom is a site.
pub fn is_site(atom: &RawAtom) -> bool
    ensures { result ≡ is_site atom.now }
{
    is_symbol(atom, b"R#")
}

/// Whether the atom has this symbol.
pub fn is_symbol(atom: &RawAtom, word: &[u8]) -> bool
    ensures { result ≡ bytes_eq atom.now.symbol word.now }
{
    atom.symbol.as_slice() == word
}

/// The neighbours of each atom.
pub fn neighbours_of(alloc: Global, atoms: u32, bonds: &[RawBond]) -> Result<Vec<Near>, Memory>
    ensures size { IfOk result (λ near. length near.items ≡ atoms) }
    ensures near { IfOk result (λ near. AreMarks (λ x. IsNear (neighbours_at (query_bonds bonds.now) x)) near.items) }
{
    let mut near = vec![in alloc; Near::Nothing; atoms as usize]?;
    for bond in bonds {
        add_bond(&mut near, bond);
    }
    Ok(near)
}

// Notes a bond at its ends.
fn add_bond(near: &mut Vec<Near>, bond: &RawBond)
    ensures { AreMore IsNear (neighbours_at (query_bond bond.now ∷ [])) near.old.items near.new.items }
{
    let first = first_end(bond);
    let second = second_end(bond);
    add_neighbour(near, first, second);
    if second != first {
        add_neighbour(near, second, first);
    }
}

// Notes a neighbour of atom n, where there is one.
fn add_neighbour(near: &mut Vec<Near>, n: u32, y: u32)
    ensures { AreMore IsNear (λ x. if n == x then y ∷ [] else []) near.old.items near.new.items }
{
    let place = n as usize;
    if place >= 1 && place <= near.len() {
        near[place - 1] = and_one(near[place - 1], y);
    }
}

fn and_one(near: Near, y: u32) -> Near
    ensures { HasMore IsNear (y ∷ []) near result }
{
    match near {
        Near::Nothing => Near::One(y),
        Near::One(first) => Near::Two(first, y),
        _ => Near::More,
    }
}

/// The labels of each atom.
pub fn labels_of(alloc: Global, atoms: u32, props: &[Property]) -> Result<Vec<Labels>, Memory>
    ensures size { IfOk result (λ labels. length labels.items ≡ atoms) }
    ensures labels { IfOk result (λ labels. AreMarks (λ x. IsLabels (values_for x (pairs_by label_pairs props.now))) labels.items) }
{
    let mut labels = vec![in alloc; NO_LABELS; atoms as usize]?;
    for property in props {
        add_labels(&mut labels, label_pairs(property));
    }
    Ok(labels)
}

// The pairs of an `M  RGP`, and none of another property.
fn label_pairs(property: &Property) -> &[Pair]
    ensures { result.now ≡ label_pairs property.now }
{
    match property {
        Property::Label(pairs) => pairs.as_slice(),
        _ => &[],
    }
}

// Notes the labels that the pairs give.
fn add_labels(labels: &mut Vec<Labels>, pairs: &[Pair])
    ensures { AreMore IsLabels (λ x. values_for x pairs.now) labels.old.items labels.new.items }
{
    for pair in pairs {
        add_label(labels, pair);
    }
}

fn add_label(labels: &mut Vec<Labels>, pair: &Pair)
    ensures { AreMore IsLabels (λ x. values_for x (pair.now ∷ [])) labels.old.items labels.new.items }
{
    let place = atom_of(pair) as usize;
    if place >= 1 && place <= labels.len() {
        labels[place - 1] = and_label(labels[place - 1], pair);
    }
}

fn atom_of(pair: &Pair) -> u32
    ensures { result ≡ natural pair.now.atom }
{
    natural(pair.atom)
}

fn and_label(labels: Labels, pair: &Pair) -> Labels
    ensures { HasMore IsLabels (pair.now.value ∷ []) labels result }
{
    if !is_known(pair) {
        return Labels {
            some: true,
            once: false,
            groups: labels.groups,
        };
    }
    with_label(labels, group_of(pair))
}

// The label that a pair gives is from 1 to 32.
fn is_known(pair: &Pair) -> bool
    ensures { IsTrue result ↔ IsKnownLabel pair.now.value }
{
    is_within(1, 32, pair.value)
}

fn group_of(pair: &Pair) -> u32
    ensures { result ≡ natural pair.now.value }
{
    natural(pair.value)
}

// Notes a label more, which is the number of group g.
fn with_label(labels: Labels, g: u32) -> Labels
    requires { (1 ≤ g) × (g ≤ 32) }
    ensures some { result.some ≡ true }
    ensures once { result.once ≡ (labels.once && not (has_group labels.groups g)) }
    ensures set { has_group result.groups g ≡ true }
    ensures others { (h : ℕ) → 1 ≤ h → h ≢ g → has_group result.groups h ≡ has_group labels.groups h }
{
    Labels {
        some: true,
        once: labels.once && !has_group(labels.groups, g),
        groups: with_group(labels.groups, g),
    }
}

/// Whether the bit of group g is set.
pub fn has_group(groups: u32, g: u32) -> bool
    requires { (1 ≤ g) × (g ≤ 32) }
    ensures { result ≡ has_group groups g }
{
    (groups >> (g - 1)) & 1 == 1
}

/// Sets the bit of group g.
pub fn with_group(groups: u32, g: u32) -> u32
    requires { (1 ≤ g) × (g ≤ 32) }
    ensures set { has_group result g ≡ true }
    ensures others { (h : ℕ) → 1 ≤ h → h ≢ g → has_group result h ≡ has_group groups h }
{
    groups | 1 << (g - 1)
}
