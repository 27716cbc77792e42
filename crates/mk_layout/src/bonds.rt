// The bonds of an expansion.
ghost use Rattle.std.specs.Prelude.{◌≡◌, ◌≤◌, ◌+◌, ◌-◌, ◌++◌, ◌==◌, ◌&&◌, not, All, OnOk, length, map};
ghost use Rattle.std.specs.List.{flat_map};
ghost use Rattle.mk_model.specs.Expansions.{all_within, bond_between, bond_joining, bonds_within, chained, copied, drawn, is_hydrogens, is_nothing, shifted, spanned};
ghost use Rattle.mk_model.specs.Pieces.{piece_numbered};
ghost use Rattle.mk_model.specs.Templates.{joins, slot_atom};
ghost use Rattle.mk_pieces.specs.Rooms.{IsSmall, IsWithin, StandsAt};

use crate::part::Shape;
use crate::piece::Piece;
use crate::places::{Layout, width_numbered};
use mk_model::{Memory, QueryBond, Slot};
use std::alloc::Global;

/// What the bonds of the template become.
pub fn put_template_bonds(out: &mut Vec<QueryBond>, layout: &Layout) -> Result<(), Memory>
    requires { All (IsWithin layout.now.template) layout.now.template.bonds }
    ensures { OnOk result (out.new.items ≡ out.old.items ++ flat_map (drawn layout.now.template layout.now.pieces) layout.now.template.bonds) }
{
    for bond in layout.template().bonds() {
        put_drawn(out, layout, *bond)?;
    }
    Ok(())
}

// What a bond of the template becomes.
#[tactic(auto, unfolding(mk_model::specs::Expansions::drawn))]
fn put_drawn(out: &mut Vec<QueryBond>, layout: &Layout, bond: QueryBond) -> Result<(), Memory>
    requires { IsWithin layout.now.template bond }
    ensures { OnOk result (out.new.items ≡ out.old.items ++ drawn layout.now.template layout.now.pieces bond) }
{
    let pieces = layout.pieces();
    let p = layout.taker(bond.first);
    let q = layout.taker(bond.second);
    if is_one_slot(p, q) {
        let x = layout.before(bond.first);
        let y = layout.before(bond.second);
        return put_copied(out, bond, x, y, width_numbered(pieces, p));
    }
    let x = layout.ending(bond.first, bond.second);
    let y = layout.ending(bond.second, bond.first);
    put_spanned(out, pieces, p, q, bond, x, y)
}

// The numbers are those of one slot.
fn is_one_slot(p: u32, q: u32) -> bool
    ensures { result ≡ (not (p == 0) && (p == q)) }
{
    p != 0 && p == q
}

// A bond like this one between copies of equal number.
fn put_copied(
    out: &mut Vec<QueryBond>,
    bond: QueryBond,
    x: u32,
    y: u32,
    count: u32,
) -> Result<(), Memory>
    requires x { x ≤ 512 }
    requires y { y ≤ 512 }
    requires count { count ≤ 512 }
    ensures { OnOk result (out.new.items ≡ out.old.items ++ copied bond x y count) }
{
    for j in 0..count {
        out.push(bond_between(x + (j + 1), y + (j + 1), bond.kind, bond.topology))?;
    }
    Ok(())
}

// The bond between x and y, which two slots have become.
fn put_spanned(
    out: &mut Vec<QueryBond>,
    pieces: &[Piece],
    p: u32,
    q: u32,
    bond: QueryBond,
    x: u32,
    y: u32,
) -> Result<(), Memory>
    requires p { p ≤ length pieces.now }
    requires q { q ≤ length pieces.now }
    ensures { OnOk result (out.new.items ≡ out.old.items ++ spanned (piece_numbered pieces.now p) (piece_numbered pieces.now q) bond x y) }
{
    if is_nothing(pieces, p) || is_nothing(pieces, q) {
        return Ok(());
    }
    if is_hydrogens(pieces, p) || is_hydrogens(pieces, q) {
        out.push(bond_between(x, y, 1, 0))?;
        return Ok(());
    }
    out.push(bond_between(x, y, bond.kind, bond.topology))?;
    Ok(())
}

/// Nothing stands where the slot is.
pub fn is_nothing(pieces: &[Piece], number: u32) -> bool
    requires { number ≤ length pieces.now }
    ensures { result ≡ is_nothing (piece_numbered pieces.now number) }
{
    if number == 0 {
        return false;
    }
    piece_is_nothing(&pieces[number as usize - 1])
}

fn piece_is_nothing(piece: &Piece) -> bool
    ensures { result ≡ is_nothing piece.now }
{
    match piece.shape() {
        Shape::Nothing => true,
        _ => false,
    }
}

// Hydrogens stand where the slot is.
fn is_hydrogens(pieces: &[Piece], number: u32) -> bool
    requires { number ≤ length pieces.now }
    ensures { result ≡ is_hydrogens (piece_numbered pieces.now number) }
{
    if number == 0 {
        return false;
    }
    piece_is_hydrogens(&pieces[number as usize - 1])
}

fn piece_is_hydrogens(piece: &Piece) -> bool
    ensures { result ≡ is_hydrogens piece.now }
{
    match piece.shape() {
        Shape::Hydrogens(_) => true,
        _ => false,
    }
}

// A bond with its lower end first.
fn bond_between(x: u32, y: u32, kind: u8, topology: u8) -> QueryBond
    ensures { result ≡ bond_between x y kind topology }
{
    let (first, second) = if x < y { (x, y) } else { (y, x) };
    QueryBond {
        first,
        second,
        kind,
        topology,
    }
}

/// The bonds within what the slots have become.
pub fn put_all_within(out: &mut Vec<QueryBond>, layout: &Layout) -> Result<(), Memory>
    requires { All (StandsAt layout.now.template) layout.now.template.slots }
    ensures { OnOk result (out.new.items ≡ out.old.items ++ all_within layout.now.template layout.now.pieces layout.now.template.slots layout.now.pieces) }
{
    let bonds = layout.template().bonds();
    let slots = layout.slots();
    let pieces = layout.pieces();
    for k in 0..slots.len() {
        let slot = &slots[k];
        let before = layout.before(atom_of(slot));
        put_within(out, bonds, before, slot, &pieces[k])?;
    }
    Ok(())
}

// The atom at which a slot stands.
pub fn atom_of(slot: &Slot) -> u32
    ensures { result ≡ slot_atom slot.now }
{
    match slot {
        Slot::Link { atom, .. } => *atom,
        Slot::Site { atom, .. } => *atom,
    }
}

// The bonds within what a slot has become.
fn put_within(
    out: &mut Vec<QueryBond>,
    bonds: &[QueryBond],
    before: u32,
    slot: &Slot,
    piece: &Piece,
) -> Result<(), Memory>
    requires small { IsSmall piece.now }
    requires before { before ≤ 512 }
    ensures { OnOk result (out.new.items ≡ out.old.items ++ bonds_within bonds.now before slot.now piece.now) }
{
    match (slot, piece.shape()) {
        (Slot::Link { atom, from, .. }, Shape::Copies(n)) => {
            put_chained(out, bond_joining(bonds, *atom, *from), before, *n)
        }
        (Slot::Site { .. }, Shape::Member(part)) => put_shifted(out, before, part.bonds()),
        _ => Ok(()),
    }
}

// Each of the copies joined to the next one.
fn put_chained(
    out: &mut Vec<QueryBond>,
    bond: QueryBond,
    before: u32,
    count: u32,
) -> Result<(), Memory>
    requires before { before ≤ 512 }
    requires count { count ≤ 512 }
    ensures { OnOk result (out.new.items ≡ out.old.items ++ chained bond before (count - 1)) }
{
    for j in 0..count.saturating_sub(1) {
        out.push(QueryBond {
            first: before + (j + 1),
            second: before + (j + 1) + 1,
            kind: bond.kind,
            topology: bond.topology,
        })?;
    }
    Ok(())
}

// The first bond that joins x and y.
fn bond_joining(bonds: &[QueryBond], x: u32, y: u32) -> QueryBond
    ensures { result ≡ bond_joining bonds.now x y }
{
    for bond in bonds {
        if joins(x, y, *bond) {
            return *bond;
        }
    }
    QueryBond {
        first: x,
        second: y,
        kind: 1,
        topology: 0,
    }
}

/// The bond joins x and y.
pub fn joins(x: u32, y: u32, bond: QueryBond) -> bool
    ensures { result ≡ joins x y bond }
{
    bond.first == x && bond.second == y || bond.first == y && bond.second == x
}

// The bonds with so many atoms in front.
fn put_shifted(out: &mut Vec<QueryBond>, before: u32, bonds: &[QueryBond]) -> Result<(), Memory>
    requires before { before ≤ 512 }
    requires ends { All (λ bond. (bond.first ≤ 512) × (bond.second ≤ 512)) bonds.now }
    ensures { OnOk result (out.new.items ≡ out.old.items ++ map (shifted before) bonds.now) }
{
    for bond in bonds {
        out.push(QueryBond {
            first: before + bond.first,
            second: before + bond.second,
            kind: bond.kind,
            topology: bond.topology,
        })?;
    }
    Ok(())
}
