// The blocks of links, and the slots that take the atoms of a template.
ghost use Rattle.std.specs.Prelude.{◌≡◌, ◌≤◌, ◌<◌, ◌+◌, ◌-◌, ℕ, All, IfOk, filter, length, slice_index};
ghost use Rattle.mk_pieces.specs.Rooms.{AreEndsWithin};
ghost use Rattle.mk_layout.specs.Blocks.{AreLabels, merged, stay, stays, taken_by, takes};
ghost use Rattle.mk_pieces.specs.Kept.{IsTemplate};
ghost use Rattle.mk_layout.specs.Laid.{AreTakers, StandsWithin};

use crate::bonds::joins;
use mk_model::{Memory, QueryBond, Slot, Template};
use std::alloc::Global;

/// For each atom the number of the slot that takes it, and 0 where none does. The blocks of all
/// links are found at once: no block holds another link, so the bonds of all links may be taken
/// away together.
pub fn takers_of(alloc: Global, template: &Template) -> Result<Vec<u32>, Memory>
    requires few { length template.now.slots ≤ 512 }
    requires kept { IsTemplate template.now }
    ensures { IfOk result (λ takers. AreTakers template.now takers.items) }
{
    let count = template.atoms().len();
    let slots = template.slots();
    let labels = labels_of(alloc, count, template.bonds(), slots)?;
    let mut takers = vec![in alloc; 0u32; count]?;
    for k in 0..slots.len() {
        put_taker(&mut takers, &labels, &slots[k], k as u32 + 1);
    }
    Ok(takers)
}

// The slot takes those atoms that no other has taken.
fn put_taker(takers: &mut Vec<u32>, labels: &[usize], slot: &Slot, number: u32)
    requires size { length labels.now ≡ length takers.old.items }
    requires slot { StandsWithin (length labels.now) slot.now }
    ensures size { length takers.new.items ≡ length takers.old.items }
    ensures each { (i : ℕ) → i < length takers.old.items → slice_index takers.new.items i ≡ taken_by number (slice_index takers.old.items i) (takes labels.now slot.now (i + 1)) }
{
    for i in 0..takers.len() {
        if takers[i] == 0 && takes(labels, slot, i) {
            takers[i] = number;
        }
    }
}

// The slot takes the atom at a place.
fn takes(labels: &[usize], slot: &Slot, i: usize) -> bool
    requires slot { StandsWithin (length labels.now) slot.now }
    requires i { i < length labels.now }
    ensures { result ≡ takes labels.now slot.now (i + 1) }
{
    match slot {
        Slot::Link { atom, .. } => *atom as usize == i + 1
            || labels[*atom as usize - 1] == labels[i],
        Slot::Site { atom, .. } => *atom as usize == i + 1,
    }
}

// Labels of atoms: the same for those that hang together by the bonds that stay.
fn labels_of(
    alloc: Global,
    count: usize,
    bonds: &[QueryBond],
    slots: &[Slot],
) -> Result<Vec<usize>, Memory>
    requires { All (AreEndsWithin count) bonds.now }
    ensures { IfOk result (λ labels. (length labels.items ≡ count) × AreLabels (filter (stay slots.now) bonds.now) labels.items) }
{
    let mut labels = Vec::with_capacity(alloc, count)?;
    for i in 0..count {
        labels.push(i)?;
    }
    let mut k = bonds.len();
    while k > 0 {
        k -= 1;
        if stay(slots, bonds[k]) {
            merge(&mut labels, bonds[k]);
        }
    }
    Ok(labels)
}

// The bond stays where those of all links are taken away.
fn stay(slots: &[Slot], bond: QueryBond) -> bool
    ensures { result ≡ stay slots.now bond }
{
    for slot in slots {
        if !stays(slot, bond) {
            return false;
        }
    }
    true
}

// The bond stays where those from a link to the two neighbours that it names are taken away.
fn stays(slot: &Slot, bond: QueryBond) -> bool
    ensures { result ≡ stays slot.now bond }
{
    match slot {
        Slot::Link { atom, from, to, .. } => !(joins(*atom, *from, bond)
            || joins(*atom, *to, bond)),
        Slot::Site { .. } => true,
    }
}

// The labels of the two ends become one.
fn merge(labels: &mut Vec<usize>, bond: QueryBond)
    requires { AreEndsWithin (length labels.old.items) bond }
    ensures size { length labels.new.items ≡ length labels.old.items }
    ensures each { (i : ℕ) → i < length labels.old.items → slice_index labels.new.items i ≡ merged (slice_index labels.old.items (bond.second - 1)) (slice_index labels.old.items (bond.first - 1)) (slice_index labels.old.items i) }
{
    let old = labels[bond.second as usize - 1];
    let new = labels[bond.first as usize - 1];
    for i in 0..labels.len() {
        if labels[i] == old {
            labels[i] = new;
        }
    }
}
