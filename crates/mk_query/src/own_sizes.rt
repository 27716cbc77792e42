// What each template adds to a size by itself: its fixed atoms, and its links with their blocks.
ghost use Rattle.std.specs.Prelude.{◌≡◌, ◌≤◌, ◌<◌, ◌+◌, ◌*◌, ◌==◌, ◌||◌, false, IfOk, length, slice_index_or, if◌then◌else◌, ℕ};
ghost use Rattle.mk_model.specs.Templates.{slot_atom};
ghost use Rattle.mk_query.specs.Draft.{IsDraft};
ghost use Rattle.mk_query.specs.OwnSizes.{IsSized, Marks, is_taken, link_size_by, marked, takes};
ghost use Rattle.mk_query.specs.RootSizes.{AreOwnSizes, capped, own_size};

use crate::blocks::{LinkEnds, block_of};
use crate::bonded::Bonded;
use crate::draft::Draft;
use crate::root_sizes::capped;
use mk_model::{Slot, Template};
use mk_text::Memory;
use std::alloc::Global;

/// The own sizes of all templates, capped.
pub fn own_sizes(alloc: Global, draft: &Draft) -> Result<Vec<u32>, Memory>
    ensures own { IfOk result (λ own. AreOwnSizes draft.now.templates own.items) }
    ensures kept { IfOk result (λ _. IsDraft draft.now) }
{
    let count = draft.count();
    let mut own = Vec::with_capacity(alloc, count as usize)?;
    for t in 0..count {
        own.push(own_size(alloc, draft.template(t))?)?;
    }
    Ok(own)
}

// The own size of a template, capped.
fn own_size(alloc: Global, template: &Template) -> Result<u32, Memory>
    requires { IsSized template.now }
    ensures { IfOk result (λ own. own ≡ capped (own_size template.now)) }
{
    let atoms = template.atoms().len() as u32;
    let bonded = Bonded::of(alloc, atoms, template.bonds())?;
    let slots = template.slots();
    let mut taken = vec![in alloc; false; atoms as usize + 1]?;
    let mut links = 0;
    for i in 0..slots.len() {
        let by = taken_by(alloc, &bonded, &slots[i])?;
        links = capped(links + link_size_by(atoms, &slots[i], &by));
        put(&mut taken, &by);
    }
    Ok(capped(atoms - marked(atoms, &taken) + links))
}

// The atoms that a slot takes.
fn taken_by(alloc: Global, bonded: &Bonded<'_>, slot: &Slot) -> Result<Vec<bool>, Memory>
    requires least { 1 ≤ slot_atom slot.now }
    requires most { slot_atom slot.now ≤ bonded.now.atoms }
    ensures { IfOk result (λ by. Marks bonded.now.atoms (takes bonded.now.bonds.now slot.now) by.items) }
{
    match slot {
        Slot::Link { atom, from, to, .. } => {
            let ends = LinkEnds {
                atom: *atom,
                from: *from,
                to: *to,
            };
            let block = block_of(alloc, bonded, ends)?;
            Ok(block)
        }
        Slot::Site { atom, .. } => only(alloc, bonded.atoms, *atom),
    }
}

// One atom alone.
fn only(alloc: Global, atoms: u32, atom: u32) -> Result<Vec<bool>, Memory>
    requires few { atoms ≤ 999 }
    requires least { 1 ≤ atom }
    requires most { atom ≤ atoms }
    ensures { IfOk result (λ by. Marks atoms (λ x. atom == x) by.items) }
{
    let mut by = vec![in alloc; false; atoms as usize + 1]?;
    by[atom as usize] = true;
    Ok(by)
}

// Marks the atoms that a further list marks.
fn put(taken: &mut Vec<bool>, by: &[bool])
    requires { length by.now ≡ length taken.old.items }
    ensures size { length taken.new.items ≡ length taken.old.items }
    ensures each { (x : ℕ) → slice_index_or taken.new.items x false ≡ (slice_index_or taken.old.items x false || slice_index_or by.now x false) }
{
    for x in 0..by.len() {
        taken[x] = taken[x] || by[x];
    }
}

// What a slot adds where it is a link, or a number above 512 where that is more.
fn link_size_by(atoms: u32, slot: &Slot, by: &[bool]) -> u32
    requires few { atoms ≤ 999 }
    requires size { length by.now ≡ atoms + 1 }
    ensures size { capped result ≡ capped (link_size_by by.now atoms slot.now) }
    ensures few { result ≤ 1000000 }
{
    match slot {
        Slot::Link { most, .. } => link_size_of(*most, marked(atoms, by)),
        Slot::Site { .. } => 0,
    }
}

fn link_size_of(most: u32, block: u32) -> u32
    requires few { block ≤ 999 }
    ensures size { capped result ≡ capped (1 + most * block) }
    ensures few { result ≤ 1000000 }
{
    1 + capped(most) * block
}

// How many atoms are marked.
fn marked(atoms: u32, marks: &[bool]) -> u32
    requires few { atoms ≤ 999 }
    requires size { length marks.now ≡ atoms + 1 }
    ensures count { result ≡ marked marks.now atoms }
    ensures few { result ≤ atoms }
{
    let mut number = 0;
    for i in 0..atoms {
        number += one_if(marks[i as usize + 1]);
    }
    number
}

fn one_if(so: bool) -> u32
    ensures { result ≡ (if so then 1 else 0) }
{
    if so { 1 } else { 0 }
}
