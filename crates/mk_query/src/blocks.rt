// The block of a link: what hangs together with it once its bonds to the two neighbours that it
// names are taken away.
//
// The search goes from the link over the other bonds, and stops at the first atom that a block may
// not hold. So the blocks that are searched whole have no atom in common.
ghost use Rattle.std.specs.Prelude.{◌≡◌, ◌≤◌, ◌<◌, ◌+◌, ◌-◌, ◌↔◌, ◌||◌, false, true, IfOk, IsTrue, OnOk, length, slice_index, slice_index_or};
ghost use Rattle.mk_model.specs.Edges.{AreBetween};
ghost use Rattle.mk_model.specs.Templates.{hang_together, joins, query_edges};
ghost use Rattle.mk_query.specs.AtomMarks.{bears, is_link, is_marked_site};
ghost use Rattle.mk_query.specs.BlockSearch.{AreNumbersOf, HasPlainBlock, IsBlock, IsLonger, IsReached, KeepReached, LeadsOn, MayHold, is_own, is_reached, others, unreached};

use crate::atom_marks::{Standing, bears, is_link, is_marked_site};
use crate::bonded::Bonded;
use crate::drawn_bonds::joins;
use mk_model::QueryBond;
use mk_text::Memory;
use std::alloc::Global;

/// The atom of a link, and the two neighbours that it names.
#[derive(Clone, Copy)]
pub struct LinkEnds {
    pub atom: u32,
    pub from: u32,
    pub to: u32,
}

/// Whether the block of the link holds nothing that it may not hold.
pub fn has_plain_block(
    alloc: Global,
    bonded: &Bonded<'_>,
    standing: &Standing,
    link: LinkEnds,
) -> Result<bool, Memory>
    requires least { 1 ≤ link.atom }
    requires most { link.atom ≤ bonded.now.atoms }
    ensures { IfOk result (λ plain. IsTrue plain ↔ HasPlainBlock bonded.now.bonds.now standing.now link) }
{
    let mut reached = vec![in alloc; false; bonded.atoms as usize + 1]?;
    let mut queue = Vec::with_capacity(alloc, 1)?;
    reached[link.atom as usize] = true;
    queue.push(link.atom)?;
    let mut i = 0;
    while i < queue.len() {
        let y = queue[i];
        if !may_hold(standing, link, y) {
            return Ok(false);
        }
        follow(
            &mut reached,
            &mut queue,
            bonded.numbers_of(y),
            bonded.bonds,
            link,
            y,
        )?;
        i += 1;
    }
    Ok(true)
}

/// For each atom whether it is in the block of the link; place 0 stands for none.
pub fn block_of(alloc: Global, bonded: &Bonded<'_>, link: LinkEnds) -> Result<Vec<bool>, Memory>
    requires least { 1 ≤ link.atom }
    requires most { link.atom ≤ bonded.now.atoms }
    ensures size { IfOk result (λ block. length block.items ≡ bonded.now.atoms + 1) }
    ensures block { IfOk result (λ block. IsBlock bonded.now.bonds.now link block.items) }
{
    let mut reached = vec![in alloc; false; bonded.atoms as usize + 1]?;
    let mut queue = Vec::with_capacity(alloc, 1)?;
    reached[link.atom as usize] = true;
    queue.push(link.atom)?;
    let mut i = 0;
    while i < queue.len() {
        let y = queue[i];
        follow(
            &mut reached,
            &mut queue,
            bonded.numbers_of(y),
            bonded.bonds,
            link,
            y,
        )?;
        i += 1;
    }
    Ok(reached)
}

// Whether the block of the link may hold the atom.
fn may_hold(standing: &Standing, link: LinkEnds, y: u32) -> bool
    ensures { IsTrue result ↔ MayHold standing.now link y }
{
    y != link.from
        && y != link.to
        && !is_marked_site(standing, y)
        && is_no_other_link(standing, link, y)
        && !bears(standing, 1, y)
        && !bears(standing, 2, y)
}

fn is_no_other_link(standing: &Standing, link: LinkEnds, y: u32) -> bool
    ensures { result ≡ true ↔ (¬ (y ≡ link.atom) → is_link standing.now y ≡ false) }
{
    y == link.atom || !is_link(standing, y)
}

// Puts the atoms that are first reached over a bond of atom y behind the others.
fn follow(
    reached: &mut Vec<bool>,
    queue: &mut Vec<u32>,
    numbers: &[u32],
    bonds: &[QueryBond],
    link: LinkEnds,
    y: u32,
) -> Result<(), Memory>
    requires few { length reached.old.items ≤ 1000 }
    requires ends { AreBetween (length reached.old.items - 1) (query_edges bonds.now) }
    requires numbers { AreNumbersOf bonds.now y numbers.now }
    requires hangs { IsTrue (hang_together (others link bonds.now) link.atom y) }
    requires reached { IsReached bonds.now link reached.old.items queue.old.items }
    ensures size { length reached.new.items ≡ length reached.old.items }
    ensures reached { OnOk result (IsReached bonds.now link reached.new.items queue.new.items) }
    ensures kept { OnOk result (KeepReached reached.old.items reached.new.items) }
    ensures longer { OnOk result (IsLonger queue.old.items queue.new.items) }
    ensures leads { OnOk result (LeadsOn bonds.now link reached.new.items y) }
    ensures fewer { OnOk result (unreached reached.new.items + length queue.new.items ≡ unreached reached.old.items + length queue.old.items) }
{
    for number in numbers {
        let bond = bonds[*number as usize - 1];
        if is_own(link, bond) {
            continue;
        }
        let z = other_end(bond, y);
        if reached[z as usize] {
            continue;
        }
        reached[z as usize] = true;
        queue.push(z)?;
    }
    Ok(())
}

// Whether the bond leads from the link to one of the two neighbours.
fn is_own(link: LinkEnds, bond: QueryBond) -> bool
    ensures { result ≡ is_own link bond }
{
    joins(link.atom, link.from, bond) || joins(link.atom, link.to, bond)
}

// The end of a bond that isn't y.
fn other_end(bond: QueryBond, y: u32) -> u32
    ensures first { bond.first ≡ y → result ≡ bond.second }
    ensures second { ¬ (bond.first ≡ y) → result ≡ bond.first }
{
    if bond.first == y {
        return bond.second;
    }
    bond.first
}
