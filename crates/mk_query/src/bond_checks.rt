// What is demanded of a query's bonds.
ghost use Rattle.std.specs.Prelude.{◌≡◌, ◌≤◌, ◌<◌, ◌+◌, ◌==◌, ◌↔◌, All, IfOk, IsTrue, length};
ghost use Rattle.mk_text.specs.Items.{FindsLeast, OfItem};
ghost use Rattle.mk_model.specs.Edges.{touches};
ghost use Rattle.mk_demands.specs.Bonds.{raw_edge};
ghost use Rattle.mk_demands.specs.Numbers.{natural};
ghost use Rattle.mk_query.specs.Checks.{HasQueryType, IsQueryBond, LeavesFewBonds};
ghost use Rattle.mk_query.specs.Searches.{AreCounted, HasRoom, least_of};

use mk_demands::{edges_between, first_no_new_bond, is_within, natural};
use mk_model::Neighbours;
use mk_tables::RawBond;
use mk_text::Memory;
use std::alloc::Global;

// How many bonds an atom may have.
const MOST_BONDS: u32 = 20;

/// The first bond that isn't new, whose columns mean nothing, or that is the 21st of an atom.
pub fn first_unknown_bond(
    alloc: Global,
    atoms: u32,
    bonds: &[RawBond],
) -> Result<Option<u32>, Memory>
    requires few_atoms { atoms ≤ 999 }
    requires few_bonds { length bonds.now ≤ 999 }
    ensures { IfOk result (FindsLeast (IsQueryBond atoms bonds.now)) }
{
    let edges = edges_between(alloc, atoms, bonds)?;
    let near = Neighbours::of(alloc, atoms, &edges)?;
    let not_new = first_no_new_bond(&edges, &near, bonds);
    let crowding = first_crowding_bond(alloc, atoms, bonds)?;
    Ok(least_of(not_new, least_of(first_unknown_type(bonds), crowding)))
}

fn least_of(a: Option<u32>, b: Option<u32>) -> Option<u32>
    ensures { result ≡ least_of a b }
{
    match (a, b) {
        (Some(i), Some(j)) => { if i <= j { Some(i) } else { Some(j) } }
        (Some(i), None) => Some(i),
        (None, _) => b,
    }
}

// The first bond of an unknown type or topology.
fn first_unknown_type(bonds: &[RawBond]) -> Option<u32>
    requires { length bonds.now ≤ 999 }
    ensures { FindsLeast (OfItem HasQueryType bonds.now) result }
{
    for (i, bond) in bonds.iter().enumerate() {
        if !has_query_type(bond) {
            return Some(i as u32 + 1);
        }
    }
    None
}

fn has_query_type(bond: &RawBond) -> bool
    ensures { IsTrue result ↔ HasQueryType bond.now }
{
    is_within(1, 8, bond.kind) && is_within(0, 2, bond.topology)
}

// The first bond with which an atom has more than 20.
fn first_crowding_bond(alloc: Global, atoms: u32, bonds: &[RawBond]) -> Result<Option<u32>, Memory>
    requires { length bonds.now ≤ 999 }
    ensures { IfOk result (FindsLeast (LeavesFewBonds atoms bonds.now)) }
{
    let mut counts = vec![in alloc; 0u32; atoms as usize]?;
    for (i, bond) in bonds.iter().enumerate() {
        count_bond(&mut counts, bond);
        if !has_room(&counts, first_end(bond)) {
            return Ok(Some(i as u32 + 1));
        }
        if !has_room(&counts, second_end(bond)) {
            return Ok(Some(i as u32 + 1));
        }
    }
    Ok(None)
}

// Counts a bond at its ends.
fn count_bond(counts: &mut Vec<u32>, bond: &RawBond)
    requires { All (λ count. count ≤ 20) counts.old.items }
    ensures size { length counts.new.items ≡ length counts.old.items }
    ensures counted { AreCounted (λ k. touches (k + 1) (raw_edge bond.now)) counts.old.items counts.new.items }
{
    let first = first_end(bond);
    let second = second_end(bond);
    count_at(counts, first);
    if second != first {
        count_at(counts, second);
    }
}

pub fn first_end(bond: &RawBond) -> u32
    ensures { result ≡ natural bond.now.first }
{
    natural(bond.first)
}

pub fn second_end(bond: &RawBond) -> u32
    ensures { result ≡ natural bond.now.second }
{
    natural(bond.second)
}

fn count_at(counts: &mut Vec<u32>, n: u32)
    requires { All (λ count. count ≤ 21) counts.old.items }
    ensures size { length counts.new.items ≡ length counts.old.items }
    ensures counted { AreCounted (λ k. k + 1 == n) counts.old.items counts.new.items }
{
    let place = n as usize;
    if place >= 1 && place <= counts.len() {
        counts[place - 1] += 1;
    }
}

fn has_room(counts: &[u32], n: u32) -> bool
    ensures { IsTrue result ↔ HasRoom counts.now n }
{
    let place = n as usize;
    if place == 0 || place > counts.len() {
        return true;
    }
    counts[place - 1] <= MOST_BONDS
}
