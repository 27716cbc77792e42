// Whether a molecule may hold a graph, told by a search that doesn't go on for long.
ghost use Rattle.std.specs.Prelude.{◌≡◌, ◌≤◌, ◌⊎◌, IfOk, IsTrue, false, true};
ghost use Rattle.mk_counts.specs.Counts.{HasNoHit};
ghost use Rattle.mk_walk.specs.Held.{HoldsGraph, MayHold};

use crate::purse::pay;
use crate::search::Search;
use mk_model::{Graph, Memory, Mol, Turn};
use std::alloc::Global;

/// Tells whether the molecule may hold the graph: what its look ahead found is a hit, or a search of
/// at most so many turns finds one, or is still not at its end behind them, or the purse is empty. It
/// begins no matcher: nothing is counted, and no hit is given.
///
/// It pays a step for each pair of an atom of the graph and one of the molecule, for each turn, and for
/// each step of a look ahead. Where the purse is empty it asks nothing more. It may take more than was
/// in the purse: the pairs, and one look ahead of at most as many steps as were in the purse behind
/// them.
pub fn may_hold(
    alloc: Global,
    graph: &Graph,
    mol: &Mol,
    turns: u32,
    purse: &mut u64,
) -> Result<bool, Memory>
    ensures none { IfOk result (λ may. may ≡ false → HasNoHit graph.now mol.now) }
    ensures some { IfOk result (λ may. may ≡ true → MayHold graph.now mol.now turns ⊎ (purse.new ≡ 0)) }
    ensures unasked { purse.old ≡ 0 → IfOk result (λ may. may ≡ true) }
    ensures paid { purse.new ≤ purse.old }
{
    if *purse == 0 {
        return Ok(true);
    }
    pay(purse, pairs(graph, mol));
    let mut search = Search::within(alloc, graph, mol, &[], *purse)?;
    pay(purse, search.outlook.taken());
    if search.has_found(alloc, graph, mol)? {
        return Ok(true);
    }
    for _ in 0..turns {
        if *purse == 0 {
            return Ok(true);
        }
        let taken = search.outlook.taken();
        let came = search.turn(graph, mol);
        let looked = search.outlook.taken().saturating_sub(taken);
        pay(purse, looked.saturating_add(1));
        match came {
            Turn::Item => return Ok(true),
            Turn::Moved => {}
            Turn::End => return Ok(false),
        }
    }
    Ok(true)
}

// How many pairs there are of an atom of the graph and one of the molecule.
fn pairs(graph: &Graph, mol: &Mol) -> u64 {
    let atoms = graph.atom_count() as u64;
    atoms.saturating_mul(mol.atom_count() as u64)
}
