// The expansion by a code, and whether a molecule may hold it.
ghost use Rattle.std.specs.Prelude.{◌≡◌, false, IfOk, IsTrue};
ghost use Rattle.mk_model.specs.Codes.{IsCode};
ghost use Rattle.mk_model.specs.Screens.{Covers, IsNeedOf, IsScreenOf};
ghost use Rattle.mk_counts.specs.Asked.{AreAsked};
ghost use Rattle.mk_counts.specs.Counts.{HasNoHit};
ghost use Rattle.mk_expansions.specs.Kept.{AreKept, IsKept};

use crate::kept::Kept;
use mk_counts::{Asked, cannot_hold, counts_asked, counts_there};
use mk_expand::expand;
use mk_model::{Graph, Memory, Mol, Query};
use mk_screen::{Screen, is_covered, need_of};
use std::alloc::Global;

/// The graph of a code, what it asks for, and what it needs of a screen.
#[derive(Drop)]
pub struct Expansion {
    pub code: Vec<u32>,
    pub graph: Graph,
    pub asked: Asked,
    pub need: Screen,
}

/// The expansion by a code, out of those that are kept where it is among them. It is kept no more then.
pub fn expansion_by(
    alloc: Global,
    query: &Query,
    code: &[u32],
    kept: &mut Kept,
) -> Result<Expansion, Memory>
    requires kept { AreKept query.now kept.old }
    requires code { IsCode query.now 0 code.now }
    ensures kept { AreKept query.now kept.new }
    ensures is { IfOk result (IsKept query.now) }
    ensures code { IfOk result (λ expansion. expansion.code.items ≡ code.now) }
{
    let own = Vec::from_slice(alloc, code)?;
    if let Some(plan) = kept.take(code) {
        return Ok(Expansion {
            code: own,
            graph: plan.graph,
            asked: plan.asked,
            need: plan.need,
        });
    }
    let graph = expand(alloc, query, code)?;
    match counts_asked(alloc, &graph) {
        Ok(asked) => {
            let need = need_of(&graph);
            Ok(Expansion {
                code: own,
                graph,
                asked,
                need,
            })
        }
        Err(memory) => {
            // For the proof alone: a call lets it go, and not the end of the block.
            drop(graph);
            Err(memory)
        }
    }
}

// ---- whether an expansion is searched for

/// Tells that a molecule's screen covers the need, and that it has enough atoms of each element.
/// Where it says no there is no hit.
pub fn may_hold(expansion: &Expansion, mol: &Mol, screen: &Screen) -> bool
    requires asked { AreAsked expansion.now.graph expansion.now.asked }
    requires need { IsNeedOf expansion.now.graph expansion.now.need }
    requires screen { IsScreenOf mol.now screen.now }
    ensures covers { IsTrue result → Covers screen.now expansion.now.need }
    ensures none { result ≡ false → HasNoHit expansion.now.graph mol.now }
{
    if !is_covered(screen, &expansion.need) {
        return false;
    }
    if cannot_hold(&expansion.asked, &counts_there(mol)) {
        return false;
    }
    true
}
