// Expansions that are kept for the next record, each under its code.
ghost use Rattle.std.specs.Prelude.{IfSome};
ghost use Rattle.mk_model.specs.Queries.{QueryView};
ghost use Rattle.mk_expansions.specs.Kept.{AreKept, IsKept, IsPlanOf};

use crate::expansions::Expansion;
use indexmap::IndexMap;
use mk_counts::Asked;
use mk_model::{Graph, Memory};
use mk_screen::Screen;
use std::alloc::Global;
use std::marker::Model;
use std::mem;

// About how many bytes a generation may take: half of 16 MB.
const MOST_BYTES: usize = 8_388_608;

/// What is kept of an expansion under its code: its graph, what it asks for, and what it needs of a
/// screen.
#[derive(Drop)]
pub struct Plan {
    pub graph: Graph,
    pub asked: Asked,
    pub need: Screen,
}

/// The expansions that were made last.
///
/// Where the young ones take too much room they become the elder ones, and those are let go. One that
/// is taken out is put back among the young.
#[derive(Drop)]
pub struct Kept {
    young: IndexMap<Vec<u32>, Plan>,
    elder: IndexMap<Vec<u32>, Plan>,
    bytes: usize,
}

impl Model for Kept {
    ghost use Rattle.mk_expansions.specs.Kept.{KeptView};

    ghost Value = { KeptView };

    ghost view = { λ k. record { young = k.young.entries; elder = k.elder.entries } };
}

impl Kept {
    /// None is kept.
    pub fn new(alloc: Global) -> Kept
        ensures { (query : QueryView) → AreKept query result }
    {
        Kept {
            young: IndexMap::new(alloc),
            elder: IndexMap::new(alloc),
            bytes: 0,
        }
    }

    /// Takes out what is kept of the expansion by a code.
    pub fn take(&mut self, code: &[u32]) -> Option<Plan>
        ensures kept { (query : QueryView) → AreKept query self.old → AreKept query self.new }
        ensures is { (query : QueryView) → AreKept query self.old → IfSome result (IsPlanOf query code.now) }
    {
        if let Some(plan) = self.young.swap_remove(code) {
            self.bytes = self.bytes.saturating_sub(bytes_of(&plan));
            return Some(plan);
        }
        self.elder.swap_remove(code)
    }

    // Counts so many bytes more. Where they are too many for the young ones, these become the elder
    // ones.
    fn make_room(&mut self, bytes: usize)
        ensures { (query : QueryView) → AreKept query self.old → AreKept query self.new }
    {
        let sum = self.bytes.saturating_add(bytes);
        if sum <= MOST_BYTES {
            self.bytes = sum;
            return;
        }
        mem::swap(&mut self.young, &mut self.elder);
        self.young.clear();
        self.bytes = bytes;
    }
}

/// Keeps an expansion, where memory allows.
pub fn keep(expansion: Expansion, kept: &mut Kept) -> Result<(), Memory>
    ensures { (query : QueryView) → AreKept query kept.old → IsKept query expansion → AreKept query kept.new }
{
    let Expansion {
        code,
        graph,
        asked,
        need,
    } = expansion;
    let plan = Plan { graph, asked, need };
    kept.make_room(bytes_of(&plan));
    kept.young.insert(code, plan)?;
    Ok(())
}

// About how many bytes what is kept of an expansion takes.
fn bytes_of(plan: &Plan) -> usize {
    let atoms = plan.graph.atoms().len().saturating_mul(128);
    let bonds = plan.graph.bonds().len().saturating_mul(64);
    atoms.saturating_add(bonds).saturating_add(1_024)
}
